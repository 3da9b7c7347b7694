// Counts of random graphs, and of what is met among them, so that the report shows that the comparison has seen it.
use std::io;
use test_library::contractions::{Graph, Small};
use test_library::counts::Count;
use test_library::{print, refusals, tables};

// All graphs; those on which the call disagrees; those that are refused by 2, 4 and 8; and those that are accepted, of which there are such with a kept class
// without an active node; with two pieces or more; with entries that come back to a piece after another; with an active entry twice; with an active node
// without an edge; and without an active entry. Then the edges out, those that stand for two edges or more, and those with the name 65535.
#[derive(Clone, Copy, Default)]
pub struct Totals {
    graphs: Count,
    disagreements: Count,
    by_two: Count,
    by_four: Count,
    by_eight: Count,
    accepted: Count,
    inner: Count,
    apart: Count,
    returning: Count,
    repeated: Count,
    single: Count,
    silent: Count,
    edges: Count,
    spliced: Count,
    largest: Count,
}

// Whether an active entry comes twice.
fn has_repeated(g: &Graph) -> bool {
    let k = g.sizes.k;
    let active = &g.active;
    (0..k).any(|i| tables::tally(active, k, tables::at(active, i)) > 1)
}

// How many ends of edges are at node v.
fn ends_at(g: &Graph, v: usize) -> usize {
    let m = g.sizes.m;
    tables::tally(&g.edges.from, m, v).saturating_add(tables::tally(&g.edges.to, m, v))
}

// Whether an active node has no edge.
fn has_single(g: &Graph) -> bool {
    (0..g.sizes.k).any(|i| ends_at(g, tables::at(&g.active, i)) == 0)
}

// Whether the entries come back to a piece after another one: a number is below that before it.
fn has_return(k: usize, pieces: &[u16]) -> bool {
    pieces
        .iter()
        .zip(pieces.iter().skip(1).take(k.saturating_sub(1)))
        .any(|(before, number)| number < before)
}

impl Totals {
    // Counts an accepted graph by its active entries.
    fn add_entries(&mut self, g: &Graph) {
        self.repeated.add_if(has_repeated(g));
        self.single.add_if(has_single(g));
        self.silent.add_if(g.sizes.k == 0);
    }

    // Counts the small graph of k active entries, with so many edges.
    fn add_small(&mut self, small: &Small, k: usize, edges: usize) {
        self.accepted.add(1);
        self.inner.add_if(small.inner > 0);
        self.apart.add_if(tables::tally(&small.pieces, k, 0) < k);
        self.returning.add_if(has_return(k, &small.pieces));
        self.edges.add(edges);
        self.spliced.add(small.spliced);
        self.largest.add(tables::tally(&small.names, edges, 65535));
    }

    // Internal: counts a graph, with the small graph that is wanted.
    pub fn add(&mut self, g: &Graph, want: &Small, is_right: bool) {
        self.graphs.add(1);
        self.disagreements.add_if(!is_right);
        match want.reply {
            Ok(counts) => {
                self.add_small(want, g.sizes.k, counts.edges);
                self.add_entries(g);
            }
            Err(refusal) => {
                self.by_two.add_if(refusal.code == refusals::SHORT);
                self.by_four.add_if(refusal.code == refusals::END);
                self.by_eight.add_if(refusal.code == refusals::ENTRY);
            }
        }
    }

    // Internal: prints the counts.
    pub fn report(&self, rt: &impl Print) -> io::Result<()> {
        let rows = [
            ("random cases", self.graphs),
            ("disagreements", self.disagreements),
            ("accepted", self.accepted),
            ("with a kept class without an active node", self.inner),
            ("with two pieces or more", self.apart),
            (
                "with entries that come back to a piece after another",
                self.returning,
            ),
            ("with an active entry twice", self.repeated),
            ("with an active node without an edge", self.single),
            ("without an active entry", self.silent),
            ("edges out", self.edges),
            ("for two edges or more", self.spliced),
            ("with the name 65535", self.largest),
            ("refused by 2", self.by_two),
            ("by 4", self.by_four),
            ("by 8", self.by_eight),
        ];
        print::counts(rt, &rows)
    }
}
