// The slow contraction: links by taking away the nodes of each third kept class, names by removing the edges in turn, and pieces by comparing each active entry
// with those before it.
ghost use Rattle.std.specs.Prelude.{◌≤◌};

use test_library::contractions::{Counts, Graph, Lengths, Sizes, Small};
use test_library::refusals::Refusal;
use test_library::tables::{Marks, Numbers};
use test_library::{refusals, tables};
use test_slow_graphs::graphs::{Kept, OpenGraph};

fn active_nodes(g: &Graph) -> Marks {
    let mut marks = [false; 8192];
    for i in 0..g.sizes.k {
        tables::mark(&mut marks, tables::at(&g.active, i), true);
    }
    marks
}

// The numbers of the kept classes, of which each is named by its smallest node: the number of a class, and the class of a number. Past 512 they go round.
#[derive(Clone, Copy)]
struct Numbering {
    numbers: [Option<u16>; 512],
    classes: Numbers,
    count: usize,
}

impl Numbering {
    fn number(&self, class: usize) -> Option<usize> {
        match self.numbers[class % 512] {
            Some(number) => Some(usize::from(number)),
            None => None,
        }
    }

    fn class(&self, number: usize) -> usize {
        tables::get(&self.classes, number)
    }

    // Gives a class the next number, where it has none yet.
    fn give(&mut self, class: usize) {
        if self.numbers[class % 512].is_none() {
            self.numbers[class % 512] = Some((self.count % 512) as u16);
            tables::put(&mut self.classes, self.count, class);
            self.count = self.count.saturating_add(1);
        }
    }
}

// A graph, its kept classes and their numbers.
#[derive(Clone, Copy)]
struct SlowContraction<'a> {
    given: &'a Graph,
    graph: OpenGraph<'a>,
    kept: Kept<'a>,
    numbering: Numbering,
}

impl<'a> SlowContraction<'a> {
    fn new(given: &'a Graph, graph: OpenGraph<'a>, active: &'a Marks) -> SlowContraction<'a> {
        let numbering = Numbering {
            numbers: [None; 512],
            classes: [0; 512],
            count: 0,
        };
        SlowContraction {
            given,
            graph,
            kept: Kept::new(graph, active),
            numbering,
        }
    }

    // The class of active entry i.
    fn class_of_entry(&self, i: usize) -> usize {
        let given = self.given;
        self.kept.classes.of(tables::at(&given.active, i))
    }

    // Numbers the kept classes of the active entries.
    fn number_active(&mut self) {
        for i in 0..self.given.sizes.k {
            let class = self.class_of_entry(i);
            if self.kept.has(class) {
                self.numbering.give(class);
            }
        }
    }

    // Numbers the other kept classes, by their smallest node.
    fn number_others(&mut self) {
        for class in 0..self.graph.nodes {
            if self.kept.has(class) {
                self.numbering.give(class);
            }
        }
    }

    // Whether a node is of a kept class other than those with the numbers x and y.
    fn is_third(&self, v: usize, x: usize, y: usize) -> bool {
        self.numbering
            .number(self.kept.classes.of(v))
            .is_some_and(|z| z != x && z != y)
    }

    // Whether a route between the classes x and y meets no third kept class.
    fn are_linked(&self, x: usize, y: usize) -> bool {
        let left = self.graph.pieces_without(None, |v| self.is_third(v, x, y));
        left.together(self.numbering.class(x), self.numbering.class(y))
    }

    // The smallest name of an edge whose loss parts u and v, which are joined; 65535 where there is none.
    fn name(&self, u: usize, v: usize) -> usize {
        let given = self.given;
        (0..given.sizes.m)
            .filter(|e| self.graph.is_parting(*e, u, v))
            .map(|e| tables::at(&given.names, e))
            .min()
            .unwrap_or(65535)
    }

    // Writes the edges among the first `most` nodes, each pair of numbers in ascending order, and answers how many there are.
    fn write_edges(&self, small: &mut Small, most: usize) -> usize {
        let mut edges = 0usize;
        let count = self.numbering.count.min(most);
        for x in 0..count {
            for y in x + 1..count {
                if self.are_linked(x, y) {
                    tables::set(&mut small.edges.from, edges, x);
                    tables::set(&mut small.edges.to, edges, y);
                    edges = edges.saturating_add(1);
                }
            }
        }
        edges
    }

    // Writes the name of each edge between two classes, and counts the edges that stand for two edges or more.
    fn write_names(&self, small: &mut Small, edges: usize) {
        for i in 0..edges {
            let (x, y) = small.edges.ends(i);
            let u = self.numbering.class(x);
            let v = self.numbering.class(y);
            tables::set(&mut small.names, i, self.name(u, v));
            if self.graph.parting(u, v) > 1 {
                small.spliced = small.spliced.saturating_add(1);
            }
        }
    }

    // Writes the numbers of the active entries.
    fn write_map(&self, map: &mut [u16]) {
        for i in 0..self.given.sizes.k {
            let number = self.numbering.number(self.class_of_entry(i));
            tables::set(map, i, number.unwrap_or(0));
        }
    }

    // Writes the number of the piece of each active entry, from 0 by first appearance: that of an earlier entry, or the next one.
    fn write_pieces(&self, numbers: &mut [u16]) {
        let given = self.given;
        let pieces = self.graph.all_pieces();
        let mut count = 0usize;
        for i in 0..given.sizes.k {
            let v = tables::at(&given.active, i);
            match (0..i).find(|j| pieces.together(tables::at(&given.active, *j), v)) {
                Some(earlier) => {
                    let number = tables::at(numbers, earlier);
                    tables::set(numbers, i, number);
                }
                None => {
                    tables::set(numbers, i, count);
                    count = count.saturating_add(1);
                }
            }
        }
    }
}

// The contraction of a graph without a fault, with the edges among its first `most` nodes.
fn contracted(given: &Graph, most: usize) -> Small {
    let open = [true; 8192];
    let active = active_nodes(given);
    let graph = OpenGraph {
        nodes: given.sizes.n,
        count: given.sizes.m,
        edges: &given.edges,
        open: &open,
    };
    let mut contraction = SlowContraction::new(given, graph, &active);
    contraction.number_active();
    let with_active = contraction.numbering.count;
    contraction.number_others();
    let nodes = contraction.numbering.count;
    let mut small = Small::empty(Ok(Counts { nodes, edges: 0 }));
    let edges = contraction.write_edges(&mut small, most);
    small.reply = Ok(Counts { nodes, edges });
    small.inner = nodes.saturating_sub(with_active);
    contraction.write_names(&mut small, edges);
    contraction.write_map(&mut small.map);
    contraction.write_pieces(&mut small.pieces);
    small
}

// Internal: the least length of the work table. Sizes count up to one past their limits.
pub fn required(sizes: Sizes) -> usize
    ensures { result ≤ 131608 }
{
    sizes.n.min(4097) * 16 + sizes.m.min(8193) * 8 + 512
}

// Whether a table is shorter than it must be.
fn is_short(sizes: Sizes, l: Lengths) -> bool {
    let m = sizes.m;
    let k = sizes.k;
    let ends = k.saturating_add(k);
    let graph = l.from < m || l.to < m || l.names < m || l.active < k;
    let edges = l.out_from < ends || l.out_to < ends || l.out_names < ends;
    let result = l.map < k || edges || l.pieces < k;
    graph || result || l.work < required(sizes)
}

// The refusal of a graph whose tables have these lengths, where it has a fault.
fn fault(g: &Graph, lengths: Lengths) -> Option<Refusal> {
    let Sizes { n, m, k } = g.sizes;
    if n > 4096 || m > 8192 || k > 8192 {
        return Some(Refusal::of(refusals::SIZE));
    }
    if is_short(g.sizes, lengths) {
        return Some(Refusal::of(refusals::SHORT));
    }
    if let Some(place) = g.edges.first_bad(n, m) {
        let code = refusals::END;
        return Some(Refusal { code, place });
    }
    let place = (0..k).find(|i| tables::at(&g.active, *i) >= n)?;
    let code = refusals::ENTRY;
    Some(Refusal { code, place })
}

// Internal: the contraction of a graph whose tables have these lengths; or its refusal.
pub fn reply(g: &Graph, lengths: Lengths) -> Small {
    match fault(g, lengths) {
        Some(refusal) => Small::empty(Err(refusal)),
        None => contracted(g, 512),
    }
}

// Internal: the same where there are at most 32 nodes: those with other numbers get no edges.
pub fn reply_of_32(g: &Graph, lengths: Lengths) -> Small {
    match fault(g, lengths) {
        Some(refusal) => Small::empty(Err(refusal)),
        None => contracted(g, 32),
    }
}
