// Calls at the limits: the path of all nodes with each node active, all nodes without an edge, sizes of one more, tables of one entry less, and the order of
// the refusals.
use crate::calls;
use std::io;
use test_library::calls::Lending;
use test_library::contractions::{Contracted, Counts, Graph, Sizes, Small};
use test_library::{print, tables};
use test_random::graphs;

// A path: its sizes, how its tables are lent, the end at which edge 0 begins, and the first active entry.
#[derive(Clone, Copy)]
struct Case {
    sizes: Sizes,
    lending: Lending,
    end: usize,
    entry: usize,
}

// The small graph that is wanted of a path is the path itself, with its names, and all entries are in piece 0.
fn itself(g: &Graph) -> Small {
    Small {
        map: g.active,
        edges: g.edges,
        names: g.names,
        ..Small::empty(Ok(Counts { nodes: 0, edges: 0 }))
    }
}

impl Case {
    fn sized(n: usize, m: usize, k: usize) -> Case {
        Case {
            sizes: Sizes { n, m, k },
            lending: Lending::default(),
            end: 0,
            entry: 0,
        }
    }

    fn with_short(mut self, table: usize) -> Case {
        self.lending.short = Some(table);
        self
    }

    fn with_bad_end(mut self) -> Case {
        self.end = 65000;
        self
    }

    fn with_bad_entry(mut self) -> Case {
        self.entry = 65000;
        self
    }

    fn run(&self) -> Contracted {
        let mut g = graphs::path(self.sizes);
        let want = itself(&g);
        tables::set(&mut g.edges.from, 0, self.end);
        tables::set(&mut g.active, 0, self.entry);
        calls::run(&g, calls::lengths(self.sizes, self.lending), &want)
    }

    // The number by which it is refused, as it is printed.
    fn code(&self) -> usize {
        self.run().code()
    }
}

// How many of the ten tables are refused by 2 where they are one entry short.
fn short_refused() -> usize {
    (1..11)
        .filter(|table| Case::sized(3, 2, 2).with_short(*table).code() == 2)
        .count()
}

// Internal: sizes are refused before lengths, lengths before ends, ends before entries: calls with all four faults, all but the first, and so on.
pub fn report_refusals(rt: &impl Print) -> io::Result<()> {
    let entry = Case::sized(1, 1, 1).with_bad_entry();
    let end = entry.with_bad_end();
    let short = end.with_short(1);
    let all = Case::sized(4097, 1, 1).with_bad_entry().with_bad_end();
    let rows = [
        ("least lengths, reply", Case::sized(3, 2, 2).code()),
        (
            "of 10 tables one entry short, refused by 2 with all entries kept",
            short_refused(),
        ),
        (
            "faults of size, length, edge and entry at once, reply",
            all.with_short(1).code(),
        ),
        ("of length, edge and entry", short.code()),
        ("of edge and entry", end.code()),
        ("of entry", entry.code()),
        ("4097 nodes, reply", Case::sized(4097, 8192, 8192).code()),
        ("8193 edges, reply", Case::sized(4096, 8193, 8192).code()),
        ("8193 entries, reply", Case::sized(4096, 8192, 8193).code()),
        ("nothing at all, reply", Case::sized(0, 0, 0).code()),
    ];
    print::counts(rt, &rows)
}

// All nodes without an edge, each node in turn active: the pieces are numbered as the nodes.
fn alone() -> Contracted {
    let sizes = Sizes {
        n: 4096,
        m: 0,
        k: 8192,
    };
    let g = graphs::path(sizes);
    let mut want = itself(&g);
    want.pieces = g.active;
    calls::run(&g, calls::lengths(sizes, Lending::default()), &want)
}

// The rows of the reply and of the map of a call with all nodes.
fn report_reply(rt: &impl Print, what: &str, contracted: &Contracted) -> io::Result<()> {
    let counts = contracted.reply.unwrap_or_default();
    let rows = [
        (what, contracted.code()),
        ("nodes", counts.nodes),
        ("edges", counts.edges),
        (
            "map entries right",
            8192usize.saturating_sub(contracted.wrong.map),
        ),
    ];
    print::counts(rt, &rows)
}

// Internal: calls with all nodes, of the path and without an edge: the replies, and how much of the tables is as it must be.
pub fn report_full(rt: &impl Print) -> io::Result<()> {
    let path = Case::sized(4096, 8192, 8192).run();
    report_reply(rt, "4096 nodes, 8192 edges, 8192 entries, reply", &path)?;
    let wrong = path.wrong;
    let rows = [
        ("ends of edges right", 8190usize.saturating_sub(wrong.ends)),
        ("names right", 4095usize.saturating_sub(wrong.names)),
        ("pieces right", 8192usize.saturating_sub(wrong.pieces)),
        ("words 0", 131584usize.saturating_sub(wrong.work)),
    ];
    print::counts(rt, &rows)?;
    let alone = alone();
    report_reply(rt, "4096 nodes, no edge, 8192 entries, reply", &alone)?;
    let rows = [
        ("names written", alone.wrong.names),
        ("pieces right", 8192usize.saturating_sub(alone.wrong.pieces)),
    ];
    print::counts(rt, &rows)
}
