// What a contraction is lent, and what comes of it.
use crate::calls::Lending;
use crate::edges::Edges;
use crate::refusals;
use crate::refusals::Refusal;
use crate::tables::Entries;

// The nodes, the edges and the active entries.
#[derive(Clone, Copy)]
pub struct Sizes {
    pub n: usize,
    pub m: usize,
    pub k: usize,
}

// The edges' ends, their names, and the active entries.
#[derive(Drop)]
pub struct Graph {
    pub sizes: Sizes,
    pub edges: Edges,
    pub names: Entries,
    pub active: Entries,
}

impl Graph {
    // Internal: a graph of these sizes, with the same entry everywhere.
    pub fn filled(sizes: Sizes, entry: u16) -> Graph {
        Graph {
            sizes,
            edges: Edges::filled(entry),
            names: [entry; 8200],
            active: [entry; 8200],
        }
    }
}

// The lengths of the tables.
#[derive(Clone, Copy)]
pub struct Lengths {
    pub from: usize,
    pub to: usize,
    pub names: usize,
    pub active: usize,
    pub map: usize,
    pub out_from: usize,
    pub out_to: usize,
    pub out_names: usize,
    pub pieces: usize,
    pub work: usize,
}

impl Lengths {
    // Internal: those of a graph of these sizes, with a work table of at least so many words, lent so. The tables have the numbers from 1 to 10.
    pub fn new(sizes: Sizes, words: usize, lending: Lending) -> Lengths {
        let m = sizes.m;
        let k = sizes.k;
        let ends = k.saturating_add(k);
        Lengths {
            from: lending.length(1, m),
            to: lending.length(2, m),
            names: lending.length(3, m),
            active: lending.length(4, k),
            map: lending.length(5, k),
            out_from: lending.length(6, ends),
            out_to: lending.length(7, ends),
            out_names: lending.length(8, ends),
            pieces: lending.length(9, k),
            work: lending.length(10, words),
        }
    }
}

// The two numbers that are returned: of the small graph the nodes and the edges.
#[derive(Clone, Copy, PartialEq, Eq, Default)]
pub struct Counts {
    pub nodes: usize,
    pub edges: usize,
}

pub type Reply = Result<Counts, Refusal>;

// The small graph that is wanted: the reply, the tables, how many nodes have no active one, and how many edges stand for two or more.
#[derive(Drop)]
pub struct Small {
    pub reply: Reply,
    pub map: Entries,
    pub edges: Edges,
    pub names: Entries,
    pub pieces: Entries,
    pub inner: usize,
    pub spliced: usize,
}

impl Small {
    // Internal: with this reply and with zeros in its tables.
    pub fn empty(reply: Reply) -> Small {
        Small {
            reply,
            map: [0; 8200],
            edges: Edges::filled(0),
            names: [0; 8200],
            pieces: [0; 8200],
            inner: 0,
            spliced: 0,
        }
    }
}

// How many entries of the tables that a call writes are wrong; of the ends of both tables together.
#[derive(Clone, Copy, PartialEq, Eq, Default)]
pub struct Wrong {
    pub map: usize,
    pub ends: usize,
    pub names: usize,
    pub pieces: usize,
    pub work: usize,
}

// What comes of a call: the reply, and how many entries are wrong.
#[derive(Clone, Copy)]
pub struct Contracted {
    pub reply: Reply,
    pub wrong: Wrong,
}

impl Contracted {
    // Internal: whether it gives the reply that is wanted, and no wrong entry.
    pub fn agrees(&self, want: Reply) -> bool {
        self.reply == want && self.wrong == Wrong::default()
    }

    // Internal: the number by which it is refused, as it is printed: 0 where there is none, and 99, which is no refusal's number, where an entry was changed.
    // Kept: 0 and 99 in place of an enum, by the rule that a program prints what it printed.
    pub fn code(&self) -> usize {
        if self.reply.is_err() && self.wrong != Wrong::default() {
            return 99;
        }
        refusals::printed(&self.reply).code
    }
}
