// Pieces, classes and kept classes of a graph, by its open edges. Past 512 nodes a node goes round.
use test_library::edges::Edges;
use test_library::tables;
use test_library::tables::{NodeMarks, Numbers};

// The pieces of a graph, each a tree of nodes: the node above each one, which is smaller; none above the top of a tree.
#[derive(Clone, Copy)]
pub struct Pieces {
    above: [Option<u16>; 512],
}

impl Pieces {
    // Each node alone.
    fn alone() -> Pieces {
        Pieces { above: [None; 512] }
    }

    // The node at the top of the tree of v.
    fn top(&self, v: usize) -> usize {
        let mut top = v;
        for _ in 0..512 {
            let Some(up) = self.above[top % 512] else {
                return top;
            };
            top = usize::from(up);
        }
        top
    }

    // Internal: whether u and v are in one piece.
    pub fn together(&self, u: usize, v: usize) -> bool {
        self.top(u) == self.top(v)
    }

    // Joins the pieces of u and v.
    fn join(&mut self, u: usize, v: usize) {
        let r = self.top(u);
        let s = self.top(v);
        if r != s {
            self.above[r.max(s) % 512] = Some((r.min(s) % 65536) as u16);
        }
    }
}

// A graph: how many nodes and edges it has, the ends of its edges, and which of them are open.
#[derive(Clone, Copy)]
pub struct OpenGraph<'a> {
    pub nodes: usize,
    pub count: usize,
    pub edges: &'a Edges,
    pub open: &'a [bool],
}

impl<'a> OpenGraph<'a> {
    // Internal: the pieces when one edge is removed, or none, and some nodes are taken away.
    pub fn pieces_without<F: Fn(usize) -> bool>(&self, removed: Option<usize>, is_away: F) -> Pieces
        requires { F.IsAlwaysCallable is_away }
    {
        let mut pieces = Pieces::alone();
        for e in 0..self.count {
            let (u, v) = self.edges.ends(e);
            let is_there = tables::is_marked(self.open, e) && removed != Some(e);
            if is_there && !is_away(u) && !is_away(v) {
                pieces.join(u, v);
            }
        }
        pieces
    }

    // The pieces when one edge is removed, or none.
    fn pieces(&self, removed: Option<usize>) -> Pieces {
        self.pieces_without(removed, |_| false)
    }

    // Internal: the pieces when nothing is removed.
    pub fn all_pieces(&self) -> Pieces {
        self.pieces(None)
    }

    // Internal: whether edge e is there and its loss parts u and v, or leaves them apart.
    pub fn is_parting(&self, e: usize, u: usize, v: usize) -> bool {
        tables::is_marked(self.open, e) && !self.pieces(Some(e)).together(u, v)
    }

    // Internal: how many edges part u and v, which are joined.
    pub fn parting(&self, u: usize, v: usize) -> usize {
        (0..self.count)
            .filter(|e| self.is_parting(*e, u, v))
            .count()
    }

    // Internal: the answer to a query of u and v.
    pub fn answer(&self, u: usize, v: usize) -> u8 {
        if !self.all_pieces().together(u, v) {
            return 0;
        }
        if (0..self.count).any(|e| self.is_parting(e, u, v)) {
            return 1;
        }
        2
    }
}

// The classes of a graph: for each node the smallest that it is joined to, also after the removal of each single edge; and its pieces.
#[derive(Clone, Copy)]
pub struct Classes {
    smallest: Numbers,
    pieces: Pieces,
}

impl Classes {
    fn new(graph: &OpenGraph) -> Classes {
        let mut classes = Classes {
            smallest: [0; 512],
            pieces: Pieces::alone(),
        };
        classes.part(&graph.all_pieces(), graph.nodes);
        for e in 0..graph.count {
            if tables::is_marked(graph.open, e) {
                classes.add(graph, e);
            }
        }
        classes
    }

    // Internal: the smallest node of the class of v.
    pub fn of(&self, v: usize) -> usize {
        tables::get(&self.smallest, v)
    }

    // The first node with the class of v and its piece in p.
    fn first_like(&self, p: &Pieces, v: usize) -> usize {
        (0..v)
            .find(|w| self.of(*w) == self.of(v) && p.together(*w, v))
            .unwrap_or(v)
    }

    // Parts the classes along these pieces: a node gets another class where its piece is not that of its class's first node. It goes from the last node down,
    // so that the classes of the smaller nodes are still those before.
    fn part(&mut self, p: &Pieces, nodes: usize) {
        for v in (0..nodes).rev() {
            if !p.together(v, self.of(v)) {
                let first = self.first_like(p, v);
                tables::put(&mut self.smallest, v, first);
            }
        }
    }

    // Adds edge e to the pieces. Where its ends were not joined before, its removal may part classes; it does where it parts its ends.
    fn add(&mut self, graph: &OpenGraph, e: usize) {
        let (u, v) = graph.edges.ends(e);
        if self.pieces.together(u, v) {
            return;
        }
        self.pieces.join(u, v);
        let left = graph.pieces(Some(e));
        if !left.together(u, v) {
            self.part(&left, graph.nodes);
        }
    }
}

// The kept classes of a graph: those with an active node, and those without one where three others hold one, each in a part of its own.
#[derive(Clone, Copy)]
pub struct Kept<'a> {
    graph: OpenGraph<'a>,
    active: &'a [bool],
    pub classes: Classes,
    // Marks the smallest node of each class with an active node.
    held: NodeMarks,
}

impl<'a> Kept<'a> {
    // Internal: the kept classes of a graph with these active nodes.
    pub fn new(graph: OpenGraph<'a>, active: &'a [bool]) -> Kept<'a> {
        let classes = Classes::new(&graph);
        let mut held = [false; 512];
        for v in 0..graph.nodes {
            if tables::is_marked(active, v) {
                held[classes.of(v) % 512] = true;
            }
        }
        Kept {
            graph,
            active,
            classes,
            held,
        }
    }

    // How many parts of z's piece hold an active node when the class z is taken away.
    fn parts(&self, z: usize) -> usize {
        let left = self.graph.pieces_without(None, |v| self.classes.of(v) == z);
        let mut met = [false; 512];
        for v in 0..self.graph.nodes {
            if tables::is_marked(self.active, v) && self.classes.pieces.together(z, v) {
                met[left.top(v) % 512] = true;
            }
        }
        tables::marked_nodes(&met, self.graph.nodes)
    }

    // Internal: whether z is the smallest node of a kept class.
    pub fn has(&self, z: usize) -> bool {
        self.classes.of(z) == z && (self.held[z % 512] || self.parts(z) >= 3)
    }

    // Internal: how many classes are kept.
    pub fn count(&self) -> usize {
        let held = tables::marked_nodes(&self.held, self.graph.nodes);
        if held < 3 {
            return held;
        }
        (0..self.graph.nodes).filter(|z| self.has(*z)).count()
    }
}
