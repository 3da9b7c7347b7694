// The ends of the edges of a graph, or of the segments of a network.
use crate::tables;
use crate::tables::Entries;

#[derive(Clone, Copy)]
pub struct Edges {
    pub from: Entries,
    pub to: Entries,
}

impl Edges {
    // Internal: with the same node everywhere.
    pub fn filled(node: u16) -> Edges {
        Edges {
            from: [node; 8200],
            to: [node; 8200],
        }
    }

    // Internal: the ends of edge e.
    pub fn ends(&self, e: usize) -> (usize, usize) {
        (tables::at(&self.from, e), tables::at(&self.to, e))
    }

    // Internal: the first of m edges with an end that is no node of n.
    pub fn first_bad(&self, n: usize, m: usize) -> Option<usize> {
        (0..m).find(|e| {
            let (u, v) = self.ends(*e);
            u >= n || v >= n
        })
    }
}
