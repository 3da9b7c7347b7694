// Random networks of several kinds.
use test_library::edges::Edges;
use test_library::{random, tables};

// What the edges are like: any; a ring; a ring with each edge twice; a tree; a tree with each edge twice; three centres in a row and in a ring, with leaves;
// within the even nodes and within the odd ones; a ring with a loop at each node; a path, with loops at its last node for the edges that are left; a ring, with
// more edges beside the first ones for those that are left, and each edge in either order. In the last three kinds cycles share nodes: cycles of three edges at
// node 0; a tree of such cycles, each of which shares a node with an earlier one; a tree of blocks of five edges, each a cycle of four with one edge across.
#[derive(Clone, Copy, PartialEq, Eq)]
pub enum Kind {
    Any,
    Ring,
    DoubledRing,
    Tree,
    DoubledTree,
    CentresInRow,
    CentresInRing,
    EvenAndOdd,
    RingWithLoops,
    Path,
    TurnedRing,
    Cycles,
    TreeOfCycles,
    TreeOfBlocks,
}

impl Kind {
    // Kind i of nine, counted round.
    pub(crate) fn nth(i: usize) -> Kind {
        match i % 9 {
            0 => Kind::Any,
            1 => Kind::Ring,
            2 => Kind::DoubledRing,
            3 => Kind::Tree,
            4 => Kind::DoubledTree,
            5 => Kind::CentresInRow,
            6 => Kind::CentresInRing,
            7 => Kind::EvenAndOdd,
            _ => Kind::RingWithLoops,
        }
    }

    // Kind i of the three whose cycles share nodes, counted round.
    pub(crate) fn nth_shared(i: usize) -> Kind {
        match i % 3 {
            0 => Kind::Cycles,
            1 => Kind::TreeOfCycles,
            _ => Kind::TreeOfBlocks,
        }
    }
}

// What the segments are drawn by: the kind, the seed, how many there are, over how many of the first junctions, and along how many of the first edges of this
// kind, in either order, so that many segments are of one road; where no number is given, segment e is edge e.
#[derive(Clone, Copy)]
pub struct Network {
    pub kind: Kind,
    pub seed: usize,
    pub segments: usize,
    pub places: usize,
    pub roads: Option<usize>,
}

// The end of a tree's edge: edge i joins node i + 1 to a smaller one.
fn tree_end(s: usize, i: usize, side: usize) -> usize {
    let node = i.saturating_add(1);
    if side == 0 {
        node
    } else {
        random::at(s, 1, i, node)
    }
}

// Of three centres in a row, or in a ring, with leaves: the first edges join the centres 0, 1 and 2, and the others the leaves to them.
fn centre_end(s: usize, i: usize, side: usize, row: usize) -> usize {
    if side == 0 {
        return i.saturating_add(row);
    }
    if i < 3 - row % 2 {
        return (i + 1 - row % 2) % 3;
    }
    random::at(s, 1, i, 3)
}

// Of the cycle of the edges i / 3 * 3 and the next two: its corners are the node that it shares and two of its own.
fn cycle_end(shared: usize, i: usize, far: usize) -> usize {
    match (i % 3 + far % 2) % 3 {
        0 => shared,
        corner => (i / 3 * 2).saturating_add(corner),
    }
}

// Of the block of the edges i / 5 * 5 and the next four: its corners are the node that it shares and three of its own; the last edge goes across.
fn block_end(shared: usize, i: usize, far: usize) -> usize {
    let along = (i % 5 + far % 2) % 4;
    let corner = if i % 5 == 4 { far % 2 * 2 } else { along };
    if corner == 0 {
        return shared;
    }
    (i / 5 * 3).saturating_add(corner)
}

// A node of the cycles or blocks before number j, which have so many of their own.
fn shared_node(s: usize, j: usize, own: usize) -> usize {
    random::at(s, 1, j, own.saturating_add(1))
}

impl Network {
    // One end of edge e of this kind.
    pub(crate) fn end(&self, e: usize, side: usize) -> usize {
        let s = self.seed;
        let n = self.places;
        let i = e % 8192;
        let far = side % 2;
        let v = match self.kind {
            Kind::Any => random::at(s, far, i, n),
            Kind::Ring => i + far,
            Kind::DoubledRing => i / 2 + far,
            Kind::Tree => tree_end(s, i, far),
            Kind::DoubledTree => tree_end(s, i / 2, far),
            Kind::CentresInRow => centre_end(s, i, far, 1),
            Kind::CentresInRing => centre_end(s, i, far, 0),
            Kind::EvenAndOdd => random::at(s, far, i, n) % 8192 / 2 * 2 + i % 2,
            Kind::RingWithLoops => (i + far + 1) / 2,
            Kind::Path => (i + far).min(n.saturating_sub(1)),
            Kind::TurnedRing => i + (far + random::at(s, 23, i, 2) % 2) % 2,
            Kind::Cycles => cycle_end(0, i, far),
            Kind::TreeOfCycles => cycle_end(shared_node(s, i / 3, i / 3 * 2), i, far),
            Kind::TreeOfBlocks => block_end(shared_node(s, i / 5, i / 5 * 3), i, far),
        };
        random::round(v, n)
    }

    fn segment_end(&self, e: usize, side: usize) -> usize {
        match self.roads {
            None => self.end(e, side),
            Some(roads) => {
                let along = random::at(self.seed, 22, e, roads);
                let turned = random::at(self.seed, 23, e, 2);
                self.end(along, side.saturating_add(turned))
            }
        }
    }

    // Internal: makes the ends of all segments.
    pub fn make_ends(&self, segments: &mut Edges) {
        for e in 0..self.segments {
            tables::set(&mut segments.from, e, self.segment_end(e, 0));
            tables::set(&mut segments.to, e, self.segment_end(e, 1));
        }
    }
}

// Puts an end that is no junction of n into a network.
pub(crate) fn spoil(segments: &mut Edges, s: usize, n: usize) {
    let segment = random::at(s, 13, 0, 12);
    let node = n.saturating_add(random::at(s, 11, 0, 3));
    if random::at(s, 12, 0, 2) == 0 {
        tables::set(&mut segments.from, segment, node);
    } else {
        tables::set(&mut segments.to, segment, node);
    }
}
