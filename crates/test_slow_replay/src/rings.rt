// Rings of at least three places: the first junctions are the places, and segment e goes between place e and the next, counted round, in either order. So the
// segments at one place are one road, for which the segment with the number of the place stands. An answer is told by walking both ways round, and a name by
// walking the open way. Where each place has an open road to the next, the ring is one class; else each place is a class, and these lie in rows, so that none
// without an active junction is kept.
use test_library::tables::Marks;
use test_library::{random, tables};

#[derive(Clone, Copy)]
pub(crate) struct Ring {
    pub(crate) places: usize,
}

impl Ring {
    // The place behind k, counted round.
    fn next(&self, k: usize) -> usize {
        let behind = k.saturating_add(1);
        if behind < self.places { behind } else { 0 }
    }

    // One edge for each place that has an open road to the next.
    pub(crate) fn edges(&self, open: &[bool]) -> Marks {
        let mut edges = [false; 8192];
        let mut k = 0;
        for is_open in open {
            if *is_open {
                tables::mark(&mut edges, k, true);
            }
            k = self.next(k);
        }
        edges
    }

    // Takes the road of segment e away.
    pub(crate) fn remove(&self, edges: &mut Marks, e: usize) {
        tables::mark(edges, random::round(e, self.places), false);
    }

    // Whether open roads lead from place u on to place v.
    fn is_way(&self, edges: &[bool], u: usize, v: usize) -> bool {
        let mut k = u;
        for _ in 0..4096 {
            if k == v {
                return true;
            }
            if !tables::is_marked(edges, k) {
                return false;
            }
            k = self.next(k);
        }
        false
    }

    // The answer to a query of two junctions: on the ring the number of ways round that are open.
    pub(crate) fn answer(&self, edges: &[bool], u: usize, v: usize) -> u8 {
        if u == v {
            return 2;
        }
        if u >= self.places || v >= self.places {
            return 0;
        }
        u8::from(self.is_way(edges, u, v)) + u8::from(self.is_way(edges, v, u))
    }

    // The smallest place on the way from u on to v that has a road to the next.
    fn smallest(&self, u: usize, v: usize) -> usize {
        let mut k = u;
        let mut least = u;
        for _ in 0..4096 {
            if k == v {
                return least;
            }
            least = least.min(k);
            k = self.next(k);
        }
        least
    }

    // The smallest name of a road between u and v, where just one way round is open: the loss of each road on it parts the two. A road's name is its place.
    pub(crate) fn name(&self, edges: &[bool], u: usize, v: usize) -> usize {
        if self.is_way(edges, u, v) {
            return self.smallest(u, v);
        }
        self.smallest(v, u)
    }

    // Whether all places are one class.
    pub(crate) fn is_whole(&self, edges: &[bool]) -> bool {
        (0..self.places).all(|k| tables::is_marked(edges, k))
    }

    // The first junction of the class of v, where the ring is whole or is not.
    pub(crate) fn class(&self, is_whole: bool, v: usize) -> usize {
        if is_whole && v < self.places { 0 } else { v }
    }
}
