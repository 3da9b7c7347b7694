// Roads: segments with the same two ends, in either order, are of one road. Ends are compared pair by pair.
use test_library::edges::Edges;
use test_library::replays::List;
use test_library::tables;
use test_library::tables::Marks;

// Whether segment f goes from the first end of segment e to the second.
fn is_alike(segments: &Edges, e: usize, f: usize) -> bool {
    segments.ends(e) == segments.ends(f)
}

// Whether it goes from the second end to the first.
fn is_turned(segments: &Edges, e: usize, f: usize) -> bool {
    let (u, v) = segments.ends(f);
    segments.ends(e) == (v, u)
}

// Whether two segments are of one road.
fn is_one(segments: &Edges, e: usize, f: usize) -> bool {
    is_alike(segments, e, f) || is_turned(segments, e, f)
}

// Whether segment e is the first of its road that is open.
fn is_first(segments: &Edges, open: &[bool], e: usize) -> bool {
    let is_other = |f: usize| tables::is_marked(open, f) && is_one(segments, e, f);
    tables::is_marked(open, e) && !(0..e).any(is_other)
}

// One edge for each open road: its first open segment.
pub(crate) fn edges(list: &List, open: &[bool]) -> Marks {
    let mut edges = [false; 8192];
    for e in 0..list.sizes.m {
        tables::mark(&mut edges, e, is_first(&list.segments, open, e));
    }
    edges
}

// The name of the road of segment e: its smallest segment, open or not.
pub(crate) fn name(segments: &Edges, e: usize) -> usize {
    (0..e).find(|f| is_one(segments, e, *f)).unwrap_or(e)
}

// Takes the road of segment e away.
pub(crate) fn remove(edges: &mut Marks, list: &List, e: usize) {
    for f in 0..list.sizes.m {
        if is_one(&list.segments, e, f) {
            tables::mark(edges, f, false);
        }
    }
}

// Whether two segments are of one road, and where turned, drawn in different orders. A loop has only one.
fn is_copy(segments: &Edges, e: usize, f: usize, turned: bool) -> bool {
    if turned {
        return is_turned(segments, e, f) && !is_alike(segments, e, f);
    }
    is_one(segments, e, f)
}

// Internal: whether a road has two segments, and where turned, two that are drawn in different orders.
pub fn any_copy(list: &List, turned: bool) -> bool {
    let segments = &list.segments;
    (0..list.sizes.m).any(|e| (0..e).any(|f| is_copy(segments, e, f, turned)))
}

// Internal: whether another segment of the road of segment e is open.
pub fn other_open(list: &List, open: &[bool], e: usize) -> bool {
    let segments = &list.segments;
    (0..list.sizes.m).any(|f| f != e && tables::is_marked(open, f) && is_one(segments, e, f))
}
