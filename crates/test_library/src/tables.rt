// Tables of numbers and of marks. Behind the end of a table there are zeros and no marks, and what is set there is lost; in a table of nodes an index goes round
// at the end. So no caller has to know the bounds.

// The largest table that is lent, and some entries behind it.
// Kept: an array, with the sizes beside; a Vec is no plainer: each function that makes a list would take an allocator and hand on an error.
pub type Entries = [u16; 8200];

// Numbers of at most 512 nodes, and marks.
pub type Numbers = [u16; 512];

pub type NodeMarks = [bool; 512];

// A mark for each segment, or for each junction.
pub type Marks = [bool; 8192];

// Internal: number i.
pub fn at<T: Copy + Into<usize>>(t: &[T], i: usize) -> usize {
    if i < t.len() {
        return t[i].into();
    }
    0
}

// Internal: sets number i.
pub fn set(t: &mut [u16], i: usize, v: usize) {
    if i < t.len() {
        t[i] = (v % 65536) as u16;
    }
}

// Internal: the number of a node.
pub fn get(t: &Numbers, node: usize) -> usize {
    usize::from(t[node % 512])
}

// Internal: sets the number of a node.
pub fn put(t: &mut Numbers, node: usize, v: usize) {
    t[node % 512] = (v % 65536) as u16;
}

// Internal: how many of the first count numbers have this value.
pub fn tally<T: Copy + Into<usize>>(t: &[T], count: usize, value: usize) -> usize {
    t.iter()
        .take(count)
        .filter(|v| (**v).into() == value)
        .count()
}

// Internal: whether i is marked.
pub fn is_marked(t: &[bool], i: usize) -> bool {
    i < t.len() && t[i]
}

// Internal: marks i, or takes its mark away.
pub fn mark(t: &mut [bool], i: usize, to: bool) {
    if i < t.len() {
        t[i] = to;
    }
}

// Internal: how many marks are set.
pub fn ones(t: &[bool]) -> usize {
    t.iter().filter(|m| **m).count()
}

// Internal: how many of the first count nodes are marked.
pub fn marked_nodes(t: &NodeMarks, count: usize) -> usize {
    (0..count).filter(|node| t[*node % 512]).count()
}
