// The sibling's byte of a window of one event, out of the event's tag, its two nodes and the edges of the window's reduced graph.
#![tactic(auto)]

ghost use Rattle.std.specs.Prelude.{◌&&◌, ◌≡◌, ◌≤◌, eqb, length};
ghost use Rattle.theory_junctions.specs.Reply.{adjacent};
ghost use Rattle.junction_leaf.specs.JunctionLeaf.{byte_at, hits, leaf_graph};

// Whether an edge between a and b joins x and y.
fn meets(a: u32, b: u32, x: u32, y: u32) -> bool
    ensures { result ≡ hits (a, b) x y }
{
    (a, b) == (x, y) || (a, b) == (y, x)
}

// Whether one of the m edges of an area of one event joins x and y.
fn joins(work: &[u32], m: usize, x: u32, y: u32) -> bool
    requires { (m ≤ 8) × (29 ≤ length work.now) }
    ensures { result ≡ adjacent (leaf_graph m work.now) x y }
{
    work[5..5 + m]
        .iter()
        .zip(&work[13..13 + m])
        .any(|(&a, &b)| meets(a, b, x, y))
}

// Internal: the byte of a window of one event, by the event's tag; and for a query by its two nodes and the m edges of the window's graph: 2 where the nodes are equal
// or an edge joins them, else 1 where there is an edge.
pub fn byte_of(work: &[u32], m: usize) -> u8
    requires { (m ≤ 8) × (29 ≤ length work.now) }
    ensures { result ≡ byte_at m work.now }
{
    // Kept: a promise needs it: the documents say that a lent table is answered in the bytes 0, 1, 2 and 3.
    if work[2] != 0 {
        return 3;
    }
    let x = work[0];
    let y = work[1];
    if x == y || joins(work, m, x, y) {
        return 2;
    }
    if m == 0 {
        return 0;
    }
    1
}
