#![tactic(auto)]

ghost use Rattle.std.specs.Prelude.{◌+◌, ◌<◌};
ghost use Rattle.core_words.specs.Room.{NodeRoom};
ghost use Rattle.core_components.specs.Components.{CanMergeComponents};
ghost use Rattle.core_blocks.specs.Classes.{BlocksMerged, CanMerge, CanMergeClass, CanMergeEdge, CanMergePath, ClassMerged, EdgesMerged, PathMerged};
ghost use Rattle.core_blocks.specs.Classes.{TopsJoined};

use core_words::*;

// Of the tops p and q the later goes under the earlier.
fn join_tops(work: &mut [u32], n: usize, p: usize, q: usize)
    requires { NodeRoom n work.old × (p < n) × (q < n) }
    ensures { TopsJoined p q work.old work.new }
{
    let i = core_words::get(work, p, POSITION);
    let j = core_words::get(work, q, POSITION);
    if i < j {
        core_words::put(work, q, TOP, p);
        return;
    }
    core_words::put(work, p, TOP, q);
}

// The classes of s and a become one, whose first node is the earlier of the two first nodes; the parent of the one that a had.
fn merge_class(work: &mut [u32], n: usize, s: usize, a: usize) -> usize
    requires { CanMergeClass n work.old s a }
    ensures { ClassMerged n work.old s a work.new result }
{
    let p = core_components::find(work, n, s);
    let q = core_components::find(work, n, a);
    join_tops(work, n, p, q);
    core_words::get(work, q, PARENT)
}

// Merges the classes on the tree path from a to b with that of s: the later of the two goes up, class by class, until they meet.
fn merge_path(work: &mut [u32], n: usize, m: usize, s: usize, a: usize, b: usize)
    requires { CanMergePath n m work.old s a b }
    ensures { PathMerged n work.old s a b work.new }
{
    let mut a = a;
    let mut b = b;
    while a != b {
        let i = core_words::get(work, a, POSITION);
        let j = core_words::get(work, b, POSITION);
        if j < i {
            a = merge_class(work, n, s, a);
        } else {
            b = merge_class(work, n, s, b);
        }
    }
}

// Merges along the tree path between the ends of edge e, where it is seen and no loop. A tree edge may be merged along too.
fn merge_edge(work: &mut [u32], n: usize, m: usize, e: usize)
    requires { CanMergeEdge n m e work.old }
    ensures { EdgesMerged n work.old (e + 1) work.new }
{
    let x = core_words::get_half(work, n, 2 * e, TO);
    let y = core_words::get_half(work, n, 2 * e + 1, TO);
    if x == y {
        return;
    }
    // Kept: the word itself and no Option, since it is compared with another as it stands: no plainer.
    let i = core_words::get(work, x, POSITION);
    if i == 0 {
        return;
    }
    let j = core_words::get(work, y, POSITION);
    if j < i {
        let s = core_components::find(work, n, x);
        let a = core_words::get(work, s, PARENT);
        merge_path(work, n, m, s, a, y);
        return;
    }
    let s = core_components::find(work, n, y);
    let b = core_words::get(work, s, PARENT);
    merge_path(work, n, m, s, x, b);
}

// Merges along the tree path of every edge.
fn merge_edges(work: &mut [u32], n: usize, m: usize)
    requires { CanMerge n m work.old }
    ensures { EdgesMerged n work.old m work.new }
{
    for e in 0..m {
        merge_edge(work, n, m, e);
    }
}

// Internal: finds the blocks of the forest's seen nodes. A class holds the nodes of a block but for its top, the parent of its first node; TOP of a node is the
// first node of its class.
pub fn merge_blocks(work: &mut [u32], n: usize, m: usize, seen: usize)
    requires { CanMergeComponents n m seen work.old }
    ensures { BlocksMerged n m work.old work.new }
{
    core_components::start_tops(work, n);
    merge_edges(work, n, m);
    core_components::compress_all(work, n, seen);
}
