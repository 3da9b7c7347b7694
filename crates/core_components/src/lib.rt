// The pass that finds the classes, the 2-edge-connected components: for each edge that is no tree edge the classes on the tree path between its ends are
// merged, by union with path halving. A class is told by its top, its node that comes first in the order.
#![tactic(auto)]

ghost use Rattle.std.specs.Prelude.{◌≡◌};
ghost use Rattle.core_words.specs.Fields.{ROOT, TOP, Put, node};
ghost use Rattle.core_words.specs.Room.{NodeRoom};
ghost use Rattle.core_components.specs.Tops.{CanFind, Found, CanMergeUp, MergedUpAt, CanMergePath, SeenTop, SameTree, MergedPath};
ghost use Rattle.core_components.specs.Tops.{OwnTops, CanCompress, Compressed};
ghost use Rattle.core_components.specs.Merging.{CanMergeEdge, EdgeMerged, CanMerge, EdgesMerged};
ghost use Rattle.core_components.specs.Components.{CanMergeComponents, Components};

use core_words::*;

// Internal: the top of v; the path to it is halved on the way.
pub fn find(work: &mut [u32], n: usize, v: usize) -> usize
    requires { CanFind n work.old v }
    ensures { Found n work.old v result work.new }
{
    let mut v = v;
    let mut u = core_words::get(work, v, TOP);
    // v is reached from the first v along tops, u is v's top, and no node has another final top than before.
    while u != v {
        let t = core_words::get(work, u, TOP);
        core_words::put(work, v, TOP, t);
        v = t;
        u = core_words::get(work, v, TOP);
    }
    v
}

// Merges the top a into the top of its parent, which it returns.
fn merge_parent(work: &mut [u32], n: usize, a: usize) -> usize
    requires { CanMergeUp n work.old a }
    ensures { MergedUpAt n work.old a result work.new }
{
    let p = core_words::get(work, a, PARENT);
    let q = find(work, n, p);
    core_words::put(work, a, TOP, q);
    q
}

// Merges all tops on the tree path from the top a to the top b: the later of the two goes up until they are one.
fn merge_tops(work: &mut [u32], n: usize, a: usize, b: usize)
    requires { CanMergePath n work.old × SeenTop n work.old a × SeenTop n work.old b × (node ROOT work.old a ≡ node ROOT work.old b) }
    ensures { MergedPath n work.old a b work.new }
{
    let mut a = a;
    let mut b = b;
    // What is left to merge of the tree path is the part between the tops a and b; each turn brings the later of the two to an earlier place of the order.
    while a != b {
        let pa = core_words::get(work, a, POSITION);
        let pb = core_words::get(work, b, POSITION);
        if pa < pb {
            b = merge_parent(work, n, b);
        } else {
            a = merge_parent(work, n, a);
        }
    }
}

// Merges all tops on the tree path from x to y.
fn merge_path(work: &mut [u32], n: usize, x: usize, y: usize)
    requires { CanMergePath n work.old × SameTree n work.old x y }
    ensures { MergedPath n work.old x y work.new }
{
    let a = find(work, n, x);
    let b = find(work, n, y);
    merge_tops(work, n, a, b);
}

// Merges along the tree path between the ends of edge e, where it is seen and no tree edge. A parallel of a tree edge is none.
fn merge_edge(work: &mut [u32], n: usize, m: usize, e: usize)
    requires { CanMergeEdge n m e work.old }
    ensures { EdgeMerged n e work.old work.new }
{
    let x = core_words::get_half(work, n, 2 * e, TO);
    let y = core_words::get_half(work, n, 2 * e + 1, TO);
    if core_words::link(work, x, POSITION).is_none() {
        return;
    }
    if core_words::link(work, x, EDGE) == Some(e) {
        return;
    }
    if core_words::link(work, y, EDGE) == Some(e) {
        return;
    }
    merge_path(work, n, x, y);
}

// Merges along the tree path of every edge.
fn merge_edges(work: &mut [u32], n: usize, m: usize)
    requires { CanMerge n m work.old }
    ensures { EdgesMerged n m work.old m work.new }
{
    // The tree paths of the first e edges are merged.
    for e in 0..m {
        merge_edge(work, n, m, e);
    }
}

// Internal: each of the n nodes is its own top.
pub fn start_tops(work: &mut [u32], n: usize)
    requires { NodeRoom n work.old }
    ensures { OwnTops n n work.old work.new }
{
    // The nodes below v are their own tops.
    for v in 0..n {
        core_words::put(work, v, TOP, v);
    }
}

// The top of v is final where the top of v's top is.
fn compress(work: &mut [u32], n: usize, v: usize)
    requires { CanFind n work.old v }
    ensures { Put TOP v (node TOP work.old (node TOP work.old v)) work.old work.new }
{
    let t = core_words::get(work, v, TOP);
    let u = core_words::get(work, t, TOP);
    core_words::put(work, v, TOP, u);
}

// Internal: the tops of the first seen nodes of the order are made final: in order, so that the top of a node's top is final already.
pub fn compress_all(work: &mut [u32], n: usize, seen: usize)
    requires { CanCompress n seen work.old }
    ensures { Compressed n seen work.old work.new }
{
    // The first i nodes of the order have their final tops.
    for i in 0..seen {
        let v = core_words::get(work, i, ORDER);
        compress(work, n, v);
    }
}

// Internal: merges the 2-edge-connected components of the forest's seen nodes: the top of a node is then the same for all of its component, and no other
// has it.
pub fn merge_components(work: &mut [u32], n: usize, m: usize, seen: usize)
    requires { CanMergeComponents n m seen work.old }
    ensures { Components n m work.old work.new }
{
    start_tops(work, n);
    merge_edges(work, n, m);
    compress_all(work, n, seen);
}
