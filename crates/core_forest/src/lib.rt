// The first passes of the contraction: the adjacency list of each node, then a spanning forest of all that the active nodes reach, breadth first, each tree
// with an active root. The order of the search is its queue.
#![tactic(auto)]

ghost use Rattle.std.specs.Prelude.{◌≡◌, ◌+◌, ◌*◌, ◌<◌};
ghost use Rattle.core_words.specs.Fields.{TO, half};
ghost use Rattle.core_words.specs.Links.{link_word};
ghost use Rattle.core_forest.specs.AdjacencyLists.{origin, AdjacencyLists, CanLink, Linking};
ghost use Rattle.core_forest.specs.Forest.{ForestAt};
ghost use Rattle.core_forest.specs.Search.{CanAppend, Appended, CanVisit, Visited, Growing, Grown, SearchKeeps, BetweenTrees};

use core_words::*;

// Half-edge h, which leaves v, becomes the first of v's list.
fn link_half(work: &mut [u32], n: usize, m: usize, h: usize, v: usize)
    requires { Linking n m work.old work.old h × (h < 2 * m) × (v ≡ origin (half n TO work.old) h) }
    ensures { Linking n m work.old work.new (h + 1) }
{
    let first = core_words::link(work, v, HEAD);
    core_words::put_half_link(work, n, h, NEXT, first);
    core_words::put_link(work, v, HEAD, Some(h));
}

// Internal: makes the adjacency list of each node. In ascending order, so that a half-edge is followed by the largest smaller one at its node.
pub fn link_edges(work: &mut [u32], n: usize, m: usize)
    requires { CanLink n m work.old }
    ensures { Linking n m work.old work.new (2 * m) × AdjacencyLists n m work.new }
{
    // The half-edges of the first e edges are linked.
    for e in 0..m {
        let x = core_words::get_half(work, n, 2 * e, TO);
        let y = core_words::get_half(work, n, 2 * e + 1, TO);
        link_half(work, n, m, 2 * e, y);
        link_half(work, n, m, 2 * e + 1, x);
    }
}

// Where a node is in the forest: its parent (itself at a root), the tree edge to it (none at a root), and the root of its tree.
#[derive(Clone, Copy, Debug, PartialEq, Eq)]
struct Place {
    parent: usize,
    edge: Option<usize>,
    root: usize,
}

// Node w is next in the order, with its place in the forest.
fn append_node(work: &mut [u32], n: usize, seen: usize, w: usize, place: Place)
    requires { CanAppend n work.old seen w place.parent (link_word place.edge) place.root }
    ensures { Appended n seen w place.parent (link_word place.edge) place.root work.old work.new }
{
    core_words::put(work, seen, ORDER, w);
    core_words::put_link(work, w, POSITION, Some(seen));
    core_words::put(work, w, PARENT, place.parent);
    core_words::put_link(work, w, EDGE, place.edge);
    core_words::put(work, w, ROOT, place.root);
}

// The far end of half-edge h out of v, the node at place done, is seen now; the new count of seen nodes.
// Kept: `done`, `seen` and `r` apart, since each call changes one of them and a struct would be made anew at each: no plainer.
fn visit_half(
    work: &mut [u32],
    n: usize,
    m: usize,
    done: usize,
    seen: usize,
    r: usize,
    v: usize,
    h: usize,
) -> usize
    requires { CanVisit n m work.old done seen r v h }
    ensures { Visited n m work.old work.new done result r v h }
{
    let x = core_words::get_half(work, n, h, TO);
    if core_words::link(work, x, POSITION).is_some() {
        return seen;
    }
    let place = Place {
        parent: v,
        edge: Some(h / 2),
        root: r,
    };
    append_node(work, n, seen, x, place);
    seen + 1
}

// All half-edges out of the node at place done, along its adjacency list.
fn scan_node(work: &mut [u32], n: usize, m: usize, done: usize, seen: usize, r: usize) -> usize
    requires { Growing n m work.old done seen r × (done < seen) }
    ensures { Grown n m work.old work.new (done + 1) result r }
{
    let v = core_words::get(work, done, ORDER);
    let mut seen = seen;
    let mut next = core_words::link(work, v, HEAD);
    // The half-edges of v's list before `next` have been followed.
    while let Some(h) = next {
        seen = visit_half(work, n, m, done, seen, r, v, h);
        next = core_words::half_link(work, n, h, NEXT);
    }
    seen
}

// The rest of the tree of r: breadth first, the order is the queue.
fn grow_tree(work: &mut [u32], n: usize, m: usize, done: usize, seen: usize, r: usize) -> usize
    requires { Growing n m work.old done seen r }
    ensures { Grown n m work.old work.new result result r }
{
    let mut done = done;
    let mut seen = seen;
    // The far ends of all half-edges out of the first `done` nodes of the order are seen.
    while done < seen {
        seen = scan_node(work, n, m, done, seen, r);
        done += 1;
    }
    seen
}

// The tree of the j-th active node, where it is not seen yet.
fn start_tree(work: &mut [u32], n: usize, m: usize, k: usize, seen: usize, j: usize) -> usize
    requires { BetweenTrees n m k work.old seen j × (j < k) }
    ensures { SearchKeeps n work.old work.new ×
        BetweenTrees n m k work.new result (j + 1) }
{
    let r = core_words::get(work, j, ACTIVE);
    if core_words::link(work, r, POSITION).is_some() {
        return seen;
    }
    let place = Place {
        parent: r,
        edge: None,
        root: r,
    };
    append_node(work, n, seen, r, place);
    grow_tree(work, n, m, seen, seen + 1, r)
}

// Internal: a spanning forest of all that the active nodes reach, each tree with an active root; how many nodes it has.
pub fn spanning_forest(work: &mut [u32], n: usize, m: usize, k: usize) -> usize
    requires { BetweenTrees n m k work.old 0 0 }
    ensures { SearchKeeps n work.old work.new × BetweenTrees n m k work.new result k × ForestAt n m work.new }
{
    let mut seen = 0;
    // The first j active nodes are seen, with all that they reach.
    for j in 0..k {
        seen = start_tree(work, n, m, k, seen, j);
    }
    seen
}
