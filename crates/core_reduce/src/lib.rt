// The contraction on words. Field k of node v stands at 16 v + k; the half-edges, three words each, stand behind the nodes (crate core_words).
//
// | field | of | what | later |
// |---|---|---|---|
// | MARK | a node | 1 + its place among the active nodes, 0 for none (in) | MAPPED: the number of its class, at an active node (out) |
// | ACTIVE | i | the i-th active node (in) | |
// | HEAD | a node | head of its adjacency list | CHILD of a number: head of its list of larger children |
// | ORDER | i | the i-th node of the search | |
// | POSITION | a node | 1 + its place in the search, 0 unseen | LOWER of i: smaller end of the i-th edge (out) |
// | PARENT | a node | its parent in the forest | UPPER of i: larger end of the i-th edge (out) |
// | TOP | a node | the top of its class | |
// | LIVE | a top | 1 + an active node at or below its class, 0 for none | |
// | BRANCH | a top | 1 + the last branch reported to its class | SIBLING of a number: next in a list of larger children |
// | OTHER | a top | 1 + another branch | ABOVE of a number: 1 + the number of the nearest kept class above |
// | NUMBER | a top | 1 + the number of its class, 0 for none | |
// | MEMBER | a number | a node of its class | |
// | ROOT | a node | the root of its tree (out) | |
// | EDGE | a node | 1 + its tree edge, 0 at a root | |
// | LEAST | a number | the smallest name from its class to the nearest kept class above | |
// | NAMED | i | the name of the i-th edge (out) | |
//
// HEAD, POSITION, LIVE, BRANCH, OTHER and NUMBER start at 0. TO of a half-edge is its far end, NEXT the next at the same node; NAME of the first half-edge of
// an edge is the edge's name.
#![tactic(auto)]

mod edge_list;

ghost use Rattle.std.specs.Prelude.{◌≡◌, ◌-◌, ◌<◌};
ghost use Rattle.core_words.specs.Clearing.{Cleared, ClearedNode};
ghost use Rattle.core_words.specs.Fields.{NUMBER, TOP, node};
ghost use Rattle.core_words.specs.Room.{NodeRoom};
ghost use Rattle.core_branches.specs.Classes.{HasNumber};
ghost use Rattle.core_reduce.specs.Numbers.{CanWrite, WritingNumbers};
ghost use Rattle.core_reduce.specs.Core.{Loaded, Reduced, start_fields};

use core_words::*;

// The nodes and the edges of a small graph.
#[derive(Clone, Copy, Debug, PartialEq, Eq)]
pub struct Counts {
    pub nodes: usize,
    pub edges: usize,
}

// Node v has no list, no place in the search, no branch and no number.
fn clear_node(work: &mut [u32], n: usize, v: usize)
    requires { NodeRoom n work.old × (v < n) }
    ensures { ClearedNode start_fields n v work.old work.new }
{
    core_words::put_link(work, v, HEAD, None);
    core_words::put_link(work, v, POSITION, None);
    core_words::put_link(work, v, LIVE, None);
    core_words::put_link(work, v, BRANCH, None);
    core_words::put_link(work, v, OTHER, None);
    core_words::put_link(work, v, NUMBER, None);
}

// Internal: clears the fields that start at 0.
pub fn clear_nodes(work: &mut [u32], n: usize)
    requires { NodeRoom n work.old }
    ensures { Cleared start_fields n n work.old work.new }
{
    // The nodes below v are cleared.
    for v in 0..n {
        clear_node(work, n, v);
    }
}

// The number of v's class.
fn class_number(work: &[u32], n: usize, v: usize) -> usize
    requires { HasNumber n work.now v }
    ensures { (result ≡ node NUMBER work.now (node TOP work.now v) - 1) × (result < 4294967296) }
{
    let t = core_words::get(work, v, TOP);
    core_words::link(work, t, NUMBER).unwrap()
}

// MAPPED of each active node becomes the number of its class.
fn write_numbers(work: &mut [u32], n: usize, k: usize)
    requires { CanWrite n k work.old }
    ensures { WritingNumbers n work.old k work.new }
{
    // MAPPED of the first i active nodes is the number of their class.
    for i in 0..k {
        let v = core_words::get(work, i, ACTIVE);
        let x = class_number(work, n, v);
        core_words::put(work, v, MAPPED, x);
    }
}

// Internal: contracts the m edges between n nodes to the k different active nodes that stand in the words.
pub fn reduce(work: &mut [u32], n: usize, m: usize, k: usize) -> Counts
    requires { Loaded n m k work.old }
    ensures { Reduced n m k work.old work.new result.nodes result.edges }
{
    clear_nodes(work, n);
    core_forest::link_edges(work, n, m);
    let seen = core_forest::spanning_forest(work, n, m, k);
    core_components::merge_components(work, n, m, seen);
    let nodes = core_branches::number_classes(work, n, m, k, seen);
    let edges = edge_list::list_edges(work, n, nodes);
    core_names::name_edges(work, n, edges);
    write_numbers(work, n, k);
    Counts { nodes, edges }
}
