// The names of the edges out: an edge joins a number and its parent number, and has the smallest name on the way up from the one to the other.
#![tactic(auto)]

ghost use Rattle.std.specs.Prelude.{◌+◌, ◌*◌, ◌<◌, length};
ghost use Rattle.core_words.specs.Fields.{ABOVE, node};
ghost use Rattle.core_names.specs.EdgeNames.{ChildEnd, CanNameEdge, NamedEdge, CanNameEdges, NamingEdges};

use core_words::*;

// Of the numbers s and t, one of which is the parent of the other, the child.
fn child_end(work: &[u32], s: usize, t: usize) -> usize
    requires { (16 * s + 15 < length work.now) × (t < 65536) }
    ensures { ChildEnd (node ABOVE work.now) s t result }
{
    if core_words::link(work, s, ABOVE) == Some(t) {
        return s;
    }
    t
}

// The j-th edge out gets the smallest name on the way up from its lower class.
fn name_edge(work: &mut [u32], n: usize, j: usize)
    requires { CanNameEdge n work.old j }
    ensures { NamedEdge n j work.old work.new }
{
    let s = core_words::get(work, j, LOWER);
    let t = core_words::get(work, j, UPPER);
    let x = child_end(work, s, t);
    let l = core_words::get(work, x, LEAST);
    core_words::put(work, j, NAMED, l);
}

// Internal: names the e edges out.
pub fn name_edges(work: &mut [u32], n: usize, e: usize)
    requires { CanNameEdges n e work.old }
    ensures { NamingEdges n work.old e work.new }
{
    // The first j edges have their names.
    for j in 0..e {
        name_edge(work, n, j);
    }
}
