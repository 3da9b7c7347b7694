// The edges between each number and its parent number, written in ascending order without a sort: each number is put into the list of its parent where that
// is smaller, from the last number down, so that each list ascends; then for each number its list is written, with its own parent merged in where that is
// larger.
ghost use Rattle.std.specs.Prelude.{◌+◌, ◌*◌, ◌<◌, ◌≤◌, length};
ghost use Rattle.core_words.specs.Fields.{ABOVE, node};
ghost use Rattle.core_words.specs.Links.{link_word};
ghost use Rattle.core_reduce.specs.EdgeList.{EdgePair, FirstFrom, LeastNonzero, IfAbove, NextChild, CanList, Pushing, Writing, EdgesListed};

use core_words::*;

// The smaller of those that are there.
fn least(a: Option<usize>, b: Option<usize>) -> Option<usize>
    ensures { LeastNonzero (link_word a) (link_word b) (link_word result) }
{
    match (a, b) {
        (Some(x), Some(y)) => Some(x.min(y)),
        (Some(x), None) => Some(x),
        (None, y) => y,
    }
}

// The parent where it is above s, else none.
fn if_above(parent: Option<usize>, s: usize) -> Option<usize>
    ensures { IfAbove (link_word parent) (s + 1) (link_word result) }
{
    parent.filter(|p| *p > s)
}

// What follows the child in its list where that is t, else the child.
fn next_child(work: &[u32], child: Option<usize>, t: usize) -> Option<usize>
    requires { 16 * t + 16 ≤ length work.now }
    ensures { NextChild work.now (link_word child) (t + 1) (link_word result) }
{
    if child == Some(t) {
        return core_words::link(work, t, SIBLING);
    }
    child
}

// Number x comes first in the list of its parent, where that is smaller.
fn push_child(work: &mut [u32], n: usize, h: usize, x: usize)
    requires { Pushing n h work.old work.old (x + 1) × (x < h) }
    ensures { Pushing n h work.old work.new x }
{
    let Some(parent) = core_words::link(work, x, ABOVE) else {
        return;
    };
    if x <= parent {
        return;
    }
    let first = core_words::link(work, parent, CHILD);
    core_words::put_link(work, x, SIBLING, first);
    core_words::put_link(work, parent, CHILD, Some(x));
}

// Puts each number into the list of its parent, where that is smaller.
fn push_children(work: &mut [u32], n: usize, h: usize)
    requires { Pushing n h work.old work.old h }
    ensures { Pushing n h work.old work.new 0 }
{
    // The numbers after x stand in the lists of their parents, where these are smaller, and each list ascends.
    for x in (0..h).rev() {
        push_child(work, n, h, x);
    }
}

// Writes the edge of s and t, the next larger end after `last`, as the m-th.
// Kept: seven arguments, since but for the edge's two ends no two of them are one thing, and a struct of two ends is no plainer.
fn write_edge(work: &mut [u32], n: usize, h: usize, m: usize, s: usize, last: usize, t: usize)
    requires { Writing n h work.old work.old m s (last + 1) × (s < h) × FirstFrom (EdgePair h (node ABOVE work.old) s) (last + 1) (t + 1) }
    ensures { Writing n h work.old work.new (m + 1) s (t + 1) }
{
    core_words::put(work, m, LOWER, s);
    core_words::put(work, m, UPPER, t);
}

// Writes the edges whose smaller end is s after the first m; the new count.
fn write_row(work: &mut [u32], n: usize, h: usize, s: usize, m: usize) -> usize
    requires { Writing n h work.old work.old m s (s + 1) × (s < h) }
    ensures { Writing n h work.old work.new result (s + 1) (s + 1 + 1) }
{
    let parent = core_words::link(work, s, ABOVE);
    let mut child = core_words::link(work, s, CHILD);
    let mut last = s;
    let mut m = m;
    let mut next = least(child, if_above(parent, last));
    // The edges of s up to the larger end `last` are written; `next` is the next larger end, and `child` the next of the list.
    while let Some(t) = next {
        write_edge(work, n, h, m, s, last, t);
        m += 1;
        child = next_child(work, child, t);
        last = t;
        next = least(child, if_above(parent, last));
    }
    m
}

// Writes all edges; their count.
fn write_rows(work: &mut [u32], n: usize, h: usize) -> usize
    requires { Pushing n h work.old work.old 0 }
    ensures { Writing n h work.old work.new result h (h + 1) }
{
    let mut m: usize = 0;
    // The m edges whose smaller end is below s are written.
    for s in 0..h {
        m = write_row(work, n, h, s, m);
    }
    m
}

// Lists the edges of the h numbers in ascending order, in LOWER and UPPER from node 0 on. Their count.
pub(crate) fn list_edges(work: &mut [u32], n: usize, h: usize) -> usize
    requires { CanList n h work.old }
    ensures { EdgesListed n h work.old work.new result }
{
    core_words::clear_field(work, n, CHILD, h);
    push_children(work, n, h);
    write_rows(work, n, h)
}
