#![tactic(auto)]

ghost use Rattle.std.specs.Prelude.{◌≡◌, ◌↔◌, ◌+◌, ◌*◌, ◌<◌, ◌≤◌, IsTrue, length};
ghost use Rattle.core_words.specs.Fields.{TOP, node};
ghost use Rattle.core_words.specs.Links.{link_word};
ghost use Rattle.core_words.specs.Room.{NodeRoom};
ghost use Rattle.core_cycles.specs.BlocksIn.{CanCount, CanCountNode, CountedNode, Counting};
ghost use Rattle.core_cycles.specs.Numbering.{CanNumber, CanNumberNode, CanReadLast, MemberNumbered, NodeNumbered, NumberSet, Numbering, last_at, shares_at};
ghost use Rattle.core_cycles.specs.Writing.{CanMap, CanWriteCycles, CanWriteEdge, CanWriteNode, Mapping, Writing, Written, closing_at, edge_if, edges_at};

use core_words::*;

// Internal: second uses of fields. MEMBERS of a class's first node is the number of its relevant nodes, BELOW of a node the number of classes with relevant nodes
// right below it, LAST of a class's first node one more than the number of its last relevant node so far, FROM of a node one more than the number that its
// cycle's edge comes from.
// Kept: constants and no enum, as those of core_words, since a field is an offset in the lent words (fixed memory).
pub const MEMBERS: usize = 7;

pub const BELOW: usize = 8;

pub const LAST: usize = 9;

pub const FROM: usize = 11;

// Whether v is relevant: active, or with a class right below it that has relevant nodes.
fn is_relevant(work: &[u32], n: usize, v: usize) -> bool
    requires { (16 * n ≤ length work.now) × (v < n) }
    ensures { IsTrue result ↔ ¬ (node MARK work.now v + node BELOW work.now v ≡ 0) }
{
    core_words::link(work, v, MARK).is_some() || core_words::get(work, v, BELOW) != 0
}

// Where v is relevant and no root, its class has one relevant node more, and with the first of them the class's top has one class more below it.
fn count_node(work: &mut [u32], n: usize, v: usize)
    requires { CanCountNode n work.old v }
    ensures { CountedNode n v work.old work.new }
{
    if core_words::link(work, v, EDGE).is_none() {
        return;
    }
    if !is_relevant(work, n, v) {
        return;
    }
    let t = core_words::get(work, v, TOP);
    let r = core_words::get(work, t, MEMBERS);
    core_words::put(work, t, MEMBERS, r + 1);
    if r != 0 {
        return;
    }
    let p = core_words::get(work, t, PARENT);
    let b = core_words::get(work, p, BELOW);
    core_words::put(work, p, BELOW, b + 1);
}

// Internal: counts the relevant nodes of each class, and the classes below each node: against the order, so that all below a node are counted before it.
pub fn count_nodes(work: &mut [u32], n: usize, m: usize, k: usize, seen: usize)
    requires { CanCount n m k seen work.old }
    ensures { Counting n m k seen 0 work.old work.new }
{
    for i in (0..seen).rev() {
        let v = core_words::get(work, i, ORDER);
        count_node(work, n, v);
    }
}

// What a node gets: its number, that of the last node of its class so far, and the number that the edge to it in its cycle comes from, where there is one.
#[derive(Clone, Copy, Debug, PartialEq, Eq)]
struct Numbers {
    number: usize,
    last: Option<usize>,
    from: Option<usize>,
}

// Sets what v gets, where t is the first node of its class.
fn set_number(work: &mut [u32], n: usize, v: usize, t: usize, numbers: Numbers)
    requires { NodeRoom n work.old × (v < n) × (t < n)
        × (numbers.number < 4294967296) × (link_word numbers.last < 4294967296) × (link_word numbers.from < 4294967296) }
    ensures { NumberSet n v numbers.number t (link_word numbers.last) (link_word numbers.from) work.old work.new }
{
    core_words::put(work, v, NUMBER, numbers.number);
    core_words::put_link(work, t, LAST, numbers.last);
    core_words::put_link(work, v, FROM, numbers.from);
}

// The number that the edge to the next relevant node of the class of t comes from: that of the last so far, else that of the class's top.
fn last_number(work: &[u32], n: usize, t: usize) -> usize
    requires { CanReadLast n work.now t }
    ensures { result + 1 ≡ last_at work.now t }
{
    if let Some(last) = core_words::link(work, t, LAST) {
        return last;
    }
    let p = core_words::get(work, t, PARENT);
    core_words::get(work, p, NUMBER)
}

// Whether v, of the class of t, shares the number of its top.
fn shares_top(work: &[u32], n: usize, v: usize, t: usize) -> bool
    requires { CanReadLast n work.now t × (v < n) }
    ensures { result ≡ shares_at work.now v t }
{
    if core_words::link(work, v, MARK).is_some() {
        return false;
    }
    let p = core_words::get(work, t, PARENT);
    if core_words::link(work, p, MARK).is_some() {
        return false;
    }
    let c = core_words::get(work, v, BELOW);
    if c != 1 {
        return false;
    }
    let r = core_words::get(work, t, MEMBERS);
    r == 1
}

// The relevant node v, no root, gets the number of its top or the number h of its own; the new count.
fn number_member(work: &mut [u32], n: usize, h: usize, v: usize) -> usize
    requires { (h < n) × (v < n) × CanReadLast n work.old (node TOP work.old v) }
    ensures { MemberNumbered n h v work.old work.new result }
{
    let t = core_words::get(work, v, TOP);
    let last = last_number(work, n, t);
    if shares_top(work, n, v, t) {
        let numbers = Numbers {
            number: last,
            last: Some(last),
            from: None,
        };
        set_number(work, n, v, t, numbers);
        return h;
    }
    let numbers = Numbers {
        number: h,
        last: Some(h),
        from: Some(last),
    };
    set_number(work, n, v, t, numbers);
    h + 1
}

// The same for any node: one that is not relevant has no number.
fn number_node(work: &mut [u32], n: usize, h: usize, v: usize) -> usize
    requires { CanNumberNode n h work.old v }
    ensures { NodeNumbered n h v work.old work.new result }
{
    if !is_relevant(work, n, v) {
        core_words::put_link(work, v, FROM, None);
        return h;
    }
    if core_words::link(work, v, EDGE).is_none() {
        let numbers = Numbers {
            number: h,
            last: None,
            from: None,
        };
        set_number(work, n, v, v, numbers);
        return h + 1;
    }
    number_member(work, n, h, v)
}

// Internal: numbers the relevant nodes in order; how many numbers there are.
pub fn number_nodes(work: &mut [u32], n: usize, m: usize, k: usize, seen: usize) -> usize
    requires { CanNumber n m k seen work.old }
    ensures { Numbering n m k seen seen result work.old work.new }
{
    let mut h = 0;
    for i in 0..seen {
        let v = core_words::get(work, i, ORDER);
        h = number_node(work, n, h, v);
    }
    h
}

// Writes the edge of a and b as the e-th behind the m edges, where there is an a; the new count.
// Kept: the two ends apart, since one of them may be missing: a struct of an `Option` and a number is no plainer.
fn write_edge(work: &mut [u32], n: usize, m: usize, e: usize, a: Option<usize>, b: usize) -> usize
    requires { CanWriteEdge n m e (link_word a) b work.old }
    ensures { Written n m e (edge_if (link_word a) b) work.old work.new result }
{
    let Some(a) = a else {
        return e;
    };
    core_words::put_half(work, n, 2 * (m + e), TO, a);
    core_words::put_half(work, n, 2 * (m + e) + 1, TO, b);
    e + 1
}

// Where v is the first node of a class with two relevant nodes at least, the number of the last.
fn closing_from(work: &[u32], n: usize, v: usize) -> Option<usize>
    requires { (16 * n ≤ length work.now) × (v < n) }
    ensures { link_word result ≡ closing_at work.now v }
{
    if core_words::link(work, v, EDGE).is_none() {
        return None;
    }
    let t = core_words::get(work, v, TOP);
    if t != v {
        return None;
    }
    let r = core_words::get(work, v, MEMBERS);
    if r < 2 {
        return None;
    }
    core_words::link(work, v, LAST)
}

// Writes the edge of v's cycle that leads to v, and where v is first in its class the edge that closes the cycle; the new count.
fn write_node(work: &mut [u32], n: usize, m: usize, e: usize, v: usize) -> usize
    requires { CanWriteNode n m e work.old v }
    ensures { Written n m e (edges_at work.old v) work.old work.new result }
{
    let a = core_words::link(work, v, FROM);
    let b = core_words::get(work, v, NUMBER);
    let c = closing_from(work, n, v);
    let p = core_words::get(work, v, PARENT);
    let d = core_words::get(work, p, NUMBER);
    let f = write_edge(work, n, m, e, a, b);
    write_edge(work, n, m, f, c, d)
}

// Internal: writes the edges of all cycles behind the m edges; how many they are.
pub fn write_cycles(work: &mut [u32], n: usize, m: usize, k: usize, seen: usize, h: usize) -> usize
    requires { CanWriteCycles n m k seen h work.old }
    ensures { Writing n m seen work.old work.new result }
{
    let mut e = 0;
    for i in 0..seen {
        let v = core_words::get(work, i, ORDER);
        e = write_node(work, n, m, e, v);
    }
    e
}

// Internal: MAPPED of each active node becomes its number.
pub fn map_actives(work: &mut [u32], n: usize, k: usize)
    requires { CanMap n k work.old }
    ensures { Mapping n work.old k work.new }
{
    for i in 0..k {
        let v = core_words::get(work, i, ACTIVE);
        let x = core_words::get(work, v, NUMBER);
        core_words::put(work, v, MAPPED, x);
    }
}
