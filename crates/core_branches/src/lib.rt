// The pass that finds the kept classes: those of active nodes are numbered first, then those with two branches below them to active nodes. Last, the way up
// from each kept class to the nearest one above, with the smallest name along it.
#![tactic(auto)]

ghost use Rattle.std.specs.Prelude.{◌+◌};
ghost use Rattle.core_words.specs.Links.{link_word};
ghost use Rattle.core_branches.specs.BranchCounts.{CanReport, Report, CanCount, Counting};
ghost use Rattle.core_branches.specs.Numbers.{CanAssign, Assigned, CanNumber, ActiveStep, CanNumberActives, NumberingActives};
ghost use Rattle.core_branches.specs.Numbers.{OtherStep, CanNumberOthers, NumberingOthers};
ghost use Rattle.core_branches.specs.Ways.{CanGoUp, CanSetParent, CanSetParents, CanStepUp, ParentLoop, ParentStep, SteppedUp, WayFound};
ghost use Rattle.core_branches.specs.Classes.{CanNumberClasses, ClassNumbers};

use core_words::*;

// The class with the top t, which has no number, gets the number h, by its node v.
fn assign_number(work: &mut [u32], n: usize, h: usize, v: usize, t: usize)
    requires { CanAssign n h work.old v t }
    ensures { Assigned n h v t work.old work.new }
{
    core_words::put(work, h, MEMBER, v);
    core_words::put_link(work, t, NUMBER, Some(h));
}

// The class of the active node v gets the next number where it has none.
fn number_active(work: &mut [u32], n: usize, h: usize, v: usize) -> usize
    requires { CanNumber n h work.old v }
    ensures { ActiveStep n h v work.old work.new result }
{
    let t = core_words::get(work, v, TOP);
    if core_words::link(work, t, NUMBER).is_some() {
        return h;
    }
    assign_number(work, n, h, v, t);
    core_words::put_link(work, t, LIVE, Some(v));
    h + 1
}

// Numbers the classes of the active nodes in order of first appearance; how many they are.
fn number_actives(work: &mut [u32], n: usize, k: usize) -> usize
    requires { CanNumberActives n k work.old }
    ensures { NumberingActives n k work.old k result work.new }
{
    let mut h = 0;
    // The classes of the first i active nodes have the numbers below h, in order of first appearance.
    for i in 0..k {
        let v = core_words::get(work, i, ACTIVE);
        h = number_active(work, n, h, v);
    }
    h
}

// Where v is the top of a class with an active node at or below it, and no root, the class above v has one branch more.
fn report_branch(work: &mut [u32], n: usize, v: usize)
    requires { CanReport n work.old v }
    ensures { Report n v work.old work.new }
{
    let t = core_words::get(work, v, TOP);
    if t != v {
        return;
    }
    if core_words::link(work, v, EDGE).is_none() {
        return;
    }
    let Some(active) = core_words::link(work, v, LIVE) else {
        return;
    };
    let p = core_words::get(work, v, PARENT);
    let q = core_words::get(work, p, TOP);
    let last = core_words::link(work, q, BRANCH);
    core_words::put_link(work, q, LIVE, Some(active));
    core_words::put_link(work, q, OTHER, last);
    core_words::put_link(work, q, BRANCH, Some(v));
}

// The branches of each class, two of them where there are two: against the order, so that a class reports after all that lies below it.
fn count_branches(work: &mut [u32], n: usize, seen: usize)
    requires { CanCount n seen work.old }
    ensures { Counting n seen work.old 0 work.new }
{
    // The nodes of the order from the place after i on have reported.
    for i in (0..seen).rev() {
        let v = core_words::get(work, i, ORDER);
        report_branch(work, n, v);
    }
}

// The class of v gets the next number where it has none and two branches.
fn number_other(work: &mut [u32], n: usize, h: usize, v: usize) -> usize
    requires { CanNumber n h work.old v }
    ensures { OtherStep n h v work.old work.new result }
{
    if core_words::link(work, v, POSITION).is_none() {
        return h;
    }
    let t = core_words::get(work, v, TOP);
    if core_words::link(work, t, NUMBER).is_some() {
        return h;
    }
    if core_words::link(work, t, OTHER).is_none() {
        return h;
    }
    assign_number(work, n, h, v, t);
    h + 1
}

// Numbers the other kept classes by their smallest nodes; how many classes have a number then.
fn number_others(work: &mut [u32], n: usize, h: usize) -> usize
    requires { CanNumberOthers n h work.old }
    ensures { NumberingOthers n h work.old n result work.new }
{
    let mut r = h;
    // Of the classes without an active node those that are kept and hold a node below v have a number, and r classes have one.
    for v in 0..n {
        r = number_other(work, n, r, v);
    }
    r
}

// One class up: the name of the tree edge, the top of the class above, and its number, if it has one.
#[derive(Clone, Copy, Debug, PartialEq, Eq)]
struct StepUp {
    name: usize,
    top: usize,
    number: Option<usize>,
}

fn step_up(work: &[u32], n: usize, m: usize, v: usize) -> StepUp
    requires { CanStepUp n m work.now v }
    ensures { SteppedUp n work.now v result.name result.top (link_word result.number) }
{
    let edge = core_words::link(work, v, EDGE).unwrap();
    let name = core_words::get_half(work, n, 2 * edge, NAME);
    let p = core_words::get(work, v, PARENT);
    let top = core_words::get(work, p, TOP);
    let number = core_words::link(work, top, NUMBER);
    StepUp { name, top, number }
}

// The way up from a class: the number of the nearest kept class above, and the smallest name on the way to it.
#[derive(Clone, Copy, Debug, PartialEq, Eq)]
struct Way {
    number: usize,
    name: usize,
}

// From the top v, no root. All such ways together are linear: a class that is not kept lies on one of them at most, since with two it would be kept.
fn way_up(work: &[u32], n: usize, m: usize, v: usize) -> Way
    requires { CanGoUp n m work.now v }
    ensures { WayFound n work.now v (result.number + 1) result.name }
{
    let mut step = step_up(work, n, m, v);
    let mut name = step.name;
    // The way has come to the class above in `step`, and `name` is the smallest name on it.
    loop {
        if let Some(number) = step.number {
            return Way { number, name };
        }
        step = step_up(work, n, m, step.top);
        name = name.min(step.name);
    }
}

// The number of the nearest kept class above the class with the number x, and the smallest name on the way to it.
fn parent_number(work: &mut [u32], n: usize, m: usize, x: usize)
    requires { CanSetParent n m work.old x }
    ensures { ParentStep n x work.old work.new }
{
    let v = core_words::get(work, x, MEMBER);
    let t = core_words::get(work, v, TOP);
    if core_words::link(work, t, EDGE).is_none() {
        core_words::put_link(work, x, ABOVE, None);
        return;
    }
    let way = way_up(work, n, m, t);
    core_words::put_link(work, x, ABOVE, Some(way.number));
    core_words::put(work, x, LEAST, way.name);
}

// The same for each of the h numbers.
fn parent_numbers(work: &mut [u32], n: usize, m: usize, h: usize)
    requires { CanSetParents n m h work.old }
    ensures { ParentLoop n work.old h work.new }
{
    // The numbers below x have the number above them and the smallest name on the way to it.
    for x in 0..h {
        parent_number(work, n, m, x);
    }
}

// Internal: numbers the kept classes, and finds the nearest kept class above each with the smallest name on the way to it; how many they are.
pub fn number_classes(work: &mut [u32], n: usize, m: usize, k: usize, seen: usize) -> usize
    requires { CanNumberClasses n m k seen work.old }
    ensures { ClassNumbers n m k work.old result work.new }
{
    let g = number_actives(work, n, k);
    count_branches(work, n, seen);
    let h = number_others(work, n, g);
    parent_numbers(work, n, m, h);
    h
}
