// Runs replay_junctions on vectors, which it reads; on random lists, small and of some hundred events, against a slow version, which takes each third junction
// away in turn, with each share from 4 to 12; on lists of 4096 junctions and 8192 segments on rings, where it shows too that the comparison notices a fault; at
// the limits; and with one fault and several. Prints counts and replies.
#![tactic(auto)]

mod totals;

use std::io;
use test_junction_calls::calls::{ByJunctions, WORDS};
use test_junction_calls::{calls, limits};
use test_library::counts::Count;
use test_library::replays::ReplayCall;
use test_library::{print, tables, vectors};
use test_random::lists;
use test_random::lists::Drawn;
use totals::{Differences, Totals};

// Runs the call and the slow version on a list, and where it is accepted with all shares, and counts it.
fn compare(totals: &mut Totals, drawn: &Drawn, work: &mut [u32]) {
    let list = &drawn.list;
    let lengths = ByJunctions::lengths(list.sizes, drawn.lending);
    let want = test_slow_junctions::reply(list, lengths, None);
    let replayed = ByJunctions::run(list, lengths, work);
    let disagrees = !replayed.agrees(&want.junctions, list.sizes.t);
    totals.add(list, &want, drawn.most, disagrees);
    if want.junctions.reply.is_ok() {
        let shares_agree = calls::all_shares_agree(list, &want.junctions, work);
        totals.shares_differ.add_if(!shares_agree);
    }
}

// Compares so many lists.
fn run<F: Fn(usize) -> Drawn>(count: usize, draw: F, work: &mut [u32]) -> Totals
    requires { F.IsAlwaysCallable draw }
{
    let mut totals = Totals::default();
    for i in 0..count {
        compare(&mut totals, &draw(i), work);
    }
    totals
}

// Of rings: on how many the call disagrees, how many changed answers are noticed, the answers, and how they differ from the replay's.
#[derive(Clone, Copy, Default)]
struct RingTotals {
    disagreements: Count,
    noticed: Count,
    answers: [Count; 3],
    differences: Differences,
}

impl RingTotals {
    // Counts ring i.
    fn add(&mut self, i: usize, work: &mut [u32]) {
        let drawn = lists::shorter_ring(i);
        let list = &drawn.list;
        let t = list.sizes.t;
        let lengths = ByJunctions::lengths(list.sizes, drawn.lending);
        let want = test_slow_junctions::reply(list, lengths, drawn.ring);
        let replayed = ByJunctions::run(list, lengths, work);
        let noticed = replayed.noticed(&want.junctions, t, i, false);
        self.disagreements
            .add_if(!replayed.agrees(&want.junctions, t));
        self.noticed.add(noticed);
        for (number, count) in self.answers.iter_mut().enumerate() {
            count.add(tables::tally(&want.junctions.answers, t, number));
        }
        self.differences.add(&want, t);
    }
}

fn report_rings(rt: &impl Print, work: &mut [u32]) -> io::Result<()> {
    let mut totals = RingTotals::default();
    for i in 0..10 {
        totals.add(i, work);
    }
    let rows = [
        (
            "10 lists of 4096 junctions, 8192 segments and 1200 events, disagreements",
            totals.disagreements,
        ),
        ("of 640 answers changed on purpose, noticed", totals.noticed),
        ("answers 0", totals.answers[0]),
        ("answers 1", totals.answers[1]),
        ("answers 2", totals.answers[2]),
        (
            "of two junctions that one road joins, and no other way",
            totals.differences.two_for_one,
        ),
    ];
    print::counts(rt, &rows)
}

// The vectors of document 02, No. 8, all 80, made by a slow program before any code of the product; they stand on standard input, in the form of
// test_library::vectors, with 0 for the length of the names, and without names: 31 are accepted and 49 refused.
fn report_vectors(rt: &(impl Input + Print), work: &mut [u32]) -> io::Result<()> {
    let compared = vectors::compare_hundred::<ByJunctions>(rt, work)?;
    let rows = [
        ("vectors", compared.vectors),
        ("wrong", compared.wrong),
        (
            "on which the slow version differs from the call",
            compared.slow_differs,
        ),
    ];
    print::counts(rt, &rows)
}

// All reports, with a work table for all. It is lent as an array: the prover runs out of stack where `main`, which makes it, takes a slice of it.
fn report(rt: &(impl Input + Print), work: &mut [u32; WORDS]) -> io::Result<()> {
    report_vectors(rt, work)?;
    run(21000, lists::small, work).report(rt)?;
    run(21000, lists::blocks, work).report(rt)?;
    run(18, lists::large, work).report(rt)?;
    report_rings(rt, work)?;
    limits::report(rt, work)
}

// Kept: the work table is an array and no Vec, so that the program rests on no heap.
fn main(rt: HostRuntime) -> io::Result<()> {
    let mut work = [0u32; WORDS];
    report(&rt, &mut work)
}
