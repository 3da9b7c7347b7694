// Runs replay on vectors, which it reads; on random lists, small and of some hundred events, against a slow replay, which removes roads; on lists of the full
// sizes on rings, where it shows too that the comparison notices a fault; on each window of small lists by itself; at the limits; and with one fault and
// several. Prints counts and replies.
#![tactic(auto)]

mod windows;

use std::io;
use test_library::replays::ReplayCall;
use test_library::{print, vectors};
use test_random::lists;
use test_random::lists::Drawn;
use test_replay_calls::calls::{ByRoads, WORDS};
use test_replay_calls::limits;
use test_totals::list_totals::Totals;

// Runs the call and the slow replay on a list, and counts it.
pub(crate) fn compare(totals: &mut Totals, drawn: &Drawn, work: &mut [u32]) {
    let list = &drawn.list;
    let lengths = ByRoads::lengths(list.sizes, drawn.lending);
    let want = ByRoads::slow(list, lengths, drawn.ring);
    let replayed = ByRoads::run(list, lengths, work);
    let disagrees = !replayed.agrees(&want, list.sizes.t);
    totals.add(list, &want, drawn.most, disagrees);
    match drawn.ring {
        Some(places) => {
            totals.planted.add(64);
            totals
                .noticed
                .add(replayed.noticed(&want, list.sizes.t, places, true));
        }
        None if want.reply.is_ok() => totals.ones.add(list, &want),
        None => (),
    }
}

// Compares so many lists.
fn run<F: Fn(usize) -> Drawn>(count: usize, draw: F, work: &mut [u32]) -> Totals
    requires { F.IsAlwaysCallable draw }
{
    let mut totals = Totals::default();
    for i in 0..count {
        compare(&mut totals, &draw(i), work);
    }
    totals
}

fn report_lists(rt: &impl Print, work: &mut [u32]) -> io::Result<()> {
    let small = run(60000, lists::small, work);
    small.report(rt)?;
    small.ones.report(rt)?;
    let large = run(36, lists::large, work);
    large.report(rt)?;
    large.ones.report(rt)?;
    run(10, lists::ring, work).report(rt)
}

// Replays made by a slow program before any code of the product; they stand on standard input, in the form of test_library::vectors. The first 50 are those of
// document 02, No. 7: 17 are accepted and 33 refused. The other five are of No. 5, all accepted.
fn report_vectors(rt: &(impl Input + Print), work: &mut [u32]) -> io::Result<()> {
    let compared = vectors::compare_hundred::<ByRoads>(rt, work)?;
    let rows = [
        ("vectors", compared.vectors),
        ("wrong", compared.wrong),
        (
            "on which the slow replay differs from the call",
            compared.slow_differs,
        ),
    ];
    print::counts(rt, &rows)
}

// All reports, with a work table for all. It is lent as an array: the prover runs out of stack where `main`, which makes it, takes a slice of it.
fn report(rt: &(impl Input + Print), work: &mut [u32; WORDS]) -> io::Result<()> {
    report_vectors(rt, work)?;
    report_lists(rt, work)?;
    windows::report(rt, work)?;
    limits::report(rt, work)
}

// Kept: the work table is an array and no Vec, so that the program rests on no heap.
fn main(rt: HostRuntime) -> io::Result<()> {
    let mut work = [0u32; WORDS];
    report(&rt, &mut work)
}
