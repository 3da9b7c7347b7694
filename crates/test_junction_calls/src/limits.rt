// Cases at the limits and with faults: those of the replay, of which all but the full sizes give the same here, tables of one entry less and of one more, the
// order of the refusals, and the work table of the replay.
use crate::calls::ByJunctions;
use std::io;
use test_cases::{ASKS, Case, Fault};
use test_library::calls::Lending;
use test_library::counts::Count;
use test_library::refusals;
use test_library::refusals::Refusal;
use test_library::replays::{OPENS, ReplayCall};
use test_slow_replay::replay;

// Whether a case comes out as by the slow version.
fn is_right(case: &Case, work: &mut [u32]) -> bool {
    let list = case.list();
    let lengths = ByJunctions::lengths(case.sizes, case.lending);
    let want = ByJunctions::slow(&list, lengths, None);
    ByJunctions::run(&list, lengths, work).agrees(&want, case.sizes.t)
}

// How many of the 26 cases behind the full sizes are right.
fn cases_right(work: &mut [u32]) -> Count {
    let mut count = Count::default();
    for i in 1..27 {
        let (_, case) = test_cases::case_at(i);
        count.add_if(is_right(&case, work));
    }
    count
}

// Fault i of 19, in the order of the refusals: each table one entry short and each one entry longer among them. There is no table 7, that of the names.
fn fault_at(i: usize) -> Fault {
    match i {
        0 => Fault::Size,
        7 => Fault::Short(8),
        1..=6 => Fault::Short(i),
        8..=12 => Fault::Long(i - 7),
        _ => test_cases::fault_at(i.saturating_sub(10)),
    }
}

// How many of the faults, each alone and beside each later one, are refused by the first. A table that is one entry short and one longer has no fault.
fn faults_refused(work: &mut [u32]) -> Count {
    let mut count = Count::default();
    for second in 0..19 {
        for first in 0..second + 1 {
            let (first, second) = (fault_at(first), fault_at(second));
            let is_no_fault = match (first, second) {
                (Fault::Short(short), Fault::Long(long)) => short == long,
                _ => false,
            };
            if !is_no_fault {
                count.add_if(test_cases::first_counts::<ByJunctions>(first, second, work));
            }
        }
    }
    count
}

// The reply to the path with two events, where so many words are lent.
fn with_words(words: usize, work: &mut [u32]) -> Refusal {
    let list = Case::path(0, OPENS, ASKS).list();
    let mut lengths = ByJunctions::lengths(list.sizes, Lending::default());
    lengths.work = words;
    ByJunctions::run(&list, lengths, work).printed()
}

fn report_words(rt: &impl Print, work: &mut [u32]) -> io::Result<()> {
    let sizes = Case::path(0, OPENS, ASKS).sizes;
    let required = ByJunctions::required(sizes);
    let alone = with_words(replay::required(sizes), work);
    println!(rt; "the work table of the replay, reply: {alone}")?;
    let less = with_words(required.saturating_sub(1), work);
    println!(rt; "one word less than required, reply: {less}")?;
    let least = with_words(required, work);
    println!(rt; "as many as required, reply: {least}")
}

// Internal: runs the cases, and prints their replies and counts.
pub fn report(rt: &impl Print, work: &mut [u32]) -> io::Result<()> {
    let mut full = Case::sized(4096, 8192, 4096);
    let refused = full.run::<ByJunctions>(work).printed();
    print!(rt; "4096 junctions, 8192 segments and 4096 events with a work table for 1200, ")?;
    println!(rt; "reply: {refused}")?;
    full.sizes.t = 0;
    full.start[1] = 0;
    let silent = full.run::<ByJunctions>(work).reply;
    let refusal = refusals::printed(&silent);
    let totals = silent.unwrap_or_default();
    print!(rt; "no event and all but one segment open at the start, reply: {refusal}, ")?;
    println!(rt; "returned: {} {}", totals.queries, totals.open)?;
    report_words(rt, work)?;
    let right = cases_right(work);
    println!(rt;
        "of 26 cases at the limits and with faults, as the slow version replies: {right}"
    )?;
    let refused = faults_refused(work);
    print!(rt;
        "of 19 faults, alone and beside each later one, 185 in all, refused by the first, "
    )?;
    println!(rt; "at its place, with all entries kept: {refused}")
}
