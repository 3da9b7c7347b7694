// Document 01's cases that are run and not proved, those of the starting table, sizes of one more, tables of one entry less and of one more, and the order of
// the refusals.
use crate::calls::ByRoads;
use std::io;
use test_cases::{ASKS, Case, Fault};
use test_library::counts::Count;
use test_library::replays::OPENS;
use test_library::{print, refusals};

// How many of the eight tables are refused by 2 where they are one entry short.
fn short_refused(work: &mut [u32]) -> Count {
    let mut count = Count::default();
    for table in 1..9 {
        let short = Fault::Short(table);
        let replayed = Case::path(0, OPENS, ASKS)
            .with_fault(short)
            .run::<ByRoads>(work);
        count.add_if(replayed.is_refused_by(short.refusal()));
    }
    count
}

// Whether a case with two faults is refused by the first.
fn first_counts(first: Fault, second: Fault, work: &mut [u32]) -> bool {
    test_cases::first_counts::<ByRoads>(first, second, work)
}

// How many pairs of the nine faults are refused by the first.
fn pairs_refused(work: &mut [u32]) -> Count {
    let mut count = Count::default();
    for second in 0..9 {
        for first in 0..second {
            let first = test_cases::fault_at(first);
            count.add_if(first_counts(first, test_cases::fault_at(second), work));
        }
    }
    count
}

// How many of the five tables that are only read, each one entry longer, alone and beside each other fault, are refused by the first. Behind the faults 0 and 1
// comes such a table, and alone it is fault 2.
fn long_refused(work: &mut [u32]) -> Count {
    let mut count = Count::default();
    for table in 1..6 {
        let long = Fault::Long(table);
        for i in 0..9 {
            let other = test_cases::fault_at(i);
            let is_right = if i < 2 {
                first_counts(other, long, work)
            } else {
                first_counts(long, other, work)
            };
            count.add_if(is_right);
        }
    }
    count
}

// How many pairs of a table one entry short and another one entry longer are refused by 2.
fn uneven_refused(work: &mut [u32]) -> Count {
    let mut count = Count::default();
    for (short, long) in (1..9).flat_map(|short| (1..6).map(move |long| (short, long))) {
        if short != long {
            count.add_if(first_counts(Fault::Short(short), Fault::Long(long), work));
        }
    }
    count
}

fn report_cases(rt: &impl Print, work: &mut [u32]) -> io::Result<()> {
    for i in 0..27 {
        let (what, case) = test_cases::case_at(i);
        println!(rt; "{what}: {}", case.run::<ByRoads>(work).printed())?;
    }
    Ok(())
}

// Internal: runs the cases, and prints their replies and counts.
pub fn report(rt: &impl Print, work: &mut [u32]) -> io::Result<()> {
    report_cases(rt, work)?;
    let mut case = Case::sized(4096, 8192, 0);
    case.start[1] = 0;
    let silent = case.run::<ByRoads>(work).reply;
    let refusal = refusals::printed(&silent);
    let totals = silent.unwrap_or_default();
    print!(rt; "no event and all but one segment open at the start, reply: {refusal}, ")?;
    println!(rt;
        "returned: {} {} {}",
        totals.queries, totals.open, totals.kept
    )?;
    let rows = [
        (
            "of 8 tables one entry short, refused by 2 with all entries kept",
            short_refused(work),
        ),
        (
            "of 36 pairs of faults, refused by the first, at its place, with all entries kept",
            pairs_refused(work),
        ),
        (
            "of 5 tables one entry longer, alone and beside 8 other faults, refused by the first so",
            long_refused(work),
        ),
        (
            "of 35 pairs of a table one entry short and another one entry longer, refused by 2 so",
            uneven_refused(work),
        ),
    ];
    print::counts(rt, &rows)
}
