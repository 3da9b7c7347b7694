// The windows of lists, each replayed as a list of its own: its events, and what is open before it as its starting table. The windows of such a list are those
// below the window, so that kept of the window less kept of its two parts is the nodes of its own small graph: kept is compared window by window.
use std::io;
use test_library::calls::Lending;
use test_library::replays::{List, ReplayCall, Sizes};
use test_library::{print, tables};
use test_random::lists;
use test_random::lists::Drawn;
use test_replay_calls::calls::ByRoads;
use test_slow_replay::replay;
use test_totals::list_totals::Totals;

// The list of the window of n events from this one on. Its starting table has the segments that are open before its first event.
fn cut(list: &List, first: usize, n: usize) -> Drawn {
    let open = replay::open_before(list, first);
    let sizes = Sizes { t: n, ..list.sizes };
    let mut window = List { sizes, ..*list };
    for e in 0..sizes.m {
        let opens = tables::is_marked(&open, e);
        tables::set(&mut window.start, e, usize::from(opens));
    }
    for i in 0..n {
        window.set_event(i, list.event(first.saturating_add(i)));
    }
    Drawn {
        list: window,
        lending: Lending::longer(),
        ring: None,
        most: 12,
    }
}

// Replays a window and all windows below it.
fn run(totals: &mut Totals, list: &List, first: usize, n: usize, work: &mut [u32]) {
    crate::compare(totals, &cut(list, first, n), work);
    let part = replay::first_part(n, list.sizes.p);
    if n > part {
        run(totals, list, first, part, work);
        run(totals, list, first.saturating_add(part), n - part, work);
    }
}

// Replays the windows of the first random lists, of those that are accepted.
fn run_all(work: &mut [u32]) -> Totals {
    let mut totals = Totals::default();
    for s in 0..2000 {
        let list = lists::small(s).list;
        let lengths = ByRoads::lengths(list.sizes, Lending::longer());
        let want = ByRoads::slow(&list, lengths, None);
        if want.reply.is_ok() && list.sizes.t > 0 {
            run(&mut totals, &list, 0, list.sizes.t, work);
        }
    }
    totals
}

pub(crate) fn report(rt: &impl Print, work: &mut [u32]) -> io::Result<()> {
    let totals = run_all(work);
    let rows = [
        (
            "windows of lists, each replayed as a list of its own",
            totals.lists,
        ),
        ("with a disagreement", totals.disagreements),
    ];
    print::counts(rt, &rows)
}
