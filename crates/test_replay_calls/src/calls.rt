// The call of replay.
use test_library::calls;
use test_library::refusals::Refusal;
use test_library::replays::{Lengths, List, ReplayCall, Replayed, Reply, Sizes, Totals};
use test_slow_replay::replay;

// The longest work table that a call may want, and some words behind it.
pub const WORDS: usize = 1247536;

// The replay, by the loss of a road.
pub struct ByRoads;

fn plain(reply: Result<theory_timeline::Totals, call_sizes::Refusal>) -> Reply {
    match reply {
        Ok(t) => Ok(Totals {
            queries: t.queries,
            open: t.open,
            kept: t.kept,
        }),
        Err(refusal) => Err(Refusal {
            code: refusal.code(),
            place: refusal.place(),
        }),
    }
}

impl ReplayCall for ByRoads {
    const HAS_NAMES: bool = true;

    fn slow(list: &List, lengths: Lengths, ring: Option<usize>) -> Replayed {
        replay::reply(list, lengths, ring)
    }

    fn required(sizes: Sizes) -> usize {
        replay::required(sizes)
    }

    fn call(
        list: &List,
        lengths: Lengths,
        answers: &mut [u8],
        names: &mut [u16],
        work: &mut [u32],
    ) -> Reply {
        let sizes = list.sizes;
        plain(call_replay::replay(
            sizes.n,
            sizes.m,
            sizes.t,
            sizes.p,
            calls::first(&list.segments.from, lengths.a),
            calls::first(&list.segments.to, lengths.b),
            calls::first(&list.start, lengths.start),
            calls::first(&list.x, lengths.x),
            calls::first(&list.y, lengths.y),
            calls::first_mut(answers, lengths.answers),
            calls::first_mut(names, lengths.names),
            calls::first_mut(work, lengths.work),
        ))
    }
}
