// The call of replay_junctions.
use test_library::calls;
use test_library::calls::Lending;
use test_library::refusals::Refusal;
use test_library::replays::{Lengths, List, ReplayCall, Replayed, Reply, Sizes, Totals};

// The work table for 4096 junctions, 8192 segments and 1200 events, and some words behind it. The one for 4096 events, 17 MB, is more than the stack of a
// program has by default.
pub const WORDS: usize = 1427464;

// The sibling, by the loss of a junction.
pub struct ByJunctions;

fn plain(reply: Result<theory_junction_timeline::JunctionTotals, call_sizes::Refusal>) -> Reply {
    match reply {
        Ok(t) => Ok(Totals {
            queries: t.queries,
            open: t.open,
            kept: 0,
        }),
        Err(refusal) => Err(Refusal {
            code: refusal.code(),
            place: refusal.place(),
        }),
    }
}

// There is no name table, whatever is said of its length.
impl ReplayCall for ByJunctions {
    const HAS_NAMES: bool = false;

    fn slow(list: &List, lengths: Lengths, ring: Option<usize>) -> Replayed {
        test_slow_junctions::reply(list, lengths, ring).junctions
    }

    fn required(sizes: Sizes) -> usize {
        test_slow_junctions::required(sizes)
    }

    fn call(
        list: &List,
        lengths: Lengths,
        answers: &mut [u8],
        _names: &mut [u16],
        work: &mut [u32],
    ) -> Reply {
        let sizes = list.sizes;
        plain(call_replay_junctions::replay_junctions(
            sizes.n,
            sizes.m,
            sizes.t,
            sizes.p,
            calls::first(&list.segments.from, lengths.a),
            calls::first(&list.segments.to, lengths.b),
            calls::first(&list.start, lengths.start),
            calls::first(&list.x, lengths.x),
            calls::first(&list.y, lengths.y),
            calls::first_mut(answers, lengths.answers),
            calls::first_mut(work, lengths.work),
        ))
    }
}

// Internal: whether the call gives what is wanted with each share from 4 to 12.
pub fn all_shares_agree(list: &List, want: &Replayed, work: &mut [u32]) -> bool {
    let mut list = List { ..*list };
    for share in 4..13 {
        list.sizes.p = share;
        let lengths = ByJunctions::lengths(list.sizes, Lending::longer());
        let replayed = ByJunctions::run(&list, lengths, work);
        if !replayed.agrees(want, list.sizes.t) {
            return false;
        }
    }
    true
}
