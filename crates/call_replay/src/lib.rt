// The public call `replay`: the checks, then the recursion over the windows of the whole list.
#![tactic(auto)]

mod list;

ghost use Rattle.std.specs.Prelude.{◌≡◌};
ghost use Rattle.theory_timeline.specs.Call.{lent, outcome};
ghost use Rattle.theory_timeline.specs.DemandThree.{KeepsDemand3};
ghost use Rattle.theory_timeline.specs.Replay.{replay};

use theory_timeline::{EventList, Totals};

// What a replay is refused by, for callers who do not rest on call_sizes.
pub use call_sizes::Refusal;

// The words of the work table that an event takes.
const EVENT_WORDS: usize = 256;

// The replay of t events over n junctions and m segments, with the share p; the segments with 1 in `start` are open before the first event. Its outcome is
// the one that the definition gives for what it is lent; and with any other lending k and any two allowed shares it meets demand 3.
// Kept: the documents name the parameters of the public call.
pub fn replay(
    n: usize,
    m: usize,
    t: usize,
    p: usize,
    a: &[u16],
    b: &[u16],
    start: &[u16],
    x: &[u16],
    y: &[u16],
    answers: &mut [u8],
    names: &mut [u16],
    work: &mut [u32],
) -> Result<Totals, Refusal>
    ensures as_defined { outcome result answers.new names.new work.new ≡ replay
        (lent n m t a.now b.now start.now x.now y.now
        answers.old names.old work.old) p }
    ensures keeps_demand3 { KeepsDemand3 (lent n m t a.now b.now start.now x.now y.now
        answers.old names.old work.old) p (outcome result answers.new names.new work.new) }
{
    let list = EventList {
        n,
        m,
        t,
        p,
        a,
        b,
        start,
        x,
        y,
    };
    // The length of the name table, and the least that it must have.
    let others = [(names.len(), t)];
    let open_at_end = replay_checks::check(list, answers, &others, work, EVENT_WORDS)?;
    let need = replay_checks::required(EVENT_WORDS, t, n, m);
    let kept = list::replay_list(n, p, a, b, start, x, y, answers, names, &mut work[..need]);
    let queries = replay_events::count_queries(n, x, t);
    core_words::clear(work, need);
    Ok(Totals {
        queries,
        open: open_at_end,
        kept,
    })
}
