// The public call `replay_junctions`, the sibling of the replay (document 02, No. 8): the checks, then the recursion over the windows of the whole list.
#![tactic(auto)]

mod list;

ghost use Rattle.std.specs.Prelude.{◌≡◌};
ghost use Rattle.theory_junction_timeline.specs.JunctionCall.{junction_lent, junction_outcome};
ghost use Rattle.theory_junction_timeline.specs.JunctionDemand.{KeepsJunctionDemand};
ghost use Rattle.theory_junction_timeline.specs.JunctionReplay.{replay_junctions};

use theory_junction_timeline::JunctionTotals;
use theory_timeline::EventList;

// What the call is refused by, for callers who do not rest on call_sizes.
pub use call_sizes::Refusal;

// The words of the work table that an event takes.
const EVENT_WORDS: usize = 1024;

// The replies by the loss of a junction to t events over n junctions and m segments, with the share p; the segments with 1 in `start` are open before the
// first event. Its outcome is the one that the definition gives for what it is lent; and with any other lending and any two allowed shares it keeps what is
// said of the two.
// Kept: the documents name the parameters of the public call.
pub fn replay_junctions(
    n: usize,
    m: usize,
    t: usize,
    p: usize,
    a: &[u16],
    b: &[u16],
    start: &[u16],
    x: &[u16],
    y: &[u16],
    answers: &mut [u8],
    work: &mut [u32],
) -> Result<JunctionTotals, Refusal>
    ensures as_defined { junction_outcome result answers.new work.new ≡ replay_junctions
        (junction_lent n m t a.now b.now start.now x.now y.now answers.old work.old) p }
    ensures keeps_junction_demand { KeepsJunctionDemand
        (junction_lent n m t a.now b.now start.now x.now y.now answers.old work.old) p
        (junction_outcome result answers.new work.new) }
{
    let list = EventList {
        n,
        m,
        t,
        p,
        a,
        b,
        start,
        x,
        y,
    };
    let open_at_end = replay_checks::check(list, answers, &[], work, EVENT_WORDS)?;
    let need = replay_checks::required(EVENT_WORDS, t, n, m);
    list::replay_list(n, p, a, b, start, x, y, answers, &mut work[..need]);
    let queries = replay_events::count_queries(n, x, t);
    core_words::clear(work, need);
    Ok(JunctionTotals {
        queries,
        open: open_at_end,
    })
}
