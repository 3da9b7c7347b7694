// The checks of a replay, in document 01's order. They read the tables only.
#![tactic(auto)]

ghost use Rattle.std.specs.Prelude.{[], ◌∷◌, ◌++◌, ◌+◌, ◌*◌, cond, ◌≡◌, ◌≤◌, ltb, length, List, Result, ℕ};
ghost use Rattle.theory_graph.specs.Lists.{pairs};
ghost use Rattle.call_open_set.specs.OpenSet.{is_open};
ghost use Rattle.call_sizes.specs.Numbers.{refused_by};
ghost use Rattle.call_sizes.specs.Refusal.{first_fault};
ghost use Rattle.theory_timeline.specs.Call.{lent_of};
ghost use Rattle.replay_checks.specs.Check.{CanCheckList, CheckedEvents, CheckedList, CheckedTables, SizesFit, bound_faults, event_row, tables_of};

use call_kinds::Kind;
use call_sizes::{Refusal, Sizes};
use theory_timeline::EventList;

// Whether segment y is open, where the segments of `held` are; event i is refused by 5 where there is no such segment.
fn is_segment_open(m: usize, held: &[u64; 128], y: usize, i: usize) -> Result<bool, Refusal>
    requires { length held.now ≡ 128 }
    ensures { result ≡ cond (ltb y m) (Ok (is_open held.now y)) (Err (Refusal.NamesNothing i)) }
{
    if m <= y {
        return Err(Refusal::NamesNothing(i));
    }
    Ok(call_open_set::contains(held, y))
}

// Refusals 5, 6 and 7 of event i, where the segments of `held` are open before it.
#[tactic(auto, unfolding(theory_timeline::specs::Replay::event_fault))]
fn check_event(
    n: usize,
    m: usize,
    held: &[u64; 128],
    x: u16,
    y: usize,
    i: usize,
) -> Result<(), Refusal>
    requires { length held.now ≡ 128 }
    ensures { refused_by result ≡ first_fault (event_row n m (is_open held.now) (x, y) i ∷ []) }
{
    match call_kinds::kind_of(x, n) {
        Kind::Query => {
            if y < n {
                return Ok(());
            }
            Err(Refusal::NamesNothing(i))
        }
        Kind::Opens => {
            if is_segment_open(m, held, y, i)? {
                return Err(Refusal::OpensOpen(i));
            }
            Ok(())
        }
        Kind::Closes => {
            if is_segment_open(m, held, y, i)? {
                return Ok(());
            }
            Err(Refusal::ClosesClosed(i))
        }
        Kind::None => Err(Refusal::NamesNothing(i)),
    }
}

// The events, where the segments of `first` are open before them: the open set is handed on from event to event, and the one after the last is returned.
// Kept: the documents ask for the set by value as it changes.
fn check_events(l: EventList, first: [u64; 128]) -> Result<[u64; 128], Refusal>
    requires { CanCheckList l }
    ensures { CheckedEvents l.entry.n l.entry.m (is_open first) (pairs l.entry.x.now l.entry.y.now) l.entry.t result }
{
    let mut held = first;
    // No event before i has a fault, and the set is what is open before i.
    for (i, (&x, &y)) in l.x.iter().zip(l.y).enumerate() {
        let y = y as usize;
        check_event(l.n, l.m, &held, x, y, i)?;
        // The set is copied where it changes, and not at a query.
        match call_kinds::kind_of(x, l.n) {
            Kind::Opens => held = call_open_set::opened(held, y),
            Kind::Closes => held = call_open_set::closed(held, y),
            Kind::Query | Kind::None => {}
        }
    }
    Ok(held)
}

// Refusals 2, 12 and 3, in this order: a table shorter than its least length, one that is only read longer than its size, the share below 4 or above 12.
// `others` and `more` are the lengths of the call's other tables with their least lengths.
fn check_bounds(
    l: EventList,
    answers: &[u8],
    others: &[(usize, usize)],
    more: &[(usize, usize)],
) -> Result<(), Refusal>
    ensures { refused_by result ≡ first_fault (bound_faults (others.now ++ more.now) (tables_of l.entry answers.now) l.entry.p) }
{
    // In each pair the first number must not be below the second.
    let least = [
        (l.a.len(), l.m),
        (l.b.len(), l.m),
        (l.start.len(), l.m),
        (l.x.len(), l.t),
        (l.y.len(), l.t),
        (answers.len(), l.t),
    ];
    let most = [
        (l.m, l.a.len()),
        (l.m, l.b.len()),
        (l.m, l.start.len()),
        (l.t, l.x.len()),
        (l.t, l.y.len()),
    ];
    let share = [(l.p, 4), (12, l.p)];
    call_sizes::check_pairs(&least, Refusal::ShortTable)?;
    call_sizes::check_pairs(others, Refusal::ShortTable)?;
    call_sizes::check_pairs(more, Refusal::ShortTable)?;
    call_sizes::check_pairs(&most, Refusal::LongTable)?;
    call_sizes::check_pairs(&share, Refusal::Share)
}

// The faults behind those: of the ends, the starting table and the events.
fn check_list(l: EventList) -> Result<usize, Refusal>
    requires { CanCheckList l }
    ensures { CheckedList l.entry result }
{
    call_sizes::check_ends(l.n, l.m, l.a, l.b)?;
    call_sizes::check_start(l.start)?;
    let held = check_events(l, call_open_set::from_table(l.m, l.start))?;
    Ok(call_open_set::count(held))
}

// Internal: the first fault behind the sizes of a call that is lent this list and an answer table. `own` has the length of each of its other tables with the least
// that it must have, whatever these are. Where there is none, how many segments are open at the end.
pub fn check_lengths(l: EventList, answers: &[u8], own: &[(usize, usize)]) -> Result<usize, Refusal>
    requires { SizesFit l }
    ensures { CheckedTables own.now (tables_of l.entry answers.now) l.entry.p result }
{
    check_bounds(l, answers, own, &[])?;
    check_list(l)
}

// Internal: the required length of the work table of a call that takes this many words for an event.
pub fn required(event_words: usize, t: usize, n: usize, m: usize) -> usize
    requires { (event_words ≤ 1024) × (t ≤ 4096) × (n ≤ 4096) × (m ≤ 8192) }
    ensures { result ≡ event_words * t + 32 * n + 8 * m + 2048 }
{
    event_words * t + 32 * n + 8 * m + 2048
}

// Internal: the first fault of a call that is lent this list, an answer table, a work table with this many words for an event, and `others`, the length of each
// other table with the least that it must have. Where there is none, how many segments are open at the end. Nothing but the lengths of those tables is
// looked at, whatever the names and the words in them.
pub fn check(
    l: EventList,
    answers: &[u8],
    others: &[(usize, usize)],
    work: &[u32],
    event_words: usize,
) -> Result<usize, Refusal>
    requires { event_words ≤ 1024 }
    ensures { (names words : List ℕ)
        → CheckedTables (others.now ++ (length work.now, event_words * l.entry.t + 32 * l.entry.n + 8 * l.entry.m + 2048) ∷ [])
        (lent_of l.entry answers.now names words) l.entry.p result }
{
    Sizes::check(l.n, l.m, l.t, 0)?;
    let need = required(event_words, l.t, l.n, l.m);
    check_bounds(l, answers, others, &[(work.len(), need)])?;
    check_list(l)
}
