// Internal, for the tests alone: a slow and simple version of the sibling, from the words of document 02, No. 8: it takes each third junction away in turn,
// with every segment that meets it. Which segments are open, the search and the refusals are those of the slow graphs and the slow replay. Nothing here calls
// the product. Networks have at most 512 junctions and 512 segments, but for rings, which may have the full size.
#![tactic(auto)]

ghost use Rattle.std.specs.Prelude.{◌≤◌};

use test_library::replays::{Answers, Event, Lengths, List, Replayed, Sizes};
use test_library::{calls, tables};
use test_slow_graphs::graphs::OpenGraph;
use test_slow_replay::replay;

// What is wanted of the sibling, with what was there before for each name, since it writes none; and what the replay of the same list answers, by the loss of a
// road.
#[derive(Drop)]
pub struct Wanted {
    pub junctions: Replayed,
    pub by_roads: Answers,
}

// Internal: the least length of the work table. Sizes count up to one past their limits.
pub fn required(sizes: Sizes) -> usize
    ensures { result ≤ 4394024 }
{
    sizes.t.min(4097) * 1024 + sizes.n.min(4097) * 32 + sizes.m.min(8193) * 8 + 2048
}

// The answer to a query of u and v, which are joined. Past 512 junctions the one that is taken away goes round.
fn answer_of_joined(list: &List, open: &[bool], u: usize, v: usize) -> u8 {
    let graph = OpenGraph {
        nodes: list.sizes.n,
        count: list.sizes.m,
        edges: &list.segments,
        open,
    };
    let is_joined_without = |c: usize| graph
        .pieces_without(None, |w| w % 512 == c % 512)
        .together(u, v);
    let is_parting = |c: usize| c != u && c != v && !is_joined_without(c);
    if (0..list.sizes.n).any(is_parting) {
        1
    } else {
        2
    }
}

// Whether an open segment goes between u and v.
fn is_adjacent(list: &List, open: &[bool], u: usize, v: usize) -> bool {
    (0..list.sizes.m).any(|e| {
        let ends = list.segments.ends(e);
        tables::is_marked(open, e) && (ends == (u, v) || ends == (v, u))
    })
}

// The answer of an event, where these segments are open, which the replay answers by this number. On a ring that is how many ways round are open: where it is
// one, each junction on it parts the two, unless it is a single road.
fn answer(list: &List, open: &[bool], event: Event, by_roads: u8, is_ring: bool) -> u8 {
    match event {
        Event::Opens(_) | Event::Closes(_) => 3,
        Event::Asks(u, v) if is_ring && by_roads == 1 => {
            if is_adjacent(list, open, u, v) { 2 } else { 1 }
        }
        Event::Asks(u, v) if !is_ring && by_roads > 0 => answer_of_joined(list, open, u, v),
        Event::Asks(_, _) => by_roads,
    }
}

// The answers of a list without a fault.
fn answers(list: &List, by_roads: &Answers, is_ring: bool) -> Answers {
    let mut open = replay::open_before(list, 0);
    let mut answers = [0; 4104];
    for (i, (answer_of_event, by_road)) in answers
        .iter_mut()
        .zip(by_roads)
        .take(list.sizes.t)
        .enumerate()
    {
        let event = list.event(i);
        *answer_of_event = answer(list, &open, event, *by_road, is_ring);
        replay::change(&mut open, event);
    }
    answers
}

// The lengths by which the replay refuses what its sibling refuses: the name table is never short, and the work table is where it is for the sibling.
fn lengths_for_replay(sizes: Sizes, lengths: Lengths) -> Lengths {
    let is_short = lengths.work < required(sizes);
    Lengths {
        names: sizes.t,
        work: replay::required(sizes).saturating_sub(usize::from(is_short)),
        ..lengths
    }
}

// Internal: the outcome of a list whose tables have these lengths; on a ring of so many places, where it is on one.
pub fn reply(list: &List, lengths: Lengths, ring: Option<usize>) -> Wanted {
    let replayed = replay::reply(list, lengths_for_replay(list.sizes, lengths), ring);
    let by_roads = replayed.answers;
    let mut junctions = Replayed {
        names: [u16::from(calls::BEFORE); 8200],
        ..replayed
    };
    if let Ok(mut totals) = replayed.reply {
        totals.kept = 0;
        junctions.reply = Ok(totals);
        junctions.answers = answers(list, &by_roads, ring.is_some());
    }
    Wanted {
        junctions,
        by_roads,
    }
}
