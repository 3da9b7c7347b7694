// The whole list's graph: all junctions, and one edge for each road that is open at the start and of which no event names a segment; and its small graph.
#![tactic(auto)]

mod load;
pub mod roads;

ghost use Rattle.replay_step.specs.Reduction.{words_of};
ghost use Rattle.replay_start.specs.Whole.{StartReady, WholeLoaded, WholeMadeOf, WholeReadyBy};

use replay_step::reduction::Reduction;
use replay_step::{Graph, Part, Window};

// Internal: loads the n junctions with these roads, with the junctions of all events as the active ones. The counts of the roads' open segments stand from place
// `counts` on.
pub fn load_whole(
    n: usize,
    part: Part,
    a: &[u16],
    b: &[u16],
    counts: usize,
    work: &mut [u32],
) -> Graph
    requires { StartReady n part a.now b.now counts work.old }
    ensures { WholeLoaded n part a.now b.now counts work.old work.new result }
{
    let s = part.scratch;
    load::clear_named(part.words, part.events, counts, work);
    let k = replay_step::load::enter_places(work, part.places, 2 * part.events, s, n);
    let m = load::load_roads(n, s, a, b, counts, work);
    Graph {
        nodes: n,
        edges: m,
        active: k,
    }
}

// Internal: the junctions and the words of t events stand at the front of work, and from place `counts` on how many segments of each road are open at the
// end; the whole list gets its area behind them.
pub fn whole<R: Reduction>(
    n: usize,
    t: usize,
    a: &[u16],
    b: &[u16],
    counts: usize,
    area: usize,
    work: &mut [u32],
) -> Window
    requires { WholeReadyBy R.WORDS R.room n t a.now b.now counts area work.old }
    ensures { WholeMadeOf R.reduced (words_of R.WORDS) n t a.now b.now counts area work.old work.new result }
{
    let part = Part {
        at: 0,
        events: t,
        places: 0,
        words: 2 * t,
        area: area,
        scratch: area + R::WORDS * t,
    };
    let l = load_whole(n, part, a, b, counts, work);
    let r = R::make_area(part, l, work);
    Window {
        at: 0,
        events: t,
        nodes: r.nodes,
        edges: r.edges,
    }
}
