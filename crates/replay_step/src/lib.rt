// The step: the small graph of a part of a window, out of the window's own. Its two acts, what is loaded and the area made of it, serve for the whole list
// too (replay_start).
#![tactic(auto)]

pub mod area;
mod beside;
pub mod load;
pub mod reduction;
pub mod tag;

ghost use Rattle.replay_step.specs.Area.{SteppedOf};
ghost use Rattle.replay_step.specs.Load.{LoadReady, PartLoaded};
ghost use Rattle.replay_step.specs.Reduction.{StepReadyBy, words_of};

use crate::reduction::Reduction;

// Internal: a window of a list by its first event and its number of events, with the nodes and the edges of the graph in its area.
#[derive(Clone, Copy, Debug, PartialEq, Eq)]
pub struct Window {
    pub at: usize,
    pub events: usize,
    pub nodes: usize,
    pub edges: usize,
}

// Internal: a part whose area is to be made: its first event and its number of events; where its places and the words of its events stand; where its area
// begins, and behind it the words of the graph that is loaded.
#[derive(Clone, Copy, Debug, PartialEq, Eq)]
pub struct Part {
    pub at: usize,
    pub events: usize,
    pub places: usize,
    pub words: usize,
    pub area: usize,
    pub scratch: usize,
}

// Internal: a graph that is loaded behind a part's area: its nodes, its edges, and how many different active nodes it has.
#[derive(Clone, Copy, Debug, PartialEq, Eq)]
pub struct Graph {
    pub nodes: usize,
    pub edges: usize,
    pub active: usize,
}

// Internal: loads the window's graph, whose area has room for `most` edges, with the edges that its part adds.
pub fn load_part(w: Window, most: usize, part: Part, work: &mut [u32]) -> Graph
    requires { LoadReady w most part work.old }
    ensures { PartLoaded w most part work.old work.new result }
{
    let n = w.nodes;
    let e = w.events;
    let s = part.scratch;
    let k = load::enter_places(work, part.places, 2 * part.events, s, n);
    load::copy_edges(work, 5 * e, most, w.edges, s, n);
    let a = part.at - w.at;
    let m = beside::add_events(w, part, 0, a, work, w.edges);
    let all = beside::add_events(w, part, a + part.events, e, work, m);
    Graph {
        nodes: n,
        edges: all,
        active: k,
    }
}

// Internal: the window has its area at the front of work; its part of c events from `lo` on gets its area behind that.
pub fn step<R: Reduction>(w: Window, lo: usize, c: usize, work: &mut [u32]) -> Window
    requires { StepReadyBy R.carries R.WORDS R.room w lo c work.old }
    ensures { SteppedOf R.carries R.reduced (words_of R.WORDS) w lo c work.old work.new result }
{
    let a = lo - w.at;
    let area = R::WORDS * w.events;
    let part = Part {
        at: w.at + a,
        events: c,
        places: 2 * a,
        words: 2 * w.events + 3 * a,
        area: area,
        scratch: area + R::WORDS * c,
    };
    let l = load_part(w, R::EDGES * w.events, part, work);
    let small = R::make_area(part, l, work);
    Window {
        at: lo,
        events: c,
        nodes: small.nodes,
        edges: small.edges,
    }
}
