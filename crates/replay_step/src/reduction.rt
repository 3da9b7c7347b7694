// What differs between the replay and its sibling: how many words an area has and for how many edges, and how a graph that is loaded is reduced into one.
ghost use Rattle.std.specs.Prelude.{ℕ, List};
ghost use Rattle.core_reduce.specs.declared.Counts.{Counts};
ghost use Rattle.theory_timeline.specs.Windows.{Timeline};
ghost use Rattle.replay_step.specs.Reduction.{MakeReadyBy, Reduces};
ghost use Rattle.replay_step.specs.declared.Graph.{Graph};
ghost use Rattle.replay_step.specs.declared.Part.{Part};
ghost use Rattle.replay_step.specs.declared.Window.{Window};

// Internal: a replay's own areas, and how it makes one.
pub trait Reduction {
    // The words of an area, for each event of its window.
    ghost WORDS: { ℕ };

    const WORDS: usize;

    // The edges that an area has room for, for each event.
    ghost EDGES: { ℕ };

    const EDGES: usize;

    // What a step asks of the window's area, and what it makes of the part's.
    ghost carries: { Timeline → Window → List ℕ → Type 0 };

    ghost reduced: { Timeline → Window → List ℕ → Type 0 };

    // The words that a window and all below it take, for each of its events.
    ghost WINDOW: { ℕ };

    // The words that it takes to reduce a graph of so many nodes and edges, for a part of so many events.
    ghost room: { ℕ → ℕ → ℕ → ℕ };

    // What stands in the words when a part's area is made of the graph that was loaded.
    ghost made: { Part → Graph → List ℕ → List ℕ → Counts → Type 0 };

    // Reduces the graph that is loaded behind the part's area, and writes the area: the nodes and the edges that it has then.
    fn make_area(part: crate::Part, l: crate::Graph, work: &mut [u32]) -> core_reduce::Counts
        requires { MakeReadyBy WORDS room part l work.old }
        ensures { made part l work.old work.new result };

    // With it a step and a whole list get the areas that they are to have.
    ghost reduces: { Reduces carries reduced WORDS EDGES WINDOW room made };
}
