// The sibling's own areas, by the loss of a junction: a part has a reduced graph of blocks and cycles. Its steps and its whole list are the replay's
// (replay_step::step, replay_start::whole).
#![tactic(auto)]

ghost use Rattle.junction_step.proofs.JunctionStepLaws.{reduces};
ghost use Rattle.junction_step.specs.JunctionArea.{JunctionArea, JunctionAreaMade, junction_room};

use core_reduce::Counts;
use replay_step::reduction::Reduction;
use replay_step::{Graph, Part};

// Internal: what the sibling is by the loss of a junction.
#[derive(Clone, Copy, Debug, PartialEq, Eq)]
pub struct Junctions;

impl Reduction for Junctions {
    ghost WORDS = { 29 };

    const WORDS: usize = 29;

    ghost EDGES = { 8 };

    const EDGES: usize = 8;

    ghost carries = { JunctionArea };

    ghost reduced = { JunctionArea };

    ghost WINDOW = { 340 };

    ghost room = { junction_room };

    ghost made = { JunctionAreaMade };

    ghost reduces = { reduces };

    fn make_area(part: Part, l: Graph, work: &mut [u32]) -> Counts {
        junction_step::area::make_area(part, l, work)
    }
}
