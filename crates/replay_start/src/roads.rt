// The replay's own areas, by the loss of a road: a part has its small graph, by the contraction.
ghost use Rattle.replay_step.proofs.StepLaws.{reduces};
ghost use Rattle.replay_step.specs.Area.{Area, SmallArea, road_room};
ghost use Rattle.replay_step.specs.Load.{AreaMade};

use core_reduce::Counts;
use replay_step::reduction::Reduction;
use replay_step::{Graph, Part};

// Internal: what the replay is by the loss of a road.
#[derive(Clone, Copy, Debug, PartialEq, Eq)]
pub struct Roads;

impl Reduction for Roads {
    ghost WORDS = { 17 };

    const WORDS: usize = 17;

    ghost EDGES = { 4 };

    const EDGES: usize = 4;

    ghost carries = { Area };

    ghost reduced = { SmallArea };

    ghost WINDOW = { 187 };

    ghost room = { road_room };

    ghost made = { AreaMade };

    ghost reduces = { reduces };

    fn make_area(part: Part, l: Graph, work: &mut [u32]) -> Counts {
        replay_step::area::make_area(part, l, work)
    }
}
