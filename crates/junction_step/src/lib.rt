// The sibling's own part of a step (document 02, No. 8): the reduced graph of what is loaded for a part of a window. All else of its step is the replay's
// (replay_step); the area has room for eight edges an event in place of four.
#![tactic(auto)]

pub mod area;
