// Internal, for the tests alone: calls of the product's replay with tables that are lent, and its cases at the limits and with faults.
#![tactic(auto)]

pub mod calls;
pub mod limits;
