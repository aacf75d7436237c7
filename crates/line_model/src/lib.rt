// The types of the line, its model and touch table, its invariant, and the proofs of a board's laws for it.
#![tactic(auto)]

pub mod node;
pub mod seat;
