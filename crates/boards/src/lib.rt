// Boards: shared objects that stations work on one touch at a time. The interface with its meaning and laws.
#![tactic(auto)]

pub mod board;
pub mod outcome;
pub mod station;
