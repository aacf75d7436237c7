// The forms of a script as values, and the definitions of how they are read.
#![tactic(auto)]

pub mod call;
pub mod opening;
pub mod verb;
