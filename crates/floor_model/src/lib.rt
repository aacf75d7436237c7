// Floors: what a floor's calls do, and the law of every list of calls, over any board.
#![tactic(auto)]

pub mod line;
