// What a script prints, as definitions: replies, the report, and the run of a script on a floor of any board.
#![tactic(auto)]

pub mod ending;
pub mod printed;
pub mod reply;
