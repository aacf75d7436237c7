// The text of a script: its lines, the tokens of a line, and the faults that end the reading.
#![tactic(auto)]

pub mod fault;
pub mod line;
mod run;
pub mod token;
pub mod tokens;
