// Reading the forms of a script, in one text for both trades.
#![tactic(auto)]

pub mod call;
mod form;
pub mod opening;
pub mod operation;
pub mod read_back;
