// The parts of a report: lists, ledger lines and the contents of boards.
#![tactic(auto)]

pub mod contents;
pub mod entries;
pub mod lists;
