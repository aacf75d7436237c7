// Scripts, run on the floor of a shop.
#![tactic(auto)]

mod lines;
mod obeying;
mod replying;
mod reporting;
pub mod run;
mod running;
