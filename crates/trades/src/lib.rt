// Reading the keys and elements of the two trades.
#![tactic(auto)]

mod counted;
pub mod cutting;
pub mod pattern;
pub mod trade;
