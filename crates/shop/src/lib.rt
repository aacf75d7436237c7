// The floor of a shop: a nest and a line side by side, with a ledger, made from four sizes.
#![tactic(auto)]

pub mod making;
pub mod opening;
pub mod sizes;
pub mod tables;
