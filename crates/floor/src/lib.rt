// Floors: a board with a ledger, on which a change is written at the very touch when it takes effect.
#![tactic(auto)]

pub mod floor;

pub use floor::{ClosedFloor, OpenFloor};
