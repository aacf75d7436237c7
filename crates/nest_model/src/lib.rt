// The nest without its code: what its tables hold, and in specs/ and proofs/ the touch table, its meaning, its invariant and its laws.
#![tactic(auto)]

pub mod cell;
pub mod node;
pub mod pending;
pub mod phase;
pub mod registers;
pub mod step;
pub mod work;
