// The smallest board, a cell that holds one number: the interface is met by it, and tests run over it.
#![tactic(auto)]

pub mod swap_cell;
