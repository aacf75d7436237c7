// The pair of any two boards, which is a board.
#![tactic(auto)]

pub mod pair;
