// The pair of any two boards as a board: its meaning, and that it keeps the laws.
#![tactic(auto)]
