// Plain machines, the sequential specifications of the nest, the line and a pair of two: operations, answers and meaning.
#![tactic(auto)]

pub mod line_op;
pub mod nest_op;
pub mod printed;
pub mod side;
