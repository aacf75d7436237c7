// The line: a strongly linearizable queue that 1 to 16 stations share, one atomic touch at a time.
#![tactic(auto)]

use line_model::node::Node;
use line_model::seat::Seat;
use std::marker::Model;

pub mod board;
mod cells;
pub mod making;
mod stations;
mod touches;
mod walk;

// A queue as a linked list in a node table. The node at Head is a dummy, and the contents are the elements of the nodes
// after it. Tail is the last node or, between the two compare-and-sets of a put, the one before it; whoever finds it
// behind moves it on. The nodes below `taken` are in use, and none is used again. Each station has a seat with the touch
// that comes next and its registers.
#[derive(Drop)]
pub struct Line<E> {
    nodes: Vec<Node<E>>,
    taken: usize,
    head: usize,
    tail: usize,
    seats: Vec<Seat<E>>,
}

// Clauses see the line as its model. Every node that is named anywhere is one of the table, so it is read without a test.
impl<E> Model for Line<E> {
    ghost use Rattle.line_model.specs.Line.{LineModel};

    ghost Value = { LineModel E };

    ghost use Rattle.line_model.specs.Within.{IsWithin};
    ghost use Rattle.line.specs.View.{view_of};

    ghost view = { view_of };

    ghost invariant = { λ l. IsWithin (view_of l) };
}
