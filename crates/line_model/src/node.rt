// A node of the line.

// An element and the next cell, which names the node that follows or none. Nodes are named by their places in the
// node table.
#[derive(Clone, Copy, PartialEq, Eq, Debug)]
pub struct Node<E> {
    pub element: E,
    pub next: Option<usize>,
}
