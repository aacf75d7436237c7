// Nodes of the chain.
use crate::cell::Cell;

// A place of the node table. The first two are the ends of the chain, front and back, whose keys do not matter.
#[derive(Clone, Copy, PartialEq, Eq, Debug)]
pub struct Node<K> {
    pub key: K,
    pub cell: Cell,
}
