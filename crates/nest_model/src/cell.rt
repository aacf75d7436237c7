// What a touch reads or sets as one.

// The node after this one, if there is one, and whether this node was dropped.
#[derive(Clone, Copy, PartialEq, Eq, Debug)]
pub struct Cell {
    pub next: Option<usize>,
    pub mark: bool,
}
