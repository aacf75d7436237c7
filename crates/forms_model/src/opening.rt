// The form that opens a floor.

// A cutting floor has size labels and cut tickets, a pattern floor piece codes and plot orders.
#[derive(Clone, Copy, PartialEq, Eq, Debug)]
pub enum Kind {
    Cutting,
    Pattern,
}

// The first form of a script: the kind of floor and its sizes, as they are written; whether a floor can have them is
// not asked here.
#[derive(Clone, Copy, PartialEq, Eq, Debug)]
pub struct Opening {
    pub kind: Kind,
    pub stations: usize,
    // lines of the ledger
    pub limit: usize,
    // nodes of the nest
    pub nodes: usize,
    // nodes of the line
    pub line_nodes: usize,
}
