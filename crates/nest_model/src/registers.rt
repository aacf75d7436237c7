// What a station remembers from touch to touch.

// The registers of a station. Each is unset when an operation begins and keeps its value until a touch sets it. A
// register for a node is `None` too after it was set from the back's cell, which has no next node. `next` and `mark` are
// two registers and not one cell that was read: whoever takes `next` would have to take that cell apart first.
#[derive(Clone, Copy, PartialEq, Eq, Debug)]
pub struct Registers {
    // the node where the station stands
    pub here: Option<usize>,
    // what the cell of `here` was when it was read
    pub next: Option<usize>,
    pub mark: Option<bool>,
    // the last unmarked node on the way, and its next node
    pub keep: Option<usize>,
    pub keptnext: Option<usize>,
}
