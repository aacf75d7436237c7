// Which touch comes next.

// The touch that a waiting station makes next.
#[derive(Clone, Copy, PartialEq, Eq, Debug)]
pub enum Phase {
    // read the front's cell
    N1,
    // walk on: read the cell of the next node
    N2,
    // walk on over dropped nodes behind the key's place
    N3,
    // take the dropped nodes out of the chain
    N4,
    // link the own node of an add
    N5,
    // mark the node of a drop
    N6,
}
