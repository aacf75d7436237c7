// One side or the other of a pair.

// An operation, an answer or an item of a pair belongs to its first side or to its second; neither is an error, so this is
// no Result.
#[derive(Clone, Copy, PartialEq, Eq, Debug)]
pub enum Side<A, B> {
    First(A),
    Second(B),
}
