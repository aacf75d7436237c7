// What the station table keeps of a station.
use plain_model::line_op::{LineAnswer, LineOp};

// The touch that comes next at a station, with the registers first, end and n as they stand. A register that may still
// be unset at a touch is an option there, and one that is always set is not, so that no touch can read a register that
// is unset. n is a node's next cell as it was read: unset, none or a node. A put leaves first unset. A station that is
// ready keeps its operation and the answer alone.
// The fields have no names: with names a seat that is made takes four to six lines, and the rows of the touch table are
// no longer read in one function. n is an option of what a next cell holds and no enum of its own, since it is that value.
#[derive(Clone, Copy, PartialEq, Eq, Debug)]
pub enum Seat<E> {
    Free,
    // a put: its element, its own node, end, n; n is none at E4 and E6
    E1(E, usize, Option<usize>, Option<Option<usize>>),
    E2(E, usize, usize, Option<Option<usize>>),
    E3(E, usize, usize, Option<usize>),
    E4(E, usize, usize),
    E5(E, usize, usize, usize),
    E6(E, usize, usize),
    // a take: first, end, n
    D1(Option<usize>, Option<usize>, Option<Option<usize>>),
    D2(usize, Option<usize>, Option<Option<usize>>),
    D3(usize, usize, Option<Option<usize>>),
    D4(usize, usize, usize),
    D5(usize, usize, usize),
    Ready(LineOp<E>, LineAnswer<E>),
}
