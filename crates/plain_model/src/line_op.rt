// What can be asked of a line, and what it answers.

// An operation on a line, a queue of elements. It is no Option of an element: a take is an operation like a put.
#[derive(Clone, Copy, PartialEq, Eq, Debug)]
pub enum LineOp<E> {
    Put(E),
    Take,
}

// `Put` answers a put; `Took` with the element, or `Empty`, answers a take.
#[derive(Clone, Copy, PartialEq, Eq, Debug)]
pub enum LineAnswer<E> {
    Put,
    Took(E),
    Empty,
}
