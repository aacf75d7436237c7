// The forms that call a floor.
use keys::refusal::Refusal;

// A form after the first: a call of the floor. Stations are numbered from 1. An operation with a number out of range
// is read as the refusal that its start is sent back with.
#[derive(Clone, Copy, PartialEq, Eq, Debug)]
pub enum Call<Op> {
    Start(usize, Result<Op, Refusal>),
    Touch(usize),
    Collect(usize),
    Close,
}
