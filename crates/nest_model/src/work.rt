// What a station is at.
use crate::pending::Pending;
use crate::registers::Registers;
use plain_model::nest_op::{NestAnswer, NestOp};

// A place of the station table. A station that is ready has its operation and answer, and the registers as they were
// left.
#[derive(Clone, Copy, PartialEq, Eq, Debug)]
pub enum Work<K> {
    Free,
    Waiting(Pending<K>),
    Ready(NestOp<K>, NestAnswer, Registers),
}
