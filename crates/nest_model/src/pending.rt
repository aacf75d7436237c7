// An operation that has no answer yet.
use crate::phase::Phase;
use crate::registers::Registers;
use plain_model::nest_op::NestOp;

// What a waiting station has: its operation, the node that an add took, the touch that comes next, and its registers.
#[derive(Clone, Copy, PartialEq, Eq, Debug)]
pub struct Pending<K> {
    pub op: NestOp<K>,
    pub own: Option<usize>,
    pub phase: Phase,
    pub registers: Registers,
}
