// The pair of two plain machines.
ghost use Rattle.plain_model.specs.Pair.{pair, grows as either_grows};

use crate::plain_machine::PlainMachine;
use keys::refusal::Refusal;
use plain_model::side::Side;

// Two plain machines side by side. Each operation goes to its side.
#[derive(Drop)]
pub struct PlainPair<A, B> {
    pub first: A,
    pub second: B,
}

impl<A: PlainMachine, B: PlainMachine> PlainMachine for PlainPair<A, B> {
    type Op = Side<A::Op, B::Op>;

    type Answer = Side<A::Answer, B::Answer>;

    type Item = Side<A::Item, B::Item>;

    ghost State = { A.PlainMachine.State × B.PlainMachine.State };

    ghost state = { λ s. (A.PlainMachine.state s.first, B.PlainMachine.state s.second) };

    ghost machine = { pair A.PlainMachine.machine B.PlainMachine.machine };

    ghost grows = { either_grows A.PlainMachine.grows B.PlainMachine.grows };

    fn apply(&mut self, op: &Side<A::Op, B::Op>) -> Result<Side<A::Answer, B::Answer>, Refusal> {
        match op {
            Side::First(op) => Ok(Side::First(self.first.apply(op)?)),
            Side::Second(op) => Ok(Side::Second(self.second.apply(op)?)),
        }
    }
}
