// Replays: a list of operations on a plain machine.
ghost use Rattle.std.specs.Prelude.{vec_items};
ghost use Rattle.plain_model.specs.Machine.{Joins};
ghost use Rattle.plain.specs.Replay.{Replayed};

use crate::plain_machine::PlainMachine;
use keys::refusal::Refusal;
use std::alloc::Global;

// Feeds the operations to the machine in their order and gives their answers. Where memory is lacking the machine
// stands after some first part of them. A replay of two lists joined is one replay after the other.
pub fn replay<M: PlainMachine>(
    machine: &mut M,
    ops: &[M::Op],
    heap: Global,
) -> Result<Vec<M::Answer>, Refusal>
where
    M::Answer: Drop,
    ensures replayed { Replayed M.PlainMachine.machine vec_items ops.now (M.PlainMachine.state machine.old) (M.PlainMachine.state machine.new) result }
    ensures joins { Joins M.PlainMachine.machine }
{
    let mut answers = Vec::new(heap);
    for op in ops {
        answers.push(machine.apply(op)?)?;
    }
    Ok(answers)
}
