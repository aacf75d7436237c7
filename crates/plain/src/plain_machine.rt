// The interface of plain machines.
ghost use Rattle.std.specs.Prelude.{Bool};
ghost use Rattle.plain_model.specs.Machine.{Machine, Applied};

use keys::refusal::Refusal;

// A sequential specification that runs: it keeps a state, and each operation changes the state and gives an answer,
// both as the machine's definition says.
pub trait PlainMachine {
    type Op;

    type Answer;

    type Item;

    ghost State: { Type 0 };

    ghost state: { Self → State };

    ghost machine: { Machine State Self.Op Self.Answer Self.Item };

    // whether an operation may need memory
    ghost grows: { Self.Op → Bool };

    // Applies one operation. Where memory is lacking nothing changes.
    fn apply(&mut self, op: &Self::Op) -> Result<Self::Answer, Refusal>
        ensures { Applied machine grows op.now (state self.old) (state self.new) result };
}
