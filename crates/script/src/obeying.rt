// The forms of a script as calls of a floor.
ghost use Rattle.std.specs.Prelude.{◌≡◌};
ghost use Rattle.floor_model.specs.Floor.{Fits, StaysFit};
ghost use Rattle.floor.specs.Model.{floor_of};
ghost use Rattle.script_model.specs.Run.{obeyed, reply_or_refusal};
ghost use Rattle.script_model.specs.State.{state};

use boards::board::Board;
use floor::OpenFloor;
use floor_model::line::Line;
use forms_model::call::Call;
use keys::refusal::Refusal;
use script_model::reply::Reply;

// Makes the call of a form. A close that is taken only says so: the host then closes the floor.
// That the floor fits is a premise of `left`, here and of what obeys lines: it is no invariant of the type, since a floor can
// be opened over any board. A shop's floor fits from its opening on.
pub(crate) fn obey<B: Board>(
    floor: &mut OpenFloor<B>,
    ledger: &mut [Line<B::Op, B::Answer>],
    call: &Call<B::Op>,
) -> Reply<B::Answer>
    ensures told { result ≡ (obeyed B.steps B.means (state (floor_of B.model floor.old) ledger.old) call.now).1 }
    ensures left { Fits B.means B.sound (floor_of B.model floor.old) → state (floor_of B.model floor.new) ledger.new ≡ (obeyed B.steps B.means (state (floor_of B.model floor.old) ledger.old) call.now).0 }
    ensures fits { StaysFit B.means B.sound (floor_of B.model floor.old) (floor_of B.model floor.new) }
{
    // a match: `unwrap_or_else` with a constructor, whose type here names a bound's own, is not covered by the borrow checker
    match taken(floor, ledger, call) {
        Ok(reply) => reply,
        Err(reason) => Reply::Refused(reason),
    }
}

// The reply to a call that is taken, or the reason why it is sent back.
fn taken<B: Board>(
    floor: &mut OpenFloor<B>,
    ledger: &mut [Line<B::Op, B::Answer>],
    call: &Call<B::Op>,
) -> Result<Reply<B::Answer>, Refusal>
    ensures told { reply_or_refusal result ≡ (obeyed B.steps B.means (state (floor_of B.model floor.old) ledger.old) call.now).1 }
    ensures left { Fits B.means B.sound (floor_of B.model floor.old) → state (floor_of B.model floor.new) ledger.new ≡ (obeyed B.steps B.means (state (floor_of B.model floor.old) ledger.old) call.now).0 }
    ensures fits { StaysFit B.means B.sound (floor_of B.model floor.old) (floor_of B.model floor.new) }
{
    match call {
        Call::Start(station, op) => {
            let op = (*op)?;
            floor.start(*station, &op)?;
            Ok(Reply::Started)
        }
        Call::Touch(station) => {
            let (outcome, _) = floor.touch(*station, ledger)?;
            Ok(Reply::Touched(outcome))
        }
        Call::Collect(station) => Ok(Reply::Collected(floor.collect(*station)?)),
        Call::Close => {
            floor.check_close()?;
            Ok(Reply::Closed)
        }
    }
}
