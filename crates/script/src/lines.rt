// The lines of a script after the first, read and obeyed one by one.
ghost use Rattle.floor_model.specs.Floor.{Fits, StaysFit};
ghost use Rattle.floor.specs.Model.{floor_of};
ghost use Rattle.forms_model.specs.Operations.{operation_at};
ghost use Rattle.std.specs.Prelude.{string_bytes};
ghost use Rattle.script_model.specs.Run.{line_step, LineRan};
ghost use Rattle.script_model.specs.State.{state};
ghost use Rattle.script.specs.Lines.{LinesRan};

use crate::obeying::obey;
use crate::replying::put_reply;
use boards::board::Board;
use floor::OpenFloor;
use floor_model::line::Line;
use forms::call::line_call;
use forms::operation::Operation;
use keys::text::Text;
use lex::fault::Stop;
use lex::line::{Lines, ScriptLine};
use script_model::reply::Reply;
use std::alloc::Global;
use trades::trade::Trade;

// Reads and obeys a line, and prints the reply.
fn obey_line<T: Trade, B: Board<Op = Operation<T::Key, T::Element>>>(
    heap: Global,
    floor: &mut OpenFloor<B>,
    ledger: &mut [Line<B::Op, B::Answer>],
    line: ScriptLine<'_>,
    out: &mut String,
) -> Result<Reply<B::Answer>, Stop>
where
    B::Answer: Text,
    ensures ran { Fits B.means B.sound (floor_of B.model floor.old) → LineRan B.Answer.Text.bytes result (line_step B.steps B.means (operation_at T.Trade.rules) (state (floor_of B.model floor.old) ledger.old) line.entry.number line.entry.bytes.now) (string_bytes out.old) (string_bytes out.new) (state (floor_of B.model floor.new) ledger.new) }
    ensures fits { StaysFit B.means B.sound (floor_of B.model floor.old) (floor_of B.model floor.new) }
{
    let call = line_call::<T>(heap, line)?;
    let reply = obey(floor, ledger, &call);
    put_reply(out, &reply)?;
    Ok(reply)
}

// Reads and obeys lines of a script, to the last one or to a close that is taken. Gives the lines after such a close.
// Floor, ledger and output are no struct here: it would hold three loans, and each call of the floor would take it apart.
pub(crate) fn obey_lines<'s, T: Trade, B: Board<Op = Operation<T::Key, T::Element>>>(
    heap: Global,
    floor: &mut OpenFloor<B>,
    ledger: &mut [Line<B::Op, B::Answer>],
    mut lines: Lines<'s>,
    out: &mut String,
) -> Result<Option<Lines<'s>>, Stop>
where
    B::Answer: Text,
    ensures ran { Fits B.means B.sound (floor_of B.model floor.old) → LinesRan B.steps B.means (operation_at T.Trade.rules) B.Answer.Text.bytes result lines.entry (string_bytes out.old) (string_bytes out.new) (state (floor_of B.model floor.old) ledger.old) (state (floor_of B.model floor.new) ledger.new) }
    ensures fits { StaysFit B.means B.sound (floor_of B.model floor.old) (floor_of B.model floor.new) }
{
    while let Some(line) = lines.next() {
        if let Reply::Closed = obey_line::<T, B>(heap, floor, ledger, line, out)? {
            return Ok(Some(lines));
        }
    }
    Ok(None)
}
