// Reading the forms that call a floor.
ghost use Rattle.std.specs.Prelude.{◌≡◌};
ghost use Rattle.forms_model.specs.Reading.{Took, Tells};
ghost use Rattle.forms_model.specs.Operations.{operation_at};
ghost use Rattle.forms_model.specs.Calls.{name_of, call_body, call_at, line_call};

use crate::form::line_form;
use crate::operation::{Operation, operation};
use forms_model::call::Call;
use forms_model::verb::CallName;
use lex::fault::Stop;
use lex::line::ScriptLine;
use reader::Reader;
use reader::form::Form;
use std::alloc::Global;
use std::marker::PhantomData;
use trades::trade::Trade;

// The call that a word names. It is no `TryFrom`: the error would carry nothing, and the caller would drop it.
fn call_name(word: &[u8]) -> Option<CallName>
    ensures { result ≡ name_of word.now }
{
    match word {
        b"start" => Some(CallName::Start),
        b"touch" => Some(CallName::Touch),
        b"collect" => Some(CallName::Collect),
        b"close" => Some(CallName::Close),
        _ => None,
    }
}

// Reads what follows the name.
fn call_body<T: Trade>(
    name: CallName,
    reader: &mut Reader<'_, '_>,
) -> Option<Call<Operation<T::Key, T::Element>>>
    ensures { Took result (call_body (operation_at T.rules) name reader.old) reader.new }
{
    Some(match name {
        CallName::Start => {
            let station = reader.number()?;
            Call::Start(station as usize, operation::<T>(reader)?)
        }
        CallName::Touch => Call::Touch(reader.number()? as usize),
        CallName::Collect => Call::Collect(reader.number()? as usize),
        CallName::Close => Call::Close,
    })
}

// Reads `(start P OP)`, `(touch P)`, `(collect P)` or `(close)`.
fn call<T: Trade>(reader: &mut Reader<'_, '_>) -> Option<Call<Operation<T::Key, T::Element>>>
    ensures { Took result (call_at (operation_at T.rules) reader.old) reader.new }
{
    reader.open()?;
    let name = call_name(reader.word()?)?;
    let call = call_body::<T>(name, reader)?;
    reader.close()?;
    Some(call)
}

// The calls of a floor of a trade, as the form that a line can be.
struct CallForm<T> {
    trade: PhantomData<T>,
}

impl<T: Trade> Form for CallForm<T> {
    type Value = Call<Operation<T::Key, T::Element>>;

    ghost at = { call_at (operation_at T.rules) };

    fn read(reader: &mut Reader<'_, '_>) -> Option<Call<Operation<T::Key, T::Element>>> {
        call::<T>(reader)
    }
}

// The call in a line, or the line's fault.
pub fn line_call<T: Trade>(
    heap: Global,
    line: ScriptLine<'_>,
) -> Result<Call<Operation<T::Key, T::Element>>, Stop>
    ensures { Tells result (line_call (operation_at T.rules) line.entry.number line.entry.bytes.now) }
{
    line_form::<CallForm<T>>(heap, line)
}
