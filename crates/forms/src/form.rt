// Reading a line of a script as one form.
ghost use Rattle.std.specs.Prelude.{◌≡◌, map};
ghost use Rattle.lex.specs.Runs.{lexeme};
ghost use Rattle.forms_model.specs.Reading.{Tells, whole_of, line_form};

use lex::fault::{Fault, Stop};
use lex::line::ScriptLine;
use lex::token::Token;
use lex::tokens::tokens;
use reader::Reader;
use reader::form::Form;
use std::alloc::Global;

// The form that all tokens of a line are.
fn whole_form<F: Form>(tokens: &[Token<'_>]) -> Option<F::Value>
    ensures { result ≡ whole_of F.at (map lexeme tokens.now) }
{
    let mut reader = Reader::new(tokens);
    let value = F::read(&mut reader)?;
    reader.finish(value)
}

// The form in a line, or the line's fault.
pub(crate) fn line_form<F: Form>(heap: Global, line: ScriptLine<'_>) -> Result<F::Value, Stop>
    ensures { Tells result (line_form F.at line.entry.number line.entry.bytes.now) }
{
    let tokens = tokens(heap, line)?;
    whole_form::<F>(tokens.as_slice()).ok_or(Stop::Faulty(Fault::no_form(line.number)))
}
