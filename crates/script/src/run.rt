// The run of a whole script.
ghost use Rattle.std.specs.Prelude.{◌≡◌, IfOk, string_bytes};
ghost use Rattle.script.specs.Script.{script_run, RunsADay, UnlessMemory, PartRan};

use crate::running::run_floor;
use forms::opening::line_opening;
use forms_model::opening::Kind;
use lex::fault::{Fault, Stop};
use lex::line::Lines;
use script_model::ending::Ending;
use std::alloc::{AllocError, Global};
use trades::trade::{Cutting, Pattern};

// How many bytes a script has at most.
const MOST_BYTES: usize = 32768;

// A script that was run: all that it printed, and how it ended.
#[derive(Drop)]
pub struct Transcript {
    pub text: String,
    pub ending: Ending,
}

// Runs a script up to its end or its first fault, which is not printed yet.
fn run_script(heap: Global, script: &[u8], out: &mut String) -> Result<Ending, Stop>
    ensures ran { PartRan result (script_run script.now) (string_bytes out.old) (string_bytes out.new) }
    ensures day { UnlessMemory result (RunsADay script.now (script_run script.now)) }
{
    if script.len() > MOST_BYTES {
        return Err(Stop::Faulty(Fault::too_long()));
    }
    let mut lines = Lines::new(script);
    let Some(first) = lines.next() else {
        return Err(Stop::Faulty(Fault::no_form(1)));
    };
    let opening = line_opening(heap, first)?;
    match opening.kind {
        Kind::Cutting => run_floor::<Cutting>(heap, opening, lines, out),
        Kind::Pattern => run_floor::<Pattern>(heap, opening, lines, out),
    }
}

// Runs a script of any bytes. Only memory can be lacking.
pub fn run(heap: Global, script: &[u8]) -> Result<Transcript, AllocError>
    ensures is { IfOk result (λ x. (string_bytes x.text, x.ending) ≡ script_run script.now) }
    ensures day { IfOk result (λ x. RunsADay script.now (string_bytes x.text, x.ending)) }
{
    let mut text = String::new(heap);
    let ending = match run_script(heap, script, &mut text) {
        Ok(ending) => ending,
        Err(Stop::Faulty(fault)) => {
            writeln!(text, "{fault}")?;
            Ending::Faulty(fault)
        }
        Err(Stop::NoMemory) => return Err(AllocError),
    };
    Ok(Transcript { text, ending })
}
