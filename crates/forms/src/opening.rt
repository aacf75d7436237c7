// Reading the form that opens a floor.
ghost use Rattle.std.specs.Prelude.{◌≡◌};
ghost use Rattle.forms_model.specs.Reading.{Took, Tells};
ghost use Rattle.forms_model.specs.Openings.{kind_of, opening_body, opening_at, line_opening};

use crate::form::line_form;
use forms_model::opening::{Kind, Opening};
use lex::fault::Stop;
use lex::line::ScriptLine;
use reader::Reader;
use reader::form::Form;
use std::alloc::Global;

// The kind that a word names. It is no `TryFrom`: the error would carry nothing, and the caller would drop it.
fn kind(name: &[u8]) -> Option<Kind>
    ensures { result ≡ kind_of name.now }
{
    match name {
        b"cutting" => Some(Kind::Cutting),
        b"pattern" => Some(Kind::Pattern),
        _ => None,
    }
}

// Reads what follows the kind.
fn opening_body(kind: Kind, reader: &mut Reader<'_, '_>) -> Option<Opening>
    ensures { Took result (opening_body kind reader.old) reader.new }
{
    let stations = reader.number()? as usize;
    let limit = reader.number()? as usize;
    let nodes = reader.number()? as usize;
    let line_nodes = reader.number()? as usize;
    reader.close()?;
    Some(Opening {
        kind,
        stations,
        limit,
        nodes,
        line_nodes,
    })
}

// Reads `(floor KIND S L N M)`.
fn opening(reader: &mut Reader<'_, '_>) -> Option<Opening>
    ensures { Took result (opening_at reader.old) reader.new }
{
    reader.open()?;
    reader.keyword(b"floor")?;
    let kind = kind(reader.word()?)?;
    opening_body(kind, reader)
}

// The opening of a floor, as the form that a line can be.
struct OpeningForm;

impl Form for OpeningForm {
    type Value = Opening;

    ghost at = { opening_at };

    fn read(reader: &mut Reader<'_, '_>) -> Option<Opening> {
        opening(reader)
    }
}

// The opening in a line, or the line's fault.
pub fn line_opening(heap: Global, line: ScriptLine<'_>) -> Result<Opening, Stop>
    ensures { Tells result (line_opening line.entry.number line.entry.bytes.now) }
{
    line_form::<OpeningForm>(heap, line)
}
