// Reading size labels and cut tickets.
ghost use Rattle.std.specs.Prelude.{◌≡◌};
ghost use Rattle.forms_model.specs.Reading.{Took};
ghost use Rattle.forms_model.specs.Cutting.{letter_of, letter_at, waist_at, size_body, size_at, ticket_at};

use crate::counted::counted;
use keys::cut_ticket::CutTicket;
use keys::refusal::Refusal;
use keys::size_label::{LetterSize, SizeLabel, WaistSize};
use reader::Reader;
use reader::form::Form;

// The size that a word names. It is no `TryFrom`: the error would carry nothing, and each caller would drop it.
fn letter_size(name: &[u8]) -> Option<LetterSize>
    ensures { result ≡ letter_of name.now }
{
    match name {
        b"xs" => Some(LetterSize::Xs),
        b"s" => Some(LetterSize::S),
        b"m" => Some(LetterSize::M),
        b"l" => Some(LetterSize::L),
        b"xl" => Some(LetterSize::Xl),
        b"xxl" => Some(LetterSize::Xxl),
        _ => None,
    }
}

// Reads what follows `letter`.
fn letter_label(reader: &mut Reader<'_, '_>) -> Option<Result<SizeLabel, Refusal>>
    ensures { Took result (letter_at reader.old) reader.new }
{
    let letter = letter_size(reader.word()?)?;
    Some(Ok(SizeLabel::Letter(letter)))
}

// Reads what follows `w`.
fn waist_label(reader: &mut Reader<'_, '_>) -> Option<Result<SizeLabel, Refusal>>
    ensures { Took result (waist_at reader.old) reader.new }
{
    let waist = reader.number()?;
    let leg = reader.number()?;
    Some(WaistSize::new(waist, leg).map(SizeLabel::Waist))
}

fn size_body(name: &[u8], reader: &mut Reader<'_, '_>) -> Option<Result<SizeLabel, Refusal>>
    ensures { Took result (size_body name.now reader.old) reader.new }
{
    match name {
        b"letter" => letter_label(reader),
        b"w" => waist_label(reader),
        _ => None,
    }
}

// Reads `(letter SIZE)` or `(w WAIST LEG)`.
pub fn size_label(reader: &mut Reader<'_, '_>) -> Option<Result<SizeLabel, Refusal>>
    ensures { Took result (size_at reader.old) reader.new }
{
    reader.open()?;
    let name = reader.word()?;
    let size = size_body(name, reader)?;
    reader.close()?;
    Some(size)
}

// Size labels, as what a ticket is written with.
struct SizeForm;

impl Form for SizeForm {
    type Value = Result<SizeLabel, Refusal>;

    ghost at = { size_at };

    fn read(reader: &mut Reader<'_, '_>) -> Option<Result<SizeLabel, Refusal>> {
        size_label(reader)
    }
}

// Reads `(ticket K PLIES)`.
pub fn cut_ticket(reader: &mut Reader<'_, '_>) -> Option<Result<CutTicket, Refusal>>
    ensures { Took result (ticket_at reader.old) reader.new }
{
    let (size, plies) = counted::<SizeForm>(reader, b"ticket")?;
    Some(size.and_then(|size| CutTicket::new(size, plies)))
}
