// Reading piece codes and plot orders.
ghost use Rattle.std.specs.Prelude.{◌≡◌};
ghost use Rattle.forms_model.specs.Reading.{Took};
ghost use Rattle.forms_model.specs.Pattern.{capital_of, piece_at, order_at};

use crate::counted::counted;
use keys::piece_code::PieceCode;
use keys::plot_order::PlotOrder;
use keys::refusal::Refusal;
use reader::Reader;
use reader::form::Form;

// The letter that a word of one capital letter is. It is no `TryFrom`: the error would carry nothing.
fn capital(name: &[u8]) -> Option<char>
    ensures { result ≡ capital_of name.now }
{
    match name {
        [only] if only.is_ascii_uppercase() => Some(char::from(*only)),
        _ => None,
    }
}

// Reads `(piece LETTER NUMBER)`.
pub fn piece_code(reader: &mut Reader<'_, '_>) -> Option<Result<PieceCode, Refusal>>
    ensures { Took result (piece_at reader.old) reader.new }
{
    reader.open()?;
    reader.keyword(b"piece")?;
    let letter = capital(reader.word()?)?;
    let number = reader.number()?;
    reader.close()?;
    Some(PieceCode::new(letter, number))
}

// Piece codes, as what an order is written with.
struct PieceForm;

impl Form for PieceForm {
    type Value = Result<PieceCode, Refusal>;

    ghost at = { piece_at };

    fn read(reader: &mut Reader<'_, '_>) -> Option<Result<PieceCode, Refusal>> {
        piece_code(reader)
    }
}

// Reads `(order K COPIES)`.
pub fn plot_order(reader: &mut Reader<'_, '_>) -> Option<Result<PlotOrder, Refusal>>
    ensures { Took result (order_at reader.old) reader.new }
{
    let (piece, copies) = counted::<PieceForm>(reader, b"order")?;
    Some(piece.and_then(|piece| PlotOrder::new(piece, copies)))
}
