// Piece codes, the keys of a pattern floor.
ghost use Rattle.std.specs.Prelude.{◌≡◌, true};
ghost use Rattle.keys.specs.Ranges.{catalogued};

use crate::key::Key;
use crate::refusal::Refusal;
use crate::text::Text;
use std::fmt;

// A piece of the catalogue: a letter A to Z and a number 1 to 999. The range is part of the type. Codes are ordered by
// letter and then number, as the fields stand.
#[derive(Clone, Copy, PartialEq, Eq, PartialOrd, Ord, Debug)]
pub struct PieceCode {
    pub letter: char,
    pub number: u32,
    ghost fits: { catalogued letter number ≡ true },
}

impl PieceCode {
    ghost use Rattle.keys.specs.Pieces.{piece_code};

    // The code, or refusal 14 where its letter or its number is out of range.
    pub fn new(letter: char, number: u32) -> Result<PieceCode, Refusal>
        ensures { result ≡ piece_code letter number }
    {
        if letter.is_ascii_uppercase() && (1..=999).contains(&number) {
            Ok(PieceCode { letter, number })
        } else {
            Err(Refusal::OutOfRange)
        }
    }
}

impl Key for PieceCode {
    ghost use Rattle.keys.specs.Pieces.{before as comes_before};
    ghost use Rattle.keys.specs.Orders.{piece_total};
    ghost use Rattle.std.proofs.Common.{rules, arith};

    ghost before = { comes_before };

    ghost total = { piece_total };

    ghost agrees = { first_of (Prim.search rules, Prim.grind (arith, Self.row.coded.inj)) };
}

impl fmt::Display for PieceCode {
    ghost use Rattle.std.specs.Prelude.{Some};
    ghost use Rattle.keys.specs.Pieces.{piece_text};

    ghost output = { λ p. Some (piece_text p) };

    fn fmt<W: fmt::Write>(&self, f: &mut fmt::Formatter<W>) -> fmt::Result {
        write!(f, "(piece {} {})", self.letter, self.number)
    }
}

impl Text for PieceCode {
    ghost use Rattle.keys.specs.Pieces.{piece_text};
    ghost use Rattle.std.proofs.Common.{rules, arith};

    ghost bytes = { piece_text };

    ghost shows = { first_of (Prim.search rules, Prim.grind (arith, Self.row.coded.inj)) };
}
