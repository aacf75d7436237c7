// Plot orders, the elements of a pattern floor.
ghost use Rattle.std.specs.Prelude.{◌≡◌, true};
ghost use Rattle.keys.specs.Ranges.{plottable};

use crate::piece_code::PieceCode;
use crate::refusal::Refusal;
use crate::text::Text;
use std::fmt;

// An order to plot a piece in 1 to 50 copies. The range is part of the type. It is no instance of one type with
// `CutTicket`: what the two fields are called and how they print is the trade's, and would stand behind a trait.
#[derive(Clone, Copy, PartialEq, Eq, Debug)]
pub struct PlotOrder {
    pub piece: PieceCode,
    pub copies: u32,
    ghost fits: { plottable copies ≡ true },
}

impl PlotOrder {
    ghost use Rattle.keys.specs.Elements.{plot_order};

    // The order, or refusal 14 where the number of copies is out of range.
    pub fn new(piece: PieceCode, copies: u32) -> Result<PlotOrder, Refusal>
        ensures { result ≡ plot_order piece copies }
    {
        if (1..=50).contains(&copies) {
            Ok(PlotOrder { piece, copies })
        } else {
            Err(Refusal::OutOfRange)
        }
    }
}

impl fmt::Display for PlotOrder {
    ghost use Rattle.std.specs.Prelude.{Some};
    ghost use Rattle.keys.specs.Elements.{order_text};

    ghost output = { λ o. Some (order_text o) };

    fn fmt<W: fmt::Write>(&self, f: &mut fmt::Formatter<W>) -> fmt::Result {
        write!(f, "(order {} {})", self.piece, self.copies)
    }
}

impl Text for PlotOrder {
    ghost use Rattle.keys.specs.Elements.{order_text};
    ghost use Rattle.std.proofs.Common.{rules, arith};

    ghost bytes = { order_text };

    ghost shows = { first_of (Prim.search rules, Prim.grind (arith, Self.row.coded.inj)) };
}
