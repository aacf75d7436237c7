// Cut tickets, the elements of a cutting floor.
ghost use Rattle.std.specs.Prelude.{◌≡◌, true};
ghost use Rattle.keys.specs.Ranges.{spreadable};

use crate::refusal::Refusal;
use crate::size_label::SizeLabel;
use crate::text::Text;
use std::fmt;

// An order to cut a size from 1 to 200 plies of cloth. The range is part of the type.
#[derive(Clone, Copy, PartialEq, Eq, Debug)]
pub struct CutTicket {
    pub size: SizeLabel,
    pub plies: u32,
    ghost fits: { spreadable plies ≡ true },
}

impl CutTicket {
    ghost use Rattle.keys.specs.Elements.{cut_ticket};

    // The ticket, or refusal 14 where the number of plies is out of range.
    pub fn new(size: SizeLabel, plies: u32) -> Result<CutTicket, Refusal>
        ensures { result ≡ cut_ticket size plies }
    {
        if (1..=200).contains(&plies) {
            Ok(CutTicket { size, plies })
        } else {
            Err(Refusal::OutOfRange)
        }
    }
}

impl fmt::Display for CutTicket {
    ghost use Rattle.std.specs.Prelude.{Some};
    ghost use Rattle.keys.specs.Elements.{ticket_text};

    ghost output = { λ t. Some (ticket_text t) };

    fn fmt<W: fmt::Write>(&self, f: &mut fmt::Formatter<W>) -> fmt::Result {
        write!(f, "(ticket {} {})", self.size, self.plies)
    }
}

impl Text for CutTicket {
    ghost use Rattle.keys.specs.Elements.{ticket_text};
    ghost use Rattle.std.proofs.Common.{rules, arith};

    ghost bytes = { ticket_text };

    ghost shows = { first_of (Prim.search rules, Prim.grind (arith, Self.row.coded.inj)) };
}
