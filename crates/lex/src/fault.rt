// What ends the reading of a script.
ghost use Rattle.std.specs.Prelude.{◌≡◌, Some};
ghost use Rattle.lex.specs.Faults.{fault_number, fault_text, too_long, no_form};
ghost use Rattle.lex.specs.declared.fault.Stop.TheVariants.{Faulty, NoMemory};
ghost use Rattle.std.proofs.Common.{rules};

use crate::token::Place;
use keys::text::Text;
use std::alloc::{AllocError, AllocFailed};
use std::fmt;

// What is wrong with a script. Each kind has the number that is printed.
#[derive(Clone, Copy, PartialEq, Eq, Debug)]
pub enum FaultKind {
    // the script has more bytes than a script may have
    TooLong,
    // a byte that is no letter, digit, space, round bracket or newline
    OtherByte,
    // a run of letters and digits that is neither a word nor a number
    OtherRun,
    // a line that is no form, or one that may not stand there
    NoForm,
}

// A fault with its place.
#[derive(Clone, Copy, PartialEq, Eq, Debug)]
pub struct Fault {
    pub kind: FaultKind,
    pub place: Place,
}

// Why a line was not read: it is at fault, or memory is lacking.
#[derive(Clone, Copy, PartialEq, Eq, Debug)]
pub enum Stop {
    Faulty(Fault),
    NoMemory,
}

impl FaultKind {
    // The number that is printed.
    pub fn number(&self) -> u8
        ensures { result ≡ fault_number self.now }
    {
        match self {
            FaultKind::TooLong => 16,
            FaultKind::OtherByte => 17,
            FaultKind::OtherRun => 18,
            FaultKind::NoForm => 19,
        }
    }
}

impl Fault {
    // The fault of a script that is too long, which is at fault as a whole.
    pub fn too_long() -> Fault
        ensures { result ≡ too_long }
    {
        Fault {
            kind: FaultKind::TooLong,
            place: Place { line: 1, byte: 1 },
        }
    }

    // The fault of a line that is no form, or that may not stand where it does.
    pub fn no_form(line: usize) -> Fault
        ensures { result ≡ no_form line }
    {
        Fault {
            kind: FaultKind::NoForm,
            place: Place { line, byte: 1 },
        }
    }
}

impl fmt::Display for Fault {
    ghost output = { λ f. Some (fault_text f) };

    fn fmt<W: fmt::Write>(&self, f: &mut fmt::Formatter<W>) -> fmt::Result {
        write!(
            f,
            "(fault {} {} {})",
            self.kind.number(),
            self.place.line,
            self.place.byte
        )
    }
}

impl Text for Fault {
    ghost bytes = { fault_text };

    ghost shows = { Prim.search rules };
}

impl From<Fault> for Stop {
    ghost from_gives = { λ f r. r ≡ Faulty f };

    fn from(fault: Fault) -> Stop {
        Stop::Faulty(fault)
    }
}

// Want of memory has two errors in std, so `?` needs a conversion from each.
impl From<AllocError> for Stop {
    ghost from_gives = { λ _ r. r ≡ NoMemory };

    fn from(_error: AllocError) -> Stop {
        Stop::NoMemory
    }
}

impl<T: Drop> From<AllocFailed<T>> for Stop {
    ghost from_gives = { λ _ r. r ≡ NoMemory };

    fn from(_error: AllocFailed<T>) -> Stop {
        Stop::NoMemory
    }
}

// Text is written to memory, which is all that can be lacking then.
impl From<fmt::Error> for Stop {
    ghost from_gives = { λ _ r. r ≡ NoMemory };

    fn from(_error: fmt::Error) -> Stop {
        Stop::NoMemory
    }
}
