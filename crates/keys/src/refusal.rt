// Why a call is sent back.
ghost use Rattle.std.specs.Prelude.{◌≡◌, Some};
ghost use Rattle.keys.specs.Refusals.{number as number_of_lem, reason_text};
ghost use Rattle.keys.specs.declared.refusal.Refusal.TheVariants.{NoMemory};

use std::alloc::{AllocError, AllocFailed};
use std::error::Error;
use std::fmt;

// The reasons for which a call is sent back. Each has the number that reports print; want of memory, which is
// the machine's and not the caller's, has none.
#[derive(Clone, Copy, PartialEq, Eq, Debug)]
pub enum Refusal {
    // the number of stations is not 1 to 16
    StationCount,
    // the ledger's limit is not 1 to 1,024 lines
    LedgerLimit,
    // the number of a nest's nodes is not 1 to 512
    NestSize,
    // the number of a line's nodes is not 1 to 512
    LineSize,
    // a table or ledger handed in is too short
    ShortTable,
    // there is no station of that number
    NoSuchStation,
    // the station is not free
    NotFree,
    // the station is free
    StillFree,
    // the station is ready
    AlreadyReady,
    // the station still waits
    StillWaiting,
    // every line of the ledger is written or promised to a waiting station
    LedgerFull,
    // the board has no space for the operation
    NoSpace,
    // a station is still at work
    StationsBusy,
    // a number of a key or an element is out of its range
    OutOfRange,
    // the list handed in is shorter than the contents
    ShortList,
    // memory is lacking
    NoMemory,
}

impl Refusal {
    // The number that reports print.
    pub fn number(&self) -> Option<u8>
        ensures { result ≡ number_of_lem self.now }
    {
        match self {
            Refusal::StationCount => Some(1),
            Refusal::LedgerLimit => Some(2),
            Refusal::NestSize => Some(3),
            Refusal::LineSize => Some(4),
            Refusal::ShortTable => Some(5),
            Refusal::NoSuchStation => Some(6),
            Refusal::NotFree => Some(7),
            Refusal::StillFree => Some(8),
            Refusal::AlreadyReady => Some(9),
            Refusal::StillWaiting => Some(10),
            Refusal::LedgerFull => Some(11),
            Refusal::NoSpace => Some(12),
            Refusal::StationsBusy => Some(13),
            Refusal::OutOfRange => Some(14),
            Refusal::ShortList => Some(15),
            Refusal::NoMemory => None,
        }
    }
}

// The reason in words, for the messages of programs.
impl fmt::Display for Refusal {
    ghost output = { λ r. Some (reason_text r) };

    fn fmt<W: fmt::Write>(&self, f: &mut fmt::Formatter<W>) -> fmt::Result {
        match self {
            Refusal::StationCount => write!(f, "the number of stations is not 1 to 16"),
            Refusal::LedgerLimit => write!(f, "the number of ledger lines is not 1 to 1024"),
            Refusal::NestSize => write!(f, "the number of nodes for keys is not 1 to 512"),
            Refusal::LineSize => write!(f, "the number of nodes for elements is not 1 to 512"),
            Refusal::ShortTable => write!(f, "a table or a ledger is too short"),
            Refusal::NoSuchStation => write!(f, "there is no such station"),
            Refusal::NotFree => write!(f, "the station is not free"),
            Refusal::StillFree => write!(f, "the station is free"),
            Refusal::AlreadyReady => write!(f, "the station is ready"),
            Refusal::StillWaiting => write!(f, "the station still waits"),
            Refusal::LedgerFull => write!(f, "the ledger is full"),
            Refusal::NoSpace => write!(f, "the board has no space"),
            Refusal::StationsBusy => write!(f, "a station is still at work"),
            Refusal::OutOfRange => write!(f, "a number is out of its range"),
            Refusal::ShortList => write!(f, "the list is too short"),
            Refusal::NoMemory => write!(f, "memory is lacking"),
        }
    }
}

impl Error for Refusal {}

// Want of memory has two errors in std, so `?` needs a conversion from each.
impl From<AllocError> for Refusal {
    ghost from_gives = { λ _ r. r ≡ NoMemory };

    fn from(_error: AllocError) -> Refusal {
        Refusal::NoMemory
    }
}

impl<T: Drop> From<AllocFailed<T>> for Refusal {
    ghost from_gives = { λ _ r. r ≡ NoMemory };

    fn from(_refused: AllocFailed<T>) -> Refusal {
        Refusal::NoMemory
    }
}
