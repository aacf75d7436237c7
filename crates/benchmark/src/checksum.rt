// What a run told and left, as one number.
use boards::outcome::Outcome;
use keys::cut_ticket::CutTicket;
use keys::size_label::{LetterSize, SizeLabel};
use plain_model::line_op::{LineAnswer, LineOp};
use plain_model::nest_op::{NestAnswer, NestOp};
use plain_model::side::Side;

// A hash of the numbers that were added, in their order (FNV over whole words).
#[derive(Clone, Copy)]
pub struct Checksum {
    value: u64,
}

impl Checksum {
    pub fn new() -> Checksum {
        Checksum {
            value: 0xcbf29ce484222325,
        }
    }

    pub fn add(&mut self, number: u64) {
        self.value = (self.value ^ number).wrapping_mul(0x100000001b3);
    }

    pub fn value(&self) -> u64 {
        self.value
    }

    // Adds what a touch told.
    pub fn add_touch<R: Coded>(&mut self, outcome: &Outcome, answer: &Option<R>) {
        self.add(outcome.code());
        if let Some(answer) = answer {
            self.add(answer.code());
        }
    }
}

// What has a number for a checksum. The numbers are those of the twin in Rust.
pub trait Coded {
    fn code(&self) -> u64;
}

impl Coded for Outcome {
    fn code(&self) -> u64 {
        match self {
            Outcome::Idle => 1,
            Outcome::Going => 2,
            Outcome::Counted => 3,
            Outcome::CountedReady => 4,
            Outcome::Ready => 5,
        }
    }
}

impl Coded for LetterSize {
    fn code(&self) -> u64 {
        u64::from(self.rank())
    }
}

impl Coded for SizeLabel {
    fn code(&self) -> u64 {
        match self {
            SizeLabel::Letter(letter) => letter.code(),
            SizeLabel::Waist(size) => {
                u64::from(size.waist)
                    .wrapping_mul(1000)
                    .wrapping_add(u64::from(size.leg))
            }
        }
    }
}

impl Coded for CutTicket {
    fn code(&self) -> u64 {
        self.size
            .code()
            .wrapping_mul(1000)
            .wrapping_add(u64::from(self.plies))
    }
}

impl<K: Coded> Coded for NestOp<K> {
    fn code(&self) -> u64 {
        match self {
            NestOp::Add(key) => key.code().wrapping_mul(4),
            NestOp::Drop(key) => key.code().wrapping_mul(4).wrapping_add(1),
            NestOp::Find(key) => key.code().wrapping_mul(4).wrapping_add(2),
        }
    }
}

impl Coded for NestAnswer {
    fn code(&self) -> u64 {
        match self {
            NestAnswer::Added => 1,
            NestAnswer::There => 2,
            NestAnswer::Dropped => 3,
            NestAnswer::Missing => 4,
            NestAnswer::Yes => 5,
            NestAnswer::No => 6,
        }
    }
}

impl<E: Coded> Coded for LineOp<E> {
    fn code(&self) -> u64 {
        match self {
            LineOp::Put(element) => element.code().wrapping_mul(2),
            LineOp::Take => 1,
        }
    }
}

impl<E: Coded> Coded for LineAnswer<E> {
    fn code(&self) -> u64 {
        match self {
            LineAnswer::Put => 1,
            LineAnswer::Took(element) => element.code().wrapping_mul(4),
            LineAnswer::Empty => 2,
        }
    }
}

impl<A: Coded, B: Coded> Coded for Side<A, B> {
    fn code(&self) -> u64 {
        match self {
            Side::First(a) => a.code().wrapping_mul(2),
            Side::Second(b) => b.code().wrapping_mul(2).wrapping_add(1),
        }
    }
}
