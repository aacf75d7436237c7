// Size labels, the keys of a cutting floor.
ghost use Rattle.std.specs.Prelude.{◌≡◌, true};
ghost use Rattle.keys.specs.Ranges.{wearable};

use crate::key::Key;
use crate::refusal::Refusal;
use crate::text::Text;
use std::fmt;

// A size named by letters, from the smallest to the largest.
#[derive(Clone, Copy, PartialEq, Eq, PartialOrd, Ord, Debug)]
pub enum LetterSize {
    Xs,
    S,
    M,
    L,
    Xl,
    Xxl,
}

// A size by its measures in whole centimetres: a waist of 40 to 160 and a leg of 50 to 110. The range is part of the
// type, so no other measures can exist. Sizes are ordered by waist and then leg, as the fields stand.
#[derive(Clone, Copy, PartialEq, Eq, PartialOrd, Ord, Debug)]
pub struct WaistSize {
    pub waist: u32,
    pub leg: u32,
    ghost fits: { wearable waist leg ≡ true },
}

// A size label: either a letter size or a waist with a leg; neither is an error, so this is no Result. Letter sizes come
// before all waists, as the cases stand.
#[derive(Clone, Copy, PartialEq, Eq, PartialOrd, Ord, Debug)]
pub enum SizeLabel {
    Letter(LetterSize),
    Waist(WaistSize),
}

impl WaistSize {
    ghost use Rattle.keys.specs.Sizes.{waist_size};

    // The measures, or refusal 14 where one of them is out of its range.
    pub fn new(waist: u32, leg: u32) -> Result<WaistSize, Refusal>
        ensures { result ≡ waist_size waist leg }
    {
        if (40..=160).contains(&waist) && (50..=110).contains(&leg) {
            Ok(WaistSize { waist, leg })
        } else {
            Err(Refusal::OutOfRange)
        }
    }
}

impl LetterSize {
    ghost use Rattle.keys.specs.Sizes.{rank as rank_of};

    // The place among the letter sizes, 0 for the smallest.
    pub fn rank(&self) -> u8
        ensures { result ≡ rank_of self.now }
    {
        *self as u8
    }
}

impl Key for SizeLabel {
    ghost use Rattle.std.proofs.Common.{◌∙◌};
    ghost use Rattle.keys.specs.Sizes.{before as comes_before};
    ghost use Rattle.keys.specs.Orders.{size_total};
    ghost use Rattle.keys.specs.Derived.{label_compared};

    ghost before = { comes_before };

    ghost total = { size_total };

    ghost agrees = { λ x y r e. e ∙ label_compared x y };
}

impl fmt::Display for LetterSize {
    ghost use Rattle.std.specs.Prelude.{Some};
    ghost use Rattle.keys.specs.Sizes.{letter_text};

    ghost output = { λ l. Some (letter_text l) };

    fn fmt<W: fmt::Write>(&self, f: &mut fmt::Formatter<W>) -> fmt::Result {
        match self {
            LetterSize::Xs => write!(f, "xs"),
            LetterSize::S => write!(f, "s"),
            LetterSize::M => write!(f, "m"),
            LetterSize::L => write!(f, "l"),
            LetterSize::Xl => write!(f, "xl"),
            LetterSize::Xxl => write!(f, "xxl"),
        }
    }
}

impl fmt::Display for SizeLabel {
    ghost use Rattle.std.specs.Prelude.{Some};
    ghost use Rattle.keys.specs.Sizes.{size_text};

    ghost output = { λ s. Some (size_text s) };

    fn fmt<W: fmt::Write>(&self, f: &mut fmt::Formatter<W>) -> fmt::Result {
        match self {
            SizeLabel::Letter(letter) => write!(f, "(letter {letter})"),
            SizeLabel::Waist(size) => write!(f, "(w {} {})", size.waist, size.leg),
        }
    }
}

impl Text for SizeLabel {
    ghost use Rattle.keys.specs.Sizes.{size_text};
    ghost use Rattle.std.proofs.Common.{rules};

    ghost bytes = { size_text };

    ghost shows = { Prim.search rules };
}
