// The operations that a host asks for.
use crate::generator::Generator;
use keys::cut_ticket::CutTicket;
use keys::size_label::{LetterSize, SizeLabel, WaistSize};
use plain_model::line_op::LineOp;
use plain_model::nest_op::NestOp;
use plain_model::side::Side;

// The smallest size label.
pub const SMALLEST: SizeLabel = SizeLabel::Letter(LetterSize::Xs);

// A ticket for it.
pub const SMALLEST_TICKET: CutTicket = CutTicket {
    size: SMALLEST,
    plies: 1,
};

// The key of a number from 0 to 7,380. Keys of larger numbers come later in the order.
pub fn key(number: u64) -> SizeLabel {
    let waist = u32::try_from(number / 61).unwrap_or(0);
    let leg = u32::try_from(number % 61).unwrap_or(0);
    WaistSize::new(waist.saturating_add(40), leg.saturating_add(50)).map_or(
        SMALLEST,
        SizeLabel::Waist,
    )
}

// A ticket for one of the first 512 keys, if the number of plies is from 1 to 200.
pub fn ticket(numbers: &mut Generator) -> Option<CutTicket> {
    let size = key(numbers.below(512));
    let plies = u32::try_from(numbers.below(200)).unwrap_or(0);
    CutTicket::new(size, plies.saturating_add(1)).ok()
}

// Where the operations of a workload come from.
pub trait Requests {
    type Op;

    fn next(&self, numbers: &mut Generator) -> Self::Op;

    // What is asked for where a board has no space for the operation.
    fn instead(&self, op: &Self::Op) -> Self::Op;
}

// Adds, drops and finds of the first `keys` keys; every second one is an add.
#[derive(Clone, Copy)]
pub struct NestRequests {
    pub keys: u64,
}

impl Requests for NestRequests {
    type Op = NestOp<SizeLabel>;

    fn next(&self, numbers: &mut Generator) -> NestOp<SizeLabel> {
        let key = key(numbers.below(self.keys));
        match numbers.below(4) {
            0 => NestOp::Drop(key),
            1 => NestOp::Find(key),
            _ => NestOp::Add(key),
        }
    }

    fn instead(&self, op: &NestOp<SizeLabel>) -> NestOp<SizeLabel> {
        match op {
            NestOp::Add(key) => NestOp::Find(*key),
            _ => *op,
        }
    }
}

// Puts and takes, as many of the one as of the other.
#[derive(Clone, Copy)]
pub struct LineRequests;

impl Requests for LineRequests {
    type Op = LineOp<CutTicket>;

    fn next(&self, numbers: &mut Generator) -> LineOp<CutTicket> {
        if numbers.below(2) == 0 {
            return LineOp::Take;
        }
        ticket(numbers).map_or(LineOp::Take, LineOp::Put)
    }

    fn instead(&self, _op: &LineOp<CutTicket>) -> LineOp<CutTicket> {
        LineOp::Take
    }
}

// An operation of a shop.
pub type ShopOp = Side<NestOp<SizeLabel>, LineOp<CutTicket>>;

// Operations of a nest and of a line, as many of the one as of the other.
#[derive(Clone, Copy)]
pub struct ShopRequests {
    pub nest: NestRequests,
}

impl Requests for ShopRequests {
    type Op = ShopOp;

    fn next(&self, numbers: &mut Generator) -> ShopOp {
        if numbers.below(2) == 0 {
            Side::First(self.nest.next(numbers))
        } else {
            Side::Second(LineRequests.next(numbers))
        }
    }

    fn instead(&self, op: &ShopOp) -> ShopOp {
        match op {
            Side::First(op) => Side::First(self.nest.instead(op)),
            Side::Second(op) => Side::Second(LineRequests.instead(op)),
        }
    }
}

// Finds alone. In an empty nest each takes one touch.
#[derive(Clone, Copy)]
pub struct FindRequests;

impl Requests for FindRequests {
    type Op = ShopOp;

    fn next(&self, numbers: &mut Generator) -> ShopOp {
        Side::First(NestOp::Find(key(numbers.below(512))))
    }

    fn instead(&self, op: &ShopOp) -> ShopOp {
        *op
    }
}
