// The calls of an open floor.
ghost use Rattle.std.specs.Prelude.{◌≡◌, ◌<◌, ◌≤◌, true, false, length, is_some, is_ok, Ok};
ghost use Rattle.floor_model.specs.Floor.{Fits, StaysFit, with_board, checked, start_refusal, touch_refusal, start as start_of_lem, touch as touch_of, collect as collect_of, entry as entry_of, enter as enter_of};
ghost use Rattle.floor.specs.Model.{floor_of};

use crate::floor::{Floor, Open};
use boards::board::Board;
use boards::outcome::Outcome;
use boards::station::Station;
use floor_model::line::Line;
use keys::refusal::Refusal;

// That a floor which fits is left fitting is a clause of each call and no invariant of the type: a floor may be opened over
// a board that is not sound or not free.
impl<B: Board> Floor<B, Open> {
    // Hands an operation to a free station.
    pub fn start(&mut self, station: usize, op: &B::Op) -> Result<(), Refusal>
        ensures told { result ≡ (start_of_lem B.steps B.means (floor_of B.model self.old) station op.now).1 }
        ensures back { is_ok result ≡ false → self.new ≡ self.old }
        ensures left { Fits B.means B.sound (floor_of B.model self.old) → floor_of B.model self.new ≡ (start_of_lem B.steps B.means (floor_of B.model self.old) station op.now).0 }
        ensures fits { StaysFit B.means B.sound (floor_of B.model self.old) (floor_of B.model self.new) }
    {
        self.check_start(station, op)?;
        self.begin(station, op);
        Ok(())
    }

    // Can the station be handed the operation?
    fn check_start(&self, station: usize, op: &B::Op) -> Result<(), Refusal>
        ensures within { is_ok result ≡ true → station < 17 }
        ensures told { result ≡ checked (start_refusal B.means (floor_of B.model self.now) station op.now) }
    {
        if !self.board.exists(station) {
            return Err(Refusal::NoSuchStation);
        }
        if !self.board.station(station).is_free() {
            return Err(Refusal::NotFree);
        }
        if self.written + self.board.uncounted() == self.limit {
            return Err(Refusal::LedgerFull);
        }
        if !self.board.space(op) {
            return Err(Refusal::NoSpace);
        }
        Ok(())
    }

    // One begin of the board, and the station's next turn.
    fn begin(&mut self, station: usize, op: &B::Op)
        requires { station < 17 }
        ensures left { checked (start_refusal B.means (floor_of B.model self.old) station op.now) ≡ Ok tt → Fits B.means B.sound (floor_of B.model self.old) → floor_of B.model self.new ≡ (start_of_lem B.steps B.means (floor_of B.model self.old) station op.now).0 }
        ensures fits { checked (start_refusal B.means (floor_of B.model self.old) station op.now) ≡ Ok tt → StaysFit B.means B.sound (floor_of B.model self.old) (floor_of B.model self.new) }
    {
        let _ = self.board.begin(station, op);
        // on a sound board no turn passes the limit
        self.turns[station] = self.turns[station].saturating_add(1);
    }

    // Does one atomic step of a waiting station's operation, and writes the next line of the ledger if it counted.
    pub fn touch(
        &mut self,
        station: usize,
        ledger: &mut [Line<B::Op, B::Answer>],
    ) -> Result<(Outcome, Option<B::Answer>), Refusal>
        ensures told { result ≡ (touch_of B.steps B.means (floor_of B.model self.old) station ledger.old).1 }
        ensures back { is_ok result ≡ false → (self.new ≡ self.old) × (ledger.new ≡ ledger.old) }
        ensures left { Fits B.means B.sound (floor_of B.model self.old) → (floor_of B.model self.new, ledger.new) ≡ (touch_of B.steps B.means (floor_of B.model self.old) station ledger.old).0 }
        ensures fits { StaysFit B.means B.sound (floor_of B.model self.old) (floor_of B.model self.new) }
    {
        self.check_touch(station, ledger.len())?;
        Ok(self.step(station, ledger))
    }

    // Can the station be touched, with a ledger of so many lines?
    fn check_touch(&self, station: usize, lines: usize) -> Result<(), Refusal>
        ensures within { is_ok result ≡ true → station < 17 }
        ensures long { is_ok result ≡ true → self.now.limit ≤ lines }
        ensures told { result ≡ checked (touch_refusal B.means (floor_of B.model self.now) station lines) }
    {
        if lines < self.limit {
            return Err(Refusal::ShortTable);
        }
        if !self.board.exists(station) {
            return Err(Refusal::NoSuchStation);
        }
        match self.board.station(station) {
            Station::Free => Err(Refusal::StillFree),
            Station::Ready(_, _) => Err(Refusal::AlreadyReady),
            Station::Uncounted(_) | Station::Counted(_, _) => Ok(()),
        }
    }

    // One touch of the board, with what it counted entered into the ledger.
    fn step(
        &mut self,
        station: usize,
        ledger: &mut [Line<B::Op, B::Answer>],
    ) -> (Outcome, Option<B::Answer>)
        requires { (station < 17) × (self.old.limit ≤ length ledger.old) }
        ensures told { result ≡ (B.steps.touch (B.model self.old.board) station).1 }
        ensures left { checked (touch_refusal B.means (floor_of B.model self.old) station (length ledger.old)) ≡ Ok tt → Fits B.means B.sound (floor_of B.model self.old) → (floor_of B.model self.new, ledger.new) ≡ (touch_of B.steps B.means (floor_of B.model self.old) station ledger.old).0 }
        ensures fits { checked (touch_refusal B.means (floor_of B.model self.old) station (length ledger.old)) ≡ Ok tt → StaysFit B.means B.sound (floor_of B.model self.old) (floor_of B.model self.new) }
    {
        let was = self.board.station(station);
        let (outcome, answer) = self.board.touch(station);
        self.enter(station, entry(was, outcome, answer), ledger);
        (outcome, answer)
    }

    // Writes what a touch counted on the next line. On a sound board a line is left for every uncounted station.
    fn enter(
        &mut self,
        station: usize,
        counted: Option<(B::Op, B::Answer)>,
        ledger: &mut [Line<B::Op, B::Answer>],
    )
        requires { (station < 17) × (self.old.limit ≤ length ledger.old) }
        ensures { (is_some counted ≡ true → self.old.written < self.old.limit) → (floor_of B.model self.new, ledger.new) ≡ enter_of (floor_of B.model self.old) station ledger.old counted }
    {
        if let Some((operation, answer)) = counted {
            if self.written < self.limit {
                let turn = self.turns[station];
                ledger[self.written] = Line {
                    station,
                    turn,
                    operation,
                    answer,
                };
                self.written += 1;
            }
        }
    }

    // Gives the answer of a ready station, which is free then.
    pub fn collect(&mut self, station: usize) -> Result<B::Answer, Refusal>
        ensures told { result ≡ (collect_of B.steps B.means (floor_of B.model self.old) station).1 }
        ensures back { is_ok result ≡ false → self.new ≡ self.old }
        ensures left { floor_of B.model self.new ≡ (collect_of B.steps B.means (floor_of B.model self.old) station).0 }
        ensures fits { StaysFit B.means B.sound (floor_of B.model self.old) (floor_of B.model self.new) }
    {
        if !self.board.exists(station) {
            return Err(Refusal::NoSuchStation);
        }
        match self.board.station(station) {
            Station::Free => Err(Refusal::StillFree),
            Station::Uncounted(_) | Station::Counted(_, _) => Err(Refusal::StillWaiting),
            Station::Ready(_, answer) => {
                self.release(station);
                Ok(answer)
            }
        }
    }

    // One release of the board.
    fn release(&mut self, station: usize)
        ensures left { floor_of B.model self.new ≡ with_board (floor_of B.model self.old) (B.steps.release (B.model self.old.board) station) }
        ensures fits { StaysFit B.means B.sound (floor_of B.model self.old) (floor_of B.model self.new) }
    {
        self.board.release(station);
    }
}

// What a touch counted: an operation that waited uncounted, and its answer.
fn entry<O: Copy, R: Copy>(
    was: Station<O, R>,
    outcome: Outcome,
    answer: Option<R>,
) -> Option<(O, R)>
    ensures { result ≡ entry_of was outcome answer }
{
    match (was, outcome, answer) {
        (Station::Uncounted(operation), Outcome::Counted | Outcome::CountedReady, Some(told)) =>
            Some((operation, told)),
        _ => None,
    }
}
