// What can be asked of a floor in any phase.
ghost use Rattle.std.specs.Prelude.{◌≡◌, length, is_ok, if◌then◌else◌, Some, None, MatchResult, nat_le};
ghost use Rattle.keys.specs.declared.refusal.Refusal.TheVariants.{ShortTable};
ghost use Rattle.boards.specs.Board.{exists};
ghost use Rattle.floor_model.specs.Floor.{turn as turn_of, written_lines, show as show_of};
ghost use Rattle.floor.specs.Model.{floor_of};

use crate::floor::Floor;
use boards::board::Board;
use floor_model::line::Line;
use keys::refusal::Refusal;

impl<B: Board, P> Floor<B, P> {
    // The board, for reading.
    pub fn board(&self) -> &B
        ensures { result.now ≡ self.now.board }
    {
        &self.board
    }

    // How many lines the ledger has at most.
    pub fn limit(&self) -> usize
        ensures { result ≡ (floor_of B.model self.now).limit }
    {
        self.limit
    }

    // How many lines are written.
    pub fn written(&self) -> usize
        ensures { result ≡ (floor_of B.model self.now).written }
    {
        self.written
    }

    // How many starts of the station were taken, if there is such a station.
    pub fn turn(&self, station: usize) -> Option<usize>
        ensures { result ≡ (if exists B.means (B.model self.now.board) station then Some (turn_of (floor_of B.model self.now) station) else None) }
    {
        // no `then`: a closure would not know that the place exists
        if self.board.exists(station) {
            Some(self.turns[station])
        } else {
            None
        }
    }

    // The lines of the floor's ledger that are written.
    pub fn lines<'a>(
        &self,
        ledger: &'a [Line<B::Op, B::Answer>],
    ) -> Result<&'a [Line<B::Op, B::Answer>], Refusal>
        ensures taken { is_ok result ≡ nat_le (floor_of B.model self.now).limit (length ledger.now) }
        ensures told { MatchResult result (λ part. part.now ≡ written_lines (floor_of B.model self.now) ledger.now) (λ reason. reason ≡ ShortTable) }
    {
        if ledger.len() < self.limit {
            return Err(Refusal::ShortTable);
        }
        Ok(&ledger[..self.written])
    }

    // Writes the contents to the front of the list.
    pub fn show(&self, list: &mut [B::Item]) -> Result<(), Refusal>
        ensures told { result ≡ (show_of B.plain B.means (floor_of B.model self.now) list.old).1 }
        ensures left { list.new ≡ (show_of B.plain B.means (floor_of B.model self.now) list.old).0 }
    {
        if self.board.show(list) {
            Ok(())
        } else {
            Err(Refusal::ShortList)
        }
    }
}
