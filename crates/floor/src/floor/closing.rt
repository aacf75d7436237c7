// Closing a floor: a check that moves nothing, and a closing that takes the open floor.
ghost use Rattle.std.specs.Prelude.{◌≡◌};
ghost use Rattle.floor_model.specs.Floor.{checked, close_refusal};
ghost use Rattle.floor.specs.Model.{floor_of};

use crate::floor::{Closed, Floor, Open};
use boards::board::Board;
use keys::refusal::Refusal;

impl<B: Board> Floor<B, Open> {
    // Is every station free, so that the floor can be closed?
    pub fn check_close(&self) -> Result<(), Refusal>
        ensures { result ≡ checked (close_refusal B.means (floor_of B.model self.now)) }
    {
        if !self.board.all_free() {
            return Err(Refusal::StationsBusy);
        }
        Ok(())
    }

    // The same floor, closed.
    pub fn close(self) -> Floor<B, Closed>
        ensures over { result.board ≡ self.board }
        ensures left { floor_of B.model result ≡ floor_of B.model self }
    {
        let Floor {
            board,
            limit,
            written,
            turns,
            phase: _,
        } = self;
        Floor {
            board,
            limit,
            written,
            turns,
            phase: Closed,
        }
    }
}
