// Opening a floor: a check that moves nothing, and an opening that cannot refuse.
ghost use Rattle.std.specs.Prelude.{◌≡◌, ◌≤◌, true, length};
ghost use Rattle.boards.specs.Board.{all_free};
ghost use Rattle.floor_model.specs.Floor.{Fits, opened, checked, open_refusal};
ghost use Rattle.floor_model.specs.Law.{Opening};
ghost use Rattle.floor.specs.Model.{floor_of};

use crate::floor::{Floor, Open};
use boards::board::Board;
use floor_model::line::Line;
use keys::refusal::Refusal;

impl<B: Board> Floor<B, Open> {
    // Can a floor with that limit be opened over the board, with that ledger?
    pub fn check_open(
        board: &B,
        limit: usize,
        ledger: &[Line<B::Op, B::Answer>],
    ) -> Result<(), Refusal>
        ensures { result ≡ checked (open_refusal B.means (B.model board.now) limit (length ledger.now)) }
    {
        if !(1..=1024).contains(&limit) {
            return Err(Refusal::LedgerLimit);
        }
        if ledger.len() < limit {
            return Err(Refusal::ShortTable);
        }
        if !board.all_free() {
            return Err(Refusal::NotFree);
        }
        Ok(())
    }

    // A floor over the board, with nothing started and nothing written.
    pub fn open(board: B, limit: usize) -> Floor<B, Open>
        requires { (1 ≤ limit) × (limit ≤ 1024) }
        ensures over { result.board ≡ board }
        ensures left { floor_of B.model result ≡ opened (B.model board) limit }
        ensures fits { B.sound (B.model board) → all_free B.means (B.model board) ≡ true → Fits B.means B.sound (floor_of B.model result) }
        ensures law { Opening B.plain B.steps B.means B.sound (floor_of B.model result) }
    {
        Floor {
            board,
            limit,
            written: 0,
            turns: [0; 17],
            phase: Open,
        }
    }
}
