// A floor and its phases.
ghost use Rattle.std.specs.Prelude.{◌≤◌};

use boards::board::Board;

mod asking;
mod calls;
mod closing;
mod opening;

// The phase of a floor that takes starts, touches and collects.
#[derive(Clone, Copy)]
pub struct Open;

// The phase of a floor that only shows what it has.
#[derive(Clone, Copy)]
pub struct Closed;

// A board with a ledger of `limit` lines, of which the first `written` are written. The ledger itself is the host's and
// goes along with each touch, so the number of its written lines stands here. A station's turn, which is the number of
// its taken starts, stands in `turns` at the station's number; place 0 is no station's, and there are as many places as
// there can be stations, since an opening that cannot fail takes no memory. Operations and answers stand on the board
// alone. The phase is part of the type, and a call that leads to another phase takes the floor itself: no floor is
// touched or closed once it is closed. Contracts see a floor through `floor_of`, and no model stands for it here: the value
// of a model cannot name what the bound `Board` gives.
#[derive(Drop)]
pub struct Floor<B: Board, P> {
    board: B,
    limit: usize,
    written: usize,
    turns: [usize; 17],
    phase: P,
    ghost some: { 1 ≤ limit },
    ghost few: { limit ≤ 1024 },
    ghost fill: { written ≤ limit },
}

pub type OpenFloor<B> = Floor<B, Open>;

pub type ClosedFloor<B> = Floor<B, Closed>;
