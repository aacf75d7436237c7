// A cell that holds one number.
ghost use Rattle.std.specs.Prelude.{◌≡◌, ℕ, Ok};
ghost use Rattle.boards.specs.Board.{Fresh};
ghost use Rattle.swap_cell.specs.SwapCell.{Cell, checked, made, swap, cell_steps, cell_means, Sound};
ghost use Rattle.swap_cell.specs.SwapCellLaws.{cell_laws};

use boards::board::Board;
use boards::outcome::Outcome;
use boards::station::Station;
use keys::refusal::Refusal;
use std::marker::Model;

// One number, for which an operation puts another and is answered the old one. The only touch of an operation makes
// the exchange, so it counts and is ready at once. What a station is doing stands in the table at its number; place 0
// is not used. The table has the size for the most stations that there can be: a making that cannot fail takes no
// memory.
#[derive(Drop)]
pub struct SwapCell {
    held: usize,
    stations: usize,
    table: [Station<usize, usize>; 17],
}

impl Model for SwapCell {
    ghost use Rattle.std.specs.Prelude.{◌≤◌};
    ghost use Rattle.swap_cell.specs.SwapCell.{Cell, cell};

    ghost Value = { Cell };

    ghost view = { λ s. cell s.held s.stations s.table };

    ghost invariant = { λ s. (1 ≤ s.stations) × (s.stations ≤ 16) };
}

impl SwapCell {
    // An operation's first touch makes it ready.
    const TOUCHES: usize = 1;

    // Can a cell serve so many stations?
    pub fn check(stations: usize) -> Result<(), Refusal>
        ensures { result ≡ checked stations }
    {
        if !(1..=16).contains(&stations) {
            return Err(Refusal::StationCount);
        }
        Ok(())
    }

    // A cell that holds 0, with free stations. `check` tells whether it can be made.
    pub fn new(stations: usize) -> SwapCell
        requires { checked stations ≡ Ok tt }
        ensures made { result ≡ made stations }
        ensures sound { Sound result }
        ensures fresh { Fresh cell_means 0 result }
    {
        SwapCell {
            held: 0,
            stations,
            table: [Station::Free; 17],
        }
    }
}

impl Board for SwapCell {
    type Op = usize;

    type Answer = usize;

    type Item = usize;

    ghost Plain = { ℕ };

    ghost Model = { Cell };

    ghost model = { λ s. s };

    ghost plain = { swap };

    ghost steps = { cell_steps };

    ghost means = { cell_means };

    ghost sound = { Sound };

    ghost laws = { cell_laws };

    fn begin(&mut self, station: usize, op: &usize) -> bool {
        let taken = self.exists(station) && self.station(station).is_free();
        if taken {
            self.table[station] = Station::Uncounted(*op);
        }
        taken
    }

    fn touch(&mut self, station: usize) -> (Outcome, Option<usize>) {
        match self.station(station) {
            Station::Uncounted(op) => {
                let old = self.held;
                self.held = op;
                self.table[station] = Station::Ready(op, old);
                (Outcome::CountedReady, Some(old))
            }
            Station::Counted(op, answer) => {
                self.table[station] = Station::Ready(op, answer);
                (Outcome::Ready, Some(answer))
            }
            Station::Free | Station::Ready(_, _) => (Outcome::Idle, None),
        }
    }

    fn release(&mut self, station: usize) {
        if let Station::Ready(_, _) = self.station(station) {
            self.table[station] = Station::Free;
        }
    }

    fn stations(&self) -> usize {
        self.stations
    }

    fn bound(&self) -> usize {
        Self::TOUCHES
    }

    fn station(&self, station: usize) -> Station<usize, usize> {
        self.table.get(station).copied().unwrap_or(Station::Free)
    }

    fn space(&self, _op: &usize) -> bool {
        true
    }

    fn items(&self) -> usize {
        1
    }

    fn item(&self, place: usize) -> Option<usize> {
        (place == 0).then_some(self.held)
    }

    fn show(&self, list: &mut [usize]) -> bool {
        if let Some(first) = list.first_mut() {
            *first = self.held;
            return true;
        }
        false
    }
}
