// The interface of boards.
ghost use Rattle.std.specs.Prelude.{◌≡◌, ℕ, ◌-◌, ◌^◌, ◌<◌, ◌≤◌, true, min, length, if◌then◌else◌, nat_le};
ghost use Rattle.std.specs.List.{slice_get};
ghost use Rattle.plain_model.specs.Machine.{Machine};
ghost use Rattle.boards.specs.Board.{Steps, Meaning, over, exists, all_free, uncounted};
ghost use Rattle.boards.specs.Laws.{Laws};

use crate::outcome::Outcome;
use crate::station::Station;

// A shared object that 1 to 16 stations, numbered from 1, work on, one atomic touch at a time. Its meaning is a
// function of a model, and every call is an equation on the model: the result and the model afterwards are what the
// function of that call gives. The laws tie those functions to the plain machine for every sound model.
pub trait Board {
    type Op: Copy;

    type Answer: Copy;

    // what a listing of the contents shows
    type Item: Copy;

    // a state of the plain machine
    ghost Plain: { Type 0 };

    // what is known of the board's tables
    ghost Model: { Type 0 };

    ghost model: { Self → Model };

    ghost plain: { Machine Plain Self.Op Self.Answer Self.Item };

    ghost steps: { Steps Model Self.Op Self.Answer };

    ghost means: { Meaning Model Plain Self.Op Self.Answer };

    // the invariant
    ghost sound: { Model → Type 0 };

    // Hands an operation to a free station. Says whether it was taken.
    fn begin(&mut self, station: usize, op: &Self::Op) -> bool
        ensures told { result ≡ (steps.begin (model self.old) station op.now).1 }
        ensures left { model self.new ≡ (steps.begin (model self.old) station op.now).0 };

    // Does one atomic step of the station's operation. By a rule of the boards the answer stands beside the outcome.
    fn touch(&mut self, station: usize) -> (Outcome, Option<Self::Answer>)
        ensures told { result ≡ (steps.touch (model self.old) station).1 }
        ensures left { model self.new ≡ (steps.touch (model self.old) station).0 };

    // Frees a ready station.
    fn release(&mut self, station: usize)
        ensures left { model self.new ≡ steps.release (model self.old) station };

    // How many stations the board serves.
    fn stations(&self) -> usize
        ensures told { result ≡ means.stations (model self.now) }
        ensures few { (1 ≤ result) × (result ≤ 16) };

    // How many of its own touches a waiting station needs at most while no other station is touched.
    fn bound(&self) -> usize
        ensures { result ≡ means.bound (model self.now) };

    // What a station is doing; a station that does not exist is free.
    fn station(&self, station: usize) -> Station<Self::Op, Self::Answer>
        ensures { result ≡ means.station (model self.now) station };

    // Is there space for the operation?
    fn space(&self, op: &Self::Op) -> bool
        ensures { result ≡ means.space (model self.now) op.now };

    // How many items the contents have, or the largest number where they have more than that.
    fn items(&self) -> usize
        ensures { result ≡ min (length (plain.listed (means.contents (model self.now)))) (2 ^ 64 - 1) };

    // The item at a place of the contents, counted from 0.
    fn item(&self, place: usize) -> Option<Self::Item>
        ensures { result ≡ slice_get (plain.listed (means.contents (model self.now))) place };

    // Writes the contents to the front of the list, or nothing where the list is too short. Says whether it wrote.
    fn show(&self, list: &mut [Self::Item]) -> bool
        ensures told { result ≡ nat_le (length (plain.listed (means.contents (model self.now)))) (length list.old) }
        ensures left { list.new ≡ (if result then over (plain.listed (means.contents (model self.now))) list.old else list.old) };

    // Is there a station of that number?
    fn exists(&self, station: usize) -> bool
        ensures within { result ≡ true → station < 17 }
        ensures told { result ≡ exists means (model self.now) station }
    {
        (1..=self.stations()).contains(&station)
    }

    // Is every station free?
    fn all_free(&self) -> bool
        ensures { result ≡ all_free means (model self.now) }
    {
        (1..=self.stations()).all(|station| self.station(station).is_free())
    }

    // How many stations wait uncounted.
    fn uncounted(&self) -> usize
        ensures few { result ≤ 16 }
        ensures told { result ≡ uncounted means (model self.now) }
    {
        // a loop: every start counts, and a filter of these numbers that is counted takes two thirds more time
        let stations = self.stations();
        let mut number = 0;
        for station in 1..=stations {
            if self.station(station).is_uncounted() {
                number += 1;
            }
        }
        number
    }

    ghost laws: { Laws plain steps means sound };
}
