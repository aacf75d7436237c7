// The pair of any two boards.
ghost use Rattle.std.specs.Prelude.{◌≡◌, Ok};
ghost use Rattle.plain_model.specs.Pair.{pair as plain_pair};
ghost use Rattle.boards.specs.Board.{Fresh};
ghost use Rattle.pair_model.specs.Pair.{pair_steps, pair_means, Sound, checked};
ghost use Rattle.pair_model.proofs.PairLaws.{pair_laws};

use boards::board::Board;
use boards::outcome::Outcome;
use boards::station::Station;
use keys::refusal::Refusal;
use plain_model::side::Side;

// Two boards side by side, each operation going to its side. A station of the pair is the station of that number at
// both sides, and is at work at one of them at most: at the first unless it is free there.
// The bounds stand on the impls: on the struct they would be asked of whoever names the type.
// What is of one side is put in the pair by closures: of a constructor named alone, as in `map(Side::First)`, the check
// does not take that its result names the other side's type.
#[derive(Drop)]
pub struct Pair<F, S> {
    first: F,
    second: S,
}

impl<F: Board, S: Board> Pair<F, S> {
    // Can the boards be paired? Only while every station of either is free.
    pub fn check(first: &F, second: &S) -> Result<(), Refusal>
        ensures { result ≡ checked F.Board.means S.Board.means (F.Board.model first.now, S.Board.model second.now) }
    {
        if first.all_free() && second.all_free() {
            Ok(())
        } else {
            Err(Refusal::NotFree)
        }
    }

    // The pair of the boards. It is sound if they are and `check` lets them through, and fresh if they are.
    pub fn new(first: F, second: S) -> Pair<F, S>
        ensures first { result.first ≡ first }
        ensures second { result.second ≡ second }
        ensures sound { F.Board.sound (F.Board.model first) → S.Board.sound (S.Board.model second) → checked F.Board.means S.Board.means (F.Board.model first, S.Board.model second) ≡ Ok tt → Sound F.Board.means S.Board.means F.Board.sound S.Board.sound (F.Board.model result.first, S.Board.model result.second) }
        ensures fresh { F.Board.sound (F.Board.model first) → S.Board.sound (S.Board.model second) → Fresh F.Board.means F.Board.plain.empty (F.Board.model first) → Fresh S.Board.means S.Board.plain.empty (S.Board.model second) → Sound F.Board.means S.Board.means F.Board.sound S.Board.sound (F.Board.model result.first, S.Board.model result.second) × Fresh (pair_means F.Board.means S.Board.means) (F.Board.plain.empty, S.Board.plain.empty) (F.Board.model result.first, S.Board.model result.second) }
    {
        Pair { first, second }
    }

    // The first side.
    pub fn first(&self) -> &F
        ensures { result.now ≡ self.now.first }
    {
        &self.first
    }

    // The second side.
    pub fn second(&self) -> &S
        ensures { result.now ≡ self.now.second }
    {
        &self.second
    }
}

impl<F: Board, S: Board> Board for Pair<F, S> {
    type Op = Side<F::Op, S::Op>;

    type Answer = Side<F::Answer, S::Answer>;

    type Item = Side<F::Item, S::Item>;

    ghost Plain = { F.Board.Plain × S.Board.Plain };

    ghost Model = { F.Board.Model × S.Board.Model };

    ghost model = { λ s. (F.Board.model s.first, S.Board.model s.second) };

    ghost plain = { plain_pair F.Board.plain S.Board.plain };

    ghost steps = { pair_steps F.Board.means S.Board.means F.Board.steps S.Board.steps };

    ghost means = { pair_means F.Board.means S.Board.means };

    ghost sound = { Sound F.Board.means S.Board.means F.Board.sound S.Board.sound };

    ghost laws = { pair_laws F.Board.laws S.Board.laws };

    fn begin(&mut self, station: usize, op: &Side<F::Op, S::Op>) -> bool {
        if !self.exists(station) || !self.station(station).is_free() {
            return false;
        }
        match op {
            Side::First(op) => self.first.begin(station, op),
            Side::Second(op) => self.second.begin(station, op),
        }
    }

    fn touch(&mut self, station: usize) -> (Outcome, Option<Side<F::Answer, S::Answer>>) {
        if !self.first.station(station).is_free() {
            let (outcome, answer) = self.first.touch(station);
            return (outcome, answer.map(|answer| Side::First(answer)));
        }
        let (outcome, answer) = self.second.touch(station);
        (outcome, answer.map(|answer| Side::Second(answer)))
    }

    fn release(&mut self, station: usize) {
        if self.first.station(station).is_free() {
            self.second.release(station);
        } else {
            self.first.release(station);
        }
    }

    fn stations(&self) -> usize {
        self.first.stations().min(self.second.stations())
    }

    fn bound(&self) -> usize {
        self.first.bound().max(self.second.bound())
    }

    // Inlined, so that a floor which only asks whether a station is free or uncounted builds no station of the pair.
    #[inline(always)]
    fn station(&self, station: usize) -> Station<Side<F::Op, S::Op>, Side<F::Answer, S::Answer>> {
        let first = self.first.station(station);
        if first.is_free() {
            self.second
                .station(station)
                .map(|op| Side::Second(op), |answer| Side::Second(answer))
        } else {
            first.map(|op| Side::First(op), |answer| Side::First(answer))
        }
    }

    fn space(&self, op: &Side<F::Op, S::Op>) -> bool {
        match op {
            Side::First(op) => self.first.space(op),
            Side::Second(op) => self.second.space(op),
        }
    }

    fn items(&self) -> usize {
        self.first.items().saturating_add(self.second.items())
    }

    fn item(&self, place: usize) -> Option<Side<F::Item, S::Item>> {
        match self.first.item(place) {
            Some(item) => Some(Side::First(item)),
            // a match and no `map`: here the first side has at most `place` items, so their number is told exactly
            None => {
                let later = self.second.item(place - self.first.items());
                later.map(|item| Side::Second(item))
            }
        }
    }

    fn show(&self, list: &mut [Side<F::Item, S::Item>]) -> bool {
        // an item past the end of the list says that the list is too short
        if self.item(list.len()).is_some() {
            return false;
        }
        // the places are counted, since an item of the pair is asked for by its place
        for place in 0..list.len() {
            let Some(item) = self.item(place) else {
                return true;
            };
            list[place] = item;
        }
        true
    }
}
