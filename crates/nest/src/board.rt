// The nest as a board.
ghost use Rattle.std.specs.Prelude.{List};
ghost use Rattle.plain_model.specs.Nest.{nest as plain_nest};
ghost use Rattle.nest_model.specs.Model.{NestModel, steps as steps_of};
ghost use Rattle.nest_model.specs.Meaning.{means as meaning};
ghost use Rattle.nest_model.specs.Sound.{Sound};
ghost use Rattle.nest_model.proofs.Laws;

use crate::Nest;
use boards::board::Board;
use boards::outcome::Outcome;
use boards::station::Station;
use keys::key::Key;
use nest_model::pending::Pending;
use nest_model::step::Step;
use nest_model::work::Work;
use plain_model::nest_op::{NestAnswer, NestOp};

impl<K: Key> Board for Nest<K> {
    type Op = NestOp<K>;

    type Answer = NestAnswer;

    type Item = K;

    ghost Plain = { List K };

    ghost Model = { NestModel K };

    ghost model = { λ n. n };

    ghost plain = { plain_nest K.before };

    ghost steps = { steps_of K.before };

    ghost means = { meaning K.before };

    ghost sound = { Sound K.before };

    ghost laws = { Laws.laws K.Key.total };

    fn begin(&mut self, station: usize, op: &NestOp<K>) -> bool {
        let free = matches!(self.work(station), Work::Free);
        let may_begin = self.exists(station) && (free && self.space(op));
        if may_begin {
            self.enter(station, *op);
        }
        may_begin
    }

    // The registers are read, and what follows from them changes at most one cell. The operation is taken apart and put
    // together again: changed in its place, or by `..`, a touch took an eighth to two fifths more instructions.
    fn touch(&mut self, station: usize) -> (Outcome, Option<NestAnswer>) {
        match self.work(station) {
            Work::Free | Work::Ready(_, _, _) => (Outcome::Idle, None),
            Work::Waiting(
                Pending {
                    op,
                    own,
                    phase,
                    registers,
                },
            ) => {
                let registers = self.readings(phase, registers);
                let read = Pending {
                    op,
                    own,
                    phase,
                    registers,
                };
                match self.follow(read) {
                    Step::Continue(phase) => {
                        let next = Pending {
                            op,
                            own,
                            phase,
                            registers,
                        };
                        self.put(station, Work::Waiting(next));
                        (Outcome::Going, None)
                    }
                    Step::Break(answer) => {
                        self.put(station, Work::Ready(op, answer, registers));
                        (Outcome::CountedReady, Some(answer))
                    }
                }
            }
        }
    }

    fn release(&mut self, station: usize) {
        if let Work::Ready(_, _, _) = self.work(station) {
            self.put(station, Work::Free);
        }
    }

    fn stations(&self) -> usize {
        self.works.len()
    }

    fn bound(&self) -> usize {
        3 * self.size + 7
    }

    fn station(&self, station: usize) -> Station<NestOp<K>, NestAnswer> {
        match self.work(station) {
            Work::Free => Station::Free,
            Work::Waiting(pending) => Station::Uncounted(pending.op),
            Work::Ready(op, answer, _) => Station::Ready(op, answer),
        }
    }

    fn space(&self, op: &NestOp<K>) -> bool {
        self.has_space(*op)
    }

    fn items(&self) -> usize {
        self.keys().count()
    }

    fn item(&self, place: usize) -> Option<K> {
        self.keys().nth(place)
    }

    fn show(&self, list: &mut [K]) -> bool {
        if self.keys().count() > list.len() {
            return false;
        }
        for (place, key) in self.keys().enumerate() {
            list[place] = key;
        }
        true
    }
}
