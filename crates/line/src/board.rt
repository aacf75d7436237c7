// The line as a board: the calls of the interface.
ghost use Rattle.std.specs.Prelude.{List};
ghost use Rattle.plain_model.specs.Line.{line as plain_line};
ghost use Rattle.line_model.specs.Line.{LineModel, steps as line_steps};
ghost use Rattle.line_model.specs.Meaning.{means as line_means};
ghost use Rattle.line_model.specs.Sound.{Sound};
ghost use Rattle.line_model.proofs.Laws.{line_laws};

use crate::Line;
use boards::board::Board;
use boards::outcome::Outcome;
use boards::station::Station;
use line_model::seat::Seat;
use plain_model::line_op::{LineAnswer, LineOp};

impl<E: Copy> Board for Line<E> {
    type Op = LineOp<E>;

    type Answer = LineAnswer<E>;

    type Item = E;

    ghost Plain = { List E };

    ghost Model = { LineModel E };

    ghost model = { λ m. m };

    ghost plain = { plain_line };

    ghost steps = { line_steps };

    ghost means = { line_means };

    ghost sound = { Sound };

    ghost laws = { line_laws };

    fn begin(&mut self, station: usize, op: &LineOp<E>) -> bool {
        if !self.exists(station) {
            return false;
        }
        let Seat::Free = self.seat(station) else {
            return false;
        };
        match *op {
            LineOp::Put(element) => {
                if self.taken >= self.nodes.len() {
                    return false;
                }
                let own = self.take_node(element);
                self.sit(station, Seat::E1(element, own, None, None));
            }
            LineOp::Take => self.sit(station, Seat::D1(None, None, None)),
        }
        true
    }

    // Which touch comes next stands in the station table as data, since other stations may be touched in between.
    fn touch(&mut self, station: usize) -> (Outcome, Option<LineAnswer<E>>) {
        match self.seat(station) {
            Seat::Free => (Outcome::Idle, None),
            Seat::E1(element, own, _, n) => self.go(station, Seat::E2(element, own, self.tail, n)),
            Seat::E2(element, own, end, _) => self.go(
                station,
                Seat::E3(element, own, end, self.next_of(end)),
            ),
            Seat::E3(element, own, end, n) => self.touch_e3(station, element, own, end, n),
            Seat::E4(element, own, end) => self.touch_e4(station, element, own, end),
            Seat::E5(element, own, end, n) => {
                self.set_tail(end, n);
                self.go(station, Seat::E1(element, own, Some(end), Some(Some(n))))
            }
            Seat::E6(element, own, end) => {
                self.set_tail(end, own);
                self.sit(station, Seat::Ready(LineOp::Put(element), LineAnswer::Put));
                (Outcome::Ready, Some(LineAnswer::Put))
            }
            Seat::D1(_, end, n) => self.go(station, Seat::D2(self.head, end, n)),
            Seat::D2(first, _, n) => self.go(station, Seat::D3(first, self.tail, n)),
            Seat::D3(first, end, n) => self.touch_d3(station, first, end, n),
            Seat::D4(first, end, n) => {
                self.set_tail(end, n);
                self.go(station, Seat::D1(Some(first), Some(end), Some(Some(n))))
            }
            Seat::D5(first, end, n) => self.touch_d5(station, first, end, n),
            Seat::Ready(_, _) => (Outcome::Idle, None),
        }
    }

    fn release(&mut self, station: usize) {
        if let Seat::Ready(_, _) = self.seat(station) {
            self.sit(station, Seat::Free);
        }
    }

    fn stations(&self) -> usize {
        self.seats.len()
    }

    fn bound(&self) -> usize {
        11
    }

    fn station(&self, station: usize) -> Station<LineOp<E>, LineAnswer<E>> {
        match self.seat(station) {
            Seat::Free => Station::Free,
            Seat::E1(element, ..)
            | Seat::E2(element, ..)
            | Seat::E3(element, ..)
            | Seat::E4(element, ..)
            | Seat::E5(element, ..) => Station::Uncounted(LineOp::Put(element)),
            Seat::E6(element, ..) => Station::Counted(LineOp::Put(element), LineAnswer::Put),
            Seat::D1(..) | Seat::D2(..) | Seat::D3(..) | Seat::D4(..) | Seat::D5(..) => {
                Station::Uncounted(LineOp::Take)
            }
            Seat::Ready(op, answer) => Station::Ready(op, answer),
        }
    }

    fn space(&self, op: &LineOp<E>) -> bool {
        match op {
            LineOp::Put(_) => self.taken < self.nodes.len(),
            LineOp::Take => true,
        }
    }

    fn items(&self) -> usize {
        self.walk().count()
    }

    fn item(&self, place: usize) -> Option<E> {
        self.walk().nth(place)
    }

    fn show(&self, list: &mut [E]) -> bool {
        if self.walk().count() > list.len() {
            return false;
        }
        for (place, element) in self.walk().enumerate() {
            list[place] = element;
        }
        true
    }
}
