// What a touch does at a seat, one row of the touch table each. Each takes the registers of its seat one by one, since the
// match that finds the seat has taken it apart already, and asks that the seat names nodes of the table.
ghost use Rattle.std.specs.Prelude.{◌≡◌, ◌<◌, true, length, Some, None};
ghost use Rattle.boards.specs.declared.outcome.Outcome.TheVariants.{Going, CountedReady};
ghost use Rattle.line_model.specs.Within.{in_seat};
ghost use Rattle.line_model.specs.Line.{sit, act};

use crate::Line;
use boards::outcome::Outcome;
use line_model::seat::Seat;
use plain_model::line_op::{LineAnswer, LineOp};

// What a touch tells.
type Told<E> = (Outcome, Option<LineAnswer<E>>);

impl<E: Copy> Line<E> {
    // A touch after which the operation is still under way.
    pub(crate) fn go(&mut self, station: usize, seat: Seat<E>) -> Told<E>
        requires { in_seat (length self.old.nodes) seat ≡ true }
        ensures told { result ≡ (Going, None) }
        ensures left { self.new ≡ sit self.old station seat }
    {
        self.sit(station, seat);
        (Outcome::Going, None)
    }

    // A touch at which a take takes effect and is ready.
    pub(crate) fn answer(&mut self, station: usize, answer: LineAnswer<E>) -> Told<E>
        ensures told { result ≡ (CountedReady, Some answer) }
        ensures left { self.new ≡ sit self.old station (Seat.Ready LineOp.Take answer) }
    {
        self.sit(station, Seat::Ready(LineOp::Take, answer));
        (Outcome::CountedReady, Some(answer))
    }

    // E3 of a put: begins anew if Tail has moved since E1, and else goes by what E2 read.
    pub(crate) fn touch_e3(
        &mut self,
        station: usize,
        element: E,
        own: usize,
        end: usize,
        n: Option<usize>,
    ) -> Told<E>
        requires { in_seat (length self.old.nodes) (Seat.E3 element own end n) ≡ true }
        ensures told { result ≡ (act self.old station (Seat.E3 element own end n)).1 }
        ensures left { self.new ≡ (act self.old station (Seat.E3 element own end n)).0 }
    {
        if self.tail != end {
            return self.go(station, Seat::E1(element, own, Some(end), Some(n)));
        }
        match n {
            None => self.go(station, Seat::E4(element, own, end)),
            Some(n) => self.go(station, Seat::E5(element, own, end, n)),
        }
    }

    // E4 of a put, which takes effect where the own node is linked behind end.
    pub(crate) fn touch_e4(&mut self, station: usize, element: E, own: usize, end: usize) -> Told<E>
        requires { in_seat (length self.old.nodes) (Seat.E4 element own end) ≡ true }
        ensures told { result ≡ (act self.old station (Seat.E4 element own end)).1 }
        ensures left { self.new ≡ (act self.old station (Seat.E4 element own end)).0 }
    {
        if self.set_next(end, own) {
            self.sit(station, Seat::E6(element, own, end));
            (Outcome::Counted, Some(LineAnswer::Put))
        } else {
            self.go(station, Seat::E1(element, own, Some(end), Some(None)))
        }
    }

    // D3 of a take, which takes effect where the line is empty.
    pub(crate) fn touch_d3(
        &mut self,
        station: usize,
        first: usize,
        end: usize,
        n: Option<Option<usize>>,
    ) -> Told<E>
        requires { in_seat {E = E} (length self.old.nodes) (Seat.D3 first end n) ≡ true }
        ensures told { result ≡ (act self.old station (Seat.D3 first end n)).1 }
        ensures left { self.new ≡ (act self.old station (Seat.D3 first end n)).0 }
    {
        match (first == end, self.next_of(first)) {
            (true, None) => self.answer(station, LineAnswer::Empty),
            (true, Some(n)) => self.go(station, Seat::D4(first, end, n)),
            (false, Some(n)) => self.go(station, Seat::D5(first, end, n)),
            (false, None) => self.go(station, Seat::D1(Some(first), Some(end), Some(None))),
        }
    }

    // D5 of a take, which takes effect where Head moves on from first.
    pub(crate) fn touch_d5(&mut self, station: usize, first: usize, end: usize, n: usize) -> Told<E>
        requires { in_seat {E = E} (length self.old.nodes) (Seat.D5 first end n) ≡ true }
        ensures told { result ≡ (act self.old station (Seat.D5 first end n)).1 }
        ensures left { self.new ≡ (act self.old station (Seat.D5 first end n)).0 }
    {
        if self.set_head(first, n) {
            self.answer(station, LineAnswer::Took(self.element_of(n)))
        } else {
            self.go(station, Seat::D1(Some(first), Some(end), Some(Some(n))))
        }
    }
}
