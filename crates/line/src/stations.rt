// The seats of the stations. The nest keeps its stations by the same two calls, over a table and a model of its own.
ghost use Rattle.std.specs.Prelude.{◌≡◌, true, length};
ghost use Rattle.line_model.specs.Within.{in_seat};
ghost use Rattle.line_model.specs.Seats.{seat_of};
ghost use Rattle.line_model.specs.Line.{sit};

use crate::Line;
use line_model::seat::Seat;

impl<E: Copy> Line<E> {
    // The seat of a station; that of a station that does not exist is free.
    pub(crate) fn seat(&self, station: usize) -> Seat<E>
        ensures is { result ≡ seat_of self.now.seats station }
        ensures within { in_seat (length self.now.nodes) result ≡ true }
    {
        if (1..=self.seats.len()).contains(&station) {
            self.seats[station - 1]
        } else {
            Seat::Free
        }
    }

    // Writes the seat of a station.
    pub(crate) fn sit(&mut self, station: usize, seat: Seat<E>)
        requires { in_seat (length self.old.nodes) seat ≡ true }
        ensures { self.new ≡ sit self.old station seat }
    {
        let at = station.saturating_sub(1);
        if at < self.seats.len() {
            self.seats[at] = seat;
        }
    }
}
