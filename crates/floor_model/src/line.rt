// A line of a floor's ledger.
ghost use Rattle.std.specs.Prelude.{Some, refl};

use keys::text::Text;
use std::fmt;

// An operation that took effect, by its station and its turn there, with its answer.
#[derive(Clone, Copy, PartialEq, Eq, Debug)]
pub struct Line<O, R> {
    pub station: usize,
    // the station's taken starts are numbered from 1
    pub turn: usize,
    pub operation: O,
    pub answer: R,
}

impl<O: Text, R: Text> fmt::Display for Line<O, R> {
    ghost use Rattle.floor_model.specs.Printed.{entry_text};

    ghost output = { λ l. Some (entry_text O.Text.bytes R.Text.bytes l) };

    fn fmt<W: fmt::Write>(&self, f: &mut fmt::Formatter<W>) -> fmt::Result {
        write!(
            f,
            "(entry {} {} {} {})",
            self.station, self.turn, self.operation, self.answer
        )
    }
}

impl<O: Text, R: Text> Text for Line<O, R> {
    ghost use Rattle.floor_model.specs.Printed.{entry_text};

    ghost bytes = { entry_text O.Text.bytes R.Text.bytes };

    ghost shows = { λ x. refl };
}
