// Forms that tokens can be.
ghost use Rattle.std.specs.Prelude.{List};
ghost use Rattle.lex.specs.Runs.{Lexeme};
ghost use Rattle.forms_model.specs.Reading.{Parsed, Took};

use crate::Reader;

// A form, for code that reads one of several in the same way.
pub trait Form {
    // what is read of it
    type Value: Copy;

    ghost at: { List Lexeme → Parsed Self.Value };

    fn read(reader: &mut Reader<'_, '_>) -> Option<Self::Value>
        ensures { Took result (at reader.old) reader.new };
}
