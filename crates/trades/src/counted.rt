// Reading a key with a count, of which elements are made.
ghost use Rattle.forms_model.specs.Reading.{Took};
ghost use Rattle.forms_model.specs.Counted.{counted_at};

use reader::Reader;
use reader::form::Form;

// Reads `(NAME K COUNT)`.
pub(crate) fn counted<F: Form>(reader: &mut Reader<'_, '_>, name: &[u8]) -> Option<(F::Value, u32)>
    ensures { Took result (counted_at name.now F.at reader.old) reader.new }
{
    reader.open()?;
    reader.keyword(name)?;
    let key = F::read(reader)?;
    let count = reader.number()?;
    reader.close()?;
    Some((key, count))
}
