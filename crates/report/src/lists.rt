// Items printed one after another.
ghost use Rattle.std.specs.Prelude.{◌≡◌, ◌++◌, string_bytes, OnOk};
ghost use Rattle.script_model.specs.Report.{list_text};

use keys::text::Text;
use std::alloc::AllocError;

// A line with a bracket in which the items follow a name.
pub fn put_list<T: Text>(out: &mut String, name: &str, items: &[T]) -> Result<(), AllocError>
    ensures { OnOk result (string_bytes out.new ≡ string_bytes out.old ++ list_text T.Text.bytes name.now items.now) }
{
    write!(out, "({name}")?;
    for item in items {
        write!(out, " {item}")?;
    }
    writeln!(out, ")")
}
