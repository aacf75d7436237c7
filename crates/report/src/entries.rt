// How the lines of a ledger print.
ghost use Rattle.std.specs.Prelude.{◌≡◌, ◌++◌, string_bytes, OnOk};
ghost use Rattle.script_model.specs.Report.{joined, on_line, entry_text};

use floor_model::line::Line;
use keys::text::Text;
use std::alloc::AllocError;

// Each line of a ledger as an entry on a line of its own.
pub fn put_entries<O: Text, R: Text>(
    out: &mut String,
    lines: &[Line<O, R>],
) -> Result<(), AllocError>
    ensures { OnOk result (string_bytes out.new ≡ string_bytes out.old ++ joined (on_line (entry_text O.Text.bytes R.Text.bytes)) lines.now) }
{
    for line in lines {
        writeln!(out, "{line}")?;
    }
    Ok(())
}
