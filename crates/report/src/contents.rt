// The contents of a board.
ghost use Rattle.std.specs.Prelude.{◌≡◌, ◌++◌, IfOk, string_bytes, OnOk};
ghost use Rattle.script_model.specs.Report.{list_text};

use crate::lists::put_list;
use boards::board::Board;
use keys::text::Text;
use shop::tables::filled;
use std::alloc::{AllocError, Global};

// The items of a board's contents, in their order.
fn listing<B: Board>(heap: Global, board: &B) -> Result<Vec<B::Item>, AllocError>
    ensures { IfOk result (λ v. v.items ≡ B.plain.listed (B.means.contents (B.model board.now))) }
{
    let Some(first) = board.item(0) else {
        return Ok(Vec::new(heap));
    };
    let mut items = filled(heap, first, board.items())?;
    if !board.show(&mut items) {
        // there are more items than a list can have, so there is no room for one more
        items.push(first)?;
    }
    Ok(items)
}

// Prints a line with a bracket in which the items of a board's contents follow a name.
pub fn put_contents<B: Board>(
    heap: Global,
    board: &B,
    name: &str,
    out: &mut String,
) -> Result<(), AllocError>
where
    B::Item: Text,
    ensures { OnOk result (string_bytes out.new ≡ string_bytes out.old ++ list_text B.Item.Text.bytes name.now (B.plain.listed (B.means.contents (B.model board.now)))) }
{
    let items = listing(heap, board)?;
    put_list(out, name, &items)
}
