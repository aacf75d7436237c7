// The report of a shop's floor.
ghost use Rattle.std.specs.Prelude.{◌≡◌, ◌++◌, string_bytes, OnOk};
ghost use Rattle.floor.specs.Model.{floor_of};
ghost use Rattle.shop.specs.Shop.{shop_model};
ghost use Rattle.script_model.specs.State.{state};
ghost use Rattle.script.specs.Script.{shop_report};

use floor::floor::Floor;
use keys::key::Key;
use keys::text::Text;
use report::contents::put_contents;
use report::entries::put_entries;
use shop::opening::{ShopBoard, ShopLine};
use std::alloc::{AllocError, Global};

// Prints the contents of the nest, those of the line, and the lines of the ledger that are written.
pub(crate) fn put_report<K: Key + Text, E: Copy + Text, P>(
    heap: Global,
    floor: &Floor<ShopBoard<K, E>, P>,
    ledger: &[ShopLine<K, E>],
    out: &mut String,
) -> Result<(), AllocError>
    ensures { OnOk result (string_bytes out.new ≡ string_bytes out.old ++ shop_report K.before K.Text.bytes E.Text.bytes (state (floor_of shop_model floor.now) ledger.now)) }
{
    put_contents(heap, floor.board().first(), "nest", out)?;
    put_contents(heap, floor.board().second(), "line", out)?;
    let (lines, _) = ledger.split_at(floor.written().min(ledger.len()));
    put_entries(out, lines)
}
