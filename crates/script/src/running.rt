// A script, run on the floor that its first line opens.
ghost use Rattle.std.specs.Prelude.{◌≡◌, None, string_bytes};
ghost use Rattle.floor.specs.Model.{floor_of};
ghost use Rattle.lex.specs.Lines.{lines_of};
ghost use Rattle.shop.specs.Shop.{shop_model, shop_refusal};
ghost use Rattle.script_model.specs.State.{state};
ghost use Rattle.script_model.specs.declared.ending.Ending.TheVariants.{Reported};
ghost use Rattle.script.specs.Script.{ShopFits, shop_report, shop_ran, begun, Day, UnlessMemory, PartRan, NoLine};

use crate::lines::obey_lines;
use crate::replying::put_reply;
use crate::reporting::put_report;
use floor::floor::Floor;
use forms_model::opening::Opening;
use keys::key::Key;
use keys::refusal::Refusal;
use keys::text::Text;
use lex::fault::{Fault, Stop};
use lex::line::Lines;
use lex::tokens::tokens;
use plain_model::line_op::LineAnswer;
use plain_model::nest_op::NestAnswer;
use plain_model::side::Side;
use script_model::ending::Ending;
use script_model::reply::Reply;
use shop::opening::{Shop, ShopBoard, ShopLine, open_shop};
use shop::sizes::Sizes;
use std::alloc::Global;
use trades::trade::Trade;

// An answer of a shop's board.
type ShopAnswer<E> = Side<NestAnswer, LineAnswer<E>>;

// After a close that was taken no line may follow.
fn no_line(heap: Global, mut lines: Lines<'_>) -> Result<(), Stop>
    ensures { NoLine result lines.entry.number (lines_of lines.entry.rest.now) }
{
    let Some(line) = lines.next() else {
        return Ok(());
    };
    let _ = tokens(heap, line)?;
    Err(Stop::Faulty(Fault::no_form(line.number)))
}

// Prints the report, which ends a run.
fn finish<K: Key + Text, E: Copy + Text, P>(
    heap: Global,
    floor: &Floor<ShopBoard<K, E>, P>,
    ledger: &[ShopLine<K, E>],
    out: &mut String,
) -> Result<Ending, Stop>
    ensures { PartRan result (shop_report K.before K.Text.bytes E.Text.bytes (state (floor_of shop_model floor.now) ledger.now), Reported) (string_bytes out.old) (string_bytes out.new) }
{
    put_report(heap, floor, ledger, out)?;
    Ok(Ending::Reported)
}

// Runs the lines after the first, and prints the report.
fn run_lines<T: Trade>(
    heap: Global,
    shop: Shop<T::Key, T::Element>,
    lines: Lines<'_>,
    out: &mut String,
) -> Result<Ending, Stop>
    requires { lines.number ≡ 2 }
    ensures { ShopFits T.Trade.rules (floor_of shop_model shop.floor) → PartRan result (shop_ran T.Trade.rules (state (floor_of shop_model shop.floor) shop.ledger.items) lines.entry.rest.now) (string_bytes out.old) (string_bytes out.new) }
{
    let Shop {
        mut floor,
        mut ledger,
    } = shop;
    let after = obey_lines::<T, ShopBoard<T::Key, T::Element>>(
        heap,
        &mut floor,
        &mut ledger,
        lines,
        out,
    )?;
    match after {
        None => finish(heap, &floor, &ledger, out),
        Some(lines) => {
            no_line(heap, lines)?;
            finish(heap, &floor.close(), &ledger, out)
        }
    }
}

// Opens the floor of a trade, and runs the lines after the first on it. A floor form that is sent back ends the run.
pub(crate) fn run_floor<T: Trade>(
    heap: Global,
    opening: Opening,
    lines: Lines<'_>,
    out: &mut String,
) -> Result<Ending, Stop>
    requires { lines.number ≡ 2 }
    ensures ran { PartRan result (begun T.Trade.rules opening lines.entry.rest.now) (string_bytes out.old) (string_bytes out.new) }
    ensures day { UnlessMemory result (shop_refusal opening.stations opening.limit opening.nodes opening.line_nodes ≡ None → Day T.Trade.rules opening (begun T.Trade.rules opening lines.entry.rest.now)) }
{
    // the form has these numbers too, and no `Sizes`: floors know nothing of text, nor text of floors
    let sizes = Sizes {
        stations: opening.stations,
        limit: opening.limit,
        nest_nodes: opening.nodes,
        line_nodes: opening.line_nodes,
    };
    match open_shop(heap, sizes, T::blank_key(), T::blank_element()) {
        Ok(shop) => {
            put_reply::<ShopAnswer<T::Element>>(out, &Reply::Opened)?;
            run_lines::<T>(heap, shop, lines, out)
        }
        Err(Refusal::NoMemory) => Err(Stop::NoMemory),
        Err(reason) => {
            put_reply::<ShopAnswer<T::Element>>(out, &Reply::Refused(reason))?;
            Ok(Ending::NotOpened(reason))
        }
    }
}
