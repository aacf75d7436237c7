// Opening the floor of a shop.
ghost use Rattle.std.specs.Prelude.{◌≡◌, IfOk, IfErr, None, MatchResult};
ghost use Rattle.keys.specs.declared.refusal.Refusal.TheVariants.{NoMemory};
ghost use Rattle.floor.specs.Model.{floor_of};
ghost use Rattle.shop.specs.Shop.{shop_refusal, or_memory, InRange, shop_model, blank_line, ShopOpened};

use crate::making::{make_line, make_nest};
use crate::sizes::Sizes;
use crate::tables::filled;
use boards::board::Board;
use floor::OpenFloor;
use floor_model::line::Line as LedgerLine;
use keys::key::Key;
use keys::refusal::Refusal;
use line::Line;
use nest::Nest;
use pair::pair::Pair;
use plain_model::line_op::{LineAnswer, LineOp};
use plain_model::nest_op::{NestAnswer, NestOp};
use plain_model::side::Side;
use std::alloc::Global;

// The board of a shop: its nest and its line side by side.
pub type ShopBoard<K, E> = Pair<Nest<K>, Line<E>>;

// A line of a shop's ledger.
pub type ShopLine<K, E> = LedgerLine<Side<NestOp<K>, LineOp<E>>, Side<NestAnswer, LineAnswer<E>>>;

// A floor with its ledger, as a host holds them.
#[derive(Drop)]
pub struct Shop<K: Key, E: Copy>
where
    ShopBoard<K, E>: Board,
{
    pub floor: OpenFloor<ShopBoard<K, E>>,
    pub ledger: Vec<ShopLine<K, E>>,
}

// A line of a ledger on which nothing is written yet.
fn blank<K: Key, E: Copy>() -> ShopLine<K, E>
    ensures { result ≡ blank_line }
{
    LedgerLine {
        station: 0,
        turn: 0,
        operation: Side::Second(LineOp::Take),
        answer: Side::Second(LineAnswer::Empty),
    }
}

// Makes the floor and its ledger for sizes that were checked. Only memory can be lacking.
fn make_shop<K: Key, E: Copy>(
    heap: Global,
    sizes: Sizes,
    key: K,
    element: E,
) -> Result<Shop<K, E>, Refusal>
    requires { InRange sizes.stations sizes.limit sizes.nest_nodes sizes.line_nodes }
    ensures lacking { IfErr result (λ reason. reason ≡ NoMemory) }
    ensures opened { IfOk result (λ s. ShopOpened K.before sizes.stations sizes.limit sizes.nest_nodes sizes.line_nodes key element (floor_of shop_model s.floor) s.ledger.items) }
{
    let nest = make_nest(heap, sizes.stations, sizes.nest_nodes, key)?;
    let line = make_line(heap, sizes.stations, sizes.line_nodes, element)?;
    let ledger = filled(heap, blank(), sizes.limit)?;
    let floor = OpenFloor::open(Pair::new(nest, line), sizes.limit);
    Ok(Shop { floor, ledger })
}

// A floor of these sizes with its ledger, or the reason why there is none. The key and the element that are handed in
// fill the unused nodes, and nothing shows them.
pub fn open_shop<K: Key, E: Copy>(
    heap: Global,
    sizes: Sizes,
    key: K,
    element: E,
) -> Result<Shop<K, E>, Refusal>
    ensures sizes { MatchResult result (λ _. shop_refusal sizes.stations sizes.limit sizes.nest_nodes sizes.line_nodes ≡ None) (λ reason. reason ≡ or_memory (shop_refusal sizes.stations sizes.limit sizes.nest_nodes sizes.line_nodes)) }
    ensures opened { IfOk result (λ s. ShopOpened K.before sizes.stations sizes.limit sizes.nest_nodes sizes.line_nodes key element (floor_of shop_model s.floor) s.ledger.items) }
{
    sizes.check()?;
    make_shop(heap, sizes, key, element)
}
