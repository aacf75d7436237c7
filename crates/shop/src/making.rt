// The boards of a shop, over tables that are made for them. The two makings share no more than `filled`: nodes, places
// besides them and the states of stations are of other types and numbers.
ghost use Rattle.std.specs.Prelude.{◌≡◌, ◌+◌, ◌≤◌, true, ◌&&◌, [], replicate, IfOk, IfErr};
ghost use Rattle.keys.specs.declared.refusal.Refusal.TheVariants.{NoMemory};
ghost use Rattle.boards.specs.Board.{Fresh};
ghost use Rattle.nest_model.specs.Making.{made as nest_made};
ghost use Rattle.nest_model.specs.Meaning.{means as nest_means};
ghost use Rattle.nest_model.specs.Sound.{Sound as NestSound};
ghost use Rattle.line_model.specs.Fresh.{fresh as line_made};
ghost use Rattle.line_model.specs.Meaning.{means as line_means};
ghost use Rattle.line_model.specs.Sound.{Sound as LineSound};
ghost use Rattle.shop.specs.Shop.{nest_node, line_node};

use crate::tables::filled;
use keys::key::Key;
use keys::refusal::Refusal;
use line::Line;
use line_model::node::Node as LineNode;
use line_model::seat::Seat;
use nest::Nest;
use nest_model::cell::Cell;
use nest_model::node::Node as NestNode;
use nest_model::work::Work;
use std::alloc::Global;

// An empty nest. Its unused nodes all hold the key that is handed in, which nothing shows.
pub fn make_nest<K: Key>(
    heap: Global,
    stations: usize,
    nodes: usize,
    key: K,
) -> Result<Nest<K>, Refusal>
    requires { (1 ≤ stations) × (stations ≤ 16) × (1 ≤ nodes) × (nodes ≤ 512) }
    ensures is { IfOk result (λ n. n ≡ nest_made stations nodes (replicate (nodes + 2) (nest_node key))) }
    ensures sound { IfOk result (λ n. NestSound K.before n) }
    ensures fresh { IfOk result (λ n. Fresh (nest_means K.before) [] n) }
    ensures lacking { IfErr result (λ e. e ≡ NoMemory) }
{
    let blank = NestNode {
        key,
        cell: Cell {
            next: None,
            mark: false,
        },
    };
    let node_table = filled(heap, blank, nodes + 2)?;
    let station_table = filled(heap, Work::Free, stations)?;
    Ok(Nest::new(stations, nodes, node_table, station_table))
}

// An empty line. Its unused nodes all hold the element that is handed in, which nothing shows.
pub fn make_line<E: Copy>(
    heap: Global,
    stations: usize,
    nodes: usize,
    element: E,
) -> Result<Line<E>, Refusal>
    requires { (1 ≤ stations) × (stations ≤ 16) × (1 ≤ nodes) × (nodes ≤ 512) }
    ensures is { IfOk result (λ l. l ≡ line_made stations nodes (replicate (nodes + 1) (line_node element))) }
    ensures sound { IfOk result (λ l. LineSound l) }
    ensures fresh { IfOk result (λ l. Fresh line_means [] l) }
    ensures lacking { IfErr result (λ e. e ≡ NoMemory) }
{
    let blank = LineNode {
        element,
        next: None,
    };
    let node_table = filled(heap, blank, nodes + 1)?;
    let station_table = filled(heap, Seat::Free, stations)?;
    Ok(Line::new(stations, nodes, node_table, station_table))
}
