// A walk along a chain of 200 nodes: along the bare cells, and by the touches of a find.
use crate::checksum::Checksum;
use crate::host::alone;
use crate::making::{LARGEST, make_nest};
use crate::requests::{SMALLEST, key};
use crate::run::Run;
use keys::size_label::SizeLabel;
use nest_model::cell::Cell;
use nest_model::node::Node;
use plain_model::nest_op::NestOp;
use shop::sizes::Sizes;
use std::alloc::{AllocError, Global};
use std::time::Instant;

// How many keys there are, and how often the chain is walked.
const KEYS: usize = 200;

const WALKS: usize = 500;

// Keys stand in the table in an order that jumps: the node at place i has the key 77 × i, by the remainder, and so the key
// k has the node 13 × k.
fn key_of_node(place: usize) -> usize {
    place.wrapping_mul(77) % KEYS
}

// The node of a key, after the front and the back.
fn node_of_key(number: usize) -> usize {
    (number.wrapping_mul(13) % KEYS).wrapping_add(2)
}

// A cell that leads to the node of a key, or to the back after the last.
fn cell_before(number: usize) -> Cell {
    let next = if number < KEYS {
        node_of_key(number)
    } else {
        1
    };
    Cell {
        next: Some(next),
        mark: false,
    }
}

// The node table as a nest with these keys has it.
fn chain(heap: Global) -> Result<Vec<Node<SizeLabel>>, AllocError> {
    let mut nodes = Vec::new(heap);
    nodes.push(Node {
        key: SMALLEST,
        cell: cell_before(0),
    })?;
    nodes.push(Node {
        key: SMALLEST,
        cell: Cell {
            next: None,
            mark: false,
        },
    })?;
    for place in 0..KEYS {
        let number = key_of_node(place);
        nodes.push(Node {
            key: key(number as u64),
            cell: cell_before(number.wrapping_add(1)),
        })?;
    }
    Ok(nodes)
}

// Follows the next cells from the front to the back. Tells how many there were. This loop is what is measured, so it is no
// iterator.
fn walk(nodes: &[Node<SizeLabel>]) -> usize {
    let mut at = 0;
    for steps in 0..nodes.len() {
        let Some(next) = nodes.get(at).and_then(|node| node.cell.next) else {
            return steps;
        };
        at = next;
    }
    nodes.len()
}

// The walk along the bare cells.
pub fn bare_walk(rt: &HostRuntime) -> anyhow::Result<Run> {
    let nodes = chain(rt.alloc())?;
    let mut sum = Checksum::new();
    let mut steps: usize = 0;
    let start = Instant::now(rt)?;
    for _ in 0..WALKS {
        let walked = walk(&nodes);
        sum.add(walked as u64);
        steps = steps.saturating_add(walked);
    }
    let time = start.elapsed(rt)?;
    Ok(Run::new(steps, sum, time))
}

// Finds of the last key.
pub fn find_last(rt: &HostRuntime) -> anyhow::Result<Run> {
    let sizes = Sizes {
        stations: 1,
        nest_nodes: KEYS,
        ..LARGEST
    };
    let mut nest = make_nest(rt.alloc(), sizes)?;
    let mut sum = Checksum::new();
    for place in 0..KEYS {
        let key = key(key_of_node(place) as u64);
        let _ = alone(&mut nest, &NestOp::Add(key), &mut sum);
    }
    let last = key(199);
    let mut touches: usize = 0;
    let start = Instant::now(rt)?;
    for _ in 0..WALKS {
        touches = touches.saturating_add(alone(&mut nest, &NestOp::Find(last), &mut sum));
    }
    let time = start.elapsed(rt)?;
    Ok(Run::new(touches, sum, time))
}
