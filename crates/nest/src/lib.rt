// The nest: a sorted set of keys that several stations add to, drop from and search, one touch at a time.
#![tactic(auto)]

use nest_model::node::Node;
use nest_model::work::Work;
use std::marker::Model;

pub mod board;
mod chain;
pub mod making;
mod nodes;
mod stations;
mod table;

// A sorted linked list without locks. The first two nodes of the table are the ends of the chain, front and back; the
// others take keys, in the order of the table, and none is used twice. A node is in the set while it is reached from
// the front and its cell is not marked. A drop only marks the node; whoever walks past it later takes it out of the
// chain. So a cell is changed by one compare-and-set at a time, and a marked cell never changes again.
// Rules of the project: the tables are handed in, and nodes are named by their places in the table.
#[derive(Drop)]
pub struct Nest<K> {
    // How many nodes there are for keys, and how many of them were taken. The node table is longer by the two ends; the
    // bound, the space and the walk are told in `size`, so it is no length that each of them would have to work out.
    size: usize,
    taken: usize,
    nodes: Vec<Node<K>>,
    works: Vec<Work<K>>,
}

impl<K> Model for Nest<K> {
    ghost use Rattle.nest_model.specs.Model.{NestModel};

    ghost Value = { NestModel K };

    ghost use Rattle.nest.specs.View.{model, IsTabled};

    ghost view = { model };

    ghost invariant = { λ n. IsTabled (model n) };
}
