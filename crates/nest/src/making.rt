// How a nest is made.
ghost use Rattle.std.specs.Prelude.{◌≡◌, ◌≤◌, [], length, vec_len};
ghost use Rattle.boards.specs.Board.{Fresh};
ghost use Rattle.nest_model.specs.Making.{refusal, accepted, joined, made};
ghost use Rattle.nest_model.specs.Meaning.{means};
ghost use Rattle.nest_model.specs.Sound.{Sound};

use crate::Nest;
use crate::nodes::{BACK, FRONT, link};
use keys::key::Key;
use keys::refusal::Refusal;
use nest_model::node::Node;
use nest_model::work::Work;

impl<K: Copy> Nest<K> {
    // Can a nest be made with so many stations and nodes for keys, over these tables? Their content does not matter, and
    // they may be longer than needed. Numbers and tables are handed in one by one, by a rule of the boards: `check` borrows
    // the tables that `new` then takes.
    pub fn check(
        stations: usize,
        size: usize,
        nodes: &[Node<K>],
        works: &[Work<K>],
    ) -> Result<(), Refusal>
        ensures { result ≡ refusal stations size (length nodes.now) (length works.now) }
    {
        if !(1..=16).contains(&stations) {
            return Err(Refusal::StationCount);
        }
        if !(1..=512).contains(&size) {
            return Err(Refusal::NestSize);
        }
        if nodes.len() < size + 2 || works.len() < stations {
            return Err(Refusal::ShortTable);
        }
        Ok(())
    }
}

impl<K: Key> Nest<K> {
    // An empty nest over tables that `check` accepted, which are cut to the length that is needed.
    pub fn new(
        stations: usize,
        size: usize,
        mut nodes: Vec<Node<K>>,
        mut works: Vec<Work<K>>,
    ) -> Nest<K>
        requires { refusal stations size (vec_len nodes) (vec_len works) ≡ accepted }
        ensures is { result ≡ made stations size nodes.items }
        ensures sound { Sound K.before result }
        ensures fresh { Fresh (means K.before) [] result }
    {
        nodes.truncate(size + 2);
        join(&mut nodes);
        works.truncate(stations);
        works.fill(Work::Free);
        Nest {
            size,
            taken: 0,
            nodes,
            works,
        }
    }
}

// Lets the front lead to the back.
fn join<K: Copy>(nodes: &mut Vec<Node<K>>)
    requires { 2 ≤ length nodes.old.items }
    ensures { nodes.new.items ≡ joined nodes.old.items }
{
    nodes[FRONT].cell = link(Some(BACK));
    nodes[BACK].cell = link(None);
}
