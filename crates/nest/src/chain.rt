// Walks along the chain, from the front to the back.
ghost use Rattle.std.specs.Prelude.{◌≡◌, ◌≤◌, length};
ghost use Rattle.nest_model.specs.Cells.{cell_at, key_at};
ghost use Rattle.nest_model.specs.Chain.{listed as listed_by, after as after_of};
ghost use Rattle.nest_model.specs.Meaning.{contents};
ghost use Rattle.nest.specs.Walk.{ahead};

use crate::Nest;
use crate::nodes::{BACK, FRONT, node};

impl<K: Copy> Nest<K> {
    // The key of a node, if it counts among the contents where it is reached.
    fn listed(&self, n: usize) -> Option<K>
        ensures { result ≡ listed_by (cell_at self.now.nodes n).mark (key_at self.now.nodes n) }
    {
        if n == FRONT || n == BACK {
            return None;
        }
        match self.find(n) {
            Some(node) if !node.cell.mark => Some(node.key),
            _ => None,
        }
    }

    // The node after a node.
    fn after(&self, n: usize) -> usize
        ensures { result ≡ after_of (cell_at self.now.nodes) n }
    {
        node(self.cell(n).next)
    }

    // A walk over the keys, from the front to the back.
    pub(crate) fn keys(&self) -> Keys<K>
        ensures all { ahead result ≡ contents self.now }
        ensures few { length (contents self.now) ≤ 514 }
    {
        Keys {
            nest: self,
            node: FRONT,
            turns: self.size + 2,
        }
    }
}

// A walk along the chain, over the keys of the nodes that are not marked.
#[derive(Drop)]
pub(crate) struct Keys<'a, K> {
    nest: &'a Nest<K>,
    // the node where it stands
    node: usize,
    // how many nodes it passes at most
    turns: usize,
}

impl<'a, K: Copy> Iterator for Keys<'a, K> {
    ghost use Rattle.std.specs.Iterator.{YieldsFirst, item_count};

    type Item = K;

    ghost next_gives = { YieldsFirst ahead };

    ghost remaining = { item_count ahead };

    // The place is the walk's own, so the loop tests it and no range counts it. Inlined, so that place and count need not be
    // stored at each key: as a call, a listing took half as much time again.
    #[inline(always)]
    fn next(&mut self) -> Option<K> {
        while self.turns > 0 && self.node != BACK {
            let here = self.node;
            self.turns -= 1;
            self.node = self.nest.after(here);
            if let Some(key) = self.nest.listed(here) {
                return Some(key);
            }
        }
        None
    }
}
