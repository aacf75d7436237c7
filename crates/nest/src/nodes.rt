// How the node table is read and written.
ghost use Rattle.std.specs.Prelude.{◌≡◌, ℕ, List, length};
ghost use Rattle.std.specs.List.{slice_get};
ghost use Rattle.nest_model.specs.Ends.{is_after, is_key};
ghost use Rattle.nest_model.specs.Cells.{node as node_of, link as link_to, gone as gone_to, cell_at, key_at, written, holds, exchanged};
ghost use Rattle.nest_model.specs.Model.{NestModel, nodes_of};

use crate::Nest;
use keys::key::Key;
use nest_model::cell::Cell;
use nest_model::node::Node;

pub(crate) const FRONT: usize = 0;

pub(crate) const BACK: usize = 1;

// The node that a register or a cell names; where it names none, the back.
pub(crate) fn node(named: Option<usize>) -> usize
    ensures { result ≡ node_of named }
{
    named.unwrap_or(BACK)
}

// An unmarked cell.
pub(crate) fn link(next: Option<usize>) -> Cell
    ensures { result ≡ link_to next }
{
    Cell { next, mark: false }
}

// A marked cell.
pub(crate) fn gone(next: Option<usize>) -> Cell
    ensures { result ≡ gone_to next }
{
    Cell { next, mark: true }
}

impl<K> Nest<K> {
    ghost use Rattle.nest.specs.View.{IsTabled};

    // How many nodes there are for keys. It tells of any nest what is true of every one, for callers, whose clauses see the
    // model alone.
    pub fn size(&self) -> usize
        ensures told { result ≡ self.now.size }
        ensures tabled { IsTabled self.now }
    {
        self.size
    }
}

impl<K: Copy> Nest<K> {
    // A node of the table.
    pub(crate) fn find(&self, n: usize) -> Option<Node<K>>
        ensures { result ≡ slice_get self.now.nodes n }
    {
        self.nodes.get(n).copied()
    }

    // The cell of a node; past the table, one that leads nowhere.
    pub(crate) fn cell(&self, n: usize) -> Cell
        ensures { result ≡ cell_at self.now.nodes n }
    {
        self.find(n).map_or(link(None), |node| node.cell)
    }

    // Sets the cell of a node of the table.
    pub(crate) fn write(&mut self, n: usize, cell: Cell)
        ensures { self.new ≡ nodes_of self.old (written self.old.nodes n cell) }
    {
        if let Some(node) = self.nodes.get_mut(n) {
            node.cell = cell;
        }
    }

    // Sets a node's cell to `new` if it is `old`. Tells whether it set the cell. The line's compare-and-set is another, since
    // it is handed the cell, and here a register may name none.
    pub(crate) fn compare_and_set(&mut self, named: Option<usize>, old: Cell, new: Cell) -> bool
        ensures told { result ≡ holds self.old.nodes named old }
        ensures left { self.new ≡ nodes_of self.old (exchanged self.old.nodes named old new) }
    {
        let n = node(named);
        if self.cell(n) == old {
            self.write(n, new);
            true
        } else {
            false
        }
    }
}

impl<K: Key> Nest<K> {
    // Is the node's key after this one?
    pub(crate) fn is_after(&self, n: usize, key: K) -> bool
        ensures { result ≡ is_after K.before key (key_at self.now.nodes n) }
    {
        match n {
            FRONT => false,
            BACK => true,
            _ => self.find(n).is_none_or(|node| key.is_before(&node.key)),
        }
    }

    // Is the node's key this one?
    pub(crate) fn is_key(&self, n: usize, key: K) -> bool
        ensures { result ≡ is_key K.before key (key_at self.now.nodes n) }
    {
        match n {
            FRONT | BACK => false,
            _ => self.find(n).is_some_and(|node| key.is_same(&node.key)),
        }
    }
}
