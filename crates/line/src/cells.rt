// The cells of a line: Head, Tail and the next cells of its nodes, each set by a compare-and-set alone.
ghost use Rattle.std.specs.Prelude.{◌≡◌, ◌<◌, true, not, length, if◌then◌else◌, Some, None, ◌==◌};
ghost use Rattle.line_model.specs.Nodes.{is_node, next_of, element_of};
ghost use Rattle.line_model.specs.Within.{in_next};
ghost use Rattle.line_model.specs.Line.{tail_set, head_set, next_set, take_node};

use crate::Line;
use line_model::node::Node;

// Sets the cell to `new` if it holds `old`. Says whether it set it.
fn compare_and_set<T: PartialEq + Copy>(cell: &mut T, old: T, new: T) -> bool
    ensures told { result ≡ T.eq cell.old old }
    ensures left { cell.new ≡ (if result then new else cell.old) }
{
    if *cell == old {
        *cell = new;
        true
    } else {
        false
    }
}

impl<E> Line<E> {
    ghost use Rattle.std.specs.Prelude.{◌+◌};
    ghost use Rattle.line_model.specs.Within.{IsWithin};

    // How many nodes there are for elements. It tells of any line what is true of every one, for callers, whose clauses see
    // the model alone.
    pub fn size(&self) -> usize
        ensures told { result + 1 ≡ length self.now.nodes }
        ensures within { IsWithin self.now }
    {
        self.nodes.len() - 1
    }
}

// That a node is one of the table is asked by each read and write of a cell, and not tested: a touch makes no test that
// the invariant spares it. The types of nodes do not say it, since a number cannot name the table that it counts in.
impl<E: Copy> Line<E> {
    pub(crate) fn next_of(&self, node: usize) -> Option<usize>
        requires { node < length self.now.nodes }
        ensures is { result ≡ next_of self.now.nodes node }
        ensures within { in_next (length self.now.nodes) result ≡ true }
    {
        self.nodes[node].next
    }

    pub(crate) fn element_of(&self, node: usize) -> E
        requires { node < length self.now.nodes }
        ensures { element_of self.now.nodes node ≡ Some result }
    {
        self.nodes[node].element
    }

    // Head's compare-and-set.
    pub(crate) fn set_head(&mut self, old: usize, new: usize) -> bool
        requires { new < length self.old.nodes }
        ensures told { result ≡ (self.old.head == old) }
        ensures left { self.new ≡ head_set self.old old new }
    {
        compare_and_set(&mut self.head, old, new)
    }

    // Tail's compare-and-set.
    pub(crate) fn set_tail(&mut self, old: usize, new: usize) -> bool
        requires { new < length self.old.nodes }
        ensures told { result ≡ (self.old.tail == old) }
        ensures left { self.new ≡ tail_set self.old old new }
    {
        compare_and_set(&mut self.tail, old, new)
    }

    // The compare-and-set of a node's next cell, from none.
    pub(crate) fn set_next(&mut self, node: usize, new: usize) -> bool
        requires node_in_bounds { node < length self.old.nodes }
        requires in_bounds { new < length self.old.nodes }
        ensures told { result ≡ not (is_node (next_of self.old.nodes node)) }
        ensures left { self.new ≡ next_set self.old node new (next_of self.old.nodes node) }
        ensures size { length self.new.nodes ≡ length self.old.nodes }
    {
        compare_and_set(&mut self.nodes[node].next, None, Some(new))
    }

    // Takes the next unused node for an element, with next none.
    pub(crate) fn take_node(&mut self, element: E) -> usize
        requires { self.old.taken < length self.old.nodes }
        ensures told { result ≡ self.old.taken }
        ensures left { self.new ≡ take_node self.old element }
        ensures size { length self.new.nodes ≡ length self.old.nodes }
    {
        let own = self.taken;
        self.nodes[own] = Node {
            element,
            next: None,
        };
        self.taken = own + 1;
        own
    }
}
