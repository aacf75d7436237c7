// A walk along the chain of a line.
ghost use Rattle.std.specs.Prelude.{◌≡◌, ◌<◌, ◌^◌, List, length};
ghost use Rattle.std.specs.Iterator.{YieldsFirst, item_count};
ghost use Rattle.std.specs.Iterator.Runs.{YieldsInOrder};
ghost use Rattle.line_model.specs.Meaning.{after, contents};

use crate::Line;
use std::marker::Model;

// A walk from a node on, seen as the list of the elements that are left: those of the nodes after `at`, and of no more
// than `most` nodes, so that the walk ends whatever the next cells hold. That of the nest is another: it passes marked nodes,
// and its ends have no keys.
#[derive(Drop)]
pub(crate) struct Walk<'a, E> {
    line: &'a Line<E>,
    at: usize,
    most: usize,
}

impl<'a, E> Model for Walk<'a, E> {
    ghost Value = { List E };

    ghost view = { λ w. after w.most w.line.now.nodes w.at };

    ghost invariant = { λ w. (w.at < length w.line.now.nodes) × (w.most < 2 ^ 64) };
}

impl<E> Line<E> {
    // The walk along the elements after Head, which are the contents.
    pub(crate) fn walk(&self) -> Walk<'_, E>
        ensures is { result ≡ contents self.now }
        ensures few { length result < 2 ^ 64 }
        ensures runs { YieldsInOrder (YieldsFirst {A = E} (λ rest. rest)) (λ rest. rest) }
    {
        Walk {
            line: self,
            at: self.head,
            most: self.taken,
        }
    }
}

impl<'a, E: Copy> Iterator for Walk<'a, E> {
    type Item = E;

    ghost next_gives = { YieldsFirst (λ rest. rest) };

    ghost remaining = { item_count (λ rest. rest) };

    fn next(&mut self) -> Option<E> {
        self.most = self.most.checked_sub(1)?;
        self.at = self.line.next_of(self.at)?;
        Some(self.line.element_of(self.at))
    }
}
