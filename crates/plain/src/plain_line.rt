// The plain line.
ghost use Rattle.std.specs.Prelude.{◌≡◌, List, [], ◌∷◌, ◌++◌};
ghost use Rattle.plain_model.specs.Line.{line, grows as line_grows, take as taken_from};
ghost use Rattle.plain_model.specs.Machine.{Applied};

use crate::plain_machine::PlainMachine;
use keys::refusal::Refusal;
use plain_model::line_op::{LineAnswer, LineOp};
use std::alloc::Global;

// A queue of elements: the first of the vector is the next to be taken. It is no ring of elements, since `elements` hands
// out one slice.
#[derive(Drop)]
pub struct PlainLine<E> {
    elements: Vec<E>,
}

impl<E: Copy> PlainLine<E> {
    // A line without elements.
    pub fn new(heap: Global) -> PlainLine<E>
        ensures { result.elements.items ≡ [] }
    {
        PlainLine {
            elements: Vec::new(heap),
        }
    }

    // The elements, the next one first.
    pub fn elements(&self) -> &[E]
        ensures { result.now ≡ self.now.elements.items }
    {
        self.elements.as_slice()
    }

    // Appends an element.
    pub fn put(&mut self, element: E) -> Result<LineAnswer<E>, Refusal>
        ensures { Applied line line_grows (LineOp.Put element) self.old.elements.items self.new.elements.items result }
    {
        self.elements.push(element)?;
        Ok(LineAnswer::Put)
    }

    // Removes the first element, if there is one.
    pub fn take(&mut self) -> Option<E>
        ensures { (self.new.elements.items, result) ≡ taken_from self.old.elements.items }
    {
        if self.elements.is_empty() {
            None
        } else {
            Some(self.elements.remove(0))
        }
    }
}

impl<E: Copy> PlainMachine for PlainLine<E> {
    type Op = LineOp<E>;

    type Answer = LineAnswer<E>;

    type Item = E;

    ghost State = { List E };

    ghost state = { λ s. s.elements.items };

    ghost machine = { line };

    ghost grows = { line_grows };

    fn apply(&mut self, op: &LineOp<E>) -> Result<LineAnswer<E>, Refusal> {
        match *op {
            LineOp::Put(element) => self.put(element),
            LineOp::Take => Ok(self.take().map_or(LineAnswer::Empty, LineAnswer::Took)),
        }
    }
}
