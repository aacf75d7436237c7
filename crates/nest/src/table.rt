// The touch table.
ghost use Rattle.std.specs.Prelude.{◌≡◌, cond};
ghost use Rattle.std.specs.declared.ops.ControlFlow.TheVariants.{Continue, Break};
ghost use Rattle.plain_model.specs.Nest.{key_of};
ghost use Rattle.nest_model.specs.Ends.{is_key};
ghost use Rattle.nest_model.specs.Cells.{node as node_of, cell_at, key_at, holds, exchanged};
ghost use Rattle.nest_model.specs.declared.phase.Phase.TheVariants.{N1};
ghost use Rattle.nest_model.specs.Table.{read as read_at, kept as kept_at, readings as readings_of, is_place, is_marked, decided, followed};
ghost use Rattle.nest_model.specs.Model.{nodes_of};

use crate::Nest;
use crate::nodes::{FRONT, gone, link, node};
use keys::key::Key;
use nest_model::cell::Cell;
use nest_model::pending::Pending;
use nest_model::phase::Phase;
use nest_model::registers::Registers;
use nest_model::step::Step;
use plain_model::nest_op::{NestAnswer, NestOp};

// The station stands at `here` and has read its cell.
fn read(registers: Registers, here: Option<usize>, cell: Cell) -> Registers
    ensures { result ≡ read_at registers here cell }
{
    Registers {
        here,
        next: cell.next,
        mark: Some(cell.mark),
        ..registers
    }
}

// The same, and an unmarked node is kept with its next.
fn kept(registers: Registers, here: Option<usize>, cell: Cell) -> Registers
    ensures { result ≡ kept_at registers here cell }
{
    let mut now = read(registers, here, cell);
    if !cell.mark {
        now.keep = here;
        now.keptnext = cell.next;
    }
    now
}

impl<K: Copy> Nest<K> {
    // The registers after the cell was read, by N1 to N3. The other touches read no cell before they set one.
    pub(crate) fn readings(&self, phase: Phase, registers: Registers) -> Registers
        ensures { result ≡ readings_of phase registers (cell_at self.now.nodes) }
    {
        match phase {
            Phase::N1 => kept(registers, Some(FRONT), self.cell(FRONT)),
            Phase::N2 => kept(registers, registers.next, self.cell(node(registers.next))),
            Phase::N3 => read(registers, registers.next, self.cell(node(registers.next))),
            Phase::N4 | Phase::N5 | Phase::N6 => registers,
        }
    }

    // Sets a node's cell to `new` if it is `old`, which gives the answer; if not, the operation starts again.
    fn commit(&mut self, named: Option<usize>, old: Cell, new: Cell, answer: NestAnswer) -> Step
        ensures told { result ≡ cond (holds self.old.nodes named old) (Break answer) (Continue N1) }
        ensures left { self.new ≡ nodes_of self.old (exchanged self.old.nodes named old new) }
    {
        if self.compare_and_set(named, old, new) {
            Step::Break(answer)
        } else {
            Step::Continue(Phase::N1)
        }
    }
}

impl<K: Key> Nest<K> {
    // Is the key's place between `here` and `next`?
    fn is_place(&self, registers: Registers, key: K) -> bool
        ensures { result ≡ is_place K.before self.now.nodes registers key }
    {
        !self.is_after(node(registers.here), key) && self.is_after(node(registers.next), key)
    }

    // Rule F, once the key's place is found behind an unmarked node: a find is answered there and then, an add of a key
    // that is there and a drop of one that is missing too. Any other add lets its own node lead to `next`.
    fn decide(&mut self, pending: Pending<K>) -> Step
        ensures told { result ≡ (decided K.before pending.op pending.own (is_key K.before (key_of pending.op) (key_at self.old.nodes (node_of pending.registers.here))) pending.registers self.old.nodes).1 }
        ensures left { self.new ≡ nodes_of self.old (decided K.before pending.op pending.own (is_key K.before (key_of pending.op) (key_at self.old.nodes (node_of pending.registers.here))) pending.registers self.old.nodes).0 }
    {
        let found = self.is_key(node(pending.registers.here), pending.op.key());
        match (pending.op, found) {
            (NestOp::Find(_), true) => Step::Break(NestAnswer::Yes),
            (NestOp::Find(_), false) => Step::Break(NestAnswer::No),
            (NestOp::Add(_), true) => Step::Break(NestAnswer::There),
            (NestOp::Add(_), false) => {
                self.write(node(pending.own), link(pending.registers.next));
                Step::Continue(Phase::N5)
            }
            (NestOp::Drop(_), true) => Step::Continue(Phase::N6),
            (NestOp::Drop(_), false) => Step::Break(NestAnswer::Missing),
        }
    }

    // What follows once the registers are set. Only N4, N5 and N6 change a cell that other stations can reach, each by
    // one compare-and-set; where that does not find the cell as it was read, the operation starts again.
    // Which touch it is stands in the station table as data, since other stations may be touched in between.
    pub(crate) fn follow(&mut self, pending: Pending<K>) -> Step
        ensures told { result ≡ (followed K.before pending.op pending.own pending.phase (is_marked pending.registers.mark) pending.registers self.old.nodes).1 }
        ensures left { self.new ≡ nodes_of self.old (followed K.before pending.op pending.own pending.phase (is_marked pending.registers.mark) pending.registers self.old.nodes).0 }
    {
        let Pending {
            op,
            own,
            phase,
            registers,
        } = pending;
        let key = op.key();
        let marked = registers.mark == Some(true);
        let Registers {
            here,
            next,
            keep,
            keptnext,
            ..
        } = registers;
        match (phase, marked) {
            (Phase::N1 | Phase::N2, false) if self.is_place(registers, key) => self.decide(pending),
            (Phase::N1 | Phase::N2, true) if self.is_place(registers, key) => Step::Continue(
                Phase::N3,
            ),
            (Phase::N1 | Phase::N2, _) => Step::Continue(Phase::N2),
            (Phase::N3, true) => Step::Continue(Phase::N3),
            (Phase::N3, false) => Step::Continue(Phase::N4),
            (Phase::N4, _) => {
                self.compare_and_set(keep, link(keptnext), link(here));
                Step::Continue(Phase::N1)
            }
            (Phase::N5, _) => self.commit(here, link(next), link(own), NestAnswer::Added),
            (Phase::N6, _) => self.commit(here, link(next), gone(next), NestAnswer::Dropped),
        }
    }
}
