// How the station table is read and written.
ghost use Rattle.std.specs.Prelude.{◌≡◌, true};
ghost use Rattle.nest_model.specs.Model.{work_at, with, space as has_space, enter as entered, own_node, reserved};

use crate::Nest;
use crate::nodes::link;
use nest_model::node::Node;
use nest_model::pending::Pending;
use nest_model::phase::Phase;
use nest_model::registers::Registers;
use nest_model::work::Work;
use plain_model::nest_op::NestOp;

// No register is set.
const UNSET: Registers = Registers {
    here: None,
    next: None,
    mark: None,
    keep: None,
    keptnext: None,
};

impl<K: Copy> Nest<K> {
    // What a station is at. Stations are numbered from 1, and one that does not exist is free.
    pub(crate) fn work(&self, station: usize) -> Work<K>
        ensures { result ≡ work_at self.now.works station }
    {
        if station == 0 {
            return Work::Free;
        }
        self.works.get(station - 1).copied().unwrap_or(Work::Free)
    }

    // Gives a station other work.
    pub(crate) fn put(&mut self, station: usize, work: Work<K>)
        ensures { self.new ≡ with self.old self.old.nodes station work }
    {
        if station > 0 {
            if let Some(seat) = self.works.get_mut(station - 1) {
                *seat = work;
            }
        }
    }

    // Is there a node left for an add? Other operations take none.
    pub(crate) fn has_space(&self, op: NestOp<K>) -> bool
        ensures { result ≡ has_space self.now op }
    {
        match op {
            NestOp::Add(_) => self.taken < self.size,
            NestOp::Drop(_) | NestOp::Find(_) => true,
        }
    }

    // Takes the next unused node for an add.
    fn reserve(&mut self, op: NestOp<K>) -> Option<usize>
        requires { has_space self.old op ≡ true }
        ensures told { result ≡ own_node self.old op }
        ensures left { self.new ≡ reserved self.old op }
    {
        match op {
            NestOp::Add(key) => {
                let own = self.taken + 2;
                self.nodes[own] = Node {
                    key,
                    cell: link(None),
                };
                self.taken += 1;
                Some(own)
            }
            NestOp::Drop(_) | NestOp::Find(_) => None,
        }
    }

    // Hands an operation to a station: it is to begin at the front, with no register set.
    pub(crate) fn enter(&mut self, station: usize, op: NestOp<K>)
        requires { has_space self.old op ≡ true }
        ensures { self.new ≡ entered self.old station op }
    {
        let own = self.reserve(op);
        self.put(
            station,
            Work::Waiting(Pending {
                op,
                own,
                phase: Phase::N1,
                registers: UNSET,
            }),
        );
    }
}
