// The plain nest.
ghost use Rattle.std.specs.Prelude.{◌≡◌, not, List, [], position};
ghost use Rattle.plain_model.specs.Nest.{nest, grows as nest_grows, same as same_key, has, Ascending};
ghost use Rattle.plain_model.specs.Machine.{Applied};

use crate::plain_machine::PlainMachine;
use keys::key::Key;
use keys::refusal::Refusal;
use plain_model::nest_op::{NestAnswer, NestOp};
use std::alloc::Global;

// An ordered set of keys: they stand in the vector in ascending order, none twice. It is no set of std, since `keys` hands
// out one slice.
#[derive(Drop)]
pub struct PlainNest<K> {
    keys: Vec<K>,
}

impl<K: Key> PlainNest<K> {
    // A nest without keys.
    pub fn new(heap: Global) -> PlainNest<K>
        ensures { result.keys.items ≡ [] }
    {
        PlainNest {
            keys: Vec::new(heap),
        }
    }

    // The keys in ascending order.
    pub fn keys(&self) -> &[K]
        ensures { result.now ≡ self.now.keys.items }
    {
        self.keys.as_slice()
    }

    // Where the key stands, if it is in the nest.
    fn find(&self, key: &K) -> Option<usize>
        ensures { result ≡ position (same_key K.before key.now) self.now.keys.items }
    {
        self.keys.iter().position(|other| key.is_same(other))
    }

    // The first key that is not before this one: where it belongs, if not at the end.
    fn place(&self, key: &K) -> Option<usize>
        ensures { result ≡ position (λ other. not (K.before other key.now)) self.now.keys.items }
    {
        self.keys.iter().position(|other| !other.is_before(key))
    }

    // Is the key in the nest?
    pub fn holds(&self, key: &K) -> bool
        ensures { result ≡ has K.before key.now self.now.keys.items }
    {
        self.find(key).is_some()
    }

    // Inserts the key where it belongs, unless it is there.
    pub fn add(&mut self, key: K) -> Result<NestAnswer, Refusal>
        ensures { Applied (nest K.before) (nest_grows K.before) (NestOp.Add key) self.old.keys.items self.new.keys.items result }
    {
        if self.holds(&key) {
            return Ok(NestAnswer::There);
        }
        let place = self.place(&key).unwrap_or(self.keys.len());
        self.keys.insert(place, key)?;
        Ok(NestAnswer::Added)
    }

    // Removes the key, if it is there.
    pub fn remove(&mut self, key: &K) -> NestAnswer
        ensures { (self.new.keys.items, result) ≡ (nest K.before).apply (NestOp.Drop key.now) self.old.keys.items }
    {
        match self.find(key) {
            Some(place) => {
                let _ = self.keys.remove(place);
                NestAnswer::Dropped
            }
            None => NestAnswer::Missing,
        }
    }
}

impl<K: Key> PlainMachine for PlainNest<K> {
    type Op = NestOp<K>;

    type Answer = NestAnswer;

    type Item = K;

    ghost State = { List K };

    ghost state = { λ s. s.keys.items };

    ghost machine = { nest K.before };

    ghost grows = { nest_grows K.before };

    fn apply(&mut self, op: &NestOp<K>) -> Result<NestAnswer, Refusal>
        ensures applied { Applied (nest K.before) (nest_grows K.before) op.now self.old.keys.items self.new.keys.items result }
        ensures ascends { Ascending K.before self.old.keys.items → Ascending K.before self.new.keys.items }
    {
        match *op {
            NestOp::Add(key) => self.add(key),
            NestOp::Drop(key) => Ok(self.remove(&key)),
            NestOp::Find(key) => {
                if self.holds(&key) {
                    Ok(NestAnswer::Yes)
                } else {
                    Ok(NestAnswer::No)
                }
            }
        }
    }
}
