// What can be asked of a nest, and what it answers.
ghost use Rattle.std.specs.Prelude.{◌≡◌};

// An operation on a nest, an ordered set of keys.
#[derive(Clone, Copy, PartialEq, Eq, Debug)]
pub enum NestOp<K> {
    Add(K),
    Drop(K),
    Find(K),
}

impl<K: Copy> NestOp<K> {
    ghost use Rattle.plain_model.specs.Nest.{key_of};

    // The key that the operation is about.
    pub fn key(self) -> K
        ensures { result ≡ key_of self }
    {
        match self {
            NestOp::Add(key) | NestOp::Drop(key) | NestOp::Find(key) => key,
        }
    }
}

// `Added` or `There` answers an add, `Dropped` or `Missing` a drop, `Yes` or `No` a find.
#[derive(Clone, Copy, PartialEq, Eq, Debug)]
pub enum NestAnswer {
    Added,
    There,
    Dropped,
    Missing,
    Yes,
    No,
}
