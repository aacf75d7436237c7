// What a station is doing.
ghost use Rattle.std.specs.Prelude.{◌≡◌};
ghost use Rattle.boards.specs.Board.{is_free, is_uncounted, Maps};

// A station is free, or it waits with an operation that has not taken effect (uncounted), or with one that has
// (counted), or its answer can be collected (ready). Its operation and answer are part of a board's meaning only
// where they stand here.
#[derive(Clone, Copy, PartialEq, Eq, Debug)]
pub enum Station<O, R> {
    Free,
    Uncounted(O),
    Counted(O, R),
    Ready(O, R),
}

impl<O, R> Station<O, R> {
    #[inline(always)]
    pub fn is_free(&self) -> bool
        ensures { result ≡ is_free self.now }
    {
        matches!(self, Station::Free)
    }

    #[inline(always)]
    pub fn is_uncounted(&self) -> bool
        ensures { result ≡ is_uncounted self.now }
    {
        matches!(self, Station::Uncounted(_))
    }

    // A station in the same state, with what the calls make of the operation and of the answer.
    #[inline(always)]
    pub fn map<P, S, F: FnOnce(O) -> P, G: FnOnce(R) -> S>(
        self,
        operation: F,
        answer: G,
    ) -> Station<P, S>
        requires operation { F.IsAlwaysCallable operation }
        requires answer { G.IsAlwaysCallable answer }
        ensures { Maps (F.post operation) (G.post answer) self result }
    {
        match self {
            Station::Free => Station::Free,
            Station::Uncounted(o) => Station::Uncounted(operation(o)),
            Station::Counted(o, a) => Station::Counted(operation(o), answer(a)),
            Station::Ready(o, a) => Station::Ready(operation(o), answer(a)),
        }
    }
}
