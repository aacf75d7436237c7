// Keys, which have a total order.
ghost use Rattle.std.specs.Prelude.{◌≡◌, not, ◌&&◌, Bool};
ghost use Rattle.std.specs.declared.cmp.Ordering.{Ordering};
ghost use Rattle.keys.specs.Order.{Total, compared};

// A kind of key with its order. Whatever is ordered by keys is written for any `Key`. A second order on the same
// data is another type that wraps the first and has a `Key` of its own.
pub trait Key: Copy + Ord {
    // whether the first key comes before the second
    ghost before: { Self → Self → Bool };

    // Does this key come before the other?
    fn is_before(&self, other: &Self) -> bool
        ensures { result ≡ before self.now other.now }
    {
        self.cmp(other).is_lt()
    }

    // Are the keys one and the same?
    fn is_same(&self, other: &Self) -> bool
        ensures { result ≡ (not (before self.now other.now) && not (before other.now self.now)) }
    {
        self.cmp(other).is_eq()
    }

    ghost total: { Total before };

    // `cmp` of `Ord` answers by this order, so sorted maps and sets keep it
    ghost agrees: { (x y : Self) (r : Ordering) → (r ≡ Self.Ord.cmp x y) → r ≡ compared before x y };
}
