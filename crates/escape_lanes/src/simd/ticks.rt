//! Counts that only clauses see. They take no bytes, and nothing runs to raise them.
ghost use Rattle.std.specs.Prelude.{◌≡◌, ℕ, ◌+◌};
ghost use Rattle.std.specs.Borrow.{ftrue};

use std::marker::Model;

/// A count, a whole number without limit. A clause reads it as `count`.
#[derive(Drop)]
pub struct Tally {
    pub ghost count: { ℕ },
}

impl Model for Tally {
    ghost also_owns = { λ _. ftrue };
}

impl Tally {
    /// Returns a count of 0.
    #[inline(always)]
    pub(crate) fn new() -> Tally
        ensures { result.count ≡ 0 }
    {
        Tally {}
    }

    // A count is never written to: the greater one is a new value.
    #[inline(always)]
    fn more(_before: &Tally, _by: usize) -> Tally
        ensures { result.count ≡ _before.now.count + _by }
    {
        Tally {}
    }

    /// Raises the count by so many.
    #[inline(always)]
    pub(crate) fn raise_by(&mut self, by: usize)
        ensures { self.new.count ≡ self.old.count + by }
    {
        *self = Tally::more(self, by);
    }
}

/// How often bytes were classified. A contract sees that number.
///
/// A classifier raises it by one for a vector, and [`EscapeMask::rest`](crate::simd::escape_mask::EscapeMask::rest)
/// for what is left of one by which a vector was stored. Nothing else raises it, and it can't be cloned: so a
/// kernel that is lent the ticks of its caller has called these as often as they rose.
#[derive(Drop)]
pub struct Ticks {
    tally: Tally,
}

impl Model for Ticks {
    ghost Value = { ℕ };

    ghost view = { λ t. t.tally.count };
}

impl Ticks {
    /// Returns ticks at which nothing was classified.
    #[inline(always)]
    pub fn new() -> Self
        ensures { result ≡ 0 }
    {
        Ticks {
            tally: Tally::new(),
        }
    }

    /// One more classification.
    #[inline(always)]
    pub(crate) fn tick(&mut self)
        ensures { self.new ≡ self.old + 1 }
    {
        self.tally.raise_by(1);
    }
}
