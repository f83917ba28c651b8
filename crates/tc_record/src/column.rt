//! The numbers of a column of a record, lent.

ghost use Rattle.std.specs.Prelude.{◌≡◌, ◌≤◌, ◌∷◌, [], IfSome, IfNone, IsTrue, drop, take, length};

use crate::numbers::Numbers;
use std::marker::Model;

/// The numbers of a column, read one by one. Contracts see those that are left.
#[derive(Drop)]
pub struct Column<'a> {
    left: Numbers<'a>,
}

impl<'a> Model for Column<'a> {
    ghost use Rattle.std.specs.Prelude.{List, ℕ};
    ghost use Rattle.tc_record.specs.WalkView.{numbers_of};

    ghost Value = { List ℕ };

    ghost view = { λ c. numbers_of c.left };
}

impl<'a> Column<'a> {
    ghost use Rattle.tc_record.specs.WalkView.{numbers_of};

    pub(crate) fn of(left: Numbers<'a>) -> Column<'a>
        ensures { result ≡ numbers_of left.entry }
    {
        Column { left }
    }

    /// The next number, or `None` at the end. Takes no memory.
    #[inline(always)]
    pub fn next(&mut self) -> Option<u32>
        ensures some { IfSome result (λ number. self.old ≡ number ∷ self.new) }
        ensures end { IfNone result (self.old ≡ []) }
    {
        self.left.next()
    }

    /// How many numbers are left. Takes no memory.
    pub fn len(&self) -> u32
        ensures { result ≡ length self.now }
    {
        self.left.left
    }

    /// The same column, lent once more. Takes no memory.
    #[inline(always)]
    pub fn again(&self) -> Column<'a>
        ensures { result ≡ self.now }
    {
        Column { left: self.left }
    }

    /// Passes so many numbers, or all that are left. Takes no memory.
    #[inline(always)]
    pub fn pass(&mut self, count: u32)
        ensures { self.new ≡ drop count self.old }
    {
        self.left.pass(count);
    }

    /// Whether so many numbers are left here and in another column, and are the same. Where the answer is no, nothing is said.
    /// Takes no memory.
    #[inline(always)]
    pub fn begins_like(&self, other: &Column<'_>, count: u32) -> bool
        ensures { IsTrue result → (count ≤ length self.now) × (take count self.now ≡ take count other.now) }
    {
        self.left.begin_like(&other.left, count)
    }
}
