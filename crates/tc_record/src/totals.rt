//! The greatest of the numbers of a column, and their sum, by few looks.

ghost use Rattle.std.specs.Prelude.{◌≡◌, ◌≤◌, ◌<◌, ◌+◌, ◌-◌, ◌*◌, ◌^◌, max, min};
ghost use Rattle.std.specs.List.{sum};
ghost use Rattle.tc_record.specs.NumbersLeft.{elements_from};
ghost use Rattle.tc_record.specs.Record.{greatest};
ghost use Rattle.tc_record.specs.Sections.{capped_sum};
ghost use Rattle.tc_record.specs.WalkView.{numbers_of};

use crate::numbers::{MOST_SEEN, Numbers, bits_before};
use tc_bits::field_of;

/// The greatest and the sum of the last numbers of a column, and how many stand before them.
#[derive(Clone, Copy)]
struct Totals {
    left: u32,
    greatest: u32,
    total: u32,
    ghost small: { total < 2 ^ 32 },
}

/// The greatest of numbers, and their sum, which stands still at the end of its type. They are read from the last one on: a header
/// stands before each column, so there are always eight bytes to look back at, and no look goes past the end of a record.
#[inline(always)]
pub(crate) fn add_up(numbers: Numbers<'_>) -> (u32, u32)
    ensures most { result.0 ≡ greatest (numbers_of numbers.entry) }
    ensures all { result.1 ≡ capped_sum (numbers_of numbers.entry) }
{
    let seen = MOST_SEEN as u32 / u32::from(numbers.width).max(1);
    let mut found = Totals {
        left: numbers.left,
        greatest: 0,
        total: 0,
    };
    while found.left > 0 {
        let part = found.left.min(seen);
        found.add_last(&numbers, part);
    }
    (found.greatest, found.total)
}

impl Totals {
    /// Adds so many of the last numbers that are left, whose bits are seen by one look.
    #[inline(always)]
    fn add_last(&mut self, numbers: &Numbers<'_>, count: u32)
        requires left { self.old.left ≤ numbers.now.left }
        requires few { count ≤ self.old.left }
        requires seen { numbers.now.width * count ≤ 56 }
        ensures left { self.new.left ≡ self.old.left - count }
        ensures most { max self.new.greatest (greatest (elements_from numbers.now.width numbers.now.place self.new.left numbers.now.bytes.now)) ≡ max self.old.greatest (greatest (elements_from numbers.now.width numbers.now.place self.old.left numbers.now.bytes.now)) }
        ensures all { min (self.new.total + sum (elements_from numbers.now.width numbers.now.place self.new.left numbers.now.bytes.now)) (2 ^ 32 - 1) ≡ min (self.old.total + sum (elements_from numbers.now.width numbers.now.place self.old.left numbers.now.bytes.now)) (2 ^ 32 - 1) }
    {
        let end = numbers.place + u64::from(numbers.width) * u64::from(self.left);
        let mut window = bits_before(numbers.bytes, end, MOST_SEEN);
        let mut found = *self;
        let mut todo = count;
        while todo > 0 {
            let number = field_of(window, 0, numbers.width);
            window >>= numbers.width;
            found = found.with(number);
            todo -= 1;
        }
        *self = found;
    }

    /// The same with the last number, which is this one.
    #[inline(always)]
    fn with(&self, number: u32) -> Totals
        requires { 0 < self.now.left }
        ensures left { result.left ≡ self.now.left - 1 }
        ensures greatest { result.greatest ≡ max self.now.greatest number }
        ensures total { result.total ≡ min (self.now.total + number) (2 ^ 32 - 1) }
    {
        Totals {
            left: self.left - 1,
            greatest: self.greatest.max(number),
            total: self.total.saturating_add(number),
        }
    }
}
