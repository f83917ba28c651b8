//! The numbers of a column, read one by one.

ghost use Rattle.std.specs.Prelude.{◌≡◌, ◌≤◌, ◌<◌, ◌+◌, ◌-◌, ◌*◌, ◌^◌, ◌==◌, IsTrue, drop, take, length, option_map, if◌then◌else◌};
ghost use Rattle.tc_bits.specs.Bits.{IsAligned};
ghost use Rattle.tc_record.specs.Walk.{number_next};
ghost use Rattle.tc_record.specs.NumbersLeft.{elements_from, HasWidth, IsSeen};

use tc_bits::{number_from, window_before};

/// How many bits are seen at least by one look at eight bytes, wherever they begin.
pub(crate) const MOST_SEEN: u64 = 56;

/// Numbers of so many bits each, from a place in the bytes of a record on. After a header there are always eight bytes to look
/// back at.
#[derive(Clone, Copy)]
pub(crate) struct Numbers<'a> {
    pub(crate) bytes: &'a [u8],
    pub(crate) width: u8,
    pub(crate) place: u64,
    pub(crate) left: u32,
    ghost few: { length bytes.now < 2 ^ 32 },
    ghost headed: { 64 ≤ place },
    ghost room: { place + width * left ≤ 8 * length bytes.now },
    ghost most: { width ≤ 32 },
    ghost some: { HasWidth width left },
    ghost aligned: { IsAligned width place },
}

impl<'a> Numbers<'a> {
    /// The next number, or `None` where none is left.
    #[inline(always)]
    pub(crate) fn next(&mut self) -> Option<u32>
        ensures { option_map (λ n. (n, elements_from self.new.width self.new.place self.new.left self.new.bytes.now)) result ≡ number_next (elements_from self.old.width self.old.place self.old.left self.old.bytes.now) }
    {
        if self.left == 0 {
            return None;
        }
        let number = number_from(self.bytes, self.width, self.place);
        self.left -= 1;
        self.place += u64::from(self.width);
        Some(number)
    }

    /// Whether a number is left, which is passed and not read.
    #[inline(always)]
    pub(crate) fn passes(&mut self) -> bool
        ensures { option_map (λ n. n.1) (number_next (elements_from self.old.width self.old.place self.old.left self.old.bytes.now)) ≡ (if result then Some (elements_from self.new.width self.new.place self.new.left self.new.bytes.now) else None) }
    {
        if self.left == 0 {
            return false;
        }
        self.left -= 1;
        self.place += u64::from(self.width);
        true
    }

    /// Passes so many numbers, or all that are left.
    #[inline(always)]
    pub(crate) fn pass(&mut self, count: u32)
        ensures width { self.new.width ≡ self.old.width }
        ensures left { self.new.left ≡ self.old.left - count }
        ensures numbers { elements_from self.new.width self.new.place self.new.left self.new.bytes.now ≡ drop count (elements_from self.old.width self.old.place self.old.left self.old.bytes.now) }
    {
        let passed = count.min(self.left);
        *self = Numbers {
            bytes: self.bytes,
            width: self.width,
            place: self.place + u64::from(self.width) * u64::from(passed),
            left: self.left - passed,
        };
    }

    /// Whether so many numbers are left here and in others, and are the same. Those of another width are not compared.
    #[inline(always)]
    pub(crate) fn begin_like(&self, others: &Numbers<'_>, count: u32) -> bool
        ensures { IsTrue result → (count ≤ self.now.left) × (take count (elements_from self.now.width self.now.place self.now.left self.now.bytes.now) ≡ take count (elements_from others.now.width others.now.place others.now.left others.now.bytes.now)) }
    {
        if self.width != others.width || self.left < count || others.left < count {
            return false;
        }
        if u64::from(self.width) * u64::from(count) <= MOST_SEEN {
            self.are_like(others, count)
        } else {
            self.are_like_by_parts(others, count)
        }
    }

    /// Whether so many numbers are the same as others, where their bits are seen by one look each.
    #[inline(always)]
    fn are_like(&self, others: &Numbers<'_>, count: u32) -> bool
        requires width { self.now.width ≡ others.now.width }
        requires mine { count ≤ self.now.left }
        requires others { count ≤ others.now.left }
        requires seen { self.now.width * count ≤ 56 }
        ensures { IsTrue result → take count (elements_from self.now.width self.now.place self.now.left self.now.bytes.now) ≡ take count (elements_from others.now.width others.now.place others.now.left others.now.bytes.now) }
    {
        let bits = self.width as u64 * u64::from(count);
        bits_before(self.bytes, self.place + bits, bits)
            == bits_before(others.bytes, others.place + bits, bits)
    }

    /// The same of more numbers, some after the others.
    #[inline(never)]
    fn are_like_by_parts(&self, others: &Numbers<'_>, count: u32) -> bool
        requires width { self.now.width ≡ others.now.width }
        requires mine { count ≤ self.now.left }
        requires others { count ≤ others.now.left }
        ensures { IsTrue result → take count (elements_from self.now.width self.now.place self.now.left self.now.bytes.now) ≡ take count (elements_from others.now.width others.now.place others.now.left others.now.bytes.now) }
    {
        let seen = MOST_SEEN as u32 / u32::from(self.width).max(1);
        let (mut mine, mut theirs) = (*self, *others);
        let mut todo = count;
        while todo > 0 {
            let part = todo.min(seen);
            if !mine.are_like(&theirs, part) {
                return false;
            }
            mine.pass(part);
            theirs.pass(part);
            todo -= part;
        }
        true
    }

    /// The numbers before the last one.
    #[inline(always)]
    pub(crate) fn without_last(&self) -> Numbers<'a>
        requires { 0 < self.now.left }
        ensures bytes { result.bytes ≡ self.now.bytes }
        ensures width { result.width ≡ self.now.width }
        ensures place { result.place ≡ self.now.place }
        ensures left { result.left ≡ self.now.left - 1 }
    {
        Numbers {
            bytes: self.bytes,
            width: self.width,
            place: self.place,
            left: self.left - 1,
        }
    }

    /// Behind how many bits of the record the last one ends.
    #[inline(always)]
    pub(crate) fn end(&self) -> u64
        ensures { result ≡ self.now.place + self.now.width * self.now.left }
    {
        self.place + u64::from(self.width) * u64::from(self.left)
    }

    /// Whether none is left.
    #[inline(always)]
    pub(crate) fn is_empty(&self) -> bool
        ensures { result ≡ (length (elements_from self.now.width self.now.place self.now.left self.now.bytes.now) == 0) }
    {
        self.left == 0
    }
}

/// So many bits that end after so many in all, as a number: by one look at the eight bytes of which the last one has the last of
/// these bits.
#[inline(always)]
pub(crate) fn bits_before(bytes: &[u8], end: u64, bits: u64) -> u64
    requires long { 64 ≤ end }
    requires number { end < 2 ^ 60 }
    requires room { end ≤ 8 * length bytes.now }
    requires seen { bits ≤ 56 }
    ensures { IsSeen result bits end bytes.now }
{
    let whole = ((end + 7) / 8) as usize;
    let window = window_before(bytes, whole) >> (8 * whole as u64 - end);
    window & ((1u64 << bits) - 1)
}
