//! What the slots of a record under a dictionary add up to.

ghost use Rattle.std.specs.Prelude.{◌≡◌, ◌+◌, ◌<◌, ◌^◌, length, map, max};
ghost use Rattle.tc_record.specs.Record.{greatest as greatest_of, joined, in_bytes};
ghost use Rattle.tc_record.specs.Sections.{least_width};
ghost use Rattle.tc_record.specs.Widths.{width_bytes};
ghost use Rattle.tc_compact.specs.Slots.{numbers_in};
ghost use Rattle.tc_compact.specs.Meant.{name_at};

use crate::meaning::name_meant;
use tc_names::Names;
use tc_record::{Label, RecordRef, Width};

/// How many slots there are, the greatest of them, and how many bytes the names have together.
#[derive(Clone, Copy)]
pub(crate) struct SlotSum {
    pub(crate) count: usize,
    pub(crate) greatest: usize,
    pub(crate) name_bytes: usize,
}

impl SlotSum {
    /// The least width that holds each slot.
    pub(crate) fn width(self) -> Width
        ensures { width_bytes result ≡ least_width in_bytes self.count self.greatest }
    {
        if self.count == 0 {
            Width::Zero
        } else {
            Width::holding(self.greatest as u64)
        }
    }

    /// One slot more.
    fn with(self, slot: usize, name_len: usize) -> SlotSum
        requires count { self.count + 1 < 2 ^ 64 }
        requires bytes { self.name_bytes + name_len < 2 ^ 64 }
        ensures count { result.count ≡ self.count + 1 }
        ensures greatest { result.greatest ≡ max self.greatest slot }
        ensures bytes { result.name_bytes ≡ self.name_bytes + name_len }
    {
        SlotSum {
            count: self.count + 1,
            greatest: slot.max(self.greatest),
            name_bytes: self.name_bytes + name_len,
        }
    }
}

/// The lengths of the names of a record's numbers, added up. Takes no memory.
pub(crate) fn sum_of_names(from: &RecordRef<'_>, names: &Names) -> SlotSum
    requires few { length (numbers_in from.now.tokens) < 2 ^ 32 }
    requires short { length (joined (map (name_at names.now) (numbers_in from.now.tokens))) < 2 ^ 64 }
    ensures count { result.count ≡ length (numbers_in from.now.tokens) }
    ensures greatest { result.greatest ≡ greatest_of (map length (map (name_at names.now) (numbers_in from.now.tokens))) }
    ensures bytes { result.name_bytes ≡ length (joined (map (name_at names.now) (numbers_in from.now.tokens))) }
{
    let mut cursor = from.cursor();
    let mut sum = SlotSum {
        count: 0,
        greatest: 0,
        name_bytes: 0,
    };
    while let Some(token) = cursor.next() {
        if let Label::Number(number) = token.label {
            let len = name_meant(names, number).len();
            sum = sum.with(len, len);
        }
    }
    sum
}
