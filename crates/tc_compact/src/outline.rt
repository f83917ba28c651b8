//! The tags and the slots of a record with numbers, read without its other columns.

ghost use Rattle.std.specs.Prelude.{◌≡◌, ◌∷◌, ◌++◌, ℕ, List, [], IfNone, IsTrue, false, length, take, option_to_list};
ghost use Rattle.tc_record.specs.Borrowed.{numbered_tokens};
ghost use Rattle.tc_record.specs.Preorder.{tokens_of};
ghost use Rattle.tc_record.specs.Record.{NumberedTree};

use std::marker::Model;
use tc_bytes::u8_at;
use tc_record::{Column, RecordRef};

/// The tags of what a token opens or closes.
pub(crate) const ARRAY_TAG: u8 = 5;

pub(crate) const OBJECT_TAG: u8 = 6;

pub(crate) const CLOSE_TAG: u8 = 7;

/// What is left of the tags and the slots of a record with numbers. Contracts see the tags as bytes, and the numbers.
#[derive(Drop)]
pub(crate) struct Outline<'a> {
    tags: &'a [u8],
    slots: Column<'a>,
}

impl<'a> Model for Outline<'a> {
    ghost use Rattle.tc_compact.specs.Outline.{OutlineState};

    ghost Value = { OutlineState };

    ghost view = { λ o. record { tags = o.tags.now; slots = o.slots } };
}

impl<'a> Outline<'a> {
    ghost use Rattle.tc_compact.specs.Outline.{IsOutlineOf};

    /// The tags and the slots of a record without names.
    pub(crate) fn of(from: &RecordRef<'a>) -> Outline<'a>
        ensures { (n : NumberedTree) → from.now.tokens ≡ numbered_tokens n → IsOutlineOf (tokens_of n) result }
    {
        Outline {
            tags: from.tags(),
            slots: from.slots(),
        }
    }

    /// The next tag, or `None` at the end.
    #[inline(always)]
    pub(crate) fn tag(&mut self) -> Option<u8>
        ensures taken { self.old.tags ≡ option_to_list result ++ self.new.tags }
        ensures end { IfNone result (self.old.tags ≡ []) }
        ensures slots { self.new.slots ≡ self.old.slots }
    {
        let (tag, rest) = u8_at(self.tags)?;
        self.tags = rest;
        Some(tag)
    }

    /// The next number, or 0 where none is left.
    #[inline(always)]
    pub(crate) fn number(&mut self) -> u32
        ensures taken { (number : ℕ) (rest : List ℕ) → self.old.slots ≡ number ∷ rest → (result ≡ number) × (self.new.slots ≡ rest) }
        ensures tags { self.new.tags ≡ self.old.tags }
    {
        match self.slots.next() {
            Some(number) => number,
            None => 0,
        }
    }

    /// What is left of the tags.
    #[inline(always)]
    pub(crate) fn tags_left(&self) -> &'a [u8]
        ensures { result.now ≡ self.now.tags }
    {
        self.tags
    }

    /// What is left of the numbers.
    #[inline(always)]
    pub(crate) fn numbers_left(&self) -> Column<'a>
        ensures { result ≡ self.now.slots }
    {
        self.slots.again()
    }

    /// How many numbers are left.
    #[inline(always)]
    pub(crate) fn count_left(&self) -> u32
        ensures { result ≡ length self.now.slots }
    {
        self.slots.len()
    }

    /// Whether an object stands next that has these tags behind its first one, and so many numbers that are those of a column.
    /// If so, it is passed.
    #[inline(always)]
    pub(crate) fn skips_alike(&mut self, tags: &[u8], numbers: &Column<'_>, count: u32) -> bool
        ensures tags { IsTrue result → self.old.tags ≡ 6 ∷ (tags.now ++ self.new.tags) }
        ensures slots { IsTrue result → self.old.slots ≡ take count numbers.now ++ self.new.slots }
        ensures stays { result ≡ false → self.new ≡ self.old }
    {
        let Some((tag, behind)) = u8_at(self.tags) else {
            return false;
        };
        if tag != OBJECT_TAG {
            return false;
        }
        let Some(rest) = behind.strip_prefix(tags) else {
            return false;
        };
        if !self.slots.begins_like(numbers, count) {
            return false;
        }
        self.tags = rest;
        self.slots.pass(count);
        true
    }
}
