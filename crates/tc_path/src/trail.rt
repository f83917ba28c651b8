//! A walk over the tags and the numbers of a record whose members carry numbers, which counts what it passes of the other columns.

ghost use Rattle.std.specs.Prelude.{◌≡◌, ◌≤◌, ◌∷◌, ◌++◌, ◌+◌, ◌*◌, ◌^◌, ℕ, List, [], None, IfNone, OnSome, length, option_to_list};
ghost use Rattle.tc_model.specs.Document.{Scalar};
ghost use Rattle.tc_model.specs.Tree.{Items, Members};
ghost use Rattle.tc_record.specs.Borrowed.{numbered_tokens};
ghost use Rattle.tc_record.specs.Preorder.{Token as TreeToken, token, closed, tokens_of, items_preorder, members_preorder};
ghost use Rattle.tc_record.specs.Record.{NumberedTree};
ghost use Rattle.tc_path.specs.Leads.{kinds_in, items_kinds, members_kinds, texts_in, items_texts, members_texts, fixed_in, items_fixed, members_fixed, spot as a_spot};
ghost use Rattle.tc_path.specs.Trails.{HasRoom, IsTrailOf, IsTaken, Passes};

use crate::leading::Spot;
use std::marker::Model;
use tc_bytes::u8_at;
use tc_record::{Column, RecordRef};

pub(crate) const NULL_TAG: u8 = 1;

pub(crate) const BOOLEAN_TAG: u8 = 2;

pub(crate) const INTEGER_TAG: u8 = 3;

pub(crate) const TEXT_TAG: u8 = 4;

pub(crate) const ARRAY_TAG: u8 = 5;

pub(crate) const OBJECT_TAG: u8 = 6;

pub(crate) const CLOSE_TAG: u8 = 7;

/// What is left of the tags and the numbers of a record, and how many texts and fixed bytes were passed. Contracts see the tags as
/// bytes.
#[derive(Drop)]
pub(crate) struct Trail<'a> {
    tags: &'a [u8],
    slots: Column<'a>,
    texts: usize,
    fixed: usize,
}

impl<'a> Model for Trail<'a> {
    ghost use Rattle.std.specs.Prelude.{◌≤◌, ◌+◌, ◌*◌, ◌^◌, length};
    ghost use Rattle.tc_path.specs.Trails.{TrailState};

    ghost Value = { TrailState };

    ghost view = { λ t. record { tags = t.tags.now; slots = t.slots; texts = t.texts; fixed = t.fixed } };

    // so that the counts do not end
    ghost invariant = { λ t. (t.texts + length t.tags.now ≤ 2 ^ 32) × (t.fixed + 8 * length t.tags.now ≤ 2 ^ 35) };
}

impl<'a> Trail<'a> {
    ghost use Rattle.tc_path.specs.Trails.{HasRoom, IsTrailOf};

    /// A walk that has passed nothing of a record without names.
    pub(crate) fn of(from: &RecordRef<'a>) -> Trail<'a>
        ensures trail { (n : NumberedTree) → from.now.tokens ≡ numbered_tokens n → IsTrailOf (tokens_of n) result }
        ensures texts { result.texts ≡ 0 }
        ensures fixed { result.fixed ≡ 0 }
    {
        let _few = from.token_count();
        Trail {
            tags: from.tags(),
            slots: from.slots(),
            texts: 0,
            fixed: 0,
        }
    }

    /// The next tag, or `None` at the end.
    #[inline(always)]
    pub(crate) fn tag(&mut self) -> Option<u8>
        ensures taken { self.old.tags ≡ option_to_list result ++ self.new.tags }
        ensures end { IfNone result (self.old.tags ≡ []) }
        ensures room { OnSome result (HasRoom self.new) }
        ensures slots { self.new.slots ≡ self.old.slots }
        ensures texts { self.new.texts ≡ self.old.texts }
        ensures fixed { self.new.fixed ≡ self.old.fixed }
    {
        let (tag, rest) = u8_at(self.tags)?;
        self.tags = rest;
        Some(tag)
    }

    /// The next number, or 0 where none is left.
    #[inline(always)]
    pub(crate) fn number(&mut self) -> u32
        ensures taken { (number : ℕ) (rest : List ℕ) → self.old.slots ≡ number ∷ rest → (result ≡ number) × (self.new.slots ≡ rest) }
        ensures tags { self.new.tags ≡ self.old.tags }
        ensures texts { self.new.texts ≡ self.old.texts }
        ensures fixed { self.new.fixed ≡ self.old.fixed }
    {
        match self.slots.next() {
            Some(number) => number,
            None => 0,
        }
    }

    /// Where a value of this tag stands, if it is the next one.
    #[inline(always)]
    pub(crate) fn spot(&self, tag: u8) -> Spot
        ensures { result ≡ a_spot tag self.now.texts self.now.fixed }
    {
        Spot {
            tag,
            texts: self.texts,
            fixed: self.fixed,
        }
    }
}

/// Passes the value whose first tag was taken.
// built into the loops: most values are scalars, for which a call costs more than what is done
#[cycle(passing)]
#[inline(always)]
pub(crate) fn pass_value(trail: &mut Trail<'_>, tag: u8)
    requires { HasRoom trail.old }
    ensures passes { (n : NumberedTree) (more : List (TreeToken ℕ Scalar)) → IsTaken tag (tokens_of n ++ more) trail.old → Passes more (texts_in (kinds_in n)) (fixed_in (kinds_in n)) trail.old trail.new }
    ensures shorter { length trail.new.tags ≤ length trail.old.tags }
{
    if tag == TEXT_TAG {
        trail.texts += 1;
    } else if tag == INTEGER_TAG {
        trail.fixed += 8;
    } else if tag == BOOLEAN_TAG {
        trail.fixed += 1;
    } else if tag == ARRAY_TAG {
        pass_items(trail);
    } else if tag == OBJECT_TAG {
        pass_members(trail);
    }
}

/// Passes what an array holds, and its close.
#[cycle(passing)]
fn pass_items(trail: &mut Trail<'_>)
    ensures passes { (xs : Items ℕ Scalar) (more : List (TreeToken ℕ Scalar)) → IsTrailOf (items_preorder xs ++ token None closed ∷ more) trail.old → Passes more (items_texts (items_kinds xs)) (items_fixed (items_kinds xs)) trail.old trail.new }
    ensures shorter { length trail.new.tags ≤ length trail.old.tags }
{
    while let Some(tag) = trail.tag() {
        if tag == CLOSE_TAG {
            return;
        }
        pass_value(trail, tag);
    }
}

/// Passes what an object holds, and its close.
#[cycle(passing)]
fn pass_members(trail: &mut Trail<'_>)
    ensures passes { (ms : Members ℕ Scalar) (more : List (TreeToken ℕ Scalar)) → IsTrailOf (members_preorder ms ++ token None closed ∷ more) trail.old → Passes more (members_texts (members_kinds ms)) (members_fixed (members_kinds ms)) trail.old trail.new }
    ensures shorter { length trail.new.tags ≤ length trail.old.tags }
{
    while let Some(tag) = trail.tag() {
        if tag == CLOSE_TAG {
            return;
        }
        let _number = trail.number();
        pass_value(trail, tag);
    }
}
