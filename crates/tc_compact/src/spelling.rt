//! Whether a record spells a document, seen by the tags and the slots alone.

ghost use Rattle.std.specs.Prelude.{◌≡◌, ◌≤◌, ◌∷◌, ◌++◌, ℕ, List, None, IsTrue, false, length};
ghost use Rattle.tc_model.specs.Tree.{Items, Members};
ghost use Rattle.tc_model.specs.Document.{Document, Scalar};
ghost use Rattle.tc_record.specs.Preorder.{Token as TreeToken, token, closed, tokens_of, items_preorder, members_preorder};
ghost use Rattle.tc_record.specs.Record.{NumberedTree, piece_tag};
ghost use Rattle.tc_compact.specs.Meant.{IsRecordUnder};
ghost use Rattle.tc_compact.specs.Outline.{IsOutlineOf, IsBehindOrdered, first_piece, behind_first, is_ordered, are_items_ordered, are_members_ordered};

use crate::dictionary::is_dictionary;
use crate::meaning::name_meant;
use crate::order::is_above;
use crate::outline::{ARRAY_TAG, CLOSE_TAG, OBJECT_TAG, Outline};
use crate::sizing::has_room;
use tc_names::Names;
use tc_record::RecordRef;

/// Whether a record of any form spells a document under a dictionary. One of form 0 does. Another does not exactly
/// where a number has no name, the names of an object do not ascend, or the record of form 0 would have 4,294,967,296 bytes
/// or more. Takes no memory.
pub fn spells_document(of: RecordRef<'_>, names: &Names) -> bool
    ensures found { IsTrue result → (d : Document) × IsRecordUnder names.now d of.entry.bytes }
    ensures none { result ≡ false → (d : Document) → IsRecordUnder names.now d of.entry.bytes → ⊥ }
{
    is_dictionary(names);
    let _bytes = of.bytes();
    if of.named() {
        return true;
    }
    if !has_room(&of, names) {
        return false;
    }
    passes_all(Outline::of(&of), names)
}

/// Whether the names ascend in each object of a tree.
fn passes_all(outline: Outline<'_>, names: &Names) -> bool
    ensures { (n : NumberedTree) → IsOutlineOf (tokens_of n) outline.entry → result ≡ is_ordered names.now n }
{
    let mut left = outline;
    match left.tag() {
        None => true,
        Some(tag) => passes_value(&mut left, tag, names),
    }
}

/// Whether the names ascend in each object of the value whose first tag was taken. If they do, the outline stands behind it.
// built into the loops over items and members: most values are scalars, for which a call costs more than what is done
#[cycle(spelling)]
#[inline(always)]
fn passes_value(outline: &mut Outline<'_>, tag: u8, names: &Names) -> bool
    ensures passes { (t : NumberedTree) (more : List (TreeToken ℕ Scalar)) → tag ≡ piece_tag (first_piece t) → IsOutlineOf (behind_first t more) outline.old → result ≡ is_ordered names.now t }
    ensures behind { (t : NumberedTree) (more : List (TreeToken ℕ Scalar)) → tag ≡ piece_tag (first_piece t) → IsOutlineOf (behind_first t more) outline.old → IsTrue result → IsOutlineOf more outline.new }
    ensures shorter { length outline.new.tags ≤ length outline.old.tags }
{
    if tag == ARRAY_TAG {
        passes_items(outline, names)
    } else if tag == OBJECT_TAG {
        passes_members(outline, names)
    } else {
        true
    }
}

/// Whether the names ascend in each object up to the close of an array.
#[cycle(spelling)]
fn passes_items(outline: &mut Outline<'_>, names: &Names) -> bool
    ensures passes { (xs : Items ℕ Scalar) (more : List (TreeToken ℕ Scalar)) → IsOutlineOf (items_preorder xs ++ token None closed ∷ more) outline.old → result ≡ are_items_ordered names.now xs }
    ensures behind { (xs : Items ℕ Scalar) (more : List (TreeToken ℕ Scalar)) → IsOutlineOf (items_preorder xs ++ token None closed ∷ more) outline.old → IsTrue result → IsOutlineOf more outline.new }
    ensures shorter { length outline.new.tags ≤ length outline.old.tags }
{
    let mut before = CLOSE_TAG;
    while let Some(tag) = outline.tag() {
        if tag == CLOSE_TAG {
            return true;
        }
        if !passes_item(outline, tag, before, names) {
            return false;
        }
        before = tag;
    }
    true
}

/// Whether the names ascend in each object of the item whose first tag was taken, behind an item with the tag `before`. If they do,
/// the outline stands behind it, or behind some that follow and pass too.
#[cycle(spelling)]
#[inline(always)]
fn passes_item(outline: &mut Outline<'_>, tag: u8, before: u8, names: &Names) -> bool
    ensures passes { (t : NumberedTree) (more : List (TreeToken ℕ Scalar)) → tag ≡ piece_tag (first_piece t) → IsOutlineOf (behind_first t more) outline.old → result ≡ is_ordered names.now t }
    ensures behind { (t : NumberedTree) (xs : Items ℕ Scalar) (more : List (TreeToken ℕ Scalar)) → tag ≡ piece_tag (first_piece t) → IsOutlineOf (behind_first t (items_preorder xs ++ token None closed ∷ more)) outline.old → IsTrue result → IsBehindOrdered names.now xs more outline.new }
    ensures shorter { length outline.new.tags ≤ length outline.old.tags }
{
    // to remember an object costs something, and pays where several follow one another
    if tag == OBJECT_TAG && before == OBJECT_TAG {
        passes_rows(outline, names)
    } else {
        passes_value(outline, tag, names)
    }
}

/// Whether the names ascend, up to the close of an object that is an item, and in each object there. If they do, those behind it
/// with the same tags and numbers are passed with it, unread: theirs ascend too.
#[cycle(spelling)]
fn passes_rows(outline: &mut Outline<'_>, names: &Names) -> bool
    ensures passes { (ms : Members ℕ Scalar) (more : List (TreeToken ℕ Scalar)) → IsOutlineOf (members_preorder ms ++ token None closed ∷ more) outline.old → result ≡ are_members_ordered names.now None ms }
    ensures behind { (ms : Members ℕ Scalar) (xs : Items ℕ Scalar) (more : List (TreeToken ℕ Scalar)) → IsOutlineOf (members_preorder ms ++ token None closed ∷ (items_preorder xs ++ token None closed ∷ more)) outline.old → IsTrue result → IsBehindOrdered names.now xs more outline.new }
    ensures shorter { length outline.new.tags ≤ length outline.old.tags }
{
    let tags = outline.tags_left();
    let numbers = outline.numbers_left();
    let many = outline.count_left();
    if !passes_members(outline, names) {
        return false;
    }
    let row = &tags[..tags.len() - outline.tags_left().len()];
    let count = many.saturating_sub(outline.count_left());
    while outline.skips_alike(row, &numbers, count) {}
    true
}

/// Whether the names ascend, up to the close of their object and in each object there.
#[cycle(spelling)]
fn passes_members(outline: &mut Outline<'_>, names: &Names) -> bool
    ensures passes { (ms : Members ℕ Scalar) (more : List (TreeToken ℕ Scalar)) → IsOutlineOf (members_preorder ms ++ token None closed ∷ more) outline.old → result ≡ are_members_ordered names.now None ms }
    ensures behind { (ms : Members ℕ Scalar) (more : List (TreeToken ℕ Scalar)) → IsOutlineOf (members_preorder ms ++ token None closed ∷ more) outline.old → IsTrue result → IsOutlineOf more outline.new }
    ensures shorter { length outline.new.tags ≤ length outline.old.tags }
{
    let mut last = None;
    while let Some(tag) = outline.tag() {
        if tag == CLOSE_TAG {
            return true;
        }
        let name = name_meant(names, outline.number());
        if !is_above(last, name) {
            return false;
        }
        last = Some(name);
        if !passes_value(outline, tag, names) {
            return false;
        }
    }
    true
}
