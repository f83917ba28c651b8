//! A record counted at a place by one walk over its tokens that learns its names. Each call errs only for want of memory.

ghost use Rattle.std.specs.Prelude.{◌≡◌, ◌≤◌, ◌<◌, ◌+◌, ◌^◌, ◌++◌, ◌∷◌, OnOk, length, map};
ghost use Rattle.tc_model.specs.Dictionary.{all_learned, number};
ghost use Rattle.tc_model.specs.ShapeNames.{names_within, names_of_items, names_of_members};
ghost use Rattle.tc_record.specs.Record.{joined};
ghost use Rattle.tc_schema_model.specs.Counted.{held, an_item, field_at, IsCanonical, IsBelowCanonical, AreFieldsCanonical};
ghost use Rattle.tc_schema_model.specs.Added.{added, items_added, members_added, member_added};
ghost use Rattle.tc_schema_model.specs.Room.{DoesFit, DoFieldsFit};
ghost use Rattle.tc_value.specs.Kinds.{kind_meant};
ghost use Rattle.tc_schema.specs.Places.{place_counted, below_counted, fields_counted};
ghost use Rattle.tc_infer.specs.Levels.{begun, behind, innermost, outside, without_names, levels};

use crate::guessing::place_learned;
use crate::met::Met;
use crate::tokens::{kind_begun, name_in};
use std::alloc::Global;
use tc_bytes::Memory;
use tc_names::Names;
use tc_record::Cursor;
use tc_schema::{Field, Node};
use tc_value::Kind;

/// Counts the value whose token was taken at a place. After `Ok` the cursor stands behind the value.
// built into the two loops below, which take a call for each array and each object: most values are scalars, and a call
// for each of those costs more than to count it
#[inline(always)]
#[cycle(numbering)]
pub fn learn_value(
    cursor: &mut Cursor<'_>,
    kind: Kind,
    names: &mut Names,
    met: &mut Met,
    place: &mut Node,
    alloc: Global,
) -> Result<(), Memory>
    requires canonical { IsCanonical (length names.old) (place_counted place.old) }
    requires fits { DoesFit (all_learned names.old (names_within (begun (kind_meant kind) (levels cursor.old)))) (added (all_learned names.old (names_within (begun (kind_meant kind) (levels cursor.old)))) (begun (kind_meant kind) (levels cursor.old)) (place_counted place.old)) }
    requires room { length (all_learned names.old (names_within (begun (kind_meant kind) (levels cursor.old)))) < 2 ^ 32 }
    requires short { met.old.name_bytes + length (joined (names_within (begun (kind_meant kind) (levels cursor.old)))) < 2 ^ 32 }
    ensures learned { OnOk result (names.new ≡ all_learned names.old (names_within (begun (kind_meant kind) (levels cursor.old)))) }
    ensures counted { OnOk result (place_counted place.new ≡ added names.new (begun (kind_meant kind) (levels cursor.old)) (place_counted place.old)) }
    ensures numbers { OnOk result (met.new.numbers.items ≡ met.old.numbers.items ++ map (number names.new) (names_within (begun (kind_meant kind) (levels cursor.old)))) }
    ensures bytes { OnOk result (met.new.name_bytes ≡ met.old.name_bytes + length (joined (names_within (begun (kind_meant kind) (levels cursor.old))))) }
    ensures behind { OnOk result (levels cursor.new ≡ behind (kind_meant kind) (levels cursor.old)) }
    ensures shorter { length cursor.new ≤ length cursor.old }
{
    place.counts.raise(kind, 1);
    match kind {
        Kind::Array => learn_items(cursor, names, met, &mut place.item, alloc),
        Kind::Object => learn_members(cursor, names, met, &mut place.fields, alloc),
        _ => Ok(()),
    }
}

#[inline(never)]
#[cycle(numbering)]
fn learn_items(
    cursor: &mut Cursor<'_>,
    names: &mut Names,
    met: &mut Met,
    below: &mut Option<Box<Node>>,
    alloc: Global,
) -> Result<(), Memory>
    requires canonical { IsBelowCanonical (length names.old) (below_counted below.old) }
    requires fits { DoesFit (all_learned names.old (names_of_items (without_names (innermost (levels cursor.old))))) (held (items_added (all_learned names.old (names_of_items (without_names (innermost (levels cursor.old))))) (without_names (innermost (levels cursor.old))) (below_counted below.old))) }
    requires room { length (all_learned names.old (names_of_items (without_names (innermost (levels cursor.old))))) < 2 ^ 32 }
    requires short { met.old.name_bytes + length (joined (names_of_items (without_names (innermost (levels cursor.old))))) < 2 ^ 32 }
    ensures learned { OnOk result (names.new ≡ all_learned names.old (names_of_items (without_names (innermost (levels cursor.old))))) }
    ensures counted { OnOk result (below_counted below.new ≡ items_added names.new (without_names (innermost (levels cursor.old))) (below_counted below.old)) }
    ensures numbers { OnOk result (met.new.numbers.items ≡ met.old.numbers.items ++ map (number names.new) (names_of_items (without_names (innermost (levels cursor.old))))) }
    ensures bytes { OnOk result (met.new.name_bytes ≡ met.old.name_bytes + length (joined (names_of_items (without_names (innermost (levels cursor.old)))))) }
    ensures behind { OnOk result (levels cursor.new ≡ outside (levels cursor.old)) }
    ensures shorter { length cursor.new ≤ length cursor.old }
{
    while let Some(token) = cursor.next() {
        match kind_begun(token.value) {
            None => return Ok(()),
            Some(kind) => learn_item(cursor, kind, names, met, below, alloc)?,
        }
    }
    Ok(())
}

#[cycle(numbering)]
fn learn_item(
    cursor: &mut Cursor<'_>,
    kind: Kind,
    names: &mut Names,
    met: &mut Met,
    below: &mut Option<Box<Node>>,
    alloc: Global,
) -> Result<(), Memory>
    requires canonical { IsBelowCanonical (length names.old) (below_counted below.old) }
    requires fits { DoesFit (all_learned names.old (names_within (begun (kind_meant kind) (levels cursor.old)))) (added (all_learned names.old (names_within (begun (kind_meant kind) (levels cursor.old)))) (begun (kind_meant kind) (levels cursor.old)) (held (below_counted below.old))) }
    requires room { length (all_learned names.old (names_within (begun (kind_meant kind) (levels cursor.old)))) < 2 ^ 32 }
    requires short { met.old.name_bytes + length (joined (names_within (begun (kind_meant kind) (levels cursor.old)))) < 2 ^ 32 }
    ensures learned { OnOk result (names.new ≡ all_learned names.old (names_within (begun (kind_meant kind) (levels cursor.old)))) }
    ensures counted { OnOk result (below_counted below.new ≡ an_item (added names.new (begun (kind_meant kind) (levels cursor.old)) (held (below_counted below.old)))) }
    ensures numbers { OnOk result (met.new.numbers.items ≡ met.old.numbers.items ++ map (number names.new) (names_within (begun (kind_meant kind) (levels cursor.old)))) }
    ensures bytes { OnOk result (met.new.name_bytes ≡ met.old.name_bytes + length (joined (names_within (begun (kind_meant kind) (levels cursor.old))))) }
    ensures behind { OnOk result (levels cursor.new ≡ behind (kind_meant kind) (levels cursor.old)) }
    ensures shorter { length cursor.new ≤ length cursor.old }
{
    match below {
        Some(place) => learn_value(cursor, kind, names, met, place, alloc),
        None => {
            let mut place = Box::new(alloc, Node::new(alloc))?;
            learn_value(cursor, kind, names, met, &mut place, alloc)?;
            *below = Some(place);
            Ok(())
        }
    }
}

#[inline(never)]
#[cycle(numbering)]
fn learn_members(
    cursor: &mut Cursor<'_>,
    names: &mut Names,
    met: &mut Met,
    fields: &mut Vec<Field>,
    alloc: Global,
) -> Result<(), Memory>
    requires canonical { AreFieldsCanonical (length names.old) 0 (fields_counted fields.old.items) }
    requires fits { DoFieldsFit (all_learned names.old (names_of_members (innermost (levels cursor.old)))) (members_added (all_learned names.old (names_of_members (innermost (levels cursor.old)))) (innermost (levels cursor.old)) (fields_counted fields.old.items)) }
    requires room { length (all_learned names.old (names_of_members (innermost (levels cursor.old)))) < 2 ^ 32 }
    requires short { met.old.name_bytes + length (joined (names_of_members (innermost (levels cursor.old)))) < 2 ^ 32 }
    ensures learned { OnOk result (names.new ≡ all_learned names.old (names_of_members (innermost (levels cursor.old)))) }
    ensures counted { OnOk result (fields_counted fields.new.items ≡ members_added names.new (innermost (levels cursor.old)) (fields_counted fields.old.items)) }
    ensures numbers { OnOk result (met.new.numbers.items ≡ met.old.numbers.items ++ map (number names.new) (names_of_members (innermost (levels cursor.old)))) }
    ensures bytes { OnOk result (met.new.name_bytes ≡ met.old.name_bytes + length (joined (names_of_members (innermost (levels cursor.old))))) }
    ensures behind { OnOk result (levels cursor.new ≡ outside (levels cursor.old)) }
    ensures shorter { length cursor.new ≤ length cursor.old }
{
    let mut guess = 0;
    while let Some(token) = cursor.next() {
        match kind_begun(token.value) {
            None => return Ok(()),
            Some(kind) => {
                let name = name_in(token.label);
                let at = learn_member(cursor, name, guess, kind, names, met, fields, alloc)?;
                // the fields of documents of one kind mostly follow each other
                guess = at.wrapping_add(1);
            }
        }
    }
    Ok(())
}

/// Learns and counts a member whose name was taken, and answers where its field stands, by a guess at that.
#[cycle(numbering)]
fn learn_member(
    cursor: &mut Cursor<'_>,
    name: &str,
    guess: usize,
    kind: Kind,
    names: &mut Names,
    met: &mut Met,
    fields: &mut Vec<Field>,
    alloc: Global,
) -> Result<usize, Memory>
    requires canonical { AreFieldsCanonical (length names.old) 0 (fields_counted fields.old.items) }
    requires fits { DoesFit (all_learned names.old (name.now ∷ names_within (begun (kind_meant kind) (levels cursor.old)))) (added (all_learned names.old (name.now ∷ names_within (begun (kind_meant kind) (levels cursor.old)))) (begun (kind_meant kind) (levels cursor.old)) (field_at (number (all_learned names.old (name.now ∷ names_within (begun (kind_meant kind) (levels cursor.old)))) name.now) (fields_counted fields.old.items))) }
    requires room { length (all_learned names.old (name.now ∷ names_within (begun (kind_meant kind) (levels cursor.old)))) < 2 ^ 32 }
    requires short { met.old.name_bytes + length (joined (name.now ∷ names_within (begun (kind_meant kind) (levels cursor.old)))) < 2 ^ 32 }
    ensures learned { OnOk result (names.new ≡ all_learned names.old (name.now ∷ names_within (begun (kind_meant kind) (levels cursor.old)))) }
    ensures counted { OnOk result (fields_counted fields.new.items ≡ member_added names.new (name.now, begun (kind_meant kind) (levels cursor.old)) (fields_counted fields.old.items)) }
    ensures numbers { OnOk result (met.new.numbers.items ≡ met.old.numbers.items ++ map (number names.new) (name.now ∷ names_within (begun (kind_meant kind) (levels cursor.old)))) }
    ensures bytes { OnOk result (met.new.name_bytes ≡ met.old.name_bytes + length (joined (name.now ∷ names_within (begun (kind_meant kind) (levels cursor.old))))) }
    ensures behind { OnOk result (levels cursor.new ≡ behind (kind_meant kind) (levels cursor.old)) }
    ensures shorter { length cursor.new ≤ length cursor.old }
{
    let at = place_learned(name, guess, names, fields, alloc)?;
    met.take(fields[at].number, name)?;
    learn_value(cursor, kind, names, met, &mut fields[at].node, alloc)?;
    Ok(at)
}
