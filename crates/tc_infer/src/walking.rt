//! A record counted at a place by one walk over its tokens, where all names are known. Members carry their names or the
//! numbers of these. Each call errs only for want of memory, and takes none where each value has a counter already.

ghost use Rattle.std.specs.Prelude.{◌≡◌, ◌≤◌, ◌<◌, IsTrue, IsOk, OnOk, is_some, length, true};
ghost use Rattle.tc_model.specs.Dictionary.{number_of, number};
ghost use Rattle.tc_record.specs.WalkView.{key_of};
ghost use Rattle.tc_schema_model.specs.Counted.{held, an_item, field_at, IsCanonical, IsBelowCanonical, AreFieldsCanonical};
ghost use Rattle.tc_schema_model.specs.Added.{added, items_added, members_added, IsNamed, AreItemsNamed, AreMembersNamed, member_added};
ghost use Rattle.tc_schema_model.specs.HasCounters.{has_counters, items_have_counters, members_have_counters};
ghost use Rattle.tc_schema_model.specs.Room.{DoesFit, DoFieldsFit};
ghost use Rattle.tc_value.specs.Kinds.{kind_meant};
ghost use Rattle.tc_schema.specs.Places.{place_counted, below_counted, fields_counted};
ghost use Rattle.tc_infer.specs.Levels.{begun, behind, innermost, outside, without_names, levels_under, name_under};

use crate::guessing::place_of_label;
use crate::tokens::kind_begun;
use std::alloc::{AllocError, Global};
use tc_names::Names;
use tc_record::{Cursor, Label};
use tc_schema::{Field, Node};
use tc_value::Kind;

/// Counts the value whose token was taken at a place. After `Ok` the cursor stands behind the value.
#[cycle(walking)]
pub fn count_value(
    cursor: &mut Cursor<'_>,
    kind: Kind,
    names: &Names,
    place: &mut Node,
    alloc: Global,
) -> Result<(), AllocError>
    requires named { IsNamed names.now (begun (kind_meant kind) (levels_under names.now cursor.old)) }
    requires canonical { IsCanonical (length names.now) (place_counted place.old) }
    requires fits { DoesFit names.now (added names.now (begun (kind_meant kind) (levels_under names.now cursor.old)) (place_counted place.old)) }
    ensures counted { OnOk result (place_counted place.new ≡ added names.now (begun (kind_meant kind) (levels_under names.now cursor.old)) (place_counted place.old)) }
    ensures behind { OnOk result (levels_under names.now cursor.new ≡ behind (kind_meant kind) (levels_under names.now cursor.old)) }
    ensures shorter { length cursor.new ≤ length cursor.old }
    ensures sure { has_counters names.now (begun (kind_meant kind) (levels_under names.now cursor.old)) (place_counted place.old) ≡ true → IsOk result }
{
    place.counts.raise(kind, 1);
    match kind {
        Kind::Array => count_items(cursor, names, &mut place.item, alloc),
        Kind::Object => count_members(cursor, names, &mut place.fields, alloc),
        _ => Ok(()),
    }
}

#[cycle(walking)]
fn count_items(
    cursor: &mut Cursor<'_>,
    names: &Names,
    below: &mut Option<Box<Node>>,
    alloc: Global,
) -> Result<(), AllocError>
    requires named { AreItemsNamed names.now (without_names (innermost (levels_under names.now cursor.old))) }
    requires canonical { IsBelowCanonical (length names.now) (below_counted below.old) }
    requires fits { DoesFit names.now (held (items_added names.now (without_names (innermost (levels_under names.now cursor.old))) (below_counted below.old))) }
    ensures counted { OnOk result (below_counted below.new ≡ items_added names.now (without_names (innermost (levels_under names.now cursor.old))) (below_counted below.old)) }
    ensures behind { OnOk result (levels_under names.now cursor.new ≡ outside (levels_under names.now cursor.old)) }
    ensures shorter { length cursor.new ≤ length cursor.old }
    ensures sure { items_have_counters names.now (without_names (innermost (levels_under names.now cursor.old))) (below_counted below.old) ≡ true → IsOk result }
{
    while let Some(token) = cursor.next() {
        match kind_begun(token.value) {
            None => return Ok(()),
            Some(kind) => count_item(cursor, kind, names, below, alloc)?,
        }
    }
    Ok(())
}

#[cycle(walking)]
fn count_item(
    cursor: &mut Cursor<'_>,
    kind: Kind,
    names: &Names,
    below: &mut Option<Box<Node>>,
    alloc: Global,
) -> Result<(), AllocError>
    requires named { IsNamed names.now (begun (kind_meant kind) (levels_under names.now cursor.old)) }
    requires canonical { IsBelowCanonical (length names.now) (below_counted below.old) }
    requires fits { DoesFit names.now (added names.now (begun (kind_meant kind) (levels_under names.now cursor.old)) (held (below_counted below.old))) }
    ensures counted { OnOk result (below_counted below.new ≡ an_item (added names.now (begun (kind_meant kind) (levels_under names.now cursor.old)) (held (below_counted below.old)))) }
    ensures behind { OnOk result (levels_under names.now cursor.new ≡ behind (kind_meant kind) (levels_under names.now cursor.old)) }
    ensures shorter { length cursor.new ≤ length cursor.old }
    ensures sure { has_counters names.now (begun (kind_meant kind) (levels_under names.now cursor.old)) (held (below_counted below.old)) ≡ true → IsOk result }
{
    match below {
        Some(place) => count_value(cursor, kind, names, place, alloc),
        None => {
            let mut place = Box::new(alloc, Node::new(alloc))?;
            count_value(cursor, kind, names, &mut place, alloc)?;
            *below = Some(place);
            Ok(())
        }
    }
}

#[cycle(walking)]
fn count_members(
    cursor: &mut Cursor<'_>,
    names: &Names,
    fields: &mut Vec<Field>,
    alloc: Global,
) -> Result<(), AllocError>
    requires named { AreMembersNamed names.now (innermost (levels_under names.now cursor.old)) }
    requires canonical { AreFieldsCanonical (length names.now) 0 (fields_counted fields.old.items) }
    requires fits { DoFieldsFit names.now (members_added names.now (innermost (levels_under names.now cursor.old)) (fields_counted fields.old.items)) }
    ensures counted { OnOk result (fields_counted fields.new.items ≡ members_added names.now (innermost (levels_under names.now cursor.old)) (fields_counted fields.old.items)) }
    ensures behind { OnOk result (levels_under names.now cursor.new ≡ outside (levels_under names.now cursor.old)) }
    ensures shorter { length cursor.new ≤ length cursor.old }
    ensures sure { members_have_counters names.now (innermost (levels_under names.now cursor.old)) (fields_counted fields.old.items) ≡ true → IsOk result }
{
    let mut guess = 0;
    while let Some(token) = cursor.next() {
        match kind_begun(token.value) {
            None => return Ok(()),
            Some(kind) => {
                let at = count_member(cursor, token.label, guess, kind, names, fields, alloc)?;
                // the fields of documents of one kind mostly follow each other
                guess = at.wrapping_add(1);
            }
        }
    }
    Ok(())
}

/// Counts a member whose label was taken, and answers where its field stands, by a guess at that.
#[cycle(walking)]
fn count_member(
    cursor: &mut Cursor<'_>,
    label: Label<'_>,
    guess: usize,
    kind: Kind,
    names: &Names,
    fields: &mut Vec<Field>,
    alloc: Global,
) -> Result<usize, AllocError>
    requires known { IsTrue (is_some (number_of names.now (name_under names.now (key_of label)))) }
    requires named { IsNamed names.now (begun (kind_meant kind) (levels_under names.now cursor.old)) }
    requires canonical { AreFieldsCanonical (length names.now) 0 (fields_counted fields.old.items) }
    requires fits { DoesFit names.now (added names.now (begun (kind_meant kind) (levels_under names.now cursor.old)) (field_at (number names.now (name_under names.now (key_of label))) (fields_counted fields.old.items))) }
    ensures counted { OnOk result (fields_counted fields.new.items ≡ member_added names.now (name_under names.now (key_of label.entry), begun (kind_meant kind) (levels_under names.now cursor.old)) (fields_counted fields.old.items)) }
    ensures behind { OnOk result (levels_under names.now cursor.new ≡ behind (kind_meant kind) (levels_under names.now cursor.old)) }
    ensures shorter { length cursor.new ≤ length cursor.old }
    ensures sure { has_counters names.now (begun (kind_meant kind) (levels_under names.now cursor.old)) (field_at (number names.now (name_under names.now (key_of label.entry))) (fields_counted fields.old.items)) ≡ true → IsOk result }
{
    let at = place_of_label(label, guess, names, fields, alloc)?;
    count_value(cursor, kind, names, &mut fields[at].node, alloc)?;
    Ok(at)
}
