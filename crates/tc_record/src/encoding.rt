//! The record of a document, written by one walk into all columns at once.

ghost use Rattle.std.specs.Prelude.{◌≡◌, ◌≤◌, ◌<◌, ◌^◌, ◌+◌, ◌++◌, ◌∷◌, [], OnOk, IfOk, length, map};
ghost use Rattle.std.specs.Int.{w32, to_be_bytes};
ghost use Rattle.tc_model.specs.Tree.{items_of, members_of, depth};
ghost use Rattle.tc_model.specs.Document.{IsDocument};
ghost use Rattle.tc_record.specs.Preorder.{preorder, items_preorder, members_preorder};
ghost use Rattle.tc_value.specs.Meaning.{tree_of, member_of};
ghost use Rattle.tc_record.specs.Record.{record_of, named_form, IsRecordOf};
ghost use Rattle.tc_model.specs.Limits.{max_depth};
ghost use Rattle.tc_model.specs.Stored.{IsObject};
ghost use Rattle.tc_record.specs.Written.{written, with_tokens};
ghost use Rattle.tc_record.specs.Measured.{column_width};

use crate::columns::Columns;
use crate::header::NAMED_FORM;
use crate::measure::{Measure, measure_document};
use crate::sizing::{len_of_record, width_of_column};
use crate::tags::{ARRAY_TAG, BOOLEAN_TAG, CLOSE_TAG, INTEGER_TAG, NULL_TAG, OBJECT_TAG};
use std::alloc::{AllocError, Global};
use tc_bytes::{Bytes, put_u32};
use tc_value::{Doc, Member};

/// The record of form 0 of an object. Errs only for want of memory.
pub fn encode(alloc: Global, doc: &Doc) -> Result<Bytes, AllocError>
    requires object { IsObject (tree_of doc.now) }
    requires short { length (record_of (tree_of doc.now)) < 2 ^ 32 }
    ensures spelled { IfOk result (λ bytes. bytes ≡ record_of (tree_of doc.now)) }
    ensures is_record { IfOk result (λ bytes. IsDocument (tree_of doc.now) → depth (tree_of doc.now) ≤ max_depth → IsRecordOf (tree_of doc.now) bytes) }
    ensures lawful { IsDocument (tree_of doc.now) }
{
    let measure = measure_document(doc);
    let len = len_of_record(measure);
    let mut out = Vec::with_capacity(alloc, len as usize)?;
    put_header(len, measure, &mut out)?;
    let mut columns = Columns::behind(alloc, out, measure)?;
    put_value(doc, &mut columns)?;
    Ok(Bytes::of(columns.into_row()?))
}

/// The header of form 0.
fn put_header(len: u64, measure: Measure, out: &mut Vec<u8>) -> Result<(), AllocError>
    requires len { len < 2 ^ 32 }
    requires tags { measure.tags < 2 ^ 32 }
    requires fixed { measure.fixed < 2 ^ 32 }
    requires texts { measure.texts.count < 2 ^ 32 }
    requires names { measure.names.count < 2 ^ 32 }
    ensures { OnOk result (out.new.items ≡ out.old.items ++ (to_be_bytes w32 len ++ (named_form ∷ (to_be_bytes w32 measure.tags ++ (to_be_bytes w32 measure.fixed ++ (to_be_bytes w32 measure.texts.count ++ (column_width measure.texts ∷ (to_be_bytes w32 measure.names.count ++ column_width measure.names ∷ [])))))))) }
{
    put_u32(out, len as u32)?;
    out.push(NAMED_FORM)?;
    put_u32(out, measure.tags as u32)?;
    put_u32(out, measure.fixed as u32)?;
    put_u32(out, measure.texts.count as u32)?;
    out.push(width_of_column(measure.texts).bytes())?;
    put_u32(out, measure.names.count as u32)?;
    out.push(width_of_column(measure.names).bytes())?;
    Ok(())
}

// Built into the two loops below, which take a call for each array and each object: most values are scalars.
#[inline(always)]
#[cycle(encode)]
fn put_value(doc: &Doc, columns: &mut Columns) -> Result<(), AllocError>
    ensures { OnOk result (written columns.new ≡ with_tokens (written columns.old) (preorder None (tree_of doc.now))) }
{
    match doc {
        Doc::Null => columns.put_tag(NULL_TAG),
        Doc::Bool(value) => columns.put_byte(BOOLEAN_TAG, u8::from(*value)),
        Doc::Int(value) => columns.put_fixed(INTEGER_TAG, &value.to_be_bytes()),
        Doc::Text(value) => columns.put_text(value.as_str()),
        Doc::Array(items) => {
            columns.put_tag(ARRAY_TAG)?;
            put_items(items.as_slice(), columns)?;
            columns.put_tag(CLOSE_TAG)
        }
        Doc::Object(members) => {
            columns.put_tag(OBJECT_TAG)?;
            put_members(members.as_slice(), columns)?;
            columns.put_tag(CLOSE_TAG)
        }
    }
}

#[inline(never)]
#[cycle(encode)]
fn put_items(items: &[Doc], columns: &mut Columns) -> Result<(), AllocError>
    ensures { OnOk result (written columns.new ≡ with_tokens (written columns.old) (items_preorder (items_of (map tree_of items.now)))) }
{
    for item in items {
        put_value(item, columns)?;
    }
    Ok(())
}

#[inline(never)]
#[cycle(encode)]
fn put_members(members: &[Member], columns: &mut Columns) -> Result<(), AllocError>
    ensures { OnOk result (written columns.new ≡ with_tokens (written columns.old) (members_preorder (members_of (map member_of members.now)))) }
{
    for member in members {
        columns.put_name(member.name.as_str())?;
        put_value(&member.value, columns)?;
    }
    Ok(())
}
