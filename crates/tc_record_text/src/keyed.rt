//! The text of the document of a key, with the member `id` put back.

ghost use Rattle.std.specs.Prelude.{◌≡◌, ◌++◌, codes, OnOk, IfOk, IfSome, IsErrOf, map, false};
ghost use Rattle.serde_json.specs.Data.{put};
ghost use Rattle.serde_json.specs.Written.{compact_text, members_text};
ghost use Rattle.tc_model.specs.Document.{Document, name_cmp};
ghost use Rattle.tc_model.specs.Json.{members_data};
ghost use Rattle.tc_model.specs.Tree.{members_of};
ghost use Rattle.tc_request_model.specs.Reply.{with_id, count};
ghost use Rattle.tc_record.specs.Building.{innermost, member_in, document_read};
ghost use Rattle.tc_compact.specs.Meant.{levels_meant, tokens_meant, IsRecordUnder};
ghost use Rattle.tc_record_text.specs.KeptLabels.{AreLabels};

use crate::labels::{closes, name_of};
use crate::memo::LabelMemo;
use crate::sheet::Sheet;
use crate::skipping::skip;
use crate::values::{put_members, put_value};
use std::alloc::{AllocError, Global};
use std::cmp::Ordering;
use tc_bytes::Bytes;
use tc_compact::{document_meant, spells_document};
use tc_names::Names;
use tc_record::{Cursor, Piece, RecordFault, RecordRef};

/// The text of the document that a record of any form spells under a dictionary, with the member `id` at its place.
/// `NotARecord` comes exactly where the record spells no document under the dictionary.
pub fn text_of_document(
    alloc: Global,
    key: u64,
    of: RecordRef<'_>,
    names: &Names,
) -> Result<Bytes, RecordFault>
    ensures text { (d : Document) → IsRecordUnder names.now d of.entry.bytes → IfOk result (λ text. text ≡ compact_text (with_id key d)) }
    ensures document { IfOk result (λ text. (d : Document) × IsRecordUnder names.now d of.entry.bytes) }
    ensures refused { IsErrOf result RecordFault.NotARecord → (d : Document) → IsRecordUnder names.now d of.entry.bytes → ⊥ }
{
    if !spells_document(of.again(), names) {
        return Err(RecordFault::NotARecord);
    }
    Ok(text_of_known(alloc, key, of, names)?)
}

// The same of a record that is known to spell one.
fn text_of_known(
    alloc: Global,
    key: u64,
    of: RecordRef<'_>,
    names: &Names,
) -> Result<Bytes, AllocError>
    ensures { (d : Document) → IsRecordUnder names.now d of.entry.bytes → IfOk result (λ text. text ≡ compact_text (with_id key d)) }
{
    // A text has the names of members that a record has the numbers of. It does not live long, so that what is left of the
    // room is not given back.
    let room = of.bytes().len().saturating_mul(2);
    let mut text = Vec::with_capacity(alloc, room)?;
    put_document(of, names, key, &mut text)?;
    Ok(Bytes::of(text))
}

/// Puts the text of the document that a record of any form spells under a dictionary, with the member `id` at its place in
/// the byte order of names. A member of that name gives way to it. Errs only for want of memory, and then leaves some first
/// part of the text.
pub fn put_document(
    of: RecordRef<'_>,
    names: &Names,
    key: u64,
    out: &mut Vec<u8>,
) -> Result<(), AllocError>
    ensures { (d : Document) → IsRecordUnder names.now d of.entry.bytes → OnOk result (out.new.items ≡ out.old.items ++ compact_text (with_id key d)) }
{
    document_meant();
    let _bytes = of.bytes();
    let mut memo = LabelMemo::new(*out.allocator(), of.token_count());
    let mut sheet = Sheet::of(out);
    let put = put_tokens(of.cursor(), names, &mut memo, key, &mut sheet);
    let back = sheet.give_back(out);
    put?;
    back
}

// The text of the value whose tokens these are.
fn put_tokens(
    tokens: Cursor<'_>,
    names: &Names,
    memo: &mut LabelMemo,
    key: u64,
    sheet: &mut Sheet,
) -> Result<(), AllocError>
    requires { AreLabels names.now memo.old.kept.items }
    ensures { OnOk result (IfSome (document_read (tokens_meant names.now tokens.entry)) (λ d. sheet.new ≡ sheet.old ++ compact_text (with_id key d))) }
{
    let mut cursor = tokens;
    let Some(token) = cursor.next() else {
        return Ok(());
    };
    match token.value {
        Piece::Object => {
            sheet.put_byte(b'{')?;
            put_members_with_key(&mut cursor, names, memo, key, sheet)
        }
        _other => put_value(&mut cursor, token, names, memo, sheet),
    }
}

// The members up to the place of `id`, `id`, those after it up to the close of their object, and its bracket.
fn put_members_with_key(
    cursor: &mut Cursor<'_>,
    names: &Names,
    memo: &mut LabelMemo,
    key: u64,
    sheet: &mut Sheet,
) -> Result<(), AllocError>
    requires { AreLabels names.now memo.old.kept.items }
    ensures { OnOk result (sheet.new ≡ sheet.old ++ members_text false (put (codes "id") (count key) (members_data (members_of (map member_in (innermost (levels_meant names.now cursor.old))))))) }
{
    let mut later = false;
    while let Some(token) = cursor.next() {
        if closes(token.value) {
            sheet.put_key(later, key)?;
            return sheet.put_byte(b'}');
        }
        let name = name_of(token.label, names);
        match order_of_key(name) {
            Ordering::Less => {
                sheet.put_key(later, key)?;
                sheet.put_name(true, name)?;
                put_value(cursor, token, names, memo, sheet)?;
                return put_members(true, cursor, names, memo, sheet);
            }
            Ordering::Equal => {
                sheet.put_key(later, key)?;
                skip(cursor, token.value);
                return put_members(true, cursor, names, memo, sheet);
            }
            Ordering::Greater => {
                sheet.put_name(later, name)?;
                put_value(cursor, token, names, memo, sheet)?;
            }
        }
        later = true;
    }
    sheet.put_key(later, key)?;
    sheet.put_byte(b'}')
}

// How `id` stands to a name. Most names differ from it in their first byte, which costs less than a call.
#[inline(always)]
fn order_of_key(name: &str) -> Ordering
    ensures { result ≡ name_cmp (codes "id") name.now }
{
    let bytes = name.as_bytes();
    if !bytes.is_empty() && bytes[0] != b'i' {
        return if b'i' < bytes[0] {
            Ordering::Less
        } else {
            Ordering::Greater
        };
    }
    "id".cmp(name)
}
