//! The document of a record of any form, built of its tokens.

ghost use Rattle.std.specs.Prelude.{◌≡◌, ◌≤◌, ◌∷◌, IfOk, IfSome, IsErrOf, option_map, length, map};
ghost use Rattle.std.specs.List.{AllByRecursion};
ghost use Rattle.tc_model.specs.Document.{Document};
ghost use Rattle.tc_value.specs.Meaning.{tree_of, member_of};
ghost use Rattle.tc_record.specs.WalkView.{token_of, piece_of};
ghost use Rattle.tc_record.specs.Building.{innermost, outer, value_in, member_in, value_read, document_read, HoldDocuments};
ghost use Rattle.tc_compact.specs.Meant.{tokens_meant, levels_meant, IsOrdered, IsRecordUnder};

use crate::dictionary::is_dictionary;
use crate::meaning::label_meant;
use crate::order::ordered_members;
use crate::sizing::has_room;
use std::alloc::Global;
use tc_names::Names;
use tc_record::{Cursor, Piece, RecordFault, RecordRef, Token};
use tc_value::{Doc, Items, Member, Text};

/// The document that a record of any form spells under a dictionary. `NotARecord` comes exactly where there is none:
/// the members carry numbers, and one has no name, the names of an object do not ascend, or the record of form 0 would have
/// 4,294,967,296 bytes or more.
pub fn document_of(alloc: Global, of: RecordRef<'_>, names: &Names) -> Result<Doc, RecordFault>
    ensures found { IfOk result (λ doc. IsRecordUnder names.now (tree_of doc) of.entry.bytes) }
    ensures only { IfOk result (λ doc. (d : Document) → IsRecordUnder names.now d of.entry.bytes → tree_of doc ≡ d) }
    ensures refused { IsErrOf result RecordFault.NotARecord → (d : Document) → IsRecordUnder names.now d of.entry.bytes → ⊥ }
{
    is_dictionary(names);
    let _bytes = of.bytes();
    if !has_room(&of, names) {
        return Err(RecordFault::NotARecord);
    }
    match document_of_tokens(of.cursor(), names, alloc)? {
        Some(doc) => Ok(doc),
        None => Err(RecordFault::NotARecord),
    }
}

/// The value whose tokens these are, or `None` where they begin with no value. `NotARecord` comes only where they are
/// those of no document.
fn document_of_tokens(
    tokens: Cursor<'_>,
    names: &Names,
    alloc: Global,
) -> Result<Option<Doc>, RecordFault>
    ensures read { IfOk result (λ doc. option_map tree_of doc ≡ document_read (tokens_meant names.now tokens.entry)) }
    ensures ordered { IfOk result (λ doc. IfSome doc (λ d. IsOrdered (tree_of d))) }
    ensures refused { IsErrOf result RecordFault.NotARecord → HoldDocuments (levels_meant names.now tokens.entry) → ⊥ }
{
    let mut cursor = tokens;
    match cursor.next() {
        None => Ok(None),
        Some(token) => value_behind(&mut cursor, token, names, alloc),
    }
}

/// The value that a token is or opens, with what it holds taken from the cursor; `None` where the token closes one.
/// `NotARecord` comes only where the token and those behind it are those of no document.
#[cycle(document)]
pub fn value_behind(
    cursor: &mut Cursor<'_>,
    token: Token<'_>,
    names: &Names,
    alloc: Global,
) -> Result<Option<Doc>, RecordFault>
    ensures read { IfOk result (λ doc. (option_map tree_of doc, levels_meant names.now cursor.new) ≡ value_read (piece_of token.entry.value) (levels_meant names.now cursor.old)) }
    ensures ordered { IfOk result (λ doc. IfSome doc (λ d. IsOrdered (tree_of d))) }
    ensures refused { IsErrOf result RecordFault.NotARecord → HoldDocuments (levels_meant names.now (token_of token.entry ∷ cursor.old)) → ⊥ }
    ensures shorter { IfOk result (λ doc. length cursor.new ≤ length cursor.old) }
{
    match token.value {
        Piece::Null => Ok(Some(Doc::Null)),
        Piece::Bool(value) => Ok(Some(Doc::Bool(value))),
        Piece::Int(value) => Ok(Some(Doc::Int(value))),
        Piece::Text(value) => Ok(Some(Doc::Text(Text::copy_of(alloc, value)?))),
        Piece::Array => Ok(Some(Doc::Array(Items::of(items_behind(cursor, names, alloc)?)))),
        Piece::Object => match ordered_members(members_behind(cursor, names, alloc)?) {
            Some(members) => Ok(Some(Doc::Object(members))),
            None => Err(RecordFault::NotARecord),
        },
        Piece::Close => Ok(None),
    }
}

/// The items up to the close of their array.
#[cycle(document)]
fn items_behind(
    cursor: &mut Cursor<'_>,
    names: &Names,
    alloc: Global,
) -> Result<Vec<Doc>, RecordFault>
    ensures items { IfOk result (λ docs. map tree_of docs.items ≡ map value_in (innermost (levels_meant names.now cursor.old))) }
    ensures ordered { IfOk result (λ docs. AllByRecursion IsOrdered (map tree_of docs.items)) }
    ensures rest { IfOk result (λ docs. levels_meant names.now cursor.new ≡ outer (levels_meant names.now cursor.old)) }
    ensures refused { IsErrOf result RecordFault.NotARecord → HoldDocuments (levels_meant names.now cursor.old) → ⊥ }
    ensures shorter { IfOk result (λ docs. length cursor.new ≤ length cursor.old) }
{
    let mut items = Vec::new(alloc);
    while let Some(token) = cursor.next() {
        match value_behind(cursor, token, names, alloc)? {
            None => break,
            Some(doc) => items.push(doc)?,
        }
    }
    Ok(items)
}

/// The members up to the close of their object.
#[cycle(document)]
fn members_behind(
    cursor: &mut Cursor<'_>,
    names: &Names,
    alloc: Global,
) -> Result<Vec<Member>, RecordFault>
    ensures members { IfOk result (λ docs. map member_of docs.items ≡ map member_in (innermost (levels_meant names.now cursor.old))) }
    ensures ordered { IfOk result (λ docs. AllByRecursion (λ m. IsOrdered m.1) (map member_of docs.items)) }
    ensures rest { IfOk result (λ docs. levels_meant names.now cursor.new ≡ outer (levels_meant names.now cursor.old)) }
    ensures refused { IsErrOf result RecordFault.NotARecord → HoldDocuments (levels_meant names.now cursor.old) → ⊥ }
    ensures shorter { IfOk result (λ docs. length cursor.new ≤ length cursor.old) }
{
    let mut members = Vec::new(alloc);
    while let Some(token) = cursor.next() {
        match value_behind(cursor, token, names, alloc)? {
            None => break,
            Some(value) => {
                let text = String::from_str(alloc, label_meant(token.label, names))?;
                let name = Text::of(text);
                members.push(Member { name, value })?;
            }
        }
    }
    Ok(members)
}
