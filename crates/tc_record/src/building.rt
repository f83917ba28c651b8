//! A document built from its tokens.

ghost use Rattle.std.specs.Prelude.{◌≡◌, ◌≤◌, ◌∷◌, IfOk, Some, option_map, length, map};
ghost use Rattle.tc_model.specs.Document.{IsAscending};
ghost use Rattle.tc_value.specs.Meaning.{tree_of, member_of};
ghost use Rattle.tc_record.specs.WalkView.{token_of, piece_of, key_of};
ghost use Rattle.tc_record.specs.Building.{innermost, outer, value_in, member_in, name_told, value_read, levels_of, document_read, HoldDocuments};

use crate::cursor::Cursor;
use crate::token::{Label, Piece, Token};
use std::alloc::{AllocError, Global};
use tc_value::{Doc, Items, Member, Members, Text};

/// The document whose tokens these are, or `None` where they begin with no value.
pub(crate) fn document_of(alloc: Global, tokens: Cursor<'_>) -> Result<Option<Doc>, AllocError>
    requires { HoldDocuments (levels_of tokens) }
    ensures { IfOk result (λ doc. option_map tree_of doc ≡ document_read tokens.entry) }
{
    let mut cursor = tokens;
    match cursor.next() {
        None => Ok(None),
        Some(token) => value_behind(&mut cursor, token, alloc),
    }
}

/// The value that a token is or opens, with what it holds taken from the cursor; `None` where the token closes one.
#[cycle(build)]
fn value_behind(
    cursor: &mut Cursor<'_>,
    token: Token<'_>,
    alloc: Global,
) -> Result<Option<Doc>, AllocError>
    requires { HoldDocuments (levels_of (token_of token ∷ cursor.old)) }
    ensures read { IfOk result (λ doc. (option_map tree_of doc, levels_of cursor.new) ≡ value_read (piece_of token.entry.value) (levels_of cursor.old)) }
    ensures shorter { IfOk result (λ doc. length cursor.new ≤ length cursor.old) }
{
    match token.value {
        Piece::Null => Ok(Some(Doc::Null)),
        Piece::Bool(value) => Ok(Some(Doc::Bool(value))),
        Piece::Int(value) => Ok(Some(Doc::Int(value))),
        Piece::Text(value) => Ok(Some(Doc::Text(Text::copy_of(alloc, value)?))),
        Piece::Array => Ok(Some(Doc::Array(Items::of(items_behind(cursor, alloc)?)))),
        Piece::Object => Ok(Some(Doc::Object(Members::of(members_behind(cursor, alloc)?)))),
        Piece::Close => Ok(None),
    }
}

/// The items up to the close of their array.
#[cycle(build)]
fn items_behind(cursor: &mut Cursor<'_>, alloc: Global) -> Result<Vec<Doc>, AllocError>
    requires { HoldDocuments (levels_of cursor.old) }
    ensures items { IfOk result (λ docs. map tree_of docs.items ≡ map value_in (innermost (levels_of cursor.old))) }
    ensures rest { IfOk result (λ docs. levels_of cursor.new ≡ outer (levels_of cursor.old)) }
    ensures shorter { IfOk result (λ docs. length cursor.new ≤ length cursor.old) }
{
    let mut items = Vec::new(alloc);
    while let Some(token) = cursor.next() {
        match value_behind(cursor, token, alloc)? {
            None => break,
            Some(doc) => items.push(doc)?,
        }
    }
    Ok(items)
}

/// The members up to the close of their object.
#[cycle(build)]
fn members_behind(cursor: &mut Cursor<'_>, alloc: Global) -> Result<Vec<Member>, AllocError>
    requires { HoldDocuments (levels_of cursor.old) }
    ensures members { IfOk result (λ members. map member_of members.items ≡ map member_in (innermost (levels_of cursor.old))) }
    ensures rest { IfOk result (λ members. levels_of cursor.new ≡ outer (levels_of cursor.old)) }
    ensures shorter { IfOk result (λ members. length cursor.new ≤ length cursor.old) }
{
    let mut members = Vec::new(alloc);
    while let Some(token) = cursor.next() {
        match value_behind(cursor, token, alloc)? {
            None => break,
            Some(value) => {
                let name = Text::copy_of(alloc, name_or_empty(token.label))?;
                members.push(Member { name, value })?;
            }
        }
    }
    Ok(members)
}

/// The name that a label is, or the empty one.
fn name_or_empty<'a>(label: Label<'a>) -> &'a str
    ensures { result.now ≡ name_told (key_of label.entry) }
{
    match label {
        Label::Name(name) => name,
        Label::Bare => "",
        Label::Number(_) => "",
    }
}
