//! The shape of a record's document, built of its tokens.

ghost use Rattle.std.specs.Prelude.{◌≡◌, ◌≤◌, ◌∷◌, IfOk, IfSome, IsErrOf, option_map, length, map};
ghost use Rattle.std.specs.List.{AllByRecursion};
ghost use Rattle.tc_model.specs.Document.{Document, document_shape, member_shape};
ghost use Rattle.tc_value.specs.ShapeMeaning.{shape_tree, shape_member};
ghost use Rattle.tc_record.specs.WalkView.{token_of, piece_of};
ghost use Rattle.tc_record.specs.Building.{innermost, outer, value_in, member_in, HoldDocuments};
ghost use Rattle.tc_compact.specs.Meant.{levels_meant, shape_read, shape_meant, IsOrdered, IsRecordUnder};

use crate::dictionary::is_dictionary;
use crate::meaning::label_meant;
use crate::order::ordered_shapes;
use crate::sizing::has_room;
use std::alloc::Global;
use tc_names::Names;
use tc_record::{Cursor, Piece, RecordFault, RecordRef, Token};
use tc_value::{Shape, ShapeItems, ShapeMember, Text};

/// The shape of the document that a record of any form spells under a dictionary. `NotARecord` comes exactly where
/// there is none: the members carry numbers, and one has no name, the names of an object do not ascend, or the record of
/// form 0 would have 4,294,967,296 bytes or more.
pub fn shape_of(alloc: Global, of: RecordRef<'_>, names: &Names) -> Result<Shape, RecordFault>
    ensures found { IfOk result (λ shape. (d : Document) × IsRecordUnder names.now d of.entry.bytes × (shape_tree shape ≡ document_shape d)) }
    ensures only { IfOk result (λ shape. (d : Document) → IsRecordUnder names.now d of.entry.bytes → shape_tree shape ≡ document_shape d) }
    ensures refused { IsErrOf result RecordFault.NotARecord → (d : Document) → IsRecordUnder names.now d of.entry.bytes → ⊥ }
{
    is_dictionary(names);
    let _bytes = of.bytes();
    if !has_room(&of, names) {
        return Err(RecordFault::NotARecord);
    }
    match shape_of_tokens(of.cursor(), names, alloc)? {
        Some(shape) => Ok(shape),
        None => Err(RecordFault::NotARecord),
    }
}

/// The shape of the value whose tokens these are, or `None` where they begin with no value. `NotARecord` comes only
/// where they are those of no document.
fn shape_of_tokens(
    tokens: Cursor<'_>,
    names: &Names,
    alloc: Global,
) -> Result<Option<Shape>, RecordFault>
    ensures read { IfOk result (λ shape. option_map shape_tree shape ≡ shape_meant names.now tokens.entry) }
    ensures ordered { IfOk result (λ shape. IfSome shape (λ s. IsOrdered (shape_tree s))) }
    ensures refused { IsErrOf result RecordFault.NotARecord → HoldDocuments (levels_meant names.now tokens.entry) → ⊥ }
{
    let mut cursor = tokens;
    match cursor.next() {
        None => Ok(None),
        Some(token) => value_behind(&mut cursor, token, names, alloc),
    }
}

/// The shape of the value that a token is or opens, with what it holds taken from the cursor; `None` where the token
/// closes one.
#[cycle(shape)]
fn value_behind(
    cursor: &mut Cursor<'_>,
    token: Token<'_>,
    names: &Names,
    alloc: Global,
) -> Result<Option<Shape>, RecordFault>
    ensures read { IfOk result (λ shape. (option_map shape_tree shape, levels_meant names.now cursor.new) ≡ shape_read (piece_of token.entry.value) (levels_meant names.now cursor.old)) }
    ensures ordered { IfOk result (λ shape. IfSome shape (λ s. IsOrdered (shape_tree s))) }
    ensures refused { IsErrOf result RecordFault.NotARecord → HoldDocuments (levels_meant names.now (token_of token.entry ∷ cursor.old)) → ⊥ }
    ensures shorter { IfOk result (λ shape. length cursor.new ≤ length cursor.old) }
{
    match token.value {
        Piece::Null => Ok(Some(Shape::Null)),
        Piece::Bool(_) => Ok(Some(Shape::Bool)),
        Piece::Int(_) => Ok(Some(Shape::Int)),
        Piece::Text(_) => Ok(Some(Shape::Text)),
        Piece::Array => Ok(Some(Shape::Array(ShapeItems::of(items_behind(cursor, names, alloc)?)))),
        Piece::Object => match ordered_shapes(members_behind(cursor, names, alloc)?) {
            Some(members) => Ok(Some(Shape::Object(members))),
            None => Err(RecordFault::NotARecord),
        },
        Piece::Close => Ok(None),
    }
}

/// The shapes of the items up to the close of their array.
#[cycle(shape)]
fn items_behind(
    cursor: &mut Cursor<'_>,
    names: &Names,
    alloc: Global,
) -> Result<Vec<Shape>, RecordFault>
    ensures items { IfOk result (λ shapes. map shape_tree shapes.items ≡ map document_shape (map value_in (innermost (levels_meant names.now cursor.old)))) }
    ensures ordered { IfOk result (λ shapes. AllByRecursion IsOrdered (map shape_tree shapes.items)) }
    ensures rest { IfOk result (λ shapes. levels_meant names.now cursor.new ≡ outer (levels_meant names.now cursor.old)) }
    ensures refused { IsErrOf result RecordFault.NotARecord → HoldDocuments (levels_meant names.now cursor.old) → ⊥ }
    ensures shorter { IfOk result (λ shapes. length cursor.new ≤ length cursor.old) }
{
    let mut items = Vec::new(alloc);
    while let Some(token) = cursor.next() {
        match value_behind(cursor, token, names, alloc)? {
            None => break,
            Some(shape) => items.push(shape)?,
        }
    }
    Ok(items)
}

/// The shapes of the members up to the close of their object.
#[cycle(shape)]
fn members_behind(
    cursor: &mut Cursor<'_>,
    names: &Names,
    alloc: Global,
) -> Result<Vec<ShapeMember>, RecordFault>
    ensures members { IfOk result (λ shapes. map shape_member shapes.items ≡ map member_shape (map member_in (innermost (levels_meant names.now cursor.old)))) }
    ensures ordered { IfOk result (λ shapes. AllByRecursion (λ m. IsOrdered m.1) (map shape_member shapes.items)) }
    ensures rest { IfOk result (λ shapes. levels_meant names.now cursor.new ≡ outer (levels_meant names.now cursor.old)) }
    ensures refused { IsErrOf result RecordFault.NotARecord → HoldDocuments (levels_meant names.now cursor.old) → ⊥ }
    ensures shorter { IfOk result (λ shapes. length cursor.new ≤ length cursor.old) }
{
    let mut members = Vec::new(alloc);
    while let Some(token) = cursor.next() {
        match value_behind(cursor, token, names, alloc)? {
            None => break,
            Some(value) => {
                let text = String::from_str(alloc, label_meant(token.label, names))?;
                let name = Text::of(text);
                members.push(ShapeMember { name, value })?;
            }
        }
    }
    Ok(members)
}
