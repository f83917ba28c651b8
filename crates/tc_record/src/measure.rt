//! How long the columns of a document's record are, added up without memory.

ghost use Rattle.std.specs.Prelude.{◌≡◌, map, Some, None};
ghost use Rattle.tc_model.specs.Tree.{items_of, members_of};
ghost use Rattle.tc_model.specs.Document.{null, boolean, integer, text, AreItemsOf, AreMembersOf, IsDocument, IsScalar};
ghost use Rattle.tc_record.specs.Preorder.{scalar, array_opened, object_opened, closed, preorder, items_preorder, members_preorder};
ghost use Rattle.tc_value.specs.Meaning.{tree_of, member_of};
ghost use Rattle.tc_record.specs.Measured.{sum_within, with_element, with_label, with_piece, measured, nothing_measured};

use tc_value::{Doc, Member};

/// Texts or names: how many, the longest, and all their bytes.
#[derive(Clone, Copy)]
pub(crate) struct ColumnSum {
    pub(crate) count: u64,
    pub(crate) greatest: u64,
    pub(crate) bytes: u64,
}

/// What the columns add up to. A count stands still at the end of its type.
#[derive(Clone, Copy)]
pub(crate) struct Measure {
    pub(crate) tags: u64,
    pub(crate) fixed: u64,
    pub(crate) texts: ColumnSum,
    pub(crate) names: ColumnSum,
}

/// The columns of a whole document. The walk shows that the document is lawful.
pub(crate) fn measure_document(doc: &Doc) -> Measure
    ensures measured { result ≡ measured nothing_measured (preorder None (tree_of doc.now)) }
    ensures lawful { IsDocument (tree_of doc.now) }
{
    let none = ColumnSum {
        count: 0,
        greatest: 0,
        bytes: 0,
    };
    let start = Measure {
        tags: 0,
        fixed: 0,
        texts: none,
        names: none,
    };
    with_value(doc, start)
}

fn with_length(column: ColumnSum, len: usize) -> ColumnSum
    ensures { result ≡ with_element column len }
{
    ColumnSum {
        count: column.count.saturating_add(1),
        greatest: column.greatest.max(len as u64),
        bytes: column.bytes.saturating_add(len as u64),
    }
}

fn with_tag(so_far: Measure, fixed: u64) -> Measure
    ensures { result ≡ record so_far { tags = sum_within so_far.tags 1; fixed = sum_within so_far.fixed fixed } }
{
    Measure {
        tags: so_far.tags.saturating_add(1),
        fixed: so_far.fixed.saturating_add(fixed),
        texts: so_far.texts,
        names: so_far.names,
    }
}

fn with_text(so_far: Measure, len: usize) -> Measure
    ensures { result ≡ record so_far { tags = sum_within so_far.tags 1; fixed = sum_within so_far.fixed 0; texts = with_element so_far.texts len } }
{
    let mut measure = with_tag(so_far, 0);
    measure.texts = with_length(so_far.texts, len);
    measure
}

fn with_name(so_far: Measure, len: usize) -> Measure
    ensures { result ≡ record so_far { names = with_element so_far.names len } }
{
    let mut measure = so_far;
    measure.names = with_length(so_far.names, len);
    measure
}

// Built into the two loops below, which take a call for each array and each object: most values are scalars, and a call for
// each of those would move all sums through memory.
#[inline(always)]
#[cycle(measure)]
fn with_value(doc: &Doc, so_far: Measure) -> Measure
    ensures measured { result ≡ measured so_far (preorder None (tree_of doc.now)) }
    ensures lawful { IsDocument (tree_of doc.now) }
{
    match doc {
        Doc::Null => with_tag(so_far, 0),
        Doc::Bool(_) => with_tag(so_far, 1),
        Doc::Int(value) => {
            let _value = *value;
            with_tag(so_far, 8)
        }
        Doc::Text(text) => with_text(so_far, text.as_str().len()),
        Doc::Array(items) => with_tag(with_items(items.as_slice(), with_tag(so_far, 0)), 0),
        Doc::Object(members) => {
            with_tag(with_members(members.as_slice(), with_tag(so_far, 0)), 0)
        }
    }
}

#[inline(never)]
#[cycle(measure)]
fn with_items(items: &[Doc], so_far: Measure) -> Measure
    ensures measured { result ≡ measured so_far (items_preorder (items_of (map tree_of items.now))) }
    ensures lawful { AreItemsOf IsScalar (items_of (map tree_of items.now)) }
{
    let mut measure = so_far;
    for item in items {
        measure = with_value(item, measure);
    }
    measure
}

#[inline(never)]
#[cycle(measure)]
fn with_members(members: &[Member], so_far: Measure) -> Measure
    ensures measured { result ≡ measured so_far (members_preorder (members_of (map member_of members.now))) }
    ensures lawful { AreMembersOf IsScalar (members_of (map member_of members.now)) }
{
    let mut measure = so_far;
    for member in members {
        measure = with_value(
            &member.value,
            with_name(measure, member.name.as_str().len()),
        );
    }
    measure
}
