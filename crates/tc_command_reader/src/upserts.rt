//! The document of an upsert, among the members of its line.

ghost use Rattle.std.specs.Prelude.{◌≡◌, ◌≤◌, ◌+◌, ◌∷◌, [], IfSome, IsTrue, codes, map};
ghost use Rattle.tc_model.specs.Document.{text};
ghost use Rattle.tc_model.specs.Limits.{max_depth};
ghost use Rattle.tc_model.specs.Tree.{leaf, object, members_of, depth, members_depth};
ghost use Rattle.tc_value.specs.Meaning.{tree_of, member_of};
ghost use Rattle.tc_command_reader.specs.UpsertLine.{upsert_line};

use tc_value::{Doc, Member};

/// Whether the line may be an upsert, by its first bytes. No answer is wrong: what is read is looked at again.
pub(crate) fn may_upsert(line: &[u8]) -> bool {
    line.starts_with(b"{\"op\":\"upsert\"")
        || line.starts_with(b"{\"op\": \"upsert\"")
        || line.starts_with(b"{\"doc\":")
}

/// The document of an upsert, where this is the document of its line.
pub(crate) fn upserted_in(whole: Doc) -> Option<Doc>
    requires { depth (tree_of whole) ≤ max_depth + 1 }
    ensures line { IfSome result (λ doc. tree_of whole ≡ upsert_line (tree_of doc)) }
    ensures shallow { IfSome result (λ doc. depth (tree_of doc) ≤ max_depth) }
{
    match whole {
        Doc::Object(members) => upserted_among(members.into_inner()),
        _other => None,
    }
}

fn upserted_among(members: Vec<Member>) -> Option<Doc>
    requires { members_depth (members_of (map member_of members.items)) ≤ max_depth }
    ensures line { IfSome result (λ doc. object (members_of (map member_of members.items)) ≡ upsert_line (tree_of doc)) }
    ensures shallow { IfSome result (λ doc. depth (tree_of doc) ≤ max_depth) }
{
    let (first, second) = two(members)?;
    if is_upsert(&first, &second) {
        Some(first.value)
    } else {
        None
    }
}

// The members of a list of two.
fn two(mut members: Vec<Member>) -> Option<(Member, Member)>
    ensures { IfSome result (λ pair. members.items ≡ pair.0 ∷ pair.1 ∷ []) }
{
    let second = members.pop()?;
    let first = members.pop()?;
    if members.is_empty() {
        Some((first, second))
    } else {
        None
    }
}

// Whether the members are those of an upsert, which stand in the byte order of their names.
fn is_upsert(first: &Member, second: &Member) -> bool
    ensures { IsTrue result → object (members_of (member_of first.now ∷ member_of second.now ∷ [])) ≡ upsert_line (tree_of first.now.value) }
{
    first.name.as_str() == "doc" && second.name.as_str() == "op" && is_text(&second.value, "upsert")
}

fn is_text(doc: &Doc, wanted: &str) -> bool
    ensures { IsTrue result → tree_of doc.now ≡ leaf (text wanted.now) }
{
    match doc {
        Doc::Text(text) => text.as_str() == wanted,
        _ => false,
    }
}
