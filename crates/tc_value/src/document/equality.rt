//! Equality of documents, which takes no memory.

ghost use Rattle.std.specs.Prelude.{◌≡◌, IsTrue, ◌↔◌, map};
ghost use Rattle.tc_value.specs.Meaning.{tree_of, member_of};

use crate::document::{Doc, Member};

impl Doc {
    /// Whether the documents have the same value.
    #[cycle(same_doc)]
    pub fn same(&self, other: &Doc) -> bool
        ensures { IsTrue result ↔ (tree_of self.now ≡ tree_of other.now) }
    {
        match self {
            Doc::Null => match other {
                Doc::Null => true,
                _ => false,
            },
            Doc::Bool(value) => match other {
                Doc::Bool(other_value) => *value == *other_value,
                _ => false,
            },
            Doc::Int(value) => match other {
                Doc::Int(other_value) => *value == *other_value,
                _ => false,
            },
            Doc::Text(text) => match other {
                Doc::Text(other_text) => text.as_str() == other_text.as_str(),
                _ => false,
            },
            Doc::Array(items) => match other {
                Doc::Array(other_items) => same_items(&items.items, &other_items.items),
                _ => false,
            },
            Doc::Object(members) => match other {
                Doc::Object(other_members) => {
                    same_members(&members.members, &other_members.members)
                }
                _ => false,
            },
        }
    }
}

#[cycle(same_doc)]
fn same_items(items: &[Doc], others: &[Doc]) -> bool
    ensures { IsTrue result ↔ (map tree_of items.now ≡ map tree_of others.now) }
{
    if items.len() != others.len() {
        return false;
    }
    for (place, item) in items.iter().enumerate() {
        if !item.same(&others[place]) {
            return false;
        }
    }
    true
}

#[cycle(same_doc)]
fn same_members(members: &[Member], others: &[Member]) -> bool
    ensures { IsTrue result ↔ (map member_of members.now ≡ map member_of others.now) }
{
    if members.len() != others.len() {
        return false;
    }
    for (place, member) in members.iter().enumerate() {
        let other = &others[place];
        if member.name.as_str() != other.name.as_str() || !member.value.same(&other.value) {
            return false;
        }
    }
    true
}
