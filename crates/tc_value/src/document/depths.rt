//! How deep documents nest.

ghost use Rattle.std.specs.Prelude.{◌≡◌, ℕ, ◌≤◌, IsTrue, ◌↔◌, map};
ghost use Rattle.tc_model.specs.Tree.{depth, items_depth, members_depth, items_of, members_of};
ghost use Rattle.tc_model.specs.Document.{IsDocument, AreItemsOf, AreMembersOf, IsScalar};
ghost use Rattle.tc_value.specs.Meaning.{tree_of, member_of};

use crate::document::{Doc, Member};

impl Doc {
    /// How deep arrays and objects nest: 0 for a scalar, and 1 more than the deepest of what it holds for an array or
    /// an object. Takes no memory.
    #[cycle(depths)]
    pub fn depth(&self) -> u32
        requires { depth (tree_of self.now) ≤ 127 }
        ensures depth { result ≡ depth (tree_of self.now) }
        ensures lawful { IsDocument (tree_of self.now) }
    {
        match self {
            Doc::Null => 0,
            Doc::Bool(_) => 0,
            Doc::Int(value) => {
                let _value = *value;
                0
            }
            Doc::Text(text) => {
                let _text = text.as_str();
                0
            }
            Doc::Array(items) => 1 + depth_of_items(&items.items),
            Doc::Object(members) => 1 + depth_of_members(&members.members),
        }
    }

    /// Whether arrays and objects nest no deeper than this. Stops at the first value that does, and takes no memory.
    #[cycle(limits)]
    pub fn nests_within(&self, limit: u32) -> bool
        ensures within { IsTrue result ↔ (depth (tree_of self.now) ≤ limit) }
        ensures lawful { IsTrue result → IsDocument (tree_of self.now) }
    {
        match self {
            Doc::Null => true,
            Doc::Bool(_) => true,
            Doc::Int(value) => {
                let _value = *value;
                true
            }
            Doc::Text(text) => {
                let _text = text.as_str();
                true
            }
            Doc::Array(items) => limit > 0 && items_nest_within(&items.items, limit - 1),
            Doc::Object(members) => limit > 0 && members_nest_within(&members.members, limit - 1),
        }
    }
}

#[cycle(depths)]
fn depth_of_items(items: &[Doc]) -> u32
    requires { items_depth (items_of (map tree_of items.now)) ≤ 126 }
    ensures depth { result ≡ items_depth (items_of (map tree_of items.now)) }
    ensures lawful { AreItemsOf IsScalar (items_of (map tree_of items.now)) }
{
    let mut greatest = 0;
    for item in items {
        greatest = greatest.max(item.depth());
    }
    greatest
}

#[cycle(depths)]
fn depth_of_members(members: &[Member]) -> u32
    requires { members_depth (members_of (map member_of members.now)) ≤ 126 }
    ensures depth { result ≡ members_depth (members_of (map member_of members.now)) }
    ensures lawful { AreMembersOf IsScalar (members_of (map member_of members.now)) }
{
    let mut greatest = 0;
    for member in members {
        let _name = member.name.as_str();
        greatest = greatest.max(member.value.depth());
    }
    greatest
}

#[cycle(limits)]
fn items_nest_within(items: &[Doc], limit: u32) -> bool
    ensures within { IsTrue result ↔ (items_depth (items_of (map tree_of items.now)) ≤ limit) }
    ensures lawful { IsTrue result → AreItemsOf IsScalar (items_of (map tree_of items.now)) }
{
    for item in items {
        if !item.nests_within(limit) {
            return false;
        }
    }
    true
}

#[cycle(limits)]
fn members_nest_within(members: &[Member], limit: u32) -> bool
    ensures within { IsTrue result ↔ (members_depth (members_of (map member_of members.now)) ≤ limit) }
    ensures lawful { IsTrue result → AreMembersOf IsScalar (members_of (map member_of members.now)) }
{
    for member in members {
        let _name = member.name.as_str();
        if !member.value.nests_within(limit) {
            return false;
        }
    }
    true
}
