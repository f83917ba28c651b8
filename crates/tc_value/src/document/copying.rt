//! Copies of documents. Each call errs only for want of memory.

ghost use Rattle.std.specs.Prelude.{◌≡◌, IfOk, map};
ghost use Rattle.tc_value.specs.Meaning.{tree_of, member_of};

use crate::document::{Doc, Items, Member, Members};
use std::alloc::{AllocError, Global};

impl Doc {
    /// The same document in memory of its own.
    #[cycle(copy_doc)]
    pub fn copy(&self, alloc: Global) -> Result<Doc, AllocError>
        ensures { IfOk result (λ copied. tree_of copied ≡ tree_of self.now) }
    {
        match self {
            Doc::Null => Ok(Doc::Null),
            Doc::Bool(value) => Ok(Doc::Bool(*value)),
            Doc::Int(value) => Ok(Doc::Int(*value)),
            Doc::Text(text) => Ok(Doc::Text(text.copy(alloc)?)),
            Doc::Array(items) => Ok(Doc::Array(Items::of(copy_items(&items.items, alloc)?))),
            Doc::Object(members) => Ok(Doc::Object(Members::of(copy_members(
                &members.members,
                alloc,
            )?))),
        }
    }
}

#[cycle(copy_doc)]
fn copy_items(items: &[Doc], alloc: Global) -> Result<Vec<Doc>, AllocError>
    ensures { IfOk result (λ copied. map tree_of copied.items ≡ map tree_of items.now) }
{
    let mut copied = Vec::with_capacity(alloc, items.len())?;
    for item in items {
        copied.push(item.copy(alloc)?)?;
    }
    Ok(copied)
}

#[cycle(copy_doc)]
fn copy_members(members: &[Member], alloc: Global) -> Result<Vec<Member>, AllocError>
    ensures { IfOk result (λ copied. map member_of copied.items ≡ map member_of members.now) }
{
    let mut copied = Vec::with_capacity(alloc, members.len())?;
    for member in members {
        copied.push(Member {
            name: member.name.copy(alloc)?,
            value: member.value.copy(alloc)?,
        })?;
    }
    Ok(copied)
}
