//! Documents, and the lists that they are made of.

ghost use Rattle.std.specs.Prelude.{◌≡◌, map};
ghost use Rattle.tc_model.specs.Document.{IsAscending};
ghost use Rattle.tc_value.specs.Meaning.{tree_of, member_of};

mod copying;
mod depths;
mod equality;
mod shaping;

use crate::text::Text;
use std::marker::Model;

/// A document: a value that JSON can write, with integers of 64 bits for its numbers.
#[cycle(doc)]
#[derive(Drop, Debug)]
pub enum Doc {
    Null,
    Bool(bool),
    Int(i64),
    Text(Text),
    Array(Items),
    Object(Members),
}

/// A member of an object.
#[cycle(doc)]
#[derive(Drop, Debug)]
pub struct Member {
    pub name: Text,
    pub value: Doc,
}

/// The items of an array, in order. Contracts see the list of their trees.
#[cycle(doc)]
#[derive(Drop, Debug)]
pub struct Items {
    items: Vec<Doc>,
}

/// The members of an object, whose names ascend strictly in byte order. Contracts see the list of names and trees.
#[cycle(doc)]
#[derive(Drop, Debug)]
pub struct Members {
    members: Vec<Member>,
}

impl Model for Items {
    ghost use Rattle.std.specs.Prelude.{List, map};
    ghost use Rattle.tc_model.specs.Document.{Document};
    ghost use Rattle.tc_model.specs.DocumentCode.{coded_document};
    ghost use Rattle.std.specs.Coded.{coded_list};

    ghost Value = { List Document };

    ghost coded = { coded_list coded_document };

    ghost use Rattle.tc_value.specs.Meaning.{tree_of};
    ghost use Rattle.tc_model.specs.TreeSize.{trees_size};

    ghost view = { λ a. map tree_of a.items.items };

    ghost size = { trees_size };

    ghost use Rattle.std.proofs.Common.{arith};
    ghost use Rattle.tc_value.specs.DocFalls.{items_fall};

    ghost size_decreases = { λ a h. omega (arith, items_fall a.items.items) };
}

impl Model for Members {
    ghost use Rattle.std.specs.Prelude.{List, map};
    ghost use Rattle.tc_model.specs.Document.{Name, Document, IsAscending};
    ghost use Rattle.tc_model.specs.DocumentCode.{coded_document};
    ghost use Rattle.std.specs.Coded.{coded_list, coded_ℕ, coded×};

    ghost Value = { List (Name × Document) };

    ghost coded = { coded_list (coded× (coded_list coded_ℕ) coded_document) };

    ghost use Rattle.tc_value.specs.Meaning.{member_of};
    ghost use Rattle.tc_model.specs.TreeSize.{labelled_size};

    ghost view = { λ a. map member_of a.members.items };

    ghost invariant = { λ a. IsAscending (map member_of a.members.items) };

    ghost size = { labelled_size };

    ghost use Rattle.std.proofs.Common.{arith};
    ghost use Rattle.tc_value.specs.DocFalls.{members_fall};

    ghost size_decreases = { λ a h. omega (arith, members_fall a.members.items) };
}

impl Items {
    /// The items of an array. Takes no memory.
    pub fn of(items: Vec<Doc>) -> Items
        ensures { result ≡ map tree_of items.items }
    {
        Items { items }
    }

    /// The items, borrowed.
    pub fn as_slice(&self) -> &[Doc]
        ensures { map tree_of result.now ≡ self.now }
    {
        self.items.as_slice()
    }

    /// The items as a vector. Takes no memory.
    pub fn into_inner(self) -> Vec<Doc>
        ensures { map tree_of result.items ≡ self }
    {
        self.items
    }
}

impl Members {
    /// The members of an object, where their names ascend strictly in byte order. Takes no memory.
    pub fn of(members: Vec<Member>) -> Members
        requires { IsAscending (map member_of members.items) }
        ensures { result ≡ map member_of members.items }
    {
        Members { members }
    }

    /// The members, borrowed.
    pub fn as_slice(&self) -> &[Member]
        ensures members { map member_of result.now ≡ self.now }
        ensures ascending { IsAscending self.now }
    {
        self.members.as_slice()
    }

    /// The members as a vector. Takes no memory.
    pub fn into_inner(self) -> Vec<Member>
        ensures members { map member_of result.items ≡ self }
        ensures ascending { IsAscending self }
    {
        self.members
    }
}
