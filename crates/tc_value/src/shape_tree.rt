//! Shapes of documents, and the lists that they are made of.

ghost use Rattle.std.specs.Prelude.{◌≡◌, map};
ghost use Rattle.tc_model.specs.Document.{IsAscending};
ghost use Rattle.tc_value.specs.ShapeMeaning.{shape_tree, shape_member};

mod copying;

use crate::text::Text;
use std::marker::Model;

/// The shape of a document: the document without its values.
#[cycle(shape)]
#[derive(Drop, Debug)]
pub enum Shape {
    Null,
    Bool,
    Int,
    Text,
    Array(ShapeItems),
    Object(ShapeMembers),
}

/// A member of an object's shape.
#[cycle(shape)]
#[derive(Drop, Debug)]
pub struct ShapeMember {
    pub name: Text,
    pub value: Shape,
}

/// The shapes of an array's items, in order. Contracts see the list of their trees.
#[cycle(shape)]
#[derive(Drop, Debug)]
pub struct ShapeItems {
    items: Vec<Shape>,
}

/// The shapes of an object's members, whose names ascend strictly in byte order. Contracts see the list of names and trees.
#[cycle(shape)]
#[derive(Drop, Debug)]
pub struct ShapeMembers {
    members: Vec<ShapeMember>,
}

impl Model for ShapeItems {
    ghost use Rattle.std.specs.Prelude.{List, map};
    ghost use Rattle.tc_model.specs.Document.{ShapeTree};
    ghost use Rattle.tc_model.specs.DocumentCode.{coded_shape};
    ghost use Rattle.std.specs.Coded.{coded_list};

    ghost Value = { List ShapeTree };

    ghost coded = { coded_list coded_shape };

    ghost use Rattle.tc_value.specs.ShapeMeaning.{shape_tree};
    ghost use Rattle.tc_model.specs.TreeSize.{trees_size};

    ghost view = { λ a. map shape_tree a.items.items };

    ghost size = { trees_size };

    ghost use Rattle.std.proofs.Common.{arith};
    ghost use Rattle.tc_value.specs.ShapeFalls.{items_fall};

    ghost size_decreases = { λ a h. omega (arith, items_fall a.items.items) };
}

impl Model for ShapeMembers {
    ghost use Rattle.std.specs.Prelude.{List, map};
    ghost use Rattle.tc_model.specs.Document.{Name, ShapeTree, IsAscending};
    ghost use Rattle.tc_model.specs.DocumentCode.{coded_shape};
    ghost use Rattle.std.specs.Coded.{coded_list, coded_ℕ, coded×};

    ghost Value = { List (Name × ShapeTree) };

    ghost coded = { coded_list (coded× (coded_list coded_ℕ) coded_shape) };

    ghost use Rattle.tc_value.specs.ShapeMeaning.{shape_member};
    ghost use Rattle.tc_model.specs.TreeSize.{labelled_size};

    ghost view = { λ a. map shape_member a.members.items };

    ghost invariant = { λ a. IsAscending (map shape_member a.members.items) };

    ghost size = { labelled_size };

    ghost use Rattle.std.proofs.Common.{arith};
    ghost use Rattle.tc_value.specs.ShapeFalls.{members_fall};

    ghost size_decreases = { λ a h. omega (arith, members_fall a.members.items) };
}

impl ShapeItems {
    /// The shapes of an array's items. Takes no memory.
    pub fn of(items: Vec<Shape>) -> ShapeItems
        ensures { result ≡ map shape_tree items.items }
    {
        ShapeItems { items }
    }

    /// The items, borrowed.
    pub fn as_slice(&self) -> &[Shape]
        ensures { map shape_tree result.now ≡ self.now }
    {
        self.items.as_slice()
    }

    /// The items as a vector. Takes no memory.
    pub fn into_inner(self) -> Vec<Shape>
        ensures { map shape_tree result.items ≡ self }
    {
        self.items
    }
}

impl ShapeMembers {
    /// The shapes of an object's members, where the names ascend strictly in byte order. Takes no memory.
    pub fn of(members: Vec<ShapeMember>) -> ShapeMembers
        requires { IsAscending (map shape_member members.items) }
        ensures { result ≡ map shape_member members.items }
    {
        ShapeMembers { members }
    }

    /// The members, borrowed.
    pub fn as_slice(&self) -> &[ShapeMember]
        ensures members { map shape_member result.now ≡ self.now }
        ensures ascending { IsAscending self.now }
    {
        self.members.as_slice()
    }

    /// The members as a vector. Takes no memory.
    pub fn into_inner(self) -> Vec<ShapeMember>
        ensures members { map shape_member result.items ≡ self }
        ensures ascending { IsAscending self }
    {
        self.members
    }
}
