//! A schema beside the documents that it stands for.

ghost use Rattle.std.specs.Prelude.{◌≡◌, ◌<◌, ◌≤◌, ◌^◌, [], All, IfOk, IfSome, length, map};
ghost use Rattle.std.specs.List.{AllByRecursion};
ghost use Rattle.tc_model.specs.Tree.{items_of, members_of};
ghost use Rattle.tc_schema_model.specs.Occurrences.{Path};
ghost use Rattle.tc_model.specs.ShapeNames.{names_within, names_of_items, names_of_members, names_of_documents};
ghost use Rattle.tc_model.specs.Dictionary.{all_learned};
ghost use Rattle.tc_schema_model.specs.Values.{values_at, values_in};
ghost use Rattle.tc_value.specs.Meaning.{tree_of};
ghost use Rattle.tc_value.specs.ShapeMeaning.{shape_tree, shape_member};
ghost use Rattle.tc_model.specs.TreeSize.{tree_size, trees_size, labelled_size};

use crate::no_answer::NoAnswer;
use crate::texts::text_of_schema;
use std::alloc::Global;
use std::marker::Model;
use tc_count::{Inferred, infer, shapes_of};
use tc_infer::{add, shapes_fit, subtract};
use tc_names::Names;
use tc_schema::Schema;
use tc_value::{Doc, Shape, ShapeItems, ShapeMember};

/// A schema, and the documents that it stands for, the newest first. Contracts see how many documents there are.
#[derive(Drop)]
pub(crate) struct Kept {
    pub(crate) names: Names,
    pub(crate) schema: Schema,
    docs: Vec<Doc>,
}

impl Model for Kept {
    ghost use Rattle.std.specs.Prelude.{ℕ, length, map};
    ghost use Rattle.tc_schema_model.specs.Stands.{StandsFor};
    ghost use Rattle.tc_value.specs.Meaning.{tree_of};

    ghost Value = { ℕ };

    ghost view = { λ a. length a.docs.items };

    ghost invariant = { λ a. StandsFor a.names a.schema (map tree_of a.docs.items) };
}

impl Kept {
    pub(crate) fn none(alloc: Global) -> Kept {
        Kept {
            names: Names::new(alloc),
            schema: Schema::empty(alloc),
            docs: Vec::new(alloc),
        }
    }

    /// Documents, and the schema that is inferred from them.
    pub(crate) fn inferred(alloc: Global, docs: Vec<Doc>) -> Result<Kept, NoAnswer> {
        let _size = size_of_all(docs.as_slice(), alloc)?;
        let Inferred { names, schema } = infer(alloc, docs.as_slice())?;
        Ok(Kept {
            names,
            schema,
            docs,
        })
    }

    /// One document more.
    pub(crate) fn with(self, alloc: Global, doc: Doc) -> Result<Kept, NoAnswer> {
        let Kept {
            mut names,
            mut schema,
            mut docs,
        } = self;
        let _size = size_of_all(docs.as_slice(), alloc)?;
        let shape = doc.shape(alloc)?;
        let Some(_more) = bound_with(&shape, &names) else {
            return Err(NoAnswer);
        };
        add(&mut schema, &mut names, &shape)?;
        docs.insert(0, doc)?;
        Ok(Kept {
            names,
            schema,
            docs,
        })
    }

    /// The document at a place less.
    pub(crate) fn without(self, alloc: Global, at: usize) -> Result<Kept, NoAnswer> {
        let Kept {
            names,
            mut schema,
            mut docs,
        } = self;
        if at >= docs.len() {
            return Err(NoAnswer);
        }
        let shape = docs[at].shape(alloc)?;
        shapes_fit(&schema, &names, &shape);
        subtract(&mut schema, &names, &shape);
        docs.remove(at);
        Ok(Kept {
            names,
            schema,
            docs,
        })
    }

    pub(crate) fn text(&self, alloc: Global) -> Result<String, NoAnswer> {
        text_of_schema(alloc, &self.schema, &self.names)
    }

    /// The text of the schema that is inferred from the documents.
    pub(crate) fn text_anew(&self, alloc: Global) -> Result<String, NoAnswer> {
        let _size = size_of_all(self.docs.as_slice(), alloc)?;
        let fresh = infer(alloc, self.docs.as_slice())?;
        text_of_schema(alloc, &fresh.schema, &fresh.names)
    }

    pub(crate) fn len(&self) -> usize {
        self.docs.len()
    }
}

/// How many values documents have, if they and the bytes of their names are fewer than 2^32.
fn size_of_all(docs: &[Doc], alloc: Global) -> Result<u32, NoAnswer>
    ensures values { IfOk result (λ size. (path : Path) → values_in (map tree_of docs.now) path ≤ size) }
    ensures room { IfOk result (λ _. length (all_learned [] (names_of_documents (map tree_of docs.now))) < 2 ^ 32) }
    ensures short { IfOk result (λ _. All (λ name. length name < 2 ^ 32) (names_of_documents (map tree_of docs.now))) }
{
    let shapes = shapes_of(docs, alloc)?;
    let together = Shape::Array(ShapeItems::of(shapes));
    let Some(size) = size_of(&together) else {
        return Err(NoAnswer);
    };
    Ok(size)
}

/// How many values a shape has, if there is room for its names.
fn bound_with(shape: &Shape, names: &Names) -> Option<u32>
    ensures values { IfSome result (λ size. (path : Path) → values_at (shape_tree shape.now) path ≤ size) }
    ensures room { IfSome result (λ _. length (all_learned names.now (names_within (shape_tree shape.now))) < 2 ^ 32) }
    ensures short { IfSome result (λ _. All (λ name. length name < 2 ^ 32) (names_within (shape_tree shape.now))) }
{
    let size = size_of(shape)?;
    let _numbers = names.len().checked_add(size)?;
    Some(size)
}

/// How many values a shape has, if they and its names' bytes are fewer than 2^32.
#[cycle(sizing)]
fn size_of(shape: &Shape) -> Option<u32>
    ensures size { IfSome result (λ n. n ≡ tree_size (shape_tree shape.now)) }
    ensures short { IfSome result (λ _. AllByRecursion (λ name. length name < 2 ^ 32) (names_within (shape_tree shape.now))) }
{
    match shape {
        Shape::Array(items) => size_of_items(items.as_slice())?.checked_add(1),
        Shape::Object(members) => size_of_members(members.as_slice())?.checked_add(1),
        _ => Some(1),
    }
}

#[cycle(sizing)]
fn size_of_items(items: &[Shape]) -> Option<u32>
    ensures size { IfSome result (λ n. n ≡ trees_size (map shape_tree items.now)) }
    ensures short { IfSome result (λ _. AllByRecursion (λ name. length name < 2 ^ 32) (names_of_items (items_of (map shape_tree items.now)))) }
{
    let mut sum: u32 = 0;
    for item in items {
        sum = sum.checked_add(size_of(item)?)?;
    }
    Some(sum)
}

#[cycle(sizing)]
fn size_of_members(members: &[ShapeMember]) -> Option<u32>
    ensures size { IfSome result (λ n. n ≡ labelled_size (map shape_member members.now)) }
    ensures short { IfSome result (λ _. AllByRecursion (λ name. length name < 2 ^ 32) (names_of_members (members_of (map shape_member members.now)))) }
{
    let mut sum: u32 = 0;
    for member in members {
        if member.name.as_str().len() > 255 {
            return None;
        }
        sum = sum.checked_add(size_of(&member.value)?)?;
    }
    Some(sum)
}
