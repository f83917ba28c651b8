//! The schema of documents.

ghost use Rattle.std.specs.Prelude.{◌≡◌, ◌<◌, ◌^◌, [], All, IfOk, length, map};
ghost use Rattle.tc_schema_model.specs.Stands.{StandsFor};
ghost use Rattle.tc_value.specs.Meaning.{tree_of};
ghost use Rattle.tc_value.specs.ShapeMeaning.{shape_tree};
ghost use Rattle.tc_model.specs.Document.{document_shape};
ghost use Rattle.tc_model.specs.ShapeNames.{names_of_documents};
ghost use Rattle.tc_model.specs.Dictionary.{all_learned};

use crate::counting::root_of;
use crate::naming::{dictionary_of, names_of};
use std::alloc::{AllocError, Global};
use tc_bytes::Memory;
use tc_names::Names;
use tc_schema::Schema;
use tc_value::{Doc, Shape};

/// A schema and the names that its numbers stand for.
#[derive(Drop)]
pub struct Inferred {
    pub names: Names,
    pub schema: Schema,
}

/// The schema of documents, and their names in the order in which they first come. At each place the values are grouped
/// by kind, and the members of objects by name: one pass over the members for each name, so it is slow. Errs only for
/// want of memory.
pub fn infer(alloc: Global, docs: &[Doc]) -> Result<Inferred, Memory>
    requires room { length (all_learned [] (names_of_documents (map tree_of docs.now))) < 2 ^ 32 }
    requires short { All (λ name. length name < 2 ^ 32) (names_of_documents (map tree_of docs.now)) }
    ensures stands { IfOk result (λ inferred. StandsFor inferred.names inferred.schema (map tree_of docs.now)) }
    ensures names { IfOk result (λ inferred. inferred.names ≡ all_learned [] (names_of_documents (map tree_of docs.now))) }
{
    let shapes = shapes_of(docs, alloc)?;
    let listed = names_of(shapes.as_slice(), alloc)?;
    let names = dictionary_of(listed.as_slice(), alloc)?;
    let root = root_of(shapes.as_slice(), &names, alloc)?;
    // that the names are distinct, and fewer than 2^32
    let _known = names.len();
    let schema = Schema::of(root);
    Ok(Inferred { names, schema })
}

/// The shapes of documents. Errs only for want of memory.
pub fn shapes_of(docs: &[Doc], alloc: Global) -> Result<Vec<Shape>, AllocError>
    ensures { IfOk result (λ shapes. map shape_tree shapes.items ≡ map document_shape (map tree_of docs.now)) }
{
    let mut shapes = Vec::new(alloc);
    for doc in docs {
        shapes.push(doc.shape(alloc)?)?;
    }
    Ok(shapes)
}
