//! One document less.

ghost use Rattle.std.specs.Prelude.{◌≡◌, ◌↔◌, ◌+◌, ◌++◌, ◌∷◌, IsTrue, List, length};
ghost use Rattle.std.specs.Bool.{OnTrue, OnFalse};
ghost use Rattle.tc_model.specs.Document.{Document, document_shape};
ghost use Rattle.tc_schema_model.specs.Occurrences.{Path, occurrences};
ghost use Rattle.tc_model.specs.Kinds.{Kind, kind_of, objects};
ghost use Rattle.tc_schema_model.specs.Added.{removed};
ghost use Rattle.tc_schema_model.specs.SchemaBytes.{IsSchema};
ghost use Rattle.tc_schema_model.specs.Counted.{nothing, shows, IsCanonical};
ghost use Rattle.tc_schema_model.specs.Fits.{FitsByPath};
ghost use Rattle.tc_schema_model.specs.Stands.{StandsFor};
ghost use Rattle.tc_value.specs.ShapeMeaning.{shape_tree};

use crate::taking::take_shape;
use std::mem;
use tc_names::Names;
use tc_schema::Schema;
use tc_value::Shape;

/// Takes one document of a shape off. Always succeeds, and takes no memory. The field of each member is found by a
/// binary search, and a field that leaves moves those behind it up by one.
pub fn subtract(schema: &mut Schema, names: &Names, shape: &Shape)
    requires fits { FitsByPath names.now schema.old (shape_tree shape.now) }
    ensures removed { schema.new ≡ removed names.now (shape_tree shape.now) schema.old }
    ensures counted { (path : Path) (t : Kind) → shows names.now schema.new path t + occurrences (shape_tree shape.now) path t ≡ shows names.now schema.old path t }
    ensures canonical { IsCanonical (length names.now) schema.new }
    ensures readable { kind_of (shape_tree shape.now) ≡ objects → IsSchema (length names.now) schema.old → IsSchema (length names.now) schema.new }
    ensures stands { (before after : List Document) (doc : Document) → document_shape doc ≡ shape_tree shape.now → StandsFor names.now schema.old (before ++ doc ∷ after) → StandsFor names.now schema.new (before ++ after) }
{
    // that the names are distinct
    let _known = names.len();
    if !subtract_if_fits(schema, names, shape) {
        unreachable!()
    }
}

/// Takes one document of a shape off where the schema fits it, and answers whether it does. Where it does not, the
/// schema is then that of no document. Takes no memory.
pub fn subtract_if_fits(schema: &mut Schema, names: &Names, shape: &Shape) -> bool
    requires canonical { IsCanonical (length names.now) schema.old }
    ensures fits { IsTrue result ↔ FitsByPath names.now schema.old (shape_tree shape.now) }
    ensures removed { OnTrue result (schema.new ≡ removed names.now (shape_tree shape.now) schema.old) }
    ensures spent { OnFalse result (schema.new ≡ nothing) }
{
    // that the names are distinct, and fewer than 2^32
    let _known = names.len();
    let alloc = *schema.root().fields.allocator();
    let mut root = mem::replace(schema, Schema::empty(alloc)).into_root();
    if !take_shape(shape, names, &mut root) {
        return false;
    }
    *schema = Schema::of(root);
    true
}

/// A schema of documents fits the shape of each of them.
pub fn shapes_fit(schema: &Schema, names: &Names, shape: &Shape)
    ensures { (before after : List Document) (doc : Document) → document_shape doc ≡ shape_tree shape.now → StandsFor names.now schema.now (before ++ doc ∷ after) → FitsByPath names.now schema.now (shape_tree shape.now) }
{}
