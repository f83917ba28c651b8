//! One document more.

ghost use Rattle.std.specs.Prelude.{◌≡◌, ◌+◌, ◌<◌, ◌≤◌, ◌^◌, ◌∷◌, All, List, OnOk, OnErr, length};
ghost use Rattle.tc_model.specs.Document.{Document, document_shape};
ghost use Rattle.tc_schema_model.specs.Occurrences.{Path, occurrences};
ghost use Rattle.tc_model.specs.Limits.{max_depth};
ghost use Rattle.tc_model.specs.Tree.{depth};
ghost use Rattle.tc_model.specs.Kinds.{Kind, kind_of, objects};
ghost use Rattle.tc_schema_model.specs.Counted.{nothing, shows, total_at, IsCanonical};
ghost use Rattle.tc_schema_model.specs.Added.{added};
ghost use Rattle.tc_schema_model.specs.SchemaBytes.{IsSchema};
ghost use Rattle.tc_schema_model.specs.Stands.{StandsFor};
ghost use Rattle.tc_model.specs.Dictionary.{Extends, all_learned};
ghost use Rattle.tc_value.specs.ShapeMeaning.{shape_tree};
ghost use Rattle.tc_model.specs.ShapeNames.{names_within};
ghost use Rattle.tc_schema_model.specs.Values.{values_at};

use crate::counting::count_shape;
use crate::learning::learn_names;
use std::mem;
use tc_bytes::Memory;
use tc_names::Names;
use tc_schema::Schema;
use tc_value::Shape;

/// Counts one document of a shape more. Its new names are learned in preorder. Errs only for want of memory: the
/// schema is then that of no document, and some of the new names may have been learned.
pub fn add(schema: &mut Schema, names: &mut Names, shape: &Shape) -> Result<(), Memory>
    requires canonical { IsCanonical (length names.old) schema.old }
    requires counters { (path : Path) → total_at names.old schema.old path + values_at (shape_tree shape.now) path < 2 ^ 64 }
    requires room { length (all_learned names.old (names_within (shape_tree shape.now))) < 2 ^ 32 }
    requires short { All (λ name. length name < 2 ^ 32) (names_within (shape_tree shape.now)) }
    ensures added { OnOk result (schema.new ≡ added names.new (shape_tree shape.now) schema.old) }
    ensures counted { OnOk result ((path : Path) (t : Kind) → shows names.new schema.new path t ≡ shows names.old schema.old path t + occurrences (shape_tree shape.now) path t) }
    ensures canonical { OnOk result (IsCanonical (length names.new) schema.new) }
    ensures readable { OnOk result (kind_of (shape_tree shape.now) ≡ objects → depth (shape_tree shape.now) ≤ max_depth → IsSchema (length names.old) schema.old → IsSchema (length names.new) schema.new) }
    ensures stands { OnOk result ((docs : List Document) (doc : Document) → document_shape doc ≡ shape_tree shape.now → StandsFor names.old schema.old docs → StandsFor names.new schema.new (doc ∷ docs)) }
    ensures names { OnOk result (names.new ≡ all_learned names.old (names_within (shape_tree shape.now))) }
    ensures extends { Extends names.new names.old }
    ensures spent { OnErr result (schema.new ≡ nothing) }
{
    let alloc = *schema.root().fields.allocator();
    let mut root = mem::replace(schema, Schema::empty(alloc)).into_root();
    learn_names(shape, names)?;
    // that the names are distinct
    let _known = names.len();
    count_shape(shape, names, &mut root, alloc)?;
    *schema = Schema::of(root);
    Ok(())
}
