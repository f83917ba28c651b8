//! One document less by its record, where all of its names are known.

ghost use Rattle.std.specs.Prelude.{◌≡◌, ◌↔◌, ◌+◌, ◌≤◌, IsTrue, length};
ghost use Rattle.std.specs.Bool.{OnTrue, OnFalse};
ghost use Rattle.tc_model.specs.Document.{Document, document_shape};
ghost use Rattle.tc_model.specs.Kinds as kinds;
ghost use Rattle.tc_compact.specs.Meant.{IsRecordUnder};
ghost use Rattle.tc_schema_model.specs.Added.{removed};
ghost use Rattle.tc_schema_model.specs.Counted.{nothing, shows, total_at, IsCanonical};
ghost use Rattle.tc_schema_model.specs.Fits.{FitsByPath};
ghost use Rattle.tc_schema_model.specs.Occurrences.{Path, occurrences};
ghost use Rattle.tc_infer.specs.Levels.{shape_under};

use crate::known::in_document;
use crate::taking_walk::take_value;
use std::mem;
use tc_names::Names;
use tc_record::RecordRef;
use tc_schema::Schema;
use tc_value::Kind;

/// Takes the document of a record of any form off where the schema fits it, under a dictionary, and answers whether it
/// does. Where it does not, the schema is then that of no document. A number is looked for as it stands. Takes no memory.
pub fn take_known(schema: &mut Schema, names: &Names, of: RecordRef<'_>) -> bool
    requires canonical { IsCanonical (length names.now) schema.old }
    ensures fits { (doc : Document) → IsRecordUnder names.now doc of.entry.bytes → (IsTrue result ↔ FitsByPath names.now schema.old (document_shape doc)) }
    ensures removed { OnTrue result ((doc : Document) → IsRecordUnder names.now doc of.entry.bytes → schema.new ≡ removed names.now (document_shape doc) schema.old) }
    ensures counted { OnTrue result ((doc : Document) → IsRecordUnder names.now doc of.entry.bytes → (path : Path) (t : kinds.Kind) → shows names.now schema.new path t + occurrences (document_shape doc) path t ≡ shows names.now schema.old path t) }
    ensures fewer { OnTrue result ((path : Path) → total_at names.now schema.new path ≤ total_at names.now schema.old path) }
    ensures canonical { OnTrue result (IsCanonical (length names.now) schema.new) }
    ensures spent { OnFalse result (schema.new ≡ nothing) }
{
    // that the names are distinct, and that the bytes spell a document or a numbered tree
    let _known = names.len();
    let _bytes = of.bytes();
    take_meant(schema, names, &of)
}

/// The same by the shape that the tokens mean.
fn take_meant(schema: &mut Schema, names: &Names, of: &RecordRef<'_>) -> bool
    requires canonical { IsCanonical (length names.now) schema.old }
    ensures fits { IsTrue result ↔ FitsByPath names.now schema.old (shape_under names.now of.now.tokens) }
    ensures removed { OnTrue result (schema.new ≡ removed names.now (shape_under names.now of.now.tokens) schema.old) }
    ensures spent { OnFalse result (schema.new ≡ nothing) }
{
    // that the names are distinct, and fewer than 2^32
    let _known = names.len();
    let alloc = *schema.root().fields.allocator();
    let mut root = mem::replace(schema, Schema::empty(alloc)).into_root();
    let mut cursor = in_document(of);
    if !take_value(&mut cursor, Kind::Object, names, &mut root) {
        return false;
    }
    *schema = Schema::of(root);
    true
}
