//! One document more by its record.

ghost use Rattle.std.specs.Prelude.{◌≡◌, ◌+◌, ◌<◌, ◌^◌, ◌∷◌, All, List, OnOk, OnErr, length, true};
ghost use Rattle.std.specs.List.{AllByRecursion};
ghost use Rattle.tc_model.specs.Document.{Name, Document, document_shape};
ghost use Rattle.tc_model.specs.Dictionary.{Extends, all_learned};
ghost use Rattle.tc_model.specs.Kinds as kinds;
ghost use Rattle.tc_model.specs.ShapeNames.{names_within};
ghost use Rattle.tc_record.specs.Record.{IsRecordOf};
ghost use Rattle.tc_compact.specs.Meant.{tokens_meant};
ghost use Rattle.tc_schema_model.specs.Added.{added};
ghost use Rattle.tc_schema_model.specs.Counted.{nothing, shows, total_at, IsCanonical};
ghost use Rattle.tc_schema_model.specs.Occurrences.{Path, occurrences};
ghost use Rattle.tc_schema_model.specs.SchemaBytes.{IsSchema};
ghost use Rattle.tc_schema_model.specs.Stands.{StandsFor};
ghost use Rattle.tc_schema_model.specs.Values.{values_at};
ghost use Rattle.tc_infer.specs.Levels.{names_told, shape_told};

use crate::known::in_document;
use crate::walking::count_value;
use std::mem;
use tc_bytes::Memory;
use tc_names::Names;
use tc_record::{Label, RecordRef};
use tc_schema::Schema;
use tc_value::Kind;

/// Counts the document of a record of form 0 once more, as `add` does its shape. Its new names are learned in preorder.
/// Errs only for want of memory: the schema is then that of no document, and some of the new names may have been
/// learned.
pub fn add_record(schema: &mut Schema, names: &mut Names, of: RecordRef<'_>) -> Result<(), Memory>
    requires named { of.named ≡ true }
    requires canonical { IsCanonical (length names.old) schema.old }
    requires counters { (doc : Document) → IsRecordOf doc of.bytes → (path : Path) → total_at names.old schema.old path + values_at (document_shape doc) path < 2 ^ 64 }
    requires room { (doc : Document) → IsRecordOf doc of.bytes → length (all_learned names.old (names_within (document_shape doc))) < 2 ^ 32 }
    requires short { (doc : Document) → IsRecordOf doc of.bytes → All (λ name. length name < 2 ^ 32) (names_within (document_shape doc)) }
    ensures added { OnOk result ((doc : Document) → IsRecordOf doc of.entry.bytes → schema.new ≡ added names.new (document_shape doc) schema.old) }
    ensures counted { OnOk result ((doc : Document) → IsRecordOf doc of.entry.bytes → (path : Path) (t : kinds.Kind) → shows names.new schema.new path t ≡ shows names.old schema.old path t + occurrences (document_shape doc) path t) }
    ensures canonical { OnOk result (IsCanonical (length names.new) schema.new) }
    ensures readable { OnOk result (IsSchema (length names.old) schema.old → IsSchema (length names.new) schema.new) }
    ensures stands { OnOk result ((docs : List Document) (doc : Document) → IsRecordOf doc of.entry.bytes → StandsFor names.old schema.old docs → StandsFor names.new schema.new (doc ∷ docs)) }
    ensures names { OnOk result ((doc : Document) → IsRecordOf doc of.entry.bytes → names.new ≡ all_learned names.old (names_within (document_shape doc))) }
    ensures extends { Extends names.new names.old }
    ensures spent { OnErr result (schema.new ≡ nothing) }
{
    // that the bytes spell a document, and that the names are distinct
    let _bytes = of.bytes();
    let _known = names.len();
    add_told(schema, names, &of)
}

/// The same by the shape that the tokens tell.
fn add_told(schema: &mut Schema, names: &mut Names, of: &RecordRef<'_>) -> Result<(), Memory>
    requires plain { (known : List Name) → tokens_meant known of.now.tokens ≡ of.now.tokens }
    requires canonical { IsCanonical (length names.old) schema.old }
    requires agree { names_told of.now.tokens ≡ names_within (shape_told of.now.tokens) }
    requires counters { (path : Path) → total_at names.old schema.old path + values_at (shape_told of.now.tokens) path < 2 ^ 64 }
    requires room { length (all_learned names.old (names_within (shape_told of.now.tokens))) < 2 ^ 32 }
    requires short { AllByRecursion (λ name. length name < 2 ^ 32) (names_within (shape_told of.now.tokens)) }
    ensures done { OnOk result ((names.new ≡ all_learned names.old (names_within (shape_told of.now.tokens))) × (schema.new ≡ added names.new (shape_told of.now.tokens) schema.old)) }
    ensures extends { Extends names.new names.old }
    ensures spent { OnErr result (schema.new ≡ nothing) }
{
    let alloc = *schema.root().fields.allocator();
    let mut root = mem::replace(schema, Schema::empty(alloc)).into_root();
    learn_told(of, names)?;
    // that the names are fewer than 2^32
    let _known = names.len();
    let mut cursor = in_document(of);
    count_value(&mut cursor, Kind::Object, names, &mut root, alloc)?;
    *schema = Schema::of(root);
    Ok(())
}

/// Learns the names that the tokens carry, from the front. Errs only for want of memory, with some of them learned.
fn learn_told(of: &RecordRef<'_>, names: &mut Names) -> Result<(), Memory>
    requires room { length (all_learned names.old (names_told of.now.tokens)) < 2 ^ 32 }
    requires short { AllByRecursion (λ name. length name < 2 ^ 32) (names_told of.now.tokens) }
    ensures ok { OnOk result (names.new ≡ all_learned names.old (names_told of.now.tokens)) }
    ensures extends { Extends names.new names.old }
{
    let mut cursor = of.cursor();
    while let Some(token) = cursor.next() {
        if let Label::Name(name) = token.label {
            names.learn(name)?;
        }
    }
    Ok(())
}
