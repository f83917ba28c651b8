//! One document more by its record, with its names learned on the way.

ghost use Rattle.std.specs.Prelude.{◌≡◌, ◌+◌, ◌<◌, ◌^◌, OnOk, OnErr, length, map, true};
ghost use Rattle.tc_model.specs.Document.{Document, document_shape};
ghost use Rattle.tc_model.specs.Dictionary.{all_learned, number};
ghost use Rattle.tc_model.specs.ShapeNames.{names_within};
ghost use Rattle.tc_record.specs.Record.{IsRecordOf, joined};
ghost use Rattle.tc_schema_model.specs.Added.{added};
ghost use Rattle.tc_schema_model.specs.Counted.{nothing, total_at, IsCanonical};
ghost use Rattle.tc_schema_model.specs.Occurrences.{Path};
ghost use Rattle.tc_schema_model.specs.Values.{values_at};
ghost use Rattle.tc_infer.specs.Levels.{shape_told};

use crate::known::in_document;
use crate::met::Met;
use crate::numbering::learn_value;
use std::mem;
use tc_bytes::Memory;
use tc_names::Names;
use tc_record::RecordRef;
use tc_schema::Schema;
use tc_value::Kind;

/// Counts the document of a record of form 0 once more and learns its new names in preorder, in one walk, and keeps the
/// numbers of its names in their order. Errs only for want of memory: the schema is then that of no document, and some of
/// the new names may have been learned.
pub fn add_learning(
    schema: &mut Schema,
    names: &mut Names,
    met: &mut Met,
    of: RecordRef<'_>,
) -> Result<(), Memory>
    requires named { of.named ≡ true }
    requires canonical { IsCanonical (length names.old) schema.old }
    requires counters { (doc : Document) → IsRecordOf doc of.bytes → (path : Path) → total_at names.old schema.old path + values_at (document_shape doc) path < 2 ^ 64 }
    requires room { (doc : Document) → IsRecordOf doc of.bytes → length (all_learned names.old (names_within (document_shape doc))) < 2 ^ 32 }
    requires short { (doc : Document) → IsRecordOf doc of.bytes → length (joined (names_within (document_shape doc))) < 2 ^ 32 }
    ensures added { OnOk result ((doc : Document) → IsRecordOf doc of.entry.bytes → schema.new ≡ added names.new (document_shape doc) schema.old) }
    ensures names { OnOk result ((doc : Document) → IsRecordOf doc of.entry.bytes → names.new ≡ all_learned names.old (names_within (document_shape doc))) }
    ensures numbers { OnOk result ((doc : Document) → IsRecordOf doc of.entry.bytes → met.new.numbers.items ≡ map (number names.new) (names_within (document_shape doc))) }
    ensures bytes { OnOk result ((doc : Document) → IsRecordOf doc of.entry.bytes → met.new.name_bytes ≡ length (joined (names_within (document_shape doc)))) }
    ensures spent { OnErr result (schema.new ≡ nothing) }
{
    // that the bytes spell a document
    let _bytes = of.bytes();
    count_learned(schema, names, met, &of)
}

/// The same by the shape that the tokens tell.
fn count_learned(
    schema: &mut Schema,
    names: &mut Names,
    met: &mut Met,
    of: &RecordRef<'_>,
) -> Result<(), Memory>
    requires canonical { IsCanonical (length names.old) schema.old }
    requires counters { (path : Path) → total_at names.old schema.old path + values_at (shape_told of.now.tokens) path < 2 ^ 64 }
    requires room { length (all_learned names.old (names_within (shape_told of.now.tokens))) < 2 ^ 32 }
    requires short { length (joined (names_within (shape_told of.now.tokens))) < 2 ^ 32 }
    ensures added { OnOk result (schema.new ≡ added names.new (shape_told of.now.tokens) schema.old) }
    ensures names { OnOk result (names.new ≡ all_learned names.old (names_within (shape_told of.now.tokens))) }
    ensures numbers { OnOk result (met.new.numbers.items ≡ map (number names.new) (names_within (shape_told of.now.tokens))) }
    ensures bytes { OnOk result (met.new.name_bytes ≡ length (joined (names_within (shape_told of.now.tokens)))) }
    ensures spent { OnErr result (schema.new ≡ nothing) }
{
    met.clear();
    let alloc = *schema.root().fields.allocator();
    let mut root = mem::replace(schema, Schema::empty(alloc)).into_root();
    let mut cursor = in_document(of);
    learn_value(&mut cursor, Kind::Object, names, met, &mut root, alloc)?;
    // that the names are fewer than 2^32
    let _known = names.len();
    *schema = Schema::of(root);
    Ok(())
}
