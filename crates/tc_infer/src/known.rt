//! One document more by its record, where all of its names are known.

ghost use Rattle.std.specs.Prelude.{◌≡◌, ◌+◌, ◌<◌, ◌^◌, List, IsOk, OnOk, OnErr, length, true};
ghost use Rattle.tc_model.specs.Document.{Name, Document, document_shape};
ghost use Rattle.tc_model.specs.Kinds as kinds;
ghost use Rattle.tc_compact.specs.Meant.{IsRecordUnder};
ghost use Rattle.tc_schema_model.specs.Added.{added, IsNamed};
ghost use Rattle.tc_schema_model.specs.Counted.{nothing, shows, total_at, IsCanonical};
ghost use Rattle.tc_schema_model.specs.HasCounters.{has_counters};
ghost use Rattle.tc_schema_model.specs.Occurrences.{Path, occurrences};
ghost use Rattle.tc_schema_model.specs.Values.{values_at};
ghost use Rattle.tc_infer.specs.Known.{IsCountable};
ghost use Rattle.tc_infer.specs.Levels.{begun, levels, levels_under, shape_told, shape_under};

use crate::walking::count_value;
use std::mem;
use tc_bytes::Memory;
use tc_names::Names;
use tc_record::{Cursor, RecordRef};
use tc_schema::Schema;
use tc_value::Kind;

/// Counts the document of a record of any form once more, under a dictionary that has all of its names. A number is
/// counted as it stands, and its name is not looked at. Errs only for want of memory: the schema is then that of no document.
pub fn add_known(schema: &mut Schema, names: &Names, of: RecordRef<'_>) -> Result<(), Memory>
    requires countable { IsCountable names.now schema.old of.bytes }
    requires canonical { IsCanonical (length names.now) schema.old }
    ensures added { OnOk result ((doc : Document) → IsRecordUnder names.now doc of.entry.bytes → schema.new ≡ added names.now (document_shape doc) schema.old) }
    ensures counted { OnOk result ((doc : Document) → IsRecordUnder names.now doc of.entry.bytes → (path : Path) (t : kinds.Kind) → shows names.now schema.new path t ≡ shows names.now schema.old path t + occurrences (document_shape doc) path t) }
    ensures canonical { OnOk result (IsCanonical (length names.now) schema.new) }
    ensures spent { OnErr result (schema.new ≡ nothing) }
{
    // that the bytes spell a document or a numbered tree
    let _bytes = of.bytes();
    add_meant(schema, names, &of)
}

/// The same by the shape that the tokens mean.
pub fn add_meant(schema: &mut Schema, names: &Names, of: &RecordRef<'_>) -> Result<(), Memory>
    requires named { IsNamed names.now (shape_under names.now of.now.tokens) }
    requires canonical { IsCanonical (length names.now) schema.old }
    requires counters { (path : Path) → total_at names.now schema.old path + values_at (shape_under names.now of.now.tokens) path < 2 ^ 64 }
    ensures added { OnOk result (schema.new ≡ added names.now (shape_under names.now of.now.tokens) schema.old) }
    ensures sure { has_counters names.now (shape_under names.now of.now.tokens) schema.old ≡ true → IsOk result }
    ensures spent { OnErr result (schema.new ≡ nothing) }
{
    // that the names are fewer than 2^32
    let _known = names.len();
    let alloc = *schema.root().fields.allocator();
    let mut root = mem::replace(schema, Schema::empty(alloc)).into_root();
    let mut cursor = in_document(of);
    count_value(&mut cursor, Kind::Object, names, &mut root, alloc)?;
    *schema = Schema::of(root);
    Ok(())
}

/// A cursor behind the first token of a record, which opens the document.
pub fn in_document<'a>(of: &RecordRef<'a>) -> Cursor<'a>
    ensures told { begun kinds.objects (levels result) ≡ shape_told of.now.tokens }
    ensures under { (names : List Name) → begun kinds.objects (levels_under names result) ≡ shape_under names of.now.tokens }
{
    let mut cursor = of.cursor();
    let _document = cursor.next();
    cursor
}
