//! A record counted in the schema and compacted under the names.

ghost use Rattle.std.specs.Prelude.{◌≡◌, ◌+◌, ◌<◌, ◌^◌, IfOk, OnOk, length, true};
ghost use Rattle.tc_model.specs.Dictionary.{all_learned};
ghost use Rattle.tc_model.specs.Document.{Document, document_shape};
ghost use Rattle.tc_model.specs.ShapeNames.{names_within};
ghost use Rattle.tc_schema_model.specs.Added.{added};
ghost use Rattle.tc_schema_model.specs.Counted.{IsCanonical, total_at};
ghost use Rattle.tc_schema_model.specs.Occurrences.{Path};
ghost use Rattle.tc_schema_model.specs.Values.{values_at};
ghost use Rattle.tc_record.specs.Record.{IsRecordOf};
ghost use Rattle.tc_compact.specs.Compacted.{IsCompactedRecordOf};

use std::alloc::Global;
use tc_bytes::{Bytes, Memory};
use tc_compact::{compact_numbered, names_agree};
use tc_infer::{Met, add_learning};
use tc_names::Names;
use tc_record::RecordRef;
use tc_schema::Schema;

/// Learns the new names of a record's document, counts it once more, and answers its compacted record. No tree is made of
/// it: one walk learns and counts, and keeps the numbers of the names, of which the record is then made. Errs only for
/// want of memory.
pub(crate) fn compact_counted(
    alloc: Global,
    of: RecordRef<'_>,
    schema: &mut Schema,
    names: &mut Names,
    met: &mut Met,
) -> Result<Bytes, Memory>
    requires named { of.named ≡ true }
    requires short { length of.bytes < 2 ^ 30 }
    requires canonical { IsCanonical (length names.old) schema.old }
    requires counters { (d : Document) → IsRecordOf d of.bytes → (path : Path) → total_at names.old schema.old path + values_at (document_shape d) path < 2 ^ 64 }
    requires room { (d : Document) → IsRecordOf d of.bytes → length (all_learned names.old (names_within (document_shape d))) < 2 ^ 32 }
    ensures learned { OnOk result ((d : Document) → IsRecordOf d of.entry.bytes → names.new ≡ all_learned names.old (names_within (document_shape d))) }
    ensures counted { OnOk result ((d : Document) → IsRecordOf d of.entry.bytes → schema.new ≡ added names.new (document_shape d) schema.old) }
    ensures compacted { IfOk result (λ bytes. (d : Document) → IsRecordOf d of.entry.bytes → IsCompactedRecordOf names.new d bytes) }
{
    names_agree();
    // that the bytes spell a document
    let _bytes = of.bytes();
    let again = of.again();
    add_learning(schema, names, met, of)?;
    // that the names are a dictionary
    let _known = names.len();
    compact_numbered(alloc, again, met.numbers.as_slice())
}
