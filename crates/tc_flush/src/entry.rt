//! One entry of a table, counted and pushed.

ghost use Rattle.std.specs.Prelude.{◌≡◌, ◌++◌, ◌∷◌, [], List, IsErrOf, OnOk, false};
ghost use Rattle.tc_model.specs.Dictionary.{Extends, IsDictionary};
ghost use Rattle.tc_model.specs.Document.{Name};
ghost use Rattle.tc_store.specs.Counted.{IsCounted};
ghost use Rattle.tc_store.specs.Gate.{IsClosed};
ghost use Rattle.tc_store.specs.Moments.{LeavesOnly};
ghost use Rattle.tc_component.specs.Building.{HasRows};
ghost use Rattle.tc_component.specs.Spelling.{Row};
ghost use Rattle.tc_memory.specs.DocumentTables.{IsTableOf};
ghost use Rattle.tc_memory.specs.Meaning.{IsLawfulHeld, entry_of};
ghost use Rattle.tc_lsm_model.specs.Tables.{Table, writes_of, shapes_held};
ghost use Rattle.tc_flush.specs.Flushable.{CanCount};
ghost use Rattle.tc_flush.specs.Recounting.{names_with, all_added};
ghost use Rattle.tc_component.specs.Rows.{rows_of};

use crate::record::compact_counted;
use std::alloc::Global;
use tc_compact::round_trip;
use tc_component::Builder;
use tc_infer::Met;
use tc_memory::{Entry, Held};
use tc_names::Names;
use tc_record::{RecordRef, one_document};
use tc_schema::Schema;
use tc_store::{Device, DeviceFault};

/// Counts the document of an entry, if it has one, and pushes the entry with its compacted record. Errs only for want of
/// memory and for a fault of the device.
pub(crate) fn put_entry<D: Device>(
    alloc: Global,
    entry: Entry<'_>,
    schema: &mut Schema,
    names: &mut Names,
    met: &mut Met,
    builder: &mut Builder<D>,
    watch: &mut D::Watch,
) -> Result<(), DeviceFault>
    requires lawful { IsLawfulHeld entry.held }
    requires can { (t : Table) → IsTableOf t (entry_of entry ∷ []) → CanCount names.old schema.old t }
    requires going_on { builder.old.failed ≡ false }

    ensures learned { OnOk result ((t : Table) → IsTableOf t (entry_of entry.entry ∷ []) → names.new ≡ names_with names.old (shapes_held t)) }
    ensures counted { OnOk result ((t : Table) → IsTableOf t (entry_of entry.entry ∷ []) → schema.new ≡ all_added names.old (shapes_held t) schema.old) }
    ensures pushed { OnOk result ((t : Table) (newer : List Name) (rows : List Row) → IsTableOf t (entry_of entry.entry ∷ []) → IsDictionary newer → Extends newer names.new
        → HasRows (D.history builder.old.device) builder.old rows → HasRows (D.history builder.new.device) builder.new (rows ++ rows_of newer (writes_of t))) }
    ensures head { builder.new.head ≡ builder.old.head }
    ensures not_failed { OnOk result (builder.new.failed ≡ false) }
    ensures name { D.name builder.new.device ≡ D.name builder.old.device }
    ensures moments { LeavesOnly IsClosed (D.history builder.old.device) (D.history builder.new.device) }
    ensures watched { IsCounted (IsErrOf result DeviceFault.Fault) (D.Watch.counts watch.old) (D.Watch.counts watch.new) }
{
    round_trip();
    one_document();
    match entry.held {
        Held::Gone => builder.push(entry.key, None, watch),
        Held::Live(bytes) => {
            let of = RecordRef::known(bytes.as_slice());
            let record = compact_counted(alloc, of, schema, names, met)?;
            builder.push(entry.key, Some(record.as_slice()), watch)
        }
    }
}
