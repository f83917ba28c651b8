//! The component of a table, written.

ghost use Rattle.std.specs.Prelude.{◌≡◌, ◌<◌, ◌^◌, ◌++◌, [], List, IfErr, IfOk, IsErrOf, OnOk, false};
ghost use Rattle.std.specs.Result.{IsErrAnd};
ghost use Rattle.tc_store.specs.Counted.{IsCounted};
ghost use Rattle.tc_store.specs.DiskFile.{settled_file};
ghost use Rattle.tc_store.specs.Gate.{IsClosed, IsShutOr, IsShutOrWhole};
ghost use Rattle.tc_store.specs.Images.{Image};
ghost use Rattle.tc_store.specs.Moments.{IfTold, LeavesAt, LeavesOnly};
ghost use Rattle.tc_component.specs.Building.{HasRows};
ghost use Rattle.tc_component.specs.Spelling.{Row};
ghost use Rattle.tc_memory.specs.DocumentTables.{IsTableOf};
ghost use Rattle.tc_lsm_model.specs.Tables.{Table, writes_of, shapes_held};
ghost use Rattle.tc_flush.specs.Flushable.{CanCount, CanFlush};
ghost use Rattle.tc_flush.specs.Flushing.{flush_bytes};
ghost use Rattle.tc_flush.specs.Recounting.{FitsEach, all_removed, all_added, names_with, shapes_kept};
ghost use Rattle.tc_component.specs.Rows.{rows_of};

use crate::entry::put_entry;
use std::alloc::Global;
use tc_compact::names_agree;
use tc_component::{Builder, Head};
use tc_infer::{Met, subtract};
use tc_lsm_model::flushes_learn_names;
use tc_memory::{Sealed, tables_keep_documents};
use tc_names::Names;
use tc_record::one_document;
use tc_schema::Schema;
use tc_store::{Broken, Device, DeviceFault};

/// Takes off the shapes that a table keeps, each once. Takes no memory.
pub(crate) fn take_off(sealed: &Sealed, names: &Names, schema: &mut Schema)
    requires { FitsEach names.now (shapes_kept sealed.now) schema.old }
    ensures { schema.new ≡ all_removed names.now (shapes_kept sealed.now) schema.old }
{
    let mut entries = sealed.entries();
    while let Some(entry) = entries.next() {
        if let Some(shape) = entry.below {
            subtract(schema, names, shape);
        }
    }
}

/// Counts and pushes all entries of a table, in ascending key. Errs only for want of memory and for a fault of the device.
pub(crate) fn put_entries<D: Device>(
    alloc: Global,
    sealed: &Sealed,
    schema: &mut Schema,
    names: &mut Names,
    builder: &mut Builder<D>,
    watch: &mut D::Watch,
) -> Result<(), DeviceFault>
    requires can { (t : Table) → IsTableOf t sealed.now → CanCount names.old schema.old t }
    requires going_on { builder.old.failed ≡ false }

    ensures learned { OnOk result ((t : Table) → IsTableOf t sealed.now → names.new ≡ names_with names.old (shapes_held t)) }
    ensures counted { OnOk result ((t : Table) → IsTableOf t sealed.now → schema.new ≡ all_added names.old (shapes_held t) schema.old) }
    ensures pushed { OnOk result ((t : Table) (rows : List Row) → IsTableOf t sealed.now
        → HasRows (D.history builder.old.device) builder.old rows → HasRows (D.history builder.new.device) builder.new (rows ++ rows_of (names_with names.old (shapes_held t)) (writes_of t))) }
    ensures head { builder.new.head ≡ builder.old.head }
    ensures not_failed { OnOk result (builder.new.failed ≡ false) }
    ensures name { D.name builder.new.device ≡ D.name builder.old.device }
    ensures moments { LeavesOnly IsClosed (D.history builder.old.device) (D.history builder.new.device) }
    ensures watched { IsCounted (IsErrOf result DeviceFault.Fault) (D.Watch.counts watch.old) (D.Watch.counts watch.new) }
{
    one_document();
    names_agree();
    tables_keep_documents();
    let _known = names.len();
    let mut met = Met::new(alloc);
    let mut entries = sealed.entries();
    while let Some(entry) = entries.next() {
        put_entry(alloc, entry, schema, names, &mut met, builder, watch)?;
    }
    Ok(())
}

/// Writes the component of a table over the newest schema and names, behind a gate.
pub(crate) fn write<D: Device>(
    alloc: Global,
    sealed: &Sealed,
    schema: Schema,
    names: Names,
    device: D,
    head: Head,
    watch: &mut D::Watch,
) -> Result<D, Broken<D>>
    requires can { (t : Table) → IsTableOf t sealed.now → CanFlush names schema t }
    requires empty { D.size device ≡ 0 }

    ensures whole { IfOk result (λ written. (t : Table) → IsTableOf t sealed.now → IfTold (D.history written) (λ f. f ≡ settled_file (flush_bytes head names schema t))) }
    ensures size { IfOk result (λ written. D.size written < 2 ^ 63) }
    ensures name { IfOk result (λ written. D.name written ≡ D.name device) }
    ensures broken_name { IfErr result (λ broken. D.name broken.device ≡ D.name device) }
    ensures moments { (before : Image) (t : Table) → IsTableOf t sealed.now → IfTold (D.history device) (LeavesAt (IsShutOr before))
        → IfOk result (λ written. LeavesOnly (IsShutOrWhole before (flush_bytes head names schema t)) (D.history device) (D.history written)) }
    ensures broken_moments { (before : Image) (t : Table) → IsTableOf t sealed.now → IfTold (D.history device) (LeavesAt (IsShutOr before))
        → IfErr result (λ broken. LeavesOnly (IsShutOrWhole before (flush_bytes head names schema t)) (D.history device) (D.history broken.device)) }
    ensures watched { IsCounted (IsErrAnd result (λ broken. broken.cause ≡ DeviceFault.Fault)) (D.Watch.counts watch.old) (D.Watch.counts watch.new) }
{
    tables_keep_documents();
    flushes_learn_names();
    // that the names are a dictionary, and that the table is lawful
    let _known = names.len();
    let _entries = sealed.len();
    let mut schema = schema;
    let mut names = names;
    let mut builder = match Builder::begin(alloc, device, head, watch) {
        Ok(builder) => builder,
        Err(broken) => return Err(broken),
    };
    take_off(sealed, &names, &mut schema);
    match put_entries(alloc, sealed, &mut schema, &mut names, &mut builder, watch) {
        Ok(()) => builder.finish(&names, &schema, watch),
        Err(cause) => Err(Broken {
            device: builder.give_back(),
            cause,
        }),
    }
}
