//! What was live of a key is taken off.

ghost use Rattle.std.specs.Prelude.{◌≡◌, ◌≤◌, ◌<◌, ℕ, List, IfOk, OnOk, IsErrOf, IsTrue, false, length, Some};
ghost use Rattle.tc_model.specs.Dictionary.{Extends};
ghost use Rattle.tc_model.specs.Document.{Document, document_shape};
ghost use Rattle.tc_model.specs.Keyed.{value_of, values_in};
ghost use Rattle.tc_lsm_model.specs.Contents.{Partition, Content};
ghost use Rattle.tc_lsm_model.specs.Lists.{live};
ghost use Rattle.tc_plain_model.specs.Writes.{Pairs};
ghost use Rattle.tc_schema_model.specs.Counted.{total_at, IsCanonical};
ghost use Rattle.tc_schema_model.specs.Occurrences.{Path};
ghost use Rattle.tc_schema_model.specs.Stands.{StandsFor};
ghost use Rattle.tc_schema_model.specs.Fits.{FitsByPath};
ghost use Rattle.tc_record.specs.Borrowed.{IsRecord};
ghost use Rattle.tc_compact.specs.Meant.{IsRecordUnder};
ghost use Rattle.tc_component.specs.Fetching.{IsPlace, IsRecordWithin, record_at};
ghost use Rattle.tc_audit.specs.Reasons.{AreRight, IsWatched};
ghost use Rattle.tc_audit.specs.Stops.{IfWrong, position_of};
ghost use Rattle.tc_audit.specs.Walking.{AreInFront, IsLessBy, IsStoredAt};

use crate::counting::Recount;
use crate::law::stored_records_make_contents;
use crate::stop::{Stop, of_read};
use crate::verdict::Wrong;
use std::alloc::Global;
use tc_bytes::Bytes;
use tc_compact::round_trip;
use tc_component::{Component, Place};
use tc_infer::take_known;
use tc_list::{ComponentList, Whereabouts, loaded_components_show_contents};
use tc_record::RecordRef;
use tc_store::Frozen;

/// Takes off what was live of a key in the components that are older, by at most one read. Where the record that is read now
/// does not fit what was counted, it is told to be wrong; files that stay as they are have none such.
pub(crate) fn take_off<F: Frozen>(
    alloc: Global,
    older: &ComponentList<F>,
    key: u64,
    recount: &mut Recount,
    watch: &mut F::Watch,
) -> Result<(), Stop>
    requires canonical { IsCanonical (length recount.old.names) recount.old.schema }
    requires newer { AreInFront older.now recount.old.names }
    ensures names { recount.new.names ≡ recount.old.names }
    ensures gained { recount.new.gained ≡ recount.old.gained }
    ensures rest { (recount.new.shapes ≡ recount.old.shapes) × (recount.new.waits ≡ recount.old.waits) }
    ensures canonical { OnOk result (IsCanonical (length recount.old.names) recount.new.schema) }
    ensures room { OnOk result ((path : Path) → total_at recount.old.names recount.new.schema path ≤ total_at recount.old.names recount.old.schema path) }
    ensures taken { OnOk result ((part : Partition) (cs : List Content) → AreRight F.content part older.now cs → IsLessBy (value_of key (live cs)) recount.old.names recount.old.schema recount.new.schema) }
    ensures place { IfWrong result (λ w. position_of w < length older.now) }
    ensures harmless { IfWrong result (λ w. (part : Partition) (cs : List Content) (ps : Pairs) → AreRight F.content part older.now cs → value_of key ps ≡ value_of key (live cs) → StandsFor recount.old.names recount.old.schema (values_in ps) → ⊥) }
    ensures watched { IsWatched (IsErrOf result Stop.Disk) (F.Watch.counts watch.old) (F.Watch.counts watch.new) }
{
    loaded_components_show_contents::<F>();
    stored_records_make_contents();
    match older.find(key) {
        Whereabouts::Absent => Ok(()),
        Whereabouts::At {
            component: at,
            place,
        } => {
            let component = older.component_at(at);
            take_off_from(alloc, component, at, place, recount, watch)
        }
    }
}

/// Takes off the document of the record at a place of the component at a position.
fn take_off_from<F: Frozen>(
    alloc: Global,
    component: &Component<F>,
    number: usize,
    place: Place,
    recount: &mut Recount,
    watch: &mut F::Watch,
) -> Result<(), Stop>
    requires place { IsPlace component.now.index.slots place }
    requires canonical { IsCanonical (length recount.old.names) recount.old.schema }
    requires newer { Extends recount.old.names component.now.index.names }
    ensures names { recount.new.names ≡ recount.old.names }
    ensures gained { recount.new.gained ≡ recount.old.gained }
    ensures rest { (recount.new.shapes ≡ recount.old.shapes) × (recount.new.waits ≡ recount.old.waits) }
    ensures canonical { OnOk result (IsCanonical (length recount.old.names) recount.new.schema) }
    ensures room { OnOk result ((path : Path) → total_at recount.old.names recount.new.schema path ≤ total_at recount.old.names recount.old.schema path) }
    ensures taken { OnOk result ((d : Document) (whole : List ℕ) → IsStoredAt F.content component.now place.at d whole → IsLessBy (Some d) recount.old.names recount.old.schema recount.new.schema) }
    ensures place { IfWrong result (λ w. position_of w ≡ number) }
    ensures harmless { IfWrong result (λ w. (d : Document) (whole : List ℕ) → IsStoredAt F.content component.now place.at d whole → FitsByPath recount.old.names recount.old.schema (document_shape d) → ⊥) }
    ensures watched { IsWatched (IsErrOf result Stop.Disk) (F.Watch.counts watch.old) (F.Watch.counts watch.new) }
{
    round_trip();
    // that the names are dictionaries
    let _lawful = component.file_len();
    let _known = recount.names.len();
    let bytes = read_again(alloc, component, number, place, watch)?;
    if take_record(bytes.as_slice(), recount) {
        return Ok(());
    }
    let (place, _len) = component.record_range(place);
    Err(Stop::Wrong(Wrong::Record {
        component: number,
        place,
        bytes,
    }))
}

/// The record at a place of the component at a position, read once more.
fn read_again<F: Frozen>(
    alloc: Global,
    component: &Component<F>,
    number: usize,
    place: Place,
    watch: &mut F::Watch,
) -> Result<Bytes, Stop>
    requires place { IsPlace component.now.index.slots place }
    ensures found { IfOk result (λ bytes. IsRecordWithin component.now.index.version (length component.now.index.names) bytes) }
    ensures read { IfOk result (λ bytes. (whole : List ℕ) → F.content component.now.file ≡ Some whole → bytes ≡ record_at component.now.index.slots place.at whole) }
    ensures place { IfWrong result (λ w. position_of w ≡ number) }
    ensures harmed { IfWrong result (λ w. (whole : List ℕ) → F.content component.now.file ≡ Some whole → IsRecordWithin component.now.index.version (length component.now.index.names) (record_at component.now.index.slots place.at whole) → ⊥) }
    ensures watched { IsWatched (IsErrOf result Stop.Disk) (F.Watch.counts watch.old) (F.Watch.counts watch.new) }
{
    match component.fetch(alloc, place, watch) {
        Ok(bytes) => Ok(bytes),
        Err(fault) => Err(of_read(number, fault)),
    }
}

/// Takes off the document of a record, under the names of what is counted, where it was counted, and answers whether that
/// is so. Takes no memory.
fn take_record(bytes: &[u8], recount: &mut Recount) -> bool
    requires record { IsRecord bytes.now }
    requires canonical { IsCanonical (length recount.old.names) recount.old.schema }
    ensures names { recount.new.names ≡ recount.old.names }
    ensures gained { recount.new.gained ≡ recount.old.gained }
    ensures rest { (recount.new.shapes ≡ recount.old.shapes) × (recount.new.waits ≡ recount.old.waits) }
    ensures canonical { IsTrue result → IsCanonical (length recount.old.names) recount.new.schema }
    ensures room { IsTrue result → (path : Path) → total_at recount.old.names recount.new.schema path ≤ total_at recount.old.names recount.old.schema path }
    ensures taken { IsTrue result → (d : Document) → IsRecordUnder recount.old.names d bytes.now → IsLessBy (Some d) recount.old.names recount.old.schema recount.new.schema }
    ensures other { result ≡ false → (d : Document) → IsRecordUnder recount.old.names d bytes.now → FitsByPath recount.old.names recount.old.schema (document_shape d) → ⊥ }
{
    take_known(&mut recount.schema, &recount.names, RecordRef::known(bytes))
}
