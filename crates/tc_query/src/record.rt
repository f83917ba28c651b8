//! The row of a key whose record stands in a component.

ghost use Rattle.std.specs.Prelude.{◌≡◌, ◌⊎◌, ◌≤◌, ◌+◌, length, map, IfOk, OnOk, IfErr, IfSome, IsErrOf, option_map, option_to_list};
ghost use Rattle.std.specs.Result.{IsOk};
ghost use Rattle.tc_bytes.specs.Counts.{next_count};
ghost use Rattle.tc_command.specs.Commands.{ask_of};
ghost use Rattle.tc_command.specs.Rows.{row_of};
ghost use Rattle.tc_compact.specs.Meant.{IsRecordUnder};
ghost use Rattle.tc_component.specs.Cursors.{HoldsPart, HasBytes, IsWindow, HasRecord, BeginsAtRecord};
ghost use Rattle.tc_component.specs.Fetching.{IsPlace, record_at as bytes_of_record, IsRecordWithin};
ghost use Rattle.tc_component.specs.Layout.{directory_place};
ghost use Rattle.tc_component.specs.Meaning.{IsRecordOfOne};
ghost use Rattle.tc_component.specs.Spelling.{name_of, sizes_in};
ghost use Rattle.tc_model.specs.Document.{Document};
ghost use Rattle.tc_request_model.specs.Paths.{reached};
ghost use Rattle.tc_request_model.specs.Rows.{row_of as row_reached};
ghost use Rattle.tc_request_model.specs.Rendered.{row_text};
ghost use Rattle.tc_query.specs.Faults.{OfDamage, IsHarmOf, IsUnharmed, IsWatched};
ghost use Rattle.tc_query.specs.Readers.{hops_in, AreHopsIf, IsReaderOf, KnowsUnder};
ghost use Rattle.tc_query.specs.Shown.{IsReadOf};

use crate::fault::{QueryFault, of_read};
use crate::known::Known;
use crate::reader::Reader;
use crate::row::row_led;
use std::alloc::Global;
use tc_command::{Ask, Row};
use tc_component::{Component, Place, RecordCursor};
use tc_record::RecordRef;
use tc_store::{Frozen, damaged};

/// The row that an ask gets of a key, whose record stands at a place of a component. A read is made where the reader does not
/// hold it. `Damaged` comes where the bytes there are the record of no document under the names of the component.
pub(crate) fn row_stored<F: Frozen>(
    alloc: Global,
    component: &Component<F>,
    reader: &mut Reader,
    place: Place,
    key: u64,
    ask: &Ask,
    watch: &mut F::Watch,
) -> Result<Option<Row>, QueryFault>
    requires place { IsPlace component.now.index.slots place }
    requires of { IsReaderOf F.content (ask_of ask.now).path component.now reader.old }

    ensures of { IsReaderOf F.content (ask_of ask.now).path component.now reader.new }
    ensures row { IfOk result (λ row. (d : Document) → IfSome (F.content component.now.file) (λ whole. IsRecordOfOne component.now.index.version component.now.index.names d (bytes_of_record component.now.index.slots place.at whole)
        → option_to_list (option_map row_of row) ≡ map row_text (row_reached (ask_of ask.now).equal_to key (reached (ask_of ask.now).path d)))) }
    ensures document { IfOk result (λ row. (d : Document) × IsReadOf (λ file. F.content file) component.now place d × (option_to_list (option_map row_of row) ≡ map row_text (row_reached (ask_of ask.now).equal_to key (reached (ask_of ask.now).path d)))) }
    ensures harmed { IfErr result (λ fault. OfDamage fault (λ file at bytes. IsHarmOf (λ file. F.content file) component.now file at bytes)) }
    ensures held { HasRecord component.now.index place.at reader.old.cursor → (reader.new.cursor ≡ reader.old.cursor) × (F.Watch.counts watch.new ≡ F.Watch.counts watch.old) }
    ensures window { IfOk result (λ row. (HasRecord component.now.index place.at reader.old.cursor → ⊥) → BeginsAtRecord component.now.index place.at reader.new.cursor) }
    ensures once { ((F.Watch.counts watch.new).reads ≡ (F.Watch.counts watch.old).reads) ⊎ ((F.Watch.counts watch.new).reads ≡ next_count (F.Watch.counts watch.old).reads) }
    ensures watched { IsWatched (IsErrOf result QueryFault.Disk) (F.Watch.counts watch.old) (F.Watch.counts watch.new) }
{
    let (begin, count) = component.record_range(place);
    hold(component, &mut reader.cursor, begin, count, watch)?;
    match reader.cursor.found(component, begin, count) {
        Some(found) => row_found(
            alloc,
            component,
            &found,
            &mut reader.known,
            &reader.hops,
            begin,
            key,
            ask,
        ),
        None => {
            let bytes = reader.cursor.part(begin, count);
            Err(damage_at(alloc, component, begin, bytes))
        }
    }
}

/// Holds so many bytes of the records of a component from a place on, by at most one read. What they are is not looked at.
fn hold<F: Frozen>(
    component: &Component<F>,
    cursor: &mut RecordCursor,
    begin: u64,
    count: u32,
    watch: &mut F::Watch,
) -> Result<(), QueryFault>
    requires within { begin + count ≤ directory_place (sizes_in component.now.index) }
    requires of { HoldsPart (F.content component.now.file) cursor.old }

    ensures of { HoldsPart (F.content component.now.file) cursor.new }
    ensures has { OnOk result (HasBytes begin count cursor.new) }
    ensures unharmed { IfErr result IsUnharmed }
    ensures held { HasBytes begin count cursor.old → IsOk result × (cursor.new ≡ cursor.old) × (F.Watch.counts watch.new ≡ F.Watch.counts watch.old) }
    ensures window { OnOk result ((HasBytes begin count cursor.old → ⊥) → IsWindow begin count (directory_place (sizes_in component.now.index)) cursor.new) }
    ensures once { ((F.Watch.counts watch.new).reads ≡ (F.Watch.counts watch.old).reads) ⊎ ((F.Watch.counts watch.new).reads ≡ next_count (F.Watch.counts watch.old).reads) }
    ensures watched { IsWatched (IsErrOf result QueryFault.Disk) (F.Watch.counts watch.old) (F.Watch.counts watch.new) }
{
    match cursor.hold(component, begin, count, watch) {
        Ok(()) => Ok(()),
        Err(fault) => Err(of_read(component.file_name(), fault)),
    }
}

/// The row that an ask gets of a key by its record, which was read at a place of a component and judged.
fn row_found<F: Frozen>(
    alloc: Global,
    component: &Component<F>,
    found: &RecordRef<'_>,
    known: &mut Known,
    hops: &Option<Vec<u32>>,
    begin: u64,
    key: u64,
    ask: &Ask,
) -> Result<Option<Row>, QueryFault>
    requires found { IsRecordWithin component.now.index.version (length component.now.index.names) found.now.bytes }
    requires hops { AreHopsIf component.now.index.names (ask_of ask.now).path (hops_in hops.now) }
    requires knows { KnowsUnder component.now.index.names (hops_in hops.now) known.old }

    ensures knows { KnowsUnder component.now.index.names (hops_in hops.now) known.new }
    ensures row { IfOk result (λ row. (d : Document) → IsRecordOfOne component.now.index.version component.now.index.names d found.now.bytes
        → option_to_list (option_map row_of row) ≡ map row_text (row_reached (ask_of ask.now).equal_to key (reached (ask_of ask.now).path d))) }
    ensures document { IfOk result (λ row. (d : Document) × IsRecordUnder component.now.index.names d found.now.bytes × (option_to_list (option_map row_of row) ≡ map row_text (row_reached (ask_of ask.now).equal_to key (reached (ask_of ask.now).path d)))) }
    ensures harmed { IfErr result (λ fault. OfDamage fault (λ file at bytes. (file ≡ name_of component.now.index.head) × (at ≡ begin) × (bytes ≡ found.now.bytes) × ((d : Document) → IsRecordUnder component.now.index.names d bytes → ⊥))) }
    ensures no_disk { IsErrOf result QueryFault.Disk → ⊥ }
{
    let bytes = found.bytes();
    let names = component.names();
    match known.lead(found, names, hops) {
        Some(lead) => Ok(row_led(alloc, key, found, lead, names, ask)?),
        None => Err(damage_at(alloc, component, begin, bytes)),
    }
}

/// The fault of bytes at a place of a component that are the record of no document, or want of memory for them.
fn damage_at<F: Frozen>(
    alloc: Global,
    component: &Component<F>,
    begin: u64,
    bytes: &[u8],
) -> QueryFault
    ensures harmed { OfDamage result (λ file at kept. (file ≡ name_of component.now.index.head) × (at ≡ begin) × (kept ≡ bytes.now)) }
    ensures no_disk { result ≡ QueryFault.Disk → ⊥ }
{
    let damage = damaged(alloc, begin as usize, bytes);
    of_read(component.file_name(), damage)
}
