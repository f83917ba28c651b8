//! The row of a key, of which the newest entry decides.

ghost use Rattle.std.specs.Prelude.{◌≡◌, ◌<◌, ◌≤◌, ◌+◌, ℕ, List, Option, Some, None, IfOk, IfErr, IfSome, IsErrOf, length, map, slice_get, option_map, option_to_list};
ghost use Rattle.std.specs.List.{AllZip};
ghost use Rattle.tc_command.specs.Commands.{ask_of};
ghost use Rattle.tc_command.specs.Rows.{row_of};
ghost use Rattle.tc_component.specs.Loaded.{IsLoadedOf};
ghost use Rattle.tc_component.specs.Spelling.{IsIndex};
ghost use Rattle.tc_list.specs.Lookups.{IsWhere};
ghost use Rattle.tc_list.specs.declared.whereabouts.Whereabouts.TheVariants.{At as listed_at};
ghost use Rattle.tc_component.specs.declared.found.Place.{Place as OnePlace};
ghost use Rattle.tc_lsm_model.specs.Contents.{Partition, Content};
ghost use Rattle.tc_lsm_model.specs.Lists.{live, IsList};
ghost use Rattle.tc_memory.specs.Meaning.{held_of, IsLawfulHeld};
ghost use Rattle.tc_memory.specs.Table.{IsTable};
ghost use Rattle.tc_model.specs.Document.{Document};
ghost use Rattle.tc_request_model.specs.Paths.{reached};
ghost use Rattle.tc_request_model.specs.Rows.{row_of as row_reached};
ghost use Rattle.tc_request_model.specs.Rendered.{row_text};
ghost use Rattle.tc_plain_model.specs.Writes.{Pairs};
ghost use Rattle.tc_query.specs.Faults.{OfDamage, IsHarmIn, IsReadIf, IsWatched};
ghost use Rattle.tc_query.specs.Readers.{AreReaders};
ghost use Rattle.tc_query.specs.Rows.{texts_with, texts_at};
ghost use Rattle.tc_query.specs.Shown.{held_newest, IsListed, MayHave};
ghost use Rattle.tc_query.specs.Stored.{Holds};
ghost use Rattle.tc_query.specs.Walking.{StandAt};
ghost use Rattle.tc_query.specs.Windows.{most_windows, AreRead};
ghost use Rattle.tc_record.specs.Record.{IsRecordOf};
ghost use Rattle.tc_record.specs.StoredRecord.{IsStoredRecord};

use crate::ahead::found_at;
use crate::fault::QueryFault;
use crate::reader::Reader;
use crate::record::row_stored;
use crate::row::row_of_known;
use std::alloc::{AllocError, Global};
use tc_command::{Ask, Row};
use tc_component::{Component, Found};
use tc_list::{ComponentList, Whereabouts, loaded_components_show_contents};
use tc_memory::{Held, Memtable, Sealed};
use tc_names::Names;
use tc_record::RecordRef;
use tc_store::Frozen;

/// The row that an ask gets of a key, if it gets one, by at most one read. The places are those of the first entries of this
/// key or a greater one.
pub(crate) fn row_at<F: Frozen>(
    alloc: Global,
    list: &ComponentList<F>,
    places: &[usize],
    readers: &mut [Reader],
    sealed: Option<&Sealed>,
    active: &Memtable,
    key: u64,
    ask: &Ask,
    watch: &mut F::Watch,
) -> Result<Option<Row>, QueryFault>
    requires stand { StandAt key list.now places.now }
    requires of { AreReaders F.content (ask_of ask.now).path list.now readers.old }

    ensures of { AreReaders F.content (ask_of ask.now).path list.now readers.new }
    ensures row { (pairs : Pairs) → Holds F.content list.now (option_map (λ t. t.now) sealed.entry) active.now pairs → IfOk result (λ row. option_to_list (option_map row_of row) ≡ texts_at (ask_of ask.now) key pairs) }
    ensures shown { IfOk result (λ row. (document : Option Document) × MayHave (λ file. F.content file) (held_newest key (option_map (λ t. t.now) sealed.entry) active.now) list.now key document × (option_to_list (option_map row_of row) ≡ texts_with (ask_of ask.now) key document)) }
    ensures harmed { IfErr result (λ fault. OfDamage fault (λ file at bytes. IsHarmIn (λ file. F.content file) list.now file at bytes)) }
    ensures reads { IsReadIf (IsListed list.now (option_map (λ t. t.now) sealed.entry) active.now key) (F.Watch.counts watch.old) (F.Watch.counts watch.new) }
    ensures read { IfOk result (λ row. (low first : ℕ) → low ≤ key → AreRead low list.now readers.old first (F.Watch.counts watch.old).reads → AreRead (key + 1) list.now readers.new first (F.Watch.counts watch.new).reads) }
    ensures windows { (low first : ℕ) → low ≤ key → AreRead low list.now readers.old first (F.Watch.counts watch.old).reads → (F.Watch.counts watch.new).reads ≤ first + most_windows list.now }
    ensures watched { IsWatched (IsErrOf result QueryFault.Disk) (F.Watch.counts watch.old) (F.Watch.counts watch.new) }
{
    match newest_held(sealed, active, key) {
        Some(Held::Live(bytes)) => Ok(row_held(alloc, bytes.as_slice(), key, ask)?),
        Some(Held::Gone) => Ok(None),
        None => row_listed(alloc, list, places, readers, key, ask, watch),
    }
}

/// What the newer of both tables holds that has the key.
fn newest_held<'a>(sealed: Option<&'a Sealed>, active: &'a Memtable, key: u64) -> Option<Held<'a>>
    ensures held { option_map held_of result ≡ held_newest key (option_map (λ t. t.now) sealed.entry) active.now }
    ensures lawful { IfSome result IsLawfulHeld }
    ensures active { IsTable active.now }
    ensures sealed { IfSome (option_map (λ t. t.now) sealed.entry) IsTable }
{
    let _table = active.len();
    let held = active.get(key);
    match sealed {
        None => held,
        Some(table) => {
            let _table = table.len();
            match held {
                Some(held) => Some(held),
                None => table.get(key),
            }
        }
    }
}

/// The row that an ask gets of a key, whose record a table keeps. Errs only for want of memory.
fn row_held(alloc: Global, bytes: &[u8], key: u64, ask: &Ask) -> Result<Option<Row>, AllocError>
    requires { IsStoredRecord bytes.now }
    ensures row { (d : Document) → IsRecordOf d bytes.now → IfOk result (λ row. option_to_list (option_map row_of row) ≡ map row_text (row_reached (ask_of ask.now).equal_to key (reached (ask_of ask.now).path d))) }
{
    let names = Names::new(alloc);
    row_of_known(alloc, key, RecordRef::known(bytes), &names, ask)
}

/// The row that an ask gets of a key which no table has.
fn row_listed<F: Frozen>(
    alloc: Global,
    list: &ComponentList<F>,
    places: &[usize],
    readers: &mut [Reader],
    key: u64,
    ask: &Ask,
    watch: &mut F::Watch,
) -> Result<Option<Row>, QueryFault>
    requires stand { StandAt key list.now places.now }
    requires of { AreReaders F.content (ask_of ask.now).path list.now readers.old }

    ensures of { AreReaders F.content (ask_of ask.now).path list.now readers.new }
    ensures row { (part : Partition) (cs : List Content) → IsList part cs → AllZip (IsLoadedOf F.content) list.now cs → IfOk result (λ row. option_to_list (option_map row_of row) ≡ texts_at (ask_of ask.now) key (live cs)) }
    ensures shown { IfOk result (λ row. (document : Option Document) × MayHave (λ file. F.content file) None list.now key document × (option_to_list (option_map row_of row) ≡ texts_with (ask_of ask.now) key document)) }
    ensures harmed { IfErr result (λ fault. OfDamage fault (λ file at bytes. IsHarmIn (λ file. F.content file) list.now file at bytes)) }
    ensures reads { IsReadIf ((at : ℕ) × (place : OnePlace) × IsWhere list.now key (listed_at at place)) (F.Watch.counts watch.old) (F.Watch.counts watch.new) }
    ensures read { IfOk result (λ row. (low first : ℕ) → low ≤ key → AreRead low list.now readers.old first (F.Watch.counts watch.old).reads → AreRead (key + 1) list.now readers.new first (F.Watch.counts watch.new).reads) }
    ensures windows { (low first : ℕ) → low ≤ key → AreRead low list.now readers.old first (F.Watch.counts watch.old).reads → (F.Watch.counts watch.new).reads ≤ first + most_windows list.now }
    ensures watched { IsWatched (IsErrOf result QueryFault.Disk) (F.Watch.counts watch.old) (F.Watch.counts watch.new) }
{
    loaded_components_show_contents::<F>();
    match newest_at(list, places, key) {
        Whereabouts::Absent => Ok(None),
        Whereabouts::At {
            component: at,
            place,
        } => {
            let component = component_at(list, at);
            row_stored(alloc, component, &mut readers[at], place, key, ask, watch)
        }
    }
}

/// Where the document of a key is, by the places of the first entries of this key or a greater one.
fn newest_at<F: Frozen>(list: &ComponentList<F>, places: &[usize], key: u64) -> Whereabouts
    requires { StandAt key list.now places.now }
    ensures { IsWhere list.now key result }
{
    let mut rest = list.as_slice();
    while let Some((newest, older)) = rest.split_last() {
        match found_at(newest, places[older.len()], key) {
            Found::Absent => rest = older,
            Found::Gone => return Whereabouts::Absent,
            Found::At(place) => {
                return Whereabouts::At {
                    component: older.len(),
                    place,
                };
            }
        }
    }
    Whereabouts::Absent
}

/// The component at a position of the list.
fn component_at<F: Frozen>(list: &ComponentList<F>, at: usize) -> &Component<F>
    requires { at < length list.now }
    ensures there { slice_get list.now at ≡ Some result.now }
    ensures lawful { IsIndex result.now.index }
{
    let component = list.component_at(at);
    let _lawful = component.file_len();
    component
}
