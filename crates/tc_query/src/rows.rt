//! The rows over what a partition stores.

ghost use Rattle.std.specs.Prelude.{◌≡◌, ◌≤◌, ◌+◌, ◌++◌, List, map, IfOk, IfErr, OnOk, IsErrOf, option_map, option_to_list};
ghost use Rattle.std.specs.List.{AllZip};
ghost use Rattle.tc_command.specs.Commands.{ask_of};
ghost use Rattle.tc_command.specs.Rows.{row_of};
ghost use Rattle.tc_component.specs.Loaded.{IsLoadedOf};
ghost use Rattle.tc_lsm_model.specs.Contents.{Content};
ghost use Rattle.tc_request_model.specs.Rows.{rows_over as rows_of_pairs};
ghost use Rattle.tc_request_model.specs.Rendered.{row_text};
ghost use Rattle.tc_plain_model.specs.Writes.{Pairs};
ghost use Rattle.tc_query.specs.Faults.{OfDamage, IsUnharmed, IsHarmIn, IsWatched};
ghost use Rattle.tc_query.specs.Readers.{hops_in, AreHopsIf, AreReaders};
ghost use Rattle.tc_query.specs.Shown.{MayHold, live_keys};
ghost use Rattle.tc_query.specs.Stored.{Holds};
ghost use Rattle.tc_query.specs.Windows.{most_windows};

use crate::fault::QueryFault;
use crate::looking::row_at;
use crate::reader::Reader;
use crate::walk::{next_key, walk_of};
use std::alloc::{AllocError, Global};
use tc_command::{Ask, Row, Rows};
use tc_component::components_are_contents;
use tc_list::{ComponentList, loaded_components_show_contents};
use tc_memory::{Memtable, Sealed};
use tc_names::Names;
use tc_path::hops_of;
use tc_store::Frozen;

/// The rows that an ask gets over components, a sealed table over them, if there is one, and the active table over both, in
/// ascending key. The newest entry of a key decides. Records are read by windows, at most one a document that is live, and none
/// for one that a table holds. `Disk` comes only where a read failed, and `Damaged` where a record spells no document under the names
/// of its component.
pub fn rows_over<F: Frozen>(
    alloc: Global,
    list: &ComponentList<F>,
    sealed: Option<&Sealed>,
    active: &Memtable,
    ask: &Ask,
    watch: &mut F::Watch,
) -> Result<Rows, QueryFault>
    // Where the files tell what they hold.
    ensures rows { (pairs : Pairs) → Holds F.content list.now (option_map (λ t. t.now) sealed.entry) active.now pairs → IfOk result (λ rows. rows ≡ map row_text (rows_of_pairs (ask_of ask.now) pairs)) }
    ensures unharmed { (cs : List Content) → AllZip (IsLoadedOf F.content) list.now cs → IfErr result IsUnharmed }

    // Over every store.
    ensures shown { IfOk result (λ rows. (pairs : Pairs) × MayHold (λ file. F.content file) list.now (option_map (λ t. t.now) sealed.entry) active.now pairs × (rows ≡ map row_text (rows_of_pairs (ask_of ask.now) pairs))) }
    ensures harmed { IfErr result (λ fault. OfDamage fault (λ file at bytes. IsHarmIn (λ file. F.content file) list.now file at bytes)) }
    ensures reads { (F.Watch.counts watch.new).reads ≤ (F.Watch.counts watch.old).reads + live_keys list.now (option_map (λ t. t.now) sealed.entry) active.now }
    ensures windows { (F.Watch.counts watch.new).reads ≤ (F.Watch.counts watch.old).reads + most_windows list.now }
    ensures watched { IsWatched (IsErrOf result QueryFault.Disk) (F.Watch.counts watch.old) (F.Watch.counts watch.new) }
{
    components_are_contents();
    loaded_components_show_contents::<F>();
    let mut walk = walk_of(alloc, list, sealed, active)?;
    let mut readers = readers_of(alloc, list, ask)?;
    let mut rows = Vec::new(alloc);
    let mut last = None;
    while let Some(key) = next_key(&mut walk, list, last) {
        let row = row_at(
            alloc,
            list,
            &walk.places,
            &mut readers,
            sealed,
            active,
            key,
            ask,
            watch,
        )?;
        push_row(&mut rows, row)?;
        last = Some(key);
    }
    Ok(Rows::of(rows))
}

/// A reader of each component that holds no byte.
fn readers_of<F: Frozen>(
    alloc: Global,
    list: &ComponentList<F>,
    ask: &Ask,
) -> Result<Vec<Reader>, AllocError>
    ensures { IfOk result (λ readers. AreReaders F.content (ask_of ask.now).path list.now readers.items) }
{
    let mut readers = Vec::with_capacity(alloc, list.len())?;
    for at in 0..list.len() {
        let hops = hops_wanted(alloc, ask, list.component_at(at).names())?;
        readers.push(Reader::new(alloc, hops))?;
    }
    Ok(readers)
}

/// The hops of the path of an ask by the numbers of their names, where it asks for a value and each hop goes by a name.
fn hops_wanted(alloc: Global, ask: &Ask, names: &Names) -> Result<Option<Vec<u32>>, AllocError>
    ensures { IfOk result (λ hops. AreHopsIf names.now (ask_of ask.now).path (hops_in hops)) }
{
    match &ask.eq {
        None => Ok(None),
        Some(_) => hops_of(alloc, &ask.path, names),
    }
}

/// Adds a row behind the others, if there is one. Errs only for want of memory.
fn push_row(rows: &mut Vec<Row>, row: Option<Row>) -> Result<(), AllocError>
    ensures { OnOk result (map row_of rows.new.items ≡ map row_of rows.old.items ++ option_to_list (option_map row_of row)) }
{
    if let Some(row) = row {
        rows.push(row)?;
    }
    Ok(())
}
