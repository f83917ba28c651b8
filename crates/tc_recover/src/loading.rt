//! The components that count, loaded.

ghost use Rattle.std.specs.Prelude.{◌≡◌, ◌+◌, [], ◌∷◌, ◌++◌, ℕ, length, map, All, Contains, IfErr, IfOk, IfSome, IsErrOf};
ghost use Rattle.std.specs.List.Sorted.{IsStrictlySortedBy};
ghost use Rattle.std.specs.Result.{IsOk};
ghost use Rattle.tc_store.specs.Disk.{same_name};
ghost use Rattle.tc_store.specs.NameOrder.{name_cmp};
ghost use Rattle.tc_component.specs.Loading.{ComponentState, index_in};
ghost use Rattle.tc_component.specs.Spelling.{IsIndex, name_of};
ghost use Rattle.tc_merge.specs.Merging.{newest_names};
ghost use Rattle.tc_jobs.specs.Lists.{IsListOf};
ghost use Rattle.tc_recover.specs.Files.{picture_in, names_in, AreTold};
ghost use Rattle.tc_recover.specs.Loading.{IsLoadCause, IsLoadDamage, component_judged, components_judged, files_of, interval_of, is_file_of as is_tile_file, left_of, own_judged, tile_name};
ghost use Rattle.tc_recover.specs.Loads.{Answers};
ghost use Rattle.tc_recover.specs.Reads.{IsCountedTimes};
ghost use Rattle.tc_recover.specs.Refusals.{asked};
ghost use Rattle.tc_recover.specs.Sorting.{open_names, intervals_of};
ghost use Rattle.tc_recover.specs.Tilings.{IsTiling};

use crate::cause::{FilesCause, of_read};
use crate::heads::{Partition, judge_numbers};
use crate::interval::Interval;
use crate::taken::Taken;
use std::alloc::Global;
use std::sync::Arc;
use tc_component::Component;
use tc_jobs::{goes_behind, names_damage};
use tc_list::ComponentList;
use tc_store::{FileName, Frozen};

/// The components that were loaded, and the files that no component was loaded of: closed ones, those of components that do not
/// count, and logs.
#[derive(Drop)]
pub struct Loaded<F: Frozen> {
    pub list: ComponentList<F>,
    pub left: Vec<Taken<F>>,
}

/// Loads the components of these intervals, the oldest first, by two reads each. `Damaged` has the place and the bytes of the
/// first section that breaks the rules, or the names of the first component whose names do not go on from the older one's;
/// `Layout` the numbers of one that is of another partition. `Disk` comes only where a read failed.
pub fn load_components<F: Frozen>(
    alloc: Global,
    part: Partition,
    tiles: &[Interval],
    files: Vec<Taken<F>>,
    watch: &mut F::Watch,
) -> Result<Loaded<F>, FilesCause>
    requires ascend { IsStrictlySortedBy name_cmp (names_in files.items) }
    requires tiling { IsTiling (intervals_of (open_names files.items)) tiles.now }
    ensures judged { AreTold F.content files.items → Answers (λ loaded. map index_in loaded.list) result (components_judged (asked part) (picture_in F.content files.items) tiles.now [] []) }
    ensures causes { IfErr result (IsLoadCause F.size (asked part) tiles.now files.items) }
    ensures tiles { IfOk result (λ loaded. map interval_of loaded.list ≡ tiles.now) }
    ensures files { IfOk result (λ loaded. map (λ (c : ComponentState F). c.file) loaded.list ≡ files_of tiles.now files.items) }
    ensures left { IfOk result (λ loaded. loaded.left.items ≡ left_of tiles.now files.items) }
    ensures lawful { IfOk result (λ loaded. All (λ (c : ComponentState F). IsIndex c.index) loaded.list) }
    ensures listed { IfOk result (λ loaded. IsListOf part.number part.count loaded.list) }
    ensures counted { IsCountedTimes (IsErrOf result FilesCause.Disk) (IsOk result) (length tiles.now + length tiles.now) (F.Watch.counts watch.old) (F.Watch.counts watch.new) }
{
    let mut list = ComponentList::new(alloc);
    let mut left = Vec::new(alloc);
    let mut rest = tiles;
    for file in files {
        if let Some((tile, behind)) = rest.split_first() {
            if is_file_of(*tile, &file) {
                let component = load_next(alloc, part, &list, file, watch)?;
                list.push(Arc::new(alloc, component)?)?;
                rest = behind;
            } else {
                left.push(file)?;
            }
        } else {
            left.push(file)?;
        }
    }
    Ok(Loaded { list, left })
}

/// Whether a file is open, and called as that of an interval.
fn is_file_of<F: Frozen>(tile: Interval, file: &Taken<F>) -> bool
    ensures { result ≡ is_tile_file tile file.now }
{
    file.open && is_called(tile, file.name)
}

fn is_called(tile: Interval, name: FileName) -> bool
    ensures { result ≡ same_name (tile_name tile) name }
{
    match name {
        FileName::Component { from, to } => tile.from == from && tile.to == to,
        FileName::Log { generation: _ } => false,
    }
}

/// Loads a component, whose names have to go on from those of the newest one listed.
fn load_next<F: Frozen>(
    alloc: Global,
    part: Partition,
    list: &ComponentList<F>,
    file: Taken<F>,
    watch: &mut F::Watch,
) -> Result<Component<F>, FilesCause>
    ensures judged { IfSome (F.content file.file) (λ bytes. Answers index_in result (component_judged (asked part) (newest_names [] list.now) file.name bytes)) }
    ensures causes { IfErr result (IsLoadDamage F.size (asked part) file) }
    ensures file { IfOk result (λ c. c.file ≡ file.file) }
    ensures name { IfOk result (λ c. file.name ≡ name_of c.index.head) }
    ensures lawful { IfOk result (λ c. IsIndex c.index) }
    ensures listed { IfOk result (λ c. IsListOf part.number part.count list.now → IsListOf part.number part.count (list.now ++ c ∷ [])) }
    ensures counted { IsCountedTimes (IsErrOf result FilesCause.Disk) (IsOk result) 2 (F.Watch.counts watch.old) (F.Watch.counts watch.new) }
{
    let component = load_own(alloc, part, file, watch)?;
    let _size = component.file_len();
    if goes_behind(list, &component) {
        Ok(component)
    } else {
        Err(FilesCause::from(names_damage(alloc, &component)))
    }
}

/// Loads a component of the partition.
fn load_own<F: Frozen>(
    alloc: Global,
    part: Partition,
    file: Taken<F>,
    watch: &mut F::Watch,
) -> Result<Component<F>, FilesCause>
    ensures judged { IfSome (F.content file.file) (λ bytes. Answers index_in result (own_judged (asked part) file.name bytes)) }
    ensures causes { IfErr result (IsLoadDamage F.size (asked part) file) }
    ensures file { IfOk result (λ c. c.file ≡ file.file) }
    ensures name { IfOk result (λ c. file.name ≡ name_of c.index.head) }
    ensures lawful { IfOk result (λ c. IsIndex c.index) }
    ensures number { IfOk result (λ c. c.index.head.number ≡ part.number) }
    ensures count { IfOk result (λ c. c.index.head.count ≡ part.count) }
    ensures counted { IsCountedTimes (IsErrOf result FilesCause.Disk) (IsOk result) 2 (F.Watch.counts watch.old) (F.Watch.counts watch.new) }
{
    let Taken {
        name,
        file,
        open: _,
    } = file;
    match Component::load(alloc, file, name, watch) {
        Ok(component) => {
            let head = component.head();
            judge_numbers(part, head.number, head.count)?;
            Ok(component)
        }
        Err(fault) => Err(of_read(name, fault)),
    }
}
