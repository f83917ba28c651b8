//! The shape of what a key has below the logs.

ghost use Rattle.std.specs.Prelude.{◌≡◌, ◌⊎◌, true, None, is_some, option_map, IfErr, IfOk, IsErrOf};
ghost use Rattle.tc_model.specs.Keyed.{value_of};
ghost use Rattle.tc_value.specs.ShapeMeaning.{shape_tree};
ghost use Rattle.tc_list.specs.Lookups.{HaveNone};
ghost use Rattle.tc_jobs.specs.Faults.{IfHarmed};
ghost use Rattle.tc_part.specs.Harms.{IsHarmIn};
ghost use Rattle.tc_part.specs.Reads.{IsCountedLookup};
ghost use Rattle.tc_open.specs.Replays.{HandsBelow};

use crate::fault::of_read;
use std::alloc::Global;
use tc_jobs::JobFault;
use tc_list::{ComponentList, Whereabouts, loaded_components_show_contents};
use tc_memory::Memtable;
use tc_part::shape_at;
use tc_store::Frozen;
use tc_value::Shape;

/// The shape of the document that a key has in the components, if it has one there, by at most one read.
pub(crate) fn shape_below<F: Frozen>(
    alloc: Global,
    list: &ComponentList<F>,
    key: u64,
    watch: &mut F::Watch,
) -> Result<Option<Shape>, JobFault>
    ensures handed { IfOk result (λ shape. HandsBelow (λ file. F.content file) list.now key (option_map shape_tree shape)) }
    ensures harmed { IfErr result (λ fault. IfHarmed fault (IsHarmIn (λ file. F.content file) list.now)) }
    ensures counted { IsCountedLookup (IsErrOf result JobFault.Disk) (HaveNone list.now key) (F.Watch.counts watch.old) (F.Watch.counts watch.new) }
{
    loaded_components_show_contents::<F>();
    match list.find(key) {
        Whereabouts::Absent => Ok(None),
        Whereabouts::At { component, place } => {
            let component = list.component_at(component);
            match shape_at(alloc, component, place, watch) {
                Ok(shape) => Ok(Some(shape)),
                Err(fault) => Err(of_read(fault)),
            }
        }
    }
}

/// The shape below that a new entry of a table keeps. An entry that is there keeps its own, so that none is looked for.
pub(crate) fn shape_kept<F: Frozen>(
    alloc: Global,
    list: &ComponentList<F>,
    key: u64,
    table: &Memtable,
    watch: &mut F::Watch,
) -> Result<Option<Shape>, JobFault>
    ensures handed { IfOk result (λ shape. value_of key table.now ≡ None → HandsBelow (λ file. F.content file) list.now key (option_map shape_tree shape)) }
    ensures harmed { IfErr result (λ fault. IfHarmed fault (IsHarmIn (λ file. F.content file) list.now)) }
    ensures counted { IsCountedLookup (IsErrOf result JobFault.Disk) ((is_some (value_of key table.now) ≡ true) ⊎ HaveNone list.now key) (F.Watch.counts watch.old) (F.Watch.counts watch.new) }
{
    if table.has(key) {
        return Ok(None);
    }
    shape_below(alloc, list, key, watch)
}
