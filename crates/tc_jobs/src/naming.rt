//! Whether the names of a component go together with those of its neighbours.

ghost use Rattle.std.specs.Arc.{arc_value};
ghost use Rattle.std.specs.Prelude.{◌<◌, ◌≤◌, ◌+◌, ◌↔◌, ◌++◌, ◌∷◌, ℕ, [], length, drop, map, take, IsTrue};
ghost use Rattle.tc_component.specs.Layout.{names_place};
ghost use Rattle.tc_component.specs.Spelling.{name_of, sizes_in};
ghost use Rattle.tc_list.specs.Runs.{swapped};
ghost use Rattle.tc_merge.specs.Merging.{newest_names};
ghost use Rattle.tc_model.specs.Dictionary.{Extends};
ghost use Rattle.tc_names.specs.Section.{section};
ghost use Rattle.tc_jobs.specs.Faults.{AreBytesOr};
ghost use Rattle.tc_jobs.specs.Lists.{FirstExtends, GoesBetween, IsListOf, IsOf};

use crate::fault::JobFault;
use std::alloc::Global;
use std::sync::Arc;
use tc_bytes::Bytes;
use tc_component::Component;
use tc_list::{ComponentList, Run};
use tc_names::Names;
use tc_store::{Damage, Frozen};

/// Whether the names of a component go on from those of the newest one listed. Takes no memory.
pub fn goes_behind<F: Frozen>(list: &ComponentList<F>, component: &Component<F>) -> bool
    ensures exact { IsTrue result ↔ Extends component.now.index.names (newest_names [] list.now) }
    ensures listed { (number count : ℕ) → IsTrue result → IsListOf number count list.now → IsOf number count component.now → IsListOf number count (list.now ++ component.now ∷ []) }
{
    extend_last(list.as_slice(), component.names())
}

/// Whether the names of a component go on from those before a run, and those behind the run from its. Takes no memory.
pub fn goes_between<F: Frozen>(list: &ComponentList<F>, run: Run, merged: &Component<F>) -> bool
    requires order { run.first ≤ run.last }
    requires within { run.last < length list.now }
    ensures exact { IsTrue result ↔ GoesBetween (take run.first list.now) merged.now (drop (run.last + 1) list.now) }
    ensures listed { (number count : ℕ) → IsTrue result → IsListOf number count list.now → IsOf number count merged.now → IsListOf number count (swapped run merged.now list.now) }
{
    let components = list.as_slice();
    let names = merged.names();
    extend_last(&components[..run.first], names)
        && first_extends(&components[run.last + 1..], names)
}

/// Whether names go on from those of the last of these components, if there is one.
fn extend_last<F: Frozen>(components: &[Arc<Component<F>>], names: &Names) -> bool
    ensures { IsTrue result ↔ Extends names.now (newest_names [] (map arc_value components.now)) }
{
    match components.split_last() {
        Some((last, _older)) => names.extends(last.names()),
        None => true,
    }
}

/// Whether the names of the first of these components, if there is one, go on from these.
fn first_extends<F: Frozen>(components: &[Arc<Component<F>>], names: &Names) -> bool
    ensures { IsTrue result ↔ FirstExtends names.now (map arc_value components.now) }
{
    match components.split_first() {
        Some((first, _)) => first.names().extends(names),
        None => true,
    }
}

/// The fault of a component whose names do not go on from older ones: its names are damaged, at their place.
pub fn names_damage<F: Frozen>(alloc: Global, component: &Component<F>) -> JobFault
    ensures { AreBytesOr (name_of component.now.index.head) (names_place (sizes_in component.now.index)) (section component.now.index.names) result }
{
    match component.names().to_bytes(alloc) {
        Ok(bytes) => JobFault::Damaged(Damage::Bytes {
            file: component.file_name(),
            place: component.names_at(),
            bytes: Bytes::of(bytes),
        }),
        Err(_) => JobFault::Memory,
    }
}
