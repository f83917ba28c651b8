//! The list of components.

ghost use Rattle.std.specs.Prelude.{◌≡◌, ◌<◌, ◌≤◌, ◌+◌, List, [], ◌∷◌, ◌++◌, length, map, IfOk, OnOk, OnErr, slice_get, Some};
ghost use Rattle.std.specs.Arc.{arc_value};
ghost use Rattle.std.specs.List.{AllZip};
ghost use Rattle.tc_lsm_model.specs.Contents.{Partition, Content};
ghost use Rattle.tc_lsm_model.specs.Lists.{IsList};
ghost use Rattle.tc_list.specs.Contents.{Shows, IsLiveAt};
ghost use Rattle.tc_list.specs.Intervals.{first_of, last_of, Follow};
ghost use Rattle.tc_list.specs.Lookups.{IsWhere};
ghost use Rattle.tc_list.specs.Runs.{in_run, swapped};

use crate::run::Run;
use crate::whereabouts::Whereabouts;
use std::alloc::Global;
use std::marker::Model;
use std::sync::Arc;
use tc_bytes::Memory;
use tc_component::{Component, Found};
use tc_store::Frozen;

/// The components of a partition, the oldest first. Their intervals follow each other without a gap, from generation 1
/// on. Contracts see the components as a list.
pub struct ComponentList<F: Frozen> {
    components: Vec<Arc<Component<F>>>,
}

impl<F: Frozen> Model for ComponentList<F> {
    ghost use Rattle.std.specs.Arc.{arc_value};
    ghost use Rattle.std.specs.Coded.{codes};
    ghost use Rattle.std.specs.Prelude.{List, map};
    ghost use Rattle.tc_schema_model.specs.CountedCode.{coded_counted};
    ghost use Rattle.tc_component.specs.Loading.{ComponentState};
    ghost use Rattle.tc_list.specs.Intervals.{Follow};

    ghost Value = { List (ComponentState F) };

    ghost coded = { Prim.hlevel (codes, coded_counted) };

    ghost view = { λ a. map arc_value a.components.items };

    ghost invariant = { λ a. Follow 0 (map arc_value a.components.items) };
}

impl<F: Frozen> Drop for ComponentList<F> {
    /// One call, so that whoever drops a list sees nothing of its components.
    fn drop(self) {
        let ComponentList { components } = self;
        drop(components);
    }
}

impl<F: Frozen> ComponentList<F> {
    /// The list of no component.
    pub fn new(alloc: Global) -> ComponentList<F>
        ensures { result ≡ [] }
    {
        ComponentList {
            components: Vec::new(alloc),
        }
    }

    /// The components, the oldest first. Takes no memory.
    pub fn as_slice(&self) -> &[Arc<Component<F>>]
        ensures all { map arc_value result.now ≡ self.now }
        ensures follow { Follow 0 self.now }
    {
        self.components.as_slice()
    }

    /// The component at a position. Takes no memory.
    pub fn component_at(&self, at: usize) -> &Component<F>
        requires { at < length self.now }
        ensures { slice_get self.now at ≡ Some result.now }
    {
        &self.as_slice()[at]
    }

    /// How many components there are.
    pub fn len(&self) -> usize
        ensures { result ≡ length self.now }
    {
        self.components.len()
    }

    /// The same components again, which are shared. Errs only for want of memory.
    pub fn share(&self) -> Result<ComponentList<F>, Memory>
        ensures { IfOk result (λ list. list ≡ self.now) }
    {
        let alloc = *self.components.allocator();
        Ok(ComponentList {
            components: shares_of(alloc, &self.components)?,
        })
    }

    /// Where the document of a key is: the newest component that has an entry of the key decides. Makes no read and takes
    /// no memory.
    pub fn find(&self, key: u64) -> Whereabouts
        ensures newest { IsWhere self.now key result }
        ensures live { (part : Partition) (cs : List Content) → IsList part cs → AllZip Shows self.now cs → IsLiveAt cs key result }
    {
        newest_of(&self.components, key)
    }

    /// Adds a component, whose interval begins behind the last one, or at 1 where there is none. Errs only for want of
    /// memory.
    #[tactic(auto, using(crate::proofs::Following::pushed_follow))]
    pub fn push(&mut self, newest: Arc<Component<F>>) -> Result<(), Memory>
        requires { (arc_value newest).index.head.from ≡ last_of self.old + 1 }
        ensures ok { OnOk result (self.new ≡ self.old ++ arc_value newest ∷ []) }
        ensures err { OnErr result (self.new ≡ self.old) }
    {
        self.components.push(newest)?;
        Ok(())
    }

    /// Puts a component in place of a run, whose generations it has, and answers the run, the oldest first. Errs only for
    /// want of memory.
    pub fn swap_run(
        &mut self,
        run: Run,
        merged: Arc<Component<F>>,
    ) -> Result<Vec<Arc<Component<F>>>, Memory>
        requires order { run.first ≤ run.last }
        requires within { run.last < length self.old }
        requires begins { (arc_value merged).index.head.from ≡ first_of (in_run run self.old) }
        requires ends { (arc_value merged).index.head.to ≡ last_of (in_run run self.old) }
        ensures ok { OnOk result (self.new ≡ swapped run (arc_value merged) self.old) }
        ensures left { IfOk result (λ left. map arc_value left.items ≡ in_run run self.old) }
        ensures err { OnErr result (self.new ≡ self.old) }
    {
        let alloc = *self.components.allocator();

        // What can fail stands before the change, which cannot.
        let left = shares_of(alloc, &self.components[run.first..run.last + 1])?;
        put_for(&mut self.components, run, merged);
        Ok(left)
    }
}

/// Where the document of a key is in these components, the oldest first.
fn newest_of<F: Frozen>(components: &[Arc<Component<F>>], key: u64) -> Whereabouts
    ensures { IsWhere (map arc_value components.now) key result }
{
    let mut rest = components;
    while let Some((newest, older)) = rest.split_last() {
        match newest.find(key) {
            Found::Absent => rest = older,
            Found::Gone => return Whereabouts::Absent,
            Found::At(place) => {
                return Whereabouts::At {
                    component: older.len(),
                    place,
                };
            }
        }
    }
    Whereabouts::Absent
}

/// The same components again, which are shared.
fn shares_of<F: Frozen>(
    alloc: Global,
    components: &[Arc<Component<F>>],
) -> Result<Vec<Arc<Component<F>>>, Memory>
    ensures { IfOk result (λ shares. map arc_value shares.items ≡ map arc_value components.now) }
{
    let mut shares = Vec::new(alloc);
    for component in components {
        shares.push(Arc::try_clone(component)?)?;
    }
    Ok(shares)
}

/// Puts a component in place of a run.
fn put_for<F: Frozen>(components: &mut Vec<Arc<Component<F>>>, run: Run, merged: Arc<Component<F>>)
    requires order { run.first ≤ run.last }
    requires within { run.last < length components.old.items }
    ensures { components.new.items ≡ swapped run merged components.old.items }
{
    components[run.first] = merged;
    drop(components.drain(run.first + 1..run.last + 1));
}
