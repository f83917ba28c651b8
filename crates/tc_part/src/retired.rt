//! Components that left the list, whose files are there still.

ghost use Rattle.std.specs.Arc.{arc_value};
ghost use Rattle.std.specs.Prelude.{◌≡◌, ◌++◌, [], map, All, OnOk};
ghost use Rattle.tc_store.specs.Disk.{same_name};
ghost use Rattle.tc_component.specs.Spelling.{name_of};
ghost use Rattle.tc_part.specs.Ready.{AreNamed};
ghost use Rattle.tc_part.specs.Sweeps.{NamesNoneOf, has_name};

use std::alloc::Global;
use std::marker::Model;
use std::sync::Arc;
use tc_bytes::Memory;
use tc_component::{Component, Head};
use tc_list::ComponentList;
use tc_store::Frozen;

/// Shares of components whose files are called as they are. Contracts see them as a list.
#[derive(Drop)]
pub(crate) struct Retired<F: Frozen> {
    components: Vec<Arc<Component<F>>>,
}

impl<F: Frozen> Model for Retired<F> {
    ghost use Rattle.std.specs.Arc.{arc_value};
    ghost use Rattle.std.specs.Coded.{codes};
    ghost use Rattle.std.specs.Prelude.{List, map};
    ghost use Rattle.tc_schema_model.specs.CountedCode.{coded_counted};
    ghost use Rattle.tc_component.specs.Loading.{ComponentState};
    ghost use Rattle.tc_part.specs.Ready.{AreNamed};

    ghost Value = { List (ComponentState F) };

    ghost coded = { Prim.hlevel (codes, coded_counted) };

    ghost view = { λ r. map arc_value r.components.items };

    ghost invariant = { λ r. AreNamed (λ f. F.name f) (map arc_value r.components.items) };
}

impl<F: Frozen> Retired<F> {
    /// None.
    pub(crate) fn new(alloc: Global) -> Retired<F>
        ensures { result ≡ [] }
    {
        Retired {
            components: Vec::new(alloc),
        }
    }

    /// Makes room for so many more. Errs only for want of memory.
    pub(crate) fn reserve(&mut self, more: usize) -> Result<(), Memory>
        ensures { self.new ≡ self.old }
    {
        self.components.reserve(more)?;
        Ok(())
    }

    /// Adds shares of components. Errs only for want of memory, which there is none of where there is room.
    pub(crate) fn add(&mut self, more: Vec<Arc<Component<F>>>) -> Result<(), Memory>
        requires named { AreNamed (λ f. F.name f) (map arc_value more.items) }
        ensures added { OnOk result (self.new ≡ self.old ++ map arc_value more.items) }
    {
        let mut more = more;
        self.components.append(&mut more)?;
        Ok(())
    }

    /// Those whose names no listed component has. The shares of the others are given up. Takes no memory.
    pub(crate) fn apart_from(self, list: &ComponentList<F>) -> Vec<Arc<Component<F>>>
        ensures named { AreNamed (λ f. F.name f) (map arc_value result.items) }
        ensures apart { All (λ c. NamesNoneOf list.now (F.name c.file)) (map arc_value result.items) }
    {
        let Retired { components } = self;
        let mut components = components;
        let listed = list.as_slice();
        components.retain(|component| !is_listed(listed, component.head()));
        components
    }
}

/// Whether a component of these has this header's name.
fn is_listed<F: Frozen>(list: &[Arc<Component<F>>], head: Head) -> bool
    ensures { result ≡ has_name (name_of head) (map arc_value list.now) }
{
    for component in list {
        if is_same(component.head(), head) {
            return true;
        }
    }
    false
}

/// Whether the files of two headers have one name.
fn is_same(a: Head, b: Head) -> bool
    ensures { result ≡ same_name (name_of a) (name_of b) }
{
    a.from == b.from && a.to == b.to
}
