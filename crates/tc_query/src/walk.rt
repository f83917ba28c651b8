//! A walk over the keys of all sources, in ascending order.

ghost use Rattle.std.specs.Prelude.{◌≡◌, ◌≤◌, ℕ, All, List, Option, length, option_map, IfOk, IfSome};
ghost use Rattle.tc_component.specs.Spelling.{IsIndex};
ghost use Rattle.tc_list.specs.Lookups.{HaveNone};
ghost use Rattle.tc_memory.specs.Table.{Table, IsTable};
ghost use Rattle.tc_query.specs.Walking.{least_left, AreAhead, AreFrom, StandAt, IsWalk, IsBefore, IsNext, HasNoneIn};

use crate::ahead::{Ahead, next_in};
use std::alloc::{AllocError, Global};
use tc_list::ComponentList;
use tc_memory::{Memtable, Sealed};
use tc_store::Frozen;

/// What a walk over keys has not passed: of each component the place of its next entry, and the entries of both tables.
#[derive(Drop)]
pub(crate) struct Walk<'a> {
    pub(crate) places: Vec<usize>,
    pub(crate) sealed: Option<Ahead<'a>>,
    pub(crate) active: Ahead<'a>,
}

/// A walk that has passed nothing.
pub(crate) fn walk_of<'a, F: Frozen>(
    alloc: Global,
    list: &ComponentList<F>,
    sealed: Option<&'a Sealed>,
    active: &'a Memtable,
) -> Result<Walk<'a>, AllocError>
    ensures walk { IfOk result (IsWalk 0 list.now (option_map (λ t. t.now) sealed.entry) active.now) }
    ensures active { IsTable active.now }
    ensures sealed { IfSome (option_map (λ t. t.now) sealed.entry) IsTable }
{
    let active = Ahead::of(active.entries());
    let sealed = match sealed {
        Some(table) => Some(Ahead::of(table.entries())),
        None => None,
    };
    let mut places = Vec::new(alloc);
    places.resize(list.len(), 0)?;
    Ok(Walk {
        places,
        sealed,
        active,
    })
}

/// The least key behind the one that was walked last which any source has.
pub(crate) fn next_key<F: Frozen>(
    walk: &mut Walk<'_>,
    list: &ComponentList<F>,
    last: Option<u64>,
) -> Option<u64>
    requires { AreAhead (least_left last) list.now walk.old.places.items }
    ensures walk { (sealed : Option Table) (active : Table) → IsWalk (least_left last) list.now sealed active walk.old → IsWalk (least_left last) list.now sealed active walk.new }
    ensures next { (sealed : Option Table) (active : Table) → IfSome sealed IsTable → IsTable active → IsWalk (least_left last) list.now sealed active walk.old
        → IsNext (least_left last) result (HasNoneIn list.now sealed active) }
    ensures stand { IfSome result (λ key. StandAt key list.now walk.new.places.items) }
    ensures lawful { All (λ c. IsIndex c.index) list.now }
{
    let listed = next_listed(list, &mut walk.places, last);
    let sealed = match &mut walk.sealed {
        Some(ahead) => ahead.next(last),
        None => None,
    };
    let active = walk.active.next(last);
    lesser(listed, lesser(sealed, active))
}

/// The least key behind the one that was walked last which any component has.
fn next_listed<F: Frozen>(
    list: &ComponentList<F>,
    places: &mut [usize],
    last: Option<u64>,
) -> Option<u64>
    requires { AreAhead (least_left last) list.now places.old }
    ensures ahead { AreAhead (least_left last) list.now places.new }
    ensures from { AreFrom (least_left last) list.now places.new }
    ensures next { IsNext (least_left last) result (HaveNone list.now) }
    ensures lawful { All (λ c. IsIndex c.index) list.now }
{
    let mut least = None;
    let mut at = 0;
    for component in list.as_slice() {
        let key = next_in(component, &mut places[at], last);
        least = lesser(least, key);
        at += 1;
    }
    least
}

/// The lesser of two keys, where there is one.
fn lesser(a: Option<u64>, b: Option<u64>) -> Option<u64>
    ensures from { (low : ℕ) → IfSome a (λ key. low ≤ key) → IfSome b (λ key. low ≤ key) → IfSome result (λ key. low ≤ key) }
    ensures first { (key : ℕ) → IsBefore key result → IsBefore key a }
    ensures second { (key : ℕ) → IsBefore key result → IsBefore key b }
{
    match (a, b) {
        (Some(first), Some(second)) => Some(first.min(second)),
        (None, other) => other,
        (other, None) => other,
    }
}
