//! Three components as a list, and one more in place of the first two.

ghost use Rattle.std.specs.Arc.{arc_value};
ghost use Rattle.std.specs.Prelude.{◌≡◌, ◌+◌, [], ◌∷◌, IfSome, IsTrue};

use crate::stores::component_of;
use std::alloc::Global;
use std::fmt::Write;
use std::sync::Arc;
use tc_component::Component;
use tc_list::{ComponentList, Run, Whereabouts};
use tc_rows::{bytes, numbers, word};
use tc_store::MemFrozen;

/// A component that several hold.
pub(crate) type Shared = Arc<Component<MemFrozen>>;

/// A component more: its generations, and its bytes.
pub(crate) fn load(alloc: Global, loaded: &mut Vec<Shared>, argument: &str) -> Option<String> {
    let (from, behind) = argument.split_once(' ')?;
    let (to, digits) = behind.split_once(' ')?;
    let (from, to) = (from.parse::<u64>().ok()?, to.parse::<u64>().ok()?);
    let component = component_of(alloc, bytes(alloc, digits)?, from, to)?;
    loaded.push(Arc::new(alloc, component).ok()?).ok()?;
    word(alloc, "ok")
}

/// Where these keys are in the first three components, and how many the fourth then stands in place of, and where they
/// are with it.
pub(crate) fn list(alloc: Global, loaded: &[Shared], argument: &str) -> Option<String> {
    let keys = numbers(alloc, argument)?;
    let [first, second, third, merged] = loaded else {
        return None;
    };
    let mut list = list_of(alloc, first, second, third)?;
    let mut text = String::new(alloc);
    push_places(&mut text, &list, &keys)?;
    let left = merge(&mut list, first, second, third, merged)?;
    write!(text, "left {left} of {}, ", list.len()).ok()?;
    push_places(&mut text, &list, &keys)?;
    Some(text)
}

fn list_of(
    alloc: Global,
    first: &Shared,
    second: &Shared,
    third: &Shared,
) -> Option<ComponentList<MemFrozen>>
    ensures { IfSome result (λ list. list ≡ arc_value first.now ∷ arc_value second.now ∷ arc_value third.now ∷ []) }
{
    let mut list = ComponentList::new(alloc);
    if first.head().from != 1 || !follows(first, second) || !follows(second, third) {
        return None;
    }
    list.push(Arc::try_clone(first).ok()?).ok()?;
    list.push(Arc::try_clone(second).ok()?).ok()?;
    list.push(Arc::try_clone(third).ok()?).ok()?;
    Some(list)
}

fn follows(older: &Shared, newer: &Shared) -> bool
    ensures { IsTrue result → (arc_value newer.now).index.head.from ≡ (arc_value older.now).index.head.to + 1 }
{
    older.head().to.checked_add(1) == Some(newer.head().from)
}

fn is_merge(first: &Shared, second: &Shared, merged: &Shared) -> bool
    ensures from { IsTrue result → (arc_value merged.now).index.head.from ≡ (arc_value first.now).index.head.from }
    ensures to { IsTrue result → (arc_value merged.now).index.head.to ≡ (arc_value second.now).index.head.to }
{
    merged.head().from == first.head().from && merged.head().to == second.head().to
}

// Puts a component in place of the first two, and answers how many came out.
fn merge(
    list: &mut ComponentList<MemFrozen>,
    first: &Shared,
    second: &Shared,
    third: &Shared,
    merged: &Shared,
) -> Option<usize>
    requires { list.old ≡ arc_value first.now ∷ arc_value second.now ∷ arc_value third.now ∷ [] }
{
    if !is_merge(first, second, merged) {
        return None;
    }
    let _third = third.len();
    let merged = Arc::try_clone(merged).ok()?;
    let left = list.swap_run(Run { first: 0, last: 1 }, merged).ok()?;
    Some(left.len())
}

fn push_places(text: &mut String, list: &ComponentList<MemFrozen>, keys: &[u64]) -> Option<()> {
    for key in keys {
        push_place(text, list.find(*key))?;
    }
    Some(())
}

fn push_place(text: &mut String, found: Whereabouts) -> Option<()> {
    match found {
        Whereabouts::Absent => write!(text, "absent, ").ok(),
        Whereabouts::At { component, place } => write!(text, "{component}:{}, ", place.at).ok(),
    }
}
