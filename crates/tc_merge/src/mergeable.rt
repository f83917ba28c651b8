//! Whether neighbouring components can be merged into one.

ghost use Rattle.std.specs.Arc.{arc_value};
ghost use Rattle.std.specs.Prelude.{◌≡◌, ◌↔◌, ◌+◌, IsTrue, map};
ghost use Rattle.std.specs.List.{AllByRecursion};
ghost use Rattle.tc_merge.specs.Merging.{GrowNames, IsRun, Tile};

use std::sync::Arc;
use tc_component::{Component, Head};
use tc_names::Names;
use tc_store::Frozen;

/// Whether components, the oldest first, can be merged into one of this header: at least two of its partition, whose
/// intervals make up its own, and whose names go on from one another. Takes no memory.
pub fn can_merge<F: Frozen>(head: Head, run: &[Arc<Component<F>>]) -> bool
    ensures exact { IsTrue result ↔ IsRun head (map arc_value run.now) }
{
    match run {
        [oldest, newer @ ..] => {
            !newer.is_empty()
                && are_of(head, run)
                && tile(head.from, head.to, run)
                && grow(oldest.names(), newer)
        }
        [] => false,
    }
}

/// Whether they are of the partition of a header.
fn are_of<F: Frozen>(head: Head, run: &[Arc<Component<F>>]) -> bool
    ensures exact { IsTrue result ↔ AllByRecursion (λ c. (c.index.head.number ≡ head.number) × (c.index.head.count ≡ head.count)) (map arc_value run.now) }
{
    for component in run {
        if !is_of(head, component.head()) {
            return false;
        }
    }
    true
}

fn is_of(head: Head, other: Head) -> bool
    ensures exact { IsTrue result ↔ ((other.number ≡ head.number) × (other.count ≡ head.count)) }
{
    other.number == head.number && other.count == head.count
}

/// Whether their intervals follow each other, from a generation on to another.
fn tile<F: Frozen>(from: u64, to: u64, run: &[Arc<Component<F>>]) -> bool
    ensures exact { IsTrue result ↔ Tile from to (map arc_value run.now) }
{
    let mut next = from;
    for component in run {
        // that its generations are lawful
        let _lawful = component.file_len();
        if component.head().from != next {
            return false;
        }
        next = component.head().to + 1;
    }
    is_behind(to, next)
}

/// Whether a generation is the one behind another.
fn is_behind(to: u64, next: u64) -> bool
    ensures exact { IsTrue result ↔ (next ≡ to + 1) }
{
    to.checked_add(1) == Some(next)
}

/// Whether the names of each go on from those of the one before.
fn grow<F: Frozen>(older: &Names, run: &[Arc<Component<F>>]) -> bool
    ensures exact { IsTrue result ↔ GrowNames older.now (map arc_value run.now) }
{
    let mut before = older;
    for component in run {
        if !component.names().extends(before) {
            return false;
        }
        before = component.names();
    }
    true
}
