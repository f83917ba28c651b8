//! Walks over the entries of one source, in ascending key.

ghost use Rattle.std.specs.Prelude.{◌≡◌, ◌≤◌, ℕ, nat_le, drop, option_map, slice_get, IfSome};
ghost use Rattle.tc_component.specs.Columns.{IsFound};
ghost use Rattle.tc_component.specs.Spelling.{IsIndex};
ghost use Rattle.tc_component.specs.declared.found.Found.TheVariants.{Absent as NotFound};
ghost use Rattle.tc_list.specs.Contents.{marks};
ghost use Rattle.tc_memory.specs.Table.{Table};
ghost use Rattle.tc_query.specs.Walking.{least_left, first_key, entries_ahead, IsAhead, IsFrom, IsNext};

use tc_component::{Component, Found};
use tc_memory::{Entries, Entry};
use tc_store::Frozen;

/// The entries of a table that a walk has not passed.
#[derive(Drop)]
pub(crate) struct Ahead<'a> {
    pub(crate) next: Option<Entry<'a>>,
    pub(crate) behind: Entries<'a>,
}

impl<'a> Ahead<'a> {
    /// All of these entries.
    pub(crate) fn of(entries: Entries<'a>) -> Ahead<'a>
        ensures { entries_ahead result ≡ entries.entry }
    {
        let mut behind = entries;
        let next = behind.next();
        Ahead { next, behind }
    }

    /// The first key behind the one that was walked last, once all entries up to that are passed.
    pub(crate) fn next(&mut self, last: Option<u64>) -> Option<u64>
        ensures first { result ≡ first_key (entries_ahead self.new) }
        ensures from { IfSome result (λ key. least_left last ≤ key) }
        ensures ahead { (t : Table) → IsAhead (least_left last) t (entries_ahead self.old) → IsAhead (least_left last) t (entries_ahead self.new) }
    {
        while let Some(entry) = self.next {
            if is_behind(last, entry.key) {
                return Some(entry.key);
            }
            self.next = self.behind.next();
        }
        None
    }
}

/// Whether a key comes behind the one that was walked last, if one was.
fn is_behind(last: Option<u64>, key: u64) -> bool
    ensures { result ≡ nat_le (least_left last) key }
{
    match last {
        None => true,
        Some(last) => last < key,
    }
}

/// The first key of a component behind the one that was walked last, once the place stands there.
pub(crate) fn next_in<F: Frozen>(
    component: &Component<F>,
    place: &mut usize,
    last: Option<u64>,
) -> Option<u64>
    requires ahead { IsAhead (least_left last) (marks component.now.index.slots) (drop place.old (marks component.now.index.slots)) }
    ensures ahead { IsAhead (least_left last) (marks component.now.index.slots) (drop place.new (marks component.now.index.slots)) }
    ensures from { IsFrom (least_left last) component.now.index.slots place.new }
    ensures next { IsNext (least_left last) result (λ key. IsFound component.now.index.slots key NotFound) }
    ensures lawful { IsIndex component.now.index }
{
    let _lawful = component.file_len();
    *place = place_behind(component, *place, last);
    key_at(component, *place)
}

/// The place of the first entry from one on whose key comes behind the one that was walked last.
fn place_behind<F: Frozen>(component: &Component<F>, from: usize, last: Option<u64>) -> usize
    requires ahead { IsAhead (least_left last) (marks component.now.index.slots) (drop from (marks component.now.index.slots)) }
    ensures ahead { IsAhead (least_left last) (marks component.now.index.slots) (drop result (marks component.now.index.slots)) }
    ensures from { IsFrom (least_left last) component.now.index.slots result }
{
    let mut at = from;
    while at < component.len() {
        if is_behind(last, component.entry(at).key) {
            return at;
        }
        at += 1;
    }
    at
}

/// What a component has of a key, whose place is that of the first entry of this key or a greater one.
pub(crate) fn found_at<F: Frozen>(component: &Component<F>, at: usize, key: u64) -> Found
    requires ahead { IsAhead key (marks component.now.index.slots) (drop at (marks component.now.index.slots)) }
    requires from { IsFrom key component.now.index.slots at }
    ensures { IsFound component.now.index.slots key result }
{
    let _lawful = component.file_len();
    if key_at(component, at) != Some(key) {
        return Found::Absent;
    }
    match component.entry(at).place {
        None => Found::Gone,
        Some(place) => Found::At(place),
    }
}

/// The key of the entry at a position of the directory, or `None` behind the last.
fn key_at<F: Frozen>(component: &Component<F>, at: usize) -> Option<u64>
    ensures { result ≡ option_map (λ s. s.key) (slice_get component.now.index.slots at) }
{
    if at < component.len() {
        Some(component.entry(at).key)
    } else {
        None
    }
}
