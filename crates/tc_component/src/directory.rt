//! The directory of a component, in memory: the bytes that spell it, and marks.

ghost use Rattle.std.specs.Prelude.{◌≡◌, ◌≢◌, ◌<◌, ◌≤◌, ◌+◌, ◌-◌, ◌*◌, ◌&&◌, nat_le, ℕ, true, List, [], ◌∷◌, ◌++◌, length, min, take, slice_get, Some, None, IfOk, IfSome, OnOk};
ghost use Rattle.tc_component.specs.declared.slot.Slot.{Slot as OneSlot};
ghost use Rattle.tc_component.specs.Columns.{IsFound, AreMarks, IsMarked};
ghost use Rattle.tc_component.specs.Layout.{number_end, slot_size};
ghost use Rattle.tc_component.specs.Spelling.{lengths_of};
ghost use Rattle.tc_component.specs.Reading.{directory_read};
ghost use Rattle.tc_component.specs.Spans.{AreSpans};

use crate::found::{Found, Place, Span};
use crate::head::Sizes;
use crate::layout::{MARK_STEP, RECORDS_PLACE, SLOT_LEN};
use crate::slot::{Slot, front_of_slots, slot_in};
use std::alloc::Global;
use std::marker::Model;
use tc_bytes::Memory;

/// The slots, whose keys ascend strictly, in the bytes that were read, so that a directory takes little more memory than it
/// takes in the file. A mark stands before each so many of them: how many bytes the records before it have. Contracts see the
/// slots.
#[derive(Drop)]
pub(crate) struct Directory {
    count: usize,
    bytes: Vec<u8>,
    marks: Vec<u64>,
}

impl Model for Directory {
    ghost use Rattle.std.specs.Prelude.{List};
    ghost use Rattle.tc_component.specs.declared.slot.Slot.{Slot};
    ghost use Rattle.tc_component.specs.Columns.{slots_in, AreHeld};

    ghost Value = { List Slot };

    ghost view = { λ d. slots_in d.count d.bytes.items };

    ghost invariant = { λ d. AreHeld d.count d.bytes.items d.marks.items (slots_in d.count d.bytes.items) };
}

impl Directory {
    /// The directory of these sizes that the first bytes are. Takes no memory: the bytes stay where they were read, and the room
    /// behind them is given back.
    pub(crate) fn of(sizes: Sizes, mut bytes: Vec<u8>, marks: Vec<u64>) -> Directory
        requires short { sizes.records < number_end }
        requires within { sizes.entries * slot_size ≤ length bytes.items }
        requires marked { IsMarked sizes (take (sizes.entries * slot_size) bytes.items) marks.items }
        ensures { directory_read sizes.entries sizes.records [] (take (sizes.entries * slot_size) bytes.items) ≡ Some result }
    {
        let count = sizes.entries as usize;
        bytes.truncate(count * SLOT_LEN);
        bytes.shrink_to_fit();
        Directory {
            count,
            bytes,
            marks,
        }
    }

    /// How many slots there are.
    pub(crate) fn len(&self) -> usize
        ensures { result ≡ length self.now }
    {
        self.count
    }

    /// What is found of a key.
    pub(crate) fn find(&self, key: u64) -> Found
        ensures { IsFound self.now key result }
    {
        if self.is_outside(key) {
            return Found::Absent;
        }
        let mut low = 0;
        let mut high = self.count;
        while low < high {
            let middle = low + (high - low) / 2;
            let here = self.slot(middle);
            if here.key < key {
                low = middle + 1;
            } else if here.key == key {
                return found_at(middle, here);
            } else {
                high = middle;
            }
        }
        Found::Absent
    }

    /// Whether a key is less than the least of the keys, or greater than the greatest.
    fn is_outside(&self, key: u64) -> bool
        ensures { result ≡ true → (at : ℕ) (s : OneSlot) → slice_get self.now at ≡ Some s → s.key ≢ key }
    {
        let count = self.count;
        if count == 0 {
            return true;
        }
        key < self.slot(0).key || self.slot(count - 1).key < key
    }

    /// The slot at a place.
    #[inline(always)]
    pub(crate) fn slot(&self, at: usize) -> Slot
        requires { at < length self.now }
        ensures { slice_get self.now at ≡ Some result }
    {
        let (_, rest) = self.bytes.as_slice().split_at(at * SLOT_LEN);
        front_of_slots(rest)
    }

    /// The entries from a position on, as many as there are and as there is room for. Answers how many. Records begin where
    /// they do in a file.
    pub(crate) fn spans(&self, at: usize, room: &mut [Span]) -> usize
        requires { at ≤ length self.now }
        ensures count { result ≡ min (length room.old) (length self.now - at) }
        ensures spans { AreSpans self.now at (take result room.new) }
    {
        let count = room.len().min(self.count - at);
        let mut start = self.start(at);
        for step in 0..count {
            let slot = self.slot(at + step);
            room[step] = Span {
                key: slot.key,
                begin: RECORDS_PLACE + start,
                count: slot.length,
            };
            start += u64::from(slot.length);
        }
        count
    }

    /// How many bytes the records before a place have.
    pub(crate) fn start(&self, at: usize) -> u64
        requires { at ≤ length self.now }
        ensures { result ≡ lengths_of (take at self.now) }
    {
        let mark = at / MARK_STEP;
        let mut start = self.marks[mark];
        for passed in mark * MARK_STEP..at {
            start += u64::from(self.slot(passed).length);
        }
        start
    }
}

/// What is found where a slot stands.
fn found_at(at: usize, slot: Slot) -> Found
    ensures { (slots : List OneSlot) → slice_get slots at ≡ Some slot → IsFound slots slot.key result }
{
    if slot.length == 0 {
        Found::Gone
    } else {
        Found::At(Place { at })
    }
}

/// The marks of the directory of these sizes that all of the bytes spell, where they spell one.
pub(crate) fn marks_in(
    alloc: Global,
    sizes: Sizes,
    bytes: &[u8],
) -> Result<Option<Vec<u64>>, Memory>
    ensures marked { IfOk result (λ found. IfSome found (λ marks. IsMarked sizes bytes.now marks.items)) }
    ensures none { IfOk result (λ found. found ≡ None → directory_read sizes.entries sizes.records [] bytes.now ≡ None) }
{
    let mut marks = Vec::with_capacity(alloc, bytes.len() / (SLOT_LEN * MARK_STEP) + 1)?;
    marks.push(0)?;
    let mut low = 0;
    let mut end = 0;
    let mut rest = bytes;
    for index in 0..sizes.entries {
        let Some((slot, behind)) = slot_in(rest) else {
            return Ok(None);
        };
        if !follows(low, end, sizes.records, slot) {
            return Ok(None);
        }
        end += u64::from(slot.length);
        low = slot.key + 1;
        put_mark(&mut marks, index + 1, end)?;
        rest = behind;
    }
    if !rest.is_empty() || end != sizes.records {
        return Ok(None);
    }
    Ok(Some(marks))
}

fn follows(low: u64, end: u64, records: u64, slot: Slot) -> bool
    requires { end ≤ records }
    ensures { result ≡ (nat_le low slot.key && nat_le (end + slot.length) records) }
{
    low <= slot.key && u64::from(slot.length) <= records - end
}

/// Adds a mark where one has its place behind so many slots, whose records end there.
#[inline(always)]
fn put_mark(marks: &mut Vec<u64>, read: u64, end: u64) -> Result<(), Memory>
    ensures { OnOk result ((slots : List OneSlot) (s : OneSlot) → read ≡ length slots + 1 → end ≡ lengths_of slots + s.length → AreMarks marks.old.items slots → AreMarks marks.new.items (slots ++ s ∷ [])) }
{
    if read % MARK_STEP as u64 == 0 {
        marks.push(end)?;
    }
    Ok(())
}
