//! Records of a component, read through a window.

ghost use Rattle.std.specs.Prelude.{◌≡◌, ◌<◌, ◌≤◌, ◌+◌, ◌-◌, ◌^◌, ◌↔◌, max, min, length, take, drop, IfSome, IfNone, IfOk, IsErrOf, IsTrue, OnOk, OnSome};
ghost use Rattle.std.specs.Result.{IsOk};
ghost use Rattle.tc_store.specs.Counted.{IsCountedOnce};
ghost use Rattle.tc_store.specs.Judging.{IfDamaged, IsNoDamage, IsNoDisk};
ghost use Rattle.tc_component.specs.Cursors.{holds_nothing, HoldsPart, HasBytes, IsWindow, part_held, HasRecord, BeginsAtRecord, record_held};
ghost use Rattle.tc_component.specs.Layout.{window_size, directory_place};
ghost use Rattle.tc_component.specs.Spelling.{sizes_in};
ghost use Rattle.tc_component.specs.Fetching.{IsPlace, record_place, length_at, record_at, IsRecordWithin};

use crate::component::Component;
use crate::found::Place;
use crate::layout::WINDOW_LEN;
use std::alloc::Global;
use std::marker::Model;
use tc_record::RecordRef;
use tc_store::{Frozen, ReadFault, damaged};

/// Reads records of one component whose places ascend, many by one read. Contracts see the bytes that it holds and where
/// they begin in the file.
#[derive(Drop)]
pub struct RecordCursor {
    from: u64,
    held: Vec<u8>,
    alloc: Global,
}

impl Model for RecordCursor {
    ghost use Rattle.tc_component.specs.Cursors.{CursorState};

    ghost Value = { CursorState };

    ghost view = { λ c. record { from = c.from; held = c.held.items } };
}

impl RecordCursor {
    /// A cursor that holds no byte yet. Takes no memory.
    pub fn new(alloc: Global) -> RecordCursor
        ensures { result ≡ holds_nothing }
    {
        RecordCursor {
            from: 0,
            held: Vec::new(alloc),
            alloc,
        }
    }

    /// Holds the record of the entry at a place, and judges it as `fetch` does. Where its bytes are held there is no read.
    /// Else one read fills the window from the record on. The cursor is used with this component alone.
    pub fn read<F: Frozen>(
        &mut self,
        component: &Component<F>,
        place: Place,
        watch: &mut F::Watch,
    ) -> Result<(), ReadFault>
        requires place { IsPlace component.now.index.slots place }
        requires of { HoldsPart (F.content component.now.file) self.old }

        ensures of { HoldsPart (F.content component.now.file) self.new }
        ensures has { OnOk result (HasRecord component.now.index place.at self.new) }
        ensures read { OnOk result (IfSome (F.content component.now.file) (λ bytes. record_held component.now.index place.at self.new ≡ record_at component.now.index.slots place.at bytes)) }
        ensures told { IfDamaged result (λ at kept. IfSome (F.content component.now.file) (λ bytes. kept ≡ record_at component.now.index.slots place.at bytes)) }

        // Also of a file that does not tell its content.
        ensures found { OnOk result (IsRecordWithin component.now.index.version (length component.now.index.names) (record_held component.now.index place.at self.new)) }
        ensures damaged { IfDamaged result (λ at kept. (at ≡ record_place component.now.index.slots place.at) × (length kept ≡ length_at component.now.index.slots place.at) × (IsRecordWithin component.now.index.version (length component.now.index.names) kept → ⊥)) }

        // Where the record is held the cursor stays, and makes no read.
        ensures held { HasRecord component.now.index place.at self.old → (self.new ≡ self.old) × (F.Watch.counts watch.new ≡ F.Watch.counts watch.old) }
        ensures window { OnOk result ((HasRecord component.now.index place.at self.old → ⊥) → BeginsAtRecord component.now.index place.at self.new) }
        ensures counted { IsCountedOnce (IsErrOf result ReadFault.Disk) ((HasRecord component.now.index place.at self.old → ⊥) × (IsErrOf result ReadFault.Memory → ⊥)) (F.Watch.counts watch.old) (F.Watch.counts watch.new) }
    {
        let (begin, count) = component.record_range(place);
        self.read_part(component, begin, count, watch)
    }

    /// Holds so many bytes of the records from a place on, as `spans` and `record_range` tell them, and judges them as `read`
    /// does. Where they are held there is no read.
    pub fn read_part<F: Frozen>(
        &mut self,
        component: &Component<F>,
        begin: u64,
        count: u32,
        watch: &mut F::Watch,
    ) -> Result<(), ReadFault>
        requires within { begin + count ≤ directory_place (sizes_in component.now.index) }
        requires of { HoldsPart (F.content component.now.file) self.old }

        ensures of { HoldsPart (F.content component.now.file) self.new }
        ensures has { OnOk result (HasBytes begin count self.new) }
        ensures read { OnOk result (IfSome (F.content component.now.file) (λ bytes. part_held begin count self.new ≡ take count (drop begin bytes))) }
        ensures told { IfDamaged result (λ at kept. IfSome (F.content component.now.file) (λ bytes. kept ≡ take count (drop begin bytes))) }

        // Also of a file that does not tell its content.
        ensures found { OnOk result (IsRecordWithin component.now.index.version (length component.now.index.names) (part_held begin count self.new)) }
        ensures damaged { IfDamaged result (λ at kept. (at ≡ begin) × (length kept ≡ count) × (IsRecordWithin component.now.index.version (length component.now.index.names) kept → ⊥)) }

        // Where the bytes are held the cursor stays, and makes no read.
        ensures held { HasBytes begin count self.old → (self.new ≡ self.old) × (F.Watch.counts watch.new ≡ F.Watch.counts watch.old) }
        ensures window { OnOk result ((HasBytes begin count self.old → ⊥) → IsWindow begin count (directory_place (sizes_in component.now.index)) self.new) }
        ensures counted { IsCountedOnce (IsErrOf result ReadFault.Disk) ((HasBytes begin count self.old → ⊥) × (IsErrOf result ReadFault.Memory → ⊥)) (F.Watch.counts watch.old) (F.Watch.counts watch.new) }
    {
        self.hold(component, begin, count, watch)?;
        self.judged(component, begin, count)?;
        Ok(())
    }

    /// The record of the entry at a place, which is held. Takes no memory.
    pub fn record<F: Frozen>(&self, component: &Component<F>, place: Place) -> &[u8]
        requires place { IsPlace component.now.index.slots place }
        requires has { HasRecord component.now.index place.at self.now }
        ensures same { result.now ≡ record_held component.now.index place.at self.now }
        ensures length { length result.now ≡ length_at component.now.index.slots place.at }
        ensures short { length result.now < 2 ^ 32 }
    {
        let (begin, count) = component.record_range(place);
        self.part(begin, count)
    }

    /// The record that so many bytes from a place on are, which are held, judged as `fetch` does. Takes memory where they are
    /// damage.
    #[inline(always)]
    pub fn judged<F: Frozen>(
        &self,
        component: &Component<F>,
        begin: u64,
        count: u32,
    ) -> Result<RecordRef<'_>, ReadFault>
        requires { HasBytes begin count self.now }
        ensures same { IfOk result (λ found. (found.bytes ≡ part_held begin count self.now) × (found.form ≡ component.now.index.version)) }
        ensures found { OnOk result (IsRecordWithin component.now.index.version (length component.now.index.names) (part_held begin count self.now)) }
        ensures damaged { IfDamaged result (λ at kept. (at ≡ begin) × (kept ≡ part_held begin count self.now) × (length kept ≡ count) × (IsRecordWithin component.now.index.version (length component.now.index.names) kept → ⊥)) }
        ensures no_disk { IsNoDisk result }
    {
        match self.found(component, begin, count) {
            Some(found) => Ok(found),
            None => Err(damaged(self.alloc, begin as usize, self.part(begin, count))),
        }
    }

    /// The record that so many bytes from a place on are, which are held, or `None` where `fetch` would find them damaged. Takes no
    /// memory.
    #[inline(always)]
    pub fn found<F: Frozen>(
        &self,
        component: &Component<F>,
        begin: u64,
        count: u32,
    ) -> Option<RecordRef<'_>>
        requires { HasBytes begin count self.now }
        ensures same { IfSome result (λ found. (found.bytes ≡ part_held begin count self.now) × (found.form ≡ component.now.index.version)) }
        ensures found { OnSome result (IsRecordWithin component.now.index.version (length component.now.index.names) (part_held begin count self.now)) }
        ensures none { IfNone result (IsRecordWithin component.now.index.version (length component.now.index.names) (part_held begin count self.now) → ⊥) }
    {
        component.found(self.part(begin, count))
    }

    /// Holds so many bytes of the records from a place on, by no read where they are held, and by one where they are not.
    /// What they are is not looked at.
    pub fn hold<F: Frozen>(
        &mut self,
        component: &Component<F>,
        begin: u64,
        count: u32,
        watch: &mut F::Watch,
    ) -> Result<(), ReadFault>
        requires within { begin + count ≤ directory_place (sizes_in component.now.index) }
        requires of { HoldsPart (F.content component.now.file) self.old }

        ensures of { HoldsPart (F.content component.now.file) self.new }
        ensures has { OnOk result (HasBytes begin count self.new) }
        ensures held { HasBytes begin count self.old → IsOk result × (self.new ≡ self.old) × (F.Watch.counts watch.new ≡ F.Watch.counts watch.old) }
        ensures window { OnOk result ((HasBytes begin count self.old → ⊥) → IsWindow begin count (directory_place (sizes_in component.now.index)) self.new) }
        ensures no_damage { IsNoDamage result }
        ensures counted { IsCountedOnce (IsErrOf result ReadFault.Disk) ((HasBytes begin count self.old → ⊥) × (IsErrOf result ReadFault.Memory → ⊥)) (F.Watch.counts watch.old) (F.Watch.counts watch.new) }
    {
        let (file, end) = component.records_in();
        let _short = file.len();
        if self.has(begin, count) {
            return Ok(());
        }
        self.fill(file, begin, window_len(end - begin, count), watch)
    }

    fn has(&self, begin: u64, count: u32) -> bool
        requires { begin < 2 ^ 63 }
        ensures { IsTrue result ↔ HasBytes begin count self.now }
    {
        self.from <= begin && begin - self.from + u64::from(count) <= self.held.len() as u64
    }

    /// Reads so many bytes from a place on.
    fn fill<F: Frozen>(
        &mut self,
        file: &F,
        begin: u64,
        len: usize,
        watch: &mut F::Watch,
    ) -> Result<(), ReadFault>
        requires within { begin + len ≤ F.size file.now }
        requires of { HoldsPart (F.content file.now) self.old }

        ensures of { HoldsPart (F.content file.now) self.new }
        ensures filled { OnOk result ((self.new.from ≡ begin) × (length self.new.held ≡ len)) }
        ensures no_damage { IsNoDamage result }
        ensures counted { IsCountedOnce (IsErrOf result ReadFault.Disk) (IsErrOf result ReadFault.Memory → ⊥) (F.Watch.counts watch.old) (F.Watch.counts watch.new) }
    {
        self.held.resize(len, 0)?;
        self.from = begin;
        match file.read(begin, &mut self.held, watch) {
            Ok(()) => Ok(()),
            Err(_) => {
                self.held.clear();
                Err(ReadFault::Disk)
            }
        }
    }

    /// So many of the bytes from a place on, which are held. Takes no memory.
    pub fn part(&self, begin: u64, count: u32) -> &[u8]
        requires { HasBytes begin count self.now }
        ensures part { result.now ≡ part_held begin count self.now }
        ensures length { length result.now ≡ count }
        ensures short { length result.now < 2 ^ 32 }
    {
        let at = (begin - self.from) as usize;
        &self.held[at..at + count as usize]
    }
}

/// How many bytes are read where so many are wanted, and there are so many.
fn window_len(left: u64, count: u32) -> usize
    requires { count ≤ left }
    ensures enough { count ≤ result }
    ensures within { result ≤ left }
    ensures short { result ≤ max window_size count }
    ensures full { min left window_size ≤ result }
{
    left.min(WINDOW_LEN as u64).max(u64::from(count)) as usize
}
