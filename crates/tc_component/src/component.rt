//! The component that is searched.

ghost use Rattle.std.specs.Prelude.{◌≡◌, ◌<◌, ◌≤◌, ◌+◌, ◌-◌, ℕ, List, Err, Some, slice_get, length, min, take, IfOk, IfSome, IfNone, IsErrOf, OnSome};
ghost use Rattle.std.specs.Result.{IsOk};
ghost use Rattle.tc_schema_model.specs.Counted.{documents_of};
ghost use Rattle.tc_store.specs.Counted.{IsCountedOnce};
ghost use Rattle.tc_store.specs.Judging.{Judges, IfDamaged, IsNoDamage, damage as a_damage};
ghost use Rattle.tc_component.specs.declared.slot.Slot.{Slot as OneSlot};
ghost use Rattle.tc_component.specs.Columns.{IsFound, IsEntry};
ghost use Rattle.tc_component.specs.Counts.{counts_of};
ghost use Rattle.tc_component.specs.Fetching.{IsPlace, record_place, length_at, record_at, IsRecordWithin};
ghost use Rattle.tc_component.specs.Layout.{directory_place, names_place, schema_place, file_size};
ghost use Rattle.tc_component.specs.Loading.{index_in, same_head, IsAsJudged, IsCountedTwice};
ghost use Rattle.tc_component.specs.Reading.{head_judged, file_judged};
ghost use Rattle.tc_component.specs.Spans.{AreSpans};
ghost use Rattle.tc_component.specs.Spelling.{sizes_in, name_of, IsHead, IsIndex};

use crate::fetching::record_within;
use crate::found::{DirEntry, Found, Place, Span};
use crate::head::Head;
use crate::kept_schema::Counts;
use crate::layout::{RECORDS_PLACE, SLOT_LEN};
use crate::loading::{Loaded, loaded_of};
use crate::reading::{front_in, named_head_in};
use crate::slot::Slot;
use std::alloc::Global;
use std::marker::Model;
use tc_bytes::{Bytes, Memory};
use tc_names::Names;
use tc_record::RecordRef;
use tc_schema::Schema;
use tc_store::{FileName, Frozen, ReadFault, bytes_of};

/// A component whose file is still. Its directory, its names and the bytes of its schema are in memory, and its records are not.
/// Contracts see the file, and what it has beside its records.
#[derive(Drop)]
pub struct Component<F: Frozen> {
    file: F,
    loaded: Loaded,
}

impl<F: Frozen> Model for Component<F> {
    ghost use Rattle.std.specs.Coded.{codes};
    ghost use Rattle.std.specs.Prelude.{◌≡◌, ◌<◌};
    ghost use Rattle.tc_schema_model.specs.CountedCode.{coded_counted};
    ghost use Rattle.tc_component.specs.Layout.{file_size, number_end};
    ghost use Rattle.tc_component.specs.Loading.{ComponentState, loaded_index, IsAsJudged};
    ghost use Rattle.tc_component.specs.Spelling.{IsIndex, sizes_of};

    ghost Value = { ComponentState F };

    ghost coded = { Prim.hlevel (codes, coded_counted) };

    ghost view = { λ c. record { file = c.file; index = loaded_index c.loaded } };

    ghost invariant = { λ c. IsIndex (loaded_index c.loaded) × (c.loaded.sizes ≡ sizes_of c.loaded.parts.directory c.loaded.parts.names c.loaded.parts.schema) × (file_size c.loaded.sizes ≡ F.size c.file) × (file_size c.loaded.sizes < number_end) × IsAsJudged F.content (record { file = c.file; index = loaded_index c.loaded }) };
}

impl<F: Frozen> Component<F> {
    /// Loads the component of this name, by two reads, of which none is of a record. `Damaged` has the place of the
    /// header, of the directory, of the names or of the schema, and the bytes there. `Disk` comes only where a read failed.
    pub fn load(
        alloc: Global,
        file: F,
        name: FileName,
        watch: &mut F::Watch,
    ) -> Result<Component<F>, ReadFault>
        ensures judged { IfSome (F.content file) (λ bytes. Judges index_in result (file_judged name bytes)) }
        ensures file { IfOk result (λ c. c.file ≡ file) }

        // Also of a file that does not tell its content.
        ensures lawful { IfOk result (λ c. IsIndex c.index × (name ≡ name_of c.index.head)) }
        ensures damaged { IfDamaged result (λ place bytes. (whole : List ℕ) × (length whole ≡ F.size file) × (file_judged name whole ≡ Err (a_damage place bytes))) }

        // Behind a fault there are no more reads than that.
        ensures counted { IsCountedTwice (IsErrOf result ReadFault.Disk) (IsOk result) (F.Watch.counts watch.old) (F.Watch.counts watch.new) }
        ensures reads { (F.Watch.counts watch.new).reads ≤ (F.Watch.counts watch.old).reads + 2 }
    {
        let loaded = loaded_of(alloc, &file, name, watch)?;
        Ok(Component { file, loaded })
    }

    /// Which component it is.
    pub fn head(&self) -> Head
        ensures { result ≡ self.now.index.head }
    {
        self.loaded.head
    }

    /// The name of its file.
    pub fn file_name(&self) -> FileName
        ensures { result ≡ name_of self.now.index.head }
    {
        self.loaded.head.file_name()
    }

    /// The version of its file, which is the form of its records: 1 or 2.
    pub fn version(&self) -> u8
        ensures { result ≡ self.now.index.version }
    {
        self.loaded.version
    }

    /// How many entries it has.
    pub fn len(&self) -> usize
        ensures { result ≡ length self.now.index.slots }
    {
        self.loaded.parts.directory.len()
    }

    /// What it has of a key. Makes no read and takes no memory.
    pub fn find(&self, key: u64) -> Found
        ensures { IsFound self.now.index.slots key result }
    {
        self.loaded.parts.directory.find(key)
    }

    /// The entry at a position of the directory. Makes no read and takes no memory.
    pub fn entry(&self, at: usize) -> DirEntry
        requires { at < length self.now.index.slots }
        ensures { IsEntry self.now.index.slots at result }
    {
        entry_of(at, self.loaded.parts.directory.slot(at))
    }

    /// The entries from a position of the directory on, as many as there are and as there is room for. Answers how many.
    /// Makes no read and takes no memory.
    pub fn spans(&self, at: usize, room: &mut [Span]) -> usize
        requires { at ≤ length self.now.index.slots }
        ensures count { result ≡ min (length room.old) (length self.now.index.slots - at) }
        ensures spans { AreSpans self.now.index.slots at (take result room.new) }
    {
        self.loaded.parts.directory.spans(at, room)
    }

    /// Fetches the record of the entry at a place, by one read, which is left out where memory is wanting. It is of the form
    /// that the version says, and each of its numbers is one of a name of the component; else it is `Damaged`, with its place
    /// and its bytes. `Disk` comes only where the read failed. What the record says is not looked at further.
    pub fn fetch(
        &self,
        alloc: Global,
        place: Place,
        watch: &mut F::Watch,
    ) -> Result<Bytes, ReadFault>
        requires { IsPlace self.now.index.slots place }
        ensures read { IfOk result (λ read. IfSome (F.content self.now.file) (λ bytes. read ≡ record_at self.now.index.slots place.at bytes)) }
        ensures told { IfDamaged result (λ at kept. IfSome (F.content self.now.file) (λ bytes. kept ≡ record_at self.now.index.slots place.at bytes)) }

        // Also of a file that does not tell its content.
        ensures found { IfOk result (λ read. (length read ≡ length_at self.now.index.slots place.at) × IsRecordWithin self.now.index.version (length self.now.index.names) read) }
        ensures damaged { IfDamaged result (λ at kept. (at ≡ record_place self.now.index.slots place.at) × (length kept ≡ length_at self.now.index.slots place.at) × (IsRecordWithin self.now.index.version (length self.now.index.names) kept → ⊥)) }

        ensures counted { IsCountedOnce (IsErrOf result ReadFault.Disk) (IsErrOf result ReadFault.Memory → ⊥) (F.Watch.counts watch.old) (F.Watch.counts watch.new) }
    {
        let bytes = self.read_record(alloc, place, watch)?;
        match self.found(bytes.as_slice()) {
            Some(_) => Ok(bytes),
            None => {
                let (place, _) = self.record_range(place);
                Err(ReadFault::Damaged { place, bytes })
            }
        }
    }

    /// Reads the bytes of the entry at a place, by one read, which is left out where memory is wanting. What they are is not
    /// looked at; `found` tells it. `Disk` comes only where the read failed.
    pub fn read_record(
        &self,
        alloc: Global,
        place: Place,
        watch: &mut F::Watch,
    ) -> Result<Bytes, ReadFault>
        requires { IsPlace self.now.index.slots place }
        ensures read { IfOk result (λ read. IfSome (F.content self.now.file) (λ bytes. read ≡ record_at self.now.index.slots place.at bytes)) }

        // Also of a file that does not tell its content.
        ensures long { IfOk result (λ read. length read ≡ length_at self.now.index.slots place.at) }

        ensures no_damage { IsNoDamage result }
        ensures counted { IsCountedOnce (IsErrOf result ReadFault.Disk) (IsErrOf result ReadFault.Memory → ⊥) (F.Watch.counts watch.old) (F.Watch.counts watch.new) }
    {
        let directory = &self.loaded.parts.directory;
        let at = RECORDS_PLACE + directory.start(place.at);
        let count = directory.slot(place.at).length as usize;
        let bytes = bytes_of(alloc, &self.file, at, count, watch)?;
        Ok(Bytes::of(bytes))
    }

    /// The record that bytes of an entry are, or `None` where `fetch` would find them damaged. Takes no memory.
    #[inline(always)]
    pub fn found<'b>(&self, bytes: &'b [u8]) -> Option<RecordRef<'b>>
        ensures same { IfSome result (λ found. (found.bytes ≡ bytes.now) × (found.form ≡ self.now.index.version)) }
        ensures found { OnSome result (IsRecordWithin self.now.index.version (length self.now.index.names) bytes.now) }
        ensures none { IfNone result (IsRecordWithin self.now.index.version (length self.now.index.names) bytes.now → ⊥) }
    {
        record_within(self.version(), self.names().len(), bytes)
    }

    /// Where the record of an entry begins in the file, and how many bytes it has.
    pub fn record_range(&self, place: Place) -> (u64, u32)
        requires { IsPlace self.now.index.slots place }
        ensures begin { result.0 ≡ record_place self.now.index.slots place.at }
        ensures length { result.1 ≡ length_at self.now.index.slots place.at }
        ensures within { result.0 + result.1 ≤ directory_place (sizes_in self.now.index) }
    {
        let directory = &self.loaded.parts.directory;
        let at = RECORDS_PLACE + directory.start(place.at);
        (at, directory.slot(place.at).length)
    }

    /// The file, borrowed, and where the records end in it.
    pub(crate) fn records_in(&self) -> (&F, u64)
        ensures file { result.0.now ≡ self.now.file }
        ensures end { result.1 ≡ directory_place (sizes_in self.now.index) }
        ensures within { result.1 ≤ F.size self.now.file }
    {
        (&self.file, RECORDS_PLACE + self.loaded.sizes.records)
    }

    /// Its dictionary, borrowed.
    pub fn names(&self) -> &Names
        ensures { result.now ≡ self.now.index.names }
    {
        &self.loaded.parts.names
    }

    /// Its schema, read of the bytes that are kept of it. Makes no read of the file. Errs only for want of memory.
    pub fn schema(&self, alloc: Global) -> Result<Schema, Memory>
        ensures { IfOk result (λ schema. schema ≡ self.now.index.schema) }
    {
        let parts = &self.loaded.parts;
        parts.schema.read(alloc, parts.names.len())
    }

    /// Its schema, as it is kept.
    pub(crate) fn counts(&self) -> Counts<'_>
        ensures { counts_of result ≡ self.now.index.schema }
    {
        Counts::Kept(&self.loaded.parts.schema)
    }

    /// How many documents its schema counts. Takes no memory.
    pub fn documents(&self) -> u64
        ensures { result ≡ documents_of self.now.index.schema }
    {
        self.loaded.parts.schema.documents()
    }

    /// Where the names begin.
    pub fn names_at(&self) -> u64
        ensures { result ≡ names_place (sizes_in self.now.index) }
    {
        let sizes = self.loaded.sizes;
        RECORDS_PLACE + sizes.records + sizes.entries * SLOT_LEN as u64
    }

    /// Where the schema begins.
    pub fn schema_at(&self) -> u64
        ensures { result ≡ schema_place (sizes_in self.now.index) }
    {
        self.names_at() + self.loaded.sizes.names
    }

    /// The length of the file in bytes.
    pub fn file_len(&self) -> u64
        ensures length { result ≡ F.size self.now.file }
        ensures sized { result ≡ file_size (sizes_in self.now.index) }
        ensures lawful { IsIndex self.now.index }

        // A frozen file does not change, so this holds as long as the component is there.
        ensures judged { IsAsJudged F.content self.now }
    {
        self.file.len()
    }

    /// The file. Takes no memory.
    pub fn into_file(self) -> F
        ensures { result ≡ self.file }
    {
        let Component { file, loaded: _ } = self;
        file
    }
}

fn entry_of(at: usize, slot: Slot) -> DirEntry
    ensures { (slots : List OneSlot) → slice_get slots at ≡ Some slot → IsEntry slots at result }
{
    let place = if slot.length == 0 {
        None
    } else {
        Some(Place { at })
    };
    DirEntry {
        key: slot.key,
        place,
    }
}

/// Reads the header of the component of this name, by one read. `Damaged` has the place 1 and the 60 bytes there, or as
/// many as the file has: it comes where they are no header, or that of another interval, or where the lengths do not
/// add up to that of the file. `Disk` comes only where the read failed.
pub fn read_head<F: Frozen>(
    alloc: Global,
    file: &F,
    name: FileName,
    watch: &mut F::Watch,
) -> Result<Head, ReadFault>
    ensures judged { IfSome (F.content file.now) (λ bytes. Judges same_head result (head_judged name bytes)) }

    // Also of a file that does not tell its content.
    ensures lawful { IfOk result (λ head. IsHead head × (name ≡ name_of head)) }
    ensures damaged { IfDamaged result (λ place bytes. (whole : List ℕ) × (length whole ≡ F.size file.now) × (head_judged name whole ≡ Err (a_damage place bytes))) }

    ensures counted { IsCountedOnce (IsErrOf result ReadFault.Disk) (IsOk result) (F.Watch.counts watch.old) (F.Watch.counts watch.new) }
{
    let size = file.len();
    let front = front_in(alloc, file, watch)?;
    let (head, _) = named_head_in(alloc, name, size, &front)?;
    Ok(head)
}
