//! The record of a document is staged.

ghost use Rattle.std.specs.Prelude.{◌≡◌, ◌<◌, ◌+◌, ◌^◌, ◌&&◌, ◌++◌, ◌∷◌, not, nat_le, nat_lt, [], Some, None, false, length, option_map, is_some, IfErr, IfOk, OnErr, OnOk, IsErrOf, if◌then◌else◌};
ghost use Rattle.tc_model.specs.Document.{Document};
ghost use Rattle.tc_model.specs.Keyed.{value_of};
ghost use Rattle.tc_value.specs.ShapeMeaning.{shape_tree};
ghost use Rattle.tc_record.specs.Record.{IsRecordOf, record_of};
ghost use Rattle.tc_record.specs.StoredRecord.{IsStoredRecord};
ghost use Rattle.tc_log.specs.declared.write.Write.TheVariants.{Upsert as an_upsert};
ghost use Rattle.tc_memory.specs.Table.{upserted};
ghost use Rattle.tc_plain_model.specs.Store.{names_with};
ghost use Rattle.tc_machine.specs.Writes.{IsStorableWrite};
ghost use Rattle.tc_list.specs.Lookups.{HaveNone};
ghost use Rattle.tc_part_model.specs.Changes.{with_staged};
ghost use Rattle.tc_part_model.specs.PartState.{told, AreForFrame};
ghost use Rattle.tc_part_model.specs.PartView.{PartView, stored_with};
ghost use Rattle.tc_part_model.specs.Meaning.{IsPart};
ghost use Rattle.tc_part.specs.declared.staging.Staged.TheVariants.{Done};
ghost use Rattle.tc_part.specs.Below.{IsBelow};
ghost use Rattle.tc_part.specs.Handed.{HandsIn};
ghost use Rattle.tc_part.specs.Harms.{IsHarmIn, IsOfRead};
ghost use Rattle.tc_part.specs.Reads.{IsCountedLookup};
ghost use Rattle.tc_part.specs.Stages.{refusal_by, refused_as, HasUpserted};

use crate::below::Below;
use crate::fault::PartFault;
use crate::names::{fresh_in, take_names};
use crate::part::Part;
use crate::staging::Staged;
use std::alloc::Global;
use tc_bytes::{Bytes, Memory};
use tc_compact::names_agree;
use tc_log::Write;
use tc_part_model::staged_is_kept;
use tc_record::{RecordRef, one_document};
use tc_store::Store;
use tc_value::Shape;

impl<S: Store> Part<S> {
    /// How many names of a record's document are new. Takes no memory where none is.
    pub(crate) fn new_names(&self, alloc: Global, bytes: &[u8]) -> Result<u32, Memory>
        requires { IsStoredRecord bytes.now }
        ensures count { IfOk result (λ n. (d : Document) → IsRecordOf d bytes.now → length (names_with d self.now.taken) ≡ length self.now.taken + n) }
        ensures none { IfOk result (λ n. n ≡ 0 → (d : Document) → IsRecordOf d bytes.now → names_with d self.now.taken ≡ self.now.taken) }
    {
        names_agree();
        one_document();
        let _taken = self.taken.len();
        let fresh = fresh_in(alloc, &RecordRef::known(bytes), &self.taken)?;
        Ok(fresh.len())
    }

    /// Why an upsert with so many new names is refused, if it is.
    pub(crate) fn refusal(&self, new_names: u32, was_live: bool) -> Option<Staged>
        ensures exact { (d : Document) → length (names_with d self.now.taken) ≡ length self.now.taken + new_names → result ≡ option_map refused_as (refusal_by self.now.limits d self.now.taken was_live self.now.live) }
        ensures names { result ≡ None → length self.now.taken + new_names < 2 ^ 32 }
        ensures room { result ≡ None → was_live ≡ false → self.now.live + 1 < 2 ^ 32 }
    {
        let _taken = self.taken.len();
        if self.lacks_names(new_names) {
            return Some(Staged::NamesFull);
        }
        if self.lacks_room(was_live) {
            return Some(Staged::Full);
        }
        None
    }

    /// Whether there is no room for the document of a key that has one or not.
    fn lacks_room(&self, was_live: bool) -> bool
        ensures test { result ≡ (not was_live && nat_le self.now.limits.docs self.now.live) }
        ensures room { result ≡ false → was_live ≡ false → self.now.live + 1 < 2 ^ 32 }
    {
        !was_live && self.limits.docs <= self.live
    }

    /// Whether so many new names are too many.
    fn lacks_names(&self, fresh: u32) -> bool
        ensures test { result ≡ (nat_lt 0 fresh && nat_lt self.now.limits.names (length self.now.taken + fresh)) }
        ensures most { self.now.limits.names < 2 ^ 32 }
    {
        let most = u64::from(self.limits.names);
        let names = u64::from(self.taken.len()) + u64::from(fresh);
        0 < fresh && most < names
    }

    /// Stages the record of a key's document, where that is not refused, and the key has this below the active table. Without
    /// `has_new`, no name of the document is new.
    pub(crate) fn upsert(
        &mut self,
        alloc: Global,
        key: u64,
        bytes: Bytes,
        below: Below,
        was_live: bool,
        has_new: bool,
    ) -> Result<Staged, PartFault>
        requires key { key < 2 ^ 63 }
        requires record { IsStoredRecord bytes }
        requires frame { AreForFrame (self.old.staged ++ an_upsert key bytes ∷ []) }
        requires below { IsBelow self.old.sealed self.old.list key below }
        requires names { (d : Document) → IsRecordOf d bytes → length (names_with d self.old.taken) < 2 ^ 32 }
        requires known { has_new ≡ false → (d : Document) → IsRecordOf d bytes → names_with d self.old.taken ≡ self.old.taken }
        requires room { was_live ≡ false → self.old.live + 1 < 2 ^ 32 }
        ensures done { IfOk result (λ answer. answer ≡ Done was_live) }
        ensures staged { (p : PartView) (d : Document) → IsPart (told S.history S.Device.history S.Frozen.content self.old) p → IsStorableWrite (key, Some d) → bytes ≡ record_of d → was_live ≡ is_some (value_of key (stored_with p))
            → OnOk result (IsPart (told S.history S.Device.history S.Frozen.content self.new) (with_staged (key, Some d) p)) }
        ensures same { OnOk result (HasUpserted key bytes was_live self.old self.new) }
        ensures handed { OnOk result (HandsIn (λ file. S.Frozen.content file) key (upserted key bytes) self.old self.new.active) }
        ensures left { self.new ≡ record self.old { main = self.new.main; active = self.new.active; staged = self.new.staged; taken = self.new.taken; live = self.new.live } }
        ensures harmed { IfErr result (λ fault. IsOfRead fault (λ file at bytes. IsHarmIn (λ file. S.Frozen.content file) self.old.list file at bytes)) }
        ensures counted { IsCountedLookup (IsErrOf result PartFault.Disk) (HaveNone self.old.list key) (S.Watch.counts self.old.main) (S.Watch.counts self.new.main) }
    {
        staged_is_kept();
        let shape = self.shape_kept(alloc, key, below)?;
        self.put_new(alloc, key, bytes, shape, was_live, has_new)?;
        Ok(Staged::Done { was_live })
    }

    /// Puts a record into the active table, and its write behind those that are staged.
    fn put(
        &mut self,
        alloc: Global,
        key: u64,
        bytes: Bytes,
        shape: Option<Shape>,
    ) -> Result<(), Memory>
        requires key { key < 2 ^ 63 }
        requires record { IsStoredRecord bytes }
        requires frame { AreForFrame (self.old.staged ++ an_upsert key bytes ∷ []) }
        ensures ok { OnOk result (self.new ≡ record self.old { active = upserted key bytes (option_map shape_tree shape) self.old.active; staged = self.old.staged ++ an_upsert key bytes ∷ [] }) }
        ensures err { OnErr result (self.new ≡ record self.old { active = self.new.active; staged = self.new.staged }) }
    {
        let copy = bytes.copy(alloc)?;
        self.staged.push(Write::Upsert { key, bytes: copy })?;
        self.active.upsert(key, bytes, shape)
    }

    /// Puts a record into the active table, takes its names where one is new, and counts its document, where the key had one
    /// or not.
    fn put_new(
        &mut self,
        alloc: Global,
        key: u64,
        bytes: Bytes,
        shape: Option<Shape>,
        was_live: bool,
        has_new: bool,
    ) -> Result<(), Memory>
        requires key { key < 2 ^ 63 }
        requires record { IsStoredRecord bytes }
        requires frame { AreForFrame (self.old.staged ++ an_upsert key bytes ∷ []) }
        requires names { (d : Document) → IsRecordOf d bytes → length (names_with d self.old.taken) < 2 ^ 32 }
        requires known { has_new ≡ false → (d : Document) → IsRecordOf d bytes → names_with d self.old.taken ≡ self.old.taken }
        requires room { was_live ≡ false → self.old.live + 1 < 2 ^ 32 }
        ensures put { OnOk result (self.new ≡ record self.old { active = upserted key bytes (option_map shape_tree shape) self.old.active; staged = self.old.staged ++ an_upsert key bytes ∷ []; taken = self.new.taken; live = self.new.live }) }
        ensures taken { OnOk result ((d : Document) → IsRecordOf d bytes → self.new.taken ≡ names_with d self.old.taken) }
        ensures live { OnOk result (self.new.live ≡ (if was_live then self.old.live else self.old.live + 1)) }
        ensures same { self.new ≡ record self.old { active = self.new.active; staged = self.new.staged; taken = self.new.taken; live = self.new.live } }
    {
        names_agree();
        if has_new {
            take_names(&RecordRef::known(bytes.as_slice()), &mut self.taken)?;
        }
        self.put(alloc, key, bytes, shape)?;
        if !was_live {
            self.live += 1;
        }
        Ok(())
    }
}
