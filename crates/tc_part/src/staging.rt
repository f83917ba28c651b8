//! Writes are staged: they stand in the active table, and go into the log with the next frame.

ghost use Rattle.std.specs.Prelude.{◌≡◌, ◌<◌, ◌^◌, ◌++◌, ◌∷◌, [], Bool, true, false, None, is_some, IfErr, IfOk, OnErr, OnOk, IsErrOf};
ghost use Rattle.tc_model.specs.Keyed.{value_of};
ghost use Rattle.tc_record.specs.StoredRecord.{IsStoredRecord};
ghost use Rattle.tc_log.specs.Writes.{IsWrite, key_of};
ghost use Rattle.tc_log.specs.declared.write.Write.TheVariants.{Upsert as an_upsert, Delete as a_delete};
ghost use Rattle.tc_plain_model.specs.Writes.{Write as PlainWrite};
ghost use Rattle.tc_machine.specs.Logs.{kept_write};
ghost use Rattle.tc_machine.specs.Writes.{IsStorableWrite};
ghost use Rattle.tc_list.specs.Lookups.{HaveNone};
ghost use Rattle.tc_part_model.specs.PartState.{told, AreForFrame};
ghost use Rattle.tc_part_model.specs.PartView.{PartView, stored_with};
ghost use Rattle.tc_part_model.specs.Meaning.{IsPart, HasFailedAs, plain_of};
ghost use Rattle.tc_part.specs.Below.{ShowsLive};
ghost use Rattle.tc_part.specs.Handed.{KeepsShape};
ghost use Rattle.tc_part.specs.Harms.{IsHarmIn, IsOfRead};
ghost use Rattle.tc_part.specs.Reads.{IsCountedLookup};
ghost use Rattle.tc_part.specs.Stages.{answer_to, refusal_for, stages, HasStaged, IsAnswerTo};

use crate::fault::PartFault;
use crate::part::Part;
use std::alloc::Global;
use tc_bytes::Bytes;
use tc_log::Write;
use tc_part_model::{failed_parts_keep_files, staged_is_kept};
use tc_store::Store;

/// What comes of a write: it is staged, where that changes anything, and its key had a document or not; or it is refused,
/// since with its names too many would be taken, or since there is no room for one document more.
#[derive(Clone, Copy, Debug, PartialEq, Eq)]
pub enum Staged {
    Done { was_live: bool },
    NamesFull,
    Full,
}

impl<S: Store> Part<S> {
    /// Stages a write. A refused one changes nothing, and a delete of a key without a document stages nothing. At most one
    /// read is made, and none where no component has the key.
    pub fn stage(&mut self, alloc: Global, write: Write) -> Result<Staged, PartFault>
        requires sound { self.old.failed ≡ false }
        requires lawful { IsWrite write }
        requires frame { AreForFrame (self.old.staged ++ write ∷ []) }

        // The answer is that of the plain store, and the part the one in which the write is staged.
        ensures answered { (p : PartView) (w : PlainWrite) → IsPart (told S.history S.Device.history S.Frozen.content self.old) p → IsStorableWrite w → write ≡ kept_write w
            → IfOk result (λ answer. answer ≡ answer_to (refusal_for self.old.limits w (plain_of (told S.history S.Device.history S.Frozen.content self.old) p)) (is_some (value_of w.0 (stored_with p)))) }
        ensures staged { (p : PartView) (w : PlainWrite) → IsPart (told S.history S.Device.history S.Frozen.content self.old) p → IsStorableWrite w → write ≡ kept_write w
            → OnOk result (IsPart (told S.history S.Device.history S.Frozen.content self.new) (stages (refusal_for self.old.limits w (plain_of (told S.history S.Device.history S.Frozen.content self.old) p)) w (is_some (value_of w.0 (stored_with p))) p)) }

        // Over every store it is by the names that are taken, by the count of documents, and by what tables and directories
        // show of the key.
        ensures by_key { IfOk result (λ answer. (was_live : Bool) × ShowsLive self.old.sealed self.old.list self.old.active (key_of write) was_live × IsAnswerTo self.old.limits self.old.taken self.old.live write was_live answer) }
        ensures same { IfOk result (λ answer. HasStaged answer write self.old self.new) }
        // The shape that the table keeps of what is below is that of a document in the sealed table, or of one whose record was
        // read, whatever the files tell.
        ensures handed { IfOk result (λ answer. KeepsShape (λ file. S.Frozen.content file) answer write self.old self.new.active) }

        // A part that fails keeps what it stored.
        ensures failed { OnErr result ((p : PartView) → IsPart (told S.history S.Device.history S.Frozen.content self.old) p
            → HasFailedAs (told S.history S.Device.history S.Frozen.content self.new) p None) }
        ensures left { OnErr result (self.new ≡ record self.old { main = self.new.main; active = self.new.active; staged = self.new.staged; taken = self.new.taken; live = self.new.live; failed = true }) }

        ensures harmed { IfErr result (λ fault. IsOfRead fault (λ file at bytes. IsHarmIn (λ file. S.Frozen.content file) self.old.list file at bytes)) }
        ensures counted { IsCountedLookup (IsErrOf result PartFault.Disk) (HaveNone self.old.list (key_of write)) (S.Watch.counts self.old.main) (S.Watch.counts self.new.main) }
    {
        failed_parts_keep_files();
        match self.stage_write(alloc, write) {
            Ok(staged) => Ok(staged),
            Err(fault) => {
                self.failed = true;
                Err(fault)
            }
        }
    }

    /// Stages a write of either kind. Where this errs the part has not failed yet.
    fn stage_write(&mut self, alloc: Global, write: Write) -> Result<Staged, PartFault>
        requires lawful { IsWrite write }
        requires frame { AreForFrame (self.old.staged ++ write ∷ []) }
        ensures answered { (p : PartView) (w : PlainWrite) → IsPart (told S.history S.Device.history S.Frozen.content self.old) p → IsStorableWrite w → write ≡ kept_write w
            → IfOk result (λ answer. answer ≡ answer_to (refusal_for self.old.limits w (plain_of (told S.history S.Device.history S.Frozen.content self.old) p)) (is_some (value_of w.0 (stored_with p)))) }
        ensures staged { (p : PartView) (w : PlainWrite) → IsPart (told S.history S.Device.history S.Frozen.content self.old) p → IsStorableWrite w → write ≡ kept_write w
            → OnOk result (IsPart (told S.history S.Device.history S.Frozen.content self.new) (stages (refusal_for self.old.limits w (plain_of (told S.history S.Device.history S.Frozen.content self.old) p)) w (is_some (value_of w.0 (stored_with p))) p)) }
        ensures by_key { IfOk result (λ answer. (was_live : Bool) × ShowsLive self.old.sealed self.old.list self.old.active (key_of write) was_live × IsAnswerTo self.old.limits self.old.taken self.old.live (write) was_live answer) }
        ensures same { IfOk result (λ answer. HasStaged answer (write) self.old self.new) }
        ensures handed { IfOk result (λ answer. KeepsShape (λ file. S.Frozen.content file) answer write self.old self.new.active) }
        ensures left { self.new ≡ record self.old { main = self.new.main; active = self.new.active; staged = self.new.staged; taken = self.new.taken; live = self.new.live } }
        ensures harmed { IfErr result (λ fault. IsOfRead fault (λ file at bytes. IsHarmIn (λ file. S.Frozen.content file) self.old.list file at bytes)) }
        ensures counted { IsCountedLookup (IsErrOf result PartFault.Disk) (HaveNone self.old.list (key_of write)) (S.Watch.counts self.old.main) (S.Watch.counts self.new.main) }
    {
        match write {
            Write::Upsert { key, bytes } => self.stage_upsert(alloc, key, bytes),
            Write::Delete { key } => self.stage_delete(alloc, key),
        }
    }

    /// Stages the record of a key's document, unless it is refused.
    fn stage_upsert(&mut self, alloc: Global, key: u64, bytes: Bytes) -> Result<Staged, PartFault>
        requires key { key < 2 ^ 63 }
        requires record { IsStoredRecord bytes }
        requires frame { AreForFrame (self.old.staged ++ an_upsert key bytes ∷ []) }
        ensures answered { (p : PartView) (w : PlainWrite) → IsPart (told S.history S.Device.history S.Frozen.content self.old) p → IsStorableWrite w → an_upsert key bytes ≡ kept_write w
            → IfOk result (λ answer. answer ≡ answer_to (refusal_for self.old.limits w (plain_of (told S.history S.Device.history S.Frozen.content self.old) p)) (is_some (value_of w.0 (stored_with p)))) }
        ensures staged { (p : PartView) (w : PlainWrite) → IsPart (told S.history S.Device.history S.Frozen.content self.old) p → IsStorableWrite w → an_upsert key bytes ≡ kept_write w
            → OnOk result (IsPart (told S.history S.Device.history S.Frozen.content self.new) (stages (refusal_for self.old.limits w (plain_of (told S.history S.Device.history S.Frozen.content self.old) p)) w (is_some (value_of w.0 (stored_with p))) p)) }
        ensures by_key { IfOk result (λ answer. (was_live : Bool) × ShowsLive self.old.sealed self.old.list self.old.active (key) was_live × IsAnswerTo self.old.limits self.old.taken self.old.live (an_upsert key bytes) was_live answer) }
        ensures same { IfOk result (λ answer. HasStaged answer (an_upsert key bytes) self.old self.new) }
        ensures handed { IfOk result (λ answer. KeepsShape (λ file. S.Frozen.content file) answer (an_upsert key bytes) self.old self.new.active) }
        ensures left { self.new ≡ record self.old { main = self.new.main; active = self.new.active; staged = self.new.staged; taken = self.new.taken; live = self.new.live } }
        ensures harmed { IfErr result (λ fault. IsOfRead fault (λ file at bytes. IsHarmIn (λ file. S.Frozen.content file) self.old.list file at bytes)) }
        ensures counted { IsCountedLookup (IsErrOf result PartFault.Disk) (HaveNone self.old.list (key)) (S.Watch.counts self.old.main) (S.Watch.counts self.new.main) }
    {
        staged_is_kept();
        let below = self.below(key);
        let was_live = self.is_live(key, below);
        let new_names = self.new_names(alloc, bytes.as_slice())?;
        match self.refusal(new_names, was_live) {
            Some(refused) => Ok(refused),
            None => self.upsert(alloc, key, bytes, below, was_live, 0 < new_names),
        }
    }

    /// Stages that a key is taken out, where it has a document.
    fn stage_delete(&mut self, alloc: Global, key: u64) -> Result<Staged, PartFault>
        requires key { key < 2 ^ 63 }
        requires frame { AreForFrame (self.old.staged ++ a_delete key ∷ []) }
        ensures answered { (p : PartView) (w : PlainWrite) → IsPart (told S.history S.Device.history S.Frozen.content self.old) p → IsStorableWrite w → a_delete key ≡ kept_write w
            → IfOk result (λ answer. answer ≡ answer_to (refusal_for self.old.limits w (plain_of (told S.history S.Device.history S.Frozen.content self.old) p)) (is_some (value_of w.0 (stored_with p)))) }
        ensures staged { (p : PartView) (w : PlainWrite) → IsPart (told S.history S.Device.history S.Frozen.content self.old) p → IsStorableWrite w → a_delete key ≡ kept_write w
            → OnOk result (IsPart (told S.history S.Device.history S.Frozen.content self.new) (stages (refusal_for self.old.limits w (plain_of (told S.history S.Device.history S.Frozen.content self.old) p)) w (is_some (value_of w.0 (stored_with p))) p)) }
        ensures by_key { IfOk result (λ answer. (was_live : Bool) × ShowsLive self.old.sealed self.old.list self.old.active (key) was_live × IsAnswerTo self.old.limits self.old.taken self.old.live (a_delete key) was_live answer) }
        ensures same { IfOk result (λ answer. HasStaged answer (a_delete key) self.old self.new) }
        ensures handed { IfOk result (λ answer. KeepsShape (λ file. S.Frozen.content file) answer (a_delete key) self.old self.new.active) }
        ensures left { self.new ≡ record self.old { main = self.new.main; active = self.new.active; staged = self.new.staged; taken = self.new.taken; live = self.new.live } }
        ensures harmed { IfErr result (λ fault. IsOfRead fault (λ file at bytes. IsHarmIn (λ file. S.Frozen.content file) self.old.list file at bytes)) }
        ensures counted { IsCountedLookup (IsErrOf result PartFault.Disk) (HaveNone self.old.list (key)) (S.Watch.counts self.old.main) (S.Watch.counts self.new.main) }
    {
        let below = self.below(key);
        if self.is_live(key, below) {
            return self.delete(alloc, key, below);
        }
        Ok(Staged::Done { was_live: false })
    }
}
