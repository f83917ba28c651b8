//! What is staged is committed.

ghost use Rattle.std.specs.Prelude.{◌≡◌, ◌≤◌, ◌+◌, ◌^◌, ◌↔◌, Some, true, false, [], length, All, OnOk, OnErr, IfErr, IfOk, IsErrOf};
ghost use Rattle.std.specs.Result.{IsOk};
ghost use Rattle.tc_log.specs.Writes.{IsWrite};
ghost use Rattle.tc_store.specs.Counted.{IsCounted};
ghost use Rattle.tc_plain_model.specs.Writes.{after_writes};
ghost use Rattle.tc_part_model.specs.PartState.{told};
ghost use Rattle.tc_part_model.specs.PartView.{PartView, store_of};
ghost use Rattle.tc_part_model.specs.Meaning.{IsPart, HasFailedAs};
ghost use Rattle.tc_part.specs.FilesOut.{LogIsOut, TellsLogs};
ghost use Rattle.tc_part.specs.OwnFiles.{HasOwnFiles};
ghost use Rattle.tc_part_model.specs.Changes.{committed_part};
ghost use Rattle.tc_part_model.specs.Leaving.{LogMomentsLeaveStore};
ghost use Rattle.tc_part.specs.Faults.{IsUndamaged};

use crate::fault::PartFault;
use crate::part::Part;
use std::alloc::Global;
use std::mem;
use tc_log::Write;
use tc_part_model::commits_are_kept;
use tc_store::Store;

/// The most writes of one run.
const MAX_WRITES: u64 = 0x7fff_ffff_ffff_ffff;

impl<S: Store> Part<S> {
    /// Writes what is staged as one frame. With nothing staged it does nothing. `Spent` comes where there would be more
    /// than 2^63 - 1 writes of this run; then nothing is written. Answers the writes of the frame.
    pub fn commit(&mut self, alloc: Global) -> Result<Vec<Write>, PartFault>
        requires sound { self.old.failed ≡ false }

        // On Ok the part means what the frame makes of it.
        ensures committed { OnOk result ((p : PartView) → IsPart (told S.history S.Device.history S.Frozen.content self.old) p
            → IsPart (told S.history S.Device.history S.Frozen.content self.new) (committed_part p) × (store_of (committed_part p) ≡ after_writes (store_of p) p.staged)) }
        ensures same { OnOk result (self.new ≡ record self.old { main = self.new.main; log = self.new.log; staged = self.new.staged; writes = self.old.writes + length self.old.staged }) }
        ensures cleared { OnOk result (self.new.staged ≡ []) }
        ensures nothing { self.old.staged ≡ [] → IsOk result × (self.new ≡ self.old) }
        ensures frame { IfOk result (λ frame. (frame.items ≡ self.old.staged) × All IsWrite frame.items) }
        ensures log_out { OnOk result (LogIsOut (told S.history S.Device.history S.Frozen.content self.old) → LogIsOut (told S.history S.Device.history S.Frozen.content self.new)) }
        ensures own { OnOk result (HasOwnFiles (told S.history S.Device.history S.Frozen.content self.old) → HasOwnFiles (told S.history S.Device.history S.Frozen.content self.new)) }

        // The devices of the logs go on to tell, behind a fault too.
        ensures tells { TellsLogs (told S.history S.Device.history S.Frozen.content self.old) → TellsLogs (told S.history S.Device.history S.Frozen.content self.new) }

        // At each moment of the call a stop leaves what is stored, without the frame or with it, and so it does behind a fault.
        ensures moments { (p : PartView) → IsPart (told S.history S.Device.history S.Frozen.content self.old) p
            → LogMomentsLeaveStore p (told S.history S.Device.history S.Frozen.content self.old) (S.Device.history self.new.log.device) }
        ensures failed { OnErr result ((p : PartView) → IsPart (told S.history S.Device.history S.Frozen.content self.old) p
            → HasFailedAs (told S.history S.Device.history S.Frozen.content self.new) p (Some p.staged)) }
        ensures left { OnErr result (self.new ≡ record self.old { main = self.new.main; log = self.new.log; failed = true }) }

        ensures spent { IsErrOf result PartFault.Spent ↔ 2 ^ 63 ≤ self.old.writes + length self.old.staged }
        ensures unspent { IsErrOf result PartFault.Spent → self.new.log ≡ self.old.log }
        ensures undamaged { IfErr result (λ fault. IsUndamaged fault) }
        ensures counted { IsCounted (IsErrOf result PartFault.Disk) (S.Watch.counts self.old.main) (S.Watch.counts self.new.main) }
    {
        commits_are_kept();
        if self.staged.as_slice().is_empty() {
            return Ok(Vec::new(alloc));
        }
        self.failed = true;
        let count = self.staged.len() as u64;
        if count > MAX_WRITES - self.writes {
            return Err(PartFault::Spent);
        }
        let frame = self.log.reserve(alloc, &self.staged)?;
        self.log.append(frame, &mut self.main)?;
        let written = mem::replace(&mut self.staged, Vec::new(alloc));
        self.writes += count;
        self.failed = false;
        Ok(written)
    }
}
