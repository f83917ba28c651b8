//! The active table is sealed, and the next log begins.

ghost use Rattle.std.specs.Prelude.{◌≡◌, ◌<◌, ◌+◌, ◌^◌, ◌↔◌, [], Some, None, false, true, is_some, OnOk, OnErr, IfErr, IsErrOf};
ghost use Rattle.tc_store.specs.declared.file_name.FileName.TheVariants.{Log as log_name};
ghost use Rattle.tc_store.specs.Counted.{IsCounted};
ghost use Rattle.tc_list.specs.Intervals.{last_of};
ghost use Rattle.tc_part_model.specs.PartState.{told};
ghost use Rattle.tc_part_model.specs.PartView.{PartView};
ghost use Rattle.tc_part_model.specs.Meaning.{IsPart, HasFailedAs};
ghost use Rattle.tc_log.specs.Layout.{empty_size};
ghost use Rattle.tc_part.specs.Begun.{SealsTable};
ghost use Rattle.tc_part.specs.OwnFiles.{HasOwnFiles};
ghost use Rattle.tc_part.specs.FilesOut.{OnlyDevicesOut, TellsLogs};
ghost use Rattle.tc_part_model.specs.Leaving.{StoreMomentsLeaveStore};
ghost use Rattle.tc_part.specs.Faults.{IsUndamaged};

use crate::fault::PartFault;
use crate::part::Part;
use std::alloc::Global;
use std::mem;
use std::sync::Arc;
use tc_log::{Log, LogHead, MAX_NUMBER};
use tc_memory::Memtable;
use tc_part_model::{failed_seals_are_kept, seals_are_kept, seals_leave_store};
use tc_store::{FileName, Store};

impl<S: Store> Part<S> {
    /// Seals the active table and its log, and makes the next log. `Spent` comes where the active log has the generation
    /// 2^63 - 1; then nothing is written.
    pub fn seal(&mut self, alloc: Global) -> Result<(), PartFault>
        requires sound { self.old.failed ≡ false }
        requires nothing_staged { self.old.staged ≡ [] }
        requires none_sealed { self.old.sealed ≡ None }
        requires own { HasOwnFiles (told S.history S.Device.history S.Frozen.content self.old) }

        // On Ok the part is the one whose active table is sealed, which stores what it stored, and the next log has no frame.
        ensures seals { OnOk result (SealsTable S.history S.Device.history S.Frozen.content self.old self.new) }
        ensures empty { OnOk result (S.Device.size self.new.log.device ≡ empty_size) }

        // A store that tells nothing goes on so, behind a fault too.
        ensures untold { S.history self.old.store ≡ [] → S.history self.new.store ≡ [] }

        // No file is out but those of its devices, and its logs go on to tell, behind a fault too.
        ensures devices { OnlyDevicesOut (told S.history S.Device.history S.Frozen.content self.old) → OnlyDevicesOut (told S.history S.Device.history S.Frozen.content self.new) }
        ensures tells { TellsLogs (told S.history S.Device.history S.Frozen.content self.old) → TellsLogs (told S.history S.Device.history S.Frozen.content self.new) }

        // At each moment of the call a stop leaves what is stored, and so it does behind a fault.
        ensures moments { (p : PartView) → IsPart (told S.history S.Device.history S.Frozen.content self.old) p
            → StoreMomentsLeaveStore p p (told S.history S.Device.history S.Frozen.content self.old) (S.history self.new.store) }
        ensures failed { OnErr result ((p : PartView) → IsPart (told S.history S.Device.history S.Frozen.content self.old) p
            → HasFailedAs (told S.history S.Device.history S.Frozen.content self.new) p None) }
        ensures left { OnErr result (self.new ≡ record self.old { store = self.new.store; main = self.new.main; sealed = self.new.sealed; active = self.new.active; failed = true }) }

        ensures spent { IsErrOf result PartFault.Spent ↔ self.old.generation + 1 ≡ 2 ^ 63 }
        ensures unspent { IsErrOf result PartFault.Spent → self.new.store ≡ self.old.store }
        ensures undamaged { IfErr result (λ fault. IsUndamaged fault) }
        ensures counted { IsCounted (IsErrOf result PartFault.Disk) (S.Watch.counts self.old.main) (S.Watch.counts self.new.main) }
    {
        seals_are_kept();
        seals_leave_store();
        failed_seals_are_kept();
        self.failed = true;
        if self.generation == MAX_NUMBER {
            return Err(PartFault::Spent);
        }
        // What takes memory stands before the device, which would be lost behind it.
        let table = mem::replace(&mut self.active, Memtable::new(alloc));
        self.sealed = Some(Arc::new(alloc, table.seal())?);
        let generation = self.generation + 1;
        let name = FileName::Log { generation };
        let device = self.store.fresh(alloc, name, &mut self.main)?;
        let head = LogHead {
            number: self.number,
            count: self.count,
            generation,
        };
        match Log::create(device, &mut self.main, head) {
            Ok(log) => {
                self.put_behind(log);
                Ok(())
            }
            Err(broken) => {
                self.store.abandon(broken.device);
                Err(broken.cause.into())
            }
        }
    }

    /// Puts the next log in the place of the active one.
    fn put_behind(&mut self, log: Log<S::Device>)
        requires sound { log.failed ≡ false }
        requires old_sound { self.old.log.failed ≡ false }
        requires sealed { is_some self.old.sealed ≡ true }
        requires behind { self.old.generation ≡ last_of self.old.list + 1 }
        requires next { self.old.generation + 1 < 2 ^ 63 }
        requires name { S.Device.name log.device ≡ log_name (self.old.generation + 1) }
        ensures { self.new ≡ record self.old { sealed_log = Some self.old.log; log = log; generation = self.old.generation + 1; failed = false } }
    {
        self.sealed_log = Some(mem::replace(&mut self.log, log));
        self.generation += 1;
        self.failed = false;
    }
}
