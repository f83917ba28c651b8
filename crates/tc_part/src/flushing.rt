//! The sealed table is flushed by a job.

ghost use Rattle.std.specs.Arc.{arc_value};
ghost use Rattle.std.specs.Prelude.{◌≡◌, ◌+◌, ◌-◌, [], Some, None, false, true, is_some, IfOk, IfSome, IsErrOf, OnErr};
ghost use Rattle.tc_schema_model.specs.Counted.{nothing};
ghost use Rattle.tc_store.specs.Counted.{IsCounted};
ghost use Rattle.tc_component.specs.declared.head.Head.{Head as HeadRecord};
ghost use Rattle.tc_list.specs.Intervals.{last_of};
ghost use Rattle.tc_memory.specs.DocumentTables.{IsTableOf};
ghost use Rattle.tc_memory.specs.Table.{IsTable};
ghost use Rattle.tc_lsm_model.specs.Tables.{Table};
ghost use Rattle.tc_flush.specs.Counting.{IsCounted as CountsOf};
ghost use Rattle.tc_flush.specs.Flushable.{CanFlush};
ghost use Rattle.tc_merge.specs.Merging.{newest_names, newest_schema};
ghost use Rattle.tc_jobs.specs.Faults.{AreFiles, IfDamaged as IfJobDamaged};
ghost use Rattle.tc_jobs.specs.Lists.{file_names};
ghost use Rattle.tc_part_model.specs.Calls.{FlushesBehind};
ghost use Rattle.tc_part_model.specs.Changes.{flushing_part};
ghost use Rattle.tc_part_model.specs.Leaving.{StoreMomentsLeaveStore};
ghost use Rattle.tc_part_model.specs.Meaning.{IsPart, HasFailedAs};
ghost use Rattle.tc_part.specs.Begun.{BeginsFlush};
ghost use Rattle.tc_part.specs.OwnFiles.{HasOwnFiles};
ghost use Rattle.tc_part.specs.FilesOut.{OnlyDevicesOut};
ghost use Rattle.tc_part_model.specs.PartState.{told, AreTold};
ghost use Rattle.tc_part_model.specs.PartView.{PartView};
ghost use Rattle.tc_part.specs.Faults.{IfDamaged};

use crate::fault::PartFault;
use crate::part::Part;
use std::alloc::Global;
use tc_component::Head;
use tc_flush::{FlushJob, FlushParts};
use tc_jobs::{FlushInputs, JobFault, flush_inputs, inputs_are_newest};
use tc_part_model::{flushes_begin, moments_follow, sealed_tables_can_flush};
use tc_store::Store;

impl<S: Store> Part<S> {
    /// The job that flushes the sealed table. It has the flusher's watch until what is left of it is handed to `finish_flush`.
    /// `Damaged` has the names of all listed components: it comes exactly where the table cannot be over them. Makes no read.
    pub fn begin_flush(&mut self, alloc: Global) -> Result<FlushJob<S>, PartFault>
        requires sound { self.old.failed ≡ false }
        requires sealed { is_some self.old.sealed ≡ true }
        requires none_out { self.old.flushing ≡ false }
        requires own { HasOwnFiles (told S.history S.Device.history S.Frozen.content self.old) }

        // On Ok the part is the one whose flush is out, which stores what it stored, and the job is that flush.
        ensures begins { IfOk result (λ job. BeginsFlush S.history S.Device.history S.Frozen.content S.Device.name job self.old self.new) }

        // A store that tells nothing goes on so, behind a fault too.
        ensures untold { S.history self.old.store ≡ [] → S.history self.new.store ≡ [] }

        // No file is out but those of its devices, behind a fault too.
        ensures devices { OnlyDevicesOut (told S.history S.Device.history S.Frozen.content self.old) → OnlyDevicesOut (told S.history S.Device.history S.Frozen.content self.new) }

        // At each moment of the call a stop leaves what is stored, and so it does behind a fault.
        ensures moments { (p : PartView) → IsPart (told S.history S.Device.history S.Frozen.content self.old) p
            → StoreMomentsLeaveStore p (flushing_part p) (told S.history S.Device.history S.Frozen.content self.old) (S.history self.new.store) }
        ensures failed { OnErr result ((p : PartView) → IsPart (told S.history S.Device.history S.Frozen.content self.old) p
            → HasFailedAs (told S.history S.Device.history S.Frozen.content self.new) p None) }
        ensures left { OnErr result (self.new ≡ record self.old { store = self.new.store; main = self.new.main; failed = true }) }

        ensures damaged { IfDamaged result (λ damage. AreFiles (file_names self.old.list) damage) }
        ensures uncounted { IfDamaged result (λ damage. IfSome self.old.sealed (λ kept. CountsOf (newest_names [] self.old.list) (newest_schema nothing self.old.list) kept) → ⊥) }
        ensures undamaged { (p : PartView) → IsPart (told S.history S.Device.history S.Frozen.content self.old) p → AreTold (told S.history S.Device.history S.Frozen.content self.old).components
            → IfDamaged result (λ damage. ⊥) }
        ensures unspent { IsErrOf result PartFault.Spent → ⊥ }

        // A call on files is made only where the table can be over the components.
        ensures order { IsErrOf result PartFault.Disk → IfSome self.old.sealed (λ kept. CountsOf (newest_names [] self.old.list) (newest_schema nothing self.old.list) kept) }
        ensures counted { IsCounted (IsErrOf result PartFault.Disk) (S.Watch.counts self.old.main) (S.Watch.counts self.new.main) }
    {
        flushes_begin();
        moments_follow();
        self.failed = true;
        let head = self.flush_head();
        let inputs = self.sealed_inputs(alloc)?;
        let device = self.store.fresh(alloc, head.file_name(), &mut self.main)?;
        Ok(self.flush_with(inputs, device, head))
    }

    /// The header of what the flush of the sealed table makes.
    pub(crate) fn flush_head(&self) -> Head
        ensures { result ≡ record { number = self.now.number; count = self.now.count; from = self.now.generation - 1; to = self.now.generation - 1 } }
    {
        let generation = self.generation - 1;
        Head {
            number: self.number,
            count: self.count,
            from: generation,
            to: generation,
        }
    }

    /// What the flush of the sealed table begins with.
    fn sealed_inputs(&self, alloc: Global) -> Result<FlushInputs, JobFault>
        requires sealed { is_some self.now.sealed ≡ true }
        ensures table { IfOk result (λ inputs. Some (arc_value inputs.sealed) ≡ self.now.sealed) }
        ensures names { IfOk result (λ inputs. inputs.names ≡ newest_names [] self.now.list) }
        ensures schema { IfOk result (λ inputs. inputs.schema ≡ newest_schema nothing self.now.list) }
        ensures counted { IfOk result (λ inputs. CountsOf (newest_names [] self.now.list) (newest_schema nothing self.now.list) (arc_value inputs.sealed)) }
        ensures lawful { IfOk result (λ inputs. IsTable (arc_value inputs.sealed)) }
        ensures can { IfOk result (λ inputs. (t : Table) → IsTableOf t (arc_value inputs.sealed) → CanFlush inputs.names inputs.schema t) }
        ensures behind { (p : PartView) → IsPart (record (told S.history S.Device.history S.Frozen.content self.now) { failed = false }) p → AreTold (told S.history S.Device.history S.Frozen.content self.now).components
            → (head : HeadRecord) → head ≡ record { number = self.now.number; count = self.now.count; from = self.now.generation - 1; to = self.now.generation - 1 }
            → IfOk result (λ inputs. FlushesBehind p head inputs.names inputs.schema (arc_value inputs.sealed)) }
        ensures damaged { IfJobDamaged result (λ damage. AreFiles (file_names self.now.list) damage) }
        ensures uncounted { IfJobDamaged result (λ damage. IfSome self.now.sealed (λ kept. CountsOf (newest_names [] self.now.list) (newest_schema nothing self.now.list) kept) → ⊥) }
        ensures undamaged { (p : PartView) → IsPart (record (told S.history S.Device.history S.Frozen.content self.now) { failed = false }) p → AreTold (told S.history S.Device.history S.Frozen.content self.now).components
            → IfJobDamaged result (λ damage. ⊥) }
        ensures no_disk { IsErrOf result JobFault.Disk → ⊥ }
    {
        sealed_tables_can_flush();
        inputs_are_newest::<S::Frozen>();
        match &self.sealed {
            Some(sealed) => {
                let _entries = sealed.len();
                flush_inputs(alloc, sealed, &self.list)
            }
            None => unreachable!(),
        }
    }

    /// The job of these parts, with the flusher's watch. It is out from then on.
    fn flush_with(&mut self, inputs: FlushInputs, device: S::Device, head: Head) -> FlushJob<S>
        requires there { is_some self.old.flusher ≡ true }
        requires sealed { is_some self.old.sealed ≡ true }
        requires sealed_both { is_some self.old.sealed_log ≡ true }
        requires behind { self.old.generation ≡ last_of self.old.list + 2 }
        requires can { (t : Table) → IsTableOf t (arc_value inputs.sealed) → CanFlush inputs.names inputs.schema t }
        requires empty { S.Device.size device ≡ 0 }
        requires sound { self.old.log.failed ≡ false }
        requires sealed_sound { IfSome self.old.sealed_log (λ l. l.failed ≡ false) }
        ensures job { result ≡ record { kept = arc_value inputs.sealed; schema = inputs.schema; names = inputs.names; device = device; head = head; watch = result.watch } }
        ensures watch { Some result.watch ≡ self.old.flusher }
        ensures same { self.new ≡ record self.old { flusher = None; flushing = true; failed = false } }
    {
        let FlushInputs {
            sealed,
            schema,
            names,
        } = inputs;
        match self.flusher.take() {
            Some(watch) => {
                self.failed = false;
                FlushJob::new(FlushParts {
                    sealed,
                    schema,
                    names,
                    device,
                    head,
                    watch,
                })
            }
            None => unreachable!(),
        }
    }
}
