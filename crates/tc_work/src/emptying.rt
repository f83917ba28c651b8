//! The log of the active table is emptied: the table is sealed, and its flush begins.

ghost use Rattle.std.specs.Prelude.{◌≡◌, ◌≤◌, ◌<◌, ◌+◌, ◌^◌, ◌++◌, ◌∷◌, [], None, Ok, true, false, is_some, length, IfErr, OnErr, OnOk};
ghost use Rattle.tc_component.specs.Loading.{ComponentState};
ghost use Rattle.tc_jobs.specs.Faults.{AreFiles};
ghost use Rattle.tc_jobs.specs.Lists.{file_names};
ghost use Rattle.tc_list.specs.declared.policy.Policy.{Policy};
ghost use Rattle.tc_log.specs.Layout.{empty_size};
ghost use Rattle.tc_part.specs.FlushEnds.{flushed_name};
ghost use Rattle.tc_part_model.specs.Meaning.{IsPart};
ghost use Rattle.tc_part_model.specs.PartState.{told};
ghost use Rattle.tc_part_model.specs.PartView.{PartView};
ghost use Rattle.tc_store.specs.declared.file_name.FileName.TheVariants.{Component as component_name};
ghost use Rattle.tc_work.specs.Faults.{AreOfFiles, IfDamaged};
ghost use Rattle.tc_work.specs.JobsOut.{AreOut, WorkFor};
ghost use Rattle.tc_work.specs.Moving.{beside, IsPickedBy, ListsPicked, MayMove, Moves, MovesOver};
ghost use Rattle.tc_work.specs.Settling.{IsListedBy, MaySettle, TellsFiles};

use crate::engine::Engine;
use crate::fault::EngineFault;
use crate::flushing::{install_flush, start_flush};
use crate::merging::start_merge;
use crate::room::{MOST_LISTED, make_room};
use crate::seen::Seen;
use std::alloc::Global;
use std::sync::Arc;
use std::thread::Threads;
use tc_list::Policy;
use tc_part::Part;
use tc_running::{Pace, Running};
use tc_store::Store;

/// The length of a log without a frame.
pub(crate) const EMPTY_LOG: u64 = 22;

impl<S: Store, P: Pace> Engine<S, P> {
    /// Flushes both tables, and waits until they are: what they hold is in components, which are listed. Does nothing where the
    /// log has no frame and no table is sealed. `Spent` comes only where the active log has the generation 2^63 - 1.
    pub fn force_flush<R: Threads>(
        &mut self,
        rt: &R,
        alloc: Global,
        jobs: &mut Running<S>,
    ) -> Result<(), EngineFault>
    where
        S: 'static,
        S::Device: 'static,
        S::Frozen: 'static,
        S::Watch: 'static,
        P: 'static,
        requires sound { self.old.part.failed ≡ false }
        requires ready { MaySettle (told S.history S.Device.history S.Frozen.content self.old.part) }
        requires jobs { AreOut S.history S.Device.history S.Frozen.content S.Device.name self.old.part jobs.old }

        // Whatever it answers, at each moment a stop leaves what was stored, the jobs are those of the engine that are out, and nothing
        // changed but where documents are. After Ok the engine stores what it stored. Damage is that of the part as it is left.
        ensures moves { MovesOver ⟦<S as Seen>⟧.eyes result (beside self.old.part jobs.old) (beside self.new.part jobs.new) }
        ensures left { OnErr result (self.new.part.failed ≡ true) }

        // Where the log has no frame and no table is sealed, all stays. Else what both tables hold is in components, no table is left,
        // and the log has no frame.
        ensures nothing { S.Device.size self.old.part.log.device ≤ empty_size → self.old.part.sealed ≡ None → (self.new ≡ self.old) × (jobs.new ≡ jobs.old) }
        ensures written { OnOk result (empty_size < S.Device.size self.old.part.log.device → (self.new.part.active ≡ []) × (self.new.part.sealed_log ≡ None) × (self.new.part.generation ≡ self.old.part.generation + 1)) }
        ensures unwritten { OnOk result (S.Device.size self.old.part.log.device ≤ empty_size → (self.new.part.active ≡ self.old.part.active) × (self.new.part.log ≡ self.old.part.log) × (self.new.part.generation ≡ self.old.part.generation)) }
        ensures listed { OnOk result (IsListedBy self.old.policy (λ f. S.Frozen.size f) self.old.part self.new.part) }
        ensures empty { OnOk result (S.Device.size self.new.part.log.device ≤ empty_size) }
        ensures none_sealed { OnOk result ((self.new.part.sealed ≡ None) × (self.new.part.flushing ≡ false)) }

        // Where no table was sealed, and there was room for one more component, nothing is merged meanwhile.
        ensures flushed { OnOk result (empty_size < S.Device.size self.old.part.log.device → self.old.part.sealed ≡ None → length self.old.part.list < 8 → (c : ComponentState S.Frozen) × (self.new.part.list ≡ self.old.part.list ++ c ∷ [])) }
        ensures emptied { OnOk result ((p : PartView) → IsPart (told S.history S.Device.history S.Frozen.content self.old.part) p → TellsFiles (told S.history S.Device.history S.Frozen.content self.old.part) → WorkFor S.Frozen.content S.Device.history S.Device.name jobs.old p → self.new.part.active ≡ []) }
        ensures policy { self.new.policy ≡ self.old.policy }

        // Where nothing is merged damage is that the listed components do not go together with the table, or with the one that the flush
        // made, or is in the file of that.
        ensures damaged_alone { self.old.part.sealed ≡ None → length self.old.part.list < 8 → IfErr result (λ fault. IfDamaged fault (AreOfFiles (file_names self.old.part.list) (component_name self.old.part.generation self.old.part.generation))) }
    {
        self.failed = true;
        flush_both(
            rt,
            alloc,
            &mut self.part,
            jobs,
            self.policy,
            &self.progress.pace,
        )?;
        self.failed = false;
        Ok(())
    }
}

/// Flushes the sealed table, and then the active one where its log has a frame.
fn flush_both<S: Store + 'static, P: Pace + 'static, R: Threads>(
    rt: &R,
    alloc: Global,
    part: &mut Part<S>,
    jobs: &mut Running<S>,
    policy: Policy,
    pace: &Arc<P>,
) -> Result<(), EngineFault>
where
    S::Device: 'static,
    S::Frozen: 'static,
    S::Watch: 'static,
    requires may { MayMove ⟦<S as Seen>⟧.eyes (beside part.old jobs.old) }
    requires nothing_staged { part.old.staged ≡ [] }
    requires flushing { part.old.flushing ≡ is_some part.old.sealed }
    requires picked { IsPickedBy ⟦<S as Seen>⟧.eyes policy (beside part.old jobs.old) }
    ensures ended { OnOk result ((part.new.sealed ≡ None) × (part.new.flushing ≡ false) × (S.Device.size part.new.log.device ≤ empty_size)) }
    ensures nothing { S.Device.size part.old.log.device ≤ empty_size → part.old.sealed ≡ None → (result ≡ Ok tt) × (part.new ≡ part.old) × (jobs.new ≡ jobs.old) }
    ensures written { OnOk result (empty_size < S.Device.size part.old.log.device → (part.new.active ≡ []) × (part.new.sealed_log ≡ None) × (part.new.generation ≡ part.old.generation + 1)) }
    ensures unwritten { OnOk result (S.Device.size part.old.log.device ≤ empty_size → (part.new.active ≡ part.old.active) × (part.new.log ≡ part.old.log) × (part.new.generation ≡ part.old.generation)) }
    ensures flushed { OnOk result (empty_size < S.Device.size part.old.log.device → part.old.sealed ≡ None → length part.old.list < 8 → (c : ComponentState S.Frozen) × (part.new.list ≡ part.old.list ++ c ∷ [])) }
    ensures moves { MovesOver ⟦<S as Seen>⟧.eyes result (beside part.old jobs.old) (beside part.new jobs.new) }
    ensures listed { OnOk result (ListsPicked ⟦<S as Seen>⟧.eyes policy (beside part.old jobs.old) (beside part.new jobs.new)) }

    // Where nothing is merged damage is that the listed components do not go together with the table, or with the one that the flush
    // made, or is in the file of that.
    ensures damaged { part.old.sealed ≡ None → length part.old.list < 8 → IfErr result (λ fault. IfDamaged fault (AreOfFiles (file_names part.old.list) (component_name part.old.generation part.old.generation))) }
{
    end_flush(rt, alloc, part, jobs, policy, pace)?;
    if part.log_len() <= EMPTY_LOG {
        return Ok(());
    }
    flush_active(rt, alloc, part, jobs, policy, pace)
}

/// Seals the active table, and waits for its flush.
fn flush_active<S: Store + 'static, P: Pace + 'static, R: Threads>(
    rt: &R,
    alloc: Global,
    part: &mut Part<S>,
    jobs: &mut Running<S>,
    policy: Policy,
    pace: &Arc<P>,
) -> Result<(), EngineFault>
where
    S::Device: 'static,
    S::Frozen: 'static,
    S::Watch: 'static,
    requires may { MayMove ⟦<S as Seen>⟧.eyes (beside part.old jobs.old) }
    requires nothing_staged { part.old.staged ≡ [] }
    requires none_sealed { part.old.sealed ≡ None }
    requires none_out { part.old.flushing ≡ false }
    requires picked { IsPickedBy ⟦<S as Seen>⟧.eyes policy (beside part.old jobs.old) }
    ensures ended { OnOk result ((part.new.sealed ≡ None) × (part.new.sealed_log ≡ None) × (part.new.flushing ≡ false)) }
    ensures emptied { OnOk result ((part.new.active ≡ []) × (S.Device.size part.new.log.device ≡ empty_size) × (part.new.generation ≡ part.old.generation + 1)) }
    ensures flushed { OnOk result (length part.old.list < 8 → (c : ComponentState S.Frozen) × (part.new.list ≡ part.old.list ++ c ∷ [])) }
    ensures moves { MovesOver ⟦<S as Seen>⟧.eyes result (beside part.old jobs.old) (beside part.new jobs.new) }
    ensures listed { OnOk result (ListsPicked ⟦<S as Seen>⟧.eyes policy (beside part.old jobs.old) (beside part.new jobs.new)) }

    // Where nothing is merged damage is that the listed components do not go together with the table, or with the one that the flush
    // made, or is in the file of that.
    ensures damaged { length part.old.list < 8 → IfErr result (λ fault. IfDamaged fault (AreOfFiles (file_names part.old.list) (component_name part.old.generation part.old.generation))) }
{
    seal_and_start(rt, alloc, part, jobs, pace)?;
    end_flush(rt, alloc, part, jobs, policy, pace)
}

/// Lists what the flush makes that is out, for which room is made, and starts the merge that the policy picks then. Does nothing
/// where none is out.
pub(crate) fn end_flush<S: Store + 'static, P: Pace + 'static, R: Threads>(
    rt: &R,
    alloc: Global,
    part: &mut Part<S>,
    jobs: &mut Running<S>,
    policy: Policy,
    pace: &Arc<P>,
) -> Result<(), EngineFault>
where
    S::Device: 'static,
    S::Frozen: 'static,
    S::Watch: 'static,
    requires may { MayMove ⟦<S as Seen>⟧.eyes (beside part.old jobs.old) }
    requires picked { IsPickedBy ⟦<S as Seen>⟧.eyes policy (beside part.old jobs.old) }
    ensures ended { OnOk result (part.old.flushing ≡ true → (part.new.sealed ≡ None) × (part.new.sealed_log ≡ None)) }
    ensures none_out { OnOk result (part.new.flushing ≡ false) }
    ensures installed { OnOk result (part.new ≡ record part.old { store = part.new.store; main = part.new.main; flusher = part.new.flusher; merger = part.new.merger; list = part.new.list; sealed = part.new.sealed; sealed_log = part.new.sealed_log; flushing = part.new.flushing; merging = part.new.merging }) }
    ensures nothing { part.old.flushing ≡ false → (result ≡ Ok tt) × (part.new ≡ part.old) × (jobs.new ≡ jobs.old) }
    ensures behind { OnOk result (part.old.flushing ≡ true → length part.old.list < 8 → (c : ComponentState S.Frozen) × (part.new.list ≡ part.old.list ++ c ∷ [])) }
    ensures moves { Moves ⟦<S as Seen>⟧.eyes result (beside part.old jobs.old) (beside part.new jobs.new) }
    ensures listed { OnOk result (ListsPicked ⟦<S as Seen>⟧.eyes policy (beside part.old jobs.old) (beside part.new jobs.new)) }

    // Where nothing is merged damage is that the listed components do not go together with the one that the flush made, or is in the
    // file of that.
    ensures damaged { length part.old.list < 8 → IfErr result (λ fault. IfDamaged fault (AreOfFiles (file_names part.old.list) (flushed_name part.old))) }
{
    if !jobs.is_flushing() {
        return Ok(());
    }
    make_room(rt, alloc, part, jobs, policy, pace, MOST_LISTED - 1)?;
    install_flush(rt, alloc, part, jobs)?;
    start_merge(rt, alloc, part, jobs, policy, pace)
}

/// Seals the active table, and starts its flush.
pub(crate) fn seal_and_start<S: Store + 'static, P: Pace + 'static, R: Threads>(
    rt: &R,
    alloc: Global,
    part: &mut Part<S>,
    jobs: &mut Running<S>,
    pace: &Arc<P>,
) -> Result<(), EngineFault>
where
    S::Device: 'static,
    S::Frozen: 'static,
    S::Watch: 'static,
    requires may { MayMove ⟦<S as Seen>⟧.eyes (beside part.old jobs.old) }
    requires nothing_staged { part.old.staged ≡ [] }
    requires none_sealed { part.old.sealed ≡ None }
    requires none_out { part.old.flushing ≡ false }
    ensures sealed { OnOk result ((part.new.flushing ≡ true) × (is_some part.new.sealed ≡ true) × (part.new.sealed_log ≡ Some part.old.log)) }
    ensures emptied { OnOk result ((part.new.active ≡ []) × (S.Device.size part.new.log.device ≡ empty_size) × (part.new.generation ≡ part.old.generation + 1)) }
    ensures list { OnOk result (part.new.list ≡ part.old.list) }
    ensures moves { MovesOver ⟦<S as Seen>⟧.eyes result (beside part.old jobs.old) (beside part.new jobs.new) }
    ensures listed { OnOk result ((policy : Policy) → IsPickedBy ⟦<S as Seen>⟧.eyes policy (beside part.old jobs.old) → ListsPicked ⟦<S as Seen>⟧.eyes policy (beside part.old jobs.old) (beside part.new jobs.new)) }

    // Damage is that the listed components do not go together with the table.
    ensures damaged { IfErr result (λ fault. IfDamaged fault (AreFiles (file_names part.old.list))) }
{
    part.seal(alloc)?;
    start_flush(rt, alloc, part, jobs, pace)
}
