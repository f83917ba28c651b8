//! What an engine does between two windows: a long log is emptied, and components are merged, each by a job beside the windows.

ghost use Rattle.std.specs.Prelude.{◌≡◌, ◌≤◌, ◌<◌, ◌+◌, ◌^◌, ◌⊎◌, [], None, true, false, is_some, length, OnErr, OnOk};
ghost use Rattle.tc_log.specs.Layout.{empty_size};
ghost use Rattle.tc_list.specs.Intervals.{last_of};
ghost use Rattle.tc_list.specs.Policies.{listed_least};
ghost use Rattle.tc_part_model.specs.PartState.{told};
ghost use Rattle.tc_work.specs.JobsOut.{AreOut};
ghost use Rattle.tc_work.specs.Moving.{beside, IsPickedBy, ListsPicked, MayMove, MovesOver};
ghost use Rattle.tc_work.specs.Settling.{IsDue, IsListedBy, MaySettle, PicksNone};

use crate::emptying::{EMPTY_LOG, end_flush, seal_and_start};
use crate::engine::Engine;
use crate::fault::EngineFault;
use crate::room::merge_on;
use crate::seen::Seen;
use crate::sweeping::sweep;
use std::alloc::Global;
use std::sync::Arc;
use std::thread::Threads;
use tc_list::Policy;
use tc_part::Part;
use tc_running::{Pace, Running};
use tc_store::Store;

impl<S: Store, P: Pace> Engine<S, P> {
    /// First the files go of components that were merged, and that others shared and share no more. Where the log of the active
    /// table has a frame, and so many bytes or more as make a table be sealed, it waits for the flush that is out, seals the table,
    /// and starts the next flush. It starts a merge where none is out and the policy picks one. `Spent` comes only where the active
    /// log has the generation 2^63 - 1.
    pub fn settle<R: Threads>(
        &mut self,
        rt: &R,
        alloc: Global,
        jobs: &mut Running<S>,
    ) -> Result<(), EngineFault>
    where
        S: 'static,
        S::Device: 'static,
        S::Frozen: 'static,
        S::Watch: 'static,
        P: 'static,
        requires sound { self.old.part.failed ≡ false }
        requires ready { MaySettle (told S.history S.Device.history S.Frozen.content self.old.part) }
        requires jobs { AreOut S.history S.Device.history S.Frozen.content S.Device.name self.old.part jobs.old }

        // Whatever it answers, at each moment a stop leaves what was stored, the jobs are those of the engine that are out, and nothing
        // changed but where documents are. After Ok the engine stores what it stored. Damage is that of the part as it is left.
        ensures moves { MovesOver ⟦<S as Seen>⟧.eyes result (beside self.old.part jobs.old) (beside self.new.part jobs.new) }
        ensures left { OnErr result (self.new.part.failed ≡ true) }

        // Where that was due, the table is sealed, and the next log has no frame; else tables and log are as they were. The log is short
        // then, two generations at most are behind the components, a table that is sealed has its flush out, and where no merge is out
        // so few components are listed that the policy picks none.
        ensures emptied { OnOk result (IsDue (λ d. S.Device.size d) self.old.part → (self.new.part.active ≡ []) × (S.Device.size self.new.part.log.device ≡ empty_size) × (self.new.part.generation ≡ self.old.part.generation + 1)) }
        ensures stays { OnOk result ((IsDue (λ d. S.Device.size d) self.old.part → ⊥) → (self.new.part.active ≡ self.old.part.active) × (self.new.part.log ≡ self.old.part.log) × (self.new.part.generation ≡ self.old.part.generation) × (self.new.part.sealed ≡ self.old.part.sealed) × (jobs.new.flush ≡ jobs.old.flush)) }
        ensures short { OnOk result (empty_size < self.old.part.memory → S.Device.size self.new.part.log.device < self.old.part.memory) }
        ensures none { OnOk result (jobs.new.merge ≡ None → PicksNone self.old.policy self.new.part.list) }
        ensures outside { OnOk result (self.new.part.generation ≤ last_of self.new.part.list + 2) }

        // What is listed comes of flushes, and of merges that the policy picked.
        ensures listed { OnOk result (IsListedBy self.old.policy (λ f. S.Frozen.size f) self.old.part self.new.part) }
        ensures few { OnOk result (listed_least self.old.policy ≤ 9 → length self.new.part.list ≤ 8) }
        ensures flushing { OnOk result (self.new.part.flushing ≡ is_some self.new.part.sealed) }
        ensures policy { self.new.policy ≡ self.old.policy }
    {
        self.failed = true;
        settle_part(
            rt,
            alloc,
            &mut self.part,
            jobs,
            self.policy,
            &self.progress.pace,
        )?;
        self.failed = false;
        self.part.generations_follow();
        Ok(())
    }
}

/// Removes files that nothing shares any more, empties the log of a part where that is due, and starts the merge that the policy
/// picks.
fn settle_part<S: Store + 'static, P: Pace + 'static, R: Threads>(
    rt: &R,
    alloc: Global,
    part: &mut Part<S>,
    jobs: &mut Running<S>,
    policy: Policy,
    pace: &Arc<P>,
) -> Result<(), EngineFault>
where
    S::Device: 'static,
    S::Frozen: 'static,
    S::Watch: 'static,
    requires may { MayMove ⟦<S as Seen>⟧.eyes (beside part.old jobs.old) }
    requires nothing_staged { part.old.staged ≡ [] }
    requires flushing { part.old.flushing ≡ is_some part.old.sealed }
    requires picked { IsPickedBy ⟦<S as Seen>⟧.eyes policy (beside part.old jobs.old) }
    ensures emptied { OnOk result (IsDue (λ d. S.Device.size d) part.old → (part.new.active ≡ []) × (S.Device.size part.new.log.device ≡ empty_size) × (part.new.generation ≡ part.old.generation + 1)) }
    ensures undue { OnOk result ((IsDue (λ d. S.Device.size d) part.old → ⊥) → (part.new.active ≡ part.old.active) × (part.new.log ≡ part.old.log) × (part.new.generation ≡ part.old.generation) × (part.new.sealed ≡ part.old.sealed) × (jobs.new.flush ≡ jobs.old.flush)) }
    ensures short { OnOk result (empty_size < part.old.memory → S.Device.size part.new.log.device < part.old.memory) }
    ensures none { OnOk result (part.new.merging ≡ None → PicksNone policy part.new.list) }
    ensures few { OnOk result ((length part.new.list ≤ 8) ⊎ PicksNone policy part.new.list) }
    ensures flushing { OnOk result (part.new.flushing ≡ is_some part.new.sealed) }
    ensures moves { MovesOver ⟦<S as Seen>⟧.eyes result (beside part.old jobs.old) (beside part.new jobs.new) }
    ensures listed { OnOk result (ListsPicked ⟦<S as Seen>⟧.eyes policy (beside part.old jobs.old) (beside part.new jobs.new)) }
{
    sweep(alloc, part)?;
    go_on(rt, alloc, part, jobs, policy, pace)
}

/// Empties the log of a part where that is due, and starts the merge that the policy picks.
fn go_on<S: Store + 'static, P: Pace + 'static, R: Threads>(
    rt: &R,
    alloc: Global,
    part: &mut Part<S>,
    jobs: &mut Running<S>,
    policy: Policy,
    pace: &Arc<P>,
) -> Result<(), EngineFault>
where
    S::Device: 'static,
    S::Frozen: 'static,
    S::Watch: 'static,
    requires may { MayMove ⟦<S as Seen>⟧.eyes (beside part.old jobs.old) }
    requires nothing_staged { part.old.staged ≡ [] }
    requires flushing { part.old.flushing ≡ is_some part.old.sealed }
    requires picked { IsPickedBy ⟦<S as Seen>⟧.eyes policy (beside part.old jobs.old) }
    ensures emptied { OnOk result (IsDue (λ d. S.Device.size d) part.old → (part.new.active ≡ []) × (S.Device.size part.new.log.device ≡ empty_size) × (part.new.generation ≡ part.old.generation + 1)) }
    ensures undue { OnOk result ((IsDue (λ d. S.Device.size d) part.old → ⊥) → (part.new.active ≡ part.old.active) × (part.new.log ≡ part.old.log) × (part.new.generation ≡ part.old.generation) × (part.new.sealed ≡ part.old.sealed) × (jobs.new.flush ≡ jobs.old.flush)) }
    ensures short { OnOk result (empty_size < part.old.memory → S.Device.size part.new.log.device < part.old.memory) }
    ensures none { OnOk result (part.new.merging ≡ None → PicksNone policy part.new.list) }
    ensures few { OnOk result ((length part.new.list ≤ 8) ⊎ PicksNone policy part.new.list) }
    ensures flushing { OnOk result (part.new.flushing ≡ is_some part.new.sealed) }
    ensures moves { MovesOver ⟦<S as Seen>⟧.eyes result (beside part.old jobs.old) (beside part.new jobs.new) }
    ensures listed { OnOk result (ListsPicked ⟦<S as Seen>⟧.eyes policy (beside part.old jobs.old) (beside part.new jobs.new)) }
{
    if is_due(part) {
        empty_and_merge(rt, alloc, part, jobs, policy, pace)
    } else {
        merge_on(rt, alloc, part, jobs, policy, pace)
    }
}

/// Waits for the flush that is out, seals the active table and starts its flush, and then the merge that the policy picks.
fn empty_and_merge<S: Store + 'static, P: Pace + 'static, R: Threads>(
    rt: &R,
    alloc: Global,
    part: &mut Part<S>,
    jobs: &mut Running<S>,
    policy: Policy,
    pace: &Arc<P>,
) -> Result<(), EngineFault>
where
    S::Device: 'static,
    S::Frozen: 'static,
    S::Watch: 'static,
    requires may { MayMove ⟦<S as Seen>⟧.eyes (beside part.old jobs.old) }
    requires nothing_staged { part.old.staged ≡ [] }
    requires flushing { part.old.flushing ≡ is_some part.old.sealed }
    requires picked { IsPickedBy ⟦<S as Seen>⟧.eyes policy (beside part.old jobs.old) }
    ensures emptied { OnOk result ((part.new.active ≡ []) × (S.Device.size part.new.log.device ≡ empty_size) × (part.new.generation ≡ part.old.generation + 1)) }
    ensures none { OnOk result (part.new.merging ≡ None → PicksNone policy part.new.list) }
    ensures few { OnOk result ((length part.new.list ≤ 8) ⊎ PicksNone policy part.new.list) }
    ensures flushing { OnOk result ((part.new.flushing ≡ true) × (is_some part.new.sealed ≡ true)) }
    ensures moves { MovesOver ⟦<S as Seen>⟧.eyes result (beside part.old jobs.old) (beside part.new jobs.new) }
    ensures listed { OnOk result (ListsPicked ⟦<S as Seen>⟧.eyes policy (beside part.old jobs.old) (beside part.new jobs.new)) }
{
    end_flush(rt, alloc, part, jobs, policy, pace)?;
    seal_and_start(rt, alloc, part, jobs, pace)?;
    merge_on(rt, alloc, part, jobs, policy, pace)
}

/// Whether the log has a frame, and the bytes at which a table is sealed.
fn is_due<S: Store>(part: &Part<S>) -> bool
    ensures due { result ≡ true → IsDue (λ d. S.Device.size d) part.now }
    ensures undue { result ≡ false → IsDue (λ d. S.Device.size d) part.now → ⊥ }
    ensures short { result ≡ false → empty_size < part.now.memory → S.Device.size part.now.log.device < part.now.memory }
{
    let len = part.log_len();
    len > EMPTY_LOG && len >= part.limits().memory
}
