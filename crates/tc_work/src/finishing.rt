//! An engine ends.

ghost use Rattle.std.specs.Prelude.{◌≡◌, ◌≤◌, ◌-◌, false, true, List, [], Ok, Option, Some, None, is_some, OnErr, OnOk};
ghost use Rattle.tc_list.specs.declared.policy.Policy.{Policy};
ghost use Rattle.tc_log.specs.Layout.{empty_size};
ghost use Rattle.tc_part.specs.FilesOut.{LogIsOut};
ghost use Rattle.tc_part_model.specs.Meaning.{IsPart};
ghost use Rattle.tc_part_model.specs.PartState.{told};
ghost use Rattle.tc_part_model.specs.PartView.{PartView};
ghost use Rattle.tc_plain_model.specs.Writes.{Write as PlainWrite};
ghost use Rattle.tc_work.specs.Ending.{Finishes, GivesBack};
ghost use Rattle.tc_work.specs.JobsOut.{AreOut, WorkFor};
ghost use Rattle.tc_work.specs.Moving.{beside, told_by, works_by, IsOutBy, IsPickedBy, KeepsJobs, MayMove, Moves};
ghost use Rattle.tc_work.specs.Settling.{MaySettle, PicksNone, TellsFiles};

use crate::engine::Engine;
use crate::fault::EngineFault;
use crate::flushing::install_flush;
use crate::merging::install_merge;
use crate::room::make_room;
use crate::seen::Seen;
use std::alloc::Global;
use std::sync::Arc;
use std::thread::Threads;
use tc_list::Policy;
use tc_memory::tables_keep_documents;
use tc_part::Part;
use tc_running::{Pace, Running};
use tc_store::{Kit, Store};

/// What is left of an engine: its store with the watches, and what came of the jobs that were out.
#[derive(Drop)]
pub struct Finished<S: Store> {
    pub kit: Kit<S>,
    pub outcome: Result<(), EngineFault>,
}

impl<S: Store, P: Pace> Engine<S, P> {
    /// Waits for the jobs that are out, and lists what they make, if the engine has not failed; then it merges components until the
    /// policy picks none. It gives the store and the watches back. The devices of its logs come home.
    pub fn finish<R: Threads>(self, rt: &R, alloc: Global, jobs: Running<S>) -> Finished<S>
    where
        S: 'static,
        S::Device: 'static,
        S::Frozen: 'static,
        S::Watch: 'static,
        P: 'static,
        requires ready { self.part.failed ≡ false → MaySettle (told S.history S.Device.history S.Frozen.content self.part) }
        requires jobs { AreOut S.history S.Device.history S.Frozen.content S.Device.name self.part jobs }
        requires reader { is_some self.part.reader ≡ true }

        // Where no file is out but those of the part's devices, none is out any more. Whatever a stop leaves from then on, and at each
        // moment of the call, is what was stored, of an engine that failed what it kept. One that has not failed opens as so few
        // components that the policy picks none, and as one log.
        ensures ends { Finishes ⟦<S as Seen>⟧.eyes (λ d. S.Device.size d) self.policy (beside self.part jobs) result.outcome result.kit.store result.kit.main result.kit.flusher result.kit.merger result.kit.reader }

        // Where the log has no frame it has no write.
        ensures unwritten { (p : PartView) → IsPart (told S.history S.Device.history S.Frozen.content self.part) p → TellsFiles (told S.history S.Device.history S.Frozen.content self.part) → WorkFor S.Frozen.content S.Device.history S.Device.name jobs p → S.Device.size self.part.log.device ≤ empty_size → p.active.writes ≡ [] }
    {
        let Engine {
            part,
            policy,
            progress,
            failed,
        } = self;
        if failed {
            Finished {
                kit: close_failed(rt, alloc, part, jobs),
                outcome: Ok(()),
            }
        } else {
            finish_part(rt, alloc, part, jobs, policy, &progress.pace)
        }
    }
}

/// Closes a part whose engine failed, with its jobs: nothing that they make is listed.
fn close_failed<S: Store, R: Threads>(
    rt: &R,
    alloc: Global,
    part: Part<S>,
    jobs: Running<S>,
) -> Kit<S>
    requires jobs { IsOutBy ⟦<S as Seen>⟧.eyes (beside part jobs) }
    requires reader { is_some part.reader ≡ true }
    ensures ends { (policy : Policy) → Finishes ⟦<S as Seen>⟧.eyes (λ d. S.Device.size d) policy (beside (record part { failed = true }) jobs) (Ok tt) result.store result.main result.flusher result.merger result.reader }
{
    let mut part = part;
    let mut jobs = jobs;
    part.fail();
    give_back(rt, alloc, &mut part, &mut jobs);
    part.close()
}

/// Lists what the jobs make of a part, and closes it.
fn finish_part<S: Store + 'static, P: Pace + 'static, R: Threads>(
    rt: &R,
    alloc: Global,
    part: Part<S>,
    jobs: Running<S>,
    policy: Policy,
    pace: &Arc<P>,
) -> Finished<S>
where
    S::Device: 'static,
    S::Frozen: 'static,
    S::Watch: 'static,
    requires may { MayMove ⟦<S as Seen>⟧.eyes (beside part jobs) }
    requires flushing { part.flushing ≡ is_some part.sealed }
    requires picked { IsPickedBy ⟦<S as Seen>⟧.eyes policy (beside part jobs) }
    requires reader { is_some part.reader ≡ true }
    ensures ends { Finishes ⟦<S as Seen>⟧.eyes (λ d. S.Device.size d) policy (beside part jobs) result.outcome result.kit.store result.kit.main result.kit.flusher result.kit.merger result.kit.reader }
{
    let mut part = part;
    let mut jobs = jobs;
    let outcome = end_jobs(rt, alloc, &mut part, &mut jobs, policy, pace);
    part.components_are_own();
    Finished {
        kit: part.close(),
        outcome,
    }
}

/// Lists what the jobs make that are out. Behind a fault the part has failed, and what is left of them is given back.
fn end_jobs<S: Store + 'static, P: Pace + 'static, R: Threads>(
    rt: &R,
    alloc: Global,
    part: &mut Part<S>,
    jobs: &mut Running<S>,
    policy: Policy,
    pace: &Arc<P>,
) -> Result<(), EngineFault>
where
    S::Device: 'static,
    S::Frozen: 'static,
    S::Watch: 'static,
    requires may { MayMove ⟦<S as Seen>⟧.eyes (beside part.old jobs.old) }
    requires picked { IsPickedBy ⟦<S as Seen>⟧.eyes policy (beside part.old jobs.old) }
    ensures none_out { (part.new.flushing ≡ false) × (part.new.merging ≡ None) }
    ensures none_left { (jobs.new.flush ≡ None) × (jobs.new.merge ≡ None) }
    ensures left { OnErr result (part.new.failed ≡ true) }
    ensures ended { OnOk result (part.new ≡ record part.old { store = part.new.store; main = part.new.main; flusher = part.new.flusher; merger = part.new.merger; list = part.new.list; sealed = part.new.sealed; sealed_log = part.new.sealed_log; flushing = false; merging = None }) }
    ensures none_sealed { OnOk result (part.old.flushing ≡ is_some part.old.sealed → part.new.sealed ≡ None) }
    ensures none { OnOk result (PicksNone policy part.new.list) }
    ensures nothing { jobs.old.flush ≡ None → jobs.old.merge ≡ None → PicksNone policy part.old.list → OnOk result ((part.new ≡ part.old) × (jobs.new ≡ jobs.old)) }
    ensures moves { Moves ⟦<S as Seen>⟧.eyes result (beside part.old jobs.old) (beside part.new jobs.new) }
{
    match install_both(rt, alloc, part, jobs, policy, pace) {
        Ok(()) => Ok(()),
        Err(fault) => {
            part.fail();
            give_back(rt, alloc, part, jobs);
            Err(fault)
        }
    }
}

/// Lists what the merge makes that is out, and what the flush does, and merges what the policy picks then.
fn install_both<S: Store + 'static, P: Pace + 'static, R: Threads>(
    rt: &R,
    alloc: Global,
    part: &mut Part<S>,
    jobs: &mut Running<S>,
    policy: Policy,
    pace: &Arc<P>,
) -> Result<(), EngineFault>
where
    S::Device: 'static,
    S::Frozen: 'static,
    S::Watch: 'static,
    requires may { MayMove ⟦<S as Seen>⟧.eyes (beside part.old jobs.old) }
    requires picked { IsPickedBy ⟦<S as Seen>⟧.eyes policy (beside part.old jobs.old) }
    ensures ended { OnOk result (part.new ≡ record part.old { store = part.new.store; main = part.new.main; flusher = part.new.flusher; merger = part.new.merger; list = part.new.list; sealed = part.new.sealed; sealed_log = part.new.sealed_log; flushing = false; merging = None }) }
    ensures none_sealed { OnOk result (part.old.flushing ≡ is_some part.old.sealed → part.new.sealed ≡ None) }
    ensures none { OnOk result (PicksNone policy part.new.list) }
    ensures nothing { jobs.old.flush ≡ None → jobs.old.merge ≡ None → PicksNone policy part.old.list → OnOk result ((part.new ≡ part.old) × (jobs.new ≡ jobs.old)) }
    ensures moves { Moves ⟦<S as Seen>⟧.eyes result (beside part.old jobs.old) (beside part.new jobs.new) }
{
    install_merge(rt, alloc, part, jobs)?;
    install_flush(rt, alloc, part, jobs)?;
    make_room(rt, alloc, part, jobs, policy, pace, 0)
}

/// Brings home what is left of the jobs that are out, and takes their watches back, of a part that has failed.
fn give_back<S: Store, R: Threads>(rt: &R, alloc: Global, part: &mut Part<S>, jobs: &mut Running<S>)
    requires failed { part.old.failed ≡ true }
    requires jobs { IsOutBy ⟦<S as Seen>⟧.eyes (beside part.old jobs.old) }
    ensures none_left { (jobs.new.flush ≡ None) × (jobs.new.merge ≡ None) }
    ensures nothing { jobs.old.flush ≡ None → jobs.old.merge ≡ None → (part.new ≡ part.old) × (jobs.new ≡ jobs.old) }
    ensures given { part.new ≡ record part.old { store = part.new.store; flusher = part.new.flusher; merger = part.new.merger; flushing = false; merging = None } }
    ensures log_out { LogIsOut (told_by ⟦<S as Seen>⟧.eyes (beside part.old jobs.old)) → LogIsOut (told_by ⟦<S as Seen>⟧.eyes (beside part.new jobs.new)) }
    ensures keeps { KeepsJobs ⟦<S as Seen>⟧.eyes ⊥ (beside part.old jobs.old) (beside part.new jobs.new) }

    // It keeps what it kept, at each moment too.
    ensures stays { (p : PartView) (frame : Option (List PlainWrite)) → GivesBack (works_by ⟦<S as Seen>⟧.eyes (beside part.old jobs.old)) (works_by ⟦<S as Seen>⟧.eyes (beside part.new jobs.new)) p frame (told_by ⟦<S as Seen>⟧.eyes (beside part.old jobs.old)) (told_by ⟦<S as Seen>⟧.eyes (beside part.new jobs.new)) }
{
    give_back_merge(rt, alloc, part, jobs);
    give_back_flush(rt, alloc, part, jobs);
}

/// Brings home what is left of the merge that is out, if there is one.
fn give_back_merge<S: Store, R: Threads>(
    rt: &R,
    alloc: Global,
    part: &mut Part<S>,
    jobs: &mut Running<S>,
)
    requires failed { part.old.failed ≡ true }
    requires jobs { IsOutBy ⟦<S as Seen>⟧.eyes (beside part.old jobs.old) }
    ensures none_left { (jobs.new.flush ≡ jobs.old.flush) × (jobs.new.merge ≡ None) }
    ensures nothing { jobs.old.merge ≡ None → (part.new ≡ part.old) × (jobs.new ≡ jobs.old) }
    ensures given { part.new ≡ record part.old { store = part.new.store; merger = part.new.merger; merging = None } }
    ensures log_out { LogIsOut (told_by ⟦<S as Seen>⟧.eyes (beside part.old jobs.old)) → LogIsOut (told_by ⟦<S as Seen>⟧.eyes (beside part.new jobs.new)) }
    ensures keeps { KeepsJobs ⟦<S as Seen>⟧.eyes ⊥ (beside part.old jobs.old) (beside part.new jobs.new) }

    // It keeps what it kept, at each moment too.
    ensures stays { (p : PartView) (frame : Option (List PlainWrite)) → GivesBack (works_by ⟦<S as Seen>⟧.eyes (beside part.old jobs.old)) (works_by ⟦<S as Seen>⟧.eyes (beside part.new jobs.new)) p frame (told_by ⟦<S as Seen>⟧.eyes (beside part.old jobs.old)) (told_by ⟦<S as Seen>⟧.eyes (beside part.new jobs.new)) }
{
    match jobs.join_merge(rt) {
        Some(out) => {
            let _given = part.finish_merge(alloc, out);
        }
        None => {}
    }
}

/// Brings home what is left of the flush that is out, if there is one.
fn give_back_flush<S: Store, R: Threads>(
    rt: &R,
    alloc: Global,
    part: &mut Part<S>,
    jobs: &mut Running<S>,
)
    requires failed { part.old.failed ≡ true }
    requires jobs { IsOutBy ⟦<S as Seen>⟧.eyes (beside part.old jobs.old) }
    ensures none_left { (jobs.new.flush ≡ None) × (jobs.new.merge ≡ jobs.old.merge) }
    ensures nothing { jobs.old.flush ≡ None → (part.new ≡ part.old) × (jobs.new ≡ jobs.old) }
    ensures given { part.new ≡ record part.old { store = part.new.store; flusher = part.new.flusher; flushing = false } }
    ensures log_out { LogIsOut (told_by ⟦<S as Seen>⟧.eyes (beside part.old jobs.old)) → LogIsOut (told_by ⟦<S as Seen>⟧.eyes (beside part.new jobs.new)) }
    ensures keeps { KeepsJobs ⟦<S as Seen>⟧.eyes ⊥ (beside part.old jobs.old) (beside part.new jobs.new) }

    // It keeps what it kept, at each moment too.
    ensures stays { (p : PartView) (frame : Option (List PlainWrite)) → GivesBack (works_by ⟦<S as Seen>⟧.eyes (beside part.old jobs.old)) (works_by ⟦<S as Seen>⟧.eyes (beside part.new jobs.new)) p frame (told_by ⟦<S as Seen>⟧.eyes (beside part.old jobs.old)) (told_by ⟦<S as Seen>⟧.eyes (beside part.new jobs.new)) }
{
    tables_keep_documents();
    match jobs.join_flush(rt) {
        Some(out) => {
            let _given = part.finish_flush(alloc, out);
        }
        None => {}
    }
}
