//! Runs of components are merged on a thread.

ghost use Rattle.std.specs.Prelude.{◌≡◌, ◌<◌, ◌↔◌, ◌⊎◌, None, Some, true, is_some, length, map, IfErr, IfOk, IfSome, IsTrue, OnOk};
ghost use Rattle.tc_list.specs.Policies.{listed_least, IsPicked};
ghost use Rattle.tc_list.specs.declared.policy.Policy.{Policy};
ghost use Rattle.tc_list.specs.Runs.{neighbours};
ghost use Rattle.tc_part.specs.Ready.{LiesIn};
ghost use Rattle.tc_work.specs.Faults.{IfDamaged};
ghost use Rattle.tc_work.specs.Moving.{beside, IsPickedBy, ListsPicked, MayMove, Moves};
ghost use Rattle.tc_work.specs.Settling.{PicksNone};

use crate::fault::EngineFault;
use crate::seen::Seen;
use std::alloc::Global;
use std::sync::Arc;
use std::thread::Threads;
use tc_component::components_are_contents;
use tc_list::{Policy, Run};
use tc_part::Part;
use tc_part_model::failed_parts_keep_files;
use tc_running::{Beginning, Pace, Point, Running};
use tc_store::Store;

/// Starts the merge of a run that the policy picks, if none is out and it picks one.
pub(crate) fn start_merge<S: Store + 'static, P: Pace + 'static, R: Threads>(
    rt: &R,
    alloc: Global,
    part: &mut Part<S>,
    jobs: &mut Running<S>,
    policy: Policy,
    pace: &Arc<P>,
) -> Result<(), EngineFault>
where
    S::Device: 'static,
    S::Frozen: 'static,
    S::Watch: 'static,
    requires may { MayMove ⟦<S as Seen>⟧.eyes (beside part.old jobs.old) }
    requires picked { IsPickedBy ⟦<S as Seen>⟧.eyes policy (beside part.old jobs.old) }
    ensures none { OnOk result (part.new.merging ≡ None → PicksNone policy part.new.list) }
    ensures nothing { PicksNone policy part.old.list → OnOk result ((part.new ≡ part.old) × (jobs.new ≡ jobs.old)) }
    ensures begun { OnOk result (part.new ≡ record part.old { store = part.new.store; main = part.new.main; merger = part.new.merger; merging = part.new.merging }) }
    ensures flush { jobs.new.flush ≡ jobs.old.flush }
    ensures undamaged { IfErr result (λ fault. IfDamaged fault (λ damage. ⊥)) }
    ensures moves { Moves ⟦<S as Seen>⟧.eyes result (beside part.old jobs.old) (beside part.new jobs.new) }
    ensures listed { OnOk result (ListsPicked ⟦<S as Seen>⟧.eyes policy (beside part.old jobs.old) (beside part.new jobs.new)) }
{
    failed_parts_keep_files();
    if jobs.is_merging() {
        return Ok(());
    }
    match picked(alloc, part, policy)? {
        Some(run) => start_merge_of(rt, alloc, part, jobs, run, pace),
        None => Ok(()),
    }
}

/// Starts the merge of a run.
fn start_merge_of<S: Store + 'static, P: Pace + 'static, R: Threads>(
    rt: &R,
    alloc: Global,
    part: &mut Part<S>,
    jobs: &mut Running<S>,
    run: Run,
    pace: &Arc<P>,
) -> Result<(), EngineFault>
where
    S::Device: 'static,
    S::Frozen: 'static,
    S::Watch: 'static,
    requires may { MayMove ⟦<S as Seen>⟧.eyes (beside part.old jobs.old) }
    requires none_out { part.old.merging ≡ None }
    requires run { LiesIn part.old.list run }
    ensures begun { OnOk result (part.new ≡ record part.old { store = part.new.store; main = part.new.main; merger = None; merging = Some (neighbours run) }) }
    ensures flush { jobs.new.flush ≡ jobs.old.flush }
    ensures undamaged { IfErr result (λ fault. IfDamaged fault (λ damage. ⊥)) }
    ensures moves { Moves ⟦<S as Seen>⟧.eyes result (beside part.old jobs.old) (beside part.new jobs.new) }
    ensures listed { OnOk result ((policy : Policy) → IsPicked policy (map (λ c. S.Frozen.size c.file) part.old.list) run → ListsPicked ⟦<S as Seen>⟧.eyes policy (beside part.old jobs.old) (beside part.new jobs.new)) }
{
    failed_parts_keep_files();
    let partition = part.number();
    let beginning = Beginning::new(alloc, pace, Point::MergeStarted { partition })?;
    let job = part.begin_merge(alloc, run)?;
    jobs.start_merge(rt, alloc, job, beginning);
    Ok(())
}

/// Lists what the merge makes that is out, once it has run, in place of its run. Does nothing where none is out.
pub(crate) fn install_merge<S: Store, R: Threads>(
    rt: &R,
    alloc: Global,
    part: &mut Part<S>,
    jobs: &mut Running<S>,
) -> Result<(), EngineFault>
    requires may { MayMove ⟦<S as Seen>⟧.eyes (beside part.old jobs.old) }
    ensures nothing { jobs.old.merge ≡ None → OnOk result ((part.new ≡ part.old) × (jobs.new ≡ jobs.old)) }
    ensures installed { OnOk result (part.new ≡ record part.old { store = part.new.store; main = part.new.main; merger = part.new.merger; list = part.new.list; merging = None }) }
    ensures fewer { OnOk result (is_some part.old.merging ≡ true → length part.new.list < length part.old.list) }
    ensures flush { jobs.new.flush ≡ jobs.old.flush }
    ensures moves { Moves ⟦<S as Seen>⟧.eyes result (beside part.old jobs.old) (beside part.new jobs.new) }
    ensures listed { OnOk result ((policy : Policy) → IsPickedBy ⟦<S as Seen>⟧.eyes policy (beside part.old jobs.old) → ListsPicked ⟦<S as Seen>⟧.eyes policy (beside part.old jobs.old) (beside part.new jobs.new)) }
{
    components_are_contents();
    match jobs.join_merge(rt) {
        Some(out) => Ok(part.finish_merge(alloc, out)?),
        None => Ok(()),
    }
}

/// The run that the policy picks. Errs only for want of memory.
fn picked<S: Store>(
    alloc: Global,
    part: &Part<S>,
    policy: Policy,
) -> Result<Option<Run>, EngineFault>
    ensures run { IfOk result (λ run. IfSome run (LiesIn part.now.list)) }
    ensures picked { IfOk result (λ run. IfSome run (IsPicked policy (map (λ c. S.Frozen.size c.file) part.now.list))) }
    ensures none { IfOk result (λ run. run ≡ None ↔ PicksNone policy part.now.list) }
    ensures no_memory { IfErr result (λ fault. fault ≡ EngineFault.Memory) }
{
    if are_few(policy, part.listed()) {
        return Ok(None);
    }
    let sizes = part.sizes(alloc)?;
    Ok(policy.pick(sizes.as_slice()))
}

/// Whether the policy picks none of so few components, whatever their sizes: between two windows it mostly does, and then nobody
/// has to ask for these.
fn are_few(policy: Policy, listed: usize) -> bool
    ensures { IsTrue result ↔ (listed < listed_least policy ⊎ listed < 2) }
{
    let least = match policy {
        Policy::Constant { k } | Policy::Sized { k, .. } => k,
    };
    listed < least || listed < 2
}
