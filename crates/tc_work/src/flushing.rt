//! The sealed table is flushed on a thread.

ghost use Rattle.std.specs.Prelude.{◌≡◌, ◌++◌, ◌∷◌, [], None, false, true, is_some, IfErr, OnOk};
ghost use Rattle.tc_component.specs.Loading.{ComponentState};
ghost use Rattle.tc_jobs.specs.Faults.{AreFiles};
ghost use Rattle.tc_jobs.specs.Lists.{file_names};
ghost use Rattle.tc_list.specs.declared.policy.Policy.{Policy};
ghost use Rattle.tc_part.specs.FlushEnds.{flushed_name};
ghost use Rattle.tc_work.specs.Faults.{AreOfFiles, IfDamaged};
ghost use Rattle.tc_work.specs.Moving.{beside, IsPickedBy, ListsPicked, MayMove, Moves};

use crate::fault::EngineFault;
use crate::seen::Seen;
use std::alloc::Global;
use std::sync::Arc;
use std::thread::Threads;
use tc_memory::tables_keep_documents;
use tc_part::Part;
use tc_part_model::failed_parts_keep_files;
use tc_running::{Beginning, Pace, Point, Running};
use tc_store::Store;

/// Starts the flush of the sealed table.
pub(crate) fn start_flush<S: Store + 'static, P: Pace + 'static, R: Threads>(
    rt: &R,
    alloc: Global,
    part: &mut Part<S>,
    jobs: &mut Running<S>,
    pace: &Arc<P>,
) -> Result<(), EngineFault>
where
    S::Device: 'static,
    S::Frozen: 'static,
    S::Watch: 'static,
    requires may { MayMove ⟦<S as Seen>⟧.eyes (beside part.old jobs.old) }
    requires sealed { is_some part.old.sealed ≡ true }
    requires both { is_some part.old.sealed_log ≡ true }
    requires none_out { part.old.flushing ≡ false }
    ensures begun { OnOk result (part.new ≡ record part.old { store = part.new.store; main = part.new.main; flusher = None; flushing = true }) }
    ensures moves { Moves ⟦<S as Seen>⟧.eyes result (beside part.old jobs.old) (beside part.new jobs.new) }
    ensures listed { OnOk result ((policy : Policy) → IsPickedBy ⟦<S as Seen>⟧.eyes policy (beside part.old jobs.old) → ListsPicked ⟦<S as Seen>⟧.eyes policy (beside part.old jobs.old) (beside part.new jobs.new)) }

    // Damage is that the listed components do not go together with the table.
    ensures damaged { IfErr result (λ fault. IfDamaged fault (AreFiles (file_names part.old.list))) }
{
    failed_parts_keep_files();
    let partition = part.number();
    // What takes memory stands before the job, whose device would be lost behind it.
    let beginning = Beginning::new(alloc, pace, Point::FlushStarted { partition })?;
    let job = part.begin_flush(alloc)?;
    jobs.start_flush(rt, alloc, job, beginning);
    Ok(())
}

/// Lists what the flush makes that is out, once it has run: no table is sealed then. Does nothing where none is out.
pub(crate) fn install_flush<S: Store, R: Threads>(
    rt: &R,
    alloc: Global,
    part: &mut Part<S>,
    jobs: &mut Running<S>,
) -> Result<(), EngineFault>
    requires may { MayMove ⟦<S as Seen>⟧.eyes (beside part.old jobs.old) }
    ensures nothing { jobs.old.flush ≡ None → OnOk result ((part.new ≡ part.old) × (jobs.new ≡ jobs.old)) }
    ensures installed { OnOk result (part.new ≡ record part.old { store = part.new.store; main = part.new.main; flusher = part.new.flusher; list = part.new.list; sealed = part.new.sealed; sealed_log = part.new.sealed_log; flushing = false }) }
    ensures none_sealed { OnOk result (part.old.flushing ≡ true → (part.new.sealed ≡ None) × (part.new.sealed_log ≡ None)) }
    ensures behind { OnOk result (part.old.flushing ≡ true → (c : ComponentState S.Frozen) × (part.new.list ≡ part.old.list ++ c ∷ [])) }
    ensures moves { Moves ⟦<S as Seen>⟧.eyes result (beside part.old jobs.old) (beside part.new jobs.new) }
    ensures listed { OnOk result ((policy : Policy) → IsPickedBy ⟦<S as Seen>⟧.eyes policy (beside part.old jobs.old) → ListsPicked ⟦<S as Seen>⟧.eyes policy (beside part.old jobs.old) (beside part.new jobs.new)) }

    // Damage is that the listed components do not go together with the one that the flush made, or is in the file of that.
    ensures damaged { IfErr result (λ fault. IfDamaged fault (AreOfFiles (file_names part.old.list) (flushed_name part.old))) }
{
    tables_keep_documents();
    match jobs.join_flush(rt) {
        Some(out) => Ok(part.finish_flush(alloc, out)?),
        None => Ok(()),
    }
}
