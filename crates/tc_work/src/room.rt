//! Components are merged until few are listed, so that one more has room.

ghost use Rattle.std.specs.Prelude.{◌≡◌, ◌≤◌, ◌⊎◌, length, None, Ok, OnOk};
ghost use Rattle.tc_work.specs.Moving.{beside, IsPickedBy, ListsPicked, MayMove, Moves};
ghost use Rattle.tc_work.specs.Settling.{PicksNone};

use crate::fault::EngineFault;
use crate::merging::{install_merge, start_merge};
use crate::seen::Seen;
use std::alloc::Global;
use std::sync::Arc;
use std::thread::Threads;
use tc_list::Policy;
use tc_part::Part;
use tc_running::{Pace, Running};
use tc_store::Store;

/// The most components that are listed.
pub(crate) const MOST_LISTED: usize = 8;

/// Merges components until so many are listed at most, or the policy picks none.
pub(crate) fn make_room<S: Store + 'static, P: Pace + 'static, R: Threads>(
    rt: &R,
    alloc: Global,
    part: &mut Part<S>,
    jobs: &mut Running<S>,
    policy: Policy,
    pace: &Arc<P>,
    most: usize,
) -> Result<(), EngineFault>
where
    S::Device: 'static,
    S::Frozen: 'static,
    S::Watch: 'static,
    requires may { MayMove ⟦<S as Seen>⟧.eyes (beside part.old jobs.old) }
    requires picked { IsPickedBy ⟦<S as Seen>⟧.eyes policy (beside part.old jobs.old) }
    ensures few { OnOk result ((length part.new.list ≤ most) ⊎ PicksNone policy part.new.list) }
    ensures enough { length part.old.list ≤ most → (result ≡ Ok tt) × (part.new ≡ part.old) × (jobs.new ≡ jobs.old) }
    ensures nothing { PicksNone policy part.old.list → jobs.old.merge ≡ None → OnOk result ((part.new ≡ part.old) × (jobs.new ≡ jobs.old)) }
    ensures joined { OnOk result (part.old.merging ≡ None → part.new.merging ≡ None) }
    ensures merged { OnOk result (part.new ≡ record part.old { store = part.new.store; main = part.new.main; merger = part.new.merger; list = part.new.list; merging = part.new.merging }) }
    ensures flush { jobs.new.flush ≡ jobs.old.flush }
    ensures moves { Moves ⟦<S as Seen>⟧.eyes result (beside part.old jobs.old) (beside part.new jobs.new) }
    ensures listed { OnOk result (ListsPicked ⟦<S as Seen>⟧.eyes policy (beside part.old jobs.old) (beside part.new jobs.new)) }
{
    while part.listed() > most {
        start_merge(rt, alloc, part, jobs, policy, pace)?;
        if !jobs.is_merging() {
            return Ok(());
        }
        install_merge(rt, alloc, part, jobs)?;
    }
    Ok(())
}

/// Merges components until no more are listed than may be, and starts the merge that the policy picks then.
pub(crate) fn merge_on<S: Store + 'static, P: Pace + 'static, R: Threads>(
    rt: &R,
    alloc: Global,
    part: &mut Part<S>,
    jobs: &mut Running<S>,
    policy: Policy,
    pace: &Arc<P>,
) -> Result<(), EngineFault>
where
    S::Device: 'static,
    S::Frozen: 'static,
    S::Watch: 'static,
    requires may { MayMove ⟦<S as Seen>⟧.eyes (beside part.old jobs.old) }
    requires picked { IsPickedBy ⟦<S as Seen>⟧.eyes policy (beside part.old jobs.old) }
    ensures none { OnOk result (part.new.merging ≡ None → PicksNone policy part.new.list) }
    ensures few { OnOk result ((length part.new.list ≤ 8) ⊎ PicksNone policy part.new.list) }
    ensures merged { OnOk result (part.new ≡ record part.old { store = part.new.store; main = part.new.main; merger = part.new.merger; list = part.new.list; merging = part.new.merging }) }
    ensures flush { jobs.new.flush ≡ jobs.old.flush }
    ensures moves { Moves ⟦<S as Seen>⟧.eyes result (beside part.old jobs.old) (beside part.new jobs.new) }
    ensures listed { OnOk result (ListsPicked ⟦<S as Seen>⟧.eyes policy (beside part.old jobs.old) (beside part.new jobs.new)) }
{
    // Only an opening lists more.
    make_room(rt, alloc, part, jobs, policy, pace, MOST_LISTED)?;
    start_merge(rt, alloc, part, jobs, policy, pace)
}
