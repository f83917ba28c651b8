//! Files go that merges replaced, once nothing shares them.

ghost use Rattle.std.specs.Prelude.{◌≡◌, false, OnOk};
ghost use Rattle.tc_list.specs.declared.policy.Policy.{Policy};
ghost use Rattle.tc_running.specs.Jobs.{JobsState};
ghost use Rattle.tc_work.specs.Moving.{beside, IsPickedBy, ListsPicked, MayMove, Moves};

use crate::fault::EngineFault;
use crate::seen::Seen;
use std::alloc::Global;
use tc_part::Part;
use tc_store::Store;

/// Removes the files of components that were merged, and that others shared then and share no more.
pub(crate) fn sweep<S: Store>(alloc: Global, part: &mut Part<S>) -> Result<(), EngineFault>
    requires sound { part.old.failed ≡ false }
    ensures same { part.new ≡ record part.old { store = part.new.store; main = part.new.main; failed = part.new.failed } }
    ensures moves { (jobs : JobsState S.Frozen S.Device S.Watch) → MayMove ⟦<S as Seen>⟧.eyes (beside part.old jobs) → Moves ⟦<S as Seen>⟧.eyes result (beside part.old jobs) (beside part.new jobs) }
    ensures listed { OnOk result ((policy : Policy) (jobs : JobsState S.Frozen S.Device S.Watch) → IsPickedBy ⟦<S as Seen>⟧.eyes policy (beside part.old jobs) → ListsPicked ⟦<S as Seen>⟧.eyes policy (beside part.old jobs) (beside part.new jobs)) }
{
    Ok(part.sweep(alloc)?)
}
