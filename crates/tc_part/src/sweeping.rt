//! Files are removed of components that left the list.

ghost use Rattle.std.specs.Arc.{arc_value};
ghost use Rattle.std.specs.Prelude.{◌≡◌, [], None, false, true, map, IfErr, IsErrOf, OnOk, OnErr};
ghost use Rattle.tc_store.specs.Counted.{IsCounted};
ghost use Rattle.tc_store.specs.StoreCalls.{RemovesSome};
ghost use Rattle.tc_component.specs.Loading.{ComponentState};
ghost use Rattle.tc_jobs.specs.Faults.{IfDamaged as IfJobDamaged};
ghost use Rattle.tc_part_model.specs.Leaving.{StoreMomentsLeaveStore};
ghost use Rattle.tc_part_model.specs.Meaning.{IsPart, HasFailedAs};
ghost use Rattle.tc_part_model.specs.PartState.{told};
ghost use Rattle.tc_part_model.specs.PartView.{PartView};
ghost use Rattle.tc_part.specs.Faults.{IsUndamaged};
ghost use Rattle.tc_part.specs.FilesOut.{LogIsOut, OnlyDevicesOut, TellsLogs};
ghost use Rattle.tc_part.specs.OwnFiles.{HasOwnFiles};
ghost use Rattle.tc_part.specs.Ready.{AreNamed};
ghost use Rattle.tc_part.specs.Sweeps.{RemovesNoneOf};

use crate::fault::PartFault;
use crate::part::Part;
use crate::retired::Retired;
use std::alloc::Global;
use std::mem;
use std::sync::Arc;
use tc_component::Component;
use tc_jobs::{JobFault, remove_unshared};
use tc_part_model::{failed_parts_keep_files, unlisted_files_go};
use tc_store::Store;

impl<S: Store> Part<S> {
    /// Looks again at the components that left the list while others shared them. The file of one that nobody else shares any
    /// more is removed, unless a listed component has its name. `Disk` comes only where a removal failed.
    pub fn sweep(&mut self, alloc: Global) -> Result<(), PartFault>
        requires sound { self.old.failed ≡ false }

        // On Ok the part is what it was, and at each moment of the call a stop leaves what is stored.
        ensures part { OnOk result ((p : PartView) → IsPart (told S.history S.Device.history S.Frozen.content self.old) p
            → IsPart (told S.history S.Device.history S.Frozen.content self.new) p) }
        ensures moments { (p : PartView) → IsPart (told S.history S.Device.history S.Frozen.content self.old) p
            → StoreMomentsLeaveStore p p (told S.history S.Device.history S.Frozen.content self.old) (S.history self.new.store) }
        ensures same { OnOk result (self.new ≡ record self.old { store = self.new.store; main = self.new.main }) }

        // So it is over every store: no file is removed that a listed component has.
        ensures removed { RemovesNoneOf self.old.list (S.history self.old.store) (S.history self.new.store) }
        ensures own { HasOwnFiles (told S.history S.Device.history S.Frozen.content self.old) → HasOwnFiles (told S.history S.Device.history S.Frozen.content self.new) }

        // A store that tells nothing goes on so. No file is out but those of its devices, and its logs go on to tell. That of the
        // active log stays out.
        ensures untold { S.history self.old.store ≡ [] → S.history self.new.store ≡ [] }
        ensures tells { TellsLogs (told S.history S.Device.history S.Frozen.content self.old) → TellsLogs (told S.history S.Device.history S.Frozen.content self.new) }
        ensures devices { OnlyDevicesOut (told S.history S.Device.history S.Frozen.content self.old) → OnlyDevicesOut (told S.history S.Device.history S.Frozen.content self.new) }
        ensures log_out { LogIsOut (told S.history S.Device.history S.Frozen.content self.old) → LogIsOut (told S.history S.Device.history S.Frozen.content self.new) }

        // A part that fails keeps what it stored.
        ensures failed { OnErr result ((p : PartView) → IsPart (told S.history S.Device.history S.Frozen.content self.old) p
            → HasFailedAs (told S.history S.Device.history S.Frozen.content self.new) p None) }
        ensures left { OnErr result (self.new ≡ record self.old { store = self.new.store; main = self.new.main; failed = true }) }

        ensures undamaged { IfErr result (λ fault. IsUndamaged fault) }
        ensures unspent { IsErrOf result PartFault.Spent → ⊥ }
        ensures counted { IsCounted (IsErrOf result PartFault.Disk) (S.Watch.counts self.old.main) (S.Watch.counts self.new.main) }
    {
        unlisted_files_go();
        failed_parts_keep_files();
        match self.remove_retired(alloc) {
            Ok(()) => Ok(()),
            Err(fault) => {
                self.failed = true;
                Err(fault)
            }
        }
    }

    /// Removes files of components that left the list. Where this errs the part has not failed yet.
    fn remove_retired(&mut self, alloc: Global) -> Result<(), PartFault>
        ensures removed { RemovesNoneOf self.old.list (S.history self.old.store) (S.history self.new.store) }
        ensures same { self.new ≡ record self.old { store = self.new.store; main = self.new.main } }
        ensures undamaged { IfErr result (λ fault. IsUndamaged fault) }
        ensures unspent { IsErrOf result PartFault.Spent → ⊥ }
        ensures counted { IsCounted (IsErrOf result PartFault.Disk) (S.Watch.counts self.old.main) (S.Watch.counts self.new.main) }
    {
        let retired = mem::replace(&mut self.retired, Retired::new(alloc));
        let apart = retired.apart_from(&self.list);
        self.retire(alloc, apart)?;
        Ok(())
    }

    /// Removes the files of components that left the list, where nobody else has a share of them. The others stay for `sweep`.
    pub(crate) fn retire(
        &mut self,
        alloc: Global,
        components: Vec<Arc<Component<S::Frozen>>>,
    ) -> Result<(), JobFault>
        requires named { AreNamed (λ f. S.Frozen.name f) (map arc_value components.items) }
        ensures removed { RemovesSome (map (λ (m : ComponentState S.Frozen). S.Frozen.name m.file) (map arc_value components.items)) (S.history self.old.store) (S.history self.new.store) }
        ensures same { self.new ≡ record self.old { store = self.new.store; main = self.new.main } }
        ensures no_damage { IfJobDamaged result (λ damage. ⊥) }
        ensures counted { IsCounted (IsErrOf result JobFault.Disk) (S.Watch.counts self.old.main) (S.Watch.counts self.new.main) }
    {
        // There is room for all before the first file is removed, which cannot be undone.
        self.retired.reserve(components.len())?;
        let shared = remove_unshared(alloc, &mut self.store, components, &mut self.main)?;
        self.retired.add(shared)?;
        Ok(())
    }
}
