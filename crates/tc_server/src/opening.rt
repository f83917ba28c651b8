//! The partitions of a run are opened one after the other.

ghost use Rattle.std.specs.Prelude.{◌≡◌, ◌≢◌, ◌≤◌, ◌<◌, ◌∷◌, ◌++◌, ℕ, [], length, None, IfErr, IfSome, IsSome, OnErr, OnOk};
ghost use Rattle.tc_bytes.specs.Counts.{Rose};
ghost use Rattle.tc_keeper.specs.Standing.{partition_at};
ghost use Rattle.tc_store.specs.Disk.{IsAtRest};
ghost use Rattle.tc_store.specs.Moments.{IfTold};
ghost use Rattle.tc_keeper.specs.WithJobs.{WithJobs};
ghost use Rattle.tc_keeper.specs.Faults.{faults_in};
ghost use Rattle.tc_server.specs.Ending.{policy_asked};
ghost use Rattle.tc_server.specs.KitCauses.{nothing_met, HasFilesCause};
ghost use Rattle.tc_server.specs.Kits.{AreOpened, IsGivenBack, IsNotGiven, IsOpened};

use crate::closing::close;
use crate::outcome::{of_opening, of_shelf};
use std::alloc::Global;
use std::sync::Arc;
use std::thread::Threads;
use tc_keeper::{Engines, RunFault};
use tc_list::Policy;
use tc_open::{OpenFault, open_part};
use tc_part::Limits;
use tc_running::{Pace, Running};
use tc_store::{Kit, Shelf, Store};
use tc_words::Options;
use tc_work::{Engine, Seen};

/// Why not all partitions were opened, with the kit of the one that was not, where that was given.
#[derive(Drop)]
pub(crate) struct NotOpened<S: Store> {
    pub(crate) kit: Option<Kit<S>>,
    pub(crate) fault: RunFault,
}

/// Asks for the kits of as many partitions as the options say, in ascending number, and opens each before the next one is asked
/// for. The first refusal ends it; the engines of the partitions before it stay.
pub(crate) fn open_all<R: Threads, H: Shelf, P: Pace + 'static>(
    rt: &R,
    alloc: Global,
    options: &Options,
    pace: &Arc<P>,
    shelf: &mut H,
    engines: &mut Engines<H::Store, P>,
) -> Result<(), NotOpened<H::Store>>
where
    H::Store: 'static,
    <H::Store as Store>::Device: 'static,
    <H::Store as Store>::Frozen: 'static,
    <H::Store as Store>::Watch: 'static,
    requires none { engines.old ≡ [] }
    ensures opened { AreOpened ⟦<H::Store as Seen>⟧.eyes options.now (H.files shelf.old) (H.kit_faults shelf.old) engines.new }
    ensures all { OnOk result (length engines.new ≡ options.now.partitions) }
    ensures some { OnErr result (length engines.new < options.now.partitions) }

    // The kit behind those of the engines came back, or was not given.
    ensures back { IfErr result (λ refused. IfSome refused.kit (λ kit. IsGivenBack H.Store.Frozen.content H.Store.Frozen.name (partition_at (length engines.new) options.now.partitions) (H.files shelf.old (length engines.new)) (H.kit_faults shelf.old (length engines.new)) refused.fault (H.Store.history kit.store) (faults_in (λ w. H.Store.Watch.counts w) kit))) }
    ensures not_given { IfErr result (λ refused. refused.kit ≡ None → IsNotGiven (Rose (H.faults shelf.old) (H.faults shelf.new)) (length engines.new) refused.fault) }
    ensures found { IfErr result (λ refused. HasFilesCause nothing_met H.Store.Watch (λ file. H.Store.Frozen.size file) H.Store.Frozen.content (λ file. H.Store.Frozen.name file) options.now.partitions refused.fault) }

    // No kit behind it was asked for, and that which was not given for want of memory is still there.
    ensures others { (other : ℕ) → length engines.new < other → (H.files shelf.new other ≡ H.files shelf.old other) × (H.kit_faults shelf.new other ≡ H.kit_faults shelf.old other) }
    ensures next { OnOk result ((H.files shelf.new (length engines.new) ≡ H.files shelf.old (length engines.new)) × (H.kit_faults shelf.new (length engines.new) ≡ H.kit_faults shelf.old (length engines.new))) }
    ensures unasked { IfErr result (λ refused. refused.kit ≡ None → refused.fault ≡ RunFault.Memory → (H.files shelf.new (length engines.new) ≡ H.files shelf.old (length engines.new)) × (H.kit_faults shelf.new (length engines.new) ≡ H.kit_faults shelf.old (length engines.new))) }
    ensures same { IfErr result (λ refused. refused.kit ≡ None → refused.fault ≡ RunFault.Memory → engines.new ≡ [] → shelf.new ≡ shelf.old) }
    ensures faults { H.faults shelf.old ≤ H.faults shelf.new }
{
    for number in 0..options.partitions {
        open_next(rt, alloc, options, pace, number, shelf, engines)?;
    }
    Ok(())
}

// Asks for the kit of the next partition, and opens it.
fn open_next<R: Threads, H: Shelf, P: Pace + 'static>(
    rt: &R,
    alloc: Global,
    options: &Options,
    pace: &Arc<P>,
    number: u32,
    shelf: &mut H,
    engines: &mut Engines<H::Store, P>,
) -> Result<(), NotOpened<H::Store>>
where
    H::Store: 'static,
    <H::Store as Store>::Device: 'static,
    <H::Store as Store>::Frozen: 'static,
    <H::Store as Store>::Watch: 'static,
    ensures opened { OnOk result ((e : WithJobs H.Store H.Store.Device H.Store.Frozen H.Store.Watch) × (engines.new ≡ engines.old ++ e ∷ []) × IsOpened ⟦<H::Store as Seen>⟧.eyes options.now (partition_at number options.now.partitions) (H.files shelf.old number) (H.kit_faults shelf.old number) e) }
    ensures stays { OnErr result (engines.new ≡ engines.old) }
    ensures back { IfErr result (λ refused. IfSome refused.kit (λ kit. IsGivenBack H.Store.Frozen.content H.Store.Frozen.name (partition_at number options.now.partitions) (H.files shelf.old number) (H.kit_faults shelf.old number) refused.fault (H.Store.history kit.store) (faults_in (λ w. H.Store.Watch.counts w) kit))) }
    ensures not_given { IfErr result (λ refused. refused.kit ≡ None → IsNotGiven (Rose (H.faults shelf.old) (H.faults shelf.new)) number refused.fault) }
    ensures found { IfErr result (λ refused. HasFilesCause nothing_met H.Store.Watch (λ file. H.Store.Frozen.size file) H.Store.Frozen.content (λ file. H.Store.Frozen.name file) options.now.partitions refused.fault) }
    ensures others { (other : ℕ) → other ≢ number → (H.files shelf.new other ≡ H.files shelf.old other) × (H.kit_faults shelf.new other ≡ H.kit_faults shelf.old other) }
    ensures same { IfErr result (λ refused. refused.kit ≡ None → refused.fault ≡ RunFault.Memory → shelf.new ≡ shelf.old) }
    ensures faults { H.faults shelf.old ≤ H.faults shelf.new }
{
    let pace = match Arc::try_clone(pace) {
        Ok(pace) => pace,
        Err(_) => {
            return Err(NotOpened {
                kit: None,
                fault: RunFault::Memory,
            });
        }
    };
    match shelf.kit(alloc, number) {
        Ok(kit) => open_kit(rt, alloc, options, pace, number, kit, engines),
        Err(fault) => Err(NotOpened {
            kit: None,
            fault: of_shelf(number, fault),
        }),
    }
}

// Opens the partition of a kit.
fn open_kit<R: Threads, S: Store + 'static, P: Pace + 'static>(
    rt: &R,
    alloc: Global,
    options: &Options,
    pace: Arc<P>,
    number: u32,
    kit: Kit<S>,
    engines: &mut Engines<S, P>,
) -> Result<(), NotOpened<S>>
where
    S::Device: 'static,
    S::Frozen: 'static,
    S::Watch: 'static,
    requires at_rest { IfTold (S.history kit.store) IsAtRest }
    ensures opened { OnOk result ((e : WithJobs S S.Device S.Frozen S.Watch) × (engines.new ≡ engines.old ++ e ∷ []) × IsOpened ⟦<S as Seen>⟧.eyes options.now (partition_at number options.now.partitions) (S.history kit.store) (faults_in (λ w. S.Watch.counts w) kit) e) }
    ensures stays { OnErr result (engines.new ≡ engines.old) }
    ensures some { IfErr result (λ refused. IsSome refused.kit) }
    ensures back { IfErr result (λ refused. IfSome refused.kit (λ back. IsGivenBack S.Frozen.content S.Frozen.name (partition_at number options.now.partitions) (S.history kit.store) (faults_in (λ w. S.Watch.counts w) kit) refused.fault (S.history back.store) (faults_in (λ w. S.Watch.counts w) back))) }
    ensures found { IfErr result (λ refused. HasFilesCause nothing_met S.Watch (λ file. S.Frozen.size file) S.Frozen.content (λ file. S.Frozen.name file) options.now.partitions refused.fault) }
{
    let limits = Limits {
        names: options.names,
        docs: options.docs,
        memory: options.memory,
    };
    let part = match open_part(alloc, kit, number, options.partitions, limits) {
        Ok(part) => part,
        Err(OpenFault { kit, cause }) => {
            return Err(NotOpened {
                kit: Some(kit),
                fault: of_opening(number, options.partitions, cause),
            });
        }
    };
    match engines.push(alloc, Engine::new(part, policy_of(options), pace)) {
        Ok(()) => Ok(()),
        Err(engine) => Err(NotOpened {
            kit: Some(close(rt, alloc, engine, Running::new()).kit),
            fault: RunFault::Memory,
        }),
    }
}

// How components are merged.
fn policy_of(options: &Options) -> Policy
    ensures { result ≡ policy_asked options.now }
{
    let k = options.merge as usize;
    if options.limit == 0 {
        Policy::Constant { k }
    } else {
        Policy::Sized {
            k,
            limit: options.limit,
        }
    }
}
