//! A partition is opened.

ghost use Rattle.std.specs.Prelude.{◌≡◌, [], map, All, IfErr, IfOk};
ghost use Rattle.tc_store.specs.Disk.{IsAtRest};
ghost use Rattle.tc_store.specs.Moments.{EachSince, IfTold, LeavesAt};
ghost use Rattle.tc_machine.specs.Logs.{IsLog};
ghost use Rattle.tc_machine.specs.Pictures.{recovered};
ghost use Rattle.tc_machine.specs.Steps.{IsShutOrHas};
ghost use Rattle.tc_part_model.specs.PartState.{told};
ghost use Rattle.tc_recover.specs.Loading.{interval_of};
ghost use Rattle.tc_open.specs.Answered.{begun_part, Begins, GivesBack, OfLawful};
ghost use Rattle.tc_open.specs.Judged.{CauseJudged, Passes};
ghost use Rattle.tc_open.specs.Listed.{listed_as};
ghost use Rattle.tc_open.specs.OpenCauses.{IfDamaged, IfLayout};
ghost use Rattle.tc_open.specs.Openings.{IsOpenedAs, LeavesStored};
ghost use Rattle.tc_open.specs.Steps.{Keeps};

use crate::fault::OpenFault;
use crate::resting::bring_to_rest;
use crate::starting::start_part;
use crate::steps::Rested;
use std::alloc::Global;
use tc_part::{Limits, Part};
use tc_recover::Partition;
use tc_store::{Kit, Store};

/// Opens the partition of this number among so many, whose files are those of the kit's store, at rest: reads them, removes those
/// that nobody needs, flushes the logs above the components as one component, merges all where more than eight are listed, and
/// starts the partition with a new log. The first refusal decides, as in `read_files`, and where files are refused in reading nothing
/// has changed but that they are still. `Disk` comes only where a call of the store, a device or a read failed, `Spent` where no
/// generation is left. After an `Err` the kit is given back.
pub fn open_part<S: Store>(
    alloc: Global,
    kit: Kit<S>,
    number: u32,
    count: u32,
    limits: Limits,
) -> Result<Part<S>, OpenFault<S>>
    requires at_rest { IfTold (S.history kit.store) IsAtRest }

    // Of lawful files it is the partition that stores what they hold, with the names that a reopened store has. They are never taken
    // for another partition's, nor for damaged.
    ensures opened { OfLawful (record { number = number; count = count }) (S.history kit.store) (λ cs logs. IfOk result (λ p. IsOpenedAs (record { number = number; count = count }) cs logs (told S.history S.Device.history S.Frozen.content p))) }
    ensures lawful { OfLawful (record { number = number; count = count }) (S.history kit.store) (λ cs logs. IfErr result (λ fault. IfLayout fault.cause ⊥)) }
    ensures undamaged { OfLawful (record { number = number; count = count }) (S.history kit.store) (λ cs logs. IfErr result (λ fault. IfDamaged fault.cause (λ damage. ⊥))) }

    // At each moment of the store and of the new log a stop leaves what they hold, and so it does behind a fault, where no file is
    // out.
    ensures moments { OfLawful (record { number = number; count = count }) (S.history kit.store) (λ cs logs. IfOk result (λ p. EachSince (LeavesStored (record { number = number; count = count }) (recovered cs logs).pairs) (S.history kit.store) (S.history p.store))) }
    ensures log_moments { OfLawful (record { number = number; count = count }) (S.history kit.store) (λ cs logs. IfOk result (λ p. All (LeavesAt (IsShutOrHas (IsLog (record { number = number; count = count }) p.generation []))) (S.Device.history p.log.device))) }
    ensures kept { OfLawful (record { number = number; count = count }) (S.history kit.store) (λ cs logs. IfErr result (λ fault. Keeps (record { number = number; count = count }) (recovered cs logs).pairs (S.history kit.store) (S.history fault.kit.store))) }

    // Where the store tells its files, the answer is what is judged of them. It lists the components that were read, with one more of
    // the logs above them, or one of all where these are more than eight.
    ensures judged { IfTold (S.history kit.store) (λ disk. IfOk result (λ p. Passes (record { number = number; count = count }) disk (λ found. Unit {0}))) }
    ensures listed { IfTold (S.history kit.store) (λ disk. IfOk result (λ p. Passes (record { number = number; count = count }) disk (λ found. map interval_of p.list ≡ listed_as found))) }
    ensures refused { IfTold (S.history kit.store) (λ disk. IfErr result (λ fault. CauseJudged S.Frozen.content S.Frozen.name (record { number = number; count = count }) disk fault.cause)) }

    // Over every store the part begins with nothing in its tables, or the kit is given back, and no file is out.
    ensures begun { IfOk result (λ p. p ≡ begun_part S.Frozen.content (record { number = number; count = count }) limits kit p.list p) }
    ensures begins { IfOk result (λ p. Begins S.history S.Device.history S.Frozen.content S.Watch.counts kit p) }
    ensures fails { IfErr result (λ fault. GivesBack S.history S.Watch.counts S.Frozen.size S.Frozen.content S.Frozen.name (record { number = number; count = count }) kit fault.kit fault.cause) }
{
    let part = Partition { number, count };
    match bring_to_rest(alloc, kit, part) {
        Ok(Rested { kit, list }) => start_part(alloc, kit, part, limits, list),
        Err(fault) => Err(fault),
    }
}
