//! An opening ends: the log behind the components is made, and the partition starts.

ghost use Rattle.std.specs.List.{AllZip};
ghost use Rattle.std.specs.Prelude.{◌≡◌, ◌<◌, ◌+◌, ◌^◌, ◌↔◌, List, None, [], false, map, All, IfErr, IfOk};
ghost use Rattle.std.specs.Result.{IsErrAnd};
ghost use Rattle.tc_store.specs.declared.file_name.FileName.TheVariants.{Log as log_name};
ghost use Rattle.tc_store.specs.Counted.{IsCounted};
ghost use Rattle.tc_store.specs.Disk.{IsThere};
ghost use Rattle.tc_store.specs.Moments.{IfTold, LeavesAt};
ghost use Rattle.tc_store.specs.StoreCalls.{fresh_file_at, makes};
ghost use Rattle.tc_component.specs.Loading.{ComponentState};
ghost use Rattle.tc_component.specs.Spelling.{IsIndex};
ghost use Rattle.tc_list.specs.Intervals.{last_of};
ghost use Rattle.tc_log.specs.Layout.{empty_size};
ghost use Rattle.tc_lsm_model.specs.Contents.{Content};
ghost use Rattle.tc_lsm_model.specs.Lists.{IsList, live as live_in};
ghost use Rattle.tc_part_model.specs.Calls.{HasCreated};
ghost use Rattle.tc_part_model.specs.Leaving.{KeepsStore};
ghost use Rattle.tc_part_model.specs.Meaning.{IsOfContent, IsPart};
ghost use Rattle.tc_part_model.specs.PartState.{told, told_component};
ghost use Rattle.tc_part_model.specs.Starting.{started_part};
ghost use Rattle.tc_jobs.specs.Lists.{IsListOf};
ghost use Rattle.tc_part.specs.FilesOut.{LogIsOut};
ghost use Rattle.tc_part.specs.OwnFiles.{HasOwnFiles};
ghost use Rattle.tc_part.specs.Ready.{AreNamed};
ghost use Rattle.tc_open.specs.Answered.{begun_part};
ghost use Rattle.tc_open.specs.FirstLog.{EachStarts, FailsCreating, MakesLog};
ghost use Rattle.tc_open.specs.OpenCauses.{IsOfCall, IsOfNoFile};
ghost use Rattle.tc_recover.specs.Refusals.{asked};
ghost use Rattle.tc_open.specs.BeingOpened.{AreIn};
ghost use Rattle.tc_open.specs.Resting.{AreOwn, IsTidy};

use crate::fault::{OpenCause, OpenFault};
use std::alloc::Global;
use tc_list::ComponentList;
use tc_log::{Log, LogHead, MAX_NUMBER};
use tc_part::{Limits, Opened, Part};
use tc_recover::Partition;
use tc_store::{FileName, Frozen, Kit, Store};

/// The last step of an opening, over components and no log: makes the log of the next generation, and starts the
/// partition. `Spent` comes exactly where the last generation is 2^63 - 1, and then nothing is done. `Disk` comes only where a
/// call of the store or of the device failed. After an `Err` the kit is given back, with no file out.
pub(crate) fn start_part<S: Store>(
    alloc: Global,
    kit: Kit<S>,
    part: Partition,
    limits: Limits,
    list: ComponentList<S::Frozen>,
) -> Result<Part<S>, OpenFault<S>>
    requires listed { IsListOf part.number part.count list }
    requires lawful { All (λ (c : ComponentState S.Frozen). IsIndex c.index) list }
    requires named { AreNamed (λ f. S.Frozen.name f) list }
    requires free { IfTold (S.history kit.store) (λ disk. IsThere (disk (log_name (last_of list + 1))) → ⊥) }

    // It is the partition of what is live in the components, where the machine keeps the files of these.
    ensures started { (cs : List Content) → IsList (asked part) cs → AllZip IsOfContent (map (told_component S.Frozen.content) list) cs → IfTold (S.history kit.store) (IsTidy (asked part) cs [])
        → IfOk result (λ p. IsPart (told S.history S.Device.history S.Frozen.content p) (started_part (asked part) cs)) }

    // Over every store nothing is in its tables, nothing is staged, and no job is out.
    ensures begun { IfOk result (λ p. p ≡ begun_part S.Frozen.content (asked part) limits kit list p) }

    // So it is over every store: the log was made behind the components, and each file that is there is its own, where all were
    // those of the components.
    ensures made { IfOk result (λ p. S.history p.store ≡ makes (log_name (last_of list + 1)) (S.history kit.store)) }
    ensures own { IfOk result (λ p. IfTold (S.history kit.store) (AreOwn list []) → HasOwnFiles (told S.history S.Device.history S.Frozen.content p)) }

    ensures log_out { IfOk result (λ p. LogIsOut (told S.history S.Device.history S.Frozen.content p)) }

    // At each moment of the store and of the log a stop leaves what is live in the components, and no file is out but the log.
    ensures moments { (cs : List Content) → AllZip IsOfContent (map (told_component S.Frozen.content) list) cs → IfTold (S.history kit.store) (IsTidy (asked part) cs [])
        → IfOk result (λ p. EachStarts (asked part) cs (S.history kit.store) (S.history p.store)) }
    ensures log_moments { (cs : List Content) → AllZip IsOfContent (map (told_component S.Frozen.content) list) cs → IfTold (S.history kit.store) (IsTidy (asked part) cs [])
        → IfOk result (λ p. IfTold (S.history kit.store) (λ disk. All (LeavesAt (MakesLog (asked part) cs)) (S.Device.history p.log.device))) }
    ensures left_moments { (cs : List Content) → AllZip IsOfContent (map (told_component S.Frozen.content) list) cs → IfTold (S.history kit.store) (IsTidy (asked part) cs [])
        → IfErr result (λ fault. EachStarts (asked part) cs (S.history kit.store) (S.history fault.kit.store)) }
    ensures kept { (cs : List Content) → AllZip IsOfContent (map (told_component S.Frozen.content) list) cs → IfTold (S.history kit.store) (IsTidy (asked part) cs [])
        → IfErr result (λ fault. IfTold (S.history fault.kit.store) (KeepsStore (asked part) (live_in cs) None)) }

    // No file is out behind a fault, where none was.
    ensures home { IfErr result (λ fault. IfTold (S.history kit.store) AreIn → IfTold (S.history fault.kit.store) AreIn) }

    ensures given_back { IfErr result (λ fault. fault.kit ≡ record kit { store = fault.kit.store; main = fault.kit.main }) }
    ensures spent { IsErrAnd result (λ fault. fault.cause ≡ OpenCause.Spent) ↔ last_of list + 1 ≡ 2 ^ 63 }
    ensures unspent { IsErrAnd result (λ fault. fault.cause ≡ OpenCause.Spent) → IfErr result (λ fault. fault.kit ≡ kit) }
    ensures causes { IfErr result (λ fault. IsOfNoFile fault.cause) }
    ensures counted { IfOk result (λ p. IsCounted ⊥ (S.Watch.counts kit.main) (S.Watch.counts p.main)) }
    ensures left_counted { IfErr result (λ fault. IsCounted (fault.cause ≡ OpenCause.Disk) (S.Watch.counts kit.main) (S.Watch.counts fault.kit.main)) }
{
    let last = last_generation(&list);
    if last == MAX_NUMBER {
        return Err(OpenFault {
            kit,
            cause: OpenCause::Spent,
        });
    }
    let head = LogHead {
        number: part.number,
        count: part.count,
        generation: last + 1,
    };
    match make_log(alloc, kit, head) {
        Ok(Made { kit, log }) => {
            let opened = Opened {
                kit,
                number: part.number,
                count: part.count,
                limits,
                list,
                log,
            };
            match Part::start(alloc, opened) {
                Ok(started) => Ok(started),
                Err(kit) => Err(OpenFault {
                    kit,
                    cause: OpenCause::Memory,
                }),
            }
        }
        Err(fault) => Err(fault),
    }
}

/// A store whose log behind the components was made, and that log.
#[derive(Drop)]
struct Made<S: Store> {
    kit: Kit<S>,
    log: Log<S::Device>,
}

/// Makes the log with this header, which has no frame. After an `Err` the kit is given back, with no file out.
fn make_log<S: Store>(alloc: Global, kit: Kit<S>, head: LogHead) -> Result<Made<S>, OpenFault<S>>
    requires first { 0 < head.generation }
    requires last { head.generation < 2 ^ 63 }
    requires free { IfTold (S.history kit.store) (λ disk. IsThere (disk (log_name head.generation)) → ⊥) }
    ensures kit { IfOk result (λ made. made.kit ≡ record kit { store = made.kit.store; main = made.kit.main }) }
    ensures made { IfOk result (λ made. S.history made.kit.store ≡ makes (log_name head.generation) (S.history kit.store)) }
    ensures created { IfOk result (λ made. HasCreated head (fresh_file_at (log_name head.generation) (S.history kit.store)) (S.Device.history made.log.device)) }
    ensures name { IfOk result (λ made. S.Device.name made.log.device ≡ log_name head.generation) }
    ensures size { IfOk result (λ made. S.Device.size made.log.device ≡ empty_size) }
    ensures sound { IfOk result (λ made. made.log.failed ≡ false) }
    ensures counted { IfOk result (λ made. IsCounted ⊥ (S.Watch.counts kit.main) (S.Watch.counts made.kit.main)) }
    ensures failed { IfErr result (λ fault. FailsCreating head (log_name head.generation) (S.history kit.store) (S.history fault.kit.store)) }
    ensures given_back { IfErr result (λ fault. fault.kit ≡ record kit { store = fault.kit.store; main = fault.kit.main }) }
    ensures causes { IfErr result (λ fault. IsOfCall fault.cause) }
    ensures left_counted { IfErr result (λ fault. IsCounted (fault.cause ≡ OpenCause.Disk) (S.Watch.counts kit.main) (S.Watch.counts fault.kit.main)) }
{
    let mut kit = kit;
    let name = FileName::Log {
        generation: head.generation,
    };
    let device = match kit.store.fresh(alloc, name, &mut kit.main) {
        Ok(device) => device,
        Err(fault) => {
            return Err(OpenFault {
                kit,
                cause: OpenCause::from(fault),
            });
        }
    };
    match Log::create(device, &mut kit.main, head) {
        Ok(log) => Ok(Made { kit, log }),
        Err(broken) => {
            kit.store.abandon(broken.device);
            Err(OpenFault {
                kit,
                cause: OpenCause::from(broken.cause),
            })
        }
    }
}

/// The last generation of the newest component, or 0.
fn last_generation<F: Frozen>(list: &ComponentList<F>) -> u64
    ensures { result ≡ last_of list.now }
{
    match list.as_slice().split_last() {
        Some((newest, _older)) => newest.head().to,
        None => 0,
    }
}
