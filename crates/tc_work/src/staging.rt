//! The commands of a window, one after the other: their writes are staged, and their replies put together.

ghost use Rattle.std.specs.Prelude.{◌≡◌, [], false, map, IfErr, IfOk, OnOk, IsErrOf};
ghost use Rattle.tc_model.specs.Keyed.{values_in, on_value};
ghost use Rattle.tc_request_model.specs.Rendered.{rendered};
ghost use Rattle.tc_run_model.specs.Kinds.{AreRenderedOfKinds};
ghost use Rattle.tc_request_model.specs.Part.{part_left_all, part_writes_all};
ghost use Rattle.tc_part_model.specs.Meaning.{IsPart, plain_of};
ghost use Rattle.tc_part_model.specs.PartState.{told, AreTold};
ghost use Rattle.tc_part_model.specs.PartView.{PartView};
ghost use Rattle.tc_part.specs.Harms.{IsHarmIn};
ghost use Rattle.tc_route.specs.Answers.{answered};
ghost use Rattle.tc_route.specs.Meaning.{rendered_in, routed_of};
ghost use Rattle.tc_work.specs.Asked.{most_bytes, most_writes, requests_in, IsWindow};
ghost use Rattle.tc_work.specs.Faults.{IfDamage};
ghost use Rattle.tc_work.specs.Frames.{AreWithin};
ghost use Rattle.tc_work.specs.Reads.{live_in, most_reads, IsCountedWithin};
ghost use Rattle.tc_work.specs.Windowed.{HasOnlyStaged, IsStagedAs};

use crate::answering::answer;
use crate::fault::EngineFault;
use crate::progress::Progress;
use std::alloc::Global;
use tc_part::Part;
use tc_route::{Placed, Replies, Routed};
use tc_running::Pace;
use tc_store::Store;

/// The replies to the commands of a window, whose writes are staged. The run comes to a point behind each. Where this errs the
/// part may have failed or not.
pub(crate) fn answer_all<S: Store, P: Pace>(
    alloc: Global,
    part: &mut Part<S>,
    progress: &mut Progress<P>,
    list: &[Routed],
) -> Result<Replies, EngineFault>
    requires sound { part.old.failed ≡ false }
    requires nothing_staged { part.old.staged ≡ [] }
    requires window { IsWindow list.now }
    ensures staged { (p : PartView) → IsPart (told S.history S.Device.history S.Frozen.content part.old) p
        → OnOk result (IsStagedAs (part_writes_all part.old.limits (requests_in list.now) (plain_of (told S.history S.Device.history S.Frozen.content part.old) p)) (part_left_all part.old.limits (requests_in list.now) (plain_of (told S.history S.Device.history S.Frozen.content part.old) p)) p (told S.history S.Device.history S.Frozen.content part.new)) }
    ensures replies { (p : PartView) → IsPart (told S.history S.Device.history S.Frozen.content part.old) p → AreTold (told S.history S.Device.history S.Frozen.content part.old).components
        → IfOk result (λ replies. rendered_in replies ≡ map (on_value rendered) (answered part.old.limits (map routed_of list.now) (plain_of (told S.history S.Device.history S.Frozen.content part.old) p))) }
    ensures places { IfOk result (λ replies. map (λ a. a.at) replies ≡ map (λ r. r.at) list.now) }
    ensures kinds { IfOk result (λ replies. AreRenderedOfKinds (requests_in list.now) (values_in (rendered_in replies))) }
    ensures grown { OnOk result (AreWithin (most_writes (requests_in list.now)) (most_bytes (requests_in list.now)) part.new.staged []) }
    ensures same { HasOnlyStaged part.old part.new }
    ensures sound { OnOk result (part.new.failed ≡ false) }
    ensures harmed { IfErr result (λ fault. IfDamage fault (λ file at bytes. IsHarmIn (λ file. S.Frozen.content file) part.old.list file at bytes)) }
    ensures unspent { IsErrOf result EngineFault.Spent → ⊥ }
    ensures counted { IsCountedWithin (most_reads (live_in part.old) (requests_in list.now)) (IsErrOf result EngineFault.Disk) (S.Watch.counts part.old.main) (S.Watch.counts part.new.main) }
{
    let mut replies = Vec::with_capacity(alloc, list.len())?;
    for routed in list {
        let reply = answer(alloc, part, &routed.command)?;
        progress.replied(part.number());
        replies.push(Placed {
            at: routed.at,
            reply,
        })?;
    }
    Ok(Replies::of(replies))
}
