//! A window: what its commands write is made one frame.

ghost use Rattle.std.specs.Prelude.{◌≡◌, ◌≤◌, ◌+◌, ◌^◌, [], false, true, length, map, All, IfErr, IfOk, OnErr, OnOk, IsErrOf};
ghost use Rattle.tc_model.specs.Keyed.{values_in, on_value};
ghost use Rattle.tc_request_model.specs.Rendered.{rendered};
ghost use Rattle.tc_run_model.specs.Kinds.{AreRenderedOfKinds};
ghost use Rattle.tc_log.specs.Writes.{IsWrite};
ghost use Rattle.tc_machine.specs.Logs.{kept_write};
ghost use Rattle.tc_machine.specs.Writes.{IsStorableWrite};
ghost use Rattle.tc_request_model.specs.Part.{part_writes_all};
ghost use Rattle.tc_part.specs.FilesOut.{LogIsOut, TellsLogs};
ghost use Rattle.tc_part_model.specs.Leaving.{LogMomentsLeaveStore};
ghost use Rattle.tc_part_model.specs.Meaning.{IsPart, plain_of};
ghost use Rattle.tc_part_model.specs.PartState.{told, AreTold};
ghost use Rattle.tc_part_model.specs.PartView.{PartView};
ghost use Rattle.tc_part.specs.Harms.{IsHarmIn};
ghost use Rattle.tc_route.specs.Answers.{answered};
ghost use Rattle.tc_route.specs.Meaning.{rendered_in, routed_of};
ghost use Rattle.tc_work.specs.Committed.{AnswersPlainly, Commits, FailsWindow, HasFramed, HasOnlyCommitted, HasSpentWrites, KeepsOut, LeavesAtMoments, MeetsNoDamage};
ghost use Rattle.tc_work.specs.Asked.{most_writes, requests_in, IsWindow};
ghost use Rattle.tc_running.specs.Jobs.{JobsState};
ghost use Rattle.tc_work.specs.Failing.{HasFailedWith};
ghost use Rattle.tc_work.specs.Faults.{IfDamage};
ghost use Rattle.tc_work.specs.JobsOut.{WorkFor};
ghost use Rattle.tc_work.specs.Reads.{live_in, most_reads, IsCountedWithin};
ghost use Rattle.tc_work.specs.Windowed.{staged_as, IsWindowed};

use crate::engine::Engine;
use crate::fault::EngineFault;
use crate::progress::Progress;
use crate::seen::Seen;
use crate::staging::answer_all;
use std::alloc::Global;
use tc_component::components_are_contents;
use tc_log::Write;
use tc_part::Part;
use tc_part_model::{commits_are_kept, failed_parts_keep_files};
use tc_route::{Replies, Routed};
use tc_running::Pace;
use tc_store::Store;

impl<S: Store, P: Pace> Engine<S, P> {
    /// Runs the commands of a window, and commits their writes as one frame, which it hands out: one reply a command, in order
    /// and with its place, in which a get or a query sees the writes before it. A refused upsert is a reply, and no fault. At most
    /// one read is made for a command with a key, and for a query one for each key that has a document then. `Spent` comes only
    /// where there would be more than 2^63 - 1 writes of this run; then nothing is written.
    pub fn window(
        &mut self,
        alloc: Global,
        list: &[Routed],
        frame: &mut Vec<Write>,
    ) -> Result<Replies, EngineFault>
        requires sound { self.old.part.failed ≡ false }
        requires window { IsWindow list.now }

        // Where the files are told, the replies are those of the plain store, and over every store each is at the place of its command,
        // and of its kind.
        ensures replies { AnswersPlainly ⟦<S as Seen>⟧.eyes (map routed_of list.now) self.old.part result }
        ensures places { IfOk result (λ replies. map (λ a. a.at) replies ≡ map (λ r. r.at) list.now) }
        ensures kinds { IfOk result (λ replies. AreRenderedOfKinds (requests_in list.now) (values_in (rendered_in replies))) }

        // On Ok the writes of the window are committed, and the frame has them, each as a log holds it. It is empty where none was made.
        ensures same { OnOk result (HasOnlyCommitted self.old.part self.new.part) }
        ensures commits { OnOk result (Commits ⟦<S as Seen>⟧.eyes (requests_in list.now) self.old.part self.new.part) }
        ensures framed { OnOk result (HasFramed ⟦<S as Seen>⟧.eyes (map routed_of list.now) self.old self.new frame.new.items) }
        ensures no_frame { OnErr result (frame.new ≡ frame.old) }

        // The jobs and the files that are out stay, behind a fault too.
        ensures kept { KeepsOut ⟦<S as Seen>⟧.eyes self.old self.new }

        // At each moment of the call a stop leaves what is stored, without the writes of the window or with all of them, and so it
        // does behind a fault.
        ensures moments { LeavesAtMoments ⟦<S as Seen>⟧.eyes (requests_in list.now) self.old.part self.new.part }
        ensures fails { OnErr result (FailsWindow ⟦<S as Seen>⟧.eyes (requests_in list.now) self.old.part self.new.part) }

        // Damage is that of a record of a listed component. Where the files of these are told there is none.
        ensures harmed { IfErr result (λ fault. IfDamage fault (λ file at bytes. IsHarmIn (λ file. S.Frozen.content file) self.old.part.list file at bytes)) }
        ensures undamaged { MeetsNoDamage ⟦<S as Seen>⟧.eyes self.old.part result }
        ensures spent { IsErrOf result EngineFault.Spent → HasSpentWrites ⟦<S as Seen>⟧.eyes (requests_in list.now) self.old.part self.new.part }
        ensures counted { IsCountedWithin (most_reads (live_in self.old.part) (requests_in list.now)) (IsErrOf result EngineFault.Disk) (S.Watch.counts self.old.part.main) (S.Watch.counts self.new.part.main) }
    {
        components_are_contents();
        self.failed = true;
        let replies = run(alloc, &mut self.part, &mut self.progress, list, frame)?;
        self.failed = false;
        Ok(replies)
    }
}

/// Runs the commands of a window over its part, and hands its frame out. Where this errs the part may have failed or not.
fn run<S: Store, P: Pace>(
    alloc: Global,
    part: &mut Part<S>,
    progress: &mut Progress<P>,
    list: &[Routed],
    frame: &mut Vec<Write>,
) -> Result<Replies, EngineFault>
    requires sound { part.old.failed ≡ false }
    requires nothing_staged { part.old.staged ≡ [] }
    requires window { IsWindow list.now }
    ensures replies { (p : PartView) → IsPart (told S.history S.Device.history S.Frozen.content part.old) p → AreTold (told S.history S.Device.history S.Frozen.content part.old).components
        → IfOk result (λ replies. rendered_in replies ≡ map (on_value rendered) (answered part.old.limits (map routed_of list.now) (plain_of (told S.history S.Device.history S.Frozen.content part.old) p))) }
    ensures places { IfOk result (λ replies. map (λ a. a.at) replies ≡ map (λ r. r.at) list.now) }
    ensures kinds { IfOk result (λ replies. AreRenderedOfKinds (requests_in list.now) (values_in (rendered_in replies))) }
    ensures windowed { OnOk result ((p : PartView) → IsPart (told S.history S.Device.history S.Frozen.content part.old) p → IsWindowed part.old.limits (requests_in list.now) (told S.history S.Device.history S.Frozen.content part.old) p (told S.history S.Device.history S.Frozen.content part.new)) }
    ensures same { OnOk result (part.new ≡ record part.old { main = part.new.main; active = part.new.active; log = part.new.log; taken = part.new.taken; live = part.new.live; writes = part.new.writes }) }
    ensures writes { OnOk result ((p : PartView) → IsPart (told S.history S.Device.history S.Frozen.content part.old) p → part.new.writes ≡ part.old.writes + length (part_writes_all part.old.limits (requests_in list.now) (plain_of (told S.history S.Device.history S.Frozen.content part.old) p))) }
    ensures few_writes { OnOk result (part.new.writes ≤ part.old.writes + most_writes (requests_in list.now)) }
    ensures frame { OnOk result ((p : PartView) → IsPart (told S.history S.Device.history S.Frozen.content part.old) p → frame.new.items ≡ map kept_write (part_writes_all part.old.limits (requests_in list.now) (plain_of (told S.history S.Device.history S.Frozen.content part.old) p))) }
    ensures storable { OnOk result ((p : PartView) → IsPart (told S.history S.Device.history S.Frozen.content part.old) p → All IsStorableWrite (part_writes_all part.old.limits (requests_in list.now) (plain_of (told S.history S.Device.history S.Frozen.content part.old) p))) }
    ensures frame_stored { OnOk result (All IsWrite frame.new.items) }
    ensures frame_counted { OnOk result (part.new.writes ≡ part.old.writes + length frame.new.items) }
    ensures no_frame { OnErr result (frame.new ≡ frame.old) }
    ensures unwritten { OnOk result ((p : PartView) → IsPart (told S.history S.Device.history S.Frozen.content part.old) p → part_writes_all part.old.limits (requests_in list.now) (plain_of (told S.history S.Device.history S.Frozen.content part.old) p) ≡ [] → part.new.log ≡ part.old.log) }
    ensures looked_up { OnOk result (most_writes (requests_in list.now) ≡ 0 → part.new.log ≡ part.old.log) }
    ensures log_out { OnOk result (LogIsOut (told S.history S.Device.history S.Frozen.content part.old) → LogIsOut (told S.history S.Device.history S.Frozen.content part.new)) }
    ensures tells { TellsLogs (told S.history S.Device.history S.Frozen.content part.old) → TellsLogs (told S.history S.Device.history S.Frozen.content part.new) }
    ensures moments { (p : PartView) → IsPart (told S.history S.Device.history S.Frozen.content part.old) p → LogMomentsLeaveStore (staged_as (part_writes_all part.old.limits (requests_in list.now) (plain_of (told S.history S.Device.history S.Frozen.content part.old) p)) p) (told S.history S.Device.history S.Frozen.content part.old) (S.Device.history part.new.log.device) }
    ensures failed { OnErr result ((p : PartView) (jobs : JobsState S.Frozen S.Device S.Watch) → IsPart (told S.history S.Device.history S.Frozen.content part.old) p → WorkFor S.Frozen.content S.Device.history S.Device.name jobs p → HasFailedWith (WorkFor S.Frozen.content S.Device.history S.Device.name jobs) (part_writes_all part.old.limits (requests_in list.now) (plain_of (told S.history S.Device.history S.Frozen.content part.old) p)) (record (told S.history S.Device.history S.Frozen.content part.new) { failed = true }) p) }
    ensures left { OnErr result (part.new ≡ record part.old { main = part.new.main; active = part.new.active; staged = part.new.staged; taken = part.new.taken; live = part.new.live; log = part.new.log; failed = part.new.failed }) }
    ensures harmed { IfErr result (λ fault. IfDamage fault (λ file at bytes. IsHarmIn (λ file. S.Frozen.content file) part.old.list file at bytes)) }
    ensures spent { IsErrOf result EngineFault.Spent → 2 ^ 63 ≤ part.old.writes + most_writes (requests_in list.now) }
    ensures unspent { IsErrOf result EngineFault.Spent → part.new.log ≡ part.old.log }
    ensures counted { IsCountedWithin (most_reads (live_in part.old) (requests_in list.now)) (IsErrOf result EngineFault.Disk) (S.Watch.counts part.old.main) (S.Watch.counts part.new.main) }
    ensures sound { OnOk result (part.new.failed ≡ false) }
{
    commits_are_kept();
    failed_parts_keep_files();
    let replies = answer_all(alloc, part, progress, list)?;
    *frame = part.commit(alloc)?;
    Ok(replies)
}
