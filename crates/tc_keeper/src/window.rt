//! A window over all partitions: each engine answers its share, all at once, and the replies are put together.

ghost use Rattle.std.specs.Prelude.{◌≡◌, ◌<◌, ◌≤◌, ℕ, [], false, None, Ok, Option, length, map, All, IfErr, IfOk, IsErrOf, OnErr, OnOk, vec_capacity, vec_len, zip};
ghost use Rattle.std.specs.Map.{keys_of};
ghost use Rattle.tc_model.specs.Keyed.{values_in, Ascends};
ghost use Rattle.tc_run_model.specs.Kinds.{AreRenderedOfKinds};
ghost use Rattle.tc_run_model.specs.World.{World, after_all};
ghost use Rattle.tc_route.specs.Meaning.{rendered_in, requests_at, routed_of};
ghost use Rattle.tc_work.specs.Asked.{requests_in, IsWindow};
ghost use Rattle.tc_work.specs.Moving.{eyes};
ghost use Rattle.tc_keeper.specs.EngineFaults.{IfOf, IsFirstFault};
ghost use Rattle.tc_keeper.specs.Places.{AtEach};
ghost use Rattle.tc_work.specs.Committed.{HasFramed};
ghost use Rattle.tc_keeper.specs.Running.{HasRun};
ghost use Rattle.tc_keeper.specs.Standing.{HoldWorld, KeepWorlds};
ghost use Rattle.tc_keeper.specs.Windows.{window_rendered, AreCountedWithin, AreFramed, FailsFirst, HaveRun, MayRunOn};

use crate::engines::Engines;
use crate::engines_fault::EnginesFault;
use crate::seat::Seat;
use std::alloc::Global;
use std::thread;
use std::thread::Threads;
use tc_bytes::Memory;
use tc_command::Command;
use tc_log::Write;
use tc_route::{
    Replies, Routed, gather, kinds_are_gathered, rendered_are_gathered, replies_are_gathered, split,
};
use tc_running::Pace;
use tc_store::Store;
use tc_work::Seen;

/// So many commands of a partition are worth a thread. To start one, and to wait for it, takes as long as some fifty small writes.
const MANY_COMMANDS: usize = 128;

impl<S: Store, P: Pace> Engines<S, P> {
    /// Answers the commands of a window: each engine commits what its own commands write as one frame. It hands out the frames,
    /// one a partition, in ascending number. One reply a command, in the order of these. A window for one partition is answered on
    /// this thread, and so is one for two, unless both have a query or many commands. Else the engines work at once, each but one on
    /// a thread of its own. Where several engines fail, the fault is that of the least partition. After a fault no more windows are
    /// asked for; engines of other partitions may have committed theirs.
    pub fn window<R: Threads + Sync>(
        &mut self,
        rt: &R,
        alloc: Global,
        commands: Vec<Routed>,
        frames: &mut Vec<Vec<Write>>,
    ) -> Result<Replies, EnginesFault>
        requires some { 0 < length self.old }
        requires few { length self.old ≤ 16 }
        requires sound { All (λ e. e.engine.part.failed ≡ false) self.old }
        requires window { IsWindow commands.items }
        requires ascending { Ascends (map routed_of commands.items) }

        // From a world at which the engines stand, the replies are the world's, and the engines stand at what it leaves. So does one
        // engine by itself.
        ensures replies { (w : World) → HoldWorld ⟦<S as Seen>⟧.eyes None self.old w → IfOk result (λ replies. rendered_in replies ≡ window_rendered (map routed_of commands.items) w) }
        ensures held { (only : Option ℕ) (w : World) → HoldWorld ⟦<S as Seen>⟧.eyes only self.old w → OnOk result (HoldWorld ⟦<S as Seen>⟧.eyes only self.new (after_all (requests_in commands.items) w)) }

        // Behind a fault each engine by itself is as before its share or behind it, or has failed and its files keep one of these.
        ensures kept { (only : Option ℕ) (w : World) → HoldWorld ⟦<S as Seen>⟧.eyes only self.old w → OnErr result (KeepWorlds ⟦<S as Seen>⟧.eyes only self.new w (after_all (requests_in commands.items) w)) }

        // Over every store there is a frame of each partition, with the writes of its share.
        ensures frames { OnOk result (AreFramed ⟦<S as Seen>⟧.eyes (map routed_of commands.items) self.old self.new (λ frame. frame.items) frames.new.items) }

        // Over every store each reply is at the place of its command, and of its kind.
        ensures places { IfOk result (λ replies. keys_of (rendered_in replies) ≡ keys_of (map routed_of commands.items)) }
        ensures kinds { IfOk result (λ replies. AreRenderedOfKinds (requests_in commands.items) (values_in (rendered_in replies))) }

        // Over every store only what a window writes has changed, behind a fault too, and after Ok each engine may run on.
        ensures ran { HaveRun ⟦<S as Seen>⟧.eyes (map routed_of commands.items) self.old self.new }
        ensures well { OnOk result (MayRunOn ⟦<S as Seen>⟧.eyes (map routed_of commands.items) self.old self.new) }

        // The fault is that of an engine which failed, and no engine of a lower partition did. Want of memory is told only where none
        // failed.
        ensures first { IfErr result (FailsFirst ⟦<S as Seen>⟧.eyes (map routed_of commands.items) self.old self.new) }
        ensures memory { IsErrOf result EnginesFault.Memory → All (λ e. e.engine.part.failed ≡ false) self.new }
        ensures counted { AreCountedWithin ⟦<S as Seen>⟧.eyes (map routed_of commands.items) self.old self.new result }
    {
        replies_are_gathered();
        kinds_are_gathered();
        rendered_are_gathered();
        let lists = split(alloc, commands, self.seats.len() as u32)?;
        let room = make_room(alloc, self.seats.len(), frames)?;
        run_lists(rt, alloc, &lists, &mut self.seats, frames);
        let parts = take_answers(alloc, &mut self.seats, room)?;
        let replies = gather(alloc, parts)?;
        Ok(replies)
    }
}

/// Room for the answers of so many partitions, and for their frames. Errs only for want of memory.
fn make_room(
    alloc: Global,
    partitions: usize,
    frames: &mut Vec<Vec<Write>>,
) -> Result<Vec<Replies>, Memory>
    ensures empty { IfOk result (λ room. (room.items ≡ []) × (vec_len room ≡ 0)) }
    ensures capacity { IfOk result (λ room. partitions ≤ vec_capacity room) }
    ensures no_frame { OnOk result ((frames.new.items ≡ []) × (vec_len frames.new ≡ 0)) }
    ensures for_frames { OnOk result (partitions ≤ vec_capacity frames.new) }
{
    *frames = Vec::with_capacity(alloc, partitions)?;
    Vec::with_capacity(alloc, partitions)
}

/// Runs each list in the engine at its place, and takes the frames of all into this empty list, which has room for them.
fn run_lists<S: Store, P: Pace, R: Threads + Sync>(
    rt: &R,
    alloc: Global,
    lists: &[Vec<Routed>],
    seats: &mut [Seat<S, P>],
    frames: &mut Vec<Vec<Write>>,
)
    requires as_many { length lists.now ≡ length seats.old }
    requires sound { All (λ s. s.engine.part.failed ≡ false) seats.old }
    requires window { All (λ list. IsWindow list.items) lists.now }
    requires empty { (frames.old.items ≡ []) × (vec_len frames.old ≡ 0) }
    requires room { length seats.old ≤ vec_capacity frames.old }
    ensures ran { AtEach (λ p old new. HasRun ⟦<S as Seen>⟧.eyes (requests_at p lists.now) old.engine new.engine new.answer) 0 seats.old seats.new }
    ensures framed { AtEach (λ p run frame. OnOk run.1.answer (HasFramed ⟦<S as Seen>⟧.eyes (requests_at p lists.now) run.0.engine run.1.engine frame.items)) 0 (zip seats.old seats.new) frames.new.items }
{
    run_each(rt, alloc, lists, seats);
    take_frames(alloc, seats, frames);
}

/// Runs each list in the engine at its place, at once where several have a command.
fn run_each<S: Store, P: Pace, R: Threads + Sync>(
    rt: &R,
    alloc: Global,
    lists: &[Vec<Routed>],
    seats: &mut [Seat<S, P>],
)
    requires as_many { length lists.now ≡ length seats.old }
    requires sound { All (λ s. s.engine.part.failed ≡ false) seats.old }
    requires window { All (λ list. IsWindow list.items) lists.now }
    ensures ran { AtEach (λ p old new. HasRun ⟦<S as Seen>⟧.eyes (requests_at p lists.now) old.engine new.engine new.answer) 0 seats.old seats.new }
    ensures framed { AtEach (λ p old new. OnOk new.answer (HasFramed ⟦<S as Seen>⟧.eyes (requests_at p lists.now) old.engine new.engine new.frame.items)) 0 seats.old seats.new }
{
    thread::for_each_mut(
        rt,
        seats,
        threads_for(lists),
        &|at, seat: &mut Seat<S, P>|
            requires { (at < length lists.now) × (seat.now.engine.part.failed ≡ false) × All (λ list. IsWindow list.items) lists.now }
            ensures { HasRun (eyes S.history S.Device.history S.Frozen.content S.Device.name S.Frozen.size S.Watch.counts) (requests_at at lists.entry.now) seat.entry.now.engine seat.exit.now.engine seat.exit.now.answer
                × OnOk seat.exit.now.answer (HasFramed (eyes S.history S.Device.history S.Frozen.content S.Device.name S.Frozen.size S.Watch.counts) (requests_at at lists.entry.now) seat.entry.now.engine seat.exit.now.engine seat.exit.now.frame.items) }
        { seat.run(alloc, &lists[at]) },
    );
}

/// In how many threads lists are run: in one where at most one has a command, or two have that are not both long, and else each
/// in its own. Two logs that are synced one after the other cost less than a thread a window. Of more that would take too long.
fn threads_for(lists: &[Vec<Routed>]) -> usize
    ensures { 0 < result }
{
    let busy = lists.iter().filter(|list| !list.is_empty()).count();
    let long = lists.iter().filter(|list| is_long(list)).count();
    let one = busy < 2 || busy == 2 && long < 2;
    if one { 1 } else { lists.len().max(1) }
}

/// Whether a list is worth a thread: it has many commands, or a query, which may read all that a partition stores.
fn is_long(list: &[Routed]) -> bool {
    list.len() >= MANY_COMMANDS || list.iter().any(|routed| is_query(&routed.command))
}

fn is_query(command: &Command) -> bool {
    match command {
        Command::Query(_) => true,
        _other => false,
    }
}

/// Takes the answers of all into this empty list, which has room for them, or answers the first fault.
fn take_answers<S: Store, P: Pace>(
    alloc: Global,
    seats: &mut [Seat<S, P>],
    mut parts: Vec<Replies>,
) -> Result<Vec<Replies>, EnginesFault>
    requires few { length seats.old ≤ 16 }
    requires empty { (parts.items ≡ []) × (vec_len parts ≡ 0) }
    requires room { length seats.old ≤ vec_capacity parts }
    ensures engines { map (λ s. s.engine) seats.new ≡ map (λ s. s.engine) seats.old }
    ensures all { IfOk result (λ parts. map (λ s. s.answer) seats.old ≡ map Ok parts.items) }
    ensures first { IfErr result (λ fault. IfOf fault (λ p why. (p < length seats.old) × IsFirstFault p why (map (λ s. s.answer) seats.old))) }
    ensures of_engine { IsErrOf result EnginesFault.Memory → ⊥ }
{
    for at in 0..seats.len() {
        match seats[at].take_answer(alloc) {
            Ok(replies) => parts.push_reserved(replies),
            Err(fault) => {
                return Err(EnginesFault::Of {
                    partition: at as u32,
                    fault,
                });
            }
        }
    }
    Ok(parts)
}

/// Takes the frames of all into this empty list, which has room for them.
fn take_frames<S: Store, P: Pace>(
    alloc: Global,
    seats: &mut [Seat<S, P>],
    frames: &mut Vec<Vec<Write>>,
)
    requires empty { (frames.old.items ≡ []) × (vec_len frames.old ≡ 0) }
    requires room { length seats.old ≤ vec_capacity frames.old }
    ensures engines { map (λ s. s.engine) seats.new ≡ map (λ s. s.engine) seats.old }
    ensures answers { map (λ s. s.answer) seats.new ≡ map (λ s. s.answer) seats.old }
    ensures all { frames.new.items ≡ map (λ s. s.frame) seats.old }
{
    for at in 0..seats.len() {
        let frame = seats[at].take_frame(alloc);
        frames.push_reserved(frame);
    }
}
