//! A demonstration: generated commands, answered as the lines of an input are, and two lines about their replies.

ghost use Rattle.std.specs.Prelude.{◌≡◌, ◌≤◌, ◌<◌, [], length, Some, IfErr, IfOk, OnOk};
ghost use Rattle.std.specs.Io.KnownBytes.{Appends};
ghost use Rattle.tc_bytes.specs.Counts.{Rose};
ghost use Rattle.tc_gen.specs.Generated.{generated};
ghost use Rattle.tc_gen.specs.TwoLines.{lines_for};
ghost use Rattle.tc_model.specs.Limits.{max_line};
ghost use Rattle.tc_run_model.specs.Windows.{windows_of};
ghost use Rattle.tc_keeper.specs.Keeping.{faults_kept, settings_kept, HasSpent, FailsAt, MayServe, AllRest, ServesAt, IsTrueHere};
ghost use Rattle.tc_server.specs.Demo.{ended, fault_in_memory, DemoLeaving, GivesUpAtEnd, GivesUpAtLine, HasGivenUp, HasHeardAll, HearsEnd, HearsLine, HearsReplies, WroteSome};
ghost use Rattle.tc_keeper.specs.Faults.{fault_in, HasCauses, HasDiskCause, IsOfStore, IsWrite};
ghost use Rattle.tc_keeper.specs.Sight.{Sight};
ghost use Rattle.tc_server.specs.Stage.{IsReady};
ghost use Rattle.tc_server.specs.Window.{requests_of};

use crate::session::Session;
use std::alloc::Global;
use std::sync::Wait;
use std::thread::Threads;
use tc_bytes::Bytes;
use tc_edge::{MemSink, Sink, write_all};
use tc_gen::{Feed, Tally};
use tc_keeper::{Keeper, RunFault};
use tc_running::Pace;
use tc_store::Store;
use tc_work::Seen;

/// Answers a demonstration of so many commands, in the windows of the session, and writes its two lines.
pub fn answer_demo<R: Threads + Wait + Sync, O: Sink, S: Store + 'static, P: Pace + 'static>(
    rt: &R,
    alloc: Global,
    commands: u32,
    session: &mut Session<Keeper<S, P>>,
    sink: &mut O,
) -> Result<(), RunFault>
where
    S::Device: 'static,
    S::Frozen: 'static,
    S::Watch: 'static,
    requires few { commands ≤ 1000000 }
    requires ready { IsReady (MayServe S.history S.Device.history S.Frozen.content) session.old }
    requires requests { requests_of session.old.window ≡ [] }
    requires bytes { session.old.window.bytes ≡ 0 }

    // What was written, and what is left of the store, from whatever world it stood at.
    ensures ran { (first : Sight) → ServesAt ⟦<S as Seen>⟧.eyes session.old.keeper first
        → DemoLeaving (ServesAt ⟦<S as Seen>⟧.eyes) (FailsAt ⟦<S as Seen>⟧.eyes) (HasSpent S.history S.Device.history S.Frozen.content) commands (fault_in result) first session.old.window.limit
        (O.taken sink.old) (O.taken sink.new) session.new.keeper }
    ensures rests { OnOk result (AllRest (λ d. S.Device.size d) session.new.keeper) }
    ensures settings { settings_kept session.new.keeper ≡ settings_kept session.old.keeper }
    ensures cause { HasCauses (O.faults sink.old) (O.faults sink.new) (faults_kept (λ w. S.Watch.counts w) session.old.keeper) (faults_kept (λ w. S.Watch.counts w) session.new.keeper) (IsTrueHere S.history S.Device.history S.Frozen.content session.new.keeper) (fault_in result) }
{
    session.begin(rt, alloc)?;
    let tally = hear_all(rt, alloc, commands, session)?;
    write_lines(alloc, commands, &tally, sink)
}

// Writes the two lines.
fn write_lines<O: Sink>(
    alloc: Global,
    commands: u32,
    tally: &Tally,
    sink: &mut O,
) -> Result<(), RunFault>
    ensures ok { OnOk result (Appends (O.taken sink.old) (O.taken sink.new) (lines_for commands tally.now)) }
    ensures fault { IfErr result (λ fault. WroteSome fault (lines_for commands tally.now) (O.taken sink.old) (O.taken sink.new)) }
    ensures kept { O.faults sink.old ≤ O.faults sink.new }
    ensures cause { IfErr result (λ fault. IsWrite fault → Rose (O.faults sink.old) (O.faults sink.new)) }
{
    let lines = tally.lines(alloc, commands)?;
    write_all(sink, lines.as_slice())?;
    Ok(())
}

// Hands the lines of a demonstration to the session, and keeps what it replies.
fn hear_all<R: Threads + Wait + Sync, S: Store + 'static, P: Pace + 'static>(
    rt: &R,
    alloc: Global,
    commands: u32,
    session: &mut Session<Keeper<S, P>>,
) -> Result<Tally, RunFault>
where
    S::Device: 'static,
    S::Frozen: 'static,
    S::Watch: 'static,
    requires few { commands ≤ 1000000 }
    requires ready { IsReady (MayServe S.history S.Device.history S.Frozen.content) session.old }
    requires requests { requests_of session.old.window ≡ [] }
    requires bytes { session.old.window.bytes ≡ 0 }
    ensures heard { IfOk result (λ tally. (first : Sight) → ServesAt ⟦<S as Seen>⟧.eyes session.old.keeper first
        → HasHeardAll (ServesAt ⟦<S as Seen>⟧.eyes) first (generated commands) session.new.keeper tally) }
    ensures fault { IfErr result (λ fault. (first : Sight) → ServesAt ⟦<S as Seen>⟧.eyes session.old.keeper first
        → HasGivenUp (ServesAt ⟦<S as Seen>⟧.eyes) (FailsAt ⟦<S as Seen>⟧.eyes) first fault (ended (windows_of session.old.window.limit (generated commands))) session.new.keeper) }
    ensures rests { OnOk result (AllRest (λ d. S.Device.size d) session.new.keeper) }
    ensures kinds { IfErr result IsOfStore }
    ensures settings { settings_kept session.new.keeper ≡ settings_kept session.old.keeper }
    ensures cause { HasDiskCause (faults_kept (λ w. S.Watch.counts w) session.old.keeper) (faults_kept (λ w. S.Watch.counts w) session.new.keeper) (IsTrueHere S.history S.Device.history S.Frozen.content session.new.keeper) (fault_in result) }
{
    let mut feed = Feed::new(commands);
    let mut tally = Tally::new(alloc);
    // There are far fewer lines.
    for _ in 0..u64::MAX {
        match feed.next(alloc)? {
            Some(line) => hear_line(rt, alloc, line, session, &mut tally)?,
            None => {
                hear_end(rt, alloc, session, &mut tally)?;
                return Ok(tally);
            }
        }
    }
    Err(RunFault::Memory)
}

// Hands a line to the session, and hears the replies that it writes.
fn hear_line<R: Threads + Wait + Sync, S: Store + 'static, P: Pace + 'static>(
    rt: &R,
    alloc: Global,
    line: Bytes,
    session: &mut Session<Keeper<S, P>>,
    tally: &mut Tally,
) -> Result<(), RunFault>
where
    S::Device: 'static,
    S::Frozen: 'static,
    S::Watch: 'static,
    requires ready { IsReady (MayServe S.history S.Device.history S.Frozen.content) session.old }
    requires size { length line ≤ max_line }
    ensures heard { OnOk result (HearsLine (ServesAt ⟦<S as Seen>⟧.eyes) line session.old tally.old session.new tally.new) }
    ensures ready { OnOk result (IsReady (MayServe S.history S.Device.history S.Frozen.content) session.new) }
    ensures limit { OnOk result (session.new.window.limit ≡ session.old.window.limit) }
    ensures fault { IfErr result (λ fault. GivesUpAtLine (ServesAt ⟦<S as Seen>⟧.eyes) (FailsAt ⟦<S as Seen>⟧.eyes) fault line session.old tally.old session.new) }
    ensures kinds { IfErr result IsOfStore }
    ensures settings { settings_kept session.new.keeper ≡ settings_kept session.old.keeper }
    ensures cause { HasDiskCause (faults_kept (λ w. S.Watch.counts w) session.old.keeper) (faults_kept (λ w. S.Watch.counts w) session.new.keeper) (IsTrueHere S.history S.Device.history S.Frozen.content session.new.keeper) (fault_in result) }
{
    let mut replies = MemSink::new(alloc, usize::MAX, Vec::new(alloc));
    match session.take_whole(rt, alloc, line, &mut replies) {
        Ok(()) => heard(tally, &replies),
        Err(fault) => Err(in_memory(fault)),
    }
}

// Has the session answer the window that is open, and hears the replies.
fn hear_end<R: Threads + Wait + Sync, S: Store + 'static, P: Pace + 'static>(
    rt: &R,
    alloc: Global,
    session: &mut Session<Keeper<S, P>>,
    tally: &mut Tally,
) -> Result<(), RunFault>
where
    S::Device: 'static,
    S::Frozen: 'static,
    S::Watch: 'static,
    requires ready { IsReady (MayServe S.history S.Device.history S.Frozen.content) session.old }
    ensures heard { OnOk result (HearsEnd (ServesAt ⟦<S as Seen>⟧.eyes) session.old tally.old session.new tally.new) }
    ensures rests { OnOk result (AllRest (λ d. S.Device.size d) session.new.keeper) }
    ensures fault { IfErr result (λ fault. GivesUpAtEnd (ServesAt ⟦<S as Seen>⟧.eyes) (FailsAt ⟦<S as Seen>⟧.eyes) fault session.old tally.old session.new) }
    ensures kinds { IfErr result IsOfStore }
    ensures settings { settings_kept session.new.keeper ≡ settings_kept session.old.keeper }
    ensures cause { HasDiskCause (faults_kept (λ w. S.Watch.counts w) session.old.keeper) (faults_kept (λ w. S.Watch.counts w) session.new.keeper) (IsTrueHere S.history S.Device.history S.Frozen.content session.new.keeper) (fault_in result) }
{
    let mut replies = MemSink::new(alloc, usize::MAX, Vec::new(alloc));
    match session.close(rt, alloc, &mut replies) {
        Ok(()) => heard(tally, &replies),
        Err(fault) => Err(in_memory(fault)),
    }
}

// Hears the replies in memory. Errs only for want of memory.
fn heard(tally: &mut Tally, replies: &MemSink) -> Result<(), RunFault>
    ensures ok { OnOk result (HearsReplies tally.old replies.now.taken tally.new) }
    ensures memory { IfErr result (λ fault. fault ≡ RunFault.Memory) }
{
    tally.hear(replies.taken())?;
    Ok(())
}

// The fault of a session whose sink is in memory.
fn in_memory(fault: RunFault) -> RunFault
    ensures { result ≡ fault_in_memory fault }
{
    match fault {
        RunFault::Write { .. } => RunFault::Memory,
        other => other,
    }
}
