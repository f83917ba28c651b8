//! A run, or a demonstration: the words, the partitions, the lines, and how it ends.

ghost use Rattle.std.specs.Prelude.{◌≡◌, ℕ, ◌<◌, ◌≤◌, ◌⊎◌, List, [], true, false, length, map, All, Ok, Option, Some, None, option_to_list, vec_capacity, vec_len, is_some, IfOk, IfErr, IfSome, IsErrOf, OnOk};
ghost use Rattle.tc_bytes.specs.Counts.{Rose};
ghost use Rattle.tc_keeper.specs.Places.{AtEach, EachFrom, SomeFrom};
ghost use Rattle.tc_keeper.specs.Standing.{partition_at, KeepWorlds};
ghost use Rattle.tc_keeper.specs.WithJobs.{settings};
ghost use Rattle.tc_log.specs.Layout.{empty_size};
ghost use Rattle.tc_open.specs.BeingOpened.{AreIn};
ghost use Rattle.tc_run_model.specs.Course.{each_line};
ghost use Rattle.tc_store.specs.Disk.{Disk};
ghost use Rattle.tc_store.specs.Moments.{IfTold};
ghost use Rattle.tc_server.specs.Ending.{AreFewCommands, AskedPromptly, IsRun, RanLeaving, ReadsPromptly, RunsOver, ServedPromptly};
ghost use Rattle.tc_keeper.specs.Faults.{fault_in, faults_in, status_of, HasRunCauses, IfDamaged, IfDisk, IsOfRun, IsWrite, NoneFell, OneRose};
ghost use Rattle.tc_server.specs.KitCauses.{GivesKitsBack, HasCauseOver, HasLastGeneration, IsInputSpent};
ghost use Rattle.tc_keeper.specs.Keeping.{faults_kept, settings_kept, AllRest, AreUnwritten, FailsAt, HasSpent, IsMetIn, IsTrueBehind, IsTrueHere, MayServe, ServesAt};
ghost use Rattle.tc_server.specs.Kits.{answer_behind, fault_behind, IsBegun};
ghost use Rattle.tc_server.specs.OverFiles.{partitions_asked, AskedOver, BeginsFor, ServedOver};
ghost use Rattle.tc_keeper.specs.Partitions.{StandAt};
ghost use Rattle.tc_keeper.specs.Calls.{faults_at, faults_of, settings_of, IsSpent, MayAsk, Rests};
ghost use Rattle.tc_server.specs.Progress.{AsksPromptly, Ends, Goes};
ghost use Rattle.tc_keeper.specs.Sight.{IsFirst, Sight};
ghost use Rattle.tc_server.specs.Stage.{IsReady};
ghost use Rattle.tc_server.specs.Window.{requests_of};
ghost use Rattle.tc_words.specs.Options.{invocation_of, options_asked};

use crate::closing::close_all;
use crate::demo::answer_demo;
use crate::opening::{NotOpened, open_all};
use crate::outcome::Served;
use crate::session::Session;
use std::alloc::Global;
use std::sync::{Arc, Wait};
use std::thread::Threads;
use tc_command::MAX_LINE;
use tc_edge::{Sink, Source};
use tc_keeper::{Engines, Keeper, RunFault};
use tc_lines::{Line, Lines};
use tc_running::Pace;
use tc_store::{Kit, Shelf, Store};
use tc_value::Text;
use tc_words::{Invocation, Options, WordsFault, invocation};
use tc_work::Seen;

/// Answers the lines of the source, or those of a demonstration, for the words of the command line, which stand behind the
/// folder, over the partitions that the shelf keeps. Their kits are asked for, and the partitions opened, one after the other
/// before a line is read; behind each window, and before the first one, they are settled. Flushes, merges and a scan are jobs beside
/// the windows, which come to points of this pace; at the end they are waited for, and rows that nobody collected are dropped.
pub fn serve<R: Threads + Wait + Sync, I: Source<O>, O: Sink, H: Shelf, P: Pace + 'static>(
    rt: &R,
    alloc: Global,
    words: &[Text],
    source: &mut I,
    sink: &mut O,
    shelf: &mut H,
    pace: P,
) -> Served<H::Store>
where
    H::Store: 'static,
    <H::Store as Store>::Device: 'static,
    <H::Store as Store>::Frozen: 'static,
    <H::Store as Store>::Watch: 'static,
    ensures status { result.status ≡ status_of result.fault }

    // What was read and written, and what is left of the files, from each first world that the files give, and from none.
    ensures served { (first : Sight) → BeginsFor (invocation_of words.now) (H.files shelf.old) first
        → ServedOver (invocation_of words.now) result.fault first (H.files shelf.old) (I.left source.old) (I.left source.new) (O.taken sink.old) (O.taken sink.new) (map (λ kit. H.Store.history kit.store) result.kits.items) }

    // Only a run reads. At each of its reads the sink had accepted the replies to the windows that had closed among what was
    // given before it, and no more.
    ensures unread { IsRun (invocation_of words.now) ⊎ (source.new ≡ source.old) }
    ensures prompt { (first : Sight) → BeginsFor (invocation_of words.now) (H.files shelf.old) first
        → ServedPromptly first (invocation_of words.now) (O.taken sink.old) (I.moments source.old) (I.moments source.new) }

    // The kits that were asked for are given back, in ascending number: all where a line may have been read. Behind them none was
    // asked for but the next one, where the shelf failed.
    ensures back { GivesKitsBack (shelf.new ≡ shelf.old) (partitions_asked (invocation_of words.now)) (H.faults shelf.old) (H.faults shelf.new) (H.files shelf.old) (H.files shelf.new) (H.kit_faults shelf.old) (H.kit_faults shelf.new) result.fault result.kits.items (faults_in (λ w. H.Store.Watch.counts w)) }

    // However the run ended, and whatever the files are: no file of a kit that is given back is out.
    ensures home { All (λ kit. IfTold (H.Store.history kit.store) AreIn) result.kits.items }

    // When a fault may be answered.
    ensures cause { HasCauseOver H.Store H.Store.Watch H.Store.Device.history H.Store.Frozen.content H.Store.Frozen.name (λ file. H.Store.Frozen.size file) (invocation_of words.now) (I.left source.old) (I.left source.new) (I.faults source.old) (I.faults source.new) (O.faults sink.old) (O.faults sink.new) (H.faults shelf.old) (H.faults shelf.new) (H.files shelf.old) (H.kit_faults shelf.old) result.fault result.kits.items (λ kit. H.Store.history kit.store) (faults_in (λ w. H.Store.Watch.counts w)) }
{
    match asked_by(alloc, words) {
        Ok(asked) => serve_asked(rt, alloc, &asked, source, sink, shelf, pace),
        Err(fault) => Served::of(Some(fault), Vec::new(alloc)),
    }
}

// Opens the partitions, and serves over them.
fn serve_asked<R: Threads + Wait + Sync, I: Source<O>, O: Sink, H: Shelf, P: Pace + 'static>(
    rt: &R,
    alloc: Global,
    asked: &Invocation,
    source: &mut I,
    sink: &mut O,
    shelf: &mut H,
    pace: P,
) -> Served<H::Store>
where
    H::Store: 'static,
    <H::Store as Store>::Device: 'static,
    <H::Store as Store>::Frozen: 'static,
    <H::Store as Store>::Watch: 'static,
    requires partitions { (0 < (options_asked asked.now).partitions) × ((options_asked asked.now).partitions ≤ 16) }
    requires some { 0 < (options_asked asked.now).window }
    requires limit { (options_asked asked.now).window ≤ 4096 }
    requires merge { (2 ≤ (options_asked asked.now).merge) × ((options_asked asked.now).merge ≤ 9) }
    requires memory { empty_size < (options_asked asked.now).memory }
    requires few { AreFewCommands asked.now }
    ensures status { result.status ≡ status_of result.fault }
    ensures ran { (first : Sight) → BeginsFor (Some asked.now) (H.files shelf.old) first
        → AskedOver asked.now result.fault first (H.files shelf.old) (I.left source.old) (I.left source.new) (O.taken sink.old) (O.taken sink.new) (map (λ kit. H.Store.history kit.store) result.kits.items) }
    ensures unread { IsRun (Some asked.now) ⊎ (source.new ≡ source.old) }
    ensures prompt { (first : Sight) → BeginsFor (Some asked.now) (H.files shelf.old) first
        → AskedPromptly asked.now first (options_asked asked.now).window (O.taken sink.old) (I.moments source.old) (I.moments source.new) }
    ensures back { GivesKitsBack (shelf.new ≡ shelf.old) (options_asked asked.now).partitions (H.faults shelf.old) (H.faults shelf.new) (H.files shelf.old) (H.files shelf.new) (H.kit_faults shelf.old) (H.kit_faults shelf.new) result.fault result.kits.items (faults_in (λ w. H.Store.Watch.counts w)) }
    ensures home { All (λ kit. IfTold (H.Store.history kit.store) AreIn) result.kits.items }
    ensures cause { HasCauseOver H.Store H.Store.Watch H.Store.Device.history H.Store.Frozen.content H.Store.Frozen.name (λ file. H.Store.Frozen.size file) (Some asked.now) (I.left source.old) (I.left source.new) (I.faults source.old) (I.faults source.new) (O.faults sink.old) (O.faults sink.new) (H.faults shelf.old) (H.faults shelf.new) (H.files shelf.old) (H.kit_faults shelf.old) result.fault result.kits.items (λ kit. H.Store.history kit.store) (faults_in (λ w. H.Store.Watch.counts w)) }
{
    let options = options_asked(asked);
    // The room for the kits and the engines, and the share of the pace, are taken before the first kit is.
    let kits = match Vec::with_capacity(alloc, options.partitions as usize) {
        Ok(kits) => kits,
        Err(_) => return Served::of(Some(RunFault::Memory), Vec::new(alloc)),
    };
    let mut engines = match Engines::with_capacity(alloc, options.partitions) {
        Ok(engines) => engines,
        Err(_) => return Served::of(Some(RunFault::Memory), kits),
    };
    let pace = match Arc::new(alloc, pace) {
        Ok(pace) => pace,
        Err(_) => return Served::of(Some(RunFault::Memory), kits),
    };
    match open_all(rt, alloc, &options, &pace, shelf, &mut engines) {
        Ok(()) => {
            let (kits, fault) = serve_over(rt, alloc, asked, source, sink, engines, kits, pace);
            Served::of(fault, kits)
        }
        Err(NotOpened { kit, fault }) => {
            let closed = close_all(rt, alloc, engines, with_kit(kits, kit));
            Served::of(Some(fault), closed.kits)
        }
    }
}

// The kit, where there is one, in the room that was taken for it.
fn with_kit<S: Store>(kits: Vec<Kit<S>>, kit: Option<Kit<S>>) -> Vec<Kit<S>>
    requires none { kits.items ≡ [] }
    requires room { vec_len kits < vec_capacity kits }
    ensures items { result.items ≡ option_to_list kit }
    ensures room { vec_capacity kits ≤ vec_capacity result }
{
    let mut kits = kits;
    if let Some(kit) = kit {
        if kits.push(kit).is_err() {
            unreachable!();
        }
    }
    kits
}

// Answers what is asked for over the engines of the partitions, and closes them. A job that fails behind all lines ends the run as
// one does behind a window.
fn serve_over<
    R: Threads + Wait + Sync,
    I: Source<O>,
    O: Sink,
    S: Store + 'static,
    P: Pace + 'static,
>(
    rt: &R,
    alloc: Global,
    asked: &Invocation,
    source: &mut I,
    sink: &mut O,
    engines: Engines<S, P>,
    kits: Vec<Kit<S>>,
    pace: Arc<P>,
) -> (Vec<Kit<S>>, Option<RunFault>)
where
    S::Device: 'static,
    S::Frozen: 'static,
    S::Watch: 'static,
    requires partitions { (0 < (options_asked asked.now).partitions) × ((options_asked asked.now).partitions ≤ 16) }
    requires some { 0 < (options_asked asked.now).window }
    requires limit { (options_asked asked.now).window ≤ 4096 }
    requires merge { (2 ≤ (options_asked asked.now).merge) × ((options_asked asked.now).merge ≤ 9) }
    requires memory { empty_size < (options_asked asked.now).memory }
    requires few { AreFewCommands asked.now }
    requires all { length engines ≡ (options_asked asked.now).partitions }
    requires none { kits.items ≡ [] }
    requires room { (options_asked asked.now).partitions ≤ vec_capacity kits }
    requires numbered { EachFrom (λ p e. (settings e).here ≡ partition_at p (options_asked asked.now).partitions) 0 engines }
    requires begun { All (IsBegun ⟦<S as Seen>⟧.eyes (options_asked asked.now)) engines }
    ensures ran { (first : Sight) (files : ℕ → List Disk) → IsFirst first → StandAt ⟦<S as Seen>⟧.eyes engines first
        → AskedOver asked.now result.1 first files (I.left source.old) (I.left source.new) (O.taken sink.old) (O.taken sink.new) (map (λ kit. S.history kit.store) result.0.items) }
    ensures unread { IsRun (Some asked.now) ⊎ (source.new ≡ source.old) }
    ensures prompt { (first : Sight) → IsFirst first → StandAt ⟦<S as Seen>⟧.eyes engines first
        → AskedPromptly asked.now first (options_asked asked.now).window (O.taken sink.old) (I.moments source.old) (I.moments source.new) }
    ensures kits { length result.0.items ≡ (options_asked asked.now).partitions }
    ensures home { All (λ kit. IfTold (S.history kit.store) AreIn) result.0.items }
    ensures kind { IfSome result.1 IsOfRun }
    ensures read { IfSome result.1 (λ fault. fault ≡ RunFault.Read → Rose (I.faults source.old) (I.faults source.new)) }
    ensures write { IfSome result.1 (λ fault. IsWrite fault → Rose (O.faults sink.old) (O.faults sink.new)) }
    ensures counts { AtEach (λ p e kit. NoneFell (faults_at (λ w. S.Watch.counts w) e) (faults_in (λ w. S.Watch.counts w) kit)) 0 engines result.0.items }
    ensures disk { IfSome result.1 (λ fault. IfDisk fault (λ q. (q < (options_asked asked.now).partitions) × AtEach (λ p e kit. p ≡ q → OneRose (faults_at (λ w. S.Watch.counts w) e) (faults_in (λ w. S.Watch.counts w) kit)) 0 engines result.0.items)) }
    ensures damaged { IfSome result.1 (λ fault. IfDamaged fault (λ q damage. (q < (options_asked asked.now).partitions) × IsMetIn S S.Watch S.Device.history S.Frozen.content (partition_at q (options_asked asked.now).partitions) damage)) }
    ensures spent { result.1 ≡ Some RunFault.Spent → IsInputSpent (Some asked.now) (I.left source.old) (I.left source.new) ⊎ SomeFrom (λ p kit. IfTold (S.history kit.store) HasLastGeneration) 0 result.0.items }
{
    let (engines, answer) = answer_over(rt, alloc, asked, source, sink, engines, pace);
    let closed = close_all(rt, alloc, engines, kits);
    (closed.kits, fault_of(answer, closed.fault))
}

// Answers what is asked for over engines that were opened. A scan that is out at the end is waited for: where it failed, and
// nothing else had, the run ends by its fault.
fn answer_over<
    R: Threads + Wait + Sync,
    I: Source<O>,
    O: Sink,
    S: Store + 'static,
    P: Pace + 'static,
>(
    rt: &R,
    alloc: Global,
    asked: &Invocation,
    source: &mut I,
    sink: &mut O,
    engines: Engines<S, P>,
    pace: Arc<P>,
) -> (Engines<S, P>, Result<(), RunFault>)
where
    S::Device: 'static,
    S::Frozen: 'static,
    S::Watch: 'static,
    requires works { MayAsk S.history S.Device.history S.Frozen.content engines }
    requires unwritten { AreUnwritten engines }
    requires some { 0 < (options_asked asked.now).window }
    requires limit { (options_asked asked.now).window ≤ 4096 }
    requires few { AreFewCommands asked.now }
    ensures ran { (first : Sight) → IsFirst first → StandAt ⟦<S as Seen>⟧.eyes engines first → RunsOver asked.now (I.left source.old) (I.left source.new)
        (λ shown unread unread'. RanLeaving shown (StandAt ⟦<S as Seen>⟧.eyes) (λ es only. KeepWorlds ⟦<S as Seen>⟧.eyes only es) (IsSpent S.history S.Device.history S.Frozen.content) (fault_in result.1) first (options_asked asked.now).window unread unread' (O.taken sink.old) (O.taken sink.new) result.0) }
    ensures unread { IsRun (Some asked.now) ⊎ (source.new ≡ source.old) }
    ensures prompt { (first : Sight) → IsFirst first → StandAt ⟦<S as Seen>⟧.eyes engines first → AskedPromptly asked.now first (options_asked asked.now).window (O.taken sink.old)
        (I.moments source.old) (I.moments source.new) }
    ensures rests { OnOk result.1 (Rests (λ d. S.Device.size d) result.0) }
    ensures readers { All (λ e. is_some e.engine.part.reader ≡ true) result.0 }
    ensures settings { settings_of result.0 ≡ settings_of engines }
    ensures cause { HasRunCauses (I.faults source.old) (I.faults source.new) (O.faults sink.old) (O.faults sink.new) (faults_of (λ w. S.Watch.counts w) engines) (faults_of (λ w. S.Watch.counts w) result.0) (IsTrueBehind S.history S.Device.history S.Frozen.content result.0) (fault_in result.1) }
    ensures spent { fault_in result.1 ≡ Some RunFault.Spent → IsInputSpent (Some asked.now) (I.left source.old) (I.left source.new) ⊎ IsSpent S.history S.Device.history S.Frozen.content result.0 }
{
    match Keeper::open(rt, alloc, engines, pace) {
        Ok(keeper) => answer_with(rt, alloc, asked, source, sink, keeper),
        Err(engines) => (engines, Err(RunFault::Memory)),
    }
}

// Answers what is asked for, and ends what keeps the documents.
fn answer_with<
    R: Threads + Wait + Sync,
    I: Source<O>,
    O: Sink,
    S: Store + 'static,
    P: Pace + 'static,
>(
    rt: &R,
    alloc: Global,
    asked: &Invocation,
    source: &mut I,
    sink: &mut O,
    keeper: Keeper<S, P>,
) -> (Engines<S, P>, Result<(), RunFault>)
where
    S::Device: 'static,
    S::Frozen: 'static,
    S::Watch: 'static,
    requires works { MayServe S.history S.Device.history S.Frozen.content keeper }
    requires some { 0 < (options_asked asked.now).window }
    requires limit { (options_asked asked.now).window ≤ 4096 }
    requires few { AreFewCommands asked.now }
    ensures ran { (first : Sight) → ServesAt ⟦<S as Seen>⟧.eyes keeper first → RunsOver asked.now (I.left source.old) (I.left source.new)
        (λ shown unread unread'. RanLeaving shown (StandAt ⟦<S as Seen>⟧.eyes) (λ es only. KeepWorlds ⟦<S as Seen>⟧.eyes only es) (IsSpent S.history S.Device.history S.Frozen.content) (fault_in result.1) first (options_asked asked.now).window unread unread' (O.taken sink.old) (O.taken sink.new) result.0) }
    ensures unread { IsRun (Some asked.now) ⊎ (source.new ≡ source.old) }
    ensures prompt { (first : Sight) → ServesAt ⟦<S as Seen>⟧.eyes keeper first → AskedPromptly asked.now first (options_asked asked.now).window (O.taken sink.old)
        (I.moments source.old) (I.moments source.new) }
    ensures rests { OnOk result.1 (Rests (λ d. S.Device.size d) result.0) }
    ensures readers { All (λ e. is_some e.engine.part.reader ≡ true) result.0 }
    ensures settings { settings_of result.0 ≡ settings_kept keeper }
    ensures cause { HasRunCauses (I.faults source.old) (I.faults source.new) (O.faults sink.old) (O.faults sink.new) (faults_kept (λ w. S.Watch.counts w) keeper) (faults_of (λ w. S.Watch.counts w) result.0) (IsTrueBehind S.history S.Device.history S.Frozen.content result.0) (fault_in result.1) }
    ensures spent { fault_in result.1 ≡ Some RunFault.Spent → IsInputSpent (Some asked.now) (I.left source.old) (I.left source.new) ⊎ IsSpent S.history S.Device.history S.Frozen.content result.0 }
{
    let options = options_asked(asked);
    let mut session = Session::new(alloc, keeper, options.window as usize);
    let answer = answer_asked(rt, alloc, asked, &mut session, source, sink);
    let (engines, ended) = session.into_keeper().end(rt);
    (engines, with_fault(answer, ended))
}

// How a run ended whose lines were answered so, and whose scan at the end had this fault, or none.
fn with_fault(answer: Result<(), RunFault>, ended: Option<RunFault>) -> Result<(), RunFault>
    ensures { result ≡ answer_behind answer ended }
{
    match answer {
        Err(fault) => Err(fault),
        Ok(()) => match ended {
            Some(fault) => Err(fault),
            None => Ok(()),
        },
    }
}

// By which fault a run ended whose lines were answered so, and whose engines ended by this fault, or by none.
fn fault_of(answer: Result<(), RunFault>, ended: Option<RunFault>) -> Option<RunFault>
    ensures { result ≡ fault_behind answer ended }
{
    match answer {
        Err(fault) => Some(fault),
        Ok(()) => ended,
    }
}

// What the words ask for.
fn asked_by(alloc: Global, words: &[Text]) -> Result<Invocation, RunFault>
    ensures ok { IfOk result (λ asked. invocation_of words.now ≡ Some asked) }
    ensures usage { IsErrOf result RunFault.Usage → invocation_of words.now ≡ None }
    ensures kinds { IfErr result (λ fault. (fault ≡ RunFault.Usage) ⊎ (fault ≡ RunFault.Memory)) }
{
    match invocation(alloc, words) {
        Ok(asked) => Ok(asked),
        Err(WordsFault::Usage) => Err(RunFault::Usage),
        Err(WordsFault::Memory) => Err(RunFault::Memory),
    }
}

// The options of what is asked for.
fn options_asked(asked: &Invocation) -> Options
    ensures { result ≡ options_asked asked.now }
{
    match asked {
        Invocation::Run(options) => *options,
        Invocation::Demo { options, .. } => *options,
    }
}

// Answers the lines of a run, or those of a demonstration.
fn answer_asked<
    R: Threads + Wait + Sync,
    I: Source<O>,
    O: Sink,
    S: Store + 'static,
    P: Pace + 'static,
>(
    rt: &R,
    alloc: Global,
    asked: &Invocation,
    session: &mut Session<Keeper<S, P>>,
    source: &mut I,
    sink: &mut O,
) -> Result<(), RunFault>
where
    S::Device: 'static,
    S::Frozen: 'static,
    S::Watch: 'static,
    requires few { AreFewCommands asked.now }
    requires ready { IsReady (MayServe S.history S.Device.history S.Frozen.content) session.old }
    requires requests { requests_of session.old.window ≡ [] }
    requires bytes { session.old.window.bytes ≡ 0 }
    ensures ran { (first : Sight) → ServesAt ⟦<S as Seen>⟧.eyes session.old.keeper first → RunsOver asked.now (I.left source.old) (I.left source.new)
        (λ shown unread unread'. RanLeaving shown (ServesAt ⟦<S as Seen>⟧.eyes) (FailsAt ⟦<S as Seen>⟧.eyes) (HasSpent S.history S.Device.history S.Frozen.content) (fault_in result) first session.old.window.limit unread unread' (O.taken sink.old) (O.taken sink.new) session.new.keeper) }
    ensures unread { IsRun (Some asked.now) ⊎ (source.new ≡ source.old) }
    ensures prompt { (first : Sight) → ServesAt ⟦<S as Seen>⟧.eyes session.old.keeper first → AskedPromptly asked.now first session.old.window.limit (O.taken sink.old)
        (I.moments source.old) (I.moments source.new) }
    ensures rests { OnOk result (AllRest (λ d. S.Device.size d) session.new.keeper) }
    ensures settings { settings_kept session.new.keeper ≡ settings_kept session.old.keeper }
    ensures cause { HasRunCauses (I.faults source.old) (I.faults source.new) (O.faults sink.old) (O.faults sink.new) (faults_kept (λ w. S.Watch.counts w) session.old.keeper) (faults_kept (λ w. S.Watch.counts w) session.new.keeper) (IsTrueHere S.history S.Device.history S.Frozen.content session.new.keeper) (fault_in result) }
    ensures spent { fault_in result ≡ Some RunFault.Spent → IsInputSpent (Some asked.now) (I.left source.old) (I.left source.new) ⊎ HasSpent S.history S.Device.history S.Frozen.content session.new.keeper }
{
    match asked {
        Invocation::Run(_) => answer_lines(rt, alloc, session, source, sink),
        Invocation::Demo { commands, .. } => answer_demo(rt, alloc, *commands, session, sink),
    }
}

/// Answers the lines of the source, in the windows of the session.
pub fn answer_lines<
    R: Threads + Wait + Sync,
    I: Source<O>,
    O: Sink,
    S: Store + 'static,
    P: Pace + 'static,
>(
    rt: &R,
    alloc: Global,
    session: &mut Session<Keeper<S, P>>,
    source: &mut I,
    sink: &mut O,
) -> Result<(), RunFault>
where
    S::Device: 'static,
    S::Frozen: 'static,
    S::Watch: 'static,
    requires ready { IsReady (MayServe S.history S.Device.history S.Frozen.content) session.old }
    requires requests { requests_of session.old.window ≡ [] }
    requires bytes { session.old.window.bytes ≡ 0 }

    // What was read and written, and what is left of the store, from whatever world it stood at.
    ensures ran { (first : Sight) → ServesAt ⟦<S as Seen>⟧.eyes session.old.keeper first → RanLeaving each_line (ServesAt ⟦<S as Seen>⟧.eyes) (FailsAt ⟦<S as Seen>⟧.eyes) (HasSpent S.history S.Device.history S.Frozen.content) (fault_in result) first session.old.window.limit
        (I.left source.old) (I.left source.new) (O.taken sink.old) (O.taken sink.new) session.new.keeper }
    ensures prompt { (first : Sight) → ServesAt ⟦<S as Seen>⟧.eyes session.old.keeper first → ReadsPromptly first session.old.window.limit (O.taken sink.old)
        (I.moments source.old) (I.moments source.new) }
    ensures rests { OnOk result (AllRest (λ d. S.Device.size d) session.new.keeper) }
    ensures settings { settings_kept session.new.keeper ≡ settings_kept session.old.keeper }
    ensures cause { HasRunCauses (I.faults source.old) (I.faults source.new) (O.faults sink.old) (O.faults sink.new) (faults_kept (λ w. S.Watch.counts w) session.old.keeper) (faults_kept (λ w. S.Watch.counts w) session.new.keeper) (IsTrueHere S.history S.Device.history S.Frozen.content session.new.keeper) (fault_in result) }
{
    let mut lines = Lines::new(alloc, MAX_LINE);
    session.begin(rt, alloc)?;
    // A line takes a byte of the input at least, and no input has so many bytes.
    for _ in 0..u64::MAX {
        if !answer_line(rt, alloc, &mut lines, session, source, sink)? {
            return Ok(());
        }
    }
    Err(RunFault::Memory)
}

// Takes the next line, and answers whether more may come. At the end of the input the last window is answered.
fn answer_line<
    R: Threads + Wait + Sync,
    I: Source<O>,
    O: Sink,
    S: Store + 'static,
    P: Pace + 'static,
>(
    rt: &R,
    alloc: Global,
    lines: &mut Lines,
    session: &mut Session<Keeper<S, P>>,
    source: &mut I,
    sink: &mut O,
) -> Result<bool, RunFault>
where
    S::Device: 'static,
    S::Frozen: 'static,
    S::Watch: 'static,
    requires works { lines.old.failed ≡ false }
    requires limit { lines.old.limit ≡ MAX_LINE }
    requires ready { IsReady (MayServe S.history S.Device.history S.Frozen.content) session.old }
    ensures works { OnOk result (lines.new.failed ≡ false) }
    ensures limit { lines.new.limit ≡ MAX_LINE }
    ensures ready { IfOk result (λ more. more ≡ true → IsReady (MayServe S.history S.Device.history S.Frozen.content) session.new) }
    ensures rests { IfOk result (λ more. more ≡ false → AllRest (λ d. S.Device.size d) session.new.keeper) }
    ensures window { OnOk result (session.new.window.limit ≡ session.old.window.limit) }

    // Behind the lines that came before, one more came, or the input is answered, or the run has failed.
    ensures more { IfOk result (λ more. Goes (ServesAt ⟦<S as Seen>⟧.eyes) (FailsAt ⟦<S as Seen>⟧.eyes) (HasSpent S.history S.Device.history S.Frozen.content) more
        lines.old session.old (I.left source.old) (O.taken sink.old) (I.moments source.old)
        lines.new session.new (I.left source.new) (O.taken sink.new) (I.moments source.new)) }
    ensures fault { IfErr result (λ fault. Ends (ServesAt ⟦<S as Seen>⟧.eyes) (FailsAt ⟦<S as Seen>⟧.eyes) (HasSpent S.history S.Device.history S.Frozen.content) fault lines.old session.old
        (I.left source.old) (I.left source.new) (O.taken sink.old) (O.taken sink.new)
        (I.moments source.old) session.new) }

    // Each read for the line was asked for when all windows before it were answered, and no more.
    ensures prompt { AsksPromptly (ServesAt ⟦<S as Seen>⟧.eyes) lines.old session.old (I.left source.old) (O.taken sink.old)
        (I.moments source.old) (I.moments source.new) }

    ensures settings { settings_kept session.new.keeper ≡ settings_kept session.old.keeper }
    ensures cause { HasRunCauses (I.faults source.old) (I.faults source.new) (O.faults sink.old) (O.faults sink.new) (faults_kept (λ w. S.Watch.counts w) session.old.keeper) (faults_kept (λ w. S.Watch.counts w) session.new.keeper) (IsTrueHere S.history S.Device.history S.Frozen.content session.new.keeper) (fault_in result) }
{
    match lines.next(source, sink) {
        Line::Whole(line) => {
            session.take_whole(rt, alloc, line, sink)?;
            Ok(true)
        }
        Line::Oversized => {
            session.take_oversized(rt, alloc, sink)?;
            Ok(true)
        }
        Line::End => {
            session.close(rt, alloc, sink)?;
            Ok(false)
        }
        Line::ReadFault => Err(RunFault::Read),
        Line::Spent => Err(RunFault::Spent),
        Line::Memory => Err(RunFault::Memory),
    }
}
