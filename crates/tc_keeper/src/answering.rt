//! What the keeper asks of all engines at once: a fault of theirs is how the run ends.

ghost use Rattle.std.specs.Prelude.{◌≡◌, ◌≤◌, ◌∷◌, ℕ, [], length, map, zip, All, None, Option, IfErr, IfOk, OnErr, OnOk};
ghost use Rattle.serde_json.specs.Written.{compact_text};
ghost use Rattle.tc_keeper.specs.Calls.{faults_of, settings_of, IsTrueOf, MayAsk, Rests};
ghost use Rattle.tc_keeper.specs.Faults.{fault_in, HasDiskCause, IsNoDamage, IsOfStore};
ghost use Rattle.tc_keeper.specs.Partitions.{fault_of_engines, window_fault_at, window_fault_of, StandAt};
ghost use Rattle.tc_keeper.specs.Places.{AtEach};
ghost use Rattle.tc_keeper.specs.SchemaTexts.{AreJsonTexts};
ghost use Rattle.tc_keeper.specs.Sight.{sees, sight_after, whole_of, Sight};
ghost use Rattle.tc_keeper.specs.Standing.{HoldWorld, KeepWorlds};
ghost use Rattle.tc_keeper.specs.Together.{requests_routed, AreTogether};
ghost use Rattle.tc_log.specs.Layout.{empty_size};
ghost use Rattle.tc_model.specs.Keyed.{values_in};
ghost use Rattle.tc_plain_model.specs.Store.{documents};
ghost use Rattle.tc_request_model.specs.Rendered.{schemas};
ghost use Rattle.tc_request_model.specs.Request.{flush, schema};
ghost use Rattle.tc_route.specs.Meaning.{rendered_in, routed_of};
ghost use Rattle.tc_route.specs.Shares.{share};
ghost use Rattle.tc_run_model.specs.Known.{MayRender};
ghost use Rattle.tc_run_model.specs.World.{World, after_all};
ghost use Rattle.tc_schema_model.specs.SchemaText.{schema_text};
ghost use Rattle.tc_work.specs.Committed.{HasFramed};

use crate::engines::Engines;
use crate::engines_fault::EnginesFault;
use crate::fault::{RunFault, of_engine};
use std::alloc::Global;
use std::thread::Threads;
use tc_command::Schemas;
use tc_log::Write;
use tc_record::record_within_weight;
use tc_route::{Replies, Routed};
use tc_running::Pace;
use tc_store::Store;
use tc_work::{EngineFault, Seen};

/// Answers commands for partitions, one reply a command and in their order, in which a get or a query sees the writes
/// before it, and keeps what they write. It hands out the frames in which they were written, one a partition.
pub(crate) fn answer_window<R: Threads + Sync, S: Store, P: Pace>(
    rt: &R,
    alloc: Global,
    engines: &mut Engines<S, P>,
    commands: Vec<Routed>,
    frames: &mut Vec<Vec<Write>>,
) -> Result<Replies, RunFault>
    requires works { MayAsk S.history S.Device.history S.Frozen.content engines.old }
    requires together { AreTogether commands.items }
    ensures works { OnOk result (MayAsk S.history S.Device.history S.Frozen.content engines.new) }
    ensures replies { (known : Sight) → StandAt ⟦<S as Seen>⟧.eyes engines.old known → IfOk result (λ replies. MayRender (requests_routed commands.items) (whole_of known) (values_in (rendered_in replies))) }
    ensures held { (known : Sight) → StandAt ⟦<S as Seen>⟧.eyes engines.old known → OnOk result (StandAt ⟦<S as Seen>⟧.eyes engines.new (sight_after (requests_routed commands.items) known)) }
    ensures failed { (only : Option ℕ) (w : World) → StandAt ⟦<S as Seen>⟧.eyes engines.old (sees only w) → OnErr result (KeepWorlds ⟦<S as Seen>⟧.eyes only engines.new w (after_all (requests_routed commands.items) w)) }
    ensures undamaged { (only : Option ℕ) (w : World) → StandAt ⟦<S as Seen>⟧.eyes engines.old (sees only w) → IfErr result (IsNoDamage only) }
    ensures kinds { IfErr result IsOfStore }
    ensures frames { OnOk result (AtEach (λ p run frame. HasFramed ⟦<S as Seen>⟧.eyes (share (length engines.old) p (map routed_of commands.items)) run.0.engine run.1.engine frame.items) 0 (zip engines.old engines.new) frames.new.items) }
    ensures readers { AtEach (λ p old new. new.engine.part.reader ≡ old.engine.part.reader) 0 engines.old engines.new }
    ensures settings { settings_of engines.new ≡ settings_of engines.old }
    ensures cause { HasDiskCause (faults_of (λ w. S.Watch.counts w) engines.old) (faults_of (λ w. S.Watch.counts w) engines.new) (IsTrueOf S.history S.Device.history S.Frozen.content engines.new) (fault_in result) }
{
    record_within_weight();
    match engines.window(rt, alloc, commands, frames) {
        Ok(replies) => Ok(replies),
        Err(fault) => Err(of_window(fault)),
    }
}

/// Moves documents from memory into files, and puts files together, where it is time, by jobs beside what follows.
pub(crate) fn settle_all<R: Threads, S: Store + 'static, P: Pace + 'static>(
    rt: &R,
    alloc: Global,
    engines: &mut Engines<S, P>,
) -> Result<(), RunFault>
where
    S::Device: 'static,
    S::Frozen: 'static,
    S::Watch: 'static,
    requires works { MayAsk S.history S.Device.history S.Frozen.content engines.old }
    ensures works { OnOk result (MayAsk S.history S.Device.history S.Frozen.content engines.new) }
    ensures rests { OnOk result (Rests (λ d. S.Device.size d) engines.new) }
    ensures held { (known : Sight) → StandAt ⟦<S as Seen>⟧.eyes engines.old known → OnOk result (StandAt ⟦<S as Seen>⟧.eyes engines.new known) }
    ensures failed { (only : Option ℕ) (w : World) → StandAt ⟦<S as Seen>⟧.eyes engines.old (sees only w) → OnErr result (KeepWorlds ⟦<S as Seen>⟧.eyes only engines.new w w) }
    ensures undamaged { (only : Option ℕ) (w : World) → StandAt ⟦<S as Seen>⟧.eyes engines.old (sees only w) → IfErr result (IsNoDamage only) }
    ensures kinds { IfErr result IsOfStore }
    ensures readers { AtEach (λ p old new. new.engine.part.reader ≡ old.engine.part.reader) 0 engines.old engines.new }
    ensures settings { settings_of engines.new ≡ settings_of engines.old }
    ensures cause { HasDiskCause (faults_of (λ w. S.Watch.counts w) engines.old) (faults_of (λ w. S.Watch.counts w) engines.new) (IsTrueOf S.history S.Device.history S.Frozen.content engines.new) (fault_in result) }
{
    match engines.settle(rt, alloc) {
        Ok(()) => Ok(()),
        Err(fault) => Err(of_engines(fault)),
    }
}

/// Moves all documents from memory into files.
pub(crate) fn flush_all<R: Threads, S: Store + 'static, P: Pace + 'static>(
    rt: &R,
    alloc: Global,
    engines: &mut Engines<S, P>,
) -> Result<(), RunFault>
where
    S::Device: 'static,
    S::Frozen: 'static,
    S::Watch: 'static,
    requires works { MayAsk S.history S.Device.history S.Frozen.content engines.old }
    ensures works { OnOk result (MayAsk S.history S.Device.history S.Frozen.content engines.new) }
    ensures emptied { OnOk result (All (λ e. S.Device.size e.engine.part.log.device ≤ empty_size) engines.new) }
    ensures none_sealed { OnOk result (All (λ e. e.engine.part.sealed ≡ None) engines.new) }
    ensures held { (known : Sight) → StandAt ⟦<S as Seen>⟧.eyes engines.old known → OnOk result (StandAt ⟦<S as Seen>⟧.eyes engines.new (sight_after (flush ∷ []) known)) }
    ensures failed { (only : Option ℕ) (w : World) → StandAt ⟦<S as Seen>⟧.eyes engines.old (sees only w) → OnErr result (KeepWorlds ⟦<S as Seen>⟧.eyes only engines.new w w) }
    ensures undamaged { (only : Option ℕ) (w : World) → StandAt ⟦<S as Seen>⟧.eyes engines.old (sees only w) → IfErr result (IsNoDamage only) }
    ensures kinds { IfErr result IsOfStore }
    ensures readers { AtEach (λ p old new. new.engine.part.reader ≡ old.engine.part.reader) 0 engines.old engines.new }
    ensures settings { settings_of engines.new ≡ settings_of engines.old }
    ensures cause { HasDiskCause (faults_of (λ w. S.Watch.counts w) engines.old) (faults_of (λ w. S.Watch.counts w) engines.new) (IsTrueOf S.history S.Device.history S.Frozen.content engines.new) (fault_in result) }
{
    match engines.force_flush(rt, alloc) {
        Ok(()) => Ok(()),
        Err(fault) => Err(of_engines(fault)),
    }
}

/// The schema of each partition, behind a flush.
pub(crate) fn flushed_schemas<R: Threads, S: Store + 'static, P: Pace + 'static>(
    rt: &R,
    alloc: Global,
    engines: &mut Engines<S, P>,
) -> Result<Schemas, RunFault>
where
    S::Device: 'static,
    S::Frozen: 'static,
    S::Watch: 'static,
    requires works { MayAsk S.history S.Device.history S.Frozen.content engines.old }
    ensures works { OnOk result (MayAsk S.history S.Device.history S.Frozen.content engines.new) }
    ensures shown { (known : Sight) → StandAt ⟦<S as Seen>⟧.eyes engines.old known → IfOk result (λ shown. MayRender (schema ∷ []) (whole_of known) (schemas shown ∷ [])) }
    ensures held { (known : Sight) → StandAt ⟦<S as Seen>⟧.eyes engines.old known → OnOk result (StandAt ⟦<S as Seen>⟧.eyes engines.new (sight_after (schema ∷ []) known)) }
    ensures failed { (only : Option ℕ) (w : World) → StandAt ⟦<S as Seen>⟧.eyes engines.old (sees only w) → OnErr result (KeepWorlds ⟦<S as Seen>⟧.eyes only engines.new w w) }
    ensures undamaged { (only : Option ℕ) (w : World) → StandAt ⟦<S as Seen>⟧.eyes engines.old (sees only w) → IfErr result (IsNoDamage only) }
    ensures kinds { IfErr result IsOfStore }
    ensures readers { AtEach (λ p old new. new.engine.part.reader ≡ old.engine.part.reader) 0 engines.old engines.new }
    ensures settings { settings_of engines.new ≡ settings_of engines.old }
    ensures cause { HasDiskCause (faults_of (λ w. S.Watch.counts w) engines.old) (faults_of (λ w. S.Watch.counts w) engines.new) (IsTrueOf S.history S.Device.history S.Frozen.content engines.new) (fault_in result) }
{
    match flush_all(rt, alloc, engines) {
        Ok(()) => schemas_of(alloc, engines),
        Err(fault) => Err(fault),
    }
}

// The schemas of the documents in the components, which are all where no table is sealed and no log has a frame. Errs only for want of memory.
fn schemas_of<S: Store, P: Pace>(
    alloc: Global,
    engines: &Engines<S, P>,
) -> Result<Schemas, RunFault>
    ensures shown { (w : World) → HoldWorld ⟦<S as Seen>⟧.eyes None engines.now w → All (λ e. e.engine.part.sealed ≡ None) engines.now → All (λ e. S.Device.size e.engine.part.log.device ≤ empty_size) engines.now
        → IfOk result (λ shown. shown ≡ map (λ part. compact_text (schema_text (documents part.now))) w.parts) }
    ensures json { IfOk result AreJsonTexts }
    ensures memory { IfErr result (λ fault. fault ≡ RunFault.Memory) }
{
    match engines.schemas(alloc) {
        Ok(texts) => Ok(Schemas::of(texts)),
        Err(_) => Err(RunFault::Memory),
    }
}

// The fault of a run whose engines failed in a window. That a number of writes is spent is answered as want of memory, and never
// comes: each of 2^63 writes takes a line, and of an input no more than 2^63 - 1 bytes are read. Nothing here tells it.
fn of_window(fault: EnginesFault) -> RunFault
    ensures { result ≡ window_fault_of fault }
{
    match fault {
        EnginesFault::Of { partition, fault } => of_window_at(partition, fault),
        EnginesFault::Memory => RunFault::Memory,
    }
}

// The same of the engine of a partition.
fn of_window_at(partition: u32, fault: EngineFault) -> RunFault
    ensures { result ≡ window_fault_at partition fault }
{
    match fault {
        EngineFault::Spent => RunFault::Memory,
        other => of_engine(partition, other),
    }
}

// The fault of a run whose engines failed in another call.
fn of_engines(fault: EnginesFault) -> RunFault
    ensures { result ≡ fault_of_engines fault }
{
    match fault {
        EnginesFault::Of { partition, fault } => of_engine(partition, fault),
        EnginesFault::Memory => RunFault::Memory,
    }
}
