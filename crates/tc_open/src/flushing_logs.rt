//! The logs above the components are flushed as one component.

ghost use Rattle.std.specs.Arc.{arc_value};
ghost use Rattle.std.specs.Prelude.{◌≡◌, ◌+◌, ◌<◌, ◌≤◌, ◌^◌, ℕ, [], List, length, map, All, IfErr, IfOk, IfSome, IsErrOf, OnOk, OnErr};
ghost use Rattle.std.specs.List.{AllByRecursion, AllZip};
ghost use Rattle.std.specs.Result.{IsOk};
ghost use Rattle.tc_log.specs.Writes.{IsWrite};
ghost use Rattle.tc_model.specs.Dictionary.{Extends};
ghost use Rattle.tc_store.specs.Counted.{Counts, IsCounted};
ghost use Rattle.tc_store.specs.Disk.{IsThere};
ghost use Rattle.tc_store.specs.DiskFile.{IsSettled, settled_file};
ghost use Rattle.tc_store.specs.Gate.{IsShutOr, IsShutOrWhole};
ghost use Rattle.tc_store.specs.Images.{Image};
ghost use Rattle.tc_store.specs.Moments.{EachSince, IfTold, LeavesAt, LeavesOnly};
ghost use Rattle.tc_store.specs.StoreCalls.{FailsMaking, comes_home, content_now, fresh_file_at, frozen_entry, makes};
ghost use Rattle.tc_component.specs.Loaded.{IsLoadedOf};
ghost use Rattle.tc_component.specs.Rows.{component_bytes, head_of, part_of, IsComponent, IsShortWrite};
ghost use Rattle.tc_component.specs.Spelling.{name_of};
ghost use Rattle.tc_plain_model.specs.Writes.{Write as PlainWrite};
ghost use Rattle.tc_lsm_model.specs.Contents.{Content, Partition};
ghost use Rattle.tc_lsm_model.specs.Flushes.{IsFlush};
ghost use Rattle.tc_lsm_model.specs.Lists.{live, IsList};
ghost use Rattle.tc_lsm_model.specs.Tables.{table_over, Table};
ghost use Rattle.tc_schema_model.specs.Counted.{nothing};
ghost use Rattle.tc_memory.specs.DocumentTables.{IsTableOf};
ghost use Rattle.tc_memory.specs.Table.{IsTable};
ghost use Rattle.tc_flush.specs.Flushable.{CanFlush};
ghost use Rattle.tc_flush.specs.Flushing.{flush_bytes, IsBehind};
ghost use Rattle.tc_list.specs.Intervals.{last_of};
ghost use Rattle.tc_machine.specs.Logs.{all_writes, kept_write};
ghost use Rattle.tc_machine.specs.Writes.{IsStorableWrite};
ghost use Rattle.tc_merge.specs.Faults.{IsWatched};
ghost use Rattle.tc_merge.specs.Merging.{newest_names, newest_schema};
ghost use Rattle.tc_jobs.specs.Faults.{IfDamaged};
ghost use Rattle.tc_jobs.specs.Listing.{behind, FitsBehind, IsListed, IsReadBack, IsUnlisted};
ghost use Rattle.tc_jobs.specs.Lists.{IsListOf};
ghost use Rattle.tc_part_model.specs.Leaving.{KeepsStore};
ghost use Rattle.tc_part_model.specs.PartState.{IsTold};
ghost use Rattle.tc_open.specs.FlushedLogs.{EndsHome, IsBeginDamage, IsFlushGivenUp, IsFlushListed, IsLogsFlushed, IsReplayDamage};
ghost use Rattle.tc_open.specs.BeingOpened.{AreIn, IsOpening, LeavesLogged, stored_by};

use crate::log_inputs::inputs_over;
use crate::replaying::replay;
use std::alloc::Global;
use std::sync::Arc;
use tc_component::{Head, components_are_contents};
use tc_flush::{FlushJob, FlushOut, FlushParts, lists_are_counted};
use tc_jobs::{FlushInputs, JobFault, inputs_are_newest, list_flush};
use tc_list::ComponentList;
use tc_log::Writes;
use tc_memory::tables_keep_documents;
use tc_store::{DeviceFault, Store};

/// What is left of a flush of logs: the watch, and whether its component is listed.
#[derive(Drop)]
pub(crate) struct LogsFlushed<S: Store> {
    pub(crate) watch: S::Watch,
    pub(crate) outcome: Result<(), JobFault>,
}

/// Replays the logs above the components, the oldest first, and lists the component that the table becomes behind the others,
/// also where no write is in them. The logs stay in the store: they are needless then. `Damaged` has the bytes in whose place a
/// record has to stand; or the names of the listed components and of the logs, where the table cannot be over them; or what of
/// the component breaks the rules when it is read back. After an `Err` the list is as it was. `Disk` comes only where the store,
/// a device or a read failed.
pub(crate) fn flush_logs<S: Store>(
    alloc: Global,
    store: &mut S,
    list: &mut ComponentList<S::Frozen>,
    logs: &[Writes],
    head: Head,
    watch: S::Watch,
) -> LogsFlushed<S>
    requires lawful { All (AllByRecursion IsWrite) logs.now }
    requires some { 0 < length logs.now }
    requires from { head.from ≡ last_of list.old + 1 }
    requires to { head.to ≡ last_of list.old + length logs.now }
    requires last { head.to < 2 ^ 63 }
    requires free { IfTold (S.history store.old) (λ disk. IsThere (disk (name_of head)) → ⊥) }

    // On Ok the component holds what the logs leave over the older ones, and the partition is opened so far.
    ensures flushed { (cs : List Content) (ws : List (List PlainWrite)) → IsOpening (part_of head) cs ws (S.history store.old) → AllZip (IsLoadedOf (λ file. S.Frozen.content file)) list.old cs → logs.now ≡ map (λ log. map kept_write log) ws
        → OnOk result.outcome (IsLogsFlushed (λ file. S.Frozen.content file) head cs ws list.new (S.history store.new)) }

    // At each moment of the call a stop leaves what was stored, and so it does behind it, where no file is out.
    ensures moments { (cs : List Content) (ws : List (List PlainWrite)) → IsOpening (part_of head) cs ws (S.history store.old) → AllZip (IsLoadedOf (λ file. S.Frozen.content file)) list.old cs → logs.now ≡ map (λ log. map kept_write log) ws
        → EachSince (LeavesLogged (part_of head) cs ws) (S.history store.old) (S.history store.new) }
    ensures kept { (cs : List Content) (ws : List (List PlainWrite)) → IsOpening (part_of head) cs ws (S.history store.old) → AllZip (IsLoadedOf (λ file. S.Frozen.content file)) list.old cs → logs.now ≡ map (λ log. map kept_write log) ws
        → IfTold (S.history store.new) (λ disk. AreIn disk × KeepsStore (part_of head) (stored_by cs ws) None disk) }

    // So it is over every store.
    ensures listed { OnOk result.outcome (IsFlushListed (λ file. S.Frozen.content file) (λ file. S.Frozen.name file) head list.old list.new (S.history store.old) (S.history store.new)) }
    ensures partition { OnOk result.outcome (IsListOf head.number head.count list.old → IsListOf head.number head.count list.new) }
    ensures left { OnErr result.outcome ((list.new ≡ list.old) × IsFlushGivenUp head (S.history store.old) (S.history store.new)) }

    ensures damaged { IfDamaged result.outcome (IsReplayDamage (λ file. S.Frozen.content file) (λ file. S.Frozen.name file) head logs.now list.old) }

    // Where the files are told and lawful, nothing is damaged.
    ensures undamaged { (cs : List Content) (ws : List (List PlainWrite)) → IsOpening (part_of head) cs ws (S.history store.old) → AllZip (IsLoadedOf (λ file. S.Frozen.content file)) list.old cs → logs.now ≡ map (λ log. map kept_write log) ws
        → IfTold (S.history store.old) (λ disk. IfDamaged result.outcome (λ damage. ⊥)) }

    ensures watched { IsWatched (IsErrOf result.outcome JobFault.Disk) (S.Watch.counts watch) (S.Watch.counts result.watch) }
{
    inputs_are_newest::<S::Frozen>();
    tables_keep_documents();
    let mut watch = watch;
    match begin_flush(alloc, store, list, logs, head, &mut watch) {
        Ok(begun) => end_flush(
            alloc,
            store,
            list,
            head,
            run_flush(alloc, begun, head, watch),
        ),
        Err(fault) => LogsFlushed {
            watch,
            outcome: Err(fault),
        },
    }
}

/// What a flush of logs begins with beside its header and its watch: the table, the newest schema and names, and a fresh
/// device.
#[derive(Drop)]
struct Begun<S: Store> {
    inputs: FlushInputs,
    device: S::Device,
}

/// Replays the logs, and makes the device of their component.
fn begin_flush<S: Store>(
    alloc: Global,
    store: &mut S,
    list: &ComponentList<S::Frozen>,
    logs: &[Writes],
    head: Head,
    watch: &mut S::Watch,
) -> Result<Begun<S>, JobFault>
    requires lawful { All (AllByRecursion IsWrite) logs.now }
    requires some { 0 < length logs.now }
    requires order { head.from ≤ head.to }
    requires last { head.to < 2 ^ 63 }
    requires free { IfTold (S.history store.old) (λ disk. IsThere (disk (name_of head)) → ⊥) }
    ensures table { (part : Partition) (cs : List Content) (ws : List (List PlainWrite)) → IsList part cs → AllZip (IsLoadedOf (λ file. S.Frozen.content file)) list.now cs → logs.now ≡ map (λ log. map kept_write log) ws → All IsStorableWrite (all_writes ws)
        → IfOk result (λ begun. IsTableOf (table_over (live cs) (all_writes ws)) (arc_value begun.inputs.sealed)) }
    ensures lawful { IfOk result (λ begun. IsTable (arc_value begun.inputs.sealed)) }
    ensures names { IfOk result (λ begun. begun.inputs.names ≡ newest_names [] list.now) }
    ensures schema { IfOk result (λ begun. begun.inputs.schema ≡ newest_schema nothing list.now) }
    ensures can { IfOk result (λ begun. (t : Table) → IsTableOf t (arc_value begun.inputs.sealed) → CanFlush begun.inputs.names begun.inputs.schema t) }
    ensures empty { IfOk result (λ begun. S.Device.size begun.device ≡ 0) }
    ensures name { IfOk result (λ begun. S.Device.name begun.device ≡ name_of head) }
    ensures file { IfOk result (λ begun. S.Device.history begun.device ≡ fresh_file_at (name_of head) (S.history store.old)) }
    ensures made { OnOk result (S.history store.new ≡ makes (name_of head) (S.history store.old)) }
    ensures failed { OnErr result (FailsMaking (name_of head) (S.history store.old) (S.history store.new)) }
    ensures damaged { IfDamaged result (IsBeginDamage (λ file. S.Frozen.content file) head logs.now list.now) }
    ensures undamaged { (cs : List Content) (ws : List (List PlainWrite)) → IsOpening (part_of head) cs ws (S.history store.old) → AllZip (IsLoadedOf (λ file. S.Frozen.content file)) list.now cs → logs.now ≡ map (λ log. map kept_write log) ws
        → IfDamaged result (λ damage. ⊥) }
    ensures watched { IsWatched (IsErrOf result JobFault.Disk) (S.Watch.counts watch.old) (S.Watch.counts watch.new) }
{
    components_are_contents();
    inputs_are_newest::<S::Frozen>();
    lists_are_counted();
    let table = replay(alloc, list, logs, watch)?;
    let _entries = table.len();
    let sealed = Arc::new(alloc, table.seal())?;
    let inputs = inputs_over(alloc, &sealed, list, head)?;
    let device = store.fresh(alloc, head.file_name(), watch)?;
    Ok(Begun { inputs, device })
}

/// Writes the component.
fn run_flush<S: Store>(alloc: Global, begun: Begun<S>, head: Head, watch: S::Watch) -> FlushOut<S>
    requires can { (t : Table) → IsTableOf t (arc_value begun.inputs.sealed) → CanFlush begun.inputs.names begun.inputs.schema t }
    requires lawful { IsTable (arc_value begun.inputs.sealed) }
    requires empty { S.Device.size begun.device ≡ 0 }
    ensures settled { IsOk result.outcome → IfTold (S.Device.history result.device) IsSettled }
    ensures whole { IsOk result.outcome → (t : Table) → IsTableOf t (arc_value begun.inputs.sealed) → IfTold (S.Device.history result.device) (λ f. f ≡ settled_file (flush_bytes head begun.inputs.names begun.inputs.schema t)) }
    ensures flushed { (cs : List Content) (t : Table) (generations : ℕ) → IsBehind cs t generations head begun.inputs.names begun.inputs.schema (arc_value begun.inputs.sealed)
        → (c : Content) × IsFlush (part_of head) cs t generations c × All IsShortWrite c.entries × (component_bytes c ≡ flush_bytes head begun.inputs.names begun.inputs.schema t) }
    ensures moments { (before : Image) (t : Table) → IsTableOf t (arc_value begun.inputs.sealed) → IfTold (S.Device.history begun.device) (LeavesAt (IsShutOr before))
        → LeavesOnly (IsShutOrWhole before (flush_bytes head begun.inputs.names begun.inputs.schema t)) (S.Device.history begun.device) (S.Device.history result.device) }
    ensures tells { (before : Image) → IfTold (S.Device.history begun.device) (LeavesAt (IsShutOr before)) → IsTold (S.Device.history begun.device) → IsTold (S.Device.history result.device) }
    ensures size { IsOk result.outcome → S.Device.size result.device < 2 ^ 63 }
    ensures name { S.Device.name result.device ≡ S.Device.name begun.device }
    ensures watched { IsCounted (IsErrOf result.outcome DeviceFault.Fault) (S.Watch.counts watch) (S.Watch.counts result.watch) }
{
    tables_keep_documents();
    let Begun { inputs, device } = begun;
    let FlushInputs {
        sealed,
        schema,
        names,
    } = inputs;
    FlushJob::new(FlushParts {
        sealed,
        schema,
        names,
        device,
        head,
        watch,
    })
    .run(alloc)
}

/// Lists what a flush made, where it is whole.
fn end_flush<S: Store>(
    alloc: Global,
    store: &mut S,
    list: &mut ComponentList<S::Frozen>,
    head: Head,
    out: FlushOut<S>,
) -> LogsFlushed<S>
    requires settled { IsOk out.outcome → IfTold (S.Device.history out.device) IsSettled }
    requires from { head.from ≡ last_of list.old + 1 }
    ensures listed { OnOk result.outcome (IsListed (IsReadBack (λ file. S.Frozen.content file) (λ file. S.Frozen.name file) head (S.Device.name out.device) (S.Device.history out.device)) (FitsBehind list.old) (behind list.old) list.new) }
    ensures partition { OnOk result.outcome (IsListOf head.number head.count list.old → IsListOf head.number head.count list.new) }
    ensures still { OnOk result.outcome (S.history store.new ≡ comes_home (S.Device.name out.device) frozen_entry (S.Device.history out.device) (S.history store.old)) }
    ensures whole { OnOk result.outcome (IsOk out.outcome) }
    ensures unlisted { OnErr result.outcome (list.new ≡ list.old) }
    ensures home { OnErr result.outcome (EndsHome (IsOk out.outcome) (S.Device.name out.device) (S.Device.history out.device) (S.history store.old) (S.history store.new)) }
    ensures damaged { IfDamaged result.outcome (IsUnlisted (IsReadBack (λ file. S.Frozen.content file) (λ file. S.Frozen.name file) head (S.Device.name out.device) (S.Device.history out.device)) (FitsBehind list.old) head (S.Device.size out.device) (S.Device.history out.device)) }
    ensures sound { IfSome (content_now (S.Device.history out.device)) (λ bytes. (c : Content) → IsComponent c bytes → head_of c ≡ head → Extends c.names (newest_names [] list.old) → IfDamaged result.outcome (λ damage. ⊥)) }
    ensures unmade { IfErr out.outcome (λ cause. IfDamaged result.outcome (λ damage. ⊥)) }
    ensures watched { (old : Counts) → IsCounted (IsErrOf out.outcome DeviceFault.Fault) old (S.Watch.counts out.watch) → IsWatched (IsErrOf result.outcome JobFault.Disk) old (S.Watch.counts result.watch) }
{
    let FlushOut {
        watch,
        device,
        outcome,
    } = out;
    let mut watch = watch;
    if let Err(cause) = outcome {
        store.abandon(device);
        return LogsFlushed {
            watch,
            outcome: Err(cause.into()),
        };
    }
    let outcome = list_flush(alloc, store, list, device, head, &mut watch);
    LogsFlushed { watch, outcome }
}
