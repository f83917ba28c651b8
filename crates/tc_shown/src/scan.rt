//! A scan over all partitions: what it begins with, its run, and what is left of it.

ghost use Rattle.std.specs.Prelude.{◌≡◌, ◌<◌, ◌^◌, List, All, length, map, IfErr, IfOk, IsErrOf};
ghost use Rattle.std.specs.List.{AllZip};
ghost use Rattle.tc_bytes.specs.Counts.{Rose};
ghost use Rattle.tc_command.specs.Commands.{ask_of};
ghost use Rattle.tc_component.specs.Loaded.{IsLoadedOf};
ghost use Rattle.tc_log.specs.Writes.{IsWrite};
ghost use Rattle.tc_lsm_model.specs.Contents.{Content};
ghost use Rattle.tc_request_model.specs.Rows.{rows_over};
ghost use Rattle.tc_request_model.specs.Rendered.{row_text};
ghost use Rattle.tc_request_model.specs.Reply.{Row};
ghost use Rattle.tc_plain_model.specs.Writes.{Pairs};
ghost use Rattle.tc_query.specs.Faults.{OfDamage, IsHarmIn, IsUnharmed};
ghost use Rattle.tc_run_model.specs.World.{united};
ghost use Rattle.tc_view.specs.Changes.{showing_in};
ghost use Rattle.tc_view.specs.Holding.{Holds};
ghost use Rattle.tc_view.specs.Places.{kept_by, shown_by};
ghost use Rattle.tc_shown.specs.Scans.{AreOwn, HasScanned, IsFaultOf, IsRead, IsTaken, ReadsAView, ShowAll};

use crate::fault::{ScanFault, of_query};
use crate::joined::joined_rows;
use crate::snapshot::rows;
use std::alloc::Global;
use tc_bytes::Memory;
use tc_command::{Ask, Counts, Rows};
use tc_query::QueryFault;
use tc_route::{rendered_are_gathered, replies_are_gathered};
use tc_running::{Pace, Point, Start};
use tc_store::Frozen;
use tc_view::{Lens, Snapshot};

/// What a scan has of a partition: a lens on what that shows, and the watch that counts its reads.
#[derive(Drop)]
pub struct Pass<F: Frozen> {
    pub lens: Lens<F>,
    pub watch: F::Watch,
}

/// A scan that can be run: a pass for each partition, in ascending number, and what is asked for.
#[derive(Drop)]
pub struct Scan<F: Frozen> {
    pub passes: Vec<Pass<F>>,
    pub ask: Ask,
}

/// What a scan found: rows in ascending key, and over how many writes of each partition.
#[derive(Drop)]
pub struct Scanned {
    pub rows: Rows,
    pub upto: Counts,
}

/// What is left of a scan: its passes, in the order that they had, and what it found. What a lens keeps then is what was scanned.
#[derive(Drop)]
pub struct ScanOut<F: Frozen> {
    pub passes: Vec<Pass<F>>,
    pub outcome: Result<Scanned, ScanFault>,
}

impl<F: Frozen> Scan<F> {
    /// Takes a snapshot of each lens, comes to `Point::ScanTaken`, and then makes the rows over the snapshots, partition by partition.
    pub(crate) fn run<P: Pace>(self, alloc: Global, start: &Start<P>) -> ScanOut<F>
        requires few { length self.passes.items < 2 ^ 32 }
        requires reads { All ReadsAView self.passes.items }
        ensures { HasScanned F.content F.Watch.counts (ask_of self.ask) self.passes.items result.passes.items result.outcome }
    {
        let Scan { passes, ask } = self;
        let mut passes = passes;
        let outcome = rows_found(alloc, &mut passes, &ask, start);
        ScanOut { passes, outcome }
    }
}

/// What the passes find.
fn rows_found<F: Frozen, P: Pace>(
    alloc: Global,
    passes: &mut [Pass<F>],
    ask: &Ask,
    start: &Start<P>,
) -> Result<Scanned, ScanFault>
    requires few { length passes.old < 2 ^ 32 }
    requires reads { All ReadsAView passes.old }
    ensures { HasScanned F.content F.Watch.counts (ask_of ask.now) passes.old passes.new result }
{
    let snapshots = take_each(alloc, passes)?;
    start.reach_next(Point::ScanTaken);
    let upto = numbers_of(alloc, &snapshots)?;
    let rows = rows_of_each(alloc, passes, &snapshots, ask)?;
    Ok(Scanned { rows, upto })
}

/// A snapshot by each pass.
fn take_each<F: Frozen>(alloc: Global, passes: &mut [Pass<F>]) -> Result<Vec<Snapshot<F>>, Memory>
    requires reads { All ReadsAView passes.old }
    ensures taken { AllZip IsTaken passes.old passes.new }
    ensures shown { IfOk result (λ snapshots. map shown_by snapshots.items ≡ map (λ pass. kept_by pass.lens) passes.new) }
{
    let mut snapshots = Vec::with_capacity(alloc, passes.len())?;
    for at in 0..passes.len() {
        snapshots.push(take(&mut passes[at])?)?;
    }
    Ok(snapshots)
}

/// A snapshot by a pass.
fn take<F: Frozen>(pass: &mut Pass<F>) -> Result<Snapshot<F>, Memory>
    requires reads { ReadsAView pass.old }
    ensures taken { IsTaken pass.old pass.new }
    ensures shown { IfOk result (λ snapshot. shown_by snapshot ≡ kept_by pass.new.lens) }
{
    pass.lens.snapshot()
}

/// How many writes each of these has.
fn numbers_of<F: Frozen>(alloc: Global, snapshots: &[Snapshot<F>]) -> Result<Counts, Memory>
    ensures { IfOk result (λ upto. upto ≡ map (λ snapshot. (shown_by snapshot).upto) snapshots.now) }
{
    let mut upto = Vec::with_capacity(alloc, snapshots.len())?;
    for snapshot in snapshots {
        upto.push(snapshot.upto())?;
    }
    Ok(Counts::of(upto))
}

/// The rows over the snapshots of the passes, in ascending key.
fn rows_of_each<F: Frozen>(
    alloc: Global,
    passes: &mut [Pass<F>],
    snapshots: &[Snapshot<F>],
    ask: &Ask,
) -> Result<Rows, ScanFault>
    requires few { length passes.old < 2 ^ 32 }
    requires shown { map shown_by snapshots.now ≡ map (λ pass. kept_by pass.lens) passes.old }
    requires stored { All (λ pass. All IsWrite (kept_by pass.lens).written) passes.old }
    ensures read { AllZip (IsRead F.Watch.counts) passes.old passes.new }
    ensures rows { (parts : List Pairs) → ShowAll F.content passes.old parts → AreOwn (length parts) 0 parts → IfOk result (λ rows. rows ≡ map row_text (rows_over (ask_of ask.now) (united parts))) }
    ensures texts { IfOk result (λ rows. (rs : List Row) × (rows ≡ map row_text rs)) }
    ensures fault { IfErr result (IsFaultOf (λ file. F.content file) F.Watch.counts passes.old passes.new) }
{
    replies_are_gathered();
    rendered_are_gathered();
    let mut found = Vec::with_capacity(alloc, passes.len())?;
    for at in 0..passes.len() {
        match rows_of(alloc, &mut passes[at], &snapshots[at], ask) {
            Ok(rows) => found.push(rows)?,
            Err(fault) => return Err(of_query(at as u32, fault)),
        }
    }
    Ok(joined_rows(alloc, found)?)
}

/// The rows over the snapshot of a pass.
fn rows_of<F: Frozen>(
    alloc: Global,
    pass: &mut Pass<F>,
    snapshot: &Snapshot<F>,
    ask: &Ask,
) -> Result<Rows, QueryFault>
    requires shown { shown_by snapshot.now ≡ kept_by pass.old.lens }
    requires stored { All IsWrite (kept_by pass.old.lens).written }
    ensures read { IsRead F.Watch.counts pass.old pass.new }
    ensures rows { (pairs : Pairs) → Holds F.content (showing_in (kept_by pass.old.lens)) pairs → IfOk result (λ rows. rows ≡ map row_text (rows_over (ask_of ask.now) pairs)) }
    ensures texts { IfOk result (λ rows. (rs : List Row) × (rows ≡ map row_text rs)) }
    ensures cause { IsErrOf result QueryFault.Disk → Rose (F.Watch.counts pass.old.watch).faults (F.Watch.counts pass.new.watch).faults }
    ensures harmed { IfErr result (λ fault. OfDamage fault (λ file place bytes. IsHarmIn (λ file. F.content file) (kept_by pass.old.lens).list file place bytes)) }
    ensures unharmed { (cs : List Content) → AllZip (IsLoadedOf F.content) (kept_by pass.old.lens).list cs → IfErr result IsUnharmed }
{
    rows(alloc, snapshot, ask, &mut pass.watch)
}
