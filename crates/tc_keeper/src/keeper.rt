//! What keeps the documents of a run: the engines of its partitions, what each shows to scans, and the scan that is out.

ghost use Rattle.std.specs.Prelude.{◌≡◌, ◌∷◌, [], length, map, All, None, Some, IfErr, IfOk, IfSome, is_some, true};
ghost use Rattle.tc_keeper.specs.Faults.{fault_in};
ghost use Rattle.tc_keeper.specs.Partitions.{collected_as};

use crate::answering::{answer_window, flush_all, flushed_schemas, settle_all};
use crate::engines::Engines;
use crate::fault::{RunFault, of_scan};
use crate::lending::{lend_lenses, lend_watches, take_back};
use crate::showing::{end_all, place_all, show_all, write_all};
use left_right::Absorb;
use std::alloc::Global;
use std::marker::Model;
use std::sync::{Arc, Wait};
use std::thread::Threads;
use tc_command::{Ask, Refusal, Reply, Schemas};
use tc_route::{Replies, Routed};
use tc_running::{Beginning, Pace, Point};
use tc_shown::{RunningScan, Scan, ScanFault, ScanOut, Scanned, Shown, parts_are_shown};
use tc_store::Store;
use tc_view::{Content, Step, View, histories_hold_writes};
use tc_work::Seen;

/// The engines of the partitions of a store that is open, what is shown of each beside its engine, and the scan that is out, if one is.
/// What an engine did is shown behind it, before a reply says so. After a call that errs no more is asked of it but its end. It is not
/// `Drop`, since what is shown is not: end it by `end`.
pub struct Keeper<S: Store, P: Pace>
where
    View<S::Frozen>: Absorb<Step<S::Frozen>, State = Content<S::Frozen>>,
{
    engines: Engines<S, P>,
    shown: Vec<Shown<S::Frozen>>,
    scan: Option<RunningScan<S::Frozen>>,
    pace: Arc<P>,
}

impl<S: Store, P: Pace> Model for Keeper<S, P>
where
    View<S::Frozen>: Absorb<Step<S::Frozen>, State = Content<S::Frozen>>,
{
    ghost use Rattle.std.specs.Coded.{codes};
    ghost use Rattle.logbook.specs.Pages.{book_coded};
    ghost use Rattle.tc_command.specs.Asks.{coded_hop};
    ghost use Rattle.tc_memory.specs.Table.{coded_table};
    ghost use Rattle.tc_model.specs.DocumentCode.{coded_document};
    ghost use Rattle.tc_schema_model.specs.CountedCode.{coded_counted};
    ghost use Rattle.tc_keeper.specs.Keeping.{IsManned, KeeperState};

    ghost Value = { KeeperState S S.Device S.Frozen S.Watch };

    ghost coded = { Prim.hlevel (codes, book_coded, coded_table, coded_counted, coded_document, coded_hop) };

    ghost view = { λ k. record { engines = k.engines; shown = k.shown.items; scan = k.scan } };

    ghost invariant = { λ k. IsManned S.Frozen.content (record { engines = k.engines; shown = k.shown.items; scan = k.scan }) };
}

#[tactic(auto, unfolding(crate::specs::Keeping::MayServe, crate::specs::Keeping::ServesAt, crate::specs::Keeping::FailsAt, crate::specs::Keeping::AllRest, crate::specs::Keeping::faults_kept, crate::specs::Keeping::HasSpent, crate::specs::Keeping::HasMet))]
impl<S: Store, P: Pace> Keeper<S, P> {
    ghost use Rattle.std.specs.Prelude.{◌≡◌, ◌∷◌, [], ℕ, true, length, map, All, None, Some, Ok, Option, IfErr, IfOk, IfSome, is_some, OnErr, OnOk};
    ghost use Rattle.tc_command.specs.Commands.{ask_of};
    ghost use Rattle.tc_command.specs.Replies.{rendered_of};
    ghost use Rattle.tc_model.specs.Keyed.{values_in};
    ghost use Rattle.tc_request_model.specs.Rendered.{schemas};
    ghost use Rattle.tc_request_model.specs.Request.{collect, flush, scan, schema};
    ghost use Rattle.tc_route.specs.Meaning.{rendered_in};
    ghost use Rattle.tc_run_model.specs.Known.{MayRender};
    ghost use Rattle.tc_run_model.specs.World.{World, after_all};
    ghost use Rattle.tc_store.specs.declared.damage.Damage.{Damage};
    ghost use Rattle.tc_keeper.specs.Calls.{faults_of, settings_of, IsSpent, MayAsk, Rests};
    ghost use Rattle.tc_keeper.specs.Faults.{fault_in, HasDiskCause, IsNoDamage, IsOfJob, IsOfStore};
    ghost use Rattle.tc_keeper.specs.Keeping.{faults_kept, settings_kept, AllRest, AreUnwritten, FailsAt, HasMet, HasSpent, IsMetBehind, IsTrueHere, MayServe, ServesAt};
    ghost use Rattle.tc_keeper.specs.Partitions.{StandAt};
    ghost use Rattle.tc_keeper.specs.Sight.{sees, sight_after, whole_of, IsFirst, Sight};
    ghost use Rattle.tc_keeper.specs.Standing.{KeepWorlds};
    ghost use Rattle.tc_keeper.specs.Together.{requests_routed, AreTogether};

    /// Shows partitions whose engines were opened. For want of memory these are given back.
    pub fn open<R: Wait>(
        rt: &R,
        alloc: Global,
        engines: Engines<S, P>,
        pace: Arc<P>,
    ) -> Result<Keeper<S, P>, Engines<S, P>>
        requires works { MayAsk S.history S.Device.history S.Frozen.content engines }
        requires begun { AreUnwritten engines }
        ensures opened { IfOk result (λ k. (k.engines ≡ engines) × (k.scan ≡ None)) }
        ensures held { IfOk result (λ k. (known : Sight) → IsFirst known → StandAt ⟦<S as Seen>⟧.eyes engines known → ServesAt ⟦<S as Seen>⟧.eyes k known) }
        ensures back { IfErr result (λ back. back ≡ engines) }
    {
        parts_are_shown::<S::Frozen>();
        let mut shown = match Vec::with_capacity(alloc, engines.len()) {
            Ok(shown) => shown,
            Err(_) => return Err(engines),
        };
        match show_all(rt, alloc, &engines, &mut shown) {
            Ok(()) => Ok(Keeper {
                engines,
                shown,
                scan: None,
                pace,
            }),
            Err(_) => {
                end_all(rt, shown);
                Err(engines)
            }
        }
    }

    /// Answers commands for partitions, one reply a command and in their order, in which a get or a query sees the writes
    /// before it, and keeps what they write.
    pub fn window<R: Threads + Wait + Sync>(
        &mut self,
        rt: &R,
        alloc: Global,
        commands: Vec<Routed>,
    ) -> Result<Replies, RunFault>
        requires works { MayServe S.history S.Device.history S.Frozen.content self.old }
        requires together { AreTogether commands.items }
        ensures works { OnOk result (MayServe S.history S.Device.history S.Frozen.content self.new) }
        ensures replies { (known : Sight) → ServesAt ⟦<S as Seen>⟧.eyes self.old known → IfOk result (λ replies. MayRender (requests_routed commands.items) (whole_of known) (values_in (rendered_in replies))) }
        ensures held { (known : Sight) → ServesAt ⟦<S as Seen>⟧.eyes self.old known → OnOk result (ServesAt ⟦<S as Seen>⟧.eyes self.new (sight_after (requests_routed commands.items) known)) }
        ensures failed { (only : Option ℕ) (w : World) → ServesAt ⟦<S as Seen>⟧.eyes self.old (sees only w) → OnErr result (FailsAt ⟦<S as Seen>⟧.eyes self.new only w (after_all (requests_routed commands.items) w)) }
        ensures undamaged { (only : Option ℕ) (w : World) → ServesAt ⟦<S as Seen>⟧.eyes self.old (sees only w) → IfErr result (IsNoDamage only) }
        ensures kinds { IfErr result IsOfStore }
        ensures settings { settings_kept self.new ≡ settings_kept self.old }
        ensures cause { HasDiskCause (faults_kept (λ w. S.Watch.counts w) self.old) (faults_kept (λ w. S.Watch.counts w) self.new) (IsTrueHere S.history S.Device.history S.Frozen.content self.new) (fault_in result) }
    {
        parts_are_shown::<S::Frozen>();
        let mut frames = Vec::new(alloc);
        let replies = answer_window(rt, alloc, &mut self.engines, commands, &mut frames)?;
        write_all(rt, alloc, &mut self.shown, &mut frames)?;
        Ok(replies)
    }

    /// Moves documents from memory into files, and puts files together, where it is time, by jobs beside what follows.
    pub fn settle<R: Threads + Wait>(&mut self, rt: &R, alloc: Global) -> Result<(), RunFault>
    where
        S: 'static,
        S::Device: 'static,
        S::Frozen: 'static,
        S::Watch: 'static,
        P: 'static,
        requires works { MayServe S.history S.Device.history S.Frozen.content self.old }
        ensures works { OnOk result (MayServe S.history S.Device.history S.Frozen.content self.new) }
        ensures rests { OnOk result (AllRest (λ d. S.Device.size d) self.new) }
        ensures held { (known : Sight) → ServesAt ⟦<S as Seen>⟧.eyes self.old known → OnOk result (ServesAt ⟦<S as Seen>⟧.eyes self.new known) }
        ensures failed { (only : Option ℕ) (w : World) → ServesAt ⟦<S as Seen>⟧.eyes self.old (sees only w) → OnErr result (FailsAt ⟦<S as Seen>⟧.eyes self.new only w (w)) }
        ensures undamaged { (only : Option ℕ) (w : World) → ServesAt ⟦<S as Seen>⟧.eyes self.old (sees only w) → IfErr result (IsNoDamage only) }
        ensures kinds { IfErr result IsOfStore }
        ensures settings { settings_kept self.new ≡ settings_kept self.old }
        ensures cause { HasDiskCause (faults_kept (λ w. S.Watch.counts w) self.old) (faults_kept (λ w. S.Watch.counts w) self.new) (IsTrueHere S.history S.Device.history S.Frozen.content self.new) (fault_in result) }
    {
        parts_are_shown::<S::Frozen>();
        settle_all(rt, alloc, &mut self.engines)?;
        place_all(rt, &self.engines, &mut self.shown)?;
        Ok(())
    }

    /// Moves all documents from memory into files.
    pub fn flush<R: Threads + Wait>(&mut self, rt: &R, alloc: Global) -> Result<(), RunFault>
    where
        S: 'static,
        S::Device: 'static,
        S::Frozen: 'static,
        S::Watch: 'static,
        P: 'static,
        requires works { MayServe S.history S.Device.history S.Frozen.content self.old }
        ensures works { OnOk result (MayServe S.history S.Device.history S.Frozen.content self.new) }
        ensures held { (known : Sight) → ServesAt ⟦<S as Seen>⟧.eyes self.old known → OnOk result (ServesAt ⟦<S as Seen>⟧.eyes self.new (sight_after (flush ∷ []) known)) }
        ensures failed { (only : Option ℕ) (w : World) → ServesAt ⟦<S as Seen>⟧.eyes self.old (sees only w) → OnErr result (FailsAt ⟦<S as Seen>⟧.eyes self.new only w (w)) }
        ensures undamaged { (only : Option ℕ) (w : World) → ServesAt ⟦<S as Seen>⟧.eyes self.old (sees only w) → IfErr result (IsNoDamage only) }
        ensures kinds { IfErr result IsOfStore }
        ensures settings { settings_kept self.new ≡ settings_kept self.old }
        ensures cause { HasDiskCause (faults_kept (λ w. S.Watch.counts w) self.old) (faults_kept (λ w. S.Watch.counts w) self.new) (IsTrueHere S.history S.Device.history S.Frozen.content self.new) (fault_in result) }
    {
        parts_are_shown::<S::Frozen>();
        flush_all(rt, alloc, &mut self.engines)?;
        place_all(rt, &self.engines, &mut self.shown)?;
        Ok(())
    }

    /// The schema of each partition, behind a flush.
    pub fn schemas<R: Threads + Wait>(&mut self, rt: &R, alloc: Global) -> Result<Schemas, RunFault>
    where
        S: 'static,
        S::Device: 'static,
        S::Frozen: 'static,
        S::Watch: 'static,
        P: 'static,
        requires works { MayServe S.history S.Device.history S.Frozen.content self.old }
        ensures works { OnOk result (MayServe S.history S.Device.history S.Frozen.content self.new) }
        ensures shown { (known : Sight) → ServesAt ⟦<S as Seen>⟧.eyes self.old known → IfOk result (λ shown. MayRender (schema ∷ []) (whole_of known) (schemas shown ∷ [])) }
        ensures held { (known : Sight) → ServesAt ⟦<S as Seen>⟧.eyes self.old known → OnOk result (ServesAt ⟦<S as Seen>⟧.eyes self.new (sight_after (schema ∷ []) known)) }
        ensures failed { (only : Option ℕ) (w : World) → ServesAt ⟦<S as Seen>⟧.eyes self.old (sees only w) → OnErr result (FailsAt ⟦<S as Seen>⟧.eyes self.new only w (w)) }
        ensures undamaged { (only : Option ℕ) (w : World) → ServesAt ⟦<S as Seen>⟧.eyes self.old (sees only w) → IfErr result (IsNoDamage only) }
        ensures kinds { IfErr result IsOfStore }
        ensures settings { settings_kept self.new ≡ settings_kept self.old }
        ensures cause { HasDiskCause (faults_kept (λ w. S.Watch.counts w) self.old) (faults_kept (λ w. S.Watch.counts w) self.new) (IsTrueHere S.history S.Device.history S.Frozen.content self.new) (fault_in result) }
    {
        parts_are_shown::<S::Frozen>();
        let schemas = flushed_schemas(rt, alloc, &mut self.engines)?;
        place_all(rt, &self.engines, &mut self.shown)?;
        Ok(schemas)
    }

    /// Starts a scan beside what follows, over what is shown from now on. Where one is out, the reply is that it is.
    pub fn scan<R: Threads + Wait>(
        &mut self,
        rt: &R,
        alloc: Global,
        ask: Ask,
    ) -> Result<Reply, RunFault>
    where
        S: 'static,
        S::Device: 'static,
        S::Frozen: 'static,
        S::Watch: 'static,
        P: 'static,
        requires works { MayServe S.history S.Device.history S.Frozen.content self.old }
        ensures works { OnOk result (MayServe S.history S.Device.history S.Frozen.content self.new) }
        ensures reply { (known : Sight) → ServesAt ⟦<S as Seen>⟧.eyes self.old known → IfOk result (λ reply. MayRender (scan (ask_of ask) ∷ []) (whole_of known) (rendered_of reply ∷ [])) }
        ensures held { (known : Sight) → ServesAt ⟦<S as Seen>⟧.eyes self.old known → OnOk result (ServesAt ⟦<S as Seen>⟧.eyes self.new (sight_after (scan (ask_of ask) ∷ []) known)) }
        ensures failed { (only : Option ℕ) (w : World) → ServesAt ⟦<S as Seen>⟧.eyes self.old (sees only w) → OnErr result (FailsAt ⟦<S as Seen>⟧.eyes self.new only w (w)) }
        ensures undamaged { (only : Option ℕ) (w : World) → ServesAt ⟦<S as Seen>⟧.eyes self.old (sees only w) → IfErr result (IsNoDamage only) }
        ensures kinds { IfErr result IsOfStore }
        ensures settings { settings_kept self.new ≡ settings_kept self.old }
        ensures cause { HasDiskCause (faults_kept (λ w. S.Watch.counts w) self.old) (faults_kept (λ w. S.Watch.counts w) self.new) (IsTrueHere S.history S.Device.history S.Frozen.content self.new) (fault_in result) }
    {
        if self.scan.is_some() {
            return Ok(Reply::Refused(Refusal::Busy));
        }
        let beginning = Beginning::new(alloc, &self.pace, Point::ScanStarted)?;
        let passes = Vec::with_capacity(alloc, self.shown.len())?;
        let lenses = lend_lenses(alloc, &mut self.shown)?;
        let passes = lend_watches(&mut self.engines, lenses, passes);
        let scan = Scan { passes, ask };
        self.scan = Some(RunningScan::start(rt, alloc, scan, beginning));
        Ok(Reply::Started)
    }

    /// Waits for the scan that is out, and answers what it found, and over how many writes of each partition. Where none is out, the
    /// reply is that there is none.
    pub fn collect<R: Threads + Wait>(&mut self, rt: &R) -> Result<Reply, RunFault>
    where
        S: 'static,
        S::Device: 'static,
        S::Frozen: 'static,
        S::Watch: 'static,
        P: 'static,
        requires works { MayServe S.history S.Device.history S.Frozen.content self.old }
        ensures works { OnOk result (MayServe S.history S.Device.history S.Frozen.content self.new) }
        ensures reply { (known : Sight) → ServesAt ⟦<S as Seen>⟧.eyes self.old known → IfOk result (λ reply. MayRender (collect ∷ []) (whole_of known) (rendered_of reply ∷ [])) }
        ensures held { (known : Sight) → ServesAt ⟦<S as Seen>⟧.eyes self.old known → OnOk result (ServesAt ⟦<S as Seen>⟧.eyes self.new (sight_after (collect ∷ []) known)) }
        ensures failed { (only : Option ℕ) (w : World) → ServesAt ⟦<S as Seen>⟧.eyes self.old (sees only w) → OnErr result (FailsAt ⟦<S as Seen>⟧.eyes self.new only w (w)) }
        ensures undamaged { (only : Option ℕ) (w : World) → ServesAt ⟦<S as Seen>⟧.eyes self.old (sees only w) → IfErr result (IsNoDamage only) }
        ensures kinds { IfErr result IsOfStore }
        ensures settings { settings_kept self.new ≡ settings_kept self.old }
        ensures cause { HasDiskCause (faults_kept (λ w. S.Watch.counts w) self.old) (faults_kept (λ w. S.Watch.counts w) self.new) (IsTrueHere S.history S.Device.history S.Frozen.content self.new) (fault_in result) }
    {
        parts_are_shown::<S::Frozen>();
        histories_hold_writes::<S::Frozen>();
        match self.scan.take() {
            None => Ok(Reply::Refused(Refusal::NoScan)),
            Some(scan) => {
                let ScanOut { passes, outcome } = scan.join(rt);
                let covered = take_back(&mut self.engines, &self.shown, passes);
                reply_to_collect(covered, outcome)
            }
        }
    }

    /// Ends it: waits for the scan that is out, whose rows nobody collects any more, and gives the engines back, with the fault of
    /// that scan, if it failed.
    pub fn end<R: Threads + Wait>(self, rt: &R) -> (Engines<S, P>, Option<RunFault>)
    where
        S: 'static,
        S::Device: 'static,
        S::Frozen: 'static,
        S::Watch: 'static,
        P: 'static,
        ensures held { (known : Sight) → ServesAt ⟦<S as Seen>⟧.eyes self known → StandAt ⟦<S as Seen>⟧.eyes result.0 known }
        ensures failed { (only : Option ℕ) (w v : World) → FailsAt ⟦<S as Seen>⟧.eyes self only w v → KeepWorlds ⟦<S as Seen>⟧.eyes only result.0 w v }
        ensures rests { AllRest (λ d. S.Device.size d) self → Rests (λ d. S.Device.size d) result.0 }
        ensures spent { HasSpent S.history S.Device.history S.Frozen.content self → IsSpent S.history S.Device.history S.Frozen.content result.0 }
        ensures met { (q : ℕ) (damage : Damage) → HasMet S.Device.history S.Frozen.content self q damage → IsMetBehind S.Device.history S.Frozen.content result.0 q damage }
        ensures settings { settings_of result.0 ≡ settings_kept self }
        ensures readers { All (λ e. is_some e.engine.part.reader ≡ true) result.0 }
        ensures undamaged { (only : Option ℕ) (w : World) → ServesAt ⟦<S as Seen>⟧.eyes self (sees only w) → IfSome result.1 (IsNoDamage only) }
        ensures kind { IfSome result.1 IsOfJob }
        ensures cause { HasDiskCause (faults_kept (λ w. S.Watch.counts w) self) (faults_of (λ w. S.Watch.counts w) result.0) (IsTrueHere S.history S.Device.history S.Frozen.content self) result.1 }
    {
        parts_are_shown::<S::Frozen>();
        histories_hold_writes::<S::Frozen>();
        let Keeper {
            engines,
            shown,
            scan,
            pace: _pace,
        } = self;
        let mut engines = engines;
        match scan {
            None => {
                end_all(rt, shown);
                (engines, None)
            }
            Some(scan) => {
                let ScanOut { passes, outcome } = scan.join(rt);
                let covered = take_back(&mut engines, &shown, passes);
                end_all(rt, shown);
                (engines, fault_of_scan(covered, outcome))
            }
        }
    }
}

// The reply to a collect. That what was scanned is no beginning of what is shown is answered as want of memory, and never comes:
// each lens is one of what is shown, and what that shows only grows.
fn reply_to_collect(covered: bool, outcome: Result<Scanned, ScanFault>) -> Result<Reply, RunFault>
    ensures { result ≡ collected_as covered outcome }
{
    if !covered {
        return Err(RunFault::Memory);
    }
    match outcome {
        Ok(scanned) => Ok(Reply::Collected {
            rows: scanned.rows,
            upto: scanned.upto,
        }),
        Err(fault) => Err(of_scan(fault)),
    }
}

// The fault of such a reply, where it is one.
fn fault_of_scan(covered: bool, outcome: Result<Scanned, ScanFault>) -> Option<RunFault>
    ensures { result ≡ fault_in (collected_as covered outcome) }
{
    match reply_to_collect(covered, outcome) {
        Ok(_) => None,
        Err(fault) => Some(fault),
    }
}
