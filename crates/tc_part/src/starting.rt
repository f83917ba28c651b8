//! A partition begins with what was opened.

ghost use Rattle.std.specs.Arc.{arc_value};
ghost use Rattle.std.specs.Prelude.{◌≡◌, ◌<◌, ◌^◌, [], Some, None, false, map, All, IfOk, IfErr};
ghost use Rattle.tc_store.specs.declared.file_name.FileName.TheVariants.{Log as log_name};
ghost use Rattle.tc_store.specs.Disk.{home as at_home};
ghost use Rattle.tc_store.specs.StoreCalls.{comes_home};
ghost use Rattle.tc_log.specs.Layout.{empty_size};
ghost use Rattle.tc_component.specs.Loading.{IsAsJudged};
ghost use Rattle.tc_component.specs.Spelling.{IsIndex};
ghost use Rattle.tc_part_model.specs.Newest.{names_by, documents_by, next_by};
ghost use Rattle.tc_part_model.specs.PartState.{told};
ghost use Rattle.tc_jobs.specs.Lists.{IsListOf};
ghost use Rattle.tc_part.specs.Openings.{told_opening, newest_in, KeepsOpening, StartsPart};
ghost use Rattle.tc_part.specs.Ready.{AreNamed};

use crate::limits::Limits;
use crate::part::Part;
use crate::retired::Retired;
use std::alloc::Global;
use std::sync::Arc;
use tc_bytes::Memory;
use tc_component::Component;
use tc_list::ComponentList;
use tc_log::Log;
use tc_memory::Memtable;
use tc_names::Names;
use tc_part_model::parts_start;
use tc_store::{Frozen, Kit, Store};

/// What a partition begins with: its store with the watches, its number and how many partitions there are, what it takes, its
/// components, and the log behind them, which has no frame.
#[derive(Drop)]
pub struct Opened<S: Store> {
    pub kit: Kit<S>,
    pub number: u32,
    pub count: u32,
    pub limits: Limits,
    pub list: ComponentList<S::Frozen>,
    pub log: Log<S::Device>,
}

impl<S: Store> Part<S> {
    /// A partition with what was opened. It has no write, and no job of it is out. For want of memory the kit is given back,
    /// and the device of the log is at home in its store.
    pub fn start(alloc: Global, opened: Opened<S>) -> Result<Part<S>, Kit<S>>
        requires sound { opened.log.failed ≡ false }
        requires empty { S.Device.size opened.log.device ≡ empty_size }
        requires follows { S.Device.name opened.log.device ≡ log_name (next_by (newest_in S.Frozen.content opened.list)) }
        requires last { next_by (newest_in S.Frozen.content opened.list) < 2 ^ 63 }
        requires listed { IsListOf opened.number opened.count opened.list }
        requires named { AreNamed (λ f. S.Frozen.name f) opened.list }

        // It is the part that is opened, where what is handed in makes up one.
        ensures starts { IfOk result (λ part. StartsPart (S.Device.name opened.log.device) (told_opening S.history S.Device.history S.Frozen.content opened.number opened.count opened.kit.store opened.log.device opened.list) (told S.history S.Device.history S.Frozen.content part)) }

        // Over every store nothing is in its tables, nothing is staged, and the newest component tells names and documents.
        ensures begun { IfOk result (λ part. part ≡ record { number = opened.number; count = opened.count; limits = record { names = opened.limits.names; docs = opened.limits.docs }; memory = opened.limits.memory; store = opened.kit.store; main = opened.kit.main; flusher = Some opened.kit.flusher; merger = Some opened.kit.merger; reader = Some opened.kit.reader; list = opened.list; sealed = None; sealed_log = None; active = []; log = opened.log; generation = next_by (newest_in S.Frozen.content opened.list); staged = []; taken = names_by (newest_in S.Frozen.content opened.list); live = part.live; writes = 0; flushing = false; merging = None; failed = false }) }
        ensures counted { IfOk result (λ part. documents_by (newest_in S.Frozen.content opened.list) < 2 ^ 32 → part.live ≡ documents_by (newest_in S.Frozen.content opened.list)) }

        // Else whatever a stop leaves of the store that is given back is what is live in the components.
        ensures stays { IfErr result (λ kit. KeepsOpening (S.Device.name opened.log.device) (told_opening S.history S.Device.history S.Frozen.content opened.number opened.count opened.kit.store opened.log.device opened.list) (S.history kit.store)) }
        ensures given_back { IfErr result (λ kit. kit ≡ record opened.kit { store = kit.store }) }
        ensures home { IfErr result (λ kit. S.history kit.store ≡ comes_home (S.Device.name opened.log.device) (λ f. at_home f) (S.Device.history opened.log.device) (S.history opened.kit.store)) }
    {
        parts_start();
        look_over(opened.list.as_slice());
        match names_of(alloc, &opened.list) {
            Ok(taken) => Ok(begun_with(alloc, opened, taken)),
            Err(_) => Err(given_up(opened)),
        }
    }
}

/// Looks at each component, and does nothing else: no interval ends before it begins, and what was loaded is what the file is
/// judged to be, which shows where one is looked at.
pub(crate) fn look_over<F: Frozen>(components: &[Arc<Component<F>>])
    ensures lawful { All (λ c. IsIndex c.index) (map arc_value components.now) }
    ensures judged { All (IsAsJudged F.content) (map arc_value components.now) }
{
    for component in components {
        let _lawful = component.file_len();
    }
}

/// The partition with the names that are taken.
fn begun_with<S: Store>(alloc: Global, opened: Opened<S>, taken: Names) -> Part<S>
    requires sound { opened.log.failed ≡ false }
    requires follows { S.Device.name opened.log.device ≡ log_name (next_by (newest_in S.Frozen.content opened.list)) }
    requires last { next_by (newest_in S.Frozen.content opened.list) < 2 ^ 63 }
    requires listed { IsListOf opened.number opened.count opened.list }
    requires named { AreNamed (λ f. S.Frozen.name f) opened.list }
    ensures begun { result ≡ record { number = opened.number; count = opened.count; limits = record { names = opened.limits.names; docs = opened.limits.docs }; memory = opened.limits.memory; store = opened.kit.store; main = opened.kit.main; flusher = Some opened.kit.flusher; merger = Some opened.kit.merger; reader = Some opened.kit.reader; list = opened.list; sealed = None; sealed_log = None; active = []; log = opened.log; generation = next_by (newest_in S.Frozen.content opened.list); staged = []; taken = taken; live = result.live; writes = 0; flushing = false; merging = None; failed = false } }
    ensures counted { documents_by (newest_in S.Frozen.content opened.list) < 2 ^ 32 → result.live ≡ documents_by (newest_in S.Frozen.content opened.list) }
{
    let Opened {
        kit,
        number,
        count,
        limits,
        list,
        log,
    } = opened;
    let Kit {
        store,
        main,
        flusher,
        merger,
        reader,
    } = kit;
    let live = at_most(documents_in(&list));
    let generation = generation_behind(&list);
    Part {
        number,
        count,
        limits,
        store,
        main,
        flusher: Some(flusher),
        merger: Some(merger),
        reader: Some(reader),
        list,
        sealed: None,
        sealed_log: None,
        active: Memtable::new(alloc),
        log,
        generation,
        staged: Vec::new(alloc),
        taken,
        live,
        writes: 0,
        merging: None,
        retired: Retired::new(alloc),
        failed: false,
    }
}

/// The kit, once the device of the log is at home.
fn given_up<S: Store>(opened: Opened<S>) -> Kit<S>
    ensures kit { result ≡ record opened.kit { store = result.store } }
    ensures home { S.history result.store ≡ comes_home (S.Device.name opened.log.device) (λ f. at_home f) (S.Device.history opened.log.device) (S.history opened.kit.store) }
{
    let Opened { kit, log, .. } = opened;
    let mut kit = kit;
    kit.store.abandon(log.give_back());
    kit
}

/// The names of the newest component. Errs only for want of memory.
fn names_of<F: Frozen>(alloc: Global, list: &ComponentList<F>) -> Result<Names, Memory>
    ensures { IfOk result (λ names. names ≡ names_by (newest_in F.content list.now)) }
{
    let count = list.len();
    if count == 0 {
        return Ok(Names::new(alloc));
    }
    list.component_at(count - 1).names().copy()
}

/// How many documents the newest component counts.
fn documents_in<F: Frozen>(list: &ComponentList<F>) -> u64
    ensures { result ≡ documents_by (newest_in F.content list.now) }
{
    let count = list.len();
    if count == 0 {
        return 0;
    }
    list.component_at(count - 1).documents()
}

/// The generation behind that of the newest component.
fn generation_behind<F: Frozen>(list: &ComponentList<F>) -> u64
    requires { next_by (newest_in F.content list.now) < 2 ^ 63 }
    ensures { result ≡ next_by (newest_in F.content list.now) }
{
    let count = list.len();
    if count == 0 {
        return 1;
    }
    list.component_at(count - 1).head().to + 1
}

/// So many, or the most that are counted.
fn at_most(documents: u64) -> u32
    ensures { documents < 2 ^ 32 → result ≡ documents }
{
    if documents < u64::from(u32::MAX) {
        documents as u32
    } else {
        u32::MAX
    }
}
