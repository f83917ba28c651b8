//! The partition: what it has in memory, and its files.

ghost use Rattle.std.specs.Arc.{arc_value};
ghost use Rattle.std.specs.Prelude.{◌≡◌, map, IfOk};

use crate::limits::Limits;
use crate::retired::Retired;
use crate::starting::look_over;
use std::alloc::Global;
use std::marker::Model;
use std::sync::Arc;
use tc_bytes::Memory;
use tc_component::Component;
use tc_list::{ComponentList, Run};
use tc_log::{Log, Write};
use tc_memory::{Memtable, Sealed};
use tc_names::Names;
use tc_store::{Frozen, Store};

/// One partition. The memory table that writes go into stands over the one that is being flushed, and that over the
/// listed components. Each table has a write-ahead log. After a call that answers a fault the partition has failed, and
/// takes no more writes.
#[derive(Drop)]
pub struct Part<S: Store> {
    pub(crate) number: u32,
    pub(crate) count: u32,
    pub(crate) limits: Limits,
    pub(crate) store: S,
    pub(crate) main: S::Watch,
    /// None while a flush is out, which has it.
    pub(crate) flusher: Option<S::Watch>,
    /// None while a merge is out, which has it.
    pub(crate) merger: Option<S::Watch>,
    /// None while it is lent.
    pub(crate) reader: Option<S::Watch>,
    pub(crate) list: ComponentList<S::Frozen>,
    pub(crate) sealed: Option<Arc<Sealed>>,
    pub(crate) sealed_log: Option<Log<S::Device>>,
    pub(crate) active: Memtable,
    pub(crate) log: Log<S::Device>,
    /// The generation of the active table and of its log.
    pub(crate) generation: u64,
    pub(crate) staged: Vec<Write>,
    /// The names of all documents that were accepted.
    pub(crate) taken: Names,
    /// How many documents are live, with those that are staged.
    pub(crate) live: u32,
    /// How many writes were committed.
    pub(crate) writes: u64,
    /// What the merge that is out merges.
    pub(crate) merging: Option<Run>,
    /// Components that left the list while others shared them: their files are there still. Contracts do not see them.
    pub(crate) retired: Retired<S::Frozen>,
    pub(crate) failed: bool,
}

impl<S: Store> Model for Part<S> {
    ghost use Rattle.std.specs.Arc.{arc_value};
    ghost use Rattle.std.specs.Coded.{codes};
    ghost use Rattle.std.specs.Prelude.{is_some, not, option_map};
    ghost use Rattle.tc_list.specs.Runs.{neighbours};
    ghost use Rattle.tc_memory.specs.Table.{coded_table};
    ghost use Rattle.tc_schema_model.specs.CountedCode.{coded_counted};
    ghost use Rattle.tc_part_model.specs.PartState.{PartState};
    ghost use Rattle.tc_part.specs.Ready.{IsReady};

    ghost Value = { PartState S S.Device S.Frozen S.Watch };

    ghost coded = { Prim.hlevel (codes, coded_table, coded_counted) };

    ghost view = { λ p. record {
      number = p.number;
      count = p.count;
      limits = record { names = p.limits.names; docs = p.limits.docs };
      memory = p.limits.memory;
      store = p.store;
      main = p.main;
      flusher = p.flusher;
      merger = p.merger;
      reader = p.reader;
      list = p.list;
      sealed = option_map arc_value p.sealed;
      sealed_log = p.sealed_log;
      active = p.active;
      log = p.log;
      generation = p.generation;
      staged = p.staged.items;
      taken = p.taken;
      live = p.live;
      writes = p.writes;
      flushing = not (is_some p.flusher);
      merging = option_map neighbours p.merging;
      failed = p.failed;
    } };

    ghost invariant = { λ p. IsReady (λ d. S.Device.name d) (λ f. S.Frozen.name f) p.number p.count p.list p.staged.items p.writes p.generation p.failed p.sealed p.log p.sealed_log p.flusher p.merger p.merging };
}

impl<S: Store> Part<S> {
    ghost use Rattle.std.specs.Prelude.{◌≡◌, [], true, false, length, map, is_some, option_map, IfOk};
    ghost use Rattle.tc_merge.specs.Merging.{GrowNames};
    ghost use Rattle.tc_part.specs.OwnComponents.{AreOwnComponents};
    ghost use Rattle.tc_part.specs.Ready.{active_generation};

    /// Which partition it is.
    pub fn number(&self) -> u32
        ensures { result ≡ self.now.number }
    {
        self.number
    }

    /// Gives the partition up: it counts as failed from then on, so that no job that is out is listed.
    pub fn fail(&mut self)
        ensures { self.new ≡ record self.old { failed = true } }
    {
        self.failed = true;
    }

    /// A law, and no work. The active table has the generation behind those of the components, or behind the one of the table that
    /// waits for its flush.
    pub fn generations_follow(&self)
        ensures { self.now.failed ≡ false → self.now.generation ≡ active_generation self.now.list (is_some self.now.sealed) }
    {
        // A look into the part, of which its invariant then tells.
        let _looked = self.failed;
    }

    /// A law, and no work but a look at each listed component: over every store each is one of this partition, and what its file is
    /// judged to be.
    pub fn components_are_own(&self)
        ensures { AreOwnComponents S.Frozen.content self.now.number self.now.count self.now.list }
    {
        look_over(self.list.as_slice());
    }

    /// Whether a call answered a fault.
    pub fn failed(&self) -> bool
        ensures { result ≡ self.now.failed }
    {
        self.failed
    }

    /// The length of the active log in bytes. It is 22 exactly where the log has no frame.
    pub fn log_len(&self) -> u64
        ensures { result ≡ S.Device.size self.now.log.device }
    {
        self.log.len()
    }

    /// How many keys the active table has an entry of.
    pub fn active_len(&self) -> usize
        ensures { result ≡ length self.now.active }
    {
        self.active.len()
    }

    /// The listed components, the oldest first.
    pub fn list(&self) -> &ComponentList<S::Frozen>
        ensures all { result.now ≡ self.now.list }

        // Over every store the names of each go on from those of the one before.
        ensures names { GrowNames [] result.now }
    {
        &self.list
    }

    /// The table that is to be flushed, if there is one.
    pub fn sealed(&self) -> Option<&Arc<Sealed>>
        ensures { option_map (λ table. arc_value table.now) result ≡ self.now.sealed }
    {
        self.sealed.as_ref()
    }

    /// How many components are listed.
    pub fn listed(&self) -> usize
        ensures { result ≡ length self.now.list }
    {
        self.list.len()
    }

    /// Whether there is a table that is to be flushed.
    pub fn has_sealed(&self) -> bool
        ensures { result ≡ is_some self.now.sealed }
    {
        self.sealed.is_some()
    }

    /// What the partition takes.
    pub fn limits(&self) -> Limits
        ensures names { result.names ≡ self.now.limits.names }
        ensures docs { result.docs ≡ self.now.limits.docs }
        ensures memory { result.memory ≡ self.now.memory }
    {
        self.limits
    }

    /// The lengths in bytes of the files of the listed components, the oldest first. Errs only for want of memory.
    pub fn sizes(&self, alloc: Global) -> Result<Vec<u64>, Memory>
        ensures { IfOk result (λ sizes. sizes.items ≡ map (λ c. S.Frozen.size c.file) self.now.list) }
    {
        lengths_of(alloc, self.list.as_slice())
    }
}

/// The lengths of the files of components.
fn lengths_of<F: Frozen>(
    alloc: Global,
    components: &[Arc<Component<F>>],
) -> Result<Vec<u64>, Memory>
    ensures { IfOk result (λ lengths. lengths.items ≡ map (λ c. F.size c.file) (map arc_value components.now)) }
{
    let mut lengths = Vec::new(alloc);
    for component in components {
        lengths.push(component.file_len())?;
    }
    Ok(lengths)
}
