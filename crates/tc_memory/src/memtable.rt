//! The table that writes go into.

use crate::entries::Entries;
use crate::held::Held;
use crate::sealed::Sealed;
use crate::slot::{Slot, Version, apart};
use std::alloc::Global;
use std::collections::BTreeMap;
use std::marker::Model;
use tc_bytes::{Bytes, Memory};
use tc_value::Shape;

/// The newest writes by key, each with the shape of the document that its key has below the table. Contracts see the
/// list of the entries in ascending key. Each call takes time logarithmic in their number.
pub struct Memtable {
    slots: BTreeMap<u64, Slot>,
    alloc: Global,
}

impl Model for Memtable {
    ghost use Rattle.tc_memory.specs.Table.{Table, IsTable, coded_table};

    ghost Value = { Table };

    ghost coded = { coded_table };

    ghost use Rattle.tc_memory.specs.Meaning.{table_of};

    ghost view = { λ a. table_of a.slots.entries };

    ghost invariant = { λ a. IsTable (table_of a.slots.entries) };
}

impl Drop for Memtable {
    /// One call, so that whoever drops a table sees nothing of its map.
    fn drop(self) {
        let Memtable { slots, alloc: _ } = self;
        drop(slots);
    }
}

impl Memtable {
    ghost use Rattle.std.specs.Prelude.{◌≡◌, ◌<◌, ◌^◌, [], length, option_map, is_some, IfSome, OnOk, OnErr};
    ghost use Rattle.tc_value.specs.ShapeMeaning.{shape_tree};
    ghost use Rattle.tc_model.specs.Keyed.{value_of};
    ghost use Rattle.tc_memory.specs.Table.{IsTable, IsLawfulKept, below_at, holding, upserted, deleted};
    ghost use Rattle.tc_record.specs.StoredRecord.{IsStoredRecord};
    ghost use Rattle.tc_memory.specs.Meaning.{held_of, version_of, IsLawfulHeld};

    /// A table with no entry.
    pub fn new(alloc: Global) -> Memtable
        ensures empty { result ≡ [] }
    {
        Memtable {
            slots: BTreeMap::new(alloc),
            alloc,
        }
    }

    /// How many entries there are.
    pub fn len(&self) -> usize
        ensures count { result ≡ length self.now }
        ensures table { IsTable self.now }
    {
        self.slots.len()
    }

    /// Whether the key has an entry.
    pub fn has(&self, key: u64) -> bool
        ensures found { result ≡ is_some (value_of key self.now) }
    {
        self.slots.contains_key(&key)
    }

    /// What is held of a key. `None` comes exactly where the key has no entry.
    pub fn get(&self, key: u64) -> Option<Held<'_>>
        ensures held { option_map held_of result ≡ option_map (λ k. k.held) (value_of key self.now) }
        ensures lawful { IfSome result IsLawfulHeld }
    {
        match self.slots.get(&key) {
            Some(slot) => Some(slot.version.lend()),
            None => None,
        }
    }

    /// The entries in ascending key, each once.
    pub fn entries(&self) -> Entries<'_>
        ensures all { result ≡ self.now }
        ensures table { IsTable self.now }
    {
        Entries {
            slots: self.slots.iter(),
        }
    }

    /// Holds the record of a key's new document. An entry that is there keeps its shape, and a new one keeps the one
    /// handed in. Errs only for want of memory.
    pub fn upsert(&mut self, key: u64, bytes: Bytes, below: Option<Shape>) -> Result<(), Memory>
        requires key { key < 2 ^ 63 }
        requires record { IsStoredRecord bytes }
        ensures ok { OnOk result (self.new ≡ upserted key bytes (option_map shape_tree below) self.old) }
        ensures err { OnErr result (self.new ≡ self.old) }
    {
        self.hold(key, Version::Live(bytes), below)
    }

    /// Holds that a key's document is gone, where the shape that its entry keeps, or that is handed in where it has
    /// no entry, says that it has one below; else takes the entry out. Errs only for want of memory.
    pub fn delete(&mut self, key: u64, below: Option<Shape>) -> Result<(), Memory>
        requires key { key < 2 ^ 63 }
        ensures ok { OnOk result (self.new ≡ deleted key (option_map shape_tree below) self.old) }
        ensures err { OnErr result (self.new ≡ self.old) }
    {
        if self.is_below(key, &below) {
            return self.hold(key, Version::Gone, below);
        }
        drop(below);
        drop(self.slots.remove(&key));
        Ok(())
    }

    /// The table, which no write goes into any more. Takes no memory.
    pub fn seal(self) -> Sealed
        ensures same { result ≡ self }
    {
        Sealed::of(self)
    }

    /// Whether a key has a document below the table, by the shape that its entry keeps, or that is handed in where it
    /// has no entry.
    fn is_below(&self, key: u64, handed: &Option<Shape>) -> bool
        ensures { result ≡ is_some (below_at key (option_map shape_tree handed.now) self.now) }
    {
        match self.slots.get(&key) {
            Some(slot) => slot.below.is_some(),
            None => handed.is_some(),
        }
    }

    /// Holds a version of a key's document.
    fn hold(&mut self, key: u64, version: Version, below: Option<Shape>) -> Result<(), Memory>
        requires key { key < 2 ^ 63 }
        requires lawful { IsLawfulKept (version_of version) (below_at key (option_map shape_tree below) self.old) }
        ensures ok { OnOk result (self.new ≡ holding key (version_of version) (option_map shape_tree below) self.old) }
        ensures err { OnErr result (self.new ≡ self.old) }
    {
        if let Some(slot) = self.slots.get_mut(&key) {
            slot.version = version;
            return Ok(());
        }
        let below = apart(self.alloc, below)?;
        self.slots.insert(key, Slot { version, below })?;
        Ok(())
    }
}
