//! A table that no write goes into any more.

use crate::entries::Entries;
use crate::held::Held;
use crate::memtable::Memtable;
use std::marker::Model;

/// A table that never changes. Contracts see the list of its entries in ascending key.
pub struct Sealed {
    table: Memtable,
}

impl Model for Sealed {
    ghost use Rattle.tc_memory.specs.Table.{Table, coded_table};

    ghost Value = { Table };

    ghost coded = { coded_table };

    ghost view = { λ a. a.table };
}

impl Drop for Sealed {
    /// One call, so that whoever drops a sealed table sees nothing of the table in it.
    fn drop(self) {
        let Sealed { table } = self;
        drop(table);
    }
}

impl Sealed {
    ghost use Rattle.std.specs.Prelude.{◌≡◌, length, option_map, IfSome};
    ghost use Rattle.tc_model.specs.Keyed.{value_of};
    ghost use Rattle.tc_memory.specs.Table.{IsTable};
    ghost use Rattle.tc_memory.specs.Meaning.{held_of, IsLawfulHeld};

    /// This table, sealed.
    pub(crate) fn of(table: Memtable) -> Sealed
        ensures same { result ≡ table }
    {
        Sealed { table }
    }

    /// How many entries there are.
    pub fn len(&self) -> usize
        ensures count { result ≡ length self.now }
        ensures table { IsTable self.now }
    {
        self.table.len()
    }

    /// What is held of a key. `None` comes exactly where the key has no entry.
    pub fn get(&self, key: u64) -> Option<Held<'_>>
        ensures held { option_map held_of result ≡ option_map (λ k. k.held) (value_of key self.now) }
        ensures lawful { IfSome result IsLawfulHeld }
    {
        self.table.get(key)
    }

    /// The entries in ascending key, each once.
    pub fn entries(&self) -> Entries<'_>
        ensures all { result ≡ self.now }
        ensures table { IsTable self.now }
    {
        self.table.entries()
    }
}
