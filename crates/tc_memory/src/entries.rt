//! The entries of a table, one after the other.

ghost use Rattle.std.specs.Prelude.{length};
ghost use Rattle.std.specs.Iterator.{at_most};
ghost use Rattle.std.specs.Map.Iter.{TakesFirst};
ghost use Rattle.tc_memory.specs.Meaning.{entry_of};

use crate::held::Entry;
use crate::slot::Slot;
use std::collections::btree_map;
use std::marker::Model;

/// Goes over the entries of a table in ascending key. Contracts see the list of those that are left.
#[derive(Drop)]
pub struct Entries<'a> {
    pub(crate) slots: btree_map::Iter<'a, u64, Slot>,
}

impl<'a> Model for Entries<'a> {
    ghost use Rattle.tc_memory.specs.Table.{Table, coded_table};

    ghost Value = { Table };

    ghost coded = { coded_table };

    ghost use Rattle.tc_memory.specs.Meaning.{table_of};

    ghost view = { λ a. table_of a.slots };
}

impl<'a> Iterator for Entries<'a> {
    type Item = Entry<'a>;

    ghost next_gives = { TakesFirst entry_of };

    ghost remaining = { λ s. at_most (length s) };

    fn next(&mut self) -> Option<Entry<'a>> {
        match self.slots.next() {
            Some((key, slot)) => Some(slot.lend(*key)),
            None => None,
        }
    }

    fn size_hint(&self) -> (usize, Option<usize>) {
        let left = self.slots.len();
        (left, Some(left))
    }
}
