//! What a row works on: a table, the names and the schema below it, the calls that are to fail, and components.

use crate::lists::Shared;
use std::alloc::Global;
use std::mem;
use tc_memory::Memtable;
use tc_names::Names;
use tc_rows::{failing, unfailing, word};
use tc_schema::Schema;
use tc_store::MemWatch;

pub(crate) struct Desk {
    pub(crate) names: Names,
    pub(crate) schema: Schema,
    pub(crate) table: Memtable,
    pub(crate) loaded: Vec<Shared>,
    watch: MemWatch,
}

impl Drop for Desk {
    /// One call, so that whoever drops a desk sees nothing of what is on it.
    fn drop(self) {
        let Desk {
            names,
            schema,
            table,
            loaded,
            watch,
        } = self;
        drop(names);
        drop(schema);
        drop(table);
        drop(loaded);
        drop(watch);
    }
}

impl Desk {
    pub(crate) fn empty(alloc: Global) -> Desk {
        Desk {
            names: Names::new(alloc),
            schema: Schema::empty(alloc),
            table: Memtable::new(alloc),
            loaded: Vec::new(alloc),
            watch: unfailing(alloc),
        }
    }

    /// The device calls of these numbers are to fail.
    pub(crate) fn fails(&mut self, alloc: Global, argument: &str) -> Option<String> {
        self.watch = failing(alloc, argument)?;
        word(alloc, "ok")
    }

    pub(crate) fn take_table(&mut self, alloc: Global) -> Memtable {
        mem::replace(&mut self.table, Memtable::new(alloc))
    }

    pub(crate) fn take_watch(&mut self, alloc: Global) -> MemWatch {
        mem::replace(&mut self.watch, unfailing(alloc))
    }
}
