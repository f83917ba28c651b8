//! The names of the documents that logs set.

ghost use Rattle.std.specs.Prelude.{◌≡◌, [], ◌∷◌, List, All, IfOk, OnOk, map};
ghost use Rattle.std.specs.List.{AllByRecursion};
ghost use Rattle.tc_log.specs.Writes.{IsWrite};
ghost use Rattle.tc_memory.specs.DocumentTables.{IsTableOf};
ghost use Rattle.tc_plain_model.specs.Writes.{Write as PlainWrite};
ghost use Rattle.tc_lsm_model.specs.Tables.{table_over};
ghost use Rattle.tc_machine.specs.Logs.{all_writes, kept_write};
ghost use Rattle.tc_machine.specs.Writes.{IsStorableWrite};
ghost use Rattle.tc_check.specs.Naming.{FitBehind, PutsIn};

use std::alloc::Global;
use tc_bytes::Memory;
use tc_flush::names_fit;
use tc_log::{Write, Writes};
use tc_lsm_model::{flushes_learn_names, tables_show_writes};
use tc_memory::{Memtable, calls_are_writes};
use tc_names::Names;

/// Whether there are fewer than 2^32 names with those of the documents that logs set last at their keys. Errs only for want of
/// memory.
pub fn names_fit_behind(alloc: Global, logs: Vec<Writes>, names: &Names) -> Result<bool, Memory>
    requires { All (AllByRecursion IsWrite) logs.items }
    ensures { IfOk result (FitBehind logs.items names.now) }
{
    tables_show_writes();
    flushes_learn_names();
    let table = table_of(alloc, logs)?;
    let sealed = table.seal();
    let fit = names_fit(&sealed, names)?;
    Ok(fit)
}

/// The table that the writes of logs make over nothing.
fn table_of(alloc: Global, logs: Vec<Writes>) -> Result<Memtable, Memory>
    requires { All (AllByRecursion IsWrite) logs.items }
    ensures { IfOk result (λ table. (kept : List (List PlainWrite)) → logs.items ≡ map (map kept_write) kept → All IsStorableWrite (all_writes kept) → IsTableOf (table_over [] (all_writes kept)) table) }
{
    let mut table = Memtable::new(alloc);
    for log in logs {
        put_log(log, &mut table)?;
    }
    Ok(table)
}

fn put_log(log: Writes, table: &mut Memtable) -> Result<(), Memory>
    requires { AllByRecursion IsWrite log }
    ensures { OnOk result (PutsIn log table.old table.new) }
{
    for write in log.into_inner() {
        put_write(write, table)?;
    }
    Ok(())
}

fn put_write(write: Write, table: &mut Memtable) -> Result<(), Memory>
    requires { IsWrite write }
    ensures { OnOk result (PutsIn (write ∷ []) table.old table.new) }
{
    calls_are_writes();
    match write {
        Write::Upsert { key, bytes } => table.upsert(key, bytes, None),
        Write::Delete { key } => table.delete(key, None),
    }
}
