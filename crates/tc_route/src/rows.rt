//! The rows of several partitions, in ascending id.

ghost use Rattle.std.specs.Prelude.{◌≡◌, ◌++◌, IfOk, OnOk, fold, map};
ghost use Rattle.tc_model.specs.Keyed.{on_value};
ghost use Rattle.tc_command.specs.Rows.{row_of};
ghost use Rattle.tc_route.specs.Gathered.{texts_in_order, with_text};

use std::alloc::Global;
use std::collections::BTreeMap;
use tc_bytes::Memory;
use tc_command::{Row, Rows};

/// The rows of two lists in ascending id.
pub(crate) fn joined_rows(alloc: Global, first: Rows, more: Rows) -> Result<Rows, Memory>
    ensures { IfOk result (λ rows. rows ≡ texts_in_order (first ++ more)) }
{
    let mut all = BTreeMap::new(alloc);
    put_rows(first.into_inner(), &mut all)?;
    put_rows(more.into_inner(), &mut all)?;
    let mut rows = Vec::with_capacity(alloc, all.len())?;
    for (_id, row) in all {
        rows.push(row)?;
    }
    Ok(Rows::of(rows))
}

fn put_rows(rows: Vec<Row>, all: &mut BTreeMap<u64, Row>) -> Result<(), Memory>
    ensures { OnOk result (map (on_value row_of) all.new.entries ≡ fold with_text (map (on_value row_of) all.old.entries) (map row_of rows.items)) }
{
    for row in rows {
        drop(all.insert(row.id, row)?);
    }
    Ok(())
}
