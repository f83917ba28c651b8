//! The newest writes by key.

ghost use Rattle.std.specs.Prelude.{◌≡◌, ◌∷◌, ◌++◌, All, List, flat_map, option_map, IfOk, OnOk};
ghost use Rattle.tc_log.specs.Writes.{write_of, IsWrite};
ghost use Rattle.tc_log.specs.declared.write.Write.{Write as OneWrite};
ghost use Rattle.tc_shown.specs.Newest.{newest_of};
ghost use Rattle.tc_view.specs.Changes.{writes_in};

use std::alloc::Global;
use std::sync::Arc;
use tc_bytes::{Bytes, Memory};
use tc_memory::Memtable;
use tc_value::Shape;
use tc_view::Chunk;

/// The table of the newest write of each key. Copies no record that a later write replaced, so it goes from the newest
/// write to the oldest. Errs only for want of memory.
pub(crate) fn newest_written(alloc: Global, chunks: &[Arc<Chunk>]) -> Result<Memtable, Memory>
    requires stored { All IsWrite (flat_map writes_in chunks.now) }
    ensures { IfOk result (λ table. table ≡ newest_of (flat_map writes_in chunks.now)) }
{
    let mut table = Memtable::new(alloc);
    let mut at = chunks.len();
    while at > 0 {
        at -= 1;
        put_all_below(alloc, &mut table, &chunks[at])?;
    }
    Ok(table)
}

/// Puts the writes of a chunk below those that a table has. Errs only for want of memory.
fn put_all_below(alloc: Global, table: &mut Memtable, chunk: &Chunk) -> Result<(), Memory>
    requires stored { All IsWrite chunk.now }
    ensures { OnOk result ((newer : List OneWrite) → table.old ≡ newest_of newer → table.new ≡ newest_of (chunk.now ++ newer)) }
{
    let mut at = chunk.len();
    while at > 0 {
        at -= 1;
        let (key, bytes) = chunk.write(at);
        put_below(alloc, table, key, bytes)?;
    }
    Ok(())
}

/// Puts a write below those that a table has, where none of them is to its key: only there it copies the record. Errs only for
/// want of memory.
fn put_below(
    alloc: Global,
    table: &mut Memtable,
    key: u64,
    bytes: Option<&[u8]>,
) -> Result<(), Memory>
    requires stored { IsWrite (write_of (key, option_map (λ b. b.now) bytes)) }
    ensures { OnOk result ((newer : List OneWrite) → table.old ≡ newest_of newer → table.new ≡ newest_of (write_of (key, option_map (λ b. b.now) bytes.entry) ∷ newer)) }
{
    if table.has(key) {
        return Ok(());
    }
    match bytes {
        Some(bytes) => table.upsert(key, Bytes::of(Vec::from_slice(alloc, bytes)?), None),
        None => table.delete(key, Some(Shape::Null)),
    }
}
