//! Laws of what a flush makes.

ghost use Rattle.std.specs.Prelude.{◌≡◌, ◌<◌, ◌^◌, ◌+◌, ℕ, All, List, length};
ghost use Rattle.tc_model.specs.Document.{Name};
ghost use Rattle.tc_model.specs.Keyed.{Ascends, values_in};
ghost use Rattle.tc_plain_model.specs.Store.{names_after};
ghost use Rattle.tc_schema_model.specs.Counted.{Counted, documents_of};
ghost use Rattle.tc_lsm_model.specs.Contents.{Content, Partition};
ghost use Rattle.tc_lsm_model.specs.Flushes.{IsFlush};
ghost use Rattle.tc_lsm_model.specs.Lists.{live, names_of, schema_of, IsList};
ghost use Rattle.tc_lsm_model.specs.Tables.{Table, over, writes_of, shapes_held, shapes_below, KeepsShapes};
ghost use Rattle.tc_memory.specs.Table as memory;
ghost use Rattle.tc_component.specs.declared.head.Head.{Head as Header};
ghost use Rattle.tc_memory.specs.DocumentTables.{IsTableOf};
ghost use Rattle.tc_flush.specs.Counting.{IsCounted, IsShortDocument};
ghost use Rattle.tc_flush.specs.Flushable.{CanFlush, IsShortRecord};
ghost use Rattle.tc_flush.specs.Flushing.{IsBehind, flush_of};
ghost use Rattle.tc_flush.specs.Recounting.{FitsEach, all_removed};
ghost use Rattle.tc_component.specs.Rows.{part_of};

use tc_compact::names_agree;
use tc_lsm_model::{
    flushes_learn_names, lists_have_schemas, lists_know_names, newest_entries_count, tables_count,
};
use tc_memory::tables_keep_documents;
use tc_record::one_document;

/// A law, and no work. Over the newest schema and names of a list, where the table keeps the shapes of what is live there,
/// what a flush makes is the content of the table behind the list.
pub fn flushes_are_made()
    ensures { (head : Header) (cs : List Content) (t : Table) (generations : ℕ) (names : List Name) (schema : Counted) (kept : memory.Table) → IsBehind cs t generations head names schema kept
        → memory.IsTable kept → CanFlush names schema t → head.number < 2 ^ 32 → head.count < 2 ^ 32 → IsFlush (part_of head) cs t generations (flush_of head names schema t) }
{
    names_agree();
    tables_keep_documents();
    lists_know_names();
    lists_have_schemas();
    newest_entries_count();
    tables_count();
    flushes_learn_names();
}

/// A law, and no work. The newest schema of a list fits the shapes that a table behind it keeps, one after the other, and
/// once they are taken off and the table's documents are counted, so many documents are counted as are live with it.
pub fn kept_shapes_fit()
    ensures fits { (part : Partition) (cs : List Content) (t : Table) → IsList part cs → Ascends t → KeepsShapes (live cs) t → FitsEach (names_of cs) (shapes_below t) (schema_of cs) }
    ensures documents { (part : Partition) (cs : List Content) (t : Table) → IsList part cs → Ascends t → KeepsShapes (live cs) t
        → documents_of (all_removed (names_of cs) (shapes_below t) (schema_of cs)) + length (shapes_held t) ≡ length (over (live cs) t) }
{
    lists_have_schemas();
    newest_entries_count();
    tables_count();
}

/// A law, and no work. A table behind a list passes the test `counted`, where each document has a record that can be
/// compacted, and with the table there are fewer than 2^32 documents and names.
pub fn lists_are_counted()
    ensures { (part : Partition) (cs : List Content) (t : Table) (kept : memory.Table) → IsList part cs → memory.IsTable kept → IsTableOf t kept → KeepsShapes (live cs) t
        → All IsShortDocument (values_in (live cs)) → All IsShortRecord t → length (over (live cs) t) < 2 ^ 32 → length (names_after (names_of cs) (writes_of t)) < 2 ^ 32
        → IsCounted (names_of cs) (schema_of cs) kept }
{
    kept_shapes_fit();
    lists_have_schemas();
    names_agree();
    one_document();
    tables_keep_documents();
    flushes_learn_names();
}
