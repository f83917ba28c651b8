//! The documents of a table counted, with their names, where nothing is written.

ghost use Rattle.std.specs.Prelude.{◌≡◌, ◌∷◌, [], OnOk};
ghost use Rattle.tc_memory.specs.DocumentTables.{IsTableOf};
ghost use Rattle.tc_memory.specs.Meaning.{IsLawfulHeld, entry_of};
ghost use Rattle.tc_lsm_model.specs.Tables.{Table, shapes_held};
ghost use Rattle.tc_flush.specs.Flushable.{CanCount};
ghost use Rattle.tc_flush.specs.Recounting.{names_with, all_added};

use tc_bytes::Memory;
use tc_compact::names_agree;
use tc_infer::add_record;
use tc_memory::{Entry, Held, Sealed, tables_keep_documents};
use tc_names::Names;
use tc_record::{RecordRef, one_document};
use tc_schema::Schema;

/// Counts all documents of a table, in ascending key, and learns their new names. Errs only for want of memory.
pub(crate) fn count_entries(
    sealed: &Sealed,
    schema: &mut Schema,
    names: &mut Names,
) -> Result<(), Memory>
    requires { (t : Table) → IsTableOf t sealed.now → CanCount names.old schema.old t }
    ensures learned { OnOk result ((t : Table) → IsTableOf t sealed.now → names.new ≡ names_with names.old (shapes_held t)) }
    ensures counted { OnOk result ((t : Table) → IsTableOf t sealed.now → schema.new ≡ all_added names.old (shapes_held t) schema.old) }
{
    one_document();
    tables_keep_documents();
    let mut entries = sealed.entries();
    while let Some(entry) = entries.next() {
        count_entry(entry, schema, names)?;
    }
    Ok(())
}

/// The same of one entry, if it has a document.
fn count_entry(entry: Entry<'_>, schema: &mut Schema, names: &mut Names) -> Result<(), Memory>
    requires lawful { IsLawfulHeld entry.held }
    requires can { (t : Table) → IsTableOf t (entry_of entry ∷ []) → CanCount names.old schema.old t }
    ensures learned { OnOk result ((t : Table) → IsTableOf t (entry_of entry.entry ∷ []) → names.new ≡ names_with names.old (shapes_held t)) }
    ensures counted { OnOk result ((t : Table) → IsTableOf t (entry_of entry.entry ∷ []) → schema.new ≡ all_added names.old (shapes_held t) schema.old) }
{
    names_agree();
    one_document();
    match entry.held {
        Held::Gone => Ok(()),
        Held::Live(bytes) => add_record(schema, names, RecordRef::known(bytes.as_slice())),
    }
}
