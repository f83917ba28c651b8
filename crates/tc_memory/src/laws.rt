//! Laws of the calls on a memory table, which hold of the definitions that its contracts cite.

ghost use Rattle.std.specs.Prelude.{◌≡◌, ℕ, Option, option_map};
ghost use Rattle.tc_model.specs.Document.{Document, IsDocument, ShapeTree};
ghost use Rattle.tc_model.specs.Keyed.{Ascends, value_of};
ghost use Rattle.tc_model.specs.Stored.{IsStorable};
ghost use Rattle.tc_record.specs.Record.{record_of};
ghost use Rattle.tc_plain_model.specs.Writes.{set, unset};
ghost use Rattle.tc_lsm_model.specs.Tables as documents;
ghost use Rattle.tc_memory.specs.Calls.{CallsChangeOneKey, CallsKeepFirstShapes, CallsKeepShapesBelow};
ghost use Rattle.tc_memory.specs.DocumentTables.{IsTableOf, OfDocuments, kept_slot};
ghost use Rattle.tc_memory.specs.Table.{Table, IsTable, upserted, deleted};

/// The law that a call changes what its key has, and nothing else.
pub fn calls_change_one_key()
    ensures { CallsChangeOneKey }
{}

/// The law that over any list of calls an entry keeps the shape that it was made with, as long as its key has an
/// entry.
pub fn calls_keep_first_shapes()
    ensures { CallsKeepFirstShapes }
{}

/// The law that where each new entry is handed the shape of what its key has below the table, all entries keep these.
pub fn calls_keep_shapes_below()
    ensures { CallsKeepShapesBelow }
{}

/// The law that a call on the memory table that keeps documents as records is the write to the table of documents, where
/// the call hands in the shape of what the key has below.
pub fn calls_are_writes()
    ensures upserted { (below : ℕ → Option ShapeTree) (key : ℕ) (d : Document) (t : documents.Table) (kept : Table) → IsDocument d → IsStorable d → IsTableOf t kept
        → IsTableOf (documents.table_with below t (set key d)) (upserted key (record_of d) (below key) kept) }
    ensures deleted { (below : ℕ → Option ShapeTree) (key : ℕ) (t : documents.Table) (kept : Table) → IsTableOf t kept → IsTableOf (documents.table_with below t (unset key)) (deleted key (below key) kept) }
{}

/// The law that a lawful memory table keeps a table of documents, with the same keys in order, and has of each key what
/// that has.
pub fn tables_keep_documents()
    ensures some { (kept : Table) → IsTable kept → OfDocuments kept }
    ensures found { (t : documents.Table) (kept : Table) (key : ℕ) → IsTableOf t kept → value_of key kept ≡ option_map kept_slot (value_of key t) }
    ensures ascends { (t : documents.Table) (kept : Table) → IsTableOf t kept → IsTable kept → Ascends t }
{}
