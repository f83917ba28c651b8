//! Whether a record spells a document as it is stored, by another one that does.

ghost use Rattle.std.specs.Prelude.{◌≡◌, IsTrue, false, option_map};
ghost use Rattle.tc_model.specs.Document.{document_shape};
ghost use Rattle.tc_audit.specs.Stored.{IsStoredIn};
ghost use Rattle.tc_audit.specs.Told.{document_in};

use tc_alike::spells_like;
use tc_compact::document_meant;
use tc_names::Names;
use tc_record::RecordRef;

/// Whether a record spells a document as it is stored since another one does, which has the same tags and the same numbers. Both
/// documents have then one shape. Where the answer is no, nothing is said of the record. Takes no memory.
pub(crate) fn is_stored_like(of: &RecordRef<'_>, other: &[u8], names: &Names) -> bool
    requires numbered { of.now.named ≡ false }
    requires stored { IsStoredIn of.now.form names.now other.now }
    ensures stored { IsTrue result → IsStoredIn of.now.form names.now of.now.bytes }
    ensures shape { IsTrue result → option_map document_shape (document_in names.now of.now.bytes) ≡ option_map document_shape (document_in names.now other.now) }
{
    // that the names are a dictionary, that the bytes spell a numbered tree, and what the tokens of a record mean
    let _known = names.len();
    let _bytes = of.bytes();
    document_meant();
    spells_like(of, other, names)
}
