//! Whether a record spells a document, by another one that does.

ghost use Rattle.std.specs.Prelude.{◌≡◌, ◌<◌, ◌^◌, ℕ, IsTrue, false, length};
ghost use Rattle.tc_model.specs.Document.{Document, document_shape};
ghost use Rattle.tc_record.specs.Borrowed.{numbered_tokens};
ghost use Rattle.tc_record.specs.Preorder.{tokens_of};
ghost use Rattle.tc_record.specs.Record.{NumberedTree, IsNumberedForm, IsNumberedRecordIn, record_of};
ghost use Rattle.tc_compact.specs.Meant.{expanded, IsRecordUnder};
ghost use Rattle.tc_alike.specs.Alike.{AreAlike};
ghost use Rattle.tc_alike.specs.Known.{IsKnownUnder};

use crate::alike::is_alike;
use crate::bound::is_surely_short;
use tc_names::Names;
use tc_record::RecordRef;

/// Whether a record without names spells a document under a dictionary since another one does, which has the same tags and
/// the same numbers: the order of its names is not looked at again. Both documents have then one shape, and its record with
/// names is short. Where the answer is no, nothing is said of the record. Takes no memory.
pub fn spells_like(of: &RecordRef<'_>, other: &[u8], names: &Names) -> bool
    requires numbered { of.now.named ≡ false }
    requires known { IsKnownUnder names.now other.now }
    ensures found { IsTrue result → (d : Document) × IsRecordUnder names.now d of.now.bytes }
    ensures shape { IsTrue result → (d e : Document) → IsRecordUnder names.now d of.now.bytes → IsRecordUnder names.now e other.now → document_shape d ≡ document_shape e }
    ensures short { IsTrue result → (n : NumberedTree) → of.now.tokens ≡ numbered_tokens n → length (record_of (expanded names.now n)) < 2 ^ 30 }
    ensures alike { IsTrue result → (own form : ℕ) (n m : NumberedTree) → IsNumberedForm own → IsNumberedRecordIn own n of.now.bytes → IsNumberedRecordIn form m other.now → AreAlike (tokens_of n) (tokens_of m) }
{
    // that the names are a dictionary, and that the bytes spell a numbered tree
    let _known = names.len();
    let _bytes = of.bytes();
    is_alike(of, other) && is_surely_short(of, names)
}
