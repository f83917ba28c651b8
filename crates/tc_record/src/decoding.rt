//! The document of a record of form 0.

ghost use Rattle.std.specs.Prelude.{◌≡◌, IfOk, IsErrOf};
ghost use Rattle.tc_model.specs.Document.{Document};
ghost use Rattle.tc_value.specs.Meaning.{tree_of};
ghost use Rattle.tc_record.specs.Record.{IsRecordOf};
ghost use Rattle.tc_record.specs.declared.fault.RecordFault.TheVariants.{NotARecord};

use crate::building::document_of;
use crate::fault::RecordFault;
use crate::record_ref::RecordRef;
use std::alloc::Global;
use tc_value::Doc;

/// The object of depth at most 32 whose record of form 0 the bytes are. `NotARecord` comes exactly where there is none.
pub fn decode(alloc: Global, bytes: &[u8]) -> Result<Doc, RecordFault>
    ensures found { IfOk result (λ doc. IsRecordOf (tree_of doc) bytes.now) }
    ensures only { IfOk result (λ doc. (d : Document) → IsRecordOf d bytes.now → tree_of doc ≡ d) }
    ensures refused { IsErrOf result NotARecord → (d : Document) → IsRecordOf d bytes.now → ⊥ }
{
    let Some(record) = RecordRef::of(bytes) else {
        return Err(RecordFault::NotARecord);
    };
    if !record.named() {
        return Err(RecordFault::NotARecord);
    }
    match document_of(alloc, record.cursor())? {
        Some(doc) => Ok(doc),
        None => Err(RecordFault::NotARecord),
    }
}
