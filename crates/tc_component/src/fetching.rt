//! The record that is read at the place of an entry.

ghost use Rattle.std.specs.Prelude.{◌≡◌, IfSome, IfNone, OnSome};
ghost use Rattle.tc_component.specs.Fetching.{IsRecordWithin};

use tc_record::RecordRef;

/// The record of the form of a version that bytes are, if its numbers are below a limit. Takes no memory.
#[inline(always)]
pub(crate) fn record_within(version: u8, limit: u32, bytes: &[u8]) -> Option<RecordRef<'_>>
    ensures same { IfSome result (λ found. (found.bytes ≡ bytes.now) × (found.form ≡ version)) }
    ensures found { OnSome result (IsRecordWithin version limit bytes.now) }
    ensures none { IfNone result (IsRecordWithin version limit bytes.now → ⊥) }
{
    let found = RecordRef::numbered(bytes, version)?;
    if found.numbers_below(limit) {
        Some(found)
    } else {
        None
    }
}
