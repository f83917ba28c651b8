//! How long the record with names of a record with numbers is.

ghost use Rattle.std.specs.Prelude.{IsTrue, ◌≡◌, ◌≤◌, ◌<◌, ◌+◌, ◌*◌, ◌^◌, IfSome, IfNone, nat_lt, if◌then◌else◌, false, length};
ghost use Rattle.std.specs.List.{AllByRecursion};
ghost use Rattle.tc_record.specs.Record.{header_size, labels, in_bytes, NumberedTree, record_of};
ghost use Rattle.tc_record.specs.Borrowed.{IsBelow, numbered_tokens};
ghost use Rattle.tc_record.specs.Sections.{least_width};
ghost use Rattle.tc_compact.specs.Meant.{expanded, HasRoom};

use crate::dictionary::is_dictionary;
use crate::layout::values_len;
use crate::slot_sum::{SlotSum, sum_of_names};
use tc_names::Names;
use tc_record::{HEADER_SIZE, NAMED_FORM, RecordRef};

/// The length of the record of form 0 of a record of form 1 or 2 under a dictionary. `None` comes exactly where a number has no
/// name, or where the record would have 4,294,967,296 bytes or more. Takes no memory.
pub fn expanded_size(of: RecordRef<'_>, names: &Names) -> Option<u32>
    requires numbered { of.named ≡ false }
    ensures known { IfSome result (λ len. AllByRecursion (IsBelow (length names.now)) (labels of.entry.tokens)) }
    ensures size { IfSome result (λ len. (n : NumberedTree) → of.entry.tokens ≡ numbered_tokens n → len ≡ length (record_of (expanded names.now n))) }
    ensures none { IfNone result (AllByRecursion (IsBelow (length names.now)) (labels of.entry.tokens) → (n : NumberedTree) → of.entry.tokens ≡ numbered_tokens n → 2 ^ 32 ≤ length (record_of (expanded names.now n))) }
{
    is_dictionary(names);
    if !of.numbers_below(names.len()) {
        return None;
    }
    let _bytes = of.bytes();
    let sum = sum_of_names(&of, names);
    let values = values_len(NAMED_FORM, &of);
    len_with_names(values, sum)
}

/// Whether a record with numbers has names and is short enough with them. One with names has and is. The members of a record
/// are walked only where it could grow too long with the longest name in place of each number.
pub(crate) fn has_room(of: &RecordRef<'_>, names: &Names) -> bool
    ensures room { IsTrue result → of.now.named ≡ false → HasRoom names.now of.now }
    ensures none { result ≡ false → (of.now.named ≡ false) × (HasRoom names.now of.now → ⊥) }
{
    if of.named() {
        return true;
    }
    let bytes = of.bytes();
    if of.numbers_below(names.len())
        && is_short_with_names(
            bytes.len(),
            of.member_count(),
            of.text_count(),
            names.longest_name(),
        )
    {
        return true;
    }
    match expanded_size(of.again(), names) {
        Some(_len) => true,
        None => false,
    }
}

/// Whether a record of so many bytes, members and texts is shorter than 2^32 bytes with a name in place of each number, and names of
/// at most so many bytes. The slot of a name has at most four bytes, and so has the length of a text.
fn is_short_with_names(len: usize, members: u32, texts: u32, longest: u32) -> bool
    ensures { result ≡ nat_lt (len + (members * (longest + 4) + texts * 4)) (2 ^ 32) }
{
    let slots = u64::from(members).saturating_mul(u64::from(longest) + 4);
    let most = slots.saturating_add(u64::from(texts) * 4);
    most.saturating_add(len as u64) < 0x1_0000_0000
}

/// The length of a record of form 0 whose columns before the slots have so many bytes, if it has 32 bits.
pub(crate) fn len_with_names(values: usize, sum: SlotSum) -> Option<u32>
    requires { header_size + values + sum.count * 4 < 2 ^ 63 }
    ensures { result ≡ (if nat_lt (header_size + values + sum.count * least_width in_bytes sum.count sum.greatest + sum.name_bytes) (2 ^ 32) then Some (header_size + values + sum.count * least_width in_bytes sum.count sum.greatest + sum.name_bytes) else None) }
{
    let len = (HEADER_SIZE + values + sum.count * usize::from(sum.width().bytes())).saturating_add(
        sum.name_bytes,
    );
    if len < 0x1_0000_0000 {
        Some(len as u32)
    } else {
        None
    }
}
