//! Whether two records have the same tags and the same numbers in place of names, as their bytes tell.

ghost use Rattle.std.specs.Prelude.{◌≡◌, ◌≤◌, ◌-◌, ℕ, IfSome, IsTrue, drop, length};
ghost use Rattle.tc_bits.specs.Bits.{column_size};
ghost use Rattle.tc_record.specs.Preorder.{tokens_of};
ghost use Rattle.tc_record.specs.Record.{NumberedTree, IsNumberedForm, IsNumberedRecordIn, spelling_of};
ghost use Rattle.tc_alike.specs.Alike.{AreAlike};

use tc_bits::size_of_column;
use tc_record::{HEADER_SIZE, PACKED_FORM, RecordRef};

/// Where the form stands in a header. The count of tags follows.
const FORM_AT: usize = 4;

/// Where the count of tags ends.
const FORM_END: usize = 9;

/// Where the count of numbers stands. Their width follows, and then the tags.
const NUMBERS_AT: usize = 18;

/// Where the width of numbers stands.
const WIDTH_AT: usize = 22;

/// Whether other bytes have the form, the tags and the numbers of a record without names, each where it stands in one. The
/// numbers come last. Takes no memory, and looks at no value.
pub fn is_alike(of: &RecordRef<'_>, other: &[u8]) -> bool
    ensures { IsTrue result → (own form : ℕ) (n m : NumberedTree) → IsNumberedForm own → IsNumberedRecordIn own n of.now.bytes → IsNumberedRecordIn form m other.now → AreAlike (tokens_of n) (tokens_of m) }
{
    let bytes = of.bytes();
    let tagged = HEADER_SIZE + of.token_count() as usize;
    if bytes.len() < tagged || other.len() < tagged {
        return false;
    }
    if bytes[FORM_AT..FORM_END] != other[FORM_AT..FORM_END] {
        return false;
    }
    if bytes[NUMBERS_AT..tagged] != other[NUMBERS_AT..tagged] {
        return false;
    }
    let Some(size) = size_of_numbers(of.form(), bytes[WIDTH_AT], of.member_count()) else {
        return false;
    };
    ends_alike(bytes, other, size)
}

/// How many bytes so many numbers have in a form, by the width that is told. There are no more than 32 bits to each.
fn size_of_numbers(form: u8, width: u8, count: u32) -> Option<usize>
    ensures { IfSome result (λ size. size ≡ column_size count ((spelling_of form).bits width)) }
{
    let bits = if form == PACKED_FORM {
        width
    } else {
        width.saturating_mul(8)
    };
    if bits > 32 {
        return None;
    }
    Some(size_of_column(count, bits) as usize)
}

/// Whether so many last bytes are the same.
fn ends_alike(bytes: &[u8], other: &[u8], size: usize) -> bool
    ensures { IsTrue result → (size ≤ length bytes.now) × (size ≤ length other.now) × (drop (length bytes.now - size) bytes.now ≡ drop (length other.now - size) other.now) }
{
    if bytes.len() < size || other.len() < size {
        return false;
    }
    bytes[bytes.len() - size..] == other[other.len() - size..]
}

/// The bytes in which the numbers of a record without names stand, or none. Takes no memory.
pub fn numbers_of<'a>(of: &RecordRef<'a>) -> &'a [u8] {
    let bytes = of.bytes();
    let tagged = HEADER_SIZE + of.token_count() as usize;
    if bytes.len() < tagged {
        return &bytes[..0];
    }
    match size_of_numbers(of.form(), bytes[WIDTH_AT], of.member_count()) {
        Some(size) => {
            if size <= bytes.len() {
                &bytes[bytes.len() - size..]
            } else {
                &bytes[..0]
            }
        }
        None => &bytes[..0],
    }
}
