//! A bound on how long the record with names of a record with numbers is.

ghost use Rattle.std.specs.Prelude.{◌≡◌, ◌<◌, ◌+◌, ◌*◌, ◌^◌, IsTrue, length, nat_lt};
ghost use Rattle.tc_record.specs.Borrowed.{numbered_tokens};
ghost use Rattle.tc_record.specs.Record.{NumberedTree, record_of};
ghost use Rattle.tc_compact.specs.Meant.{expanded};

use tc_names::Names;
use tc_record::RecordRef;

/// The record of a document that can be stored has fewer bytes.
const LONG: u32 = 0x4000_0000;

/// Whether a record with numbers is surely short with a name in place of each: it would have fewer than 1,073,741,824 bytes
/// if each were the longest name. Where the answer is no, nothing is said of the record. Takes no memory.
pub fn is_surely_short(of: &RecordRef<'_>, names: &Names) -> bool
    ensures { IsTrue result → (n : NumberedTree) → of.now.tokens ≡ numbered_tokens n → length (record_of (expanded names.now n)) < 2 ^ 30 }
{
    let bytes = of.bytes();
    is_short_with_names(
        bytes.len(),
        of.member_count(),
        of.text_count(),
        names.longest_name(),
    )
}

/// Whether a record of so many bytes, members and texts is short with a name in place of each number, and names of at most so
/// many bytes. The slot of a name has at most four bytes, and so has the length of a text.
fn is_short_with_names(len: usize, members: u32, texts: u32, longest: u32) -> bool
    ensures { result ≡ nat_lt (len + (members * (longest + 4) + texts * 4)) (2 ^ 30) }
{
    let slots = u64::from(members).saturating_mul(u64::from(longest) + 4);
    let most = slots.saturating_add(u64::from(texts) * 4);
    most.saturating_add(len as u64) < u64::from(LONG)
}
