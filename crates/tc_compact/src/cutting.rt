//! Parts of a record that are taken as they stand in its bytes.

ghost use Rattle.std.specs.Prelude.{◌≡◌, ◌++◌, ℕ, List, IfSome, length, map};
ghost use Rattle.tc_record.specs.Record.{tags, fixed, texts, numbered_form, spelling_of, column_in};
ghost use Rattle.tc_compact.specs.Slots.{numbers_in};

use tc_record::{HEADER_SIZE, PACKED_FORM, RecordRef};

/// The tags and the fixed bytes of a record, which stand side by side.
#[inline(always)]
pub(crate) fn tags_and_fixed<'a>(of: &RecordRef<'a>) -> &'a [u8]
    ensures { result.now ≡ tags of.now.tokens ++ fixed of.now.tokens }
{
    behind_header(of).0
}

/// The lengths of a record's texts, where each is one byte of it. Else `None`.
#[inline(always)]
pub(crate) fn lengths_in_bytes<'a>(of: &RecordRef<'a>) -> Option<&'a [u8]>
    ensures { IfSome result (λ ns. ns.now ≡ map length (texts of.now.tokens)) }
{
    if of.form() == PACKED_FORM || of.longest_text() > 255 {
        return None;
    }
    let (_, columns) = behind_header(of);
    let (lengths, _) = columns.split_at(of.text_count() as usize);
    Some(lengths)
}

/// The slots of a record of form 1, where each is one byte of it. Else `None`.
#[inline(always)]
pub(crate) fn slots_in_bytes<'a>(of: &RecordRef<'a>) -> Option<&'a [u8]>
    requires { of.now.form ≡ numbered_form }
    ensures { IfSome result (λ ns. ns.now ≡ numbers_in of.now.tokens) }
{
    if of.greatest_slot() > 255 {
        return None;
    }
    let bytes = of.bytes();
    let (_, slots) = bytes.split_at(bytes.len() - of.member_count() as usize);
    Some(slots)
}

/// The tags and the fixed bytes of a record, and all that stands behind them.
#[inline(always)]
fn behind_header<'a>(of: &RecordRef<'a>) -> (&'a [u8], &'a [u8])
    ensures front { result.0.now ≡ tags of.now.tokens ++ fixed of.now.tokens }
    ensures behind { (rest : List ℕ) × (result.1.now ≡ column_in (spelling_of of.now.form) (map length (texts of.now.tokens)) ++ rest) }
{
    let (_, body) = of.bytes().split_at(HEADER_SIZE);
    body.split_at(of.tags().len() + of.fixed().len())
}
