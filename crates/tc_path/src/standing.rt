//! The value that stands where a path leads in a record.

ghost use Rattle.std.specs.Prelude.{◌≡◌, ◌∷◌, ◌++◌, ℕ, ℤ, List, Bool, IfSome, false, bytes_eq, drop};
ghost use Rattle.tc_model.specs.Dictionary.{IsDictionary};
ghost use Rattle.tc_model.specs.Document.{Name, Document, boolean, integer, IsScalar};
ghost use Rattle.tc_value.specs.Meaning.{tree_of};
ghost use Rattle.tc_record.specs.Record.{fixed, scalar_fixed, texts, NumberedTree};
ghost use Rattle.tc_compact.specs.Meant.{expanded, IsRecordUnder};
ghost use Rattle.tc_request_model.specs.Request.{Hop};
ghost use Rattle.tc_request_model.specs.Paths.{reached};
ghost use Rattle.tc_request_model.specs.Equal.{same_document, same_scalar};
ghost use Rattle.tc_request_model.specs.Rows.{is_among};
ghost use Rattle.tc_path.specs.Leads.{AreHops, IsLead};
ghost use Rattle.tc_path.specs.Spots.{StandsAt};

use crate::leading::{Lead, Spot};
use crate::trail::{ARRAY_TAG, BOOLEAN_TAG, INTEGER_TAG, NULL_TAG, OBJECT_TAG, TEXT_TAG};
use tc_bytes::{slice_at, u8_at, u64_at};
use tc_record::RecordRef;
use tc_value::Doc;

/// Whether a path reaches a document in a record without names, by where it leads there. `None` where that does not tell: where it
/// leads to an array or an object as the document is one, or was not looked at. Takes no memory.
pub fn reaches_at(of: &RecordRef<'_>, lead: Lead, doc: &Doc) -> Option<bool>
    requires { of.now.named ≡ false }
    ensures { IfSome result (λ found. (names : List Name) (path : List Hop) (hops : List ℕ) (d : Document) → IsDictionary names → AreHops names path hops → IsLead hops of.now.tokens lead → IsRecordUnder names d of.now.bytes → found ≡ is_among (tree_of doc.now) (reached path d)) }
{
    // that the bytes spell a numbered tree
    let _bytes = of.bytes();
    match lead {
        Lead::Unknown => None,
        Lead::Nowhere => Some(false),
        Lead::To(spot) => is_at(of, spot, doc),
    }
}

/// Whether the value at a spot is a document. `None` where both are arrays, or objects.
fn is_at(of: &RecordRef<'_>, spot: Spot, doc: &Doc) -> Option<bool>
    ensures { IfSome result (λ same. (names : List Name) (t : NumberedTree) → StandsAt of.now.tokens spot t → same ≡ same_document (expanded names t) (tree_of doc.now)) }
{
    match doc {
        Doc::Null => Some(spot.tag == NULL_TAG),
        Doc::Bool(value) => Some(spot.tag == BOOLEAN_TAG && has_bool(of, spot.fixed, *value)),
        Doc::Int(value) => Some(spot.tag == INTEGER_TAG && has_int(of, spot.fixed, *value)),
        Doc::Text(value) => Some(spot.tag == TEXT_TAG && has_text(of, spot.texts, value.as_str())),
        Doc::Array(_) => if spot.tag == ARRAY_TAG {
            None
        } else {
            Some(false)
        },
        Doc::Object(_) => if spot.tag == OBJECT_TAG {
            None
        } else {
            Some(false)
        },
    }
}

/// Whether the fixed bytes from a place on begin with a boolean.
fn has_bool(of: &RecordRef<'_>, at: usize, value: bool) -> bool
    ensures { (own : Bool) (more : List ℕ) → drop at (fixed of.now.tokens) ≡ scalar_fixed (boolean own) ++ more → result ≡ same_scalar (boolean own) (boolean value) }
{
    match u8_at(fixed_from(of, at)) {
        Some((byte, _)) => (byte == 1) == value,
        None => false,
    }
}

/// Whether the fixed bytes from a place on begin with an integer.
fn has_int(of: &RecordRef<'_>, at: usize, value: i64) -> bool
    ensures { (own : ℤ) (more : List ℕ) → IsScalar (integer own) → drop at (fixed of.now.tokens) ≡ scalar_fixed (integer own) ++ more → result ≡ same_scalar (integer own) (integer value) }
{
    match u64_at(fixed_from(of, at)) {
        Some((bits, _)) => bits.cast_signed() == value,
        None => false,
    }
}

/// The fixed bytes from a place on, of which there may be none.
fn fixed_from<'a>(of: &RecordRef<'a>, at: usize) -> &'a [u8]
    ensures { result.now ≡ drop at (fixed of.now.tokens) }
{
    match slice_at(of.fixed(), at) {
        Some((_, rest)) => rest,
        None => &of.fixed()[..0],
    }
}

/// Whether the texts of a record from a place on, counted from 0, begin with this one.
fn has_text(of: &RecordRef<'_>, which: usize, text: &str) -> bool
    ensures { (own : List ℕ) (more : List (List ℕ)) → drop which (texts of.now.tokens) ≡ own ∷ more → result ≡ bytes_eq own text.now }
{
    let mut lengths = of.text_lengths();
    let mut rest = of.texts();
    let mut left = which;
    while let Some(len) = lengths.next() {
        let Some((own, more)) = slice_at(rest, len as usize) else {
            return false;
        };
        if left == 0 {
            return own == text.as_bytes();
        }
        rest = more;
        left -= 1;
    }
    false
}
