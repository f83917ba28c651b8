//! The field of a name or of its number, found by a guess at its place. Documents of one kind have the same names in the
//! same order, so that most guesses are right, and then the name is compared and not looked up.

ghost use Rattle.std.specs.Prelude.{◌≡◌, ◌≢◌, ◌<◌, ◌^◌, IfOk, IfSome, IfNone, IsOk, IsTrue, OnOk, is_some, length, map, slice_get, slice_set, Some};
ghost use Rattle.tc_model.specs.Dictionary.{learned, number_of, number};
ghost use Rattle.tc_record.specs.WalkView.{key_of};
ghost use Rattle.tc_record.specs.Building.{name_told};
ghost use Rattle.tc_schema_model.specs.Counted.{Counted, nothing, field_at, AreFieldsOrdered};
ghost use Rattle.tc_schema_model.specs.Added.{put_field};
ghost use Rattle.tc_schema.specs.Places.{field_counted, fields_counted, listed};
ghost use Rattle.tc_schema.specs.Search.{IsPlaceOf};
ghost use Rattle.tc_infer.specs.Levels.{name_under};

use crate::counting::place_of;
use crate::tokens::name_in;
use std::alloc::{AllocError, Global};
use tc_bytes::Memory;
use tc_names::Names;
use tc_record::Label;
use tc_schema::{Field, search_fields};

/// Names of no more bytes are compared byte by byte.
const FEW_BYTES: usize = 4;

/// Where the field of a label stands, whatever the guess: that of the name that it carries, or whose number it carries. One
/// where nothing is counted is made where there is none.
pub fn place_of_label(
    label: Label<'_>,
    guess: usize,
    names: &Names,
    fields: &mut Vec<Field>,
    alloc: Global,
) -> Result<usize, AllocError>
    requires known { IsTrue (is_some (number_of names.now (name_under names.now (key_of label)))) }
    requires ordered { AreFieldsOrdered 0 (fields_counted fields.old.items) }
    ensures inside { IfOk result (λ i. i < length fields.new.items) }
    ensures here { IfOk result (λ i. slice_get (map field_counted fields.new.items) i ≡ Some (number names.now (name_under names.now (key_of label.entry)), field_at (number names.now (name_under names.now (key_of label.entry))) (fields_counted fields.old.items))) }
    ensures sure { field_at (number names.now (name_under names.now (key_of label.entry))) (fields_counted fields.old.items) ≢ nothing → IsOk result }
    ensures written { IfOk result (λ i. (d : Counted) → listed (slice_set (map field_counted fields.new.items) i (number names.now (name_under names.now (key_of label.entry)), d)) ≡ put_field (number names.now (name_under names.now (key_of label.entry))) d (fields_counted fields.old.items)) }
{
    match known_number(label, names) {
        Some(number) => place_of_number(number, guess, fields, alloc),
        None => place_by_guess(name_in(label), guess, names, fields, alloc),
    }
}

/// The number of the name that a label carries, or whose number it carries, if the dictionary has that name.
pub fn number_of_label(label: Label<'_>, names: &Names) -> Option<u32>
    ensures { result ≡ number_of names.now (name_under names.now (key_of label.entry)) }
{
    match known_number(label, names) {
        Some(number) => Some(number),
        None => names.id_of(name_in(label)),
    }
}

/// The number that a label carries in place of a name, if it has one. Where it has none it means no other name than it is.
fn known_number(label: Label<'_>, names: &Names) -> Option<u32>
    ensures some { IfSome result (λ n. number_of names.now (name_under names.now (key_of label.entry)) ≡ Some n) }
    ensures none { IfNone result (name_under names.now (key_of label.entry) ≡ name_told (key_of label.entry)) }
{
    // that the names are distinct
    let known = names.len();
    match label {
        Label::Number(number) => { if number < known { Some(number) } else { None } }
        Label::Name(_) => None,
        Label::Bare => None,
    }
}

/// Where the field of a number stands, whatever the guess.
fn place_of_number(
    number: u32,
    guess: usize,
    fields: &mut Vec<Field>,
    alloc: Global,
) -> Result<usize, AllocError>
    requires ordered { AreFieldsOrdered 0 (fields_counted fields.old.items) }
    ensures inside { IfOk result (λ i. i < length fields.new.items) }
    ensures here { IfOk result (λ i. slice_get (map field_counted fields.new.items) i ≡ Some (number, field_at number (fields_counted fields.old.items))) }
    ensures sure { field_at number (fields_counted fields.old.items) ≢ nothing → IsOk result }
    ensures written { IfOk result (λ i. (d : Counted) → listed (slice_set (map field_counted fields.new.items) i (number, d)) ≡ put_field number d (fields_counted fields.old.items)) }
{
    if has_number_at(fields, guess, number) {
        return Ok(guess);
    }
    place_of(number, fields, alloc)
}

/// Where the field of a number stands, whatever the guess, if there is one.
pub fn field_by_guess(fields: &[Field], guess: usize, number: u32) -> Option<usize>
    requires ordered { AreFieldsOrdered 0 (fields_counted fields.now) }
    ensures found { IfSome result (IsPlaceOf number (map field_counted fields.now)) }
    ensures missing { IfNone result (field_at number (fields_counted fields.now) ≡ nothing) }
{
    if has_number_at(fields, guess, number) {
        return Some(guess);
    }
    match search_fields(fields, number) {
        Ok(place) => Some(place),
        Err(_gap) => None,
    }
}

/// Whether the field of a number stands just there.
fn has_number_at(fields: &[Field], at: usize, number: u32) -> bool
    requires { AreFieldsOrdered 0 (fields_counted fields.now) }
    ensures { IsTrue result → IsPlaceOf number (map field_counted fields.now) at }
{
    if at >= fields.len() {
        return false;
    }
    fields[at].number == number
}

/// Where the field of a name stands, whatever the guess. One where nothing is counted is made where there is none.
fn place_by_guess(
    name: &str,
    guess: usize,
    names: &Names,
    fields: &mut Vec<Field>,
    alloc: Global,
) -> Result<usize, AllocError>
    requires known { IsTrue (is_some (number_of names.now name.now)) }
    requires ordered { AreFieldsOrdered 0 (fields_counted fields.old.items) }
    ensures inside { IfOk result (λ i. i < length fields.new.items) }
    ensures here { IfOk result (λ i. slice_get (map field_counted fields.new.items) i ≡ Some (number names.now name.now, field_at (number names.now name.now) (fields_counted fields.old.items))) }
    ensures sure { field_at (number names.now name.now) (fields_counted fields.old.items) ≢ nothing → IsOk result }
    ensures written { IfOk result (λ i. (d : Counted) → listed (slice_set (map field_counted fields.new.items) i (number names.now name.now, d)) ≡ put_field (number names.now name.now) d (fields_counted fields.old.items)) }
{
    if stands_at(fields, guess, names, name) {
        return Ok(guess);
    }
    let number = names.id_of(name).unwrap();
    place_of(number, fields, alloc)
}

/// The same of a name that is learned, if it is new.
pub fn place_learned(
    name: &str,
    guess: usize,
    names: &mut Names,
    fields: &mut Vec<Field>,
    alloc: Global,
) -> Result<usize, Memory>
    requires room { length (learned names.old name.now) < 2 ^ 32 }
    requires short { length name.now < 2 ^ 32 }
    requires ordered { AreFieldsOrdered 0 (fields_counted fields.old.items) }
    ensures learned { OnOk result (names.new ≡ learned names.old name.now) }
    ensures inside { IfOk result (λ i. i < length fields.new.items) }
    ensures here { IfOk result (λ i. slice_get (map field_counted fields.new.items) i ≡ Some (number names.new name.now, field_at (number names.new name.now) (fields_counted fields.old.items))) }
    ensures written { IfOk result (λ i. (d : Counted) → listed (slice_set (map field_counted fields.new.items) i (number names.new name.now, d)) ≡ put_field (number names.new name.now) d (fields_counted fields.old.items)) }
{
    if stands_at(fields, guess, names, name) {
        return Ok(guess);
    }
    let number = names.learn(name)?;
    Ok(place_of(number, fields, alloc)?)
}

/// Whether the field of a name that is known stands just there.
fn stands_at(fields: &[Field], at: usize, names: &Names, name: &str) -> bool
    requires { AreFieldsOrdered 0 (fields_counted fields.now) }
    ensures known { IsTrue result → IsTrue (is_some (number_of names.now name.now)) }
    ensures place { IsTrue result → IsPlaceOf (number names.now name.now) (map field_counted fields.now) at }
{
    // that the names are distinct
    let _known = names.len();
    if at >= fields.len() {
        return false;
    }
    match names.name_of(fields[at].number) {
        Some(known) => are_same(known, name),
        None => false,
    }
}

/// Whether two names are the same. Most are short, and a few bytes cost less to compare than a call does.
#[inline(always)]
fn are_same(name: &str, other: &str) -> bool
    ensures { IsTrue result → name.now ≡ other.now }
{
    let (bytes, others) = (name.as_bytes(), other.as_bytes());
    if bytes.len() > FEW_BYTES {
        return name == other;
    }
    if bytes.len() != others.len() {
        return false;
    }
    let mut at = 0;
    'bytes: while at < bytes.len() {
        if bytes[at] != others[at] {
            return false;
        }
        at += 1;
    }
    true
}
