//! The bytes of a record, cut into its columns.

ghost use Rattle.std.specs.Prelude.{◌≡◌, ◌≤◌, ◌<◌, ◌*◌, ◌^◌, option_map, length, IfSome, IfNone};
ghost use Rattle.std.specs.Str.{IsUtf8};
ghost use Rattle.tc_record.specs.Held.{TellsGreatest, TextsAddUp};
ghost use Rattle.tc_record.specs.Record.{spelling_of, greatest};
ghost use Rattle.tc_record.specs.Sections.{IsTail, capped_sum, numbers_at, columns_behind, sections_in};
ghost use Rattle.tc_record.specs.SectionsView.{header_of, cut_columns_of, sections_of};
ghost use Rattle.tc_record.specs.WalkView.{numbers_of, columns_of};

use crate::column_sizes::least_width;
use crate::header::{Header, PACKED_FORM, form_told, header_in};
use crate::numbers::Numbers;
use crate::reader::{Columns, Format};
use crate::totals::add_up;
use std::str;
use tc_bits::{Columns as BitColumns, size_of_column};
use tc_bytes::slice_at;

/// A column of numbers whose width is the least for them, the greatest of them, their sum, and the bytes behind the column.
#[derive(Clone, Copy)]
pub(crate) struct NumberColumn<'a> {
    pub(crate) numbers: Numbers<'a>,
    pub(crate) greatest: u32,
    pub(crate) total: u32,
    pub(crate) rest: &'a [u8],
}

/// The columns beside the tags, as they were cut.
#[derive(Clone, Copy)]
pub(crate) struct ColumnBytes<'a> {
    pub(crate) fixed: &'a [u8],
    pub(crate) lengths: Numbers<'a>,
    pub(crate) texts: &'a [u8],
    pub(crate) slots: Numbers<'a>,
    pub(crate) names: &'a [u8],
}

#[derive(Clone, Copy)]
pub(crate) struct Sections<'a> {
    pub(crate) format: Format,
    pub(crate) tags: &'a [u8],
    pub(crate) columns: ColumnBytes<'a>,
    pub(crate) greatest_slot: u32,
    pub(crate) greatest_length: u32,
}

/// The parts of a record, or `None` where the header and the bytes do not fit together.
pub(crate) fn sections_of_record(bytes: &[u8]) -> Option<Sections<'_>>
    ensures cut { option_map sections_of result ≡ sections_in bytes.now }
    ensures greatest { IfSome result TellsGreatest }
    ensures summed { IfSome result TextsAddUp }
{
    let (header, rest) = header_in(bytes)?;
    if header.total as usize != bytes.len() {
        return None;
    }
    let named = form_told(header.form)?;
    columns_in(header, named, bytes, rest)
}

/// The columns, from where the header of a record ends.
fn columns_in<'a>(
    header: Header,
    named: bool,
    whole: &'a [u8],
    bytes: &'a [u8],
) -> Option<Sections<'a>>
    requires few { length whole.now < 2 ^ 32 }
    requires tail { IsTail whole.now bytes.now }
    ensures cut { option_map sections_of result ≡ columns_behind (header_of header) named bytes.now }
    ensures greatest { IfSome result TellsGreatest }
    ensures summed { IfSome result TextsAddUp }
{
    let (tags, bytes) = slice_at(bytes, header.tags as usize)?;
    let (fixed, bytes) = slice_at(bytes, header.fixed as usize)?;
    let form = header.form;
    let lengths = numbers_in(form, whole, bytes, header.text_width, header.texts)?;
    let (texts, bytes) = slice_at(lengths.rest, lengths.total as usize)?;
    let slots = numbers_in(form, whole, bytes, header.slot_width, header.names)?;
    let columns = ColumnBytes {
        fixed,
        lengths: lengths.numbers,
        texts,
        slots: slots.numbers,
        names: slots.rest,
    };
    Some(Sections {
        format: Format { form, named },
        tags,
        columns,
        greatest_slot: slots.greatest,
        greatest_length: lengths.greatest,
    })
}

impl<'a> ColumnBytes<'a> {
    /// The columns to be read, if the texts together are UTF-8, and the names too: so are all texts and names of a
    /// record, and what joins them.
    pub(crate) fn checked(self) -> Option<Columns<'a>>
        ensures same { IfSome result (λ c. columns_of c ≡ cut_columns_of self.entry) }
        ensures refused { IfNone result (IsUtf8 self.entry.texts.now → IsUtf8 self.entry.names.now → ⊥) }
    {
        match (str::from_utf8(self.texts), str::from_utf8(self.names)) {
            (Ok(texts), Ok(names)) => Some(self.with(texts, names)),
            _ => None,
        }
    }

    /// The columns to be read, whose texts and names are known to be UTF-8.
    pub(crate) fn known(self) -> Columns<'a>
        requires texts { IsUtf8 self.texts.now }
        requires names { IsUtf8 self.names.now }
        ensures { columns_of result ≡ cut_columns_of self.entry }
    {
        let texts = unsafe { str::from_utf8_unchecked(self.texts) };
        let names = unsafe { str::from_utf8_unchecked(self.names) };
        self.with(texts, names)
    }

    /// The columns to be read, with these texts and names.
    fn with(self, texts: &'a str, names: &'a str) -> Columns<'a>
        requires texts { texts.now ≡ self.texts.now }
        requires names { names.now ≡ self.names.now }
        ensures { columns_of result ≡ cut_columns_of self.entry }
    {
        Columns {
            fixed: self.fixed,
            lengths: self.lengths,
            texts,
            slots: self.slots,
            names,
        }
    }
}

/// So many numbers from the front of the bytes that end a record, if the width that is told is the least for them. It is built into
/// its callers, since one of them does not ask for the sum, which is then not made.
#[inline(always)]
fn numbers_in<'a>(
    form: u8,
    whole: &'a [u8],
    bytes: &'a [u8],
    told: u8,
    count: u32,
) -> Option<NumberColumn<'a>>
    requires few { length whole.now < 2 ^ 32 }
    requires tail { IsTail whole.now bytes.now }
    ensures read { option_map (λ c. (numbers_of c.numbers, c.rest.now)) result ≡ numbers_at (spelling_of form) told count bytes.now }
    ensures most { IfSome result (λ c. c.greatest ≡ greatest (numbers_of c.numbers)) }
    ensures all { IfSome result (λ c. c.total ≡ capped_sum (numbers_of c.numbers)) }
{
    let width = bits_told(form, told)?;
    let (column, rest) = slice_at(bytes, size_of_column(count, width) as usize)?;
    let _judged = BitColumns::of(column, width, count)?;
    let numbers = Numbers {
        bytes: whole,
        width,
        place: 8 * (whole.len() - bytes.len()) as u64,
        left: count,
    };
    let (greatest, total) = add_up(numbers);
    if told != least_width(form, count, greatest) {
        return None;
    }
    Some(NumberColumn {
        numbers,
        greatest,
        total,
        rest,
    })
}

/// How many bits a number has by the width that is told, of which there are no more than 32.
fn bits_told(form: u8, told: u8) -> Option<u8>
    ensures same { IfSome result (λ bits. bits ≡ (spelling_of form).bits told) }
    ensures most { IfSome result (λ bits. bits ≤ 32) }
    ensures beyond { IfNone result (32 < (spelling_of form).bits told) }
{
    if form == PACKED_FORM {
        bits_of_width(told)
    } else {
        bits_of_bytes(told)
    }
}

fn bits_of_width(told: u8) -> Option<u8>
    ensures same { IfSome result (λ bits. bits ≡ told) }
    ensures most { IfSome result (λ bits. bits ≤ 32) }
    ensures beyond { IfNone result (32 < told) }
{
    if told <= 32 { Some(told) } else { None }
}

fn bits_of_bytes(told: u8) -> Option<u8>
    ensures same { IfSome result (λ bits. bits ≡ 8 * told) }
    ensures most { IfSome result (λ bits. bits ≤ 32) }
    ensures beyond { IfNone result (32 < 8 * told) }
{
    if told <= 4 { Some(8 * told) } else { None }
}
