//! The columns of a record that is being written.

ghost use Rattle.std.specs.Prelude.{◌≡◌, ◌∷◌, ◌++◌, [], Some, OnOk, IfOk};
ghost use Rattle.tc_model.specs.Document.{text};
ghost use Rattle.tc_record.specs.Preorder.{scalar};
ghost use Rattle.tc_record.specs.Measured.{column_width};
ghost use Rattle.tc_record.specs.Written.{written, begun, with_value, with_piece, with_label, in_a_row};

use crate::measure::Measure;
use crate::sizing::width_of_column;
use crate::tags::TEXT_TAG;
use crate::widths::{Width, put_number};
use std::alloc::{AllocError, Global};

// How many bytes are few: most names have no more.
const FEW: usize = 6;

/// What is written of each column. The header stands before the tags.
#[derive(Drop)]
pub(crate) struct Columns {
    pub(crate) text_width: Width,
    pub(crate) name_width: Width,
    pub(crate) tags: Vec<u8>,
    pub(crate) fixed: Vec<u8>,
    pub(crate) text_lengths: Vec<u8>,
    pub(crate) texts: Vec<u8>,
    pub(crate) name_lengths: Vec<u8>,
    pub(crate) names: Vec<u8>,
}

impl Columns {
    /// The columns of a record that has its header alone, each but the tags with room for what was measured.
    pub(crate) fn behind(
        alloc: Global,
        header: Vec<u8>,
        measure: Measure,
    ) -> Result<Columns, AllocError>
        ensures { IfOk result (λ columns. written columns ≡ begun (column_width measure.texts) (column_width measure.names) header.items) }
    {
        let text_width = width_of_column(measure.texts);
        let name_width = width_of_column(measure.names);
        let fixed = Vec::with_capacity(alloc, measure.fixed as usize)?;
        let text_lengths = numbers_room(alloc, measure.texts.count, text_width)?;
        let texts = Vec::with_capacity(alloc, measure.texts.bytes as usize)?;
        let name_lengths = numbers_room(alloc, measure.names.count, name_width)?;
        let names = Vec::with_capacity(alloc, measure.names.bytes as usize)?;
        Ok(Columns {
            text_width,
            name_width,
            tags: header,
            fixed,
            text_lengths,
            texts,
            name_lengths,
            names,
        })
    }

    /// Appends a value that has neither fixed bytes nor a text, or a close.
    pub(crate) fn put_tag(&mut self, tag: u8) -> Result<(), AllocError>
        ensures { OnOk result (written self.new ≡ with_value (written self.old) tag [] []) }
    {
        self.tags.push(tag)?;
        Ok(())
    }

    /// Appends a value of one byte.
    #[inline(always)]
    pub(crate) fn put_byte(&mut self, tag: u8, byte: u8) -> Result<(), AllocError>
        ensures { OnOk result (written self.new ≡ with_value (written self.old) tag (byte ∷ []) []) }
    {
        self.tags.push(tag)?;
        self.fixed.push(byte)?;
        Ok(())
    }

    /// Appends a value of fixed size.
    pub(crate) fn put_fixed(&mut self, tag: u8, bytes: &[u8]) -> Result<(), AllocError>
        ensures { OnOk result (written self.new ≡ with_value (written self.old) tag bytes.now []) }
    {
        self.tags.push(tag)?;
        self.fixed.extend_from_slice(bytes)
    }

    /// Appends a text.
    #[inline(always)]
    pub(crate) fn put_text(&mut self, value: &str) -> Result<(), AllocError>
        ensures { OnOk result (written self.new ≡ with_piece (written self.old) (scalar (text value.now))) }
    {
        self.tags.push(TEXT_TAG)?;
        put_number(self.text_width, value.len(), &mut self.text_lengths)?;
        self.texts.extend_from_slice(value.as_bytes())
    }

    /// Appends the name of a member.
    pub(crate) fn put_name(&mut self, name: &str) -> Result<(), AllocError>
        ensures { OnOk result (written self.new ≡ with_label (written self.old) (Some name.now)) }
    {
        put_number(self.name_width, name.len(), &mut self.name_lengths)?;
        put_bytes(name.as_bytes(), &mut self.names)
    }

    /// The columns in one piece, in the memory of the first.
    pub(crate) fn into_row(self) -> Result<Vec<u8>, AllocError>
        ensures { IfOk result (λ row. row.items ≡ in_a_row (written self)) }
    {
        let mut row = self.tags;
        row.extend_from_slice(&self.fixed)?;
        row.extend_from_slice(&self.text_lengths)?;
        row.extend_from_slice(&self.texts)?;
        row.extend_from_slice(&self.name_lengths)?;
        row.extend_from_slice(&self.names)?;
        Ok(row)
    }
}

// Appends bytes. Where they are few, to push each takes fewer instructions than the call that copies them.
#[inline(always)]
fn put_bytes(bytes: &[u8], out: &mut Vec<u8>) -> Result<(), AllocError>
    ensures { OnOk result (out.new.items ≡ out.old.items ++ bytes.now) }
{
    if bytes.len() > FEW {
        return out.extend_from_slice(bytes);
    }
    for byte in bytes {
        out.push(*byte)?;
    }
    Ok(())
}

// Room for so many numbers of a column.
fn numbers_room(alloc: Global, count: u64, width: Width) -> Result<Vec<u8>, AllocError>
    ensures { IfOk result (λ room. room.items ≡ []) }
{
    Vec::with_capacity(
        alloc,
        count.saturating_mul(u64::from(width.bytes())) as usize,
    )
}
