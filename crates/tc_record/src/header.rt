//! The header of a record, read.

ghost use Rattle.std.specs.Prelude.{◌≡◌, option_map};
ghost use Rattle.tc_record.specs.Sections.{header_at, form_from};
ghost use Rattle.tc_record.specs.SectionsView.{header_of};

use tc_bytes::{u8_at, u32_at};

/// The form of a record whose members carry names.
pub const NAMED_FORM: u8 = 0;

/// The form of a record whose members carry the numbers of names.
pub const NUMBERED_FORM: u8 = 1;

/// The same with the numbers of its columns in bits.
pub const PACKED_FORM: u8 = 2;

/// The fields of a header, in their order.
#[derive(Clone, Copy)]
pub(crate) struct Header {
    pub(crate) total: u32,
    pub(crate) form: u8,
    pub(crate) tags: u32,
    pub(crate) fixed: u32,
    pub(crate) texts: u32,
    pub(crate) text_width: u8,
    pub(crate) names: u32,
    pub(crate) slot_width: u8,
}

pub(crate) fn header_in(bytes: &[u8]) -> Option<(Header, &[u8])>
    ensures { option_map (λ x. (header_of x.0, x.1.now)) result ≡ header_at bytes.now }
{
    let (total, bytes) = u32_at(bytes)?;
    let (form, bytes) = u8_at(bytes)?;
    let (tags, bytes) = u32_at(bytes)?;
    let (fixed, bytes) = u32_at(bytes)?;
    let (texts, bytes) = u32_at(bytes)?;
    let (text_width, bytes) = u8_at(bytes)?;
    let (names, bytes) = u32_at(bytes)?;
    let (slot_width, bytes) = u8_at(bytes)?;
    let header = Header {
        total,
        form,
        tags,
        fixed,
        texts,
        text_width,
        names,
        slot_width,
    };
    Some((header, bytes))
}

/// Whether members carry names.
pub(crate) fn form_told(byte: u8) -> Option<bool>
    ensures { result ≡ form_from byte }
{
    if byte == NAMED_FORM {
        Some(true)
    } else if byte == NUMBERED_FORM {
        Some(false)
    } else if byte == PACKED_FORM {
        Some(false)
    } else {
        None
    }
}
