//! The header of a component.

ghost use Rattle.std.specs.Prelude.{◌≡◌, ◌+◌, ◌<◌, ◌^◌, option_map, IfOk};
ghost use Rattle.std.specs.Int.{w32};
ghost use Rattle.tc_bytes.specs.Reading.{number_at, passing_at};
ghost use Rattle.tc_component.specs.Layout.{file_size};
ghost use Rattle.tc_component.specs.Reading.{version_told, head_at, is_magic, interval_at, sizes_at, is_named};
ghost use Rattle.tc_component.specs.Spelling.{written_version, head_bytes, name_of};

use crate::layout::{MAX_NUMBER, RECORDS_PLACE, SLOT_LEN};
use std::alloc::Global;
use tc_bytes::{Memory, put_u32, put_u64, u32_at, u64_at};
use tc_record::{NUMBERED_FORM, PACKED_FORM};
use tc_store::FileName;

/// The mark of a file begins with these letters and ends with its version.
const MARK: u32 = 0x5443_4330;

/// Where the version stands in a header, and how it is written.
const VERSION_PLACE: usize = 3;

const PACKED_DIGIT: u8 = 0x32;

/// The version of what is written.
const WRITTEN_VERSION: u8 = PACKED_FORM;

/// Which component a file is: the number of its partition, how many partitions there are, and its first and last
/// generation, of which the first is at least 1, and the last at least the first and at most 2^63 - 1.
#[derive(Clone, Copy, Debug, PartialEq, Eq)]
pub struct Head {
    pub number: u32,
    pub count: u32,
    pub from: u64,
    pub to: u64,
}

impl Head {
    /// The name of the file that has this header.
    pub fn file_name(self) -> FileName
        ensures { result ≡ name_of self }
    {
        FileName::Component {
            from: self.from,
            to: self.to,
        }
    }
}

/// How many bytes all records have, how many entries there are, and how many bytes each of both sections has.
#[derive(Clone, Copy)]
pub(crate) struct Sizes {
    pub records: u64,
    pub entries: u64,
    pub names: u64,
    pub schema: u64,
}

/// The version that a header tells, which is the form of the file's records.
pub(crate) fn version_in(front: &[u8]) -> u8
    ensures { result ≡ version_told front.now }
{
    if front.len() > VERSION_PLACE && front[VERSION_PLACE] == PACKED_DIGIT {
        PACKED_FORM
    } else {
        NUMBERED_FORM
    }
}

/// A header of the version that it tells from the front of the bytes.
pub(crate) fn head_in(bytes: &[u8]) -> Option<(Head, Sizes, &[u8])>
    ensures { option_map (λ x. ((x.0, x.1), x.2.now)) result ≡ head_at (version_told bytes.now) bytes.now }
{
    head_of_version(version_in(bytes), bytes)
}

/// A header of a version.
fn head_of_version(version: u8, bytes: &[u8]) -> Option<(Head, Sizes, &[u8])>
    ensures { option_map (λ x. ((x.0, x.1), x.2.now)) result ≡ head_at version bytes.now }
{
    let (_, rest) = magic_in(version, bytes)?;
    let (number, rest) = u32_at(rest)?;
    let (count, rest) = u32_at(rest)?;
    let (from, to, rest) = interval_in(rest)?;
    let (sizes, rest) = sizes_in(rest)?;
    let head = Head {
        number,
        count,
        from,
        to,
    };
    Some((head, sizes, rest))
}

fn magic_in(version: u8, bytes: &[u8]) -> Option<(u32, &[u8])>
    ensures { option_map (λ x. (x.0, x.1.now)) result ≡ passing_at (is_magic version) (number_at w32) bytes.now }
{
    let (magic, rest) = u32_at(bytes)?;
    if magic == MARK + version as u32 {
        Some((magic, rest))
    } else {
        None
    }
}

/// The first and the last generation.
fn interval_in(bytes: &[u8]) -> Option<(u64, u64, &[u8])>
    ensures { option_map (λ x. ((x.0, x.1), x.2.now)) result ≡ interval_at bytes.now }
{
    let (from, rest) = u64_at(bytes)?;
    let (to, rest) = u64_at(rest)?;
    if from > 0 && from <= to && to <= MAX_NUMBER {
        Some((from, to, rest))
    } else {
        None
    }
}

fn sizes_in(bytes: &[u8]) -> Option<(Sizes, &[u8])>
    ensures { option_map (λ x. (x.0, x.1.now)) result ≡ sizes_at bytes.now }
{
    let (records, rest) = u64_at(bytes)?;
    let (entries, rest) = u64_at(rest)?;
    let (names, rest) = u64_at(rest)?;
    let (schema, rest) = u64_at(rest)?;
    let sizes = Sizes {
        records,
        entries,
        names,
        schema,
    };
    Some((sizes, rest))
}

/// The length of a file of these sizes.
pub(crate) fn len_of_file(sizes: Sizes) -> u128
    ensures { result ≡ file_size sizes }
{
    let directory = u128::from(sizes.entries) * SLOT_LEN as u128;
    let sections = u128::from(sizes.names) + u128::from(sizes.schema);
    u128::from(RECORDS_PLACE) + u128::from(sizes.records) + directory + sections
}

/// Whether a file of this name has this interval.
pub(crate) fn is_named_by(name: FileName, head: Head) -> bool
    ensures { result ≡ is_named name head }
{
    match name {
        FileName::Component { from, to } => head.from == from && head.to == to,
        FileName::Log { generation: _ } => false,
    }
}

/// The bytes of a header. Errs only for want of memory.
pub(crate) fn bytes_of_head(alloc: Global, head: Head, sizes: Sizes) -> Result<Vec<u8>, Memory>
    ensures { IfOk result (λ bytes. bytes.items ≡ head_bytes written_version head sizes) }
{
    let mut out = Vec::new(alloc);
    put_u32(&mut out, MARK + WRITTEN_VERSION as u32)?;
    put_u32(&mut out, head.number)?;
    put_u32(&mut out, head.count)?;
    put_u64(&mut out, head.from)?;
    put_u64(&mut out, head.to)?;
    put_u64(&mut out, sizes.records)?;
    put_u64(&mut out, sizes.entries)?;
    put_u64(&mut out, sizes.names)?;
    put_u64(&mut out, sizes.schema)?;
    Ok(out)
}
