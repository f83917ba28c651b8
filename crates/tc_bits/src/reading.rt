//! Bits read as a number.

ghost use Rattle.std.specs.Prelude.{◌==◌, ◌≡◌, ◌≤◌, ◌<◌, ◌+◌, ◌*◌, ◌^◌, ◌%◌, ◌-◌, length, take};
ghost use Rattle.tc_bits.specs.Bits.{bits_at, field_of as field, value, IsAligned, IsWindow};

/// So many bits after so many others, as a number.
#[inline(always)]
pub(crate) fn number_at(bytes: &[u8], width: u8, place: u64) -> u32
    requires least { 1 ≤ width }
    requires most { width ≤ 32 }
    requires room { place + width ≤ 8 * length bytes.now }
    ensures { result ≡ bits_at width place bytes.now }
{
    let (_, rest) = bytes.split_at((place / 8) as usize);
    number_after(rest, width, (place % 8) as u8)
}

/// So many bits after fewer than eight others: by one look at eight bytes, where so many are there.
#[inline(always)]
fn number_after(bytes: &[u8], width: u8, shift: u8) -> u32
    requires least { 1 ≤ width }
    requires most { width ≤ 32 }
    requires shift { shift < 8 }
    requires room { shift + width ≤ 8 * length bytes.now }
    ensures { result ≡ bits_at width shift bytes.now }
{
    if bytes.len() >= 8 {
        field_of(window_of(bytes), 64 - shift - width, width)
    } else {
        field_of(
            value_of(bytes),
            8 * bytes.len() as u8 - shift - width,
            width,
        )
    }
}

/// So many bits after so many others, of which there are at least 64. Bits that fill one, two or four bytes are read as these.
/// All others are read by one look back at the eight bytes that end with the last of them.
#[inline(always)]
pub fn number_from(bytes: &[u8], width: u8, place: u64) -> u32
    requires least { 1 ≤ width }
    requires most { width ≤ 32 }
    requires long { 64 ≤ place }
    requires number { place < 2 ^ 59 }
    requires room { place + width ≤ 8 * length bytes.now }
    requires aligned { IsAligned width place }
    ensures { result ≡ bits_at width place bytes.now }
{
    let (_, rest) = bytes.split_at((place / 8) as usize);
    if width == 8 {
        one_byte(rest)
    } else if width == 16 {
        two_bytes(rest)
    } else if width == 32 {
        four_bytes(rest)
    } else {
        number_before(bytes, width, place + u64::from(width))
    }
}

/// The number that the first byte is.
#[inline(always)]
fn one_byte(bytes: &[u8]) -> u32
    requires { 1 ≤ length bytes.now }
    ensures { result ≡ value (take 1 bytes.now) }
{
    u32::from(bytes[0])
}

/// The number that the first two bytes are.
#[inline(always)]
fn two_bytes(bytes: &[u8]) -> u32
    requires { 2 ≤ length bytes.now }
    ensures { result ≡ value (take 2 bytes.now) }
{
    u32::from(u16::from_be_bytes([bytes[0], bytes[1]]))
}

/// The number that the first four bytes are.
#[inline(always)]
fn four_bytes(bytes: &[u8]) -> u32
    requires { 4 ≤ length bytes.now }
    ensures { result ≡ value (take 4 bytes.now) }
{
    u32::from_be_bytes([bytes[0], bytes[1], bytes[2], bytes[3]])
}

/// So many bits that end after so many bits in all, of which there are at least 64: by one look at the eight bytes of which the
/// last one has the last of these bits. So a column is read wherever 8 bytes stand before it or in it, with no look after its end.
#[inline(always)]
fn number_before(bytes: &[u8], width: u8, end: u64) -> u32
    requires least { 1 ≤ width }
    requires most { width ≤ 32 }
    requires long { 64 ≤ end }
    requires number { end < 2 ^ 60 }
    requires room { end ≤ 8 * length bytes.now }
    ensures { result ≡ bits_at width (end - width) bytes.now }
{
    let whole = ((end + 7) / 8) as usize;
    field_of(
        window_before(bytes, whole),
        (8 * whole as u64 - end) as u8,
        width,
    )
}

/// The number that the last eight of so many bytes are: from it, bits of these are read by `field_of`, so that numbers which stand
/// together share one look.
#[inline(always)]
pub fn window_before(bytes: &[u8], end: usize) -> u64
    requires long { 8 ≤ end }
    requires room { end ≤ length bytes.now }
    ensures { IsWindow end result bytes.now }
{
    let (_, rest) = bytes.split_at(end - 8);
    window_of(rest)
}

/// So many bits of a number, above so many others.
#[inline(always)]
pub fn field_of(number: u64, above: u8, width: u8) -> u32
    requires least { 1 ≤ width }
    requires most { width ≤ 32 }
    requires room { above + width ≤ 64 }
    ensures { result ≡ field above width number }
{
    ((number >> above) & ((1u64 << width) - 1)) as u32
}

/// The number that the first eight bytes are.
#[inline(always)]
fn window_of(bytes: &[u8]) -> u64
    requires { 8 ≤ length bytes.now }
    ensures { result ≡ value (take 8 bytes.now) }
{
    u64::from_be_bytes([
        bytes[0], bytes[1], bytes[2], bytes[3], bytes[4], bytes[5], bytes[6], bytes[7],
    ])
}

/// The number that at most eight bytes are.
pub(crate) fn value_of(bytes: &[u8]) -> u64
    requires { length bytes.now ≤ 8 }
    ensures { result ≡ value bytes.now }
{
    let mut number = 0u64;
    for byte in bytes {
        number = number * 256 + u64::from(*byte);
    }
    number
}

/// Whether the last bits, of which there are fewer than eight, are zeros.
pub(crate) fn ends_in_zeros(bytes: &[u8], bits: u8) -> bool
    requires { bits < 8 }
    ensures { result ≡ (value bytes.now % 2 ^ bits == 0) }
{
    if bytes.is_empty() {
        return true;
    }
    let last = bytes[bytes.len() - 1];
    last & ((1u8 << bits) - 1) == 0
}
