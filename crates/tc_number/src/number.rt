//! Reads numbers.
ghost use Rattle.std.specs.Prelude.{◌≡◌};
ghost use Rattle.std.specs.Char.{is_ascii_digit};
ghost use Rattle.std.specs.List.{list_all};
ghost use Rattle.tc_number.specs.Number.{has_leading_zero, number_between};

/// The number from `least` to `most` that the text writes.
pub fn number_between(text: &str, least: u64, most: u64) -> Option<u64>
    ensures { result ≡ number_between least most text.now }
{
    let number = number(text)?;
    if least <= number && number <= most {
        Some(number)
    } else {
        None
    }
}

// The number that the text writes, where it fits a `u64`.
fn number(text: &str) -> Option<u64>
    ensures { result ≡ number_between 0 u64.MAX text.now }
{
    if is_digits(text.as_bytes()) && !has_leading_zero(text.as_bytes()) {
        text.parse().ok()
    } else {
        None
    }
}

fn is_digits(text: &[u8]) -> bool
    ensures { result ≡ list_all is_ascii_digit text.now }
{
    text.iter().all(|byte| byte.is_ascii_digit())
}

fn has_leading_zero(text: &[u8]) -> bool
    ensures { result ≡ has_leading_zero text.now }
{
    text.len() > 1 && text[0] == b'0'
}
