//! Texts.

ghost use Rattle.std.specs.Prelude.{◌≡◌, ◌≤◌, length, IfOk, IsUtf8, string_bytes};

use std::alloc::{AllocError, Global};
use std::fmt;
use std::marker::Model;

/// How many bytes the longest text has that is kept in place.
const MOST: usize = 30;

/// A text, or the name of a member. Contracts see its UTF-8 bytes.
#[derive(Drop)]
pub struct Text {
    kept: Kept,
}

/// Where the bytes of a text are. Most names of members are short: to take memory for each and to give it back would cost
/// more than all else that is done with them.
#[derive(Drop)]
enum Kept {
    /// The first so many bytes.
    InPlace { len: u8, bytes: [u8; MOST] },
    Apart(String),
}

impl Model for Text {
    ghost use Rattle.std.specs.Prelude.{ℕ, List};
    ghost use Rattle.tc_value.specs.Texts.{bytes_kept, IsKept};

    ghost Value = { List ℕ };

    ghost view = { λ t. bytes_kept t.kept };

    ghost invariant = { λ t. IsKept t.kept };
}

impl Text {
    /// The text of a string. Takes no memory.
    pub fn of(text: String) -> Text
        ensures { result ≡ string_bytes text }
    {
        Text {
            kept: Kept::Apart(text),
        }
    }

    /// The same text as this one. Takes no memory where it is short. Errs only for want of memory.
    #[inline(always)]
    pub fn copy_of(alloc: Global, text: &str) -> Result<Text, AllocError>
        ensures { IfOk result (λ copied. copied ≡ text.now) }
    {
        if text.len() <= MOST {
            return Ok(in_place(text));
        }
        Ok(Text::of(String::from_str(alloc, text)?))
    }

    /// The text, borrowed.
    pub fn as_str(&self) -> &str
        ensures bytes { result.now ≡ self.now }
        ensures utf8 { IsUtf8 self.now }
    {
        match &self.kept {
            Kept::InPlace { len, bytes } => unsafe {
                str::from_utf8_unchecked(&bytes[..*len as usize])
            },
            Kept::Apart(text) => text.as_str(),
        }
    }

    /// The same text in memory of its own. Errs only for want of memory.
    pub fn copy(&self, alloc: Global) -> Result<Text, AllocError>
        ensures { IfOk result (λ copied. copied ≡ self.now) }
    {
        Text::copy_of(alloc, self.as_str())
    }
}

/// Shown as the text that it is, wherever that is kept.
impl fmt::Debug for Text {
    fn fmt<W: fmt::Write>(&self, f: &mut fmt::Formatter<W>) -> fmt::Result {
        fmt::Debug::fmt(self.as_str(), f)
    }
}

/// A short text.
fn in_place(text: &str) -> Text
    requires { length text.now ≤ 30 }
    ensures { result ≡ text.now }
{
    let len = text.len();
    let mut bytes = [0; MOST];
    bytes[..len].copy_from_slice(text.as_bytes());
    Text {
        kept: Kept::InPlace {
            len: len as u8,
            bytes,
        },
    }
}
