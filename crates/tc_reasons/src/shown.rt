//! How numbers, names and paths are shown to a person.

use std::fmt;

/// A number with a comma between groups of three digits, as `4,096`.
#[derive(Clone, Copy)]
pub(crate) struct Grouped(pub(crate) u64);

/// What a group of three digits counts, the largest that a number of 64 bits has first.
const UNITS: [u64; 7] = [
    1_000_000_000_000_000_000,
    1_000_000_000_000_000,
    1_000_000_000_000,
    1_000_000_000,
    1_000_000,
    1_000,
    1,
];

impl fmt::Display for Grouped {
    fn fmt<W: fmt::Write>(&self, f: &mut fmt::Formatter<W>) -> fmt::Result {
        let mut has_begun = false;
        for unit in UNITS {
            let group = self.0.checked_div(unit).unwrap_or(0) % 1_000;
            if has_begun {
                write!(f, ",{group:03}")?;
            } else if group > 0 || unit == 1 {
                write!(f, "{group}")?;
                has_begun = true;
            }
        }
        Ok(())
    }
}

/// A text that came from outside, on one line: its control characters, which a terminal would obey, are shown as `\u{1b}`.
#[derive(Clone, Copy)]
pub(crate) struct Plain<'a>(pub(crate) &'a str);

impl<'a> fmt::Display for Plain<'a> {
    fn fmt<W: fmt::Write>(&self, f: &mut fmt::Formatter<W>) -> fmt::Result {
        for letter in self.0.chars() {
            if letter.is_control() {
                let code = u32::from(letter);
                write!(f, "\\u{{{code:x}}}")?;
            } else {
                f.write_char(letter)?;
            }
        }
        Ok(())
    }
}

/// A text without control characters, as one word of a shell's command.
#[derive(Clone, Copy)]
pub(crate) struct Quoted<'a>(pub(crate) &'a str);

impl<'a> fmt::Display for Quoted<'a> {
    fn fmt<W: fmt::Write>(&self, f: &mut fmt::Formatter<W>) -> fmt::Result {
        if self.0.chars().all(is_safe) {
            return f.write_str(self.0);
        }
        f.write_char('\'')?;
        for letter in self.0.chars() {
            if letter == '\'' {
                f.write_str("'\\''")?;
            } else {
                f.write_char(letter)?;
            }
        }
        f.write_char('\'')
    }
}

// Whether a shell leaves a letter as it is.
fn is_safe(letter: char) -> bool {
    letter.is_alphanumeric() || letter == '/' || letter == '.' || letter == '-' || letter == '_'
}
