//! What a demonstration says of the lines of replies.

use std::alloc::Global;
use std::str;
use tc_gen::Tally;

/// The two lines for so many commands, whose replies are heard piece by piece. Pieces stand between tabs, and the lines of a
/// piece between spaces.
pub(crate) fn heard(alloc: Global, commands: u32, pieces: &str) -> Option<String> {
    let mut tally = Tally::new(alloc);
    for piece in pieces.split('\t') {
        let mut lines = String::new(alloc);
        for line in piece.split(' ') {
            lines.push_str(line).ok()?;
            lines.push('\n').ok()?;
        }
        tally.hear(lines.as_bytes()).ok()?;
    }
    let lines = tally.lines(alloc, commands).ok()?;
    String::from_str(alloc, str::from_utf8(lines.as_slice()).ok()?).ok()
}
