//! Messages, as an application sends them.

use std::alloc::Global;
use std::fmt::Write;

/// The message of a number: its tags, its text, its user, and of some which message it replies to, by number or by name. The
/// members stand in the order in which a store gives them back.
pub(crate) fn message(alloc: Global, number: u64) -> Option<String> {
    let mut text = format!(in alloc; "{{\"id\":{number}").ok()?;
    push_reply_to(&mut text, number)?;
    let tags = tags_of(number);
    let user = number % 7;
    write!(
        text,
        ",\"tags\":{tags},\"text\":\"message {number}\",\"user\":{{\"id\":{user},\"name\":\"user {user}\"}}}}"
    )
    .ok()?;
    Some(text)
}

// Every fifth message replies to the one before it, and every fifteenth says so by its number.
fn push_reply_to(text: &mut String, number: u64) -> Option<()> {
    let before = number.saturating_sub(1);
    match (number % 5, number % 3) {
        (0, 0) => write!(text, ",\"reply_to\":{before}").ok(),
        (0, _other) => write!(text, ",\"reply_to\":\"m{before}\"").ok(),
        _other => Some(()),
    }
}

fn tags_of(number: u64) -> &'static str {
    match number % 3 {
        0 => "[]",
        1 => "[\"t1\"]",
        _ => "[\"t1\",\"t2\"]",
    }
}
