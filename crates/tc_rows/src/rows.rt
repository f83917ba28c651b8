//! Rows of standard input that are answered one by one, and the calls of a row.

use std::fmt::Write;
use std::io;

/// Answers rows, or the calls of a row, over a runtime.
pub trait Answering<R>: Drop {
    /// What a row or a call answers, or nothing where it is out of form.
    fn answer(&mut self, rt: &R, asked: &str) -> Option<String>;
}

/// Prints what each row of standard input answers, and `no answer` for a row out of form. A row that begins with `#` is a
/// note, and is printed as it is. An answer whose last line is not ended has it ended; an empty one prints nothing.
pub fn answer_rows<R: Input + Print + AllocGlobal, D: Answering<R>>(
    rt: &R,
    desk: D,
) -> io::Result<()> {
    let mut desk = desk;
    for row in rt.lines(rt.alloc()) {
        answer_row(rt, &mut desk, row?.as_str())?;
    }
    Ok(())
}

fn answer_row<R: Print, D: Answering<R>>(rt: &R, desk: &mut D, row: &str) -> io::Result<()> {
    if row.starts_with('#') {
        return println!(rt; "{row}");
    }
    match desk.answer(rt, row) {
        Some(answer) => print_lines(rt, answer.as_str()),
        None => println!(rt; "no answer"),
    }
}

fn print_lines<R: Print>(rt: &R, lines: &str) -> io::Result<()> {
    if lines.is_empty() || lines.ends_with('\n') {
        return print!(rt; "{lines}");
    }
    println!(rt; "{lines}")
}

/// What the calls of a row answer, a `; ` after each. Between two calls stands a `; ` too.
pub fn answer_calls<R: AllocGlobal, D: Answering<R>>(
    rt: &R,
    desk: &mut D,
    calls: &str,
) -> Option<String> {
    let mut answers = String::new(rt.alloc());
    for call in calls.split("; ") {
        let answer = desk.answer(rt, call)?;
        write!(answers, "{}; ", answer.as_str()).ok()?;
    }
    Some(answers)
}
