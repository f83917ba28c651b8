//! A reader that gives the lines of a source one by one.

ghost use Rattle.std.specs.Prelude.{◌≡◌, ◌≢◌, ℕ, ◌+◌, ◌≤◌, ◌<◌, [], ◌++◌, Bool, true, false, length, take, drop, IfOk, OnErr};
ghost use Rattle.tc_model.specs.Lines.{whole_lines};
ghost use Rattle.tc_bytes.specs.Counts.{Rose};
ghost use Rattle.tc_lines.specs.Answer.{IsAnswered, Reading, is_failure};
ghost use Rattle.tc_lines.specs.Giving.{reading_of, GivesLine, GivesLast, MakesRoom};
ghost use Rattle.tc_lines.specs.Holding.{IsOneLine};
ghost use Rattle.tc_lines.specs.declared.intake.TheConstants.{PIECE, MAX_TAKEN};

use crate::intake::{Intake, Stop};
use std::alloc::Global;
use std::marker::Model;
use tc_bytes::{Bytes, Memory};
use tc_edge::{Sink, Source};

/// What a reader answers when it is asked for a line.
#[derive(Drop, Debug)]
pub enum Line {
    /// The bytes of the next line, without its line feed.
    Whole(Bytes),
    /// The next line has more bytes than are allowed, and was skipped.
    Oversized,
    /// No line is left.
    End,
    /// The source failed in this call.
    ReadFault,
    /// As many bytes were taken as can be, and none of those held is a line feed.
    Spent,
    /// Memory was refused.
    Memory,
}

impl Line {
    /// Whether the reader that gave this answer has failed.
    pub fn is_failure(&self) -> bool
        ensures { result ≡ is_failure self.now }
    {
        matches!(self, Line::ReadFault | Line::Spent | Line::Memory)
    }
}

/// A reader of lines. It holds no more bytes than a line may have and one read takes, and it reads
/// only where no line feed is among the bytes that it holds and its source has not told of its end.
#[derive(Drop)]
pub struct Lines {
    alloc: Global,
    intake: Intake,
    limit: usize,
    failed: bool,
}

impl Model for Lines {
    ghost Value = { Reading };

    ghost view = { λ a. reading_of a.limit a.failed a.intake };

    ghost invariant = { λ a. (a.failed ≡ false → a.intake.front ≡ [])
        × (a.intake.ended ≡ true → a.intake.front ++ a.intake.rest ≡ []) };
}

impl Lines {
    /// A reader of lines of at most `limit` bytes, the line feed not counted.
    pub fn new(alloc: Global, limit: usize) -> Lines
        requires { 0 < limit }
        ensures { result ≡ record { limit = limit; held = []; taken = 0; failed = false; ended = false } }
    {
        Lines {
            alloc,
            intake: Intake::new(alloc),
            limit,
            failed: false,
        }
    }

    /// Whether an answer was a failure. The reader must not be asked again then.
    pub fn failed(&self) -> bool
        ensures { result ≡ self.now.failed }
    {
        self.failed
    }

    /// The next line of the source. A carriage return before the line feed belongs to the line, and
    /// the last line may lack its line feed. Each read is made beside the sink as it stands, so a
    /// caller who answers what a line closes, before it asks for the next, is prompt.
    pub fn next<I: Source<O>, O: Sink>(&mut self, source: &mut I, sink: &O) -> Line
        requires { self.old.failed ≡ false }

        ensures answer { self.old.ended ≡ false
            → IsAnswered result self.old self.new (I.left source.old) (I.left source.new)
            (O.taken sink.now) (I.moments source.old) (I.moments source.new) }

        // No read is made once the source has told of its end.
        ensures ended { self.old.ended ≡ true
            → (result ≡ Line.End) × (self.new ≡ self.old) × (source.new ≡ source.old) }

        ensures limit { self.new.limit ≡ self.old.limit }
        ensures failed { self.new.failed ≡ is_failure result }

        // No more is held than a line may have and one read takes.
        ensures bounded { length self.new.held ≤ self.old.limit + PIECE }
        ensures capped { self.new.taken ≤ MAX_TAKEN }

        // No read is made where a whole line is held, or as many bytes were taken as can be.
        ensures unread { whole_lines self.old.held ≢ [] → source.new ≡ source.old }
        ensures unread_spent { self.old.taken ≡ MAX_TAKEN → source.new ≡ source.old }

        ensures fault { result ≡ Line.ReadFault → Rose (I.faults source.old) (I.faults source.new) }
        ensures kept { I.faults source.old ≤ I.faults source.new }

        // A reader that was told of the end answers `End` even then.
        ensures spent { self.old.ended ≡ false → self.old.taken ≡ MAX_TAKEN
            → whole_lines self.old.held ≡ [] → result ≢ Line.Memory → result ≡ Line.Spent }
    {
        if self.intake.ended() {
            return Line::End;
        }
        let line = next_line(&mut self.intake, self.alloc, self.limit, source, sink);
        self.failed = line.is_failure();
        line
    }
}

// The line before the first line feed that is held, or else of what is read next.
fn next_line<I: Source<O>, O: Sink>(
    intake: &mut Intake,
    alloc: Global,
    limit: usize,
    source: &mut I,
    sink: &O,
) -> Line
    requires front { intake.old.front ≡ [] }
    requires ended { intake.old.ended ≡ false }
    ensures answer { IsAnswered result (reading_of limit false intake.old)
        (reading_of limit (is_failure result) intake.new) (I.left source.old) (I.left source.new)
        (O.taken sink.now) (I.moments source.old) (I.moments source.new) }
    ensures front { is_failure result ≡ false → intake.new.front ≡ [] }
    ensures ended { intake.new.ended ≡ true → intake.new.front ++ intake.new.rest ≡ [] }
    ensures bounded { length (intake.new.front ++ intake.new.rest) ≤ limit + PIECE }
    ensures capped { intake.new.taken ≤ MAX_TAKEN }
    ensures unread { whole_lines (intake.old.front ++ intake.old.rest) ≢ [] → source.new ≡ source.old }
    ensures unread_spent { intake.old.taken ≡ MAX_TAKEN → source.new ≡ source.old }
    ensures fault { result ≡ Line.ReadFault → Rose (I.faults source.old) (I.faults source.new) }
    ensures kept { I.faults source.old ≤ I.faults source.new }
    ensures spent { intake.old.taken ≡ MAX_TAKEN
        → whole_lines (intake.old.front ++ intake.old.rest) ≡ []
        → result ≢ Line.Memory → result ≡ Line.Spent }
{
    match intake.find_feed() {
        Some(len) => line_at(intake, alloc, limit, len, false),
        None => read_line(intake, alloc, limit, source, sink),
    }
}

// The line of what is read next, where no line feed is held. The bytes of a line that is too long
// are dropped piece by piece.
fn read_line<I: Source<O>, O: Sink>(
    intake: &mut Intake,
    alloc: Global,
    limit: usize,
    source: &mut I,
    sink: &O,
) -> Line
    requires front { intake.old.front ≡ [] }
    requires ended { intake.old.ended ≡ false }
    requires rest { IsOneLine intake.old.rest }
    requires piece { length intake.old.rest ≤ PIECE }
    requires count { intake.old.taken ≤ MAX_TAKEN }
    ensures answer { IsAnswered result (reading_of limit false intake.old)
        (reading_of limit (is_failure result) intake.new) (I.left source.old) (I.left source.new)
        (O.taken sink.now) (I.moments source.old) (I.moments source.new) }
    ensures front { is_failure result ≡ false → intake.new.front ≡ [] }
    ensures ended { intake.new.ended ≡ true → intake.new.front ++ intake.new.rest ≡ [] }
    ensures bounded { length (intake.new.front ++ intake.new.rest) ≤ limit + PIECE }
    ensures capped { intake.new.taken ≤ MAX_TAKEN }
    ensures unread_spent { intake.old.taken ≡ MAX_TAKEN → source.new ≡ source.old }
    ensures fault { result ≡ Line.ReadFault → Rose (I.faults source.old) (I.faults source.new) }
    ensures kept { I.faults source.old ≤ I.faults source.new }
    ensures spent { intake.old.taken ≡ MAX_TAKEN → result ≢ Line.Memory → result ≡ Line.Spent }
{
    let mut oversized = false;
    loop {
        match make_room(intake, limit, oversized) {
            Ok(too_long) => oversized = too_long,
            Err(_) => return Line::Memory,
        }
        match intake.read(source, sink) {
            Ok(0) => return last_line(intake, alloc, oversized),
            Ok(_) => {}
            Err(Stop::ReadFault) => return Line::ReadFault,
            Err(Stop::Spent) => return Line::Spent,
            Err(Stop::Memory) => return Line::Memory,
        }
        match intake.find_feed() {
            Some(len) => return line_at(intake, alloc, limit, len, oversized),
            None => {}
        }
    }
}

// Makes room for a read, and answers whether the line has too many bytes by now.
fn make_room(intake: &mut Intake, limit: usize, oversized: bool) -> Result<bool, Memory>
    ensures ok { IfOk result (λ too_long. MakesRoom too_long limit oversized intake.old intake.new) }
    ensures err { OnErr result (intake.new ≡ intake.old) }
{
    if oversized || intake.exceeds(limit) {
        intake.clear();
        return Ok(true);
    }
    intake.carry_over()?;
    Ok(false)
}

// The line before a line feed that stands behind so many bytes of the last read.
fn line_at(intake: &mut Intake, alloc: Global, limit: usize, len: usize, oversized: bool) -> Line
    requires { len < length intake.old.rest }
    ensures line { GivesLine result (intake.old.front ++ take len intake.old.rest) limit oversized }
    ensures left { is_failure result ≡ false
        → intake.new ≡ record intake.old { front = []; rest = drop (len + 1) intake.old.rest } }
    ensures failed { is_failure result ≡ true → intake.new ≡ intake.old }
    ensures ended { intake.new.ended ≡ intake.old.ended }
{
    if oversized || intake.exceeds_at(limit, len) {
        intake.drop_line(len);
        return Line::Oversized;
    }
    match intake.take_line(alloc, len) {
        Ok(line) => Line::Whole(line),
        Err(_) => Line::Memory,
    }
}

// What is held at the end of the source.
fn last_line(intake: &mut Intake, alloc: Global, oversized: bool) -> Line
    requires { intake.old.rest ≡ [] }
    ensures line { GivesLast result intake.old.front oversized }
    ensures left { intake.new ≡ record intake.old { front = [] } }
{
    let line = intake.take_front(alloc);
    if oversized {
        Line::Oversized
    } else if line.as_slice().is_empty() {
        Line::End
    } else {
        Line::Whole(line)
    }
}
