//! What is kept of the replies to a demonstration.

use crate::texts::put_number;
use memchr::memchr;
use std::alloc::Global;
use std::marker::Model;
use tc_bytes::{Bytes, Memory};

/// How a reply begins whose line was refused.
const REFUSAL: &[u8] = b"{\"refused\":";

/// Hears the lines of replies, and keeps how many of them refuse, and the last one. Contracts see it as what is kept.
#[derive(Drop, Debug)]
pub struct Tally {
    refused: u32,
    last: Vec<u8>,
}

impl Model for Tally {
    ghost use Rattle.tc_gen.specs.TwoLines.{Heard};

    ghost Value = { Heard };

    ghost view = { λ t. record { refused = t.refused; last = t.last.items } };
}

impl Tally {
    ghost use Rattle.std.specs.Prelude.{◌≡◌, ◌+◌, ◌-◌, ◌<◌, ◌^◌, ◌==◌, List, [], ◌∷◌, ◌++◌, length, min, flat_map, codes, if◌then◌else◌, IfOk, OnOk};
    ghost use Rattle.std.specs.List.{starts_with};
    ghost use Rattle.tc_request_model.specs.Reply.{Reply, reply_line};
    ghost use Rattle.tc_gen.specs.TwoLines.{heard_of, lines_for};

    /// Has heard nothing. Takes no memory.
    pub fn new(alloc: Global) -> Tally
        ensures { result ≡ heard_of [] }
    {
        Tally {
            refused: 0,
            last: Vec::new(alloc),
        }
    }

    /// Hears the lines of further replies. Errs only for want of memory.
    pub fn hear(&mut self, lines: &[u8]) -> Result<(), Memory>
        ensures { OnOk result ((replies more : List Reply) → self.old ≡ heard_of replies → length (replies ++ more) < 2 ^ 32 → lines.now ≡ flat_map reply_line more
            → self.new ≡ heard_of (replies ++ more)) }
    {
        let mut rest = lines;
        while let Some(end) = memchr(b'\n', rest) {
            let (line, behind) = rest.split_at(end + 1);
            self.hear_line(line)?;
            rest = behind;
        }
        Ok(())
    }

    // Hears one line.
    fn hear_line(&mut self, line: &[u8]) -> Result<(), Memory>
        ensures { OnOk result (self.new ≡ record {
          refused = if starts_with (λ x y. x == y) line.now (codes "{\"refused\":") then min (self.old.refused + 1) (2 ^ 32 - 1) else self.old.refused;
          last = line.now;
        }) }
    {
        if line.starts_with(REFUSAL) {
            self.refused = self.refused.saturating_add(1);
        }
        self.last.clear();
        self.last.extend_from_slice(line)
    }

    /// The lines of a demonstration of so many commands, whose replies were heard. Errs only for want of memory.
    pub fn lines(&self, alloc: Global, commands: u32) -> Result<Bytes, Memory>
        ensures { IfOk result (λ lines. lines ≡ lines_for commands self.now) }
    {
        let mut lines = Vec::new(alloc);
        put_number(&mut lines, b"{\"commands\":", commands, b",\"refused\":")?;
        put_number(&mut lines, b"", self.refused, b"}\n")?;
        lines.extend_from_slice(self.last.as_slice())?;
        Ok(Bytes::of(lines))
    }
}
