//! The generated lines, one by one.

ghost use Rattle.std.specs.Prelude.{◌≡◌, ◌<◌};
ghost use Rattle.tc_gen.specs.Generated.{next_drawn};

use crate::texts::{line_at, schema_line};
use std::alloc::Global;
use std::marker::Model;
use tc_bytes::{Bytes, Memory};

/// Gives the generated lines, without line feeds. Contracts see the list of those that are left.
#[derive(Drop, Debug)]
pub struct Feed {
    // how many lines were given
    given: u32,
    // what was drawn for the last of them
    drawn: u32,
    // how many are left before the line that closes the input, or none where that was given too
    left: Option<u32>,
}

impl Model for Feed {
    ghost use Rattle.std.specs.Prelude.{◌≡◌, ◌+◌, ◌<◌, ◌^◌, List, ℕ, IfSome};
    ghost use Rattle.std.specs.Coded.{coded_list, coded_ℕ};
    ghost use Rattle.tc_gen.specs.Generated.{lines_left, drawn_for};

    ghost Value = { List (List ℕ) };

    ghost coded = { coded_list (coded_list coded_ℕ) };

    ghost view = { λ f. lines_left f.given f.left };

    ghost invariant = { λ f. (f.drawn ≡ drawn_for f.given) × IfSome f.left (λ left. f.given + left < 2 ^ 32) };
}

impl Feed {
    ghost use Rattle.std.specs.Prelude.{◌≡◌, ◌↔◌, ◌++◌, [], None, IfOk, IfErr, option_to_list};
    ghost use Rattle.tc_gen.specs.Generated.{generated};

    /// Stands before the first of so many lines and of the one that closes the input. Takes no memory.
    pub fn new(lines: u32) -> Feed
        ensures { result ≡ generated lines }
    {
        Feed {
            given: 0,
            drawn: 1,
            left: Some(lines),
        }
    }

    /// The next line, or `None` where none is left. Errs only for want of memory; the line is then still left.
    pub fn next(&mut self, alloc: Global) -> Result<Option<Bytes>, Memory>
        ensures given { IfOk result (λ line. self.old ≡ option_to_list line ++ self.new) }
        ensures end { IfOk result (λ line. (line ≡ None) ↔ (self.old ≡ [])) }
        ensures kept { IfErr result (λ _. self.new ≡ self.old) }
    {
        let Some(left) = self.left else {
            return Ok(None);
        };
        if left == 0 {
            let line = schema_line(alloc)?;
            self.left = None;
            return Ok(Some(line));
        }
        let number = self.given + 1;
        let drawn = next_drawn(self.drawn);
        let line = line_at(alloc, number, drawn % KEYS)?;
        self.given = number;
        self.drawn = drawn;
        self.left = Some(left - 1);
        Ok(Some(line))
    }
}

// Keys are below this.
const KEYS: u32 = 5_000;

fn next_drawn(drawn: u32) -> u32
    requires { drawn < 65_537 }
    ensures { result ≡ next_drawn drawn }
{
    (75 * drawn + 74) % 65_537
}
