//! Commands and replies at the places of their lines in a window.

ghost use Rattle.std.specs.Prelude.{◌≡◌};

use std::marker::Model;
use tc_command::{Command, Reply};

/// A command, and the place of its line in its window.
#[derive(Drop, Debug)]
pub struct Routed {
    pub at: u32,
    pub command: Command,
}

/// A reply, and the place in its window of the line that it answers.
#[derive(Drop)]
pub struct Placed {
    pub at: u32,
    pub reply: Reply,
}

/// Replies to lines of a window. Contracts see the list.
#[derive(Drop)]
pub struct Replies {
    replies: Vec<Placed>,
}

impl Model for Replies {
    ghost use Rattle.std.specs.Prelude.{List};
    ghost use Rattle.std.specs.Coded.{coded_list};
    ghost use Rattle.tc_route.specs.declared.placed.Placed.{Placed as placed};
    ghost use Rattle.tc_route.specs.contracts.placed.Placed as contract;

    ghost Value = { List placed };

    ghost coded = { coded_list contract.the_row.coded };

    ghost view = { λ r. r.replies.items };
}

impl Replies {
    /// These replies. Takes no memory.
    pub fn of(replies: Vec<Placed>) -> Replies
        ensures { result ≡ replies.items }
    {
        Replies { replies }
    }

    /// The replies, borrowed.
    pub fn as_slice(&self) -> &[Placed]
        ensures { result.now ≡ self.now }
    {
        self.replies.as_slice()
    }

    /// The replies as a vector. Takes no memory.
    pub fn into_inner(self) -> Vec<Placed>
        ensures { result.items ≡ self }
    {
        self.replies
    }
}
