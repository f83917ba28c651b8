//! A cursor over the tokens of a record.

ghost use Rattle.std.specs.Prelude.{◌≡◌, ◌≤◌, ◌-◌, ◌++◌, [], false, Some, None, IfNone, IsTrue, if◌then◌else◌, is_some, unwrap_or, option_map, option_to_list, length, map, take};
ghost use Rattle.tc_record.specs.Behind.{behind_close};
ghost use Rattle.tc_record.specs.FlatRows.{IsRowBefore};
ghost use Rattle.tc_record.specs.Preorder.{token, object_opened};
ghost use Rattle.tc_record.specs.Record.{labels};
ghost use Rattle.tc_record.specs.Walk.{known_step};
ghost use Rattle.tc_record.specs.WalkView.{token_of, piece_of, columns_of, format_of};
ghost use Rattle.tc_record.specs.Stack.{kinds_of};

use crate::flat_rows::row_taken;
use crate::passing::tags_behind_close;
use crate::token::{Label, Piece, Token};
use crate::walking::Walk;
use std::marker::Model;
use tc_bytes::u8_at;

/// A cursor over the tokens of a record. Contracts see the tokens that are left.
#[derive(Drop)]
pub struct Cursor<'a> {
    tags: &'a [u8],
    started: bool,
    walk: Walk<'a>,
}

impl<'a> Model for Cursor<'a> {
    ghost use Rattle.std.specs.Prelude.{List, IsTrue, is_some, unwrap_or, []};
    ghost use Rattle.tc_model.specs.Document.{Scalar};
    ghost use Rattle.tc_record.specs.Preorder.{Token};
    ghost use Rattle.tc_record.specs.Walk.{Key};

    ghost Value = { List (Token Key Scalar) };

    ghost use Rattle.tc_record.specs.Held.{tokens_left};

    ghost view = { λ c. unwrap_or (tokens_left c.started c.tags.now c.walk) [] };

    ghost invariant = { λ c. IsTrue (is_some (tokens_left c.started c.tags.now c.walk)) };
}

impl<'a> Cursor<'a> {
    ghost use Rattle.tc_record.specs.Held.{tokens_left};

    /// A cursor before the first tag of a record.
    pub(crate) fn start(tags: &'a [u8], walk: Walk<'a>) -> Cursor<'a>
        requires { IsTrue (is_some (tokens_left false tags.now walk)) }
        ensures { result ≡ unwrap_or (tokens_left false tags.now walk.entry) [] }
    {
        Cursor {
            tags,
            started: false,
            walk,
        }
    }

    /// A second cursor that stands where this one does. Takes no memory.
    pub fn again(&self) -> Cursor<'a>
        ensures { result ≡ self.now }
    {
        Cursor {
            tags: self.tags,
            started: self.started,
            walk: self.walk,
        }
    }

    /// The next token in preorder, or `None` at the end. Takes no memory.
    // built into those who walk: a token that is handed over in memory costs more than what is done with it
    #[inline(always)]
    pub fn next(&mut self) -> Option<Token<'a>>
        ensures taken { self.old ≡ option_to_list (option_map token_of result) ++ self.new }
        ensures end { IfNone result (self.old ≡ []) }
    {
        let (tag, rest) = u8_at(self.tags)?;
        let token = advance(&mut self.walk, self.started, tag);
        self.tags = rest;
        self.started = true;
        token
    }

    /// The tags of the tokens that are left. Takes no memory. Contracts say nothing of them: they serve to tell what `take_row` is
    /// worth to be asked for.
    pub fn tags(&self) -> &'a [u8] {
        self.tags
    }

    /// Whether so many labels are left here and in another cursor, and are the same. Where the answer is no, nothing is said.
    /// Takes no memory.
    #[inline(always)]
    pub fn labels_like(&self, other: &Cursor<'_>, count: u32) -> bool
        ensures { IsTrue result → (count ≤ length (labels self.now)) × (take count (labels self.now) ≡ take count (labels other.now)) }
    {
        if self.walk.format.named || other.walk.format.named {
            return false;
        }
        let slots = &self.walk.columns.slots;
        slots.begin_like(&other.walk.columns.slots, count)
    }

    /// Takes the next item of an array, if it is an object of scalars and its tags are these. Its values are then the first ones in
    /// the room, of which there have to be enough. Else the cursor stays. Takes no memory.
    #[inline(always)]
    pub fn take_row(&mut self, tags: &[u8], room: &mut [Piece<'a>]) -> bool
        ensures taken { IsTrue result → IsRowBefore self.new (map piece_of (take (length tags.now - 2) room.new)) self.old }
        ensures stays { result ≡ false → self.new ≡ self.old }
    {
        if !self.started {
            return false;
        }
        match row_taken(self.tags, &mut self.walk, tags, room) {
            Some(rest) => {
                self.tags = rest;
                true
            }
            None => false,
        }
    }

    /// Passes the tokens up to the close of the innermost array or object that is open, and that close. Takes no memory.
    pub fn pass_to_close(&mut self)
        ensures { self.new ≡ behind_close self.old }
    {
        if self.started {
            self.tags = tags_behind_close(self.tags, &mut self.walk);
            return;
        }
        // the first token opens an object, which is to be closed too
        if let Some((_first, rest)) = u8_at(self.tags) {
            let inner = tags_behind_close(rest, &mut self.walk);
            self.tags = tags_behind_close(inner, &mut self.walk);
            self.started = true;
        }
    }
}

/// The token of a tag, where the first tag of a record opens an object.
#[inline(always)]
fn advance<'a>(walk: &mut Walk<'a>, started: bool, tag: u8) -> Option<Token<'a>>
    ensures step { option_map (λ t. (token_of t, kinds_of walk.new.kinds.arrays walk.new.kinds.depth, columns_of walk.new.columns)) result ≡ (if started then known_step (format_of walk.old.format) tag (kinds_of walk.old.kinds.arrays walk.old.kinds.depth) (columns_of walk.old.columns) else Some (token None object_opened, kinds_of walk.old.kinds.arrays walk.old.kinds.depth, columns_of walk.old.columns)) }
    ensures format { format_of walk.new.format ≡ format_of walk.old.format }
{
    if started {
        walk.step(tag)
    } else {
        Some(Token {
            label: Label::Bare,
            value: Piece::Object,
        })
    }
}
