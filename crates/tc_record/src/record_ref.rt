//! A record of any form, borrowed.

ghost use Rattle.std.specs.Prelude.{◌≡◌, ◌↔◌, ◌∷◌, [], None, IfSome, IfNone, IsTrue, is_some, true, false, ℕ, length, map};
ghost use Rattle.std.specs.List.{AllByRecursion};
ghost use Rattle.tc_model.specs.Document.{Document};
ghost use Rattle.tc_record.specs.Preorder.{tokens_of};
ghost use Rattle.tc_record.specs.Record.{tags, fixed, texts, labels, greatest, joined, NumberedTree, IsNumberedForm, IsRecordOf, IsNumberedRecordIn};
ghost use Rattle.tc_record.specs.Sections.{are_below};
ghost use Rattle.tc_record.specs.Walk.{name};
ghost use Rattle.tc_record.specs.Borrowed.{SpellsNumbers, Spells, IsRecord, IsBelow, named_tokens, numbered_tokens};

use crate::column::Column;
use crate::cursor::Cursor;
use crate::judging::has_tokens;
use crate::judging_numbers::has_numbered_tokens;
use crate::names_left::NamesLeft;
use crate::reader::Format;
use crate::sections::{Sections, sections_of_record};
use crate::walking::Walk;
use std::marker::Model;

/// A record that is borrowed. Contracts see its bytes, its form, whether members carry names, and its tokens.
#[derive(Drop)]
pub struct RecordRef<'a> {
    bytes: &'a [u8],
    sections: Sections<'a>,
}

impl<'a> Model for RecordRef<'a> {
    ghost use Rattle.std.specs.Prelude.{◌≡◌, Some, IsTrue, is_some, unwrap_or, []};
    ghost use Rattle.tc_bytes.specs.Codec.{IsBytes};
    ghost use Rattle.tc_record.specs.Borrowed.{Record};

    ghost Value = { Record };

    ghost use Rattle.tc_record.specs.Held.{tokens_held};

    ghost view = { λ r. record { bytes = r.bytes.now; form = r.sections.format.form; named = r.sections.format.named; tokens = unwrap_or (tokens_held r.sections) [] } };

    ghost use Rattle.tc_record.specs.Held.{TellsGreatest};
    ghost use Rattle.tc_record.specs.Sections.{sections_in};
    ghost use Rattle.tc_record.specs.SectionsView.{sections_of};

    ghost invariant = { λ r. IsBytes r.bytes.now × (sections_in r.bytes.now ≡ Some (sections_of r.sections)) × IsTrue (is_some (tokens_held r.sections)) × TellsGreatest r.sections };
}

impl<'a> RecordRef<'a> {
    /// The record that the bytes are, or `None` where they are a record of none of the forms. Takes no memory.
    pub fn of(bytes: &'a [u8]) -> Option<RecordRef<'a>>
        ensures bytes { IfSome result (λ r. r.bytes ≡ bytes.now) }
        ensures spells { IfSome result Spells }
        ensures document { IfSome result (λ r. (d : Document) → IsRecordOf d bytes.now → (r.named ≡ true) × (r.tokens ≡ named_tokens d)) }
        ensures numbered { IfSome result (λ r. (form : ℕ) (n : NumberedTree) → IsNumberedForm form → IsNumberedRecordIn form n bytes.now → (r.form ≡ form) × (r.named ≡ false) × (r.tokens ≡ numbered_tokens n)) }
        ensures none { IfNone result (IsRecord bytes.now → ⊥) }
    {
        let sections = sections_of_record(bytes)?;
        let columns = sections.columns.checked()?;
        if has_tokens(sections.tags, sections.format, columns) {
            Some(RecordRef { bytes, sections })
        } else {
            None
        }
    }

    /// The record of this form that the bytes are, or `None` where they are none, or the form is none whose members carry numbers.
    /// Takes no memory, and less time than `of`, which keeps room for names that are to ascend.
    #[inline(always)]
    pub fn numbered(bytes: &'a [u8], form: u8) -> Option<RecordRef<'a>>
        ensures bytes { IfSome result (λ r. r.bytes ≡ bytes.now) }
        ensures form { IfSome result (λ r. r.form ≡ form) }
        ensures spells { IfSome result (λ r. (n : NumberedTree) × SpellsNumbers r n) }
        ensures numbered { IfSome result (λ r. (n : NumberedTree) → IsNumberedRecordIn form n bytes.now → r.tokens ≡ numbered_tokens n) }
        ensures none { IfNone result ((n : NumberedTree) → IsNumberedForm form → IsNumberedRecordIn form n bytes.now → ⊥) }
    {
        let sections = sections_of_record(bytes)?;
        if !is_numbered(sections.format, form) {
            return None;
        }
        let columns = sections.columns.checked()?;
        if has_numbered_tokens(sections.tags, sections.format, columns) {
            Some(RecordRef { bytes, sections })
        } else {
            None
        }
    }

    /// The record that bytes are known to be. Takes no memory, and looks neither at tags nor at texts nor at names.
    pub fn known(bytes: &'a [u8]) -> RecordRef<'a>
        requires { IsRecord bytes.now }
        ensures bytes { result.bytes ≡ bytes.now }
        ensures spells { Spells result }
        ensures document { (d : Document) → IsRecordOf d bytes.now → (result.named ≡ true) × (result.tokens ≡ named_tokens d) }
        ensures numbered { (form : ℕ) (n : NumberedTree) → IsNumberedForm form → IsNumberedRecordIn form n bytes.now → (result.form ≡ form) × (result.named ≡ false) × (result.tokens ≡ numbered_tokens n) }
    {
        match sections_of_record(bytes) {
            Some(sections) => RecordRef { bytes, sections },
            None => unreachable!(),
        }
    }

    /// The form of the record: 0, 1 or 2. Takes no memory.
    pub fn form(&self) -> u8
        ensures { result ≡ self.now.form }
    {
        self.sections.format.form
    }

    /// Whether members carry names, as in form 0.
    pub fn named(&self) -> bool
        ensures { result ≡ self.now.named }
    {
        self.sections.format.named
    }

    /// The bytes of the whole record, which spell a document or a numbered tree.
    pub fn bytes(&self) -> &'a [u8]
        ensures same { result.now ≡ self.now.bytes }
        ensures is_record { IsRecord result.now }
        ensures spells { Spells self.now }
    {
        self.bytes
    }

    /// How many tokens there are. Takes no memory.
    pub fn token_count(&self) -> u32
        ensures { result ≡ length self.now.tokens }
    {
        self.sections.tags.len() as u32
    }

    /// How many members the objects have together. Takes no memory.
    pub fn member_count(&self) -> u32
        ensures { result ≡ length (labels self.now.tokens) }
    {
        self.sections.columns.slots.left
    }

    /// Whether each number that a member carries in place of its name is below a limit. Takes no memory, and looks at
    /// the greatest of them alone, which was found when the bytes were judged.
    pub fn numbers_below(&self, limit: u32) -> bool
        ensures { IsTrue result ↔ AllByRecursion (IsBelow limit) (labels self.now.tokens) }
    {
        let greatest = self.sections.greatest_slot;
        self.named() || slots_below(limit, self.member_count(), greatest)
    }

    /// The tags of the tokens. Takes no memory.
    pub fn tags(&self) -> &'a [u8]
        ensures { result.now ≡ tags self.now.tokens }
    {
        self.sections.tags
    }

    /// The names of the members, where they carry names. Takes no memory, and looks at no token.
    pub fn names(&self) -> NamesLeft<'a>
        requires { self.now.named ≡ true }
        ensures { labels self.now.tokens ≡ map name result }
    {
        let columns = self.sections.columns.known();
        NamesLeft::of(columns.slots, columns.names)
    }

    /// The slots of the members: of a record without names their numbers. Takes no memory.
    pub fn slots(&self) -> Column<'a>
        ensures { (n : NumberedTree) → self.now.tokens ≡ numbered_tokens n → result ≡ labels (tokens_of n) }
    {
        Column::of(self.sections.columns.slots)
    }

    /// The greatest slot, or 0 where there is none. Takes no memory.
    pub fn greatest_slot(&self) -> u32
        ensures { (n : NumberedTree) → self.now.tokens ≡ numbered_tokens n → result ≡ greatest (labels (tokens_of n)) }
    {
        self.sections.greatest_slot
    }

    /// The bytes of all values that have as many as their tags tell. Takes no memory.
    pub fn fixed(&self) -> &'a [u8]
        ensures { result.now ≡ fixed self.now.tokens }
    {
        self.sections.columns.fixed
    }

    /// How many bytes these are. Takes no memory.
    pub fn fixed_size(&self) -> u32
        ensures { result ≡ length (fixed self.now.tokens) }
    {
        self.sections.columns.fixed.len() as u32
    }

    /// How many texts there are. Takes no memory.
    pub fn text_count(&self) -> u32
        ensures { result ≡ length (texts self.now.tokens) }
    {
        self.sections.columns.lengths.left
    }

    /// The bytes of all texts. Takes no memory.
    pub fn texts(&self) -> &'a [u8]
        ensures { result.now ≡ joined (texts self.now.tokens) }
    {
        self.sections.columns.texts
    }

    /// How many bytes each text has. Takes no memory.
    pub fn text_lengths(&self) -> Column<'a>
        ensures { result ≡ map length (texts self.now.tokens) }
    {
        Column::of(self.sections.columns.lengths)
    }

    /// How many bytes the longest text has, or 0 where there is none. Takes no memory.
    pub fn longest_text(&self) -> u32
        ensures { result ≡ greatest (map length (texts self.now.tokens)) }
    {
        self.sections.greatest_length
    }

    /// The same record, borrowed once more. Takes no memory.
    pub fn again(&self) -> RecordRef<'a>
        ensures { result ≡ self.now }
    {
        RecordRef {
            bytes: self.bytes,
            sections: self.sections,
        }
    }

    /// A cursor that stands before the first token. Takes no memory.
    pub fn cursor(&self) -> Cursor<'a>
        ensures { result ≡ self.now.tokens }
    {
        let sections = self.sections;
        Cursor::start(
            sections.tags,
            Walk::in_object(sections.format, sections.columns.known()),
        )
    }
}

/// Whether a record of this format has this form, and its members carry numbers.
fn is_numbered(format: Format, form: u8) -> bool
    ensures told { IsTrue result → (format.named ≡ false) × (format.form ≡ form) }
    ensures other { result ≡ false → format.named ≡ false → format.form ≡ form → ⊥ }
{
    !format.named && format.form == form
}

/// Whether so many slots are below a limit, as their greatest tells.
fn slots_below(limit: u32, count: u32, greatest: u32) -> bool
    ensures { result ≡ are_below limit count greatest }
{
    greatest < limit || count == 0
}
