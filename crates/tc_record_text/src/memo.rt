//! The labels of members, kept as they were put, so that the objects of an array have each name quoted once.

ghost use Rattle.std.specs.Prelude.{◌≡◌, ◌∷◌, ◌++◌, [], List, ℕ, OnOk, option_map};
ghost use Rattle.json.specs.Print.{quoted};
ghost use Rattle.serde_json.specs.Written.{comma_if};
ghost use Rattle.tc_model.specs.Document.{Name};
ghost use Rattle.tc_record.specs.WalkView.{key_of};
ghost use Rattle.tc_record.specs.Building.{name_told};
ghost use Rattle.tc_compact.specs.Meant.{key_meant, name_at};
ghost use Rattle.tc_record_text.specs.Listed.{comma};
ghost use Rattle.tc_record_text.specs.KeptLabels.{AreLabels};

use crate::labels::name_of;
use crate::sheet::Sheet;
use std::alloc::{AllocError, Global};
use tc_names::Names;
use tc_record::Label;
use tc_text::put_name;

/// In how many places a label is looked for, and how many are kept at most.
const PLACES: usize = 64;

/// Where nothing is ever kept, so that a label is looked for in vain.
const NOWHERE: u8 = 64;

/// How many tokens a record has that is too small for labels to be kept.
const FEW_TOKENS: u32 = 64;

/// The label of a number: a comma, the name that the number means between quotes, and a colon.
#[derive(Drop)]
pub(crate) struct Kept {
    number: u32,
    text: Vec<u8>,
}

/// How often items are looked at in vain, whether they are alike.
const MOST_LOOKS: u8 = 8;

/// So many rows are worth a look.
const FEW_ROWS: usize = 4;

/// Labels that are kept. To keep one costs more than to put it once again, and in most records no name comes twice. So none is
/// kept of a small record, and of a large one only those in items of an array behind the first one.
#[derive(Drop)]
pub(crate) struct LabelMemo {
    pub(crate) kept: Vec<Kept>,
    // where the label of a number may stand: the number of what stands there decides
    places: [u8; PLACES],
    // whether the record is large
    large: bool,
    // whether what is put stands in an item behind the first one of its array
    pub(crate) repeats: bool,
    // how often items that are alike are still looked for
    looks: u8,
}

impl LabelMemo {
    ghost use Rattle.std.specs.Prelude.{◌≡◌, ◌∷◌, ◌++◌, [], List, ℕ, IfSome};
    ghost use Rattle.json.specs.Print.{quoted};
    ghost use Rattle.tc_model.specs.Document.{Name};
    ghost use Rattle.tc_compact.specs.Meant.{name_at};
    ghost use Rattle.tc_record_text.specs.Listed.{comma};
    ghost use Rattle.tc_record_text.specs.KeptLabels.{label_under, AreLabels};

    /// No labels, for a record of so many tokens. Memory is taken when the first label is kept.
    #[inline(always)]
    pub(crate) fn new(alloc: Global, tokens: u32) -> LabelMemo
        ensures { (names : List Name) → AreLabels names result.kept.items }
    {
        LabelMemo {
            kept: Vec::new(alloc),
            places: [NOWHERE; PLACES],
            large: tokens > FEW_TOKENS,
            repeats: false,
            looks: MOST_LOOKS,
        }
    }

    /// Whether the items of an array are worth to be looked at, whether they are alike.
    #[inline(always)]
    pub(crate) fn looks_for_rows(&self) -> bool {
        self.large && self.looks > 0
    }

    /// Counts one look that found so many rows. Few rows are not worth it.
    pub(crate) fn count_look(&mut self, rows: usize)
        ensures { self.new.kept ≡ self.old.kept }
    {
        if rows < FEW_ROWS {
            self.looks = self.looks.saturating_sub(1);
        }
    }

    /// What is kept for a number.
    #[inline(always)]
    fn label_of(&self, number: u32) -> Option<&[u8]>
        ensures { IfSome result (λ text. (names : List Name) → AreLabels names self.now.kept.items → text.now ≡ comma ∷ label_under names number) }
    {
        let place = self.places[number as usize % PLACES] as usize;
        if place < self.kept.len() {
            let kept = &self.kept[place];
            if kept.number == number {
                return Some(kept.text.as_slice());
            }
        }
        None
    }

    /// Keeps the label of a number that means this name, unless the label of another number would no longer be found. Errs only
    /// for want of memory, and then all that were kept still are.
    fn keep(&mut self, number: u32, name: &str) -> Result<(), AllocError>
        ensures { (names : List Name) → name.now ≡ name_at names number → AreLabels names self.old.kept.items → AreLabels names self.new.kept.items }
    {
        let place = self.kept.len();
        if place >= PLACES || self.places[number as usize % PLACES] != NOWHERE {
            return Ok(());
        }
        let mut text = Vec::with_capacity(*self.kept.allocator(), name.len().saturating_add(4))?;
        put_name(true, name, &mut text)?;
        self.kept.push(Kept { number, text })?;
        self.places[number as usize % PLACES] = place as u8;
        Ok(())
    }
}

/// Puts the name that a label means and a colon, after a comma if a member stands before: as it is kept, where it is.
#[inline(always)]
pub(crate) fn put_label(
    later: bool,
    label: Label<'_>,
    names: &Names,
    memo: &mut LabelMemo,
    sheet: &mut Sheet,
) -> Result<(), AllocError>
    requires { AreLabels names.now memo.old.kept.items }
    ensures text { OnOk result (sheet.new ≡ sheet.old ++ (comma_if later ++ (quoted (name_told (option_map (key_meant names.now) (key_of label.entry))) ++ 58 ∷ []))) }
    ensures labels { AreLabels names.now memo.new.kept.items }
{
    let Label::Number(number) = label else {
        return sheet.put_name(later, name_of(label, names));
    };
    match memo.label_of(number) {
        Some(text) => put_kept(later, text, sheet),
        None => put_new(later, number, name_of(label, names), memo, sheet),
    }
}

/// Puts a label that is kept behind a comma, and that comma only if a member stands before.
#[inline(always)]
fn put_kept(later: bool, text: &[u8], sheet: &mut Sheet) -> Result<(), AllocError>
    ensures { (label : List ℕ) → text.now ≡ comma ∷ label → OnOk result (sheet.new ≡ sheet.old ++ (comma_if later ++ label)) }
{
    match text {
        [_comma, label @ ..] if !later => sheet.put_bytes(label),
        whole => sheet.put_bytes(whole),
    }
}

/// Puts the name of a number whose label is not kept, and keeps it if it is likely to come again.
#[inline(never)]
fn put_new(
    later: bool,
    number: u32,
    name: &str,
    memo: &mut LabelMemo,
    sheet: &mut Sheet,
) -> Result<(), AllocError>
    ensures text { OnOk result (sheet.new ≡ sheet.old ++ (comma_if later ++ (quoted name.now ++ 58 ∷ []))) }
    ensures labels { (names : List Name) → name.now ≡ name_at names number → AreLabels names memo.old.kept.items → AreLabels names memo.new.kept.items }
{
    if memo.large && memo.repeats {
        // a label that there is no memory for is put without being kept
        let _kept = memo.keep(number, name);
    }
    sheet.put_name(later, name)
}
