//! The names of a record, learned.

ghost use Rattle.std.specs.Prelude.{◌≡◌, ◌<◌, ◌^◌, IfOk, OnOk, length, map};
ghost use Rattle.tc_model.specs.Dictionary.{Extends, IsDictionary, all_learned, number as name_number};
ghost use Rattle.tc_record.specs.Record.{joined};
ghost use Rattle.tc_compact.specs.Slots.{names_in};

use crate::dictionary::is_dictionary;
use crate::guessing::learn_by_guess;
use std::alloc::Global;
use tc_bytes::Memory;
use tc_names::Names;
use tc_record::{Label, RecordRef};

/// Learns the names of a record from its front, and answers their numbers, one for each member. Errs only for want of memory, with
/// some of the names learned.
pub(crate) fn learn_names(
    alloc: Global,
    from: &RecordRef<'_>,
    names: &mut Names,
) -> Result<Vec<u32>, Memory>
    requires room { length (all_learned names.old (names_in from.now.tokens)) < 2 ^ 32 }
    requires short { length (joined (names_in from.now.tokens)) < 2 ^ 32 }
    ensures numbers { IfOk result (λ numbers. numbers.items ≡ map (name_number names.new) (names_in from.now.tokens)) }
    ensures learned { OnOk result (names.new ≡ all_learned names.old (names_in from.now.tokens)) }
    ensures extends { Extends names.new names.old }
    ensures dictionary { IsDictionary names.new }
{
    is_dictionary(names);
    let mut cursor = from.cursor();
    let mut numbers = Vec::with_capacity(alloc, from.member_count() as usize)?;
    let mut guess = 0;
    while let Some(token) = cursor.next() {
        if let Label::Name(name) = token.label {
            let number = learn_by_guess(names, name, guess)?;
            numbers.push(number)?;
            // names that were learned one after the other mostly stand so again
            guess = number.wrapping_add(1);
        }
    }
    Ok(numbers)
}
