//! A name learned by a guess at its number. Records of one kind have the same names in the same order, so that most
//! guesses are right, and then the name is compared and not looked up.

ghost use Rattle.std.specs.Prelude.{◌≡◌, ◌<◌, ◌^◌, IfOk, OnOk, OnErr, Some, length, true};
ghost use Rattle.tc_model.specs.Dictionary.{IsDictionary, learned, number_of};

use crate::dictionary::is_dictionary;
use tc_bytes::Memory;
use tc_names::Names;

/// The number of a name, which is added at the end if it is new, whatever the guess. Errs only for want of memory.
pub(crate) fn learn_by_guess(names: &mut Names, name: &str, guess: u32) -> Result<u32, Memory>
    requires room { length (learned names.old name.now) < 2 ^ 32 }
    requires short { length name.now < 2 ^ 32 }
    ensures number { IfOk result (λ id. number_of names.new name.now ≡ Some id) }
    ensures ok { OnOk result (names.new ≡ learned names.old name.now) }
    ensures err { OnErr result (names.new ≡ names.old) }
    ensures dictionary { IsDictionary names.new }
{
    is_dictionary(names);
    if has_number(names, name, guess) {
        return Ok(guess);
    }
    names.learn(name)
}

/// Whether a name has just this number.
fn has_number(names: &Names, name: &str, number: u32) -> bool
    ensures { result ≡ true → number_of names.now name.now ≡ Some number }
{
    is_dictionary(names);
    match names.name_of(number) {
        Some(known) => known == name,
        None => false,
    }
}
