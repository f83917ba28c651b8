//! The names of a document that are not taken yet.

ghost use Rattle.std.specs.List.{AllByRecursion};
ghost use Rattle.std.specs.Prelude.{◌≡◌, ◌<◌, ◌+◌, ◌^◌, ◌++◌, length, IfOk, OnOk, IsTrue, Some, true};
ghost use Rattle.tc_model.specs.Dictionary.{all_learned, learned, number_of};
ghost use Rattle.tc_compact.specs.Slots.{names_in};

use std::alloc::Global;
use tc_bytes::Memory;
use tc_names::Names;
use tc_record::RecordRef;

/// The distinct names of a record that are not taken, in the order in which they come. Takes no memory where there are
/// none, and errs only for want of memory.
pub(crate) fn fresh_in(alloc: Global, of: &RecordRef<'_>, taken: &Names) -> Result<Names, Memory>
    requires named { of.now.named ≡ true }
    requires short { AllByRecursion (λ name. length name < 2 ^ 32) (names_in of.now.tokens) }
    requires room { length (all_learned taken.now (names_in of.now.tokens)) < 2 ^ 32 + length taken.now }
    ensures { IfOk result (λ fresh. taken.now ++ fresh ≡ all_learned taken.now (names_in of.now.tokens)) }
{
    let mut fresh = Names::new(alloc);
    let mut guess = Guess::at_front();
    let mut names = of.names();
    while let Some(name) = names.next() {
        learn_unless_taken(name, taken, &mut guess, &mut fresh)?;
    }
    Ok(fresh)
}

// Learns a name that is not taken.
fn learn_unless_taken(
    name: &str,
    taken: &Names,
    guess: &mut Guess,
    fresh: &mut Names,
) -> Result<(), Memory>
    requires room { length (learned (taken.now ++ fresh.old) name.now) < 2 ^ 32 + length taken.now }
    requires short { length name.now < 2 ^ 32 }
    ensures { OnOk result (taken.now ++ fresh.new ≡ learned (taken.now ++ fresh.old) name.now) }
{
    match guess.number_of(name, taken) {
        Some(_id) => Ok(()),
        None => {
            fresh.learn(name)?;
            Ok(())
        }
    }
}

/// Guesses at the number of the next name. Names that were learned one after the other mostly stand so again, and objects
/// of one kind, one behind the other, begin with the same name. A right guess is compared and not looked up.
#[derive(Clone, Copy)]
struct Guess {
    next: u32,
    // of the last name that had to be looked up
    first: u32,
}

impl Guess {
    // Before any name.
    fn at_front() -> Guess {
        Guess { next: 0, first: 0 }
    }

    // The number of a name, whatever the guess.
    fn number_of(&mut self, name: &str, names: &Names) -> Option<u32>
        ensures { result ≡ number_of names.now name.now }
    {
        if has_number(names, name, self.next) {
            return self.found(self.next);
        }
        if !has_number(names, name, self.first) {
            self.first = names.id_of(name)?;
        }
        self.found(self.first)
    }

    // The number of a name that was found, and the next name is expected behind it.
    fn found(&mut self, number: u32) -> Option<u32>
        ensures { result ≡ Some number }
    {
        self.next = number.wrapping_add(1);
        Some(number)
    }
}

// Whether a name has just this number.
fn has_number(names: &Names, name: &str, number: u32) -> bool
    ensures { IsTrue result → number_of names.now name.now ≡ Some number }
{
    // that the names are distinct
    let _known = names.len();
    match names.name_of(number) {
        Some(known) => known == name,
        None => false,
    }
}

/// Takes the names of a record. Errs only for want of memory.
pub(crate) fn take_names(of: &RecordRef<'_>, taken: &mut Names) -> Result<(), Memory>
    requires named { of.now.named ≡ true }
    requires short { AllByRecursion (λ name. length name < 2 ^ 32) (names_in of.now.tokens) }
    requires room { length (all_learned taken.old (names_in of.now.tokens)) < 2 ^ 32 }
    ensures { OnOk result (taken.new ≡ all_learned taken.old (names_in of.now.tokens)) }
{
    let mut names = of.names();
    while let Some(name) = names.next() {
        taken.learn(name)?;
    }
    Ok(())
}
