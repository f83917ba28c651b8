//! Whether there is room for the names of a table, each new one learned once.

ghost use Rattle.std.specs.List.{AllByRecursion};
ghost use Rattle.std.specs.Prelude.{◌≡◌, ◌↔◌, ◌<◌, ◌≤◌, ◌^◌, ◌∷◌, [], IfOk, IsTrue, false, length, true};
ghost use Rattle.tc_model.specs.Dictionary.{all_learned, learned};
ghost use Rattle.tc_compact.specs.Slots.{names_in};
ghost use Rattle.tc_memory.specs.DocumentTables.{IsTableOf};
ghost use Rattle.tc_memory.specs.Meaning.{IsLawfulHeld, entry_of};
ghost use Rattle.tc_lsm_model.specs.Tables.{Table, shapes_held};
ghost use Rattle.tc_flush.specs.Recounting.{names_with};

use tc_bytes::Memory;
use tc_compact::names_agree;
use tc_memory::{Entry, Held, Sealed};
use tc_names::Names;
use tc_record::{Label, RecordRef, one_document};

/// Whether there are fewer than 2^32 names with those of a table's documents. Errs only for want of memory.
pub fn names_fit(sealed: &Sealed, names: &Names) -> Result<bool, Memory>
    ensures { IfOk result (λ yes. (t : Table) → IsTableOf t sealed.now → IsTrue yes ↔ length (names_with names.now (shapes_held t)) < 2 ^ 32) }
{
    let mut known = names.copy()?;
    let mut entries = sealed.entries();
    while let Some(entry) = entries.next() {
        if !learn_entry(entry, &mut known)? {
            return Ok(false);
        }
    }
    // that there are fewer than 2^32
    let _all = known.len();
    Ok(true)
}

/// Learns the names of an entry's document, if it has one, and answers whether there was room.
fn learn_entry(entry: Entry<'_>, known: &mut Names) -> Result<bool, Memory>
    requires { IsLawfulHeld entry.held }
    ensures learned { IfOk result (λ yes. yes ≡ true → (t : Table) → IsTableOf t (entry_of entry.entry ∷ []) → known.new ≡ names_with known.old (shapes_held t)) }
    ensures full { IfOk result (λ yes. yes ≡ false → (t : Table) → IsTableOf t (entry_of entry.entry ∷ []) → 2 ^ 32 ≤ length (names_with known.old (shapes_held t))) }
{
    names_agree();
    one_document();
    match entry.held {
        Held::Gone => Ok(true),
        Held::Live(bytes) => learn_record(&RecordRef::known(bytes.as_slice()), known),
    }
}

/// The same of a record.
fn learn_record(of: &RecordRef<'_>, known: &mut Names) -> Result<bool, Memory>
    requires { AllByRecursion (λ name. length name < 2 ^ 32) (names_in of.now.tokens) }
    ensures learned { IfOk result (λ yes. yes ≡ true → known.new ≡ all_learned known.old (names_in of.now.tokens)) }
    ensures full { IfOk result (λ yes. yes ≡ false → 2 ^ 32 ≤ length (all_learned known.old (names_in of.now.tokens))) }
{
    let mut cursor = of.cursor();
    while let Some(token) = cursor.next() {
        if let Label::Name(name) = token.label {
            if !learn_name(known, name)? {
                return Ok(false);
            }
        }
    }
    Ok(true)
}

/// The same of a name.
fn learn_name(known: &mut Names, name: &str) -> Result<bool, Memory>
    requires { length name.now < 2 ^ 32 }
    ensures learned { IfOk result (λ yes. yes ≡ true → known.new ≡ learned known.old name.now) }
    ensures full { IfOk result (λ yes. yes ≡ false → 2 ^ 32 ≤ length (learned known.old name.now)) }
{
    if known.len() == u32::MAX {
        return Ok(known.id_of(name).is_some());
    }
    known.learn(name)?;
    Ok(true)
}
