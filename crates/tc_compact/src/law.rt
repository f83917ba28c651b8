//! That nothing is lost when names become numbers, that records and shapes have the same names, and what the tokens of
//! a record mean.

ghost use Rattle.std.specs.Prelude.{◌≡◌, ◌<◌, ◌≤◌, ◌+◌, ◌^◌, ℕ, List, Some, true, All, length};
ghost use Rattle.tc_model.specs.Document.{Name, Document, document_shape};
ghost use Rattle.tc_model.specs.Dictionary.{Extends, IsDictionary, all_learned};
ghost use Rattle.tc_model.specs.KnownNames.{HasEach};
ghost use Rattle.tc_model.specs.ShapeNames.{names_within};
ghost use Rattle.tc_model.specs.TreeSize.{tree_size};
ghost use Rattle.tc_record.specs.Borrowed.{Record, Spells, named_tokens};
ghost use Rattle.tc_record.specs.Building.{document_read, HoldDocuments};
ghost use Rattle.tc_record.specs.Record.{NumberedTree, IsNumberedRecordOf, IsRecordOf, packed_record_of};
ghost use Rattle.tc_compact.specs.Compacted.{IsCompactedIn, IsNumberedUnder};
ghost use Rattle.tc_compact.specs.Meant.{tokens_meant, levels_meant, IsRecordUnder};
ghost use Rattle.tc_compact.specs.Repacked.{repacked};
ghost use Rattle.tc_compact.specs.Slots.{names_in};

/// A law, and no work. The form 1 of a record under a dictionary is its form 1 under each dictionary that extends that
/// one, and so it is with form 2. Bytes are those of one record under a dictionary alone, whichever their form. So `expand`
/// answers the record that was handed to `compact`, unless memory is wanting. And the form 1 of a tree becomes its form 2.
pub fn round_trip()
    ensures stays { (form : ℕ) (d : Document) (whole bytes : List ℕ) (names newer : List Name) → IsRecordOf d whole → IsCompactedIn form names d bytes → IsDictionary newer → Extends newer names → IsCompactedIn form newer d bytes }
    ensures one { (d e : Document) (whole other bytes : List ℕ) (names : List Name) → IsRecordOf d whole → IsNumberedUnder names d bytes → IsRecordOf e other → IsNumberedUnder names e bytes → whole ≡ other }
    ensures repacks { (n : NumberedTree) (bytes : List ℕ) → IsNumberedRecordOf n bytes → repacked bytes ≡ packed_record_of n }
{}

/// A law, and no work. A record and the shape of its document have the same names in the same order, so what `compact`
/// learns of the one is what `add` learns of the other; and a dictionary that has them all learns nothing of either.
/// Each name is short, and a record has at least a byte for each name and for each value.
pub fn names_agree()
    ensures order { (d : Document) → names_in (named_tokens d) ≡ names_within (document_shape d) }
    ensures known { (names wanted : List Name) → HasEach names wanted → all_learned names wanted ≡ names }
    ensures short { (d : Document) (whole : List ℕ) → IsRecordOf d whole → All (λ name. length name < 2 ^ 32) (names_within (document_shape d)) }
    ensures few { (r : Record) (known : List Name) → Spells r → r.named ≡ true → length (all_learned known (names_in r.tokens)) ≤ length known + length r.bytes }
    ensures values { (d : Document) (whole : List ℕ) → IsRecordOf d whole → tree_size d ≤ length whole }
{}

/// A law, and no work. The tokens of a record of any form, with the names that numbers mean, are read as the document
/// that the record spells, and what they hold is lawful.
pub fn document_meant()
    ensures read { (r : Record) (names : List Name) (d : Document) → Spells r → IsRecordUnder names d r.bytes → document_read (tokens_meant names r.tokens) ≡ Some d }
    ensures lawful { (r : Record) (names : List Name) (d : Document) → Spells r → IsRecordUnder names d r.bytes → HoldDocuments (levels_meant names r.tokens) }
{}
