//! That a record is the record of one document, and no longer than what its document weighs allows.

ghost use Rattle.std.specs.Prelude.{◌≡◌, ◌≤◌, ◌+◌, ◌*◌, ℕ, List, length};
ghost use Rattle.tc_model.specs.Document.{Document};
ghost use Rattle.tc_model.specs.Weight.{weight};
ghost use Rattle.tc_record.specs.Record.{IsRecordOf, header_size, record_of};

/// A law, and no work. Two documents have two records.
pub fn one_document()
    ensures { (d e : Document) (bytes : List ℕ) → IsRecordOf d bytes → IsRecordOf e bytes → d ≡ e }
{}

/// A law, and no work. A record has no more bytes than its header and fourteen for each byte that its document weighs.
pub fn record_within_weight()
    ensures { (d : Document) → length (record_of d) ≤ header_size + 14 * weight d }
{}
