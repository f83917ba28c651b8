//! Records of a component that were walked, by which others are known to spell documents, and where a path leads in them.

ghost use Rattle.std.specs.Prelude.{◌≡◌, ◌⊎◌, ℕ, List, Option, [], false, IfSome, IfNone, OnSome};
ghost use Rattle.tc_compact.specs.Meant.{IsRecordUnder};
ghost use Rattle.tc_model.specs.Document.{Name, Document};
ghost use Rattle.tc_query.specs.Readers.{hops_in, IsLeadIf, IsKnownOrNone, KnowsUnder};

use std::alloc::Global;
use std::marker::Model;
use tc_alike::spells_like;
use tc_compact::spells_document;
use tc_names::Names;
use tc_path::{Lead, lead_of};
use tc_record::RecordRef;

/// How many records of a component are known at most.
const MOST_KNOWN: usize = 16;

/// How many misses in a row show that the records which come to a place have many shapes: to compare each of them, and to keep a
/// copy, costs a good part of a walk.
const MOST_MISSES: u8 = 4;

/// One in so many is tried then, so that a later run of one shape is found.
const TRIED: u8 = 16;

/// A record of more bytes is large.
const LARGE: usize = 65_536;

/// A record that was walked and spells a document, or none where there are no bytes; where a path leads in it; and how many
/// records in a row came here that were not known to be alike.
#[derive(Drop)]
pub(crate) struct KnownRecord {
    bytes: Vec<u8>,
    lead: Lead,
    misses: u8,
}

impl KnownRecord {
    /// None is known. Takes no memory.
    fn new(alloc: Global) -> KnownRecord
        ensures { result.bytes.items ≡ [] }
    {
        KnownRecord {
            bytes: Vec::new(alloc),
            lead: Lead::Unknown,
            misses: 0,
        }
    }

    /// Where the path leads in a record that spells a document since the known one does. Where there is no answer nothing is said
    /// of the record.
    #[inline(always)]
    fn lead_like(&mut self, of: &RecordRef<'_>, names: &Names) -> Option<Lead>
        requires numbered { of.now.named ≡ false }
        requires knows { (hops : Option (List ℕ)) × IsKnownOrNone names.now hops self.old }
        ensures same { (self.new.bytes ≡ self.old.bytes) × (self.new.lead ≡ self.old.lead) }
        ensures found { OnSome result ((d : Document) × IsRecordUnder names.now d of.now.bytes) }
        ensures lead { (hops : Option (List ℕ)) → IsKnownOrNone names.now hops self.old → IfSome result (IsLeadIf hops of.now.tokens) }
    {
        // that they spell a numbered tree
        let _bytes = of.bytes();
        let known = self.bytes.as_slice();
        if known.is_empty() {
            return None;
        }
        if self.is_left_alone() || !spells_like(of, known, names) {
            self.misses = self.misses.wrapping_add(1);
            return None;
        }
        self.misses = 0;
        Some(self.lead)
    }

    /// Knows this record in place of the other one. None is known where memory is wanting.
    #[inline(always)]
    fn keep(&mut self, of: &RecordRef<'_>, lead: Lead)
        ensures { ((self.new.bytes ≡ self.old.bytes) × (self.new.lead ≡ self.old.lead)) ⊎ ((self.new.bytes.items ≡ []) ⊎ ((self.new.bytes.items ≡ of.now.bytes) × (self.new.lead ≡ lead))) }
    {
        if self.is_left_alone() {
            return;
        }
        self.bytes.clear();
        if self.bytes.extend_from_slice(of.bytes()).is_err() {
            self.bytes.clear();
        }
        self.lead = lead;
    }

    /// Whether the next record is neither compared nor kept.
    fn is_left_alone(&self) -> bool {
        self.misses >= MOST_MISSES && self.misses % TRIED != 0
    }
}

/// The records that are known of a component, each where its counts of tokens and of members tell. Most records have the tags and
/// the numbers of one of them, and need no walk. Contracts see them as a list.
#[derive(Drop)]
pub(crate) struct Known {
    records: Vec<KnownRecord>,
    alloc: Global,
}

impl Model for Known {
    ghost use Rattle.std.specs.Prelude.{List};
    ghost use Rattle.tc_query.specs.declared.known.KnownRecord.{KnownRecord};

    ghost Value = { List KnownRecord };

    ghost view = { λ k. k.records.items };
}

impl Known {
    /// None is known. Takes no memory.
    pub(crate) fn new(alloc: Global) -> Known
        ensures { result ≡ [] }
    {
        Known {
            records: Vec::new(alloc),
            alloc,
        }
    }

    /// Where hops lead in a record without names, or `None` where it spells no document under the dictionary of its component. Where
    /// there are no hops that is unknown.
    // with one caller: a record and a lead that are handed over in memory cost more than what is done with them
    #[inline(always)]
    pub(crate) fn lead(
        &mut self,
        of: &RecordRef<'_>,
        names: &Names,
        hops: &Option<Vec<u32>>,
    ) -> Option<Lead>
        requires numbered { of.now.named ≡ false }
        requires knows { KnowsUnder names.now (hops_in hops.now) self.old }
        ensures knows { KnowsUnder names.now (hops_in hops.now) self.new }
        ensures found { OnSome result ((d : Document) × IsRecordUnder names.now d of.now.bytes) }
        ensures none { IfNone result ((d : Document) → IsRecordUnder names.now d of.now.bytes → ⊥) }
        ensures lead { IfSome result (IsLeadIf (hops_in hops.now) of.now.tokens) }
    {
        // that they spell a numbered tree
        let _bytes = of.bytes();
        let at = place_of(of);
        if let Some(lead) = self.lead_like(of, at, names) {
            return Some(lead);
        }
        if !spells_document(of.again(), names) {
            return None;
        }
        let lead = lead_in(of, hops);
        self.keep(of, at, lead);
        Some(lead)
    }

    /// Where hops lead in it since the record that is known in its place is like it.
    #[inline(always)]
    fn lead_like(&mut self, of: &RecordRef<'_>, at: usize, names: &Names) -> Option<Lead>
        requires numbered { of.now.named ≡ false }
        requires knows { (hops : Option (List ℕ)) × KnowsUnder names.now hops self.old }
        ensures knows { (hops : Option (List ℕ)) → KnowsUnder names.now hops self.old → KnowsUnder names.now hops self.new }
        ensures found { OnSome result ((d : Document) × IsRecordUnder names.now d of.now.bytes) }
        ensures lead { (hops : Option (List ℕ)) → KnowsUnder names.now hops self.old → IfSome result (IsLeadIf hops of.now.tokens) }
    {
        if at < self.records.len() {
            self.records[at].lead_like(of, names)
        } else {
            None
        }
    }

    /// Knows this record in its place, where there is memory for it.
    #[inline(always)]
    fn keep(&mut self, of: &RecordRef<'_>, at: usize, lead: Lead)
        requires numbered { of.now.named ≡ false }
        ensures { (names : List Name) (hops : Option (List ℕ)) → (d : Document) × IsRecordUnder names d of.now.bytes → IsLeadIf hops of.now.tokens lead → KnowsUnder names hops self.old → KnowsUnder names hops self.new }
    {
        // that they spell a numbered tree
        let _bytes = of.bytes();
        self.make_room();
        if at < self.records.len() {
            self.records[at].keep(of, lead);
        }
    }

    /// Makes all places, in which none is known, where they are not there yet and there is memory for them.
    fn make_room(&mut self)
        ensures { (names : List Name) (hops : Option (List ℕ)) → KnowsUnder names hops self.old → KnowsUnder names hops self.new }
    {
        while self.records.len() < MOST_KNOWN {
            if self.records.push(KnownRecord::new(self.alloc)).is_err() {
                return;
            }
        }
    }
}

/// The place of a record among those that are known. All large ones have one place, so that the copies take little memory.
fn place_of(of: &RecordRef<'_>) -> usize {
    if of.bytes().len() > LARGE {
        return 0;
    }
    let tokens = u64::from(of.token_count());
    let members = u64::from(of.member_count());
    ((tokens + 3 * members) % MOST_KNOWN as u64) as usize
}

/// Where hops, if there are any, lead in a record without names.
fn lead_in(of: &RecordRef<'_>, hops: &Option<Vec<u32>>) -> Lead
    ensures { IsLeadIf (hops_in hops.now) of.now.tokens result }
{
    match hops {
        Some(hops) => lead_of(of, hops.as_slice()),
        None => Lead::Unknown,
    }
}
