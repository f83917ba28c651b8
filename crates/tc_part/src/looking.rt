//! The text of the document of a key.

ghost use Rattle.std.specs.Prelude.{◌≡◌, ℕ, List, Some, None, true, false, is_some, option_map, IfErr, IfOk, OnErr, OnOk, IsErrOf};
ghost use Rattle.tc_model.specs.Document.{Document};
ghost use Rattle.tc_model.specs.Keyed.{value_of};
ghost use Rattle.tc_request_model.specs.Rendered.{document_text};
ghost use Rattle.tc_record.specs.Record.{IsRecordOf};
ghost use Rattle.tc_record.specs.StoredRecord.{IsStoredRecord};
ghost use Rattle.tc_memory.specs.Table.{live as live_record};
ghost use Rattle.tc_list.specs.Lookups.{HaveNone};
ghost use Rattle.tc_part_model.specs.PartState.{told, AreTold};
ghost use Rattle.tc_part_model.specs.PartView.{PartView, below_of, stored_with};
ghost use Rattle.tc_part_model.specs.Meaning.{IsPart, HasFailedAs};
ghost use Rattle.tc_part.specs.Below.{IsBelow, ShowsLive, is_there as there, held_at, newest_held, sealed_held, is_document};
ghost use Rattle.tc_part.specs.Texts.{IsDocumentText, IsListedText};
ghost use Rattle.tc_part.specs.Harms.{IsHarmIn, IsOfRead};
ghost use Rattle.tc_part.specs.Reads.{IsCountedLookup};

use crate::below::{Below, held_in};
use crate::fault::PartFault;
use crate::part::Part;
use crate::records::text_at;
use std::alloc::Global;
use tc_bytes::Bytes;
use tc_list::loaded_components_show_contents;
use tc_memory::Held;
use tc_names::Names;
use tc_part_model::failed_parts_keep_files;
use tc_record::{RecordFault, RecordRef};
use tc_record_text::text_of_document;
use tc_store::Store;

impl<S: Store> Part<S> {
    /// The text of the document of a key with its member `id`, also of a staged one. `None` comes exactly where the key has
    /// none. At most one read is made, and none where no component has the key.
    pub fn lookup(&mut self, alloc: Global, key: u64) -> Result<Option<Bytes>, PartFault>
        requires sound { self.old.failed ≡ false }

        // What a component has of a key is known where its file is told.
        ensures live { (p : PartView) → IsPart (told S.history S.Device.history S.Frozen.content self.old) p → IfOk result (λ text. is_some text ≡ is_some (value_of key (stored_with p))) }
        ensures text { (p : PartView) → IsPart (told S.history S.Device.history S.Frozen.content self.old) p → AreTold (told S.history S.Device.history S.Frozen.content self.old).components
            → IfOk result (λ text. text ≡ option_map (document_text key) (value_of key (stored_with p))) }

        // Over every store it is by what tables and directories show of the key, and what a table holds is what is answered.
        ensures shown { IfOk result (λ text. ShowsLive self.old.sealed self.old.list self.old.active key (is_some text)) }
        ensures held { (d : Document) (bytes : List ℕ) → newest_held self.old.active self.old.sealed key ≡ Some (live_record bytes) → IsRecordOf d bytes → IfOk result (λ text. text ≡ Some (document_text key d)) }
        ensures document { IfOk result (IsDocumentText key) }
        // A text that no table has is that of a record which was read, at the newest entry of the key.
        ensures read { IfOk result (λ text. newest_held self.old.active self.old.sealed key ≡ None → IsListedText (λ file. S.Frozen.content file) self.old.list key text) }
        ensures same { OnOk result (self.new ≡ record self.old { main = self.new.main }) }

        // A part that fails keeps what it stored.
        ensures failed { OnErr result ((p : PartView) → IsPart (told S.history S.Device.history S.Frozen.content self.old) p
            → HasFailedAs (told S.history S.Device.history S.Frozen.content self.new) p None) }
        ensures left { OnErr result (self.new ≡ record self.old { main = self.new.main; failed = true }) }

        ensures harmed { IfErr result (λ fault. IsOfRead fault (λ file at bytes. IsHarmIn (λ file. S.Frozen.content file) self.old.list file at bytes)) }
        ensures counted { IsCountedLookup (IsErrOf result PartFault.Disk) (HaveNone self.old.list key) (S.Watch.counts self.old.main) (S.Watch.counts self.new.main) }
    {
        failed_parts_keep_files();
        match self.text(alloc, key) {
            Ok(found) => Ok(found),
            Err(fault) => {
                self.failed = true;
                Err(fault)
            }
        }
    }

    /// The text of the document of a key. Where this errs the part has not failed yet.
    fn text(&mut self, alloc: Global, key: u64) -> Result<Option<Bytes>, PartFault>
        ensures live { (p : PartView) → IsPart (told S.history S.Device.history S.Frozen.content self.old) p → IfOk result (λ text. is_some text ≡ is_some (value_of key (stored_with p))) }
        ensures text { (p : PartView) → IsPart (told S.history S.Device.history S.Frozen.content self.old) p → AreTold (told S.history S.Device.history S.Frozen.content self.old).components
            → IfOk result (λ text. text ≡ option_map (document_text key) (value_of key (stored_with p))) }
        ensures shown { IfOk result (λ text. ShowsLive self.old.sealed self.old.list self.old.active key (is_some text)) }
        ensures held { (d : Document) (bytes : List ℕ) → newest_held self.old.active self.old.sealed key ≡ Some (live_record bytes) → IsRecordOf d bytes → IfOk result (λ text. text ≡ Some (document_text key d)) }
        ensures document { IfOk result (IsDocumentText key) }
        ensures read { IfOk result (λ text. newest_held self.old.active self.old.sealed key ≡ None → IsListedText (λ file. S.Frozen.content file) self.old.list key text) }
        ensures same { self.new ≡ record self.old { main = self.new.main } }
        ensures harmed { IfErr result (λ fault. IsOfRead fault (λ file at bytes. IsHarmIn (λ file. S.Frozen.content file) self.old.list file at bytes)) }
        ensures counted { IsCountedLookup (IsErrOf result PartFault.Disk) (HaveNone self.old.list key) (S.Watch.counts self.old.main) (S.Watch.counts self.new.main) }
    {
        if self.active.has(key) {
            return self.text_active(alloc, key);
        }
        let below = self.below(key);
        self.text_below(alloc, key, below)
    }

    /// The text of the document that the active table holds of a key, which has an entry there.
    fn text_active(&self, alloc: Global, key: u64) -> Result<Option<Bytes>, PartFault>
        requires { is_some (value_of key self.now.active) ≡ true }
        ensures there { IfOk result (λ text. Some (is_some text) ≡ option_map is_document (held_at key self.now.active)) }
        ensures text { IfOk result (λ text. (d : Document) (bytes : List ℕ) → held_at key self.now.active ≡ Some (live_record bytes) → IsRecordOf d bytes → text ≡ Some (document_text key d)) }
        ensures document { IfOk result (IsDocumentText key) }
        ensures lawful { (bytes : List ℕ) → held_at key self.now.active ≡ Some (live_record bytes) → IsStoredRecord bytes }
        ensures memory { IfErr result (λ fault. fault ≡ PartFault.Memory) }
    {
        match self.active.get(key) {
            Some(Held::Live(bytes)) => match text_of_record(
                alloc,
                key,
                bytes.as_slice(),
                &self.taken,
            ) {
                Ok(text) => Ok(Some(text)),
                Err(fault) => Err(fault),
            },
            Some(Held::Gone) => Ok(None),
            None => unreachable!(),
        }
    }

    /// The text of the document that a key has below the active table, by at most one read.
    fn text_below(
        &mut self,
        alloc: Global,
        key: u64,
        below: Below,
    ) -> Result<Option<Bytes>, PartFault>
        requires { IsBelow self.old.sealed self.old.list key below }
        ensures there { IfOk result (λ text. is_some text ≡ there below) }
        ensures text { (p : PartView) → IsPart (told S.history S.Device.history S.Frozen.content self.old) p → AreTold (told S.history S.Device.history S.Frozen.content self.old).components
            → IfOk result (λ text. text ≡ option_map (document_text key) (value_of key (below_of p))) }
        ensures held { (d : Document) (bytes : List ℕ) → sealed_held key self.old.sealed ≡ Some (live_record bytes) → IsRecordOf d bytes → IfOk result (λ text. text ≡ Some (document_text key d)) }
        ensures document { IfOk result (IsDocumentText key) }
        ensures read { IfOk result (λ text. sealed_held key self.old.sealed ≡ None → IsListedText (λ file. S.Frozen.content file) self.old.list key text) }
        ensures same { self.new ≡ record self.old { main = self.new.main } }
        ensures harmed { IfErr result (λ fault. IsOfRead fault (λ file at bytes. IsHarmIn (λ file. S.Frozen.content file) self.old.list file at bytes)) }
        ensures counted { IsCountedLookup (IsErrOf result PartFault.Disk) (HaveNone self.old.list key) (S.Watch.counts self.old.main) (S.Watch.counts self.new.main) }
    {
        loaded_components_show_contents::<S::Frozen>();
        match below {
            Below::Absent => Ok(None),
            Below::Sealed => match self.text_sealed(alloc, key) {
                Ok(text) => Ok(Some(text)),
                Err(fault) => Err(fault),
            },
            Below::Listed { component, place } => {
                let component = self.list.component_at(component);
                match text_at(alloc, component, place, key, &mut self.main) {
                    Ok(text) => Ok(Some(text)),
                    Err(fault) => Err(fault),
                }
            }
        }
    }

    /// The text of the document that the sealed table holds of a key.
    fn text_sealed(&self, alloc: Global, key: u64) -> Result<Bytes, PartFault>
        requires { (bytes : List ℕ) × (sealed_held key self.now.sealed ≡ Some (live_record bytes)) }
        ensures text { IfOk result (λ text. (d : Document) (bytes : List ℕ) → sealed_held key self.now.sealed ≡ Some (live_record bytes) → IsRecordOf d bytes → text ≡ document_text key d) }
        ensures document { IfOk result (λ text. (d : Document) × (text ≡ document_text key d)) }
        ensures lawful { (bytes : List ℕ) → sealed_held key self.now.sealed ≡ Some (live_record bytes) → IsStoredRecord bytes }
        ensures memory { IfErr result (λ fault. fault ≡ PartFault.Memory) }
    {
        match held_in(&self.sealed, key) {
            Some(Held::Live(bytes)) => text_of_record(alloc, key, bytes.as_slice(), &self.taken),
            _ => unreachable!(),
        }
    }
}

/// The text of the document of a record with names. Errs only for want of memory.
fn text_of_record(alloc: Global, key: u64, bytes: &[u8], names: &Names) -> Result<Bytes, PartFault>
    requires { IsStoredRecord bytes.now }
    ensures text { IfOk result (λ text. (d : Document) → IsRecordOf d bytes.now → text ≡ document_text key d) }
    ensures document { IfOk result (λ text. (d : Document) × (text ≡ document_text key d)) }
    ensures memory { IfErr result (λ fault. fault ≡ PartFault.Memory) }
{
    match text_of_document(alloc, key, RecordRef::known(bytes), names) {
        Ok(text) => Ok(text),
        Err(RecordFault::Memory) => Err(PartFault::Memory),
        Err(RecordFault::NotARecord) => unreachable!(),
    }
}
