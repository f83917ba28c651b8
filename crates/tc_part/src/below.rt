//! Where the document of a key is below the active table.

ghost use Rattle.std.specs.Arc.{arc_value};
ghost use Rattle.std.specs.Prelude.{◌≡◌, ℕ, List, Some, is_some, option_map, IfErr, IfOk, IfSome, IsErrOf};
ghost use Rattle.tc_model.specs.Document.{Document, document_shape};
ghost use Rattle.tc_value.specs.ShapeMeaning.{shape_tree};
ghost use Rattle.tc_record.specs.Record.{IsRecordOf};
ghost use Rattle.tc_record.specs.StoredRecord.{IsStoredRecord};
ghost use Rattle.tc_memory.specs.Meaning.{held_of, IsLawfulHeld};
ghost use Rattle.tc_memory.specs.Table.{live as live_record};
ghost use Rattle.tc_lsm_model.specs.Tables.{shape_in};
ghost use Rattle.tc_list.specs.Lookups.{HaveNone};
ghost use Rattle.tc_part_model.specs.PartState.{told, AreTold};
ghost use Rattle.tc_part_model.specs.PartView.{PartView, below_of};
ghost use Rattle.tc_part_model.specs.Meaning.{IsPart};
ghost use Rattle.tc_part_model.specs.Staging.{HandsShape};
ghost use Rattle.tc_part.specs.Below.{IsBelow, is_there as there, is_live as live_with, held_at, sealed_held};
ghost use Rattle.tc_part.specs.Handed.{IsShapeBelow, IsHanded};
ghost use Rattle.tc_part.specs.Harms.{IsHarmIn, IsOfRead};
ghost use Rattle.tc_part.specs.Reads.{IsCountedLookup};

use crate::fault::PartFault;
use crate::part::Part;
use crate::records::shape_at;
use std::alloc::Global;
use std::sync::Arc;
use tc_compact::shape_of;
use tc_component::Place;
use tc_list::{Whereabouts, loaded_components_show_contents};
use tc_memory::{Held, Sealed};
use tc_names::Names;
use tc_record::{RecordFault, RecordRef};
use tc_store::Store;
use tc_value::Shape;

/// Where the document of a key is below the active table: nowhere, in the sealed table, or in the component at a position
/// of the list.
#[derive(Clone, Copy, Debug, PartialEq, Eq)]
pub(crate) enum Below {
    Absent,
    Sealed,
    Listed { component: usize, place: Place },
}

impl Below {
    pub(crate) fn is_there(self) -> bool
        ensures { result ≡ there self }
    {
        match self {
            Below::Absent => false,
            Below::Sealed | Below::Listed { .. } => true,
        }
    }
}

impl<S: Store> Part<S> {
    /// Where the document of a key is below the active table. Makes no read and takes no memory.
    pub(crate) fn below(&self, key: u64) -> Below
        ensures { IsBelow self.now.sealed self.now.list key result }
    {
        match held_in(&self.sealed, key) {
            Some(Held::Live(_)) => Below::Sealed,
            Some(Held::Gone) => Below::Absent,
            None => match self.list.find(key) {
                Whereabouts::Absent => Below::Absent,
                Whereabouts::At { component, place } => Below::Listed { component, place },
            },
        }
    }

    /// Whether a key has a document, where this is what it has below the active table.
    pub(crate) fn is_live(&self, key: u64, below: Below) -> bool
        ensures { result ≡ live_with (held_at key self.now.active) below }
    {
        match self.active.get(key) {
            Some(Held::Live(_)) => true,
            Some(Held::Gone) => false,
            None => below.is_there(),
        }
    }

    /// The shape below that a new entry of the active table keeps. An entry that is there keeps its own, so that none is
    /// looked for.
    pub(crate) fn shape_kept(
        &mut self,
        alloc: Global,
        key: u64,
        below: Below,
    ) -> Result<Option<Shape>, PartFault>
        requires { IsBelow self.old.sealed self.old.list key below }
        ensures handed { IfOk result (λ shape. (p : PartView) → IsPart (told S.history S.Device.history S.Frozen.content self.old) p
            → HandsShape (told S.history S.Device.history S.Frozen.content self.old) p key (option_map shape_tree shape)) }
        ensures read { IfOk result (λ shape. IsHanded (λ file. S.Frozen.content file) self.old.active self.old.sealed self.old.list key (option_map shape_tree shape)) }
        ensures same { self.new ≡ record self.old { main = self.new.main } }
        ensures harmed { IfErr result (λ fault. IsOfRead fault (λ file at bytes. IsHarmIn (λ file. S.Frozen.content file) self.old.list file at bytes)) }
        ensures counted { IsCountedLookup (IsErrOf result PartFault.Disk) (HaveNone self.old.list key) (S.Watch.counts self.old.main) (S.Watch.counts self.new.main) }
    {
        if self.active.has(key) {
            return Ok(None);
        }
        self.shape_below(alloc, key, below)
    }

    /// The shape of the document that a key has below the active table, if it has one there, by at most one read.
    pub(crate) fn shape_below(
        &mut self,
        alloc: Global,
        key: u64,
        below: Below,
    ) -> Result<Option<Shape>, PartFault>
        requires { IsBelow self.old.sealed self.old.list key below }
        ensures there { IfOk result (λ shape. is_some shape ≡ there below) }
        ensures shape { (p : PartView) → IsPart (told S.history S.Device.history S.Frozen.content self.old) p → AreTold (told S.history S.Device.history S.Frozen.content self.old).components
            → IfOk result (λ shape. option_map shape_tree shape ≡ shape_in (below_of p) key) }
        ensures read { IfOk result (λ shape. IsShapeBelow (λ file. S.Frozen.content file) self.old.sealed self.old.list key (option_map shape_tree shape)) }
        ensures same { self.new ≡ record self.old { main = self.new.main } }
        ensures harmed { IfErr result (λ fault. IsOfRead fault (λ file at bytes. IsHarmIn (λ file. S.Frozen.content file) self.old.list file at bytes)) }
        ensures counted { IsCountedLookup (IsErrOf result PartFault.Disk) (HaveNone self.old.list key) (S.Watch.counts self.old.main) (S.Watch.counts self.new.main) }
    {
        loaded_components_show_contents::<S::Frozen>();
        match below {
            Below::Absent => Ok(None),
            Below::Sealed => match self.shape_sealed(alloc, key) {
                Ok(shape) => Ok(Some(shape)),
                Err(fault) => Err(fault),
            },
            Below::Listed { component, place } => {
                let component = self.list.component_at(component);
                match shape_at(alloc, component, place, &mut self.main) {
                    Ok(shape) => Ok(Some(shape)),
                    Err(fault) => Err(fault),
                }
            }
        }
    }

    /// The shape of the document that the sealed table holds of a key.
    fn shape_sealed(&self, alloc: Global, key: u64) -> Result<Shape, PartFault>
        requires { (bytes : List ℕ) × (sealed_held key self.now.sealed ≡ Some (live_record bytes)) }
        ensures shape { IfOk result (λ shape. (d : Document) (bytes : List ℕ) → sealed_held key self.now.sealed ≡ Some (live_record bytes) → IsRecordOf d bytes → shape_tree shape ≡ document_shape d) }
        ensures lawful { (bytes : List ℕ) → sealed_held key self.now.sealed ≡ Some (live_record bytes) → IsStoredRecord bytes }
        ensures memory { IfErr result (λ fault. fault ≡ PartFault.Memory) }
    {
        match held_in(&self.sealed, key) {
            Some(Held::Live(bytes)) => shape_of_record(alloc, bytes.as_slice(), &self.taken),
            _ => unreachable!(),
        }
    }
}

/// The shape of a record with names. Errs only for want of memory.
fn shape_of_record(alloc: Global, bytes: &[u8], names: &Names) -> Result<Shape, PartFault>
    requires { IsStoredRecord bytes.now }
    ensures shape { IfOk result (λ shape. (d : Document) → IsRecordOf d bytes.now → shape_tree shape ≡ document_shape d) }
    ensures memory { IfErr result (λ fault. fault ≡ PartFault.Memory) }
{
    match shape_of(alloc, RecordRef::known(bytes), names) {
        Ok(shape) => Ok(shape),
        Err(RecordFault::Memory) => Err(PartFault::Memory),
        Err(RecordFault::NotARecord) => unreachable!(),
    }
}

/// What a sealed table holds of a key, if there is one.
pub(crate) fn held_in<'a>(sealed: &'a Option<Arc<Sealed>>, key: u64) -> Option<Held<'a>>
    ensures held { option_map held_of result ≡ sealed_held key (option_map arc_value sealed.now) }
    ensures lawful { IfSome result IsLawfulHeld }
{
    match sealed {
        Some(table) => table.get(key),
        None => None,
    }
}
