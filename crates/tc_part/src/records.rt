//! The record of a document in a component, and what it spells.

ghost use Rattle.std.specs.Prelude.{◌≡◌, ◌<◌, ◌⊎◌, List, Some, length, IfOk, IfErr, IfSome, IsErrOf};
ghost use Rattle.std.specs.Result.{IsOk};
ghost use Rattle.tc_model.specs.Document.{Document, document_shape};
ghost use Rattle.tc_value.specs.ShapeMeaning.{shape_tree};
ghost use Rattle.tc_request_model.specs.Rendered.{document_text};
ghost use Rattle.tc_compact.specs.Meant.{IsRecordUnder};
ghost use Rattle.tc_store.specs.Counted.{IsCountedOnce};
ghost use Rattle.tc_component.specs.Fetching.{IsPlace, record_at as bytes_of_record, length_at, IsRecordWithin};
ghost use Rattle.tc_component.specs.Meaning.{IsRecordOfOne};
ghost use Rattle.tc_query.specs.Shown.{IsReadOf};
ghost use Rattle.tc_part.specs.Harms.{IsHarmOf, IsOfRead};

use crate::fault::{PartFault, of_read, of_record};
use std::alloc::Global;
use tc_bytes::Bytes;
use tc_compact::shape_of;
use tc_component::{Component, Place};
use tc_record::RecordFault;
use tc_record_text::text_of_document;
use tc_store::Frozen;
use tc_value::Shape;

/// The shape of the document at a place of a component, by one read. `Damaged` comes where the bytes there are the record of
/// no document under the names of the component.
pub fn shape_at<F: Frozen>(
    alloc: Global,
    component: &Component<F>,
    place: Place,
    watch: &mut F::Watch,
) -> Result<Shape, PartFault>
    requires { IsPlace component.now.index.slots place }
    ensures shape { IfOk result (λ shape. (d : Document) → IfSome (F.content component.now.file) (λ whole. IsRecordOfOne component.now.index.version component.now.index.names d (bytes_of_record component.now.index.slots place.at whole) → shape_tree shape ≡ document_shape d)) }
    ensures read { IfOk result (λ shape. (d : Document) × (shape_tree shape ≡ document_shape d) × IsReadOf (λ file. F.content file) component.now place d) }
    ensures harmed { IfErr result (λ fault. IsOfRead fault (λ file at bytes. IsHarmOf (λ file. F.content file) component.now file at bytes)) }
    ensures counted { IsCountedOnce (IsErrOf result PartFault.Disk) (IsOk result) (F.Watch.counts watch.old) (F.Watch.counts watch.new) }
{
    let bytes = record_at(alloc, component, place, watch)?;
    match component.found(bytes.as_slice()) {
        Some(found) => match shape_of(alloc, found, component.names()) {
            Ok(shape) => Ok(shape),
            Err(fault) => Err(no_document(component, place, bytes, fault)),
        },
        None => Err(no_document(component, place, bytes, RecordFault::NotARecord)),
    }
}

/// The text of the document at a place of a component, with its member `id`, by one read.
pub(crate) fn text_at<F: Frozen>(
    alloc: Global,
    component: &Component<F>,
    place: Place,
    key: u64,
    watch: &mut F::Watch,
) -> Result<Bytes, PartFault>
    requires { IsPlace component.now.index.slots place }
    ensures text { IfOk result (λ text. (d : Document) → IfSome (F.content component.now.file) (λ whole. IsRecordOfOne component.now.index.version component.now.index.names d (bytes_of_record component.now.index.slots place.at whole) → text ≡ document_text key d)) }
    ensures document { IfOk result (λ text. (d : Document) × (text ≡ document_text key d)) }
    ensures read { IfOk result (λ text. (d : Document) × (text ≡ document_text key d) × IsReadOf (λ file. F.content file) component.now place d) }
    ensures harmed { IfErr result (λ fault. IsOfRead fault (λ file at bytes. IsHarmOf (λ file. F.content file) component.now file at bytes)) }
    ensures counted { IsCountedOnce (IsErrOf result PartFault.Disk) (IsOk result) (F.Watch.counts watch.old) (F.Watch.counts watch.new) }
{
    let bytes = record_at(alloc, component, place, watch)?;
    match component.found(bytes.as_slice()) {
        Some(found) => match text_of_document(alloc, key, found, component.names()) {
            Ok(text) => Ok(text),
            Err(fault) => Err(no_document(component, place, bytes, fault)),
        },
        None => Err(no_document(component, place, bytes, RecordFault::NotARecord)),
    }
}

/// The bytes at a place of a component, by one read. What they are is not looked at.
fn record_at<F: Frozen>(
    alloc: Global,
    component: &Component<F>,
    place: Place,
    watch: &mut F::Watch,
) -> Result<Bytes, PartFault>
    requires { IsPlace component.now.index.slots place }
    ensures read { IfOk result (λ read. IfSome (F.content component.now.file) (λ whole. read ≡ bytes_of_record component.now.index.slots place.at whole)) }
    ensures long { IfOk result (λ read. length read ≡ length_at component.now.index.slots place.at) }
    ensures harmed { IfErr result (λ fault. IsOfRead fault (λ file at bytes. IsHarmOf (λ file. F.content file) component.now file at bytes)) }
    ensures counted { IsCountedOnce (IsErrOf result PartFault.Disk) (IsOk result) (F.Watch.counts watch.old) (F.Watch.counts watch.new) }
{
    match component.read_record(alloc, place, watch) {
        Ok(bytes) => Ok(bytes),
        Err(fault) => Err(of_read(component.file_name(), fault)),
    }
}

/// Why the bytes at a place of a component gave no document under its names.
fn no_document<F: Frozen>(
    component: &Component<F>,
    place: Place,
    bytes: Bytes,
    fault: RecordFault,
) -> PartFault
    requires place { IsPlace component.now.index.slots place }
    requires read { IfSome (F.content component.now.file) (λ whole. bytes ≡ bytes_of_record component.now.index.slots place.at whole) }
    requires long { length bytes ≡ length_at component.now.index.slots place.at }
    requires cause { fault ≡ RecordFault.NotARecord → (IsRecordWithin component.now.index.version (length component.now.index.names) bytes → ⊥) ⊎ ((d : Document) → IsRecordUnder component.now.index.names d bytes → ⊥) }
    ensures cause { result ≡ PartFault.Disk → ⊥ }
    ensures harmed { IsOfRead result (λ file at bytes. IsHarmOf (λ file. F.content file) component.now file at bytes) }
{
    let (at, _) = component.record_range(place);
    of_record(component.file_name(), at, bytes, fault)
}
