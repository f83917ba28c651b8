//! The record of what was live of a key before, beside the one that takes its place.

ghost use Rattle.std.specs.Prelude.{◌≡◌, ℕ, List, IfOk, IsErrOf, IsTrue, None, Some, option_map};
ghost use Rattle.tc_model.specs.Document.{document_shape};
ghost use Rattle.tc_model.specs.Keyed.{value_of};
ghost use Rattle.tc_lsm_model.specs.Contents.{Partition, Content};
ghost use Rattle.tc_lsm_model.specs.Lists.{live};
ghost use Rattle.tc_record.specs.Preorder.{tokens_of};
ghost use Rattle.tc_record.specs.Record.{NumberedTree, IsNumberedForm, IsNumberedRecordIn};
ghost use Rattle.tc_alike.specs.Alike.{AreAlike};
ghost use Rattle.tc_component.specs.Cursors.{HoldsPart};
ghost use Rattle.tc_component.specs.Fetching.{IsPlace, record_at};
ghost use Rattle.tc_audit.specs.Reasons.{AreRight, IsWatched};
ghost use Rattle.tc_audit.specs.Stops.{IfWrong};
ghost use Rattle.tc_audit.specs.Stored.{IsStoredIn};
ghost use Rattle.tc_audit.specs.Told.{document_in};
ghost use Rattle.tc_audit.specs.Walking.{AreInFront, HoldParts};

use crate::law::stored_records_make_contents;
use crate::stop::{Stop, of_read};
use std::alloc::{AllocError, Global};
use tc_alike::is_alike;
use tc_compact::{document_meant, round_trip};
use tc_component::{Component, Place, RecordCursor};
use tc_list::{ComponentList, Whereabouts, loaded_components_show_contents};
use tc_names::Names;
use tc_record::RecordRef;
use tc_store::Frozen;

/// A cursor for each component of a list, which holds no byte yet.
pub(crate) fn cursors_over<F: Frozen>(
    alloc: Global,
    list: &ComponentList<F>,
) -> Result<Vec<RecordCursor>, AllocError>
    ensures { IfOk result (λ cursors. HoldParts F.content list.now cursors.items) }
{
    let count = list.len();
    let mut cursors = Vec::with_capacity(alloc, count)?;
    for _ in 0..count {
        cursors.push(RecordCursor::new(alloc))?;
    }
    Ok(cursors)
}

/// What was live of a key, beside a newer document.
#[derive(Clone, Copy, PartialEq, Eq)]
pub(crate) enum Before {
    /// There was nothing.
    Nothing,
    /// There was a document of the same shape.
    OfOneShape,
    /// There was a document, perhaps of another shape.
    Another,
}

/// What was live of a key in the components that are older, beside the document of a stored record. Its own record is read
/// through its component's cursor, and is not judged again.
pub(crate) fn before_of<F: Frozen>(
    older: &ComponentList<F>,
    key: u64,
    of: &RecordRef<'_>,
    names: &Names,
    cursors: &mut [RecordCursor],
    watch: &mut F::Watch,
) -> Result<Before, Stop>
    requires stored { IsStoredIn of.now.form names.now of.now.bytes }
    requires newer { AreInFront older.now names.now }
    requires each { HoldParts F.content older.now cursors.old }
    ensures each { HoldParts F.content older.now cursors.new }
    ensures nothing { IfOk result (λ before. before ≡ Before.Nothing → (part : Partition) (cs : List Content) → AreRight F.content part older.now cs → value_of key (live cs) ≡ None) }
    ensures same { IfOk result (λ before. before ≡ Before.OfOneShape → (part : Partition) (cs : List Content) → AreRight F.content part older.now cs
        → option_map document_shape (value_of key (live cs)) ≡ option_map document_shape (document_in names.now of.now.bytes)) }
    ensures right { IfWrong result (λ w. ⊥) }
    ensures watched { IsWatched (IsErrOf result Stop.Disk) (F.Watch.counts watch.old) (F.Watch.counts watch.new) }
{
    loaded_components_show_contents::<F>();
    stored_records_make_contents();
    document_meant();
    round_trip();
    // that the names are a dictionary
    let _known = names.len();
    match older.find(key) {
        Whereabouts::Absent => Ok(Before::Nothing),
        Whereabouts::At {
            component: at,
            place,
        } => {
            let component = older.component_at(at);
            // that its names are a dictionary
            let _lawful = component.file_len();
            before_at(component, at, place, of, &mut cursors[at], watch)
        }
    }
}

/// The same of the record at a place of the component at a position. It is held by at most one read.
fn before_at<F: Frozen>(
    component: &Component<F>,
    number: usize,
    place: Place,
    of: &RecordRef<'_>,
    cursor: &mut RecordCursor,
    watch: &mut F::Watch,
) -> Result<Before, Stop>
    requires place { IsPlace component.now.index.slots place }
    requires of { HoldsPart (F.content component.now.file) cursor.old }
    ensures of { HoldsPart (F.content component.now.file) cursor.new }
    ensures some { IfOk result (λ before. before ≡ Before.Nothing → ⊥) }
    ensures alike { IfOk result (λ before. before ≡ Before.OfOneShape → (whole : List ℕ) (own form : ℕ) (n m : NumberedTree) → F.content component.now.file ≡ Some whole → IsNumberedForm own
        → IsNumberedRecordIn own n of.now.bytes → IsNumberedRecordIn form m (record_at component.now.index.slots place.at whole) → AreAlike (tokens_of n) (tokens_of m)) }
    ensures right { IfWrong result (λ w. ⊥) }
    ensures watched { IsWatched (IsErrOf result Stop.Disk) (F.Watch.counts watch.old) (F.Watch.counts watch.new) }
{
    let (begin, count) = component.record_range(place);
    match cursor.hold(component, begin, count, watch) {
        Ok(()) => {
            if is_alike(of, cursor.part(begin, count)) {
                Ok(Before::OfOneShape)
            } else {
                Ok(Before::Another)
            }
        }
        Err(fault) => Err(of_read(number, fault)),
    }
}
