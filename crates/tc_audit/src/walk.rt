//! The entries of a component, read and counted in ascending key.

ghost use Rattle.std.specs.Prelude.{◌≡◌, ◌↔◌, ◌⊎◌, ◌≤◌, ◌<◌, ◌+◌, ◌^◌, ℕ, List, Some, OnOk, IfSome, IfNone, IsErrOf, IsTrue, codes, false, length};
ghost use Rattle.tc_lsm_model.specs.Contents.{Partition, Content};
ghost use Rattle.tc_lsm_model.specs.Lists.{live};
ghost use Rattle.tc_model.specs.Dictionary.{number_of};
ghost use Rattle.tc_model.specs.Keyed.{value_of};
ghost use Rattle.tc_component.specs.Cursors.{HoldsPart, HasBytes};
ghost use Rattle.tc_component.specs.Fetching.{IsPlace, record_at};
ghost use Rattle.tc_component.specs.Layout.{directory_place};
ghost use Rattle.tc_component.specs.Spelling.{sizes_in};
ghost use Rattle.tc_audit.specs.declared.verdict.Wrong.{Wrong as Reason};
ghost use Rattle.tc_audit.specs.Reasons.{AreRight, IsWrongBehind, IsWatched};
ghost use Rattle.tc_audit.specs.Stops.{IfWrong, position_of};
ghost use Rattle.tc_audit.specs.Stored.{IsStoredIn};
ghost use Rattle.tc_audit.specs.Told.{document_in};
ghost use Rattle.tc_audit.specs.Waiting.{all_counted, AreKnown, IsOfShape, IsSound};
ghost use Rattle.tc_audit.specs.Walking.{AreInFront, HoldParts, IsChangedBy, IsCounting, IsHarmAt, IsLessBy, IsNeverTold, IsUpTo, Tells};

use crate::before::{Before, before_of, cursors_over};
use crate::counting::{Recount, count_record};
use crate::older::take_off;
use crate::shapes::Shapes;
use crate::stop::{Stop, of_read};
use crate::stored::spells_stored;
use std::alloc::Global;
use tc_compact::document_meant;
use tc_component::{Component, Place, RecordCursor};
use tc_list::ComponentList;
use tc_record::RecordRef;
use tc_store::{Frozen, damaged};

/// Documents are fewer than this.
const MOST: u64 = 0x1_0000_0000;

/// Reads all entries of a component in ascending key, judges each record, and counts its document in place of what was live of
/// the key before. Once 4,294,967,296 entries have a document, which then are live, the records are judged alone.
pub(crate) fn count_entries<F: Frozen>(
    alloc: Global,
    older: &ComponentList<F>,
    component: &Component<F>,
    recount: &mut Recount,
    watch: &mut F::Watch,
) -> Result<(), Stop>
    requires names { recount.old.names ≡ component.now.index.names }
    requires newer { AreInFront older.now component.now.index.names }
    requires none { recount.old.gained ≡ 0 }
    requires form { recount.old.shapes.form ≡ component.now.index.version }
    requires sound { IsSound recount.old }
    requires counting { IsCounting component.now.index.names (all_counted recount.old) 0 }
    ensures sound { OnOk result (IsSound recount.new) }
    ensures names { OnOk result (recount.new.names ≡ component.now.index.names) }
    ensures counting { OnOk result (IsCounting component.now.index.names (all_counted recount.new) recount.new.gained) }
    ensures counted { OnOk result ((part : Partition) (cs : List Content) (whole : List ℕ) → AreRight F.content part older.now cs → Tells F.content component.now whole
        → IsUpTo component.now.index whole (live cs) 0 (all_counted recount.old) 0 → IsUpTo component.now.index whole (live cs) (length component.now.index.slots) (all_counted recount.new) recount.new.gained) }
    ensures place { IfWrong result (λ w. position_of w ≤ length older.now) }
    ensures wrong { IfWrong result (λ w. (part : Partition) (cs : List Content) (whole : List ℕ) → AreRight F.content part older.now cs → Tells F.content component.now whole
        → IsUpTo component.now.index whole (live cs) 0 (all_counted recount.old) 0 → IsWrongBehind F.content cs component.now w) }
    ensures watched { IsWatched (IsErrOf result Stop.Disk) (F.Watch.counts watch.old) (F.Watch.counts watch.new) }
{
    let mut cursor = RecordCursor::new(alloc);
    let mut cursors = cursors_over(alloc, older)?;
    let id = component.names().id_of("id");
    for at in 0..component.len() {
        count_entry(
            alloc,
            older,
            component,
            id,
            at,
            &mut cursor,
            &mut cursors,
            recount,
            watch,
        )?;
    }
    Ok(())
}

/// One entry more.
fn count_entry<F: Frozen>(
    alloc: Global,
    older: &ComponentList<F>,
    component: &Component<F>,
    id: Option<u32>,
    at: usize,
    cursor: &mut RecordCursor,
    cursors: &mut [RecordCursor],
    recount: &mut Recount,
    watch: &mut F::Watch,
) -> Result<(), Stop>
    requires id { id ≡ number_of component.now.index.names (codes "id") }
    requires at { at < length component.now.index.slots }
    requires names { recount.old.names ≡ component.now.index.names }
    requires newer { AreInFront older.now component.now.index.names }
    requires few { recount.old.gained ≤ at }
    requires form { recount.old.shapes.form ≡ component.now.index.version }
    requires sound { IsSound recount.old }
    requires counting { IsCounting component.now.index.names (all_counted recount.old) recount.old.gained }
    requires of { HoldsPart (F.content component.now.file) cursor.old }
    requires each { HoldParts F.content older.now cursors.old }
    ensures of { HoldsPart (F.content component.now.file) cursor.new }
    ensures each { HoldParts F.content older.now cursors.new }
    ensures names { OnOk result (recount.new.names ≡ component.now.index.names) }
    ensures few { OnOk result (recount.new.gained ≤ at + 1) }
    ensures form { OnOk result (recount.new.shapes.form ≡ component.now.index.version) }
    ensures sound { OnOk result (IsSound recount.new) }
    ensures counting { OnOk result (IsCounting component.now.index.names (all_counted recount.new) recount.new.gained) }
    ensures counted { OnOk result ((part : Partition) (cs : List Content) (whole : List ℕ) → AreRight F.content part older.now cs → Tells F.content component.now whole
        → IsUpTo component.now.index whole (live cs) at (all_counted recount.old) recount.old.gained → IsUpTo component.now.index whole (live cs) (at + 1) (all_counted recount.new) recount.new.gained) }
    ensures place { IfWrong result (λ w. position_of w ≤ length older.now) }
    ensures wrong { IfWrong result (λ w. (part : Partition) (cs : List Content) (whole : List ℕ) → AreRight F.content part older.now cs → Tells F.content component.now whole
        → IsUpTo component.now.index whole (live cs) at (all_counted recount.old) recount.old.gained → IsWrongBehind F.content cs component.now w) }
    ensures watched { IsWatched (IsErrOf result Stop.Disk) (F.Watch.counts watch.old) (F.Watch.counts watch.new) }
{
    document_meant();
    // that keys ascend, and that the names are a dictionary
    let _lawful = component.file_len();
    let entry = component.entry(at);
    match entry.place {
        Some(place) => count_place(
            alloc, older, component, id, entry.key, place, cursor, cursors, recount, watch,
        ),
        None => take_few(alloc, older, entry.key, recount, watch),
    }
}

/// Takes off what was live of a key, unless it is known that too many documents are live. All that waits is counted before.
fn take_few<F: Frozen>(
    alloc: Global,
    older: &ComponentList<F>,
    key: u64,
    recount: &mut Recount,
    watch: &mut F::Watch,
) -> Result<(), Stop>
    requires sound { IsSound recount.old }
    requires counting { IsCounting recount.old.names (all_counted recount.old) recount.old.gained }
    requires newer { AreInFront older.now recount.old.names }
    ensures names { recount.new.names ≡ recount.old.names }
    ensures gained { recount.new.gained ≡ recount.old.gained }
    ensures form { recount.new.shapes.form ≡ recount.old.shapes.form }
    ensures sound { OnOk result (IsSound recount.new) }
    ensures counting { OnOk result (IsCounting recount.old.names (all_counted recount.new) recount.old.gained) }
    ensures taken { OnOk result ((part : Partition) (cs : List Content) → AreRight F.content part older.now cs → recount.old.gained ≤ 2 ^ 32 → IsLessBy (value_of key (live cs)) recount.old.names (all_counted recount.old) (all_counted recount.new)) }
    ensures place { IfWrong result (λ w. position_of w < length older.now) }
    ensures never { IfWrong result (λ w. IsNeverTold F.content older.now key recount.old.names (all_counted recount.old) recount.old.gained) }
    ensures watched { IsWatched (IsErrOf result Stop.Disk) (F.Watch.counts watch.old) (F.Watch.counts watch.new) }
{
    if is_over(recount.gained) {
        return Ok(());
    }
    recount.settle()?;
    take_off(alloc, older, key, recount, watch)
}

/// Whether more documents were counted than may be live.
fn is_over(gained: u64) -> bool
    ensures { IsTrue result ↔ 2 ^ 32 < gained }
{
    gained > MOST
}

/// Whether no document more may be live, where there are so many.
pub(crate) fn is_full(gained: u64) -> bool
    ensures { IsTrue result ↔ 2 ^ 32 ≤ gained }
{
    gained >= MOST
}

/// The record of the entry of a key at a place, judged and counted.
fn count_place<F: Frozen>(
    alloc: Global,
    older: &ComponentList<F>,
    component: &Component<F>,
    id: Option<u32>,
    key: u64,
    place: Place,
    cursor: &mut RecordCursor,
    cursors: &mut [RecordCursor],
    recount: &mut Recount,
    watch: &mut F::Watch,
) -> Result<(), Stop>
    requires id { id ≡ number_of component.now.index.names (codes "id") }
    requires place { IsPlace component.now.index.slots place }
    requires names { recount.old.names ≡ component.now.index.names }
    requires newer { AreInFront older.now component.now.index.names }
    requires few { recount.old.gained + 1 < 2 ^ 64 }
    requires form { recount.old.shapes.form ≡ component.now.index.version }
    requires sound { IsSound recount.old }
    requires counting { IsCounting component.now.index.names (all_counted recount.old) recount.old.gained }
    requires of { HoldsPart (F.content component.now.file) cursor.old }
    requires each { HoldParts F.content older.now cursors.old }
    ensures of { HoldsPart (F.content component.now.file) cursor.new }
    ensures each { HoldParts F.content older.now cursors.new }
    ensures names { OnOk result (recount.new.names ≡ component.now.index.names) }
    ensures gained { OnOk result (recount.new.gained ≡ recount.old.gained + 1) }
    ensures form { OnOk result (recount.new.shapes.form ≡ component.now.index.version) }
    ensures sound { OnOk result (IsSound recount.new) }
    ensures counting { OnOk result (IsCounting component.now.index.names (all_counted recount.new) recount.new.gained) }
    ensures stored { OnOk result ((whole : List ℕ) → F.content component.now.file ≡ Some whole → IsStoredIn component.now.index.version component.now.index.names (record_at component.now.index.slots place.at whole)) }
    ensures counted { OnOk result ((whole : List ℕ) (part : Partition) (cs : List Content) → F.content component.now.file ≡ Some whole → AreRight F.content part older.now cs → recount.old.gained < 2 ^ 32
        → IsChangedBy (value_of key (live cs)) (document_in component.now.index.names (record_at component.now.index.slots place.at whole)) component.now.index.names (all_counted recount.old) (all_counted recount.new)) }
    ensures place { IfWrong result (λ w. position_of w ≤ length older.now) }
    ensures wrong { IfWrong result (λ w. ((whole : List ℕ) → F.content component.now.file ≡ Some whole → IsHarmAt (length older.now) component.now.index place.at whole w)
        ⊎ IsNeverTold F.content older.now key component.now.index.names (all_counted recount.old) recount.old.gained) }
    ensures watched { IsWatched (IsErrOf result Stop.Disk) (F.Watch.counts watch.old) (F.Watch.counts watch.new) }
{
    // that the names are a dictionary
    let _lawful = component.file_len();
    let number = older.len();
    let (begin, count) = component.record_range(place);
    hold(number, component, begin, count, cursor, watch)?;
    let bytes = cursor.part(begin, count);
    let Some(of) = RecordRef::numbered(bytes, component.version()) else {
        return Err(unstored(alloc, number, component, place, bytes));
    };
    match shape_of(&of, component, id, &recount.shapes) {
        Some(shape) => replace_few(alloc, older, key, &of, shape, cursors, recount, watch)?,
        None => return Err(unstored(alloc, number, component, place, bytes)),
    }
    recount.gained += 1;
    Ok(())
}

/// Counts the document of a stored record in place of what was live of its key, unless it is known that too many documents are
/// live. Where both have one shape there is nothing to count.
fn replace_few<F: Frozen>(
    alloc: Global,
    older: &ComponentList<F>,
    key: u64,
    of: &RecordRef<'_>,
    shape: Option<usize>,
    cursors: &mut [RecordCursor],
    recount: &mut Recount,
    watch: &mut F::Watch,
) -> Result<(), Stop>
    requires stored { IsStoredIn of.now.form recount.old.names of.now.bytes }
    requires form { of.now.form ≡ recount.old.shapes.form }
    requires shape { IfSome shape (IsOfShape recount.old.names of.now recount.old.shapes.known.items) }
    requires sound { IsSound recount.old }
    requires newer { AreInFront older.now recount.old.names }
    requires counting { IsCounting recount.old.names (all_counted recount.old) recount.old.gained }
    requires each { HoldParts F.content older.now cursors.old }
    ensures each { HoldParts F.content older.now cursors.new }
    ensures names { OnOk result (recount.new.names ≡ recount.old.names) }
    ensures gained { recount.new.gained ≡ recount.old.gained }
    ensures form { recount.new.shapes.form ≡ recount.old.shapes.form }
    ensures sound { OnOk result (IsSound recount.new) }
    ensures counting { OnOk result (IsCounting recount.old.names (all_counted recount.new) (recount.old.gained + 1)) }
    ensures counted { OnOk result ((part : Partition) (cs : List Content) → AreRight F.content part older.now cs → recount.old.gained < 2 ^ 32
        → IsChangedBy (value_of key (live cs)) (document_in recount.old.names of.now.bytes) recount.old.names (all_counted recount.old) (all_counted recount.new)) }
    ensures place { IfWrong result (λ w. position_of w < length older.now) }
    ensures never { IfWrong result (λ w. IsNeverTold F.content older.now key recount.old.names (all_counted recount.old) recount.old.gained) }
    ensures watched { IsWatched (IsErrOf result Stop.Disk) (F.Watch.counts watch.old) (F.Watch.counts watch.new) }
{
    if is_full(recount.gained) {
        return Ok(());
    }
    let shape = match before_of(older, key, of, &recount.names, cursors, watch)? {
        Before::OfOneShape => return Ok(()),
        Before::Another => {
            take_few(alloc, older, key, recount, watch)?;
            None
        }
        Before::Nothing => shape,
    };
    count_record(of, shape, recount)?;
    Ok(())
}

/// Holds so many bytes of the records of the component at a position, by at most one read.
fn hold<F: Frozen>(
    number: usize,
    component: &Component<F>,
    begin: u64,
    count: u32,
    cursor: &mut RecordCursor,
    watch: &mut F::Watch,
) -> Result<(), Stop>
    requires within { begin + count ≤ directory_place (sizes_in component.now.index) }
    requires of { HoldsPart (F.content component.now.file) cursor.old }
    ensures of { HoldsPart (F.content component.now.file) cursor.new }
    ensures has { OnOk result (HasBytes begin count cursor.new) }
    ensures right { IfWrong result (λ w. ⊥) }
    ensures watched { IsWatched (IsErrOf result Stop.Disk) (F.Watch.counts watch.old) (F.Watch.counts watch.new) }
{
    match cursor.hold(component, begin, count, watch) {
        Ok(()) => Ok(()),
        Err(fault) => Err(of_read(number, fault)),
    }
}

/// The shape of a record of a component, if that is known, where it spells a document as it is stored there. Where the shape is known
/// nothing else is looked at. Takes no memory.
fn shape_of<F: Frozen>(
    of: &RecordRef<'_>,
    component: &Component<F>,
    id: Option<u32>,
    shapes: &Shapes,
) -> Option<Option<usize>>
    requires numbered { of.now.named ≡ false }
    requires id { id ≡ number_of component.now.index.names (codes "id") }
    requires form { of.now.form ≡ component.now.index.version }
    requires same { of.now.form ≡ shapes.now.form }
    requires known { AreKnown shapes.now.form component.now.index.names shapes.now.known.items }
    ensures stored { IfSome result (λ shape. IsStoredIn of.now.form component.now.index.names of.now.bytes) }
    ensures shape { IfSome result (λ shape. IfSome shape (IsOfShape component.now.index.names of.now shapes.now.known.items)) }
    ensures none { IfNone result (IsStoredIn of.now.form component.now.index.names of.now.bytes → ⊥) }
{
    // that the names are a dictionary
    let _lawful = component.file_len();
    match shapes.find(of, component.names()) {
        Some(at) => Some(Some(at)),
        None => {
            if spells_stored(of.again(), component.names(), id) {
                Some(None)
            } else {
                None
            }
        }
    }
}

/// That the record at a place of the component at a position is no stored one, or want of memory.
fn unstored<F: Frozen>(
    alloc: Global,
    number: usize,
    component: &Component<F>,
    place: Place,
    bytes: &[u8],
) -> Stop
    requires place { IsPlace component.now.index.slots place }
    requires read { (whole : List ℕ) → F.content component.now.file ≡ Some whole → bytes.now ≡ record_at component.now.index.slots place.at whole }
    requires harmed { IsStoredIn component.now.index.version component.now.index.names bytes.now → ⊥ }
    ensures no_disk { result ≡ Stop.Disk → ⊥ }
    ensures place { (w : Reason) → result ≡ Stop.Wrong w → position_of w ≡ number }
    ensures harmed { (w : Reason) → result ≡ Stop.Wrong w → (whole : List ℕ) → F.content component.now.file ≡ Some whole → IsHarmAt number component.now.index place.at whole w }
{
    let (begin, _count) = component.record_range(place);
    of_read(number, damaged(alloc, begin as usize, bytes))
}
