//! The audit of a list of components, the oldest first.

ghost use Rattle.std.specs.Prelude.{◌≡◌, ◌<◌, ◌≤◌, ◌+◌, ◌^◌, ◌∷◌, ◌++◌, [], All, IfOk, IsErrOf, Some, ℕ, List, length, slice_get};
ghost use Rattle.std.specs.Arc.{arc_value};
ghost use Rattle.tc_model.specs.Dictionary.{Extends};
ghost use Rattle.tc_lsm_model.specs.Contents.{Partition, Content};
ghost use Rattle.tc_lsm_model.specs.Lists.{live, schema_of};
ghost use Rattle.tc_schema_model.specs.Counted.{documents_of, IsCanonical};
ghost use Rattle.tc_component.specs.Spelling.{IsIndex};
ghost use Rattle.tc_list.specs.Intervals.{last_of};
ghost use Rattle.tc_merge.specs.Merging.{GrowNames, newest_names};
ghost use Rattle.tc_audit.specs.declared.verdict.Verdict.TheVariants.{Right as all_right};
ghost use Rattle.tc_audit.specs.Reasons.{AreRight, IsReason, IsWatched, IsWrongBehind};
ghost use Rattle.tc_audit.specs.Stops.{IfRight, IfTold, IfWrong, position_of};
ghost use Rattle.tc_audit.specs.Told.{content_in, IsHeld, IsOf};
ghost use Rattle.tc_audit.specs.Waiting.{all_counted, IsSound};
ghost use Rattle.tc_audit.specs.Walking.{AreInFront, IsCounting, IsMiscount, Tells};

use crate::counting::Recount;
use crate::fault::AuditFault;
use crate::law::stored_records_make_contents;
use crate::stop::Stop;
use crate::verdict::{Verdict, Wrong};
use crate::walk::{count_entries, is_full};
use std::alloc::Global;
use std::sync::Arc;
use tc_bytes::Memory;
use tc_compact::document_meant;
use tc_component::{Component, components_are_contents};
use tc_difference::first_difference;
use tc_list::ComponentList;
use tc_schema::Schema;
use tc_store::Frozen;

/// Where no place counts so many values there is room for those of 4,294,967,296 documents with short records.
const HIGH: u64 = 0x8000_0000_0000_0000;

/// Reads all records of components, the oldest first, and counts their documents anew. The verdict is `Right` exactly where
/// they are the components of contents that make a list. Else it tells the first component that breaks it: its first record
/// that spells no document as it is stored, or else that 4,294,967,296 documents or more are live with it, or else the
/// first place where its schema shows another number. Each record is read once, and once more where a newer component has
/// an entry of its key; where the newer document is of another shape, or none, it is then also taken off what is counted.
/// `Disk` comes only where a read failed.
pub fn audit<F: Frozen>(
    alloc: Global,
    list: &ComponentList<F>,
    watch: &mut F::Watch,
) -> Result<Verdict, AuditFault>
    requires names { GrowNames [] list.now }
    ensures right { IfOk result (λ v. IfRight v (λ documents. (part : Partition) → All (IsHeld F.content) list.now → All (IsOf part) list.now → (cs : List Content) × AreRight F.content part list.now cs × (documents ≡ length (live cs)))) }
    ensures place { IfOk result (λ v. IfTold v (λ w. position_of w < length list.now)) }
    ensures reason { IfOk result (λ v. IfTold v (λ w. (part : Partition) → All (IsHeld F.content) list.now → All (IsOf part) list.now → IsReason F.content part list.now w)) }
    ensures lawful { IfOk result (λ v. (part : Partition) (cs : List Content) → AreRight F.content part list.now cs → v ≡ all_right (length (live cs))) }
    ensures watched { IsWatched (IsErrOf result AuditFault.Disk) (F.Watch.counts watch.old) (F.Watch.counts watch.new) }
{
    components_are_contents();
    stored_records_make_contents();
    match count_all(alloc, list, watch) {
        Ok(documents) => Ok(Verdict::Right { documents }),
        Err(Stop::Wrong(wrong)) => Ok(Verdict::Wrong(wrong)),
        Err(Stop::Disk) => Err(AuditFault::Disk),
        Err(Stop::Memory) => Err(AuditFault::Memory),
    }
}

/// How many documents are live, where nothing is wrong.
fn count_all<F: Frozen>(
    alloc: Global,
    list: &ComponentList<F>,
    watch: &mut F::Watch,
) -> Result<u64, Stop>
    requires names { GrowNames [] list.now }
    ensures right { IfOk result (λ documents. (part : Partition) → All (IsHeld F.content) list.now → All (IsOf part) list.now → (cs : List Content) × AreRight F.content part list.now cs × (documents ≡ length (live cs))) }
    ensures place { IfWrong result (λ w. position_of w < length list.now) }
    ensures wrong { IfWrong result (λ w. (part : Partition) → All (IsHeld F.content) list.now → All (IsOf part) list.now → IsReason F.content part list.now w) }
    ensures watched { IsWatched (IsErrOf result Stop.Disk) (F.Watch.counts watch.old) (F.Watch.counts watch.new) }
{
    let mut older = ComponentList::new(alloc);
    let mut schema = Schema::empty(alloc);
    // that generations follow each other
    let _components = list.as_slice();
    for at in 0..list.len() {
        let component = share_at(list, at)?;
        schema = count_component(alloc, &older, &component, schema, watch)?;
        older.push(component)?;
    }
    Ok(schema.documents())
}

/// The component at a position of the list, which is shared. Errs only for want of memory.
fn share_at<F: Frozen>(list: &ComponentList<F>, at: usize) -> Result<Arc<Component<F>>, Memory>
    requires { at < length list.now }
    ensures { IfOk result (λ share. slice_get list.now at ≡ Some (arc_value share)) }
{
    Ok(Arc::try_clone(&list.as_slice()[at])?)
}

/// The schema of what is live with a component behind those that are older, whose schema is handed in, where nothing is
/// wrong with it. It is then the component's own.
fn count_component<F: Frozen>(
    alloc: Global,
    older: &ComponentList<F>,
    component: &Component<F>,
    schema: Schema,
    watch: &mut F::Watch,
) -> Result<Schema, Stop>
    requires names { Extends component.now.index.names (newest_names [] older.now) }
    requires newer { AreInFront older.now component.now.index.names }
    requires canonical { IsCanonical (length (newest_names [] older.now)) schema }
    ensures lawful { IsIndex component.now.index }
    ensures schema { IfOk result (λ counted. counted ≡ component.now.index.schema) }
    ensures right { IfOk result (λ counted. (part : Partition) (cs : List Content) (whole : List ℕ) → AreRight F.content part older.now cs → schema ≡ schema_of cs → Tells F.content component.now whole
        → IsOf part component.now → component.now.index.head.from ≡ last_of older.now + 1 → AreRight F.content part (older.now ++ component.now ∷ []) (cs ++ content_in component.now.index whole ∷ [])) }
    ensures place { IfWrong result (λ w. position_of w ≤ length older.now) }
    ensures wrong { IfWrong result (λ w. (part : Partition) (cs : List Content) (whole : List ℕ) → AreRight F.content part older.now cs → schema ≡ schema_of cs → Tells F.content component.now whole → IsWrongBehind F.content cs component.now w) }
    ensures watched { IsWatched (IsErrOf result Stop.Disk) (F.Watch.counts watch.old) (F.Watch.counts watch.new) }
{
    document_meant();
    // that the names are a dictionary, and the schema one of documents
    let _lawful = component.file_len();
    // Fewer than 2^32 documents have fewer values: only records that were read twice, and differed, come to so many.
    if schema.greatest() >= HIGH {
        return Err(Stop::Memory);
    }
    let names = component.names().copy()?;
    let mut recount = Recount::of(alloc, schema, names, component.version());
    count_entries(alloc, older, component, &mut recount, watch)?;
    judge_counts(alloc, older.len(), component, recount)
}

/// The schema that was counted, with all that waits, where few documents are live and it is the component's own.
fn judge_counts<F: Frozen>(
    alloc: Global,
    number: usize,
    component: &Component<F>,
    recount: Recount,
) -> Result<Schema, Stop>
    requires names { recount.names ≡ component.now.index.names }
    requires sound { IsSound recount }
    requires counting { IsCounting component.now.index.names (all_counted recount) recount.gained }
    ensures same { IfOk result (λ counted. (counted ≡ all_counted recount) × (counted ≡ component.now.index.schema)) }
    ensures few { IfOk result (λ counted. (recount.gained < 2 ^ 32) × (documents_of counted < 2 ^ 32)) }
    ensures place { IfWrong result (λ w. position_of w ≡ number) }
    ensures wrong { IfWrong result (IsMiscount number component.now.index (all_counted recount) recount.gained) }
    ensures no_disk { IsErrOf result Stop.Disk → ⊥ }
{
    if is_full(recount.gained) {
        return Err(Stop::Wrong(Wrong::Documents { component: number }));
    }
    let mut settled = recount;
    settled.settle()?;
    judge_schema(alloc, number, component, settled)
}

/// The schema that was counted, where few documents are live and it is the component's own.
fn judge_schema<F: Frozen>(
    alloc: Global,
    number: usize,
    component: &Component<F>,
    recount: Recount,
) -> Result<Schema, Stop>
    requires canonical { IsCanonical (length component.now.index.names) recount.schema }
    requires few { recount.gained < 2 ^ 32 }
    ensures same { IfOk result (λ counted. (counted ≡ recount.schema) × (counted ≡ component.now.index.schema)) }
    ensures few { IfOk result (λ counted. documents_of counted < 2 ^ 32) }
    ensures place { IfWrong result (λ w. position_of w ≡ number) }
    ensures wrong { IfWrong result (IsMiscount number component.now.index recount.schema recount.gained) }
    ensures no_disk { IsErrOf result Stop.Disk → ⊥ }
{
    // that the schema of the component is in the one form
    let _lawful = component.file_len();
    if is_full(recount.schema.documents()) {
        return Err(Stop::Wrong(Wrong::Documents { component: number }));
    }
    let kept = component.schema(alloc)?;
    let found = first_difference(alloc, &kept, &recount.schema, component.names())?;
    match found {
        None => Ok(recount.into_schema()),
        Some(first) => Err(Stop::Wrong(Wrong::Count {
            component: number,
            first,
        })),
    }
}
