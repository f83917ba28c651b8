//! The audit of the files of a partition.

ghost use Rattle.std.specs.Prelude.{◌≡◌, ◌<◌, [], List, Some, Err, All, IfOk, IsErrOf, length, slice_get};
ghost use Rattle.std.specs.List.{AllByRecursion};
ghost use Rattle.tc_store.specs.Disk.{Disk as OneDisk, IsAtRest};
ghost use Rattle.tc_store.specs.Moments.{IfTold};
ghost use Rattle.tc_component.specs.Loading.{ComponentState};
ghost use Rattle.tc_component.specs.Spelling.{name_of};
ghost use Rattle.tc_log.specs.declared.write.Write.{Write as LogWrite};
ghost use Rattle.tc_log.specs.Writes.{IsWrite};
ghost use Rattle.tc_plain_model.specs.Writes.{Write as Stored};
ghost use Rattle.tc_lsm_model.specs.Contents.{Content, Partition as OnePartition};
ghost use Rattle.tc_lsm_model.specs.Lists.{live as live_in};
ghost use Rattle.tc_machine.specs.Pictures.{recovered};
ghost use Rattle.tc_merge.specs.Merging.{GrowNames, newest_names};
ghost use Rattle.tc_audit.specs.Reasons.{AreRight, IsReason};
ghost use Rattle.tc_audit.specs.Stops.{position_of};
ghost use Rattle.tc_audit.specs.Told.{IsHeld, IsOf};
ghost use Rattle.tc_recover.specs.Files.{TakesSome};
ghost use Rattle.tc_recover.specs.Lawful.{DiskOpens};
ghost use Rattle.tc_recover.specs.Opening.{DiskJudged};
ghost use Rattle.tc_recover.specs.Reads.{IsCountedTimes};
ghost use Rattle.tc_recover.specs.Refusals.{asked};
ghost use Rattle.tc_lawful.specs.Audited.{IsAudited};
ghost use Rattle.tc_check.specs.declared.verdict.Verdict.TheVariants.{Right};
ghost use Rattle.tc_check.specs.Answers.{IsAnswer, IsRefusal};
ghost use Rattle.tc_check.specs.Naming.{FitBehind};
ghost use Rattle.tc_check.specs.Verdicts.{AreRightLogs, IfRight, IfWrong, IsReasonIn, IsReasonOf, IsRefused, IsRight, IsRightIn};

use crate::counting::documents_after;
use crate::fault::CheckFault;
use crate::long::first_long;
use crate::naming::names_fit_behind;
use crate::verdict::{Over, Reason, Verdict};
use std::alloc::Global;
use tc_audit::{Verdict as Audited, Wrong, audit};
use tc_bytes::Memory;
use tc_jobs::inputs_are_newest;
use tc_lawful::{audited_disks_are_lawful, loaded_files_hold, short_writes_are_stored};
use tc_list::{ComponentList, loaded_components_show_contents};
use tc_log::Writes;
use tc_names::Names;
use tc_recover::{FilesCause, FilesRead, Partition, read_files};
use tc_store::{Damage, FileName, Frozen, Store};

/// Documents and names are fewer than this.
const MOST: u64 = 0x1_0000_0000;

/// Whether the files of a partition are lawful, and how many documents are stored in them, or the first thing that is wrong with
/// them: what an opening refuses; then of each component that counts, the oldest first, its first record that is none, more documents
/// than there is room for, and where its schema is wrong; then of the logs above them a record that is too long, documents, and
/// names. Files are still then, and nothing else changed. `Disk` comes only where a call of the store or a read failed.
pub fn check_part<S: Store>(
    alloc: Global,
    store: &mut S,
    part: Partition,
    watch: &mut S::Watch,
) -> Result<Verdict, CheckFault>
    requires at_rest { IfTold (S.history store.old) IsAtRest }
    ensures right { IfTold (S.history store.old) (λ disk. IfOk result (λ verdict. IfRight verdict (IsRight (asked part) disk))) }
    ensures lawful { IfTold (S.history store.old) (λ disk. (cs : List Content) (logs : List (List Stored)) → DiskOpens (asked part) disk cs logs → IfOk result (λ verdict. verdict ≡ Right (length (recovered cs logs).pairs))) }
    ensures reason { IfTold (S.history store.old) (λ disk. IfOk result (λ verdict. IfWrong verdict (IsReasonOf S.Frozen.content (asked part) disk))) }
    ensures files { TakesSome (S.history store.old) (S.history store.new) }
    ensures faults { IsCountedTimes (IsErrOf result CheckFault.Disk) ⊥ 0 (S.Watch.counts watch.old) (S.Watch.counts watch.new) }
{
    audited_disks_are_lawful::<S>();
    loaded_files_hold::<S>();
    match read_files(alloc, store, part, watch) {
        Ok(read) => check_read(alloc, read, watch),
        Err(cause) => refused(cause),
    }
}

/// What an opening refuses is wrong.
fn refused(cause: FilesCause) -> Result<Verdict, CheckFault>
    ensures answered { (part : OnePartition) (disk : OneDisk) → IsAnswer cause (λ refusal. DiskJudged part disk (Err refusal)) → IfOk result (λ verdict. IfWrong verdict (IsRefused part disk)) }
    ensures right { IfOk result (λ verdict. IfRight verdict (λ documents. ⊥)) }
    ensures refusal { IfOk result (λ verdict. IsRefusal cause) }
    ensures disk { IsErrOf result CheckFault.Disk → cause ≡ FilesCause.Disk }
{
    match cause {
        FilesCause::Damaged(damage) => Ok(Verdict::Wrong(Reason::Damaged(damage))),
        FilesCause::Layout { found, found_of } => {
            Ok(Verdict::Wrong(Reason::Layout { found, found_of }))
        }
        FilesCause::Disk => Err(CheckFault::Disk),
        FilesCause::Memory => Err(CheckFault::Memory),
    }
}

/// What is read of files that an opening passes: the components first, then the logs above them.
fn check_read<F: Frozen>(
    alloc: Global,
    read: FilesRead<F>,
    watch: &mut F::Watch,
) -> Result<Verdict, CheckFault>
    requires names { GrowNames [] read.list }
    requires writes { All (AllByRecursion IsWrite) read.writes.items }
    ensures right { IfOk result (λ verdict. IfRight verdict (λ documents. (part : OnePartition) → All (IsHeld F.content) read.list → All (IsOf part) read.list → IsRightIn F.content part read.list read.writes.items documents)) }
    ensures lawful { (part : OnePartition) (cs : List Content) (logs : List (List Stored)) → IsAudited F.content part read.list read.writes.items cs logs → IfOk result (λ verdict. verdict ≡ Right (length (recovered cs logs).pairs)) }
    ensures wrong { IfOk result (λ verdict. IfWrong verdict (λ reason. (part : OnePartition) → All (IsHeld F.content) read.list → All (IsOf part) read.list → IsReasonIn F.content part read.list read.writes.items reason)) }
    ensures faults { IsCountedTimes (IsErrOf result CheckFault.Disk) ⊥ 0 (F.Watch.counts watch.old) (F.Watch.counts watch.new) }
{
    let FilesRead {
        list,
        left,
        writes,
        last: _,
    } = read;
    drop(left);
    let found = audit(alloc, &list, watch)?;
    match found {
        Audited::Wrong(wrong) => Ok(Verdict::Wrong(reason_of(&list, wrong))),
        Audited::Right { documents } => check_logs(alloc, &list, writes, documents),
    }
}

/// What is wrong with components, by the name of the file of the one that is.
fn reason_of<F: Frozen>(list: &ComponentList<F>, wrong: Wrong) -> Reason
    requires { position_of wrong < length list.now }
    ensures { (part : OnePartition) (writes : List (List LogWrite)) → IsReason F.content part list.now wrong → IsReasonIn F.content part list.now writes result }
{
    match wrong {
        Wrong::Record {
            component,
            place,
            bytes,
        } => Reason::Damaged(Damage::Bytes {
            file: name_at(list, component),
            place,
            bytes,
        }),
        Wrong::Documents { component: _ } => Reason::TooMuch {
            what: Over::Documents,
            number: MOST,
        },
        Wrong::Count { component, first } => Reason::Count {
            file: name_at(list, component),
            first,
        },
    }
}

/// The name of the file of the component at a position.
fn name_at<F: Frozen>(list: &ComponentList<F>, position: usize) -> FileName
    requires { position < length list.now }
    ensures { (component : ComponentState F) → slice_get list.now position ≡ Some component → result ≡ name_of component.index.head }
{
    list.component_at(position).file_name()
}

/// The logs above components, of which so many documents are live.
fn check_logs<F: Frozen>(
    alloc: Global,
    list: &ComponentList<F>,
    logs: Vec<Writes>,
    live: u64,
) -> Result<Verdict, CheckFault>
    requires { All (AllByRecursion IsWrite) logs.items }
    ensures right { IfOk result (λ verdict. IfRight verdict (λ documents. (part : OnePartition) (cs : List Content) → AreRight F.content part list.now cs → live ≡ length (live_in cs) → AreRightLogs cs logs.items documents)) }
    ensures lawful { IfOk result (λ verdict. (part : OnePartition) (cs : List Content) (kept : List (List Stored)) → IsAudited F.content part list.now logs.items cs kept → live ≡ length (live_in cs) → verdict ≡ Right (length (recovered cs kept).pairs)) }
    ensures wrong { IfOk result (λ verdict. IfWrong verdict (λ reason. (part : OnePartition) (cs : List Content) → AreRight F.content part list.now cs → live ≡ length (live_in cs) → IsReasonIn F.content part list.now logs.items reason)) }
    ensures no_disk { IsErrOf result CheckFault.Disk → ⊥ }
{
    short_writes_are_stored();
    loaded_components_show_contents::<F>();
    inputs_are_newest::<F>();
    if let Some(number) = first_long(&logs) {
        return Ok(Verdict::Wrong(Reason::TooMuch {
            what: Over::RecordBytes,
            number,
        }));
    }
    let documents = documents_after(alloc, list, &logs, live)?;
    if documents >= MOST {
        return Ok(Verdict::Wrong(Reason::TooMuch {
            what: Over::Documents,
            number: MOST,
        }));
    }
    let fit = names_few(alloc, list, logs)?;
    if fit {
        Ok(Verdict::Right { documents })
    } else {
        Ok(Verdict::Wrong(Reason::TooMuch {
            what: Over::Names,
            number: MOST,
        }))
    }
}

/// Whether the dictionary of the newest component has room for the names of logs.
fn names_few<F: Frozen>(
    alloc: Global,
    list: &ComponentList<F>,
    logs: Vec<Writes>,
) -> Result<bool, Memory>
    requires { All (AllByRecursion IsWrite) logs.items }
    ensures { IfOk result (FitBehind logs.items (newest_names [] list.now)) }
{
    match list.as_slice().split_last() {
        Some((newest, _older)) => names_fit_behind(alloc, logs, newest.names()),
        None => names_fit_behind(alloc, logs, &Names::new(alloc)),
    }
}
