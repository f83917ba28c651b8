//! All that is read of the files of a partition before anything is written.

ghost use Rattle.std.specs.Prelude.{◌≡◌, ◌+◌, List, length, filter, All, IfErr, IfOk, OnErr, OnOk, IsErrOf};
ghost use Rattle.std.specs.List.{AllByRecursion};
ghost use Rattle.std.specs.List.Sorted.{IsStrictlySortedBy};
ghost use Rattle.tc_store.specs.Disk.{IsAtRest};
ghost use Rattle.tc_store.specs.Moments.{EachSince, IfTold};
ghost use Rattle.tc_store.specs.NameOrder.{name_cmp};
ghost use Rattle.tc_component.specs.Loading.{ComponentState};
ghost use Rattle.tc_component.specs.Spelling.{IsIndex};
ghost use Rattle.tc_jobs.specs.Lists.{IsListOf};
ghost use Rattle.tc_log.specs.Writes.{IsWrite};
ghost use Rattle.tc_plain_model.specs.Writes.{Write as Stored};
ghost use Rattle.tc_lsm_model.specs.Contents.{Content};
ghost use Rattle.tc_recover.specs.Causes.{IsNoRefusal};
ghost use Rattle.tc_recover.specs.declared.taken.Taken.{Taken as TakenFile};
ghost use Rattle.tc_recover.specs.Files.{picture_in, names_in, AreLawful, AreTold, AreGates, AreNamed, TakesSome};
ghost use Rattle.tc_recover.specs.Lawful.{AreSpare, DiskOpens, KeepsFiles, ReadsAs};
ghost use Rattle.tc_recover.specs.Loads.{is_log as of_log};
ghost use Rattle.tc_recover.specs.Opening.{AnswersBy, AreAllTaken, DiskJudged, IsReadCause, IsReadOf, OpeningJudged, found_in};
ghost use Rattle.tc_recover.specs.Refusals.{asked};
ghost use Rattle.tc_recover.specs.Reads.{IsCountedTimes};
ghost use Rattle.tc_recover.specs.Removing.{needless_names};

use crate::cause::FilesCause;
use crate::gates::take_all;
use crate::heads::{Partition, judge_heads};
use crate::laws::lawful_files_are_read;
use crate::loading::{Loaded, load_components};
use crate::logs::read_logs;
use crate::sorting::{last_of, sort_files};
use crate::taken::Taken;
use std::alloc::Global;
use tc_list::ComponentList;
use tc_log::Writes;
use tc_machine::{events_keep, openings_are_kept};
use tc_store::{Frozen, Store};

/// What is read of the files of a partition: the components that count, all other files, the writes of each log above the
/// components, the oldest first, and the last generation of the components, or 0.
#[derive(Drop)]
pub struct FilesRead<F: Frozen> {
    pub list: ComponentList<F>,
    pub left: Vec<Taken<F>>,
    pub writes: Vec<Writes>,
    pub last: u64,
}

/// Takes all files of a store, and reads them: the gate of each, then the headers of all open ones, the components that
/// count, and the logs above them. The first refusal decides, as in `read_taken`. Where that fails, some files are still, and
/// nothing else changed. `Disk` comes only where a call of the store or a read failed.
pub fn read_files<S: Store>(
    alloc: Global,
    store: &mut S,
    part: Partition,
    watch: &mut S::Watch,
) -> Result<FilesRead<S::Frozen>, FilesCause>
    requires at_rest { IfTold (S.history store.old) IsAtRest }
    ensures judged { IfTold (S.history store.old) (λ disk. AnswersBy (λ read. found_in read.list read.writes.items) result (DiskJudged (asked part) disk)) }
    ensures causes { IfErr result (λ cause. (files : List (TakenFile S.Frozen S.Watch)) × AreNamed S.Frozen.name files × IsReadCause S.Frozen.size (asked part) files cause) }
    ensures read { IfOk result (λ read. (files : List (TakenFile S.Frozen S.Watch)) × AreAllTaken S.Frozen.content S.Frozen.name files (S.history store.old) (S.history store.new) × IsReadOf files read.list read.left.items read.last × AreLawful files) }
    ensures partly { OnErr result (TakesSome (S.history store.old) (S.history store.new)) }
    ensures lawful { IfOk result (λ read. All (λ (c : ComponentState S.Frozen). IsIndex c.index) read.list) }
    ensures listed { IfOk result (λ read. IsListOf part.number part.count read.list) }
    ensures writes { IfOk result (λ read. All (AllByRecursion IsWrite) read.writes.items) }
    ensures logs { IfOk result (λ read. length read.writes.items ≡ length (filter (of_log read.last) read.left.items)) }
    ensures faults { IsCountedTimes (IsErrOf result FilesCause.Disk) ⊥ 0 (S.Watch.counts watch.old) (S.Watch.counts watch.new) }

    // Lawful files are refused nothing: what is read of them is what they open as, and all that is left of them is needless, but
    // for the logs above the components.
    ensures passes { IfTold (S.history store.old) (λ disk. (cs : List Content) (logs : List (List Stored)) → DiskOpens (asked part) disk cs logs → IsNoRefusal result) }
    ensures opened { IfTold (S.history store.old) (λ disk. (cs : List Content) (logs : List (List Stored)) → DiskOpens (asked part) disk cs logs → IfOk result (λ read. ReadsAs (λ file. S.Frozen.content file) cs logs read.list read.writes.items read.last)) }
    ensures spare { IfTold (S.history store.old) (λ disk. (cs : List Content) (logs : List (List Stored)) → DiskOpens (asked part) disk cs logs
        → IfOk result (λ read. IfTold (S.history store.new) (λ now. AreSpare cs now (needless_names (λ file. S.Frozen.name file) read.last read.left.items)))) }

    // At each moment of the call, and behind it, the machine keeps what is stored in them, whatever is answered.
    ensures moments { IfTold (S.history store.old) (λ disk. (cs : List Content) (logs : List (List Stored)) → DiskOpens (asked part) disk cs logs → EachSince (KeepsFiles (asked part) cs logs) (S.history store.old) (S.history store.new)) }
    ensures kept { IfTold (S.history store.old) (λ disk. (cs : List Content) (logs : List (List Stored)) → DiskOpens (asked part) disk cs logs → IfTold (S.history store.new) (KeepsFiles (asked part) cs logs)) }
{
    lawful_files_are_read();
    events_keep();
    openings_are_kept();
    let files = take_all(alloc, store, watch)?;
    read_taken(alloc, part, files, watch)
}

/// Reads files that were taken, in this order: the headers of all open ones, the components that count, and the logs above
/// them. The first refusal decides: `Damaged` or `Layout` of a header, `Damaged` with the names of all open files where these do
/// not go together, `Damaged` of a component, `Damaged` of a log. `Disk` comes only where a read failed.
pub fn read_taken<F: Frozen>(
    alloc: Global,
    part: Partition,
    files: Vec<Taken<F>>,
    watch: &mut F::Watch,
) -> Result<FilesRead<F>, FilesCause>
    requires ascend { IsStrictlySortedBy name_cmp (names_in files.items) }
    requires gates { AreGates F.content files.items }
    ensures judged { AreTold F.content files.items → AnswersBy (λ read. found_in read.list read.writes.items) result (OpeningJudged (asked part) (picture_in F.content files.items)) }
    ensures causes { IfErr result (IsReadCause F.size (asked part) files.items) }
    ensures read { IfOk result (λ read. IsReadOf files.items read.list read.left.items read.last) }
    ensures lawful { IfOk result (λ read. All (λ (c : ComponentState F). IsIndex c.index) read.list) }
    ensures listed { IfOk result (λ read. IsListOf part.number part.count read.list) }
    ensures writes { IfOk result (λ read. All (AllByRecursion IsWrite) read.writes.items) }
    ensures logs { IfOk result (λ read. length read.writes.items ≡ length (filter (of_log read.last) read.left.items)) }
    ensures names { OnOk result (AreLawful files.items) }
    ensures counted { IfOk result (λ read. IsCountedTimes ⊥ (Unit {0}) (length (filter (λ t. t.open) files.items) + (length read.list + length read.list) + length (filter (of_log read.last) read.left.items)) (F.Watch.counts watch.old) (F.Watch.counts watch.new)) }
    ensures faults { IsCountedTimes (IsErrOf result FilesCause.Disk) ⊥ 0 (F.Watch.counts watch.old) (F.Watch.counts watch.new) }
{
    judge_heads(alloc, part, &files, watch)?;
    let tiles = sort_files(alloc, &files)?;
    let last = last_of(&tiles);
    let Loaded { list, left } = load_components(alloc, part, &tiles, files, watch)?;
    let writes = read_logs(alloc, last, &left, watch)?;
    Ok(FilesRead {
        list,
        left,
        writes,
        last,
    })
}
