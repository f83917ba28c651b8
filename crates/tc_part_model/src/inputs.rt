//! Laws of what the jobs of a part need.

ghost use Rattle.std.specs.Prelude.{◌≡◌, ◌+◌, ◌-◌, ◌<◌, ◌≤◌, ◌^◌, ℕ, List, All, length, map, slice_get, Some, None, IsSome};
ghost use Rattle.std.specs.List.{AllZip};
ghost use Rattle.tc_model.specs.Dictionary.{Extends};
ghost use Rattle.tc_model.specs.Document.{Name};
ghost use Rattle.tc_schema_model.specs.Counted.{Counted};
ghost use Rattle.tc_store.specs.Disk.{Disk};
ghost use Rattle.tc_store.specs.DiskFile.{DiskFile, settled_file};
ghost use Rattle.tc_store.specs.Moments.{IfTold};
ghost use Rattle.tc_memory.specs.Table.{Table, IsTable};
ghost use Rattle.tc_component.specs.declared.head.Head.{Head};
ghost use Rattle.tc_component.specs.Loaded.{IsLoadedOf};
ghost use Rattle.tc_component.specs.Loading.{ComponentState};
ghost use Rattle.tc_component.specs.Rows.{IsShortWrite, component_bytes, part_of};
ghost use Rattle.tc_component.specs.Spelling.{name_of};
ghost use Rattle.tc_lsm_model.specs.Contents.{Content, IsContent};
ghost use Rattle.tc_lsm_model.specs.Flushes.{IsFlush};
ghost use Rattle.tc_lsm_model.specs.Lists.{names_of, schema_of};
ghost use Rattle.tc_lsm_model.specs.Merges.{IsMerge, Run as Neighbours, in_run as contents_in_run, swapped as contents_swapped};
ghost use Rattle.tc_flush.specs.Counting.{IsCounted};
ghost use Rattle.tc_list.specs.declared.run.Run.{Run};
ghost use Rattle.tc_list.specs.Runs.{in_run, swapped, neighbours};
ghost use Rattle.tc_machine.specs.Components.{file_of};
ghost use Rattle.tc_merge.specs.Merging.{IsRun};
ghost use Rattle.tc_part_model.specs.Calls.{FlushesBehind, HasMade, MakesFlush};
ghost use Rattle.tc_part_model.specs.Meaning.{IsPart, IsOfContent};
ghost use Rattle.tc_part_model.specs.Newest.{newest_index, names_by, schema_by};
ghost use Rattle.tc_part_model.specs.PartState.{Told, AreTold, IsTold, told_component};
ghost use Rattle.tc_part_model.specs.PartView.{PartView};

use tc_flush::lists_are_counted;
use tc_store::Frozen;

/// A law, and no work. A component of a part whose file is told was loaded of the file of its content, and so are those of a
/// run, whose names are those of their contents. A component that was loaded of a content is one of it, also in place of a run.
pub fn told_components_are_loaded<F: Frozen>()
    ensures loaded { (component : ComponentState F) (c : Content) → IsOfContent (told_component F.content component) c → IsSome (F.content component.file) → IsLoadedOf F.content component c }
    ensures all_loaded { (components : List (ComponentState F)) (cs : List Content) → AllZip IsOfContent (map (told_component F.content) components) cs → AreTold (map (told_component F.content) components)
        → AllZip (IsLoadedOf F.content) components cs }
    ensures run { (run : Run) (components : List (ComponentState F)) (cs : List Content) → AllZip (IsLoadedOf F.content) components cs → AllZip (IsLoadedOf F.content) (in_run run components) (contents_in_run (neighbours run) cs) }
    ensures names { (run : Run) (components : List (ComponentState F)) (cs : List Content) → AllZip IsOfContent (map (told_component F.content) components) cs
        → map (λ (m : ComponentState F). name_of m.index.head) (in_run run components) ≡ map file_of (contents_in_run (neighbours run) cs) }
    ensures of_content { (component : ComponentState F) (c : Content) → IsLoadedOf F.content component c → IsOfContent (told_component F.content component) c }
    ensures swapped { (run : Run) (components : List (ComponentState F)) (cs : List Content) (merged : ComponentState F) (c : Content) → run.first ≤ run.last → AllZip IsOfContent (map (told_component F.content) components) cs
        → IsOfContent (told_component F.content merged) c → AllZip IsOfContent (map (told_component F.content) (swapped run merged components)) (contents_swapped (neighbours run) c cs) }
{}

/// A law, and no work. The newest component that a part has loaded has the names and the schema of its list. Over them the
/// sealed table lies behind the list, where the files are told, and passes the test `counted`; and what a flush makes of it
/// there is what the flush of the part makes, whose names go on from those of the list.
pub fn sealed_tables_can_flush()
    ensures names { (t : Told) (p : PartView) → IsPart t p → names_by (newest_index None t.components) ≡ names_of p.list }
    ensures schema { (t : Told) (p : PartView) → IsPart t p → schema_by (newest_index None t.components) ≡ schema_of p.list }
    ensures behind { (t : Told) (p : PartView) (head : Head) (kept : Table) → IsPart t p → AreTold t.components → t.sealed ≡ Some kept → t.generation < 2 ^ 63
        → head ≡ record { number = t.part.number; count = t.part.count; from = t.generation - 1; to = t.generation - 1 } → FlushesBehind p head (names_of p.list) (schema_of p.list) kept }
    ensures counted { (t : Told) (p : PartView) (kept : Table) → IsPart t p → AreTold t.components → t.sealed ≡ Some kept → IsTable kept → IsCounted (names_of p.list) (schema_of p.list) kept }
    ensures extends { (t : Told) (p : PartView) (kept : Table) (c : Content) → IsPart t p → t.sealed ≡ Some kept → MakesFlush p c → Extends c.names (names_of p.list) }
    ensures makes { (p : PartView) (head : Head) (names : List Name) (schema : Counted) (kept : Table) (c : Content) (b : FlushesBehind p head names schema kept) → IsFlush (part_of head) p.list b.sealed.table 1 c → MakesFlush p c }
{
    lists_are_counted();
}

/// A law, and no work. Two neighbours or more of a part, over every store, are a run under the header that has the interval from
/// the first of them to the last; what merges their contents has the name of that header.
pub fn runs_can_merge<F: Frozen>()
    ensures run { (t : Told) (p : PartView) (components : List (ComponentState F)) (run : Run) (head : Head) (first last : ComponentState F) → IsPart t p → t.components ≡ map (told_component F.content) components → run.first < run.last
        → slice_get components run.first ≡ Some first → slice_get components run.last ≡ Some last → head ≡ record { number = t.part.number; count = t.part.count; from = first.index.head.from; to = last.index.head.to }
        → IsRun head (in_run run components) }
    ensures within { (t : Told) (p : PartView) (components : List (ComponentState F)) (run : Run) (head : Head) (first last : ComponentState F) → IsPart t p → t.components ≡ map (told_component F.content) components → run.first < run.last
        → slice_get components run.first ≡ Some first → slice_get components run.last ≡ Some last → head ≡ record { number = t.part.number; count = t.part.count; from = first.index.head.from; to = last.index.head.to }
        → (2 ≤ (neighbours run).length) × ((neighbours run).first + (neighbours run).length ≤ length p.list) }
    ensures named { (t : Told) (p : PartView) (components : List (ComponentState F)) (run : Run) (head : Head) (first last : ComponentState F) → IsPart t p → t.components ≡ map (told_component F.content) components → run.first < run.last
        → slice_get components run.first ≡ Some first → slice_get components run.last ≡ Some last → head ≡ record { number = t.part.number; count = t.part.count; from = first.index.head.from; to = last.index.head.to }
        → (c : Content) → IsMerge (contents_in_run (neighbours run) p.list) c → file_of c ≡ name_of head }
{}

/// A law, and no work. A device that has the bytes of a content, and nothing pending, has made the component of it, where the
/// file is no longer than a file may be. What a flush or a merge of a part makes is a content that a component may have.
pub fn jobs_have_made()
    ensures made { (c : Content) (disks : List Disk) (device : List DiskFile) → IsContent c → All IsShortWrite c.entries → length (component_bytes c) < 2 ^ 63 → IfTold disks (λ disk. IsTold device)
        → IfTold device (λ f. f ≡ settled_file (component_bytes c)) → HasMade c disks device }
    ensures flush { (t : Told) (p : PartView) (table : Table) (c : Content) → IsPart t p → t.sealed ≡ Some table → MakesFlush p c → IsContent c }
    ensures merge { (t : Told) (p : PartView) (run : Neighbours) (c : Content) → IsPart t p → IsMerge (contents_in_run run p.list) c → IsContent c }
{}

/// A law, and no work. Over every store, the names of what merges a run of a part go on from those of the component before the
/// run, and those of the one behind it go on from them.
pub fn merges_go_between<F: Frozen>()
    ensures older { (t : Told) (p : PartView) (components : List (ComponentState F)) (run : Run) (last : ComponentState F) (c : Content) → IsPart t p → t.components ≡ map (told_component F.content) components → run.first < run.last
        → slice_get components run.last ≡ Some last → IsMerge (contents_in_run (neighbours run) p.list) c → (at : ℕ) (older : ComponentState F) → slice_get components at ≡ Some older → at + 1 ≡ run.first → Extends c.names older.index.names }
    ensures newer { (t : Told) (p : PartView) (components : List (ComponentState F)) (run : Run) (last : ComponentState F) (c : Content) → IsPart t p → t.components ≡ map (told_component F.content) components → run.first < run.last
        → slice_get components run.last ≡ Some last → IsMerge (contents_in_run (neighbours run) p.list) c → (newer : ComponentState F) → slice_get components (run.last + 1) ≡ Some newer → Extends newer.index.names c.names }
{}
