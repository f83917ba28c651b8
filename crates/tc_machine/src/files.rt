//! Laws of single files: the calls of a device are its moments, and the names of files to be made are free.

ghost use Rattle.std.specs.Prelude.{◌≡◌, ◌≤◌, ◌+◌, false, ℕ, List, [], length, map, Option, Some, None, All, IsSome};
ghost use Rattle.tc_store.specs.Disk.{Entry, IsThere, home, none};
ghost use Rattle.tc_store.specs.DiskFile.{DiskFile};
ghost use Rattle.tc_store.specs.Gate.{IsShutOrWhole};
ghost use Rattle.tc_store.specs.Moments.{LeavesAt};
ghost use Rattle.tc_store.specs.declared.file_name.FileName.{FileName as Name};
ghost use Rattle.tc_store.specs.declared.file_name.FileName.TheVariants.{Log};
ghost use Rattle.tc_log.specs.Appending.{MeansWithOrWithout};
ghost use Rattle.tc_log.specs.Spelling.{IsHead, log_at_rest};
ghost use Rattle.tc_plain_model.specs.Writes.{Write};
ghost use Rattle.tc_lsm_model.specs.Contents.{Partition, Content, IsContent};
ghost use Rattle.tc_lsm_model.specs.Flushes.{IsFlush};
ghost use Rattle.tc_lsm_model.specs.Merges.{Run, in_run, IsMerge};
ghost use Rattle.tc_component.specs.Rows.{IsComponent, IsShortWrite, component_bytes};
ghost use Rattle.tc_machine.specs.Logs.{log_head, kept_write, IsLog};
ghost use Rattle.tc_machine.specs.Components.{file_of};
ghost use Rattle.tc_machine.specs.State.{State, Sealed, flush_name, flushing_of, next_generation};
ghost use Rattle.tc_machine.specs.Steps.{MayCall, IsShutOrHas, IsFlushed, LeavesWithOrWithout};
ghost use Rattle.tc_machine.specs.Runs.{Runs, calls, after_moments};
ghost use Rattle.tc_machine.specs.Kept.{IsKept};

/// A law, and no work. Moments of a device of which each may come of a call are a run of calls. What the contracts of a log
/// and of a builder say of their moments is what the machine asks of such a call.
pub fn calls_are_moments()
    ensures run { (part : Partition) (s : State) (name : Name) (old : DiskFile) (fs : List DiskFile) → s.files name ≡ home old → All (MayCall part s name) fs → Runs part s (calls name fs) (after_moments s name fs) }
    ensures appended { (part : Partition) (g : ℕ) (ws frame : List Write) (f : DiskFile) → LeavesAt (MeansWithOrWithout (log_head part g) (map kept_write ws) (map kept_write frame)) f → LeavesAt (LeavesWithOrWithout part g ws frame) f }
    ensures created { (part : Partition) (g : ℕ) (f : DiskFile) → IsHead (log_head part g) → LeavesAt (IsShutOrWhole None (log_at_rest (log_head part g) [])) f → LeavesAt (IsShutOrHas (IsLog part g [])) f }
    ensures new_log { (part : Partition) (g : ℕ) → IsHead (log_head part g) → IsLog part g [] (log_at_rest (log_head part g) []) }
    ensures made { (c : Content) (f : DiskFile) → IsContent c → All IsShortWrite c.entries → LeavesAt (IsShutOrWhole None (component_bytes c)) f → LeavesAt (IsShutOrHas (IsComponent c)) f }
    ensures flushed { (part : Partition) (cs : List Content) (d : Sealed) (c : Content) (f : DiskFile) → IsFlush part cs d.table (length d.logs) c → IsContent c → All IsShortWrite c.entries → LeavesAt (IsShutOrWhole None (component_bytes c)) f
        → LeavesAt (IsShutOrHas (IsFlushed part cs (Some d))) f }
{}

/// A law, and no work. In a run that has not failed, the names of the files that are about to be made are free: of the next
/// log, of the flush, and of a merge. Where there is no file, there may have been one.
pub fn names_are_free()
    ensures absent { (entry : Entry) → (IsThere entry → ⊥) → (before : Option (List ℕ)) × (entry ≡ none before) }
    ensures next_log { (part : Partition) (s : State) → IsKept part s → IsSome s.active → s.failed ≡ false → s.making ≡ false → IsThere (s.files (Log (next_generation s))) → ⊥ }
    ensures flush { (part : Partition) (s : State) → IsKept part s → IsSome s.active → s.failed ≡ false → IsSome s.sealed → s.flush ≡ None → IsThere (s.files (flush_name (flushing_of s))) → ⊥ }
    ensures merge { (part : Partition) (s : State) (run : Run) (c : Content) → IsKept part s → IsSome s.active → s.failed ≡ false → 2 ≤ run.length → run.first + run.length ≤ length s.list → IsMerge (in_run run s.list) c → s.merge ≡ None
        → IsThere (s.files (file_of c)) → ⊥ }
{}
