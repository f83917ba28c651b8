//! Laws of list, tables, writes and jobs, whatever the files are, and of what is stored.

ghost use Rattle.std.specs.Prelude.{◌≡◌, ◌≤◌, ◌+◌, ℕ, Bool, List, [], ◌++◌, length, Option, Some, None, IsSome};
ghost use Rattle.tc_store.specs.Disk.{Disk, Picture};
ghost use Rattle.tc_plain_model.specs.Writes.{Write, after_writes};
ghost use Rattle.tc_lsm_model.specs.Contents.{Partition, Content};
ghost use Rattle.tc_lsm_model.specs.Flushes.{IsFlush};
ghost use Rattle.tc_lsm_model.specs.Lists.{live};
ghost use Rattle.tc_lsm_model.specs.Merges.{Run, in_run, IsMerge};
ghost use Rattle.tc_lsm_model.specs.Tables.{KeepsShapes};
ghost use Rattle.tc_machine.specs.Logs.{all_writes};
ghost use Rattle.tc_machine.specs.Pictures.{Opens, recovered};
ghost use Rattle.tc_machine.specs.State.{State, Active, Sealed, history, stored_in, held, below_active, sealed_table, active_table, sealed_logs, frame_writes, flushing_of};
ghost use Rattle.tc_machine.specs.Events.{Event, step, frame_started, frame_committed, table_sealed, flush_installed, merge_installed, part_started, opened, rebased, KeepsStored};
ghost use Rattle.tc_machine.specs.Steps.{May, StartsFrame};
ghost use Rattle.tc_machine.specs.Kept.{IsKept, IsMemoryKept};

/// A law, and no work. Without a look at files: each event that changes list, tables, writes or jobs keeps what is kept of
/// them, where what it changes is so. Over a store that tells nothing, this is what can be known.
pub fn memory_is_kept()
    ensures files { (part : Partition) (s : State) (files : Disk) (making failed : Bool) → IsMemoryKept part s → IsMemoryKept part (record s { files = files; making = making; failed = failed }) }
    ensures started { (part : Partition) (s : State) (ws : List Write) → IsMemoryKept part s → StartsFrame s ws → IsMemoryKept part (step (frame_started ws) s) }
    ensures committed { (part : Partition) (s : State) (d : Active) (ws : List Write) → IsMemoryKept part s → s.active ≡ Some d → s.frame ≡ Some ws → IsMemoryKept part (step frame_committed s) }
    ensures sealed { (part : Partition) (s : State) → IsMemoryKept part s → IsSome s.active → s.sealed ≡ None → s.frame ≡ None → IsMemoryKept part (step table_sealed s) }
    ensures flush_begun { (part : Partition) (s : State) → IsMemoryKept part s → IsSome s.sealed → IsMemoryKept part (record s { flush = Some (flushing_of s) }) }
    ensures flush_installed { (part : Partition) (s : State) (d : Sealed) (c : Content) → IsMemoryKept part s → s.sealed ≡ Some d → IsFlush part s.list d.table (length d.logs) c → IsMemoryKept part (step (flush_installed c) s) }
    ensures merge_begun { (part : Partition) (s : State) (run : Run) (c : Content) → IsMemoryKept part s → 2 ≤ run.length → run.first + run.length ≤ length s.list → IsMerge (in_run run s.list) c
        → IsMemoryKept part (record s { merge = Some (record { run = run; target = c }) }) }
    ensures merge_installed { (part : Partition) (s : State) → IsMemoryKept part s → IsSome s.merge → IsMemoryKept part (step merge_installed s) }
    ensures rebased { (part : Partition) (s : State) → IsMemoryKept part s → IsMemoryKept part (rebased s) }
    ensures holds { (part : Partition) (s : State) → IsMemoryKept part s → held s ≡ stored_in s }
    ensures below { (part : Partition) (s : State) → IsMemoryKept part s → below_active s ≡ after_writes s.base (s.folded ++ all_writes (sealed_logs s.sealed)) }
    ensures sealed_shapes { (part : Partition) (s : State) → IsMemoryKept part s → KeepsShapes (live s.list) (sealed_table s.sealed) }
    ensures active_shapes { (part : Partition) (s : State) → IsMemoryKept part s → KeepsShapes (below_active s) (active_table s.active) }
{}

/// A law, and no work. Only a commit and a stop change what is stored: a commit by the writes of the frame, and an opening
/// begins with what is stored in its picture. A part that has started has no writes yet.
pub fn stored_stays()
    ensures stays { (part : Partition) (s : State) (e : Event) → KeepsStored e → IsKept part s → May part e s → stored_in (step e s) ≡ stored_in s }
    ensures committed { (part : Partition) (s : State) (d : Active) (ws : List Write) → s.active ≡ Some d → s.frame ≡ Some ws → stored_in (step frame_committed s) ≡ after_writes (stored_in s) ws }
    ensures history { (s : State) (d : Active) (ws : List Write) → s.active ≡ Some d → s.frame ≡ Some ws → history (step frame_committed s) ≡ history s ++ ws }
    ensures opened { (picture : Picture) (cs : List Content) (logs : List (List Write)) → stored_in (opened picture cs logs) ≡ (recovered cs logs).pairs }
    ensures started { (part : Partition) (s : State) → May part part_started s → history (step part_started s) ≡ [] }
    ensures rebased { (part : Partition) (s : State) → IsMemoryKept part s → stored_in (rebased s) ≡ stored_in s }
{}
