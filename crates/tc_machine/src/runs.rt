//! Laws of runs: each event keeps what is kept, and what is kept is sound.

ghost use Rattle.std.specs.Prelude.{List};
ghost use Rattle.tc_store.specs.Disk.{Picture};
ghost use Rattle.tc_plain_model.specs.Writes.{Write};
ghost use Rattle.tc_lsm_model.specs.Contents.{Partition, Content};
ghost use Rattle.tc_machine.specs.Pictures.{Opens};
ghost use Rattle.tc_machine.specs.State.{State};
ghost use Rattle.tc_machine.specs.Events.{Event, step, opened, rebased};
ghost use Rattle.tc_machine.specs.Steps.{May};
ghost use Rattle.tc_machine.specs.Runs.{Runs};
ghost use Rattle.tc_machine.specs.Sound.{IsSound, EveryRunIsSound};
ghost use Rattle.tc_machine.specs.Kept.{IsKept};

/// A law, and no work. Whatever the events, and wherever the stops among them: from the opening of a lawful picture on, each
/// state is sound.
pub fn every_run_is_sound()
    ensures { EveryRunIsSound }
{}

/// A law, and no work. An event that comes under its condition keeps what is kept, and so does a run of them. What is kept
/// stays so where it is told from what the list holds on.
pub fn events_keep()
    ensures event { (part : Partition) (s : State) (e : Event) → IsKept part s → May part e s → IsKept part (step e s) }
    ensures run { (part : Partition) (events : List Event) (s t : State) → IsKept part s → Runs part s events t → IsKept part t }
    ensures rebased { (part : Partition) (s : State) → IsKept part s → IsKept part (rebased s) }
{}

/// A law, and no work. What is kept is sound.
pub fn kept_is_sound()
    ensures { (part : Partition) (s : State) → IsKept part s → IsSound part s }
{}

/// A law, and no work. The opening of a lawful picture is kept.
pub fn openings_are_kept()
    ensures { (part : Partition) (picture : Picture) (cs : List Content) (logs : List (List Write)) → Opens part picture cs logs → IsKept part (opened picture cs logs) }
{}
