//! Laws of what a stop leaves: it is lawful, and holds what is stored.

ghost use Rattle.std.specs.Prelude.{◌≡◌, ℕ, true, List, Some};
ghost use Rattle.tc_store.specs.Disk.{Picture, IsPictureOf, bytes_at};
ghost use Rattle.tc_store.specs.DiskFile.{DiskFile};
ghost use Rattle.tc_store.specs.Gate.{is_open_file};
ghost use Rattle.tc_store.specs.declared.file_name.FileName.{FileName as Name};
ghost use Rattle.tc_store.specs.declared.file_name.FileName.TheVariants.{Component};
ghost use Rattle.tc_plain_model.specs.Writes.{Write};
ghost use Rattle.tc_lsm_model.specs.Contents.{Partition, Content};
ghost use Rattle.tc_machine.specs.Pictures.{Opens, Recovers, recovered, IsMaximal, IsListed};
ghost use Rattle.tc_machine.specs.State.{State, stored_in, logs, IsIdle};
ghost use Rattle.tc_machine.specs.Events.{Event, step, device_called};
ghost use Rattle.tc_machine.specs.Steps.{May, Stops, CallsDevice, nothing_held};
ghost use Rattle.tc_machine.specs.Sound.{IsWithOrWithout};
ghost use Rattle.tc_machine.specs.Beside.{IsPictureBeside};
ghost use Rattle.tc_machine.specs.Kept.{IsKept};

use tc_component::components_are_contents;

/// A law, and no work. Whatever a stop leaves of a kept state is lawful, and what is stored in it is what was stored, with the
/// frame that was appended or without it. So it is while jobs run by themselves, in any state of theirs, after a call of
/// another device, and after any event; and so it is however the picture is opened.
pub fn stops_keep_stored()
    ensures picture { (part : Partition) (s : State) (picture : Picture) → IsKept part s → IsPictureOf nothing_held s.files picture → Recovers part picture (IsWithOrWithout (stored_in s) s.frame) }
    ensures beside { (part : Partition) (s : State) (picture : Picture) → IsKept part s → IsPictureBeside part s picture → Recovers part picture (IsWithOrWithout (stored_in s) s.frame) }
    ensures moment { (part : Partition) (s : State) (name : Name) (f : DiskFile) (picture : Picture) → IsKept part s → CallsDevice part s name f → IsPictureBeside part (step (device_called name f) s) picture
        → Recovers part picture (IsWithOrWithout (stored_in s) s.frame) }
    ensures event { (part : Partition) (s : State) (e : Event) (picture : Picture) → IsKept part s → May part e s → IsPictureBeside part (step e s) picture
        → Recovers part picture (IsWithOrWithout (stored_in (step e s)) (step e s).frame) }
    ensures opened { (part : Partition) (s : State) (picture : Picture) (cs : List Content) (logs : List (List Write)) → IsKept part s → Stops part s picture cs logs → IsWithOrWithout (stored_in s) s.frame (recovered cs logs).pairs }
{
    components_are_contents();
}

/// A law, and no work. Where nothing goes on, whatever a stop leaves opens as the list and the logs of the state.
pub fn idle_states_open_as_they_are()
    ensures { (part : Partition) (s : State) (picture : Picture) → IsKept part s → IsIdle s → IsPictureOf nothing_held s.files picture → Opens part picture s.list (logs s) }
{}

/// A law, and no work. A picture opens as one list of components and logs.
pub fn pictures_open_one_way()
    ensures components { (part : Partition) (picture : Picture) (cs ds : List Content) (logs others : List (List Write)) → Opens part picture cs logs → Opens part picture ds others → cs ≡ ds }
    ensures logs { (part : Partition) (picture : Picture) (cs ds : List Content) (logs others : List (List Write)) → Opens part picture cs logs → Opens part picture ds others → logs ≡ others }
{
    components_are_contents();
}

/// A law, and no work. The components that a picture opens as are its open ones that lie within no other open one.
pub fn listed_are_maximal()
    ensures listed { (part : Partition) (picture : Picture) (cs : List Content) (logs : List (List Write)) → Opens part picture cs logs → (from to : ℕ) (bytes : List ℕ) → bytes_at picture (Component from to) ≡ Some bytes
        → is_open_file bytes ≡ true → IsMaximal picture from to → IsListed cs from to }
    ensures maximal { (part : Partition) (picture : Picture) (cs : List Content) (logs : List (List Write)) → Opens part picture cs logs → (from to : ℕ) → IsListed cs from to → IsMaximal picture from to }
{}
