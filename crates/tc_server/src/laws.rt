//! What holds of the worlds of runs, one after the other, and of runs that met nothing.

ghost use Rattle.std.specs.Prelude.{◌≡◌, ◌⊎◌, ℕ, List, length, Option, Some, None, IfSome};
ghost use Rattle.tc_request_model.specs.Request.{Request};
ghost use Rattle.tc_plain_model.specs.Room.{Limits};
ghost use Rattle.tc_run_model.specs.Course.{worlds_left, Ending};
ghost use Rattle.tc_run_model.specs.Windows.{Window};
ghost use Rattle.tc_run_model.specs.World.{World, after_all};
ghost use Rattle.tc_keeper.specs.Faults.{status_of, IfDisk, IsNoDamage, IsWrite};
ghost use Rattle.tc_keeper.specs.OwnKeys.{HaveOwn};
ghost use Rattle.tc_keeper.specs.declared.fault.RunFault.{RunFault};
ghost use Rattle.tc_keeper.specs.declared.fault.RunFault.TheVariants.{Usage, Read, Spent};
ghost use Rattle.tc_server.specs.OverFiles.{AreFoundOf, IsHere, LeaveOneOf, MayFollow, OpenAs};
ghost use Rattle.tc_store.specs.Disk.{Disk};

/// The law that partitions which have keys of their own alone have them behind requests too, and so has one of which alone it is
/// known: so a run that begins in such a world leaves each of its partitions as one that the next run may begin with.
pub fn own_keys_stay()
    ensures { (rs : List Request) (only : Option ℕ) (w : World) → HaveOwn only w → HaveOwn only (after_all rs w) }
{}

/// The law that a run may follow another, which gave back a kit for each partition: whatever picture a stop leaves of what each
/// kit has, a run over these begins in a world of which each partition stores what the exit clause says. So it is of one partition
/// alone, whatever is in the files of others.
pub fn runs_may_follow()
    ensures { (limits next : Limits) (count : ℕ) (files came : ℕ → List Disk) (only : Option ℕ) (w : World) (ending : Ending) (answered : List Window) (last : Window) (kits : List (List Disk))
        → OpenAs limits count files only w → length kits ≡ count → LeaveOneOf only count (worlds_left ending w answered last) kits → AreFoundOf only kits came
        → MayFollow next count came only (worlds_left ending w answered last) }
{}

/// The law that a run ends well where nothing is wrong: where the words are accepted, no read, write or call on files failed, no number
/// was spent and the files of all partitions are lawful, its status is 0, or 7 for want of memory. It takes what `serve` says of its
/// fault.
pub fn good_runs_end_well()
    ensures { (fault : Option RunFault) → (fault ≡ Some Usage → ⊥) → (fault ≡ Some Read → ⊥) → IfSome fault (λ f. IsWrite f → ⊥) → IfSome fault (λ f. IfDisk f (λ p. ⊥)) → (fault ≡ Some Spent → ⊥)
        → IfSome fault (IsNoDamage None) → IfSome fault (IsHere None) → (status_of fault ≡ 0) ⊎ (status_of fault ≡ 7) }
{}
