//! Laws of the moments of a store, of calls that follow each other.

ghost use Rattle.std.specs.Prelude.{◌≡◌, List, Option, None};
ghost use Rattle.tc_store.specs.Disk.{Disk};
ghost use Rattle.tc_part_model.specs.Leaving.{FailedMomentsLeaveStore, StoreMomentsLeaveStore};
ghost use Rattle.tc_part_model.specs.PartState.{Told};
ghost use Rattle.tc_part_model.specs.PartView.{PartView};

/// A law, and no work. What holds at the moments of one call, and at those of the next one while no log changes, holds at those
/// of both. Before the part becomes another one, each moment leaves what it was; and behind that, what it became.
pub fn moments_follow()
    ensures both { (t u : Told) (p q : PartView) (disks : List Disk) → u.log ≡ t.log → u.sealed_log ≡ t.sealed_log → StoreMomentsLeaveStore p q t u.disks → StoreMomentsLeaveStore p q u disks → StoreMomentsLeaveStore p q t disks }
    ensures before { (t : Told) (p q : PartView) (disks : List Disk) → StoreMomentsLeaveStore p p t disks → StoreMomentsLeaveStore p q t disks }
    ensures behind { (t : Told) (p q : PartView) (disks : List Disk) → StoreMomentsLeaveStore q q t disks → StoreMomentsLeaveStore p q t disks }
    ensures no_frame { (t : Told) (p : PartView) (disks : List Disk) → FailedMomentsLeaveStore p None t disks → StoreMomentsLeaveStore p p t disks }
{}
