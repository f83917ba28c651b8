//! Laws of a commit.

ghost use Rattle.std.specs.Prelude.{◌≡◌, true, List, [], Some};
ghost use Rattle.tc_store.specs.DiskFile.{DiskFile};
ghost use Rattle.tc_part_model.specs.Calls.{Appends, HasAppended};
ghost use Rattle.tc_part_model.specs.Changes.{committed_part};
ghost use Rattle.tc_part_model.specs.Leaving.{LogMomentsLeaveStore};
ghost use Rattle.tc_part_model.specs.Meaning.{IsPart, HasFailed, HasFailedAs, plain_of};
ghost use Rattle.tc_part_model.specs.PartState.{Told};
ghost use Rattle.tc_part_model.specs.PartView.{PartView, store_of, stored_with};

/// A law, and no work. A part whose log took the staged writes as one frame is the part in which they are committed, and
/// stores what was stored with them. At each moment of the append, and where it failed, a stop leaves what was stored,
/// without the frame or with it. A commit of nothing changes nothing.
pub fn commits_are_kept()
    ensures committed { (t u : Told) (p : PartView) → IsPart t p → u ≡ record t { staged = []; log = u.log } → HasAppended t.staged t.log u.log → IsPart u (committed_part p) }
    ensures stored { (p : PartView) → store_of (committed_part p) ≡ stored_with p }
    ensures plain { (t u : Told) (p : PartView) → u.taken ≡ t.taken → plain_of u (committed_part p) ≡ plain_of t p }
    ensures moments { (t : Told) (p : PartView) (log : List DiskFile) → IsPart t p → Appends t.staged t.log log → LogMomentsLeaveStore p t log }
    ensures no_moments { (t : Told) (p : PartView) → IsPart t p → LogMomentsLeaveStore p t t.log }
    ensures failed { (t u : Told) (p : PartView) → IsPart t p → u.failed ≡ true → u.disks ≡ t.disks → u.sealed_log ≡ t.sealed_log → Appends t.staged t.log u.log → HasFailed u p.part (store_of p) (Some p.staged) }
    ensures failed_as { (t u : Told) (p : PartView) → IsPart t p → u.failed ≡ true → u.disks ≡ t.disks → u.sealed_log ≡ t.sealed_log → Appends t.staged t.log u.log → HasFailedAs u p (Some p.staged) }
    ensures not_begun { (t u : Told) (p : PartView) → IsPart t p → u.failed ≡ true → u.disks ≡ t.disks → u.sealed_log ≡ t.sealed_log → u.log ≡ t.log → HasFailed u p.part (store_of p) (Some p.staged) }
    ensures not_begun_as { (t u : Told) (p : PartView) → IsPart t p → u.failed ≡ true → u.disks ≡ t.disks → u.sealed_log ≡ t.sealed_log → u.log ≡ t.log → HasFailedAs u p (Some p.staged) }
    ensures nothing { (t : Told) (p : PartView) → IsPart t p → t.staged ≡ [] → committed_part p ≡ p }
{}
