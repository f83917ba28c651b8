//! Laws of runs: what the definitions come to, whoever runs.

ghost use Rattle.std.specs.Prelude.{◌≡◌, ℕ, List};
ghost use Rattle.tc_model.specs.Lines.{lines_of};
ghost use Rattle.tc_plain_model.specs.Room.{Limits};
ghost use Rattle.tc_plain_model.specs.Store.{Store};
ghost use Rattle.tc_request_model.specs.Reply.{Reply};
ghost use Rattle.tc_request_model.specs.Request.{Request};
ghost use Rattle.tc_run_model.specs.Kinds.{AreOfKinds};
ghost use Rattle.tc_run_model.specs.Replies.{AreReplies};
ghost use Rattle.tc_run_model.specs.Windows.{windows, windows_of, lines_in, AreCut};
ghost use Rattle.tc_run_model.specs.World.{World, first_world, after_all, AllStand};

/// A law, and no work. In the first world, and after each list of requests, a partition stores what its writes leave of what
/// it stored when the run began.
pub fn worlds_stand_on_writes()
    ensures first { (limits : Limits) (stores : List Store) → AllStand (first_world limits stores) }
    ensures goes_on { (rs : List Request) (w : World) → AllStand w → AllStand (after_all rs w) }
{}

/// A law, and no work. Replies from a world are of the kinds of their requests, so what is said where no world is known
/// holds of each.
pub fn replies_have_kinds()
    ensures { (rs : List Request) (w : World) (replies : List Reply) → AreReplies rs w replies → AreOfKinds rs replies }
{}

/// A law, and no work. The windows of an input hold its lines, in order. Each that has closed is a command of the whole
/// store, is full, or comes before such a command.
pub fn windows_are_cut()
    ensures lines { (limit : ℕ) (input : List ℕ) → lines_in (windows limit input) ≡ lines_of input }
    ensures reasons { (limit : ℕ) (lines : List (List ℕ)) → AreCut limit (windows_of limit lines).closed }
{}
