//! Which histories show the documents that a partition holds.

ghost use Rattle.std.specs.Prelude.{◌≡◌, ◌<◌, [], ◌∷◌, ◌++◌, List, length, map, take, All, Option};
ghost use mathlib.Core.List.{IsPrefix};
ghost use Rattle.tc_plain_model.specs.Writes.{Pairs, Write, after_writes};
ghost use Rattle.tc_memory.specs.Table.{Table};
ghost use Rattle.tc_component.specs.Loading.{ComponentState};
ghost use Rattle.tc_machine.specs.Logs.{kept_write};
ghost use Rattle.tc_machine.specs.Writes.{IsStorableWrite};
ghost use Rattle.tc_view.specs.declared.happened.Happened.TheVariants.{Wrote, Placed};
ghost use Rattle.tc_view.specs.Changes.{shown_after, showing_in};
ghost use Rattle.tc_view.specs.Holding.{Holds, HoldsWrites};
ghost use Rattle.tc_view.specs.Rules.{IsViewOf};

use crate::content::Content;
use crate::happened::Happened;
use crate::rule::Key;
use tc_store::Frozen;

/// A law, and no work. Each beginning of a history shows what its writes leave of the documents that a partition held: once
/// components and a table were placed that held them (`opened`), and still, once storable writes are added (`wrote`), or
/// components and a table are placed that hold what all writes left (`placed`). So each view of such a history shows what its
/// own writes leave (`seen`).
pub fn histories_hold_writes<F: Frozen>()
    ensures opened { (list : List (ComponentState F)) (sealed : Option Table) (start : Pairs) → Holds F.content (shown_after {W = F.Watch} (Placed list sealed ∷ [])) start → HoldsWrites {W = F.Watch} F.content start [] (Placed list sealed ∷ []) }
    ensures wrote { (start : Pairs) (writes more : List Write) (history : List (Happened F F.Watch)) → HoldsWrites F.content start writes history → 0 < length history → All IsStorableWrite more
        → HoldsWrites F.content start (writes ++ more) (history ++ Wrote (map kept_write more) ∷ []) }
    ensures placed { (start : Pairs) (writes : List Write) (history : List (Happened F F.Watch)) (list : List (ComponentState F)) (sealed : Option Table) → HoldsWrites F.content start writes history
        → Holds F.content (shown_after (history ++ Placed list sealed ∷ [])) (after_writes start writes) → HoldsWrites F.content start writes (history ++ Placed list sealed ∷ []) }
    ensures seen { (start : Pairs) (writes : List Write) (history : List (Happened F F.Watch)) (k : Key) (c : Content F F.Watch) → HoldsWrites F.content start writes history → IsViewOf k c → IsPrefix c.history history → 0 < length c.history
        → Holds F.content (showing_in c) (after_writes start (take c.upto writes)) }
{}
