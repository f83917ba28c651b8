//! Which histories show what a part stores.

ghost use Rattle.std.specs.Prelude.{◌≡◌, ◌<◌, ◌≤◌, ◌++◌, ◌∷◌, [], List, All, length, map};
ghost use mathlib.Core.List.{IsPrefix};
ghost use Rattle.tc_component.specs.Loading.{ComponentState};
ghost use Rattle.tc_machine.specs.Logs.{kept_write};
ghost use Rattle.tc_machine.specs.Writes.{IsStorableWrite};
ghost use Rattle.tc_part_model.specs.Meaning.{IsPart};
ghost use Rattle.tc_part_model.specs.PartState.{AreTold, Told, told_component};
ghost use Rattle.tc_part_model.specs.PartView.{PartView, store_of};
ghost use Rattle.tc_plain_model.specs.Writes.{Pairs, Write, after_writes};
ghost use Rattle.tc_view.specs.declared.content.Content.{Content};
ghost use Rattle.tc_view.specs.declared.happened.Happened.{Happened};
ghost use Rattle.tc_view.specs.declared.happened.Happened.TheVariants.{Placed};
ghost use Rattle.tc_view.specs.declared.rule.Key.{Key};
ghost use Rattle.tc_view.specs.Holding.{Extend, Holds, HoldsWrites};
ghost use Rattle.tc_view.specs.Rules.{IsViewOf};
ghost use Rattle.tc_shown.specs.Shown.{wrote};

use tc_part_model::told_components_are_loaded;
use tc_store::Frozen;
use tc_view::histories_hold_writes;

/// A law, and no work: where nothing is staged in a part and its active table has no entry, its components and its sealed table show
/// what it stores (`held`). So a history shows it that begins so (`opened`), or that says so behind all writes (`placed`). Frames
/// go behind these (`wrote`).
pub fn parts_are_shown<F: Frozen>()
    ensures held { (t : Told) (p : PartView) (list : List (ComponentState F)) → IsPart t p → AreTold t.components → t.staged ≡ [] → t.active ≡ [] → t.components ≡ map (told_component F.content) list
        → Holds F.content (record { list = list; sealed = t.sealed; written = [] }) (store_of p) }
    ensures opened { (t : Told) (p : PartView) (list : List (ComponentState F)) → IsPart t p → AreTold t.components → t.staged ≡ [] → t.active ≡ [] → t.components ≡ map (told_component F.content) list
        → HoldsWrites {W = F.Watch} F.content (store_of p) [] (Placed list t.sealed ∷ []) }
    ensures placed { (t : Told) (p : PartView) (list : List (ComponentState F)) (start : Pairs) (writes : List Write) (history : List (Happened F F.Watch)) → IsPart t p → AreTold t.components → t.staged ≡ [] → t.active ≡ [] → t.components ≡ map (told_component F.content) list
        → store_of p ≡ after_writes start writes → HoldsWrites F.content start writes history → HoldsWrites F.content start writes (history ++ Placed list t.sealed ∷ []) }
    ensures wrote { (start : Pairs) (writes ws : List Write) (history : List (Happened F F.Watch)) → HoldsWrites F.content start writes history → 0 < length history → All IsStorableWrite ws
        → HoldsWrites F.content start (writes ++ ws) (history ++ wrote (map kept_write ws)) }

    // The components of a part can be shown, over every store.
    ensures listed { (t : Told) (p : PartView) (list : List (ComponentState F)) → IsPart t p → t.components ≡ map (told_component F.content) list → Extend [] list }

    // A view has no more writes than the history that it begins, and no more than a longer view.
    ensures counted { (start : Pairs) (writes : List Write) (history : List (Happened F F.Watch)) (k : Key) (c : Content F F.Watch) → HoldsWrites F.content start writes history → IsViewOf k c → IsPrefix c.history history → c.upto ≤ length writes }
    ensures longer { (k : Key) (c d : Content F F.Watch) → IsViewOf k c → IsViewOf k d → IsPrefix c.history d.history → c.upto ≤ d.upto }
{
    told_components_are_loaded::<F>();
    histories_hold_writes::<F>();
}
