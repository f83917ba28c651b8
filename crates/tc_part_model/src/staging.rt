//! Laws of staging, and of what is found of a key.

ghost use Rattle.std.specs.Prelude.{◌≡◌, ◌<◌, ◌^◌, ◌++◌, ◌∷◌, ◌&&◌, ℕ, Bool, not, nat_le, [], length, is_some, Option, None};
ghost use Rattle.tc_model.specs.Document.{Document, ShapeTree, IsDocument};
ghost use Rattle.tc_model.specs.Stored.{IsStorable};
ghost use Rattle.tc_model.specs.Keyed.{value_of};
ghost use Rattle.tc_memory.specs.Table.{Kept, Table};
ghost use Rattle.tc_plain_model.specs.Room.{Limits, lacks_room};
ghost use Rattle.tc_plain_model.specs.Writes.{Write, after_write};
ghost use Rattle.tc_lsm_model.specs.Lists.{live, IsList};
ghost use Rattle.tc_machine.specs.Logs.{kept_write};
ghost use Rattle.tc_machine.specs.Writes.{IsStorableWrite};
ghost use Rattle.tc_part_model.specs.Changes.{with_staged};
ghost use Rattle.tc_part_model.specs.Meaning.{IsPart, plain_of};
ghost use Rattle.tc_part_model.specs.PartState.{Told};
ghost use Rattle.tc_part_model.specs.PartView.{PartView, stored_with, below_of};
ghost use Rattle.tc_part_model.specs.Staging.{called, taken_with, HandsShape, IsHeldAs, counted_with};

/// A law, and no work. A part whose memory table took a write, with the shape of what is below, is the part in which the
/// write is staged, where there is room for it. As a plain store it is the one after the write. Whether there is
/// room for a key is told by how many documents are live, and by whether the key has one.
pub fn staged_is_kept()
    ensures staged { (t u : Told) (p : PartView) (w : Write) (handed : Option ShapeTree) → IsPart t p → IsStorableWrite w → HandsShape t p w.0 handed
        → u ≡ record t { active = called w handed t.active; staged = t.staged ++ kept_write w ∷ []; taken = taken_with w t.taken; live = u.live }
        → u.live ≡ counted_with w (is_some (value_of w.0 (stored_with p))) t.live → u.live < 2 ^ 32 → length u.taken < 2 ^ 32 → IsPart u (with_staged w p) }
    ensures plain { (t u : Told) (p : PartView) (w : Write) → u.taken ≡ taken_with w t.taken → plain_of u (with_staged w p) ≡ record { pairs = after_write (stored_with p) w; taken = taken_with w t.taken } }
    ensures room { (t : Told) (p : PartView) (limits : Limits) (key : ℕ) → IsPart t p → lacks_room limits key (plain_of t p) ≡ (not (is_some (value_of key (stored_with p))) && nat_le limits.docs t.live) }
{}

/// A law, and no work. What is stored of a key, with what is staged, is what the active table holds of it; where that has no
/// entry, what the sealed table holds; and else what is live in the list. A document that a table holds may be stored.
pub fn tables_hold_keys()
    ensures active { (t : Told) (p : PartView) (key : ℕ) (k : Kept) → IsPart t p → value_of key t.active ≡ Some k → IsHeldAs k.held (value_of key (stored_with p)) }
    ensures active_stored { (t : Told) (p : PartView) (key : ℕ) (k : Kept) (d : Document) → IsPart t p → value_of key t.active ≡ Some k → value_of key (stored_with p) ≡ Some d → IsDocument d × IsStorable d }
    ensures below { (t : Told) (p : PartView) (key : ℕ) → IsPart t p → value_of key t.active ≡ None → value_of key (stored_with p) ≡ value_of key (below_of p) }
    ensures sealed { (t : Told) (p : PartView) (key : ℕ) (table : Table) (k : Kept) → IsPart t p → t.sealed ≡ Some table → value_of key table ≡ Some k → IsHeldAs k.held (value_of key (below_of p)) }
    ensures sealed_stored { (t : Told) (p : PartView) (key : ℕ) (table : Table) (k : Kept) (d : Document) → IsPart t p → t.sealed ≡ Some table → value_of key table ≡ Some k → value_of key (below_of p) ≡ Some d → IsDocument d × IsStorable d }
    ensures list { (t : Told) (p : PartView) (key : ℕ) (table : Table) → IsPart t p → t.sealed ≡ Some table → value_of key table ≡ None → value_of key (below_of p) ≡ value_of key (live p.list) }
    ensures unsealed { (t : Told) (p : PartView) → IsPart t p → t.sealed ≡ None → below_of p ≡ live p.list }
    ensures is_list { (t : Told) (p : PartView) → IsPart t p → IsList p.part p.list }
{}
