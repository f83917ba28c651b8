//! A law of what a merge makes.

ghost use Rattle.std.specs.Prelude.{◌≡◌, All, List};
ghost use Rattle.std.specs.List.{AllZip};
ghost use Rattle.tc_lsm_model.specs.Contents.{Content};
ghost use Rattle.tc_lsm_model.specs.Merges.{IsMerge};
ghost use Rattle.tc_component.specs.declared.head.Head.{Head as Header};
ghost use Rattle.tc_component.specs.Loading.{ComponentState};
ghost use Rattle.tc_component.specs.Rows.{component_bytes, IsShortWrite};
ghost use Rattle.tc_component.specs.Loaded.{IsLoadedOf};
ghost use Rattle.tc_merge.specs.Merging.{IsRun, merge_bytes};

use tc_compact::round_trip;
use tc_store::Frozen;

/// A law, and no work. Where the files of a run are the components of contents, the bytes of their merge are the component
/// of the one content that merges these.
pub fn merges_are_made<F: Frozen>()
    ensures { (head : Header) (run : List (ComponentState F)) (cs : List Content) → IsRun head run → AllZip (IsLoadedOf (λ file. F.content file)) run cs
        → (c : Content) × IsMerge cs c × All IsShortWrite c.entries × (component_bytes c ≡ merge_bytes (λ file. F.content file) head run) }
{
    round_trip();
}
