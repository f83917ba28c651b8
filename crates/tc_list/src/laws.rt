//! Laws of lists of components, which the contracts of the crates above rely on.

ghost use Rattle.std.specs.Prelude.{◌≡◌, ◌≤◌, ℕ, List, Ok, Some};
ghost use Rattle.std.specs.List.{AllZip};
ghost use Rattle.tc_lsm_model.specs.Contents.{Partition, Content};
ghost use Rattle.tc_lsm_model.specs.Lists.{IsList};
ghost use Rattle.tc_lsm_model.specs.Merges.{in_run as contents_in_run, swapped as contents_swapped};
ghost use Rattle.tc_component.specs.declared.found.Place.{Place};
ghost use Rattle.tc_component.specs.Loading.{ComponentState};
ghost use Rattle.tc_component.specs.Reading.{file_judged};
ghost use Rattle.tc_component.specs.Rows.{head_of, IsComponent};
ghost use Rattle.tc_component.specs.Spelling.{name_of};
ghost use Rattle.tc_list.specs.declared.run.Run.{Run as OneRun};
ghost use Rattle.tc_list.specs.declared.whereabouts.Whereabouts.TheVariants.{At};
ghost use Rattle.tc_list.specs.Contents.{Shows};
ghost use Rattle.tc_component.specs.Loaded.{IsLoadedOf};
ghost use Rattle.tc_list.specs.Loaded.{HoldsLive};
ghost use Rattle.tc_list.specs.Lookups.{IsWhere};
ghost use Rattle.tc_list.specs.Runs.{in_run, swapped, neighbours};

use tc_component::components_are_contents;
use tc_store::Frozen;

/// A law, and no work. Where components show the contents of a list, a run of them shows the same run of the contents, and
/// so do they once a component is put in place of the run, and what it shows in place of theirs.
pub fn runs_show_contents<F: Frozen>()
    ensures run { (run : OneRun) (components : List (ComponentState F)) (cs : List Content) → AllZip Shows components cs → AllZip Shows (in_run run components) (contents_in_run (neighbours run) cs) }
    ensures swapped { (run : OneRun) (components : List (ComponentState F)) (cs : List Content) (merged : ComponentState F) (c : Content) → run.first ≤ run.last → AllZip Shows components cs → Shows merged c
        → AllZip Shows (swapped run merged components) (contents_swapped (neighbours run) c cs) }
{}

/// A law, and no work. What `Component::load` answers for the file of a content is loaded of it. Components that are loaded
/// of contents show these, so that `find` gives what the contents have; and at the place that `find` gives for a key
/// stands the record of the key's live document, which is what `fetch` reads there, and no damage to it.
pub fn loaded_components_show_contents<F: Frozen>()
    ensures loaded { (component : ComponentState F) (c : Content) (bytes : List ℕ) → F.content component.file ≡ Some bytes → IsComponent c bytes → file_judged (name_of (head_of c)) bytes ≡ Ok component.index
        → IsLoadedOf F.content component c }
    ensures shown { (components : List (ComponentState F)) (cs : List Content) → AllZip (IsLoadedOf F.content) components cs → AllZip Shows components cs }
    ensures fetched { (part : Partition) (components : List (ComponentState F)) (cs : List Content) (key at : ℕ) (place : Place) → IsList part cs → AllZip (IsLoadedOf F.content) components cs
        → IsWhere components key (At at place) → HoldsLive F.content components cs key at place }
{
    components_are_contents();
}
