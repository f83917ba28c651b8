//! A law of what a flush begins with.

ghost use Rattle.std.specs.Prelude.{◌≡◌, [], List};
ghost use Rattle.std.specs.List.{AllZip};
ghost use Rattle.tc_component.specs.Loading.{ComponentState};
ghost use Rattle.tc_component.specs.Rows.{IsIndexOf};
ghost use Rattle.tc_lsm_model.specs.Contents.{Content};
ghost use Rattle.tc_lsm_model.specs.Lists.{names_of, schema_of};
ghost use Rattle.tc_merge.specs.Merging.{newest_names, newest_schema};
ghost use Rattle.tc_schema_model.specs.Counted.{nothing};

use tc_store::Frozen;

/// A law, and no work. Where components have beside their records what contents have, their newest names and schema are those
/// of the contents.
pub fn inputs_are_newest<F: Frozen>()
    ensures names { (components : List (ComponentState F)) (cs : List Content) → AllZip (λ m c. IsIndexOf m.index c) components cs → newest_names [] components ≡ names_of cs }
    ensures schema { (components : List (ComponentState F)) (cs : List Content) → AllZip (λ m c. IsIndexOf m.index c) components cs → newest_schema nothing components ≡ schema_of cs }
{}
