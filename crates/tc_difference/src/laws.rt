//! A law of the definitions that the contracts of differences cite.

ghost use Rattle.std.specs.Prelude.{◌≡◌, ℕ};
ghost use Rattle.tc_model.specs.Kinds.{Kind};
ghost use Rattle.tc_schema_model.specs.Occurrences.{Path};
ghost use Rattle.tc_difference.specs.Differences.{Difference, IsFirst};

/// A law, and no work: two counts have one first difference, if they have one.
pub fn one_is_first()
    ensures { (kept counted : Path → Kind → ℕ) (x y : Difference) → IsFirst kept counted x → IsFirst kept counted y → x ≡ y }
{}
