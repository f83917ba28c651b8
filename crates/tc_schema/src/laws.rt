//! Laws of the definitions that the contracts of schemas cite.

ghost use Rattle.std.specs.Prelude.{◌≡◌, ◌↔◌, ◌+◌, ◌<◌, ◌≤◌, ◌^◌, ℕ, All, List, length, bytes_eq};
ghost use Rattle.std.specs.List.{IsDistinct};
ghost use Rattle.tc_model.specs.Document.{Name, Document, ShapeTree};
ghost use Rattle.tc_model.specs.Limits.{max_depth};
ghost use Rattle.tc_model.specs.Tree.{depth};
ghost use Rattle.tc_model.specs.TreeSize.{tree_size};
ghost use Rattle.tc_schema_model.specs.Occurrences.{Path};
ghost use Rattle.tc_schema_model.specs.Counted.{Counted, IsCanonical, HasSmallCounters, documents_of, total_at};
ghost use Rattle.tc_schema_model.specs.Levels.{IsShallow};
ghost use Rattle.tc_schema_model.specs.SchemaTree.{SchemaNode, node_of, schema_tree, IsCanonicalNode, IsCanonicalTree};
ghost use Rattle.tc_schema_model.specs.Stands.{StandsFor};
ghost use Rattle.tc_schema_model.specs.Values.{values_at};

/// A law, and no work. What is counted in the one form makes a tree in the one form, and every tree in the one form is
/// made so.
pub fn trees_have_one_form()
    ensures made { (limit : ℕ) (d : Counted) → IsCanonical limit d → IsCanonicalTree limit (schema_tree d) }
    ensures each { (limit : ℕ) (t : SchemaNode) → IsCanonicalNode limit t → (d : Counted) × IsCanonical limit d × (0 < documents_of d) × (node_of d ≡ t) }
{}

/// A law, and no work. Each place counts fewer than 2^64 values exactly where each path does.
pub fn counters_are_small()
    ensures { (names : List Name) (d : Counted) → IsDistinct bytes_eq names → IsCanonical (length names) d → HasSmallCounters d ↔ ((path : Path) → total_at names d path < 2 ^ 64) }
{}

/// A law, and no work. A schema of fewer than 2^32 documents has room for one more at each path, where each of them and
/// the one more have fewer than 2^32 values.
pub fn counters_fit()
    ensures { (names : List Name) (d : Counted) (docs : List Document) (s : ShapeTree) → StandsFor names d docs → length docs < 2 ^ 32 → All (λ doc. tree_size doc < 2 ^ 32) docs → tree_size s < 2 ^ 32 → (path : Path) → total_at names d path + values_at s path < 2 ^ 64 }
{}

/// A law, and no work. Documents that nest no deeper than they may have a schema that nests no deeper than it may.
pub fn schemas_are_shallow()
    ensures { (names : List Name) (d : Counted) (docs : List Document) → StandsFor names d docs → All (λ doc. depth doc ≤ max_depth) docs → IsShallow d }
{}
