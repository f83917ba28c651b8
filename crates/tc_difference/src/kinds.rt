//! The kinds of values at two places.

ghost use Rattle.tc_difference.specs.Comparing.{IsFirstKind};

use tc_schema::Counts;
use tc_value::Kind;

/// The kinds by ascending tag.
const KINDS: [Kind; 6] = [
    Kind::Null,
    Kind::Bool,
    Kind::Int,
    Kind::Text,
    Kind::Array,
    Kind::Object,
];

/// The first kind of which there are not as many here as there.
pub fn first_kind(kept: &Counts, counted: &Counts) -> Option<Kind>
    ensures { IsFirstKind kept.now counted.now result }
{
    for kind in KINDS {
        if kept.of_kind(kind) != counted.of_kind(kind) {
            return Some(kind);
        }
    }
    None
}
