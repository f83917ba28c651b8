//! Whether what two schemas count can be counted together. Nothing here takes memory.

ghost use Rattle.std.specs.Prelude.{◌≡◌, ◌↔◌, ◌+◌, ◌<◌, ◌^◌, IsTrue, List, length};
ghost use Rattle.tc_model.specs.Dictionary.{IsDictionary};
ghost use Rattle.tc_model.specs.Document.{Name};
ghost use Rattle.tc_schema_model.specs.Counted.{field_at, held, total_at, IsCanonical, IsOrdered, IsBelowOrdered, AreFieldsOrdered};
ghost use Rattle.tc_schema_model.specs.Occurrences.{Path};
ghost use Rattle.tc_schema.specs.Places.{place_counted, below_counted, field_counted, fields_counted};
ghost use Rattle.tc_infer.specs.Together.{do_fit, do_items_fit, do_all_fit};

use tc_schema::{Field, Node, Schema, search_fields};

/// Whether no path has 2^64 values or more in two schemas together.
pub fn fit_together(one: &Schema, other: &Schema) -> bool
    ensures { (names : List Name) → IsDictionary names → IsCanonical (length names) one.now → IsCanonical (length names) other.now → IsTrue result ↔ ((path : Path) → total_at names one.now path + total_at names other.now path < 2 ^ 64) }
{
    // no path has more than the greatest of each
    if one.greatest() <= u64::MAX - other.greatest() {
        return true;
    }
    do_places_fit(one.root(), other.root())
}

/// Whether there is room for both places, and for both from there on. One that counts nothing takes no room.
#[cycle(together)]
fn do_places_fit(one: &Node, other: &Node) -> bool
    requires ordered { IsOrdered (place_counted other.now) }
    ensures { result ≡ do_fit (place_counted one.now) (place_counted other.now) }
{
    let total = other.counts.total();
    if total == 0 {
        return true;
    }
    if one.counts.total() > u64::MAX - total {
        return false;
    }
    do_items_below_fit(&one.item, &other.item)
        && do_fields_fit(one.fields.as_slice(), other.fields.as_slice())
}

#[cycle(together)]
fn do_items_below_fit(one: &Option<Box<Node>>, other: &Option<Box<Node>>) -> bool
    requires ordered { IsBelowOrdered (below_counted other.now) }
    ensures { result ≡ do_items_fit (below_counted one.now) (below_counted other.now) }
{
    match one {
        None => true,
        Some(place) => does_item_fit(place, other),
    }
}

#[cycle(together)]
fn does_item_fit(one: &Node, other: &Option<Box<Node>>) -> bool
    requires ordered { IsBelowOrdered (below_counted other.now) }
    ensures { result ≡ do_fit (place_counted one.now) (held (below_counted other.now)) }
{
    match other {
        None => true,
        Some(place) => do_places_fit(one, place),
    }
}

#[cycle(together)]
fn do_fields_fit(ones: &[Field], others: &[Field]) -> bool
    requires ordered { AreFieldsOrdered 0 (fields_counted others.now) }
    ensures { result ≡ do_all_fit (fields_counted ones.now) (fields_counted others.now) }
{
    for one in ones {
        if !does_field_fit(one, others) {
            return false;
        }
    }
    true
}

#[cycle(together)]
fn does_field_fit(one: &Field, others: &[Field]) -> bool
    requires ordered { AreFieldsOrdered 0 (fields_counted others.now) }
    ensures { result ≡ do_fit (field_counted one.now).1 (field_at (field_counted one.now).0 (fields_counted others.now)) }
{
    match search_fields(others, one.number) {
        Ok(at) => do_places_fit(&one.node, &others[at].node),
        Err(_) => true,
    }
}
