//! The first difference between two schemas.

ghost use Rattle.std.specs.Prelude.{◌≡◌, List, length, IfOk, IfSome, IfNone};
ghost use Rattle.tc_model.specs.Document.{Document};
ghost use Rattle.tc_schema_model.specs.Counted.{IsCanonical};
ghost use Rattle.tc_schema_model.specs.Stands.{StandsFor};
ghost use Rattle.tc_difference.specs.Differences.{IsFirstBetween, IsFirstDifference};
ghost use Rattle.tc_difference.specs.Found.{found_meant};

use crate::comparing::compare;
use crate::found::Found;
use std::alloc::Global;
use tc_bytes::Memory;
use tc_names::Names;
use tc_schema::{Node, Schema};

/// The first path and kind at which two schemas under one dictionary show different numbers. A path stands before those
/// that go on from it, items before members, and members by their names' bytes; at one path kinds stand by their tags.
/// `None` comes exactly where the schemas are one. Each place of both is looked at once at most, and where nothing differs
/// no memory is taken. Errs only for want of memory.
pub fn first_difference(
    alloc: Global,
    kept: &Schema,
    counted: &Schema,
    names: &Names,
) -> Result<Option<Found>, Memory>
    requires kept { IsCanonical (length names.now) kept.now }
    requires counted { IsCanonical (length names.now) counted.now }
    ensures none { IfOk result (λ found. IfNone found (kept.now ≡ counted.now)) }
    ensures first { IfOk result (λ found. IfSome found (λ x. IsFirstBetween names.now kept.now counted.now (found_meant x))) }
    ensures documents { IfOk result (λ found. IfSome found (λ x. (docs : List Document) → StandsFor names.now counted.now docs → IsFirstDifference names.now kept.now docs (found_meant x))) }
{
    // that the names are distinct
    let _known = names.len();
    let empty = Node::new(alloc);
    match compare(kept.root(), counted.root(), &empty, names, alloc)? {
        Some(met) => Ok(Some(met.told(names, alloc)?)),
        None => Ok(None),
    }
}
