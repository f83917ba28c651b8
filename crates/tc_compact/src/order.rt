//! Whether the names of an object ascend.

ghost use Rattle.std.specs.Prelude.{◌≡◌, IfSome, IfNone, None, map, option_map};
ghost use Rattle.tc_model.specs.Document.{IsAscending};
ghost use Rattle.tc_value.specs.Meaning.{member_of};
ghost use Rattle.tc_value.specs.ShapeMeaning.{shape_member};
ghost use Rattle.tc_record.specs.Walk.{is_above as stands_above};
ghost use Rattle.tc_compact.specs.Meant.{ascend_behind};

use tc_record::precedes;
use tc_value::{Member, Members, ShapeMember, ShapeMembers};

/// The members of an object's shape, or `None` where their names do not ascend.
pub(crate) fn ordered_shapes(members: Vec<ShapeMember>) -> Option<ShapeMembers>
    ensures some { IfSome result (λ ordered. ordered ≡ map shape_member members.items) }
    ensures ascending { IfSome result IsAscending }
    ensures none { IfNone result (IsAscending (map shape_member members.items) → ⊥) }
{
    if shapes_ascend(members.as_slice()) {
        Some(ShapeMembers::of(members))
    } else {
        None
    }
}

/// The members of an object, or `None` where their names do not ascend.
pub(crate) fn ordered_members(members: Vec<Member>) -> Option<Members>
    ensures some { IfSome result (λ ordered. ordered ≡ map member_of members.items) }
    ensures ascending { IfSome result IsAscending }
    ensures none { IfNone result (IsAscending (map member_of members.items) → ⊥) }
{
    if members_ascend(members.as_slice()) {
        Some(Members::of(members))
    } else {
        None
    }
}

fn members_ascend(members: &[Member]) -> bool
    ensures { result ≡ ascend_behind None (map (λ m. m.name) members.now) }
{
    let mut last = None;
    for member in members {
        let name = member.name.as_str();
        if !is_above(last, name) {
            return false;
        }
        last = Some(name);
    }
    true
}

fn shapes_ascend(members: &[ShapeMember]) -> bool
    ensures { result ≡ ascend_behind None (map (λ m. m.name) members.now) }
{
    let mut last = None;
    for member in members {
        let name = member.name.as_str();
        if !is_above(last, name) {
            return false;
        }
        last = Some(name);
    }
    true
}

/// Whether a name stands above the one before it, if there is one.
#[inline(always)]
pub(crate) fn is_above(last: Option<&str>, name: &str) -> bool
    ensures { result ≡ stands_above (option_map (λ n. n.now) last.entry) name.now }
{
    match last {
        None => true,
        Some(before) => precedes(before, name),
    }
}
