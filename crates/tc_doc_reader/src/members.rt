//! The members of an object, put into the byte order of their names.

ghost use Rattle.std.specs.Prelude.{◌≡◌, ◌<◌, length, map, IfSome, IsTrue};
ghost use Rattle.std.specs.List.Sorted.{IsPermutation};
ghost use Rattle.tc_model.specs.Tree.{members_of, no_members};
ghost use Rattle.std.specs.declared.cmp.Ordering.TheVariants.{Less};
ghost use Rattle.tc_model.specs.Document.{name_cmp, IsAscending};
ghost use Rattle.tc_value.specs.Meaning.{member_of};
ghost use Rattle.tc_doc_reader.specs.Tokens.{with_members};

use std::cmp::Ordering;
use tc_value::Member;

// Objects of fewer members have their order kept.
const KEPT: usize = 64;

// How many orders are kept.
const ROWS: usize = 64;

/// By which exchanges the members of objects came into order last, in a row by the depth of the object and the number of its
/// members. Objects of one kind, one behind the other, mostly have their members in the same order, so that the same
/// exchanges put the next one into order, and a comparison a member tells that they did.
#[derive(Drop)]
pub(crate) struct Orders {
    exchanges: [u8; 4096],
}

impl Orders {
    /// Before any object.
    pub(crate) fn new() -> Orders {
        Orders {
            exchanges: [0; 4096],
        }
    }

    // Exchanges members as those of the last object of the row.
    fn repeat(&self, found: &mut Vec<Member>, row: usize)
        requires { row < 64 }
        ensures { IsPermutation found.old.items found.new.items }
    {
        let mut at = 0;
        'members: while at < found.len() {
            self.exchange(found, row, at);
            at += 1;
        }
    }

    // Takes back what `repeat` did.
    fn take_back(&self, found: &mut Vec<Member>, row: usize)
        requires { row < 64 }
        ensures { IsPermutation found.old.items found.new.items }
    {
        let mut at = found.len();
        'members: while at > 0 {
            at -= 1;
            self.exchange(found, row, at);
        }
    }

    // Exchanges the member at a place with the one behind it that went there last.
    fn exchange(&self, found: &mut Vec<Member>, row: usize, at: usize)
        requires row { row < 64 }
        requires inside { at < length found.now.items }
        ensures { IsPermutation found.old.items found.new.items }
    {
        let count = found.len();
        if count >= KEPT {
            return;
        }
        let from = self.exchanges[row * KEPT + at] as usize;
        if at < from && from < count {
            found.swap(at, from);
        }
    }

    // Sorts members. Where they are few it keeps by which exchanges.
    fn sort(&mut self, found: &mut Vec<Member>, row: usize)
        requires { row < 64 }
        ensures { IsPermutation found.old.items found.new.items }
    {
        let count = found.len();
        if count >= KEPT {
            found.sort_unstable_by(|a, b| a.name.as_str().cmp(b.name.as_str()));
            return;
        }
        let mut at = 0;
        'members: while at < count {
            let from = least_from(found, at);
            found.swap(at, from);
            self.exchanges[row * KEPT + at] = from as u8;
            at += 1;
        }
    }
}

// The row of objects of so many members, by how many levels there may be below them.
fn row_of(count: usize, levels: u32) -> usize
    ensures { result < 64 }
{
    (count % ROWS + levels as usize % ROWS * 8) % ROWS
}

/// The members in the byte order of their names, or `None` where two have one name.
// Kept out of the loop that reads members, which would carry what is needed here from member to member.
#[inline(never)]
pub(crate) fn in_order(
    mut found: Vec<Member>,
    orders: &mut Orders,
    levels: u32,
) -> Option<Vec<Member>>
    ensures ascending { IfSome result (λ all. IsAscending (map member_of all.items)) }
    ensures put { IfSome result (λ all. members_of (map member_of all.items)
        ≡ with_members (map member_of found.items) no_members) }
{
    let row = row_of(found.len(), levels);
    orders.repeat(&mut found, row);
    if ascend(&found) {
        return Some(found);
    }
    orders.take_back(&mut found, row);
    orders.sort(&mut found, row);
    if ascend(&found) { Some(found) } else { None }
}

// Whether the names ascend.
fn ascend(found: &[Member]) -> bool
    ensures { IsTrue result → IsAscending (map member_of found.now) }
{
    let mut at = found.len();
    'names: while at > 1 {
        at -= 1;
        if !is_less(found[at - 1].name.as_str(), found[at].name.as_str()) {
            return false;
        }
    }
    true
}

// Whether a name is less than another. Mostly the first bytes tell it.
fn is_less(name: &str, other: &str) -> bool
    ensures { IsTrue result → name_cmp name.now other.now ≡ Less }
{
    let (first, second) = (name.as_bytes(), other.as_bytes());
    if !first.is_empty() && !second.is_empty() && first[0] < second[0] {
        return true;
    }
    match name.cmp(other) {
        Ordering::Less => true,
        Ordering::Equal | Ordering::Greater => false,
    }
}

// Which member from a place on has the least name.
fn least_from(found: &[Member], from: usize) -> usize
    requires { from < length found.now }
    ensures { result < length found.now }
{
    let mut least = from;
    let mut at = from;
    'names: while at < found.len() {
        match found[at].name.as_str().cmp(found[least].name.as_str()) {
            Ordering::Less => least = at,
            Ordering::Equal | Ordering::Greater => {}
        }
        at += 1;
    }
    least
}
