//! Where a path of names leads in a record whose members carry numbers. Its tags and its numbers tell, so that in records which
//! have both alike it leads to the same place.

ghost use Rattle.std.specs.Prelude.{◌≡◌, ◌∷◌, ◌++◌, ℕ, List, None, IfOk, IfSome};
ghost use Rattle.tc_model.specs.Document.{Scalar};
ghost use Rattle.tc_model.specs.Tree.{Members};
ghost use Rattle.tc_record.specs.Borrowed.{numbered_tokens};
ghost use Rattle.tc_record.specs.Preorder.{Token as TreeToken, token, closed, tokens_of, members_preorder};
ghost use Rattle.tc_record.specs.Record.{NumberedTree};
ghost use Rattle.tc_path.specs.Leads.{AreHops, kinds_in, members_kinds, lead_from as led_from, lead_among as led_among};
ghost use Rattle.tc_path.specs.Trails.{IsTrailOf, IsTaken};

use crate::trail::{CLOSE_TAG, OBJECT_TAG, Trail, pass_value};
use std::alloc::{AllocError, Global};
use tc_command::{Hop, PathExpr};
use tc_names::Names;
use tc_record::RecordRef;

/// Where a path leads in a record.
#[derive(Clone, Copy, Debug, PartialEq, Eq)]
pub enum Lead {
    /// That was not looked at.
    Unknown,
    /// To no value.
    Nowhere,
    To(Spot),
}

/// Where a value stands in a record: its tag, and how many texts and how many bytes of values of fixed size stand before it.
#[derive(Clone, Copy, Debug, PartialEq, Eq)]
pub struct Spot {
    pub tag: u8,
    pub texts: usize,
    pub fixed: usize,
}

/// A number that no name of a dictionary has.
const NO_NAME: u32 = 0xFFFF_FFFF;

/// The hops of a path by the numbers of their names, or `None` where a hop goes by no name. Errs only for want of memory.
pub fn hops_of(
    alloc: Global,
    path: &PathExpr,
    names: &Names,
) -> Result<Option<Vec<u32>>, AllocError>
    ensures { IfOk result (λ hops. IfSome hops (λ numbers. AreHops names.now path.now numbers.items)) }
{
    let mut numbers = Vec::new(alloc);
    for hop in path.as_slice() {
        match hop {
            Hop::Name(name) => numbers.push(names.id_of(name.as_str()).unwrap_or(NO_NAME))?,
            Hop::At(_) => return Ok(None),
            Hop::Any => return Ok(None),
        }
    }
    Ok(Some(numbers))
}

/// Where hops lead in a record without names. Takes no memory, and looks at no value.
pub fn lead_of(of: &RecordRef<'_>, hops: &[u32]) -> Lead
    ensures { (n : NumberedTree) → of.now.tokens ≡ numbered_tokens n → result ≡ led_from hops.now (kinds_in n) 0 0 }
{
    let mut trail = Trail::of(of);
    match trail.tag() {
        None => Lead::Nowhere,
        Some(tag) => lead_from(&mut trail, tag, hops),
    }
}

/// Where hops lead from the value whose first tag was taken.
#[cycle(leading)]
fn lead_from(trail: &mut Trail<'_>, tag: u8, hops: &[u32]) -> Lead
    ensures { (n : NumberedTree) (more : List (TreeToken ℕ Scalar)) → IsTaken tag (tokens_of n ++ more) trail.old → result ≡ led_from hops.now (kinds_in n) trail.old.texts trail.old.fixed }
{
    match hops {
        [] => Lead::To(trail.spot(tag)),
        [hop, rest @ ..] => if tag == OBJECT_TAG {
            lead_among(trail, *hop, rest)
        } else {
            Lead::Nowhere
        },
    }
}

/// Where hops lead from the object that was opened: to its first member of a number, and from there on.
#[cycle(leading)]
fn lead_among(trail: &mut Trail<'_>, hop: u32, rest: &[u32]) -> Lead
    ensures { (ms : Members ℕ Scalar) (more : List (TreeToken ℕ Scalar)) → IsTrailOf (members_preorder ms ++ token None closed ∷ more) trail.old → result ≡ led_among hop rest.now (members_kinds ms) trail.old.texts trail.old.fixed }
{
    while let Some(tag) = trail.tag() {
        if tag == CLOSE_TAG {
            return Lead::Nowhere;
        }
        if trail.number() == hop {
            return lead_from(trail, tag, rest);
        }
        pass_value(trail, tag);
    }
    Lead::Nowhere
}
