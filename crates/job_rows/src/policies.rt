//! Which components a policy picks.

use std::alloc::Global;
use tc_list::Policy;
use tc_rows::{numbers, word};

/// What `Constant` picks: its number, and the sizes of the listed components.
pub(crate) fn constant(alloc: Global, argument: &str) -> Option<String> {
    let numbers = numbers(alloc, argument)?;
    let [k, sizes @ ..] = numbers.as_slice() else {
        return None;
    };
    let k = usize::try_from(*k).ok()?;
    picked(alloc, Policy::Constant { k }, sizes)
}

/// What `Sized` picks: its number, its limit, and the sizes.
pub(crate) fn sized(alloc: Global, argument: &str) -> Option<String> {
    let numbers = numbers(alloc, argument)?;
    let [k, limit, sizes @ ..] = numbers.as_slice() else {
        return None;
    };
    let (k, limit) = (usize::try_from(*k).ok()?, *limit);
    picked(alloc, Policy::Sized { k, limit }, sizes)
}

fn picked(alloc: Global, policy: Policy, sizes: &[u64]) -> Option<String> {
    match policy.pick(sizes) {
        Some(run) => format!(in alloc; "{} to {}", run.first, run.last).ok(),
        None => word(alloc, "none"),
    }
}
