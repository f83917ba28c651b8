//! Which components are merged next.

ghost use Rattle.std.specs.Prelude.{◌≡◌, ◌<◌, ◌≤◌, ◌⊎◌, ◌↔◌, ℕ, None, length, drop, IfSome};
ghost use Rattle.std.specs.List.{sum};
ghost use Rattle.tc_list.specs.Policies.{listed_least, SuffixFits, IsLongest, IsPicked};

use crate::run::Run;

/// When the components of a partition are merged, and which of them. A merge always has two components or more, so a `k`
/// below 2 is as good as 2.
#[derive(Clone, Copy, Debug, PartialEq, Eq)]
pub enum Policy {
    /// All of them, once there are `k`.
    Constant { k: usize },
    /// Once there are `k`, as many of the newest as have at most `limit` bytes together, or else all.
    Sized { k: usize, limit: u64 },
}

impl Policy {
    /// The run to be merged, of components whose files have these lengths in bytes, the oldest first. Takes no memory.
    pub fn pick(&self, sizes: &[u64]) -> Option<Run>
        ensures none { result ≡ None ↔ (length sizes.now < listed_least self.now ⊎ length sizes.now < 2) }
        ensures picked { IfSome result (IsPicked self.now sizes.now) }
        ensures within { IfSome result (λ run. (run.first < run.last) × (run.last < length sizes.now)) }
    {
        if sizes.len() < self.listed_least() || sizes.len() < 2 {
            return None;
        }
        let first = match *self {
            Policy::Constant { .. } => 0,
            Policy::Sized { limit, .. } => longest_within(sizes, limit).unwrap_or(0),
        };
        Some(Run {
            first,
            last: sizes.len() - 1,
        })
    }

    fn listed_least(&self) -> usize
        ensures { result ≡ listed_least self.now }
    {
        match *self {
            Policy::Constant { k } | Policy::Sized { k, .. } => k,
        }
    }
}

/// Where the longest suffix of two sizes or more begins that sums to at most a limit.
fn longest_within(sizes: &[u64], limit: u64) -> Option<usize>
    ensures some { IfSome result (IsLongest limit sizes.now) }
    ensures none { result ≡ None → (first : ℕ) → SuffixFits limit sizes.now first → ⊥ }
{
    let first = first_within(sizes, limit);
    if sizes.len() - first < 2 {
        return None;
    }
    Some(first)
}

/// Where the longest suffix begins that sums to at most a limit, and be it empty.
fn first_within(sizes: &[u64], limit: u64) -> usize
    ensures within { result ≤ length sizes.now }
    ensures fits { sum (drop result sizes.now) ≤ limit }
    ensures longest { (first : ℕ) → sum (drop first sizes.now) ≤ limit → result ≤ first }
{
    let mut room = limit;
    let mut rest = sizes;
    while let Some((newest, older)) = rest.split_last() {
        match room.checked_sub(*newest) {
            Some(left) => room = left,
            None => return rest.len(),
        }
        rest = older;
    }
    0
}
