//! The interval of a component.

/// The generations of a component: the first, the last and those between.
#[derive(Clone, Copy, Debug, PartialEq, Eq)]
pub struct Interval {
    pub from: u64,
    pub to: u64,
}
