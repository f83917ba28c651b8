//! Neighbours in a list of components.

/// The components at these positions and those between.
#[derive(Clone, Copy, Debug, PartialEq, Eq)]
pub struct Run {
    pub first: usize,
    pub last: usize,
}
