//! What a partition takes.

/// How many names a partition takes, how many documents it stores, and how many bytes of log make a memory table be
/// sealed.
#[derive(Clone, Copy, Debug, PartialEq, Eq)]
pub struct Limits {
    pub names: u32,
    pub docs: u32,
    pub memory: u64,
}
