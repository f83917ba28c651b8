//! Why an audit fails.

use thiserror::Error;

/// Why an audit came to no verdict.
#[derive(Clone, Copy, Debug, PartialEq, Eq, Error)]
pub enum AuditFault {
    #[error("a read failed")]
    Disk,
    #[error("no memory")]
    Memory,
}
