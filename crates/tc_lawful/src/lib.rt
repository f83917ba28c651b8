//! Layer 5, opening: when files that an opening reads are lawful, which it does not ask. There is no code here but laws,
//! which are functions that do nothing.
#![tactic(auto)]

mod audited;
mod files;
mod logs;

pub use audited::{audited_disks_are_lawful, loaded_files_hold};
pub use files::judged_files_are_lawful;
pub use logs::short_writes_are_stored;
