//! Layer 0, meaning: runs over partitions, the replies to lines, the windows in which they are answered, and how far a
//! run comes. There is no code here, and laws alone; the contract of the server is stated in these words.
#![tactic(auto)]

mod laws;

pub use laws::{replies_have_kinds, windows_are_cut, worlds_stand_on_writes};
