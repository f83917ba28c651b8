//! Layer 6, programs: what the programs of rows share: rows that are read and answered, arguments, short answers, and files in memory.
#![tactic(auto)]

mod answers;
mod arguments;
mod rows;
mod still_files;
mod stores;

pub use answers::{device_answer, digits, number, push_counts, store_fault, word};
pub use arguments::{bytes, name_and_argument, number_and_bytes, numbers, words};
pub use rows::{Answering, answer_calls, answer_rows};
pub use still_files::{gate, part_of, whole};
pub use stores::{failing, files_in, is_there, kit_over, store_with, taken, unfailing};
