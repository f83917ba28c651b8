//! Layer 5, opening: what the files that a stop left of a partition are taken for. All are taken and their headers judged,
//! the components that count are chosen and loaded, the logs above them read, and the files that nobody needs removed. Lawful
//! files are refused nothing, and what they hold is read.
#![tactic(auto)]

mod cause;
mod gates;
mod heads;
mod interval;
mod laws;
mod listing;
mod loading;
mod logs;
mod reading;
mod removing;
mod sorting;
mod taken;
mod tiling;

pub use cause::FilesCause;
pub use gates::take_all;
pub use heads::{Partition, judge_heads};
pub use interval::Interval;
pub use laws::lawful_files_are_read;
pub use loading::{Loaded, load_components};
pub use logs::read_logs;
pub use reading::{FilesRead, read_files, read_taken};
pub use removing::remove_needless;
pub use sorting::{last_of, sort_files};
pub use taken::Taken;
