//! Layer 4, partition: the machine of one partition, which is its state and the events that change it, and what holds at
//! every moment. There is no code here but laws, which are functions that do nothing.
#![tactic(auto)]

mod files;
mod memory;
mod runs;
mod stops;

pub use files::{calls_are_moments, names_are_free};
pub use memory::{memory_is_kept, stored_stays};
pub use runs::{events_keep, every_run_is_sound, kept_is_sound, openings_are_kept};
pub use stops::{
    idle_states_open_as_they_are, listed_are_maximal, pictures_open_one_way, stops_keep_stored,
};
