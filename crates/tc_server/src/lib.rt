//! Layer 6, programs: the server, which reads lines, answers them from the store, and writes the replies.
#![tactic(auto)]

mod answer;
mod closing;
mod demo;
mod laws;
mod opening;
mod outcome;
mod program;
mod server;
mod session;
mod texts;
mod window;

pub use laws::{good_runs_end_well, own_keys_stay, runs_may_follow};
pub use outcome::Served;
pub use program::{run_program, words};
pub use server::serve;
pub use tc_keeper::RunFault;
pub use texts::fault_text;
