//! Layer 3, files: the components of a partition as a list, and where the newest entry of a key stands in it.
#![tactic(auto)]

mod laws;
mod list;
mod policy;
mod run;
mod whereabouts;

pub use laws::{loaded_components_show_contents, runs_show_contents};
pub use list::ComponentList;
pub use policy::Policy;
pub use run::Run;
pub use whereabouts::Whereabouts;
