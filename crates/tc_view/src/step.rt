//! A change with its place in the history, as it is handed to `left_right`.

use crate::change::Change;
use crate::mark::Mark;
use tc_store::Frozen;

/// A change, and how far the view is after it.
#[derive(Drop)]
pub struct Step<F: Frozen> {
    pub(crate) change: Change<F>,
    pub(crate) mark: Mark<F>,
}
