//! What is found in a list of components.

use tc_component::Place;

/// Where the document of a key is: nowhere, or in the component at a position of the list, at a place there.
#[derive(Clone, Copy, Debug, PartialEq, Eq)]
pub enum Whereabouts {
    Absent,
    At { component: usize, place: Place },
}
