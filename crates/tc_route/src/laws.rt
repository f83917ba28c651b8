//! The law of windows that are shared out.

ghost use Rattle.tc_route.specs.Answers.{AreGathered, AreKindsGathered};
ghost use Rattle.tc_route.specs.Gathered.{AreRenderedGathered};

/// The law that the replies of partitions, each to its share of a window and in the order of that, put together are the
/// replies of the world to the window, in the window's order.
pub fn replies_are_gathered()
    ensures { AreGathered }
{}

/// The law that what partitions may reply where nothing is known of what they store, put together, may be replied to the window.
pub fn kinds_are_gathered()
    ensures { AreKindsGathered }
{}

/// The law that what replies render, put together, is what the replies render that are put together.
pub fn rendered_are_gathered()
    ensures { AreRenderedGathered }
{}
