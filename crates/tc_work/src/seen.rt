//! What a store tells, in one word.

use tc_store::Store;

/// What a store, its devices, its files and its watches tell, together. Each store has it, and a contract quotes it.
pub trait Seen: Store {
    ghost use Rattle.tc_work.specs.Moving.{Eyes};

    ghost eyes: { Eyes Self Self.Device Self.Frozen Self.Watch };
}

impl<S: Store> Seen for S {
    ghost use Rattle.tc_work.specs.Moving.{eyes};

    ghost eyes = { eyes S.history S.Device.history S.Frozen.content S.Device.name S.Frozen.size S.Watch.counts };
}
