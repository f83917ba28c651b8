//! The seat of an engine: what it answered in a window stands beside it, and the frame that it wrote.

ghost use Rattle.std.specs.Prelude.{◌≡◌, false, map, OnOk};
ghost use Rattle.tc_route.specs.Meaning.{routed_of};
ghost use Rattle.tc_work.specs.Asked.{IsWindow};
ghost use Rattle.tc_work.specs.Committed.{HasFramed};
ghost use Rattle.tc_keeper.specs.Running.{HasRun};

use std::alloc::Global;
use std::mem;
use tc_log::Write;
use tc_route::{Replies, Routed};
use tc_running::Pace;
use tc_store::Store;
use tc_work::{Engine, EngineFault, Seen};

/// An engine, and its answer to its commands of a window with the frame that it wrote, until these are taken.
#[derive(Drop)]
pub(crate) struct Seat<S: Store, P: Pace> {
    pub(crate) engine: Engine<S, P>,
    pub(crate) answer: Result<Replies, EngineFault>,
    pub(crate) frame: Vec<Write>,
}

impl<S: Store, P: Pace> Seat<S, P> {
    /// A seat without an answer.
    pub(crate) fn of(alloc: Global, engine: Engine<S, P>) -> Seat<S, P>
        ensures { result.engine ≡ engine }
    {
        Seat {
            engine,
            answer: Ok(Replies::of(Vec::new(alloc))),
            frame: Vec::new(alloc),
        }
    }

    /// The engine, without its answer.
    pub(crate) fn into_engine(self) -> Engine<S, P>
        ensures { result ≡ self.engine }
    {
        let Seat { engine, .. } = self;
        engine
    }

    /// Answers these commands.
    pub(crate) fn run(&mut self, alloc: Global, list: &[Routed])
        requires sound { self.old.engine.part.failed ≡ false }
        requires window { IsWindow list.now }
        ensures ran { HasRun ⟦<S as Seen>⟧.eyes (map routed_of list.now) self.old.engine self.new.engine self.new.answer }
        ensures framed { OnOk self.new.answer (HasFramed ⟦<S as Seen>⟧.eyes (map routed_of list.now) self.old.engine self.new.engine self.new.frame.items) }
    {
        self.answer = self.engine.window(alloc, list, &mut self.frame);
    }

    /// The answer, which is taken.
    pub(crate) fn take_answer(&mut self, alloc: Global) -> Result<Replies, EngineFault>
        ensures answer { result ≡ self.old.answer }
        ensures same { self.new.engine ≡ self.old.engine }
    {
        mem::replace(&mut self.answer, Ok(Replies::of(Vec::new(alloc))))
    }

    /// The frame, which is taken whole.
    pub(crate) fn take_frame(&mut self, alloc: Global) -> Vec<Write>
        ensures frame { result ≡ self.old.frame }
        ensures same { (self.new.engine ≡ self.old.engine) × (self.new.answer ≡ self.old.answer) }
    {
        mem::replace(&mut self.frame, Vec::new(alloc))
    }
}
