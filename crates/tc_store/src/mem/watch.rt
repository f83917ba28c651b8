//! A watch in memory, which fails the calls that it is told to.

ghost use Rattle.std.specs.Prelude.{◌≡◌, true};
ghost use Rattle.tc_store.specs.Counted.{IsCounted, IsCountedRead};
ghost use Rattle.tc_store.specs.Memory.Watch.{counts_of, is_failing, after_call, after_fault, after_read};

use crate::watch::Watch;
use std::marker::Model;

/// Numbers, from 0, the store, device and frozen file calls that it is handed to, and fails those whose numbers are listed.
#[derive(Drop)]
pub struct MemWatch {
    failing: Vec<u64>,
    calls: u64,
    faults: u64,
    reads: u64,
}

impl Model for MemWatch {
    ghost use Rattle.tc_store.specs.Memory.Watch.{MemCounts};

    ghost Value = { MemCounts };

    ghost view = { λ w. record { failing = w.failing.items; calls = w.calls; faults = w.faults; reads = w.reads } };
}

impl MemWatch {
    /// A watch that fails the calls of these numbers. Takes no memory.
    pub fn new(failing: Vec<u64>) -> MemWatch
        ensures new { result ≡ record { failing = failing.items; calls = 0; faults = 0; reads = 0 } }
    {
        MemWatch {
            failing,
            calls: 0,
            faults: 0,
            reads: 0,
        }
    }

    /// Numbers a call, and tells whether it is to fail.
    pub(crate) fn call_fails(&mut self) -> bool
        ensures fails { result ≡ is_failing self.old }
        ensures numbered { self.new ≡ after_call self.old }
        ensures counted { IsCounted (result ≡ true) (counts_of self.old) (counts_of self.new) }
    {
        let fails = self.failing.contains(&self.calls);
        self.calls = self.calls.saturating_add(1);
        if fails {
            self.faults = self.faults.saturating_add(1);
        }
        fails
    }

    /// The same for a read.
    pub(crate) fn read_fails(&mut self) -> bool
        ensures fails { result ≡ is_failing self.old }
        ensures numbered { self.new ≡ after_read self.old }
        ensures counted { IsCountedRead (result ≡ true) (counts_of self.old) (counts_of self.new) }
    {
        self.reads = self.reads.saturating_add(1);
        self.call_fails()
    }

    /// Counts the fault of a call that cannot be done.
    pub(crate) fn add_fault(&mut self)
        ensures faults { self.new ≡ after_fault self.old }
        ensures counted { IsCounted (Unit {0}) (counts_of self.old) (counts_of self.new) }
    {
        self.faults = self.faults.saturating_add(1);
    }
}

impl Watch for MemWatch {
    ghost counts = { counts_of };

    fn faults(&self) -> u64 {
        self.faults
    }

    fn reads(&self) -> u64 {
        self.reads
    }
}
