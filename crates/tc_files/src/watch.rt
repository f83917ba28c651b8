//! The counts of a store over files, and why its last call failed.

ghost use Rattle.std.specs.Prelude.{◌≡◌, ◌↔◌, None, Some, true};
ghost use Rattle.tc_files.specs.Errors.{IsRefusedMemory};
ghost use Rattle.tc_store.specs.Counted.{IsCounted};

use std::io;
use std::io::ErrorKind;
use tc_store::{DeviceFault, StoreFault, Watch};

/// Counts the calls that failed, and the reads. It keeps the system's last error, which no fault has room for.
#[derive(Drop)]
pub struct FileWatch {
    pub(crate) faults: u64,
    pub(crate) reads: u64,
    last_error: Option<io::Error>,
}

impl FileWatch {
    ghost use Rattle.tc_files.specs.Watch.{counts_of, error_of};

    /// A watch that has counted nothing.
    pub(crate) fn new() -> FileWatch
        ensures counts { counts_of result ≡ record { faults = 0; reads = 0 } }
        ensures error { error_of result ≡ None }
    {
        FileWatch {
            faults: 0,
            reads: 0,
            last_error: None,
        }
    }

    /// Why the last call failed of those that failed by a fault. Takes no memory.
    pub fn last_error(&self) -> Option<io::Error>
        ensures { result ≡ error_of self.now }
    {
        self.last_error
    }

    /// Counts a call that failed.
    pub(crate) fn add_fault(&mut self, error: io::Error)
        ensures counted { IsCounted (Unit {0}) (counts_of self.old) (counts_of self.new) }
        ensures error { error_of self.new ≡ Some error }
    {
        self.last_error = Some(error);
        self.faults = self.faults.saturating_add(1);
    }

    /// What a call of a store answers after this error.
    pub(crate) fn store_fault(&mut self, error: io::Error) -> StoreFault
        ensures memory { (result ≡ StoreFault.Memory) ↔ IsRefusedMemory error }
        ensures same { result ≡ StoreFault.Memory → self.new ≡ self.old }
        ensures error { result ≡ StoreFault.Fault → error_of self.new ≡ Some error }
        ensures counted { IsCounted (result ≡ StoreFault.Fault) (counts_of self.old) (counts_of self.new) }
    {
        if is_refused_memory(&error) {
            return StoreFault::Memory;
        }
        self.add_fault(error);
        StoreFault::Fault
    }

    /// What a call of a device answers after this error.
    pub(crate) fn device_fault(&mut self, error: io::Error) -> DeviceFault
        ensures exact { result ≡ DeviceFault.Fault }
        ensures counted { IsCounted (Unit {0}) (counts_of self.old) (counts_of self.new) }
        ensures error { error_of self.new ≡ Some error }
    {
        self.add_fault(error);
        DeviceFault::Fault
    }
}

/// Whether an allocation of this program was refused.
pub(crate) fn is_refused_memory(error: &io::Error) -> bool
    ensures { (result ≡ true) ↔ IsRefusedMemory error.now }
{
    error.kind() == ErrorKind::OutOfMemory && error.raw_os_error().is_none()
}

impl Watch for FileWatch {
    ghost use Rattle.tc_files.specs.Watch.{counts_of};

    ghost counts = { counts_of };

    fn faults(&self) -> u64 {
        self.faults
    }

    fn reads(&self) -> u64 {
        self.reads
    }
}
