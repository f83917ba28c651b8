//! The traits of sources and sinks of bytes, and writing all of a piece.

ghost use Rattle.std.specs.Prelude.{◌≡◌, ℕ, ◌<◌, List, Option, Ok, length, take, OnOk, OnErr, IfOk, IfErr};
ghost use Rattle.std.specs.Io.{ReadsAtMost, WritesAtMost};
ghost use Rattle.std.specs.Io.KnownBytes.{Appends, ReadConsumes, WriteAppends};
ghost use Rattle.tc_edge.specs.Faults.{HasCause};
ghost use Rattle.tc_edge.specs.Moments.{Moment, one_read, with_further};
ghost use Rattle.tc_bytes.specs.Counts.{Rose};

use thiserror::Error;

/// A read or a write failed. The source or the sink has counted it.
#[derive(Clone, Copy, Debug, PartialEq, Eq, Error)]
#[error("a read or a write failed")]
pub struct EdgeFault;

/// Bytes that come in, read beside a sink. A read borrows the sink as it stands, so that a source
/// can tell what had been accepted when its bytes were asked for.
pub trait Source<O: Sink> {
    /// The bytes that are left, where they are told.
    ghost left: { Self → Option (List ℕ) };

    /// How many calls failed. The count never falls, and stands still at 2^64 - 1.
    ghost faults: { Self → ℕ };

    /// The reads that did not fail, the newest first, where they are told. A source that keeps them
    /// in memory may thus fail where it is refused.
    ghost moments: { Self → Option (List Moment) };

    /// Moves the next bytes to the front of `into`. `Ok(0)` for a place that is not empty is the
    /// end of the input. An `Err` takes no byte.
    fn read(&mut self, into: &mut [u8], beside: &O) -> Result<usize, EdgeFault>
        ensures bound { ReadsAtMost result into.new }
        ensures bytes { ReadConsumes (left self.old) (left self.new) result into.new }
        ensures cause { HasCause (faults self.old) (faults self.new) result }
        ensures told { IfOk result (λ n. moments self.new
            ≡ with_further (one_read (O.taken beside.now) (take n into.new)) (moments self.old)) }
        ensures untold { OnErr result (moments self.new ≡ moments self.old) };
}

/// Bytes that go out.
pub trait Sink {
    /// The bytes that were taken, where they are told.
    ghost taken: { Self → Option (List ℕ) };

    /// How many calls failed. The count never falls, and stands still at 2^64 - 1.
    ghost faults: { Self → ℕ };

    /// Takes the first bytes of `from`, and answers how many. An `Err` takes no byte. To take none
    /// of a piece that is not empty is a fault too.
    fn write(&mut self, from: &[u8]) -> Result<usize, EdgeFault>
        ensures bound { WritesAtMost result from.now }
        ensures bytes { WriteAppends (taken self.old) (taken self.new) result from.now }
        ensures cause { HasCause (faults self.old) (faults self.new) result }
        ensures none { result ≡ Ok 0 → 0 < length from.now → Rose (faults self.old) (faults self.new) };
}

/// A write failed after the sink had taken this many bytes of what it was given.
#[derive(Clone, Copy, Debug, PartialEq, Eq, Error)]
#[error("a write failed after {taken} bytes")]
pub struct WriteFault {
    pub taken: u64,
}

/// Has the sink take all the bytes, in as many calls as it asks for.
pub fn write_all<O: Sink>(sink: &mut O, bytes: &[u8]) -> Result<(), WriteFault>
    ensures ok { OnOk result (Appends (O.taken sink.old) (O.taken sink.new) bytes.now) }
    ensures within { IfErr result (λ fault. fault.taken < length bytes.now) }
    ensures err { IfErr result
        (λ fault. Appends (O.taken sink.old) (O.taken sink.new) (take fault.taken bytes.now)) }
    ensures cause { HasCause (O.faults sink.old) (O.faults sink.new) result }
{
    let mut taken = 0;
    while taken < bytes.len() {
        match sink.write(&bytes[taken..]) {
            Ok(0) | Err(_) => {
                return Err(WriteFault {
                    taken: taken as u64,
                });
            }
            Ok(count) => taken += count,
        }
    }
    Ok(())
}
