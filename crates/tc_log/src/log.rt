//! The log that is written.

ghost use Rattle.std.specs.Prelude.{◌≡◌, ◌↔◌, ◌<◌, ◌≤◌, ◌+◌, ◌-◌, ◌^◌, ◌++◌, [], List, true, false, length, IfOk, IfErr, OnOk, OnErr, IsErrOf};
ghost use Rattle.std.specs.List.{AllByRecursion};
ghost use Rattle.std.specs.Result.{IsErrAnd};
ghost use Rattle.tc_store.specs.Counted.{IsCounted};
ghost use Rattle.tc_store.specs.DiskFile.{settled_file, IsSettled};
ghost use Rattle.tc_store.specs.Gate.{IsShutOr, IsShutOrWhole};
ghost use Rattle.tc_store.specs.Images.{Image};
ghost use Rattle.tc_store.specs.Moments.{IfTold, LeavesAt, LeavesOnly};
ghost use Rattle.tc_log.specs.declared.head.LogHead.{LogHead as Head};
ghost use Rattle.tc_log.specs.declared.write.Write.{Write as OneWrite};
ghost use Rattle.tc_log.specs.Appending.{created, appended, MeansWithOrWithout, Appends};
ghost use Rattle.tc_log.specs.Frame.{with_closed_gate};
ghost use Rattle.tc_log.specs.Layout.{empty_size, number_end};
ghost use Rattle.tc_log.specs.Spelling.{body_bytes, frame_bytes, log_at_rest, Means};
ghost use Rattle.tc_log.specs.Writes.{IsWrite};

use crate::head::{LogHead, head_and_gate};
use crate::reserving::Frame;
use crate::write::Write;
use std::alloc::Global;
use std::marker::Model;
use tc_bytes::Memory;
use tc_store::{Broken, Device, DeviceFault, Gated};

/// A log that is being written. Contracts see its device, and whether an append failed. While none has, a stop leaves
/// the content of the device as it is.
#[derive(Drop)]
pub struct Log<D: Device> {
    device: D,
    failed: bool,
}

impl<D: Device> Model for Log<D> {
    ghost use Rattle.std.specs.Prelude.{◌≡◌, ◌≤◌, false};
    ghost use Rattle.tc_store.specs.Moments.{IfTold};
    ghost use Rattle.tc_log.specs.Appending.{LogState, IsAtRest};
    ghost use Rattle.tc_log.specs.Layout.{empty_size};

    ghost Value = { LogState D };

    ghost view = { λ l. record { device = l.device; failed = l.failed } };

    ghost invariant = { λ l. l.failed ≡ false → (empty_size ≤ D.size l.device) × IfTold (D.history l.device) IsAtRest };
}

impl<D: Device> Log<D> {
    /// Makes the file of a log without a frame, of 22 bytes. The generation is from 1 to 2^63 - 1. Takes no memory.
    pub fn create(device: D, watch: &mut D::Watch, head: LogHead) -> Result<Log<D>, Broken<D>>
        requires empty { D.size device ≡ 0 }
        requires first { 0 < head.generation }
        requires last { head.generation < number_end }

        ensures created { IfOk result (λ log. D.history log.device ≡ created head (D.history device)) }
        ensures content { IfOk result (λ log. IfTold (D.history log.device) (λ f. f ≡ settled_file (log_at_rest head []))) }
        ensures means { IfOk result (λ log. IfTold (D.history log.device) (λ f. IsSettled f × Means f.content head [])) }
        ensures size { IfOk result (λ log. D.size log.device ≡ empty_size) }
        ensures not_failed { IfOk result (λ log. log.failed ≡ false) }
        ensures name { IfOk result (λ log. D.name log.device ≡ D.name device) }
        ensures broken_name { IfErr result (λ broken. D.name broken.device ≡ D.name device) }

        // At each moment of the call the file is absent, closed, the one before, or whole behind an open gate.
        ensures moments { (before : Image) → IfTold (D.history device) (λ f. LeavesAt (IsShutOr before) f
            → IfOk result (λ log. LeavesOnly (IsShutOrWhole before (log_at_rest head [])) (D.history device) (D.history log.device))) }
        ensures broken_moments { (before : Image) → IfTold (D.history device) (λ f. LeavesAt (IsShutOr before) f
            → IfErr result (λ broken. LeavesOnly (IsShutOrWhole before (log_at_rest head [])) (D.history device) (D.history broken.device))) }
        ensures untold { IfErr result (λ broken. D.history device ≡ [] → D.history broken.device ≡ []) }

        ensures counted { IsCounted (IsErrAnd result (λ broken. broken.cause ≡ DeviceFault.Fault)) (D.Watch.counts watch.old) (D.Watch.counts watch.new) }
    {
        let mut gated = match Gated::begin(device, watch) {
            Ok(gated) => gated,
            Err(broken) => return Err(broken),
        };
        if let Err(cause) = gated.write(1, &head_and_gate(head), watch) {
            return Err(Broken {
                device: gated.give_back(),
                cause,
            });
        }
        match gated.open_gate(watch) {
            Ok(device) => Ok(Log {
                device,
                failed: false,
            }),
            Err(broken) => Err(broken),
        }
    }

    /// Makes the bytes of a frame of 1 to 4,096 writes, and writes nothing. Errs only for want of memory.
    pub fn reserve(&mut self, alloc: Global, writes: &[Write]) -> Result<Frame, Memory>
        requires some { 0 < length writes.now }
        requires few { length writes.now ≤ 4096 }
        requires lawful { AllByRecursion IsWrite writes.now }
        requires short { length (body_bytes writes.now) < 2 ^ 32 }

        ensures frame { IfOk result (λ frame. frame ≡ writes.now) }
        ensures same { self.new ≡ self.old }
    {
        Frame::of(alloc, writes)
    }

    /// Appends a frame by four device calls. On `Ok` each stop leaves the log with the frame. After an `Err` the log
    /// has failed, and only its device may be taken back.
    pub fn append(&mut self, frame: Frame, watch: &mut D::Watch) -> Result<(), DeviceFault>
        requires { self.old.failed ≡ false }

        ensures appended { OnOk result (D.history self.new.device ≡ appended (D.size self.old.device - 1) (with_closed_gate frame) (D.history self.old.device)) }
        ensures longer { OnOk result (D.size self.new.device ≡ D.size self.old.device + length (frame_bytes frame)) }
        ensures not_failed { OnOk result (self.new.failed ≡ false) }
        ensures failed { OnErr result (self.new.failed ≡ true) }
        ensures name { D.name self.new.device ≡ D.name self.old.device }

        // On Ok the frame is durable.
        ensures durable { OnOk result ((head : Head) (writes : List OneWrite) → IfTold (D.history self.old.device) (λ f. Means f.content head writes)
            → IfTold (D.history self.new.device) (λ f. IsSettled f × Means f.content head (writes ++ frame))) }

        // A stop at each moment of the call, and after it, leaves the log as it was, or with the whole frame.
        ensures moments { (head : Head) (writes : List OneWrite) → IfTold (D.history self.old.device) (λ f. Means f.content head writes)
            → LeavesOnly (MeansWithOrWithout head writes frame) (D.history self.old.device) (D.history self.new.device) }
        ensures after { (head : Head) (writes : List OneWrite) → IfTold (D.history self.old.device) (λ f. Means f.content head writes)
            → IfTold (D.history self.new.device) (LeavesAt (MeansWithOrWithout head writes frame)) }

        // A device that tells goes on to tell, behind an `Err` too.
        ensures tells { D.history self.new.device ≡ [] → D.history self.old.device ≡ [] }

        ensures counted { IsCounted (IsErrOf result DeviceFault.Fault) (D.Watch.counts watch.old) (D.Watch.counts watch.new) }
    {
        self.failed = true;
        write_frame(&mut self.device, frame.bytes(), watch)?;
        self.failed = false;
        Ok(())
    }

    /// The length of the file in bytes. Takes no memory.
    pub fn len(&self) -> u64
        ensures size { result ≡ D.size self.now.device }

        // While no append failed it is 22 exactly where the log has no write.
        ensures empty { self.now.failed ≡ false → IfTold (D.history self.now.device) (λ f. (head : Head) (writes : List OneWrite) → Means f.content head writes → (result ≡ empty_size) ↔ (writes ≡ [])) }
    {
        self.device.len()
    }

    /// The device, as it is. Where no append failed, nothing is pending on it.
    pub fn give_back(self) -> D
        ensures same { result ≡ self.device }
        ensures settled { self.failed ≡ false → IfTold (D.history result) IsSettled }
    {
        self.device
    }
}

/// Writes behind the closed gate that the file ends with, syncs, opens the gate, and syncs.
fn write_frame<D: Device>(
    device: &mut D,
    bytes: &[u8],
    watch: &mut D::Watch,
) -> Result<(), DeviceFault>
    requires some { 0 < D.size device.old }
    requires gate { 0 < length bytes.now }

    ensures appended { OnOk result (D.history device.new ≡ appended (D.size device.old - 1) bytes.now (D.history device.old)) }
    ensures longer { OnOk result (D.size device.new ≡ D.size device.old + length bytes.now) }
    ensures moments { (head : Head) (writes more : List OneWrite) → IfTold (D.history device.old) (Appends (MeansWithOrWithout head writes more) (D.size device.old - 1) bytes.now)
        → LeavesOnly (MeansWithOrWithout head writes more) (D.history device.old) (D.history device.new) }
    ensures name { D.name device.new ≡ D.name device.old }
    ensures counted { IsCounted (IsErrOf result DeviceFault.Fault) (D.Watch.counts watch.old) (D.Watch.counts watch.new) }
{
    let gate = device.len() - 1;
    device.write_at(gate + 1, bytes, watch)?;
    device.sync(watch)?;
    device.write_at(gate, &[1], watch)?;
    device.sync(watch)
}
