//! The gate: byte 0 of a file, which is synced as 0 before anything else is written, and becomes 1 once all else is synced.

ghost use Rattle.std.specs.Prelude.{◌≡◌, ◌<◌, ◌≤◌, ◌+◌, ◌^◌, [], ◌∷◌, length, max, false, Ok, OnOk, IfOk, IfErr, IfSome, IsErr, IsErrOf};
ghost use Rattle.std.specs.Result.{IsErrAnd};
ghost use Rattle.tc_store.specs.Counted.{IsCounted, IsCountedRead};
ghost use Rattle.tc_store.specs.DiskFile.{written, synced_file};
ghost use Rattle.tc_store.specs.Gate.{is_open_file, opened, IsShutOr, IsClosed, IsClosedOrWhole};
ghost use Rattle.tc_store.specs.Images.{Image};
ghost use Rattle.tc_store.specs.Moments.{goes_on, IfTold, FailsWriting, LeavesAt, LeavesOnly};

use crate::device::Device;
use crate::fault::{DeviceFault, FrozenFault};
use crate::frozen::Frozen;
use crate::watch::Watch;
use std::marker::Model;

/// What is left of a device after a call that failed and took it.
#[derive(Drop)]
pub struct Broken<D: Device> {
    pub device: D,
    pub cause: DeviceFault,
}

/// A device whose file is closed, and stays so whatever a stop leaves, until its gate is opened. Contracts see the device.
#[derive(Drop)]
pub struct Gated<D: Device> {
    device: D,
}

impl<D: Device> Model for Gated<D> {
    ghost use Rattle.tc_store.specs.Gate.{IsGateShut};
    ghost use Rattle.tc_store.specs.Moments.{IfTold};

    ghost Value = { D };

    ghost view = { λ g. g.device };

    ghost invariant = { λ g. IfTold (D.history g.device) IsGateShut };
}

impl<D: Device> Gated<D> {
    /// Writes the gate as 0 and syncs it.
    pub fn begin(device: D, watch: &mut D::Watch) -> Result<Gated<D>, Broken<D>>
        requires { D.size device ≡ 0 }

        ensures begun { IfOk result (λ gated. D.history gated ≡ goes_on synced_file (goes_on (written 0 (0 ∷ [])) (D.history device))) }
        ensures size { IfOk result (λ gated. D.size gated ≡ 1) }
        ensures name { IfOk result (λ gated. D.name gated ≡ D.name device) }
        ensures broken_name { IfErr result (λ broken. D.name broken.device ≡ D.name device) }

        // At each moment of the call the file is absent, closed, or the one before.
        ensures moments { (before : Image) → IfTold (D.history device) (LeavesAt (IsShutOr before))
            → IfOk result (λ gated. LeavesOnly (IsShutOr before) (D.history device) (D.history gated)) }
        ensures broken_moments { (before : Image) → IfTold (D.history device) (LeavesAt (IsShutOr before))
            → IfErr result (λ broken. LeavesOnly (IsShutOr before) (D.history device) (D.history broken.device)) }

        ensures counted { IsCounted (IsErrAnd result (λ broken. broken.cause ≡ DeviceFault.Fault)) (D.Watch.counts watch.old) (D.Watch.counts watch.new) }
    {
        let mut device = device;
        if let Err(cause) = device.write_at(0, &[0], watch) {
            return Err(Broken { device, cause });
        }
        match device.sync(watch) {
            Ok(()) => Ok(Gated { device }),
            Err(cause) => Err(Broken { device, cause }),
        }
    }

    /// Writes behind the gate.
    pub fn write(&mut self, at: u64, bytes: &[u8], watch: &mut D::Watch) -> Result<(), DeviceFault>
        requires behind_gate { 0 < at }
        requires within { at ≤ D.size self.old }

        ensures written { OnOk result (D.history self.new ≡ goes_on (written at bytes.now) (D.history self.old)) }
        ensures longer { OnOk result (D.size self.new ≡ max (D.size self.old) (at + length bytes.now)) }
        ensures failed { IsErrOf result DeviceFault.Fault → FailsWriting at (length bytes.now) (D.history self.old) (D.history self.new) }
        ensures no_memory { IsErrOf result DeviceFault.Memory → D.history self.new ≡ D.history self.old }
        ensures same_size { IsErrOf result DeviceFault.Memory → D.size self.new ≡ D.size self.old }
        ensures too_far { 2 ^ 63 ≤ at + length bytes.now → IsErr result }
        ensures name { D.name self.new ≡ D.name self.old }

        // At each moment of the call the file is there, and closed.
        ensures moments { LeavesOnly IsClosed (D.history self.old) (D.history self.new) }

        ensures counted { IsCounted (IsErrOf result DeviceFault.Fault) (D.Watch.counts watch.old) (D.Watch.counts watch.new) }
    {
        self.device.write_at(at, bytes, watch)
    }

    /// Syncs, writes the gate as 1, and syncs.
    pub fn open_gate(self, watch: &mut D::Watch) -> Result<D, Broken<D>>
        ensures open { IfOk result (λ device. D.history device ≡ goes_on synced_file (goes_on (written 0 (1 ∷ [])) (goes_on synced_file (D.history self)))) }
        ensures size { IfOk result (λ device. D.size device ≡ max (D.size self) 1) }
        ensures name { IfOk result (λ device. D.name device ≡ D.name self) }
        ensures broken_name { IfErr result (λ broken. D.name broken.device ≡ D.name self) }

        // At each moment of the call the file is there, and closed, or whole behind an open gate.
        ensures moments { IfTold (D.history self) (λ f. IfOk result
            (λ device. LeavesOnly (IsClosedOrWhole (opened f.content)) (D.history self) (D.history device))) }
        ensures broken_moments { IfTold (D.history self) (λ f. IfErr result
            (λ broken. LeavesOnly (IsClosedOrWhole (opened f.content)) (D.history self) (D.history broken.device))) }
        ensures untold { IfErr result (λ broken. D.history self ≡ [] → D.history broken.device ≡ []) }

        ensures counted { IsCounted (IsErrAnd result (λ broken. broken.cause ≡ DeviceFault.Fault)) (D.Watch.counts watch.old) (D.Watch.counts watch.new) }
    {
        let mut device = self.device;
        // that the file is no longer than a file may be
        let _size = device.len();
        if let Err(cause) = device.sync(watch) {
            return Err(Broken { device, cause });
        }
        if let Err(cause) = device.write_at(0, &[1], watch) {
            return Err(Broken { device, cause });
        }
        match device.sync(watch) {
            Ok(()) => Ok(device),
            Err(cause) => Err(Broken { device, cause }),
        }
    }

    /// The device. A stop leaves its file there, and closed.
    pub fn give_back(self) -> D
        ensures same { result ≡ self }
        ensures closed { IfTold (D.history result) (LeavesAt IsClosed) }
    {
        self.device
    }
}

/// Whether a file is open. A file of at most one byte is closed, without a read. Takes no memory.
pub fn is_open<F: Frozen>(file: &F, watch: &mut F::Watch) -> Result<bool, FrozenFault>
    ensures exact { IfOk result (λ is_open. IfSome (F.content file.now) (λ bytes. is_open ≡ is_open_file bytes)) }
    ensures short { F.size file.now ≤ 1 → result ≡ Ok false }
    ensures no_read { F.size file.now ≤ 1 → IsCounted (IsErr result) (F.Watch.counts watch.old) (F.Watch.counts watch.new) }
    ensures one_read { 1 < F.size file.now → IsCountedRead (IsErr result) (F.Watch.counts watch.old) (F.Watch.counts watch.new) }
{
    if file.len() <= 1 {
        return Ok(false);
    }
    let mut gate = [0];
    file.read(0, &mut gate, watch)?;
    Ok(gate[0] == 1)
}
