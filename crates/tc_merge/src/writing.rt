//! The component of a merge, written.

ghost use Rattle.std.specs.Arc.{arc_value};
ghost use Rattle.std.specs.Prelude.{◌≡◌, ◌<◌, ◌≤◌, ◌+◌, ◌^◌, [], All, List, length, map, IfErr, IfOk, false};
ghost use Rattle.std.specs.Result.{IsErrAnd};
ghost use Rattle.tc_store.specs.DiskFile.{settled_file};
ghost use Rattle.tc_store.specs.Gate.{IsClosedOrWhole, IsShutOr, IsShutOrWhole};
ghost use Rattle.tc_store.specs.Images.{Image};
ghost use Rattle.tc_store.specs.Moments.{IfTold, LeavesAt, LeavesOnly};
ghost use Rattle.tc_schema_model.specs.Counted.{nothing};
ghost use Rattle.tc_store.specs.Counted.{IsCounted};
ghost use Rattle.tc_component.specs.Building.{HasRows};
ghost use Rattle.tc_component.specs.Spelling.{Row, IsIndex, file_bytes};
ghost use Rattle.tc_merge.specs.Faults.{IfHarmed, IsHarmless, IsHarmIn, IsJudged, IsWatched};
ghost use Rattle.tc_merge.specs.Inputs.{starts};
ghost use Rattle.tc_merge.specs.Merging.{AreTold, live_rows, merged_rows, newest_names, newest_schema, merge_bytes};

use crate::fault::{MergeFault, of_device};
use crate::input::Input;
use crate::merging::merge;
use std::alloc::Global;
use std::sync::Arc;
use tc_bytes::Memory;
use tc_component::{Builder, Component, Head};
use tc_store::{Broken, Device, DeviceFault, Frozen, Store};

/// A device whose component could not be written.
#[derive(Drop)]
pub(crate) struct Failed<D: Device> {
    pub device: D,
    pub cause: MergeFault,
}

/// Writes the component of a run behind a gate.
pub(crate) fn write<S: Store>(
    alloc: Global,
    run: &[Arc<Component<S::Frozen>>],
    device: S::Device,
    head: Head,
    watch: &mut S::Watch,
) -> Result<S::Device, Failed<S::Device>>
    requires some { 0 < length run.now }
    requires empty { S.Device.size device ≡ 0 }

    ensures whole { IfOk result (λ written. AreTold (λ file. S.Frozen.content file) (map arc_value run.now) → IfTold (S.Device.history written) (λ f. f ≡ settled_file (merge_bytes (λ file. S.Frozen.content file) head (map arc_value run.now)))) }
    ensures size { IfOk result (λ written. S.Device.size written < 2 ^ 63) }
    ensures name { IfOk result (λ written. S.Device.name written ≡ S.Device.name device) }
    ensures failed_name { IfErr result (λ failed. S.Device.name failed.device ≡ S.Device.name device) }
    ensures moments { (before : Image) → AreTold (λ file. S.Frozen.content file) (map arc_value run.now) → IfTold (S.Device.history device) (LeavesAt (IsShutOr before))
        → IfOk result (λ written. LeavesOnly (IsShutOrWhole before (merge_bytes (λ file. S.Frozen.content file) head (map arc_value run.now))) (S.Device.history device) (S.Device.history written)) }
    ensures failed_moments { (before : Image) → AreTold (λ file. S.Frozen.content file) (map arc_value run.now) → IfTold (S.Device.history device) (LeavesAt (IsShutOr before))
        → IfErr result (λ failed. LeavesOnly (IsShutOrWhole before (merge_bytes (λ file. S.Frozen.content file) head (map arc_value run.now))) (S.Device.history device) (S.Device.history failed.device)) }
    ensures judged { IfOk result (λ written. AreTold (λ file. S.Frozen.content file) (map arc_value run.now) → All (IsJudged (λ file. S.Frozen.content file) (map arc_value run.now)) (merged_rows (λ file. S.Frozen.content file) head.from (map arc_value run.now))) }
    ensures untold { S.Device.history device ≡ [] → IfOk result (λ written. S.Device.history written ≡ []) }
    ensures failed_untold { S.Device.history device ≡ [] → IfErr result (λ failed. S.Device.history failed.device ≡ []) }
    ensures harmed { IfErr result (λ failed. IfHarmed failed.cause (λ file place bytes. IsHarmIn (λ f. S.Frozen.content f) (map arc_value run.now) file place bytes)) }
    ensures reads { IfOk result (λ written. (S.Watch.counts watch.new).reads ≤ (S.Watch.counts watch.old).reads + live_rows (merged_rows (λ file. S.Frozen.content file) head.from (map arc_value run.now))) }
    ensures watched { IsWatched (IsErrAnd result (λ failed. failed.cause ≡ MergeFault.Disk)) (S.Watch.counts watch.old) (S.Watch.counts watch.new) }
{
    let mut inputs = match inputs_of(alloc, run) {
        Ok(inputs) => inputs,
        Err(_) => {
            return Err(Failed {
                device,
                cause: MergeFault::Memory,
            });
        }
    };
    let mut builder = match Builder::begin(alloc, device, head, watch) {
        Ok(builder) => builder,
        Err(broken) => return Err(not_written(broken)),
    };
    match merge::<S>(&mut inputs, head.from, &mut builder, watch) {
        Ok(()) => finish(run, builder, watch),
        Err(cause) => Err(Failed {
            device: builder.give_back(),
            cause,
        }),
    }
}

/// The components of a run, none of whose entries is behind.
fn inputs_of<F: Frozen>(alloc: Global, run: &[Arc<Component<F>>]) -> Result<Vec<Input<F>>, Memory>
    ensures inputs { IfOk result (λ inputs. inputs.items ≡ map starts (map arc_value run.now)) }
    ensures lawful { IfOk result (λ inputs. All (λ c. IsIndex c.index) (map arc_value run.now)) }
{
    let mut inputs = Vec::with_capacity(alloc, run.len())?;
    for component in run {
        let _lawful = component.file_len();
        inputs.push(Input::of(alloc, Arc::try_clone(component)?))?;
    }
    Ok(inputs)
}

/// Writes what stands behind the records, under the names and the schema of the newest component, and opens the gate.
fn finish<F: Frozen, D: Device>(
    run: &[Arc<Component<F>>],
    builder: Builder<D>,
    watch: &mut D::Watch,
) -> Result<D, Failed<D>>
    requires some { 0 < length run.now }
    requires going_on { builder.failed ≡ false }

    ensures whole { IfOk result (λ written. (rows : List Row) → HasRows (D.history builder.device) builder rows
        → IfTold (D.history written) (λ f. f ≡ settled_file (file_bytes builder.head rows (newest_names [] (map arc_value run.now)) (newest_schema nothing (map arc_value run.now))))) }
    ensures size { IfOk result (λ written. D.size written < 2 ^ 63) }
    ensures name { IfOk result (λ written. D.name written ≡ D.name builder.device) }
    ensures failed_name { IfErr result (λ failed. D.name failed.device ≡ D.name builder.device) }
    ensures moments { (rows : List Row) → HasRows (D.history builder.device) builder rows
        → IfOk result (λ written. LeavesOnly (IsClosedOrWhole (file_bytes builder.head rows (newest_names [] (map arc_value run.now)) (newest_schema nothing (map arc_value run.now)))) (D.history builder.device) (D.history written)) }
    ensures failed_moments { (rows : List Row) → HasRows (D.history builder.device) builder rows
        → IfErr result (λ failed. LeavesOnly (IsClosedOrWhole (file_bytes builder.head rows (newest_names [] (map arc_value run.now)) (newest_schema nothing (map arc_value run.now)))) (D.history builder.device) (D.history failed.device)) }
    ensures harmless { IfErr result (λ failed. IsHarmless failed.cause) }
    ensures watched { IsCounted (IsErrAnd result (λ failed. failed.cause ≡ MergeFault.Disk)) (D.Watch.counts watch.old) (D.Watch.counts watch.new) }
{
    let newest = &run[run.len() - 1];
    match builder.finish_under(newest, watch) {
        Ok(written) => Ok(written),
        Err(broken) => Err(not_written(broken)),
    }
}

fn not_written<D: Device>(broken: Broken<D>) -> Failed<D>
    ensures device { result.device ≡ broken.device }
    ensures cause { result.cause ≡ MergeFault.Disk → broken.cause ≡ DeviceFault.Fault }
    ensures harmless { IsHarmless result.cause }
{
    let Broken { device, cause } = broken;
    Failed {
        device,
        cause: of_device(cause),
    }
}
