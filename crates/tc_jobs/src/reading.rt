//! The component that a job made, read back.

ghost use Rattle.std.specs.Prelude.{◌≡◌, length, IfOk, IfSome, IsErrOf, OnOk, OnErr};
ghost use Rattle.std.specs.Result.{IsOk};
ghost use Rattle.tc_bytes.specs.Counts.{next_count};
ghost use Rattle.tc_lsm_model.specs.Contents.{Content};
ghost use Rattle.tc_store.specs.DiskFile.{IsSettled};
ghost use Rattle.tc_store.specs.Moments.{IfTold};
ghost use Rattle.tc_store.specs.StoreCalls.{comes_home, content_now, frozen_entry};
ghost use Rattle.tc_component.specs.Layout.{head_place, head_size};
ghost use Rattle.tc_component.specs.Loaded.{IsLoadedOf};
ghost use Rattle.tc_component.specs.Loading.{index_in};
ghost use Rattle.tc_component.specs.Reading.{front_of};
ghost use Rattle.tc_component.specs.Rows.{head_of, IsComponent};
ghost use Rattle.tc_component.specs.Spelling.{IsIndex, name_of};
ghost use Rattle.tc_merge.specs.Faults.{IsWatched};
ghost use Rattle.tc_jobs.specs.Faults.{AreBytes, IfDamaged, IfHarmed};
ghost use Rattle.tc_jobs.specs.ReadBack.{ComesHome, IsDamageIn, JudgesFile, has_numbers, own_judged};

use crate::fault::{JobFault, of_read};
use std::alloc::Global;
use tc_bytes::Bytes;
use tc_component::{Component, Head, components_are_contents};
use tc_store::{Damage, Frozen, Store, bytes_of};

/// Where the header of a component stands, and how long it is.
const HEAD_PLACE: u64 = 1;

const HEAD_LEN: usize = 60;

/// Makes a still file of the device of a job, on which nothing is pending, and loads the component of this header from it,
/// by two reads. `Damaged` has the place and the bytes that break the rules; of another partition these are the header's.
/// `Disk` comes only where the store failed or a read did.
pub fn read_back<S: Store>(
    alloc: Global,
    store: &mut S,
    device: S::Device,
    head: Head,
    watch: &mut S::Watch,
) -> Result<Component<S::Frozen>, JobFault>
    requires { IfTold (S.Device.history device) IsSettled }

    ensures judged { IfSome (content_now (S.Device.history device)) (λ bytes. JudgesFile (name_of head) index_in result (own_judged head bytes)) }
    ensures loaded { IfSome (content_now (S.Device.history device)) (λ bytes. (c : Content) → IsComponent c bytes → head_of c ≡ head → IfOk result (λ component. IsLoadedOf S.Frozen.content component c)) }
    ensures sound { IfSome (content_now (S.Device.history device)) (λ bytes. (c : Content) → IsComponent c bytes → head_of c ≡ head → IfDamaged result (λ damage. ⊥)) }

    // Also of a device that does not tell its content.
    ensures head { IfOk result (λ c. c.index.head ≡ head) }
    ensures lawful { IfOk result (λ c. IsIndex c.index) }
    ensures content { IfOk result (λ c. S.Frozen.content c.file ≡ content_now (S.Device.history device)) }
    ensures name { IfOk result (λ c. S.Frozen.name c.file ≡ S.Device.name device) }
    ensures damaged { IfDamaged result (AreBytes (λ file place bytes. (file ≡ name_of head) × IsDamageIn head (S.Device.size device) place bytes)) }

    // Of the store only the file of the device changes.
    ensures still { OnOk result (S.history store.new ≡ comes_home (S.Device.name device) frozen_entry (S.Device.history device) (S.history store.old)) }
    ensures still_damaged { IfDamaged result (λ damage. S.history store.new ≡ comes_home (S.Device.name device) frozen_entry (S.Device.history device) (S.history store.old)) }
    ensures home { OnErr result (ComesHome (S.Device.name device) (S.Device.history device) (S.history store.old) (S.history store.new)) }

    ensures reads { IsOk result → (S.Watch.counts watch.new).reads ≡ next_count (next_count (S.Watch.counts watch.old).reads) }
    ensures watched { IsWatched (IsErrOf result JobFault.Disk) (S.Watch.counts watch.old) (S.Watch.counts watch.new) }
{
    components_are_contents();
    let file = store.freeze(alloc, device, watch)?;
    load_own(alloc, file, head, watch)
}

/// Loads the component of this header, of which the partition is compared last, by two reads. `Damaged` has the place and the
/// bytes that break the rules; of another partition these are the header's. `Disk` comes only where a read failed.
pub fn load_own<F: Frozen>(
    alloc: Global,
    file: F,
    head: Head,
    watch: &mut F::Watch,
) -> Result<Component<F>, JobFault>
    ensures judged { IfSome (F.content file) (λ bytes. JudgesFile (name_of head) index_in result (own_judged head bytes)) }

    // Also of a file that does not tell its content.
    ensures head { IfOk result (λ c. c.index.head ≡ head) }
    ensures lawful { IfOk result (λ c. IsIndex c.index) }
    ensures file { IfOk result (λ c. c.file ≡ file) }
    ensures damaged { IfDamaged result (AreBytes (λ of place bytes. (of ≡ name_of head) × IsDamageIn head (F.size file) place bytes)) }

    ensures reads { IsOk result → (F.Watch.counts watch.new).reads ≡ next_count (next_count (F.Watch.counts watch.old).reads) }
    ensures watched { IsWatched (IsErrOf result JobFault.Disk) (F.Watch.counts watch.old) (F.Watch.counts watch.new) }
{
    let name = head.file_name();
    let component = match Component::load(alloc, file, name, watch) {
        Ok(component) => component,
        Err(fault) => return Err(of_read(name, fault)),
    };
    if is_of(component.head(), head) {
        return Ok(component);
    }
    Err(foreign(alloc, component, watch))
}

/// Whether a header is of the partition of another one.
fn is_of(head: Head, own: Head) -> bool
    ensures { result ≡ has_numbers own head }
{
    head.number == own.number && head.count == own.count
}

/// The fault of a component of another partition: its header is damaged. Makes a read.
fn foreign<F: Frozen>(alloc: Global, component: Component<F>, watch: &mut F::Watch) -> JobFault
    ensures told { IfHarmed result (λ of place bytes. IfSome (F.content component.file) (λ whole. bytes ≡ front_of whole)) }
    ensures header { IfHarmed result (λ of place bytes. (of ≡ name_of component.index.head) × (place ≡ head_place) × (length bytes ≡ head_size)) }
    ensures watched { IsWatched (result ≡ JobFault.Disk) (F.Watch.counts watch.old) (F.Watch.counts watch.new) }
{
    let name = component.file_name();
    let _size = component.file_len();
    let file = component.into_file();
    match bytes_of(alloc, &file, HEAD_PLACE, HEAD_LEN, watch) {
        Ok(bytes) => JobFault::Damaged(Damage::Bytes {
            file: name,
            place: HEAD_PLACE,
            bytes: Bytes::of(bytes),
        }),
        Err(fault) => of_read(name, fault),
    }
}
