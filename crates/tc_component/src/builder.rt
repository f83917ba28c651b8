//! The component that is written.

ghost use Rattle.std.specs.Prelude.{◌≡◌, ◌<◌, ◌≤◌, ◌+◌, ◌^◌, ◌++◌, ◌∷◌, ℕ, [], List, true, false, length, option_map, IfSome, IfOk, IfErr, OnOk, OnErr, IsErrOf};
ghost use Rattle.std.specs.Result.{IsErrAnd};
ghost use Rattle.tc_store.specs.Counted.{IsCounted};
ghost use Rattle.tc_store.specs.DiskFile.{settled_file};
ghost use Rattle.tc_store.specs.Gate.{opened, IsShutOr, IsClosed, IsClosedOrWhole};
ghost use Rattle.tc_store.specs.Images.{Image};
ghost use Rattle.tc_store.specs.Moments.{IfTold, LeavesAt, LeavesOnly};
ghost use Rattle.tc_component.specs.Building.{HasRows, Spools, IsWrittenRecord, unheaded, sizes_written as written_sizes};
ghost use Rattle.tc_component.specs.Counts.{counts_of};
ghost use Rattle.tc_component.specs.Layout.{records_place};
ghost use Rattle.tc_component.specs.Spelling.{Row, held_bytes, records, slots_of, directory as directory_of, file_bytes};

use crate::component::Component;
use crate::head::{Head, Sizes, bytes_of_head};
use crate::kept_schema::Counts;
use crate::layout::{HEAD_LEN, HEAD_PLACE, PIECE_LEN, RECORDS_PLACE, SLOT_LEN};
use crate::slot::{Slot, put_slot};
use crate::spool::Spool;
use std::alloc::Global;
use std::marker::Model;
use tc_bytes::Bytes;
use tc_names::Names;
use tc_schema::Schema;
use tc_store::{Broken, Device, DeviceFault, Frozen, Gated};

/// A component that is being written, entry by entry. Contracts see its device, its header, its directory so far, the
/// bytes that wait to be written, and whether a call failed. Whatever a stop leaves of it is closed.
#[derive(Drop)]
pub struct Builder<D: Device> {
    spool: Spool<D>,
    head: Head,
    directory: Vec<u8>,
    failed: bool,
    alloc: Global,
}

impl<D: Device> Model for Builder<D> {
    ghost use Rattle.std.specs.Prelude.{◌≡◌, ◌≤◌, ◌<◌, ◌^◌, false};
    ghost use Rattle.tc_component.specs.Building.{BuilderState};
    ghost use Rattle.tc_component.specs.Layout.{records_place};

    ghost Value = { BuilderState D };

    ghost view = { λ b. record { device = b.spool.gated; head = b.head; directory = b.directory.items; waiting = b.spool.waiting.items; failed = b.failed } };

    ghost invariant = { λ b. b.failed ≡ false → (records_place ≤ b.spool.end) × (b.spool.end < 2 ^ 63) × (b.spool.end ≡ D.size b.spool.gated) };
}

impl<D: Device> Builder<D> {
    /// Begins the file of a component: its gate, which is synced, and room for its header.
    pub fn begin(
        alloc: Global,
        device: D,
        head: Head,
        watch: &mut D::Watch,
    ) -> Result<Builder<D>, Broken<D>>
        requires empty { D.size device ≡ 0 }

        ensures begun { IfOk result (λ builder. HasRows (D.history builder.device) builder []) }
        ensures head { IfOk result (λ builder. builder.head ≡ head) }
        ensures not_failed { IfOk result (λ builder. builder.failed ≡ false) }
        ensures name { IfOk result (λ builder. D.name builder.device ≡ D.name device) }
        ensures broken_name { IfErr result (λ broken. D.name broken.device ≡ D.name device) }

        // At each moment of the call the file is absent, closed, or the one before.
        ensures moments { (before : Image) → IfTold (D.history device) (LeavesAt (IsShutOr before))
            → IfOk result (λ builder. LeavesOnly (IsShutOr before) (D.history device) (D.history builder.device)) }
        ensures broken_moments { (before : Image) → IfTold (D.history device) (LeavesAt (IsShutOr before))
            → IfErr result (λ broken. LeavesOnly (IsShutOr before) (D.history device) (D.history broken.device)) }

        ensures counted { IsCounted (IsErrAnd result (λ broken. broken.cause ≡ DeviceFault.Fault)) (D.Watch.counts watch.old) (D.Watch.counts watch.new) }
    {
        let mut gated = match Gated::begin(device, watch) {
            Ok(gated) => gated,
            Err(broken) => return Err(broken),
        };
        match gated.write(HEAD_PLACE as u64, &[0; HEAD_LEN], watch) {
            Ok(()) => Ok(Builder {
                spool: Spool {
                    gated,
                    end: RECORDS_PLACE,
                    waiting: Vec::new(alloc),
                },
                head,
                directory: Vec::new(alloc),
                failed: false,
                alloc,
            }),
            Err(cause) => Err(Broken {
                device: gated.give_back(),
                cause,
            }),
        }
    }

    /// Takes an entry behind those before it: a key with its record of form 2, or one that is gone. After an `Err` the builder has
    /// failed, and only its device may be taken back.
    pub fn push(
        &mut self,
        key: u64,
        record_bytes: Option<&[u8]>,
        watch: &mut D::Watch,
    ) -> Result<(), DeviceFault>
        requires going_on { self.old.failed ≡ false }
        requires written { IfSome record_bytes (λ bytes. IsWrittenRecord bytes.now) }

        ensures pushed { OnOk result ((rows : List Row) → HasRows (D.history self.old.device) self.old rows
            → HasRows (D.history self.new.device) self.new (rows ++ (key, option_map (λ bytes. bytes.now) record_bytes.entry) ∷ [])) }
        ensures head { self.new.head ≡ self.old.head }
        ensures not_failed { OnOk result (self.new.failed ≡ false) }
        ensures failed { OnErr result (self.new.failed ≡ true) }
        ensures name { D.name self.new.device ≡ D.name self.old.device }

        // At each moment of the call the file is there, and closed.
        ensures moments { LeavesOnly IsClosed (D.history self.old.device) (D.history self.new.device) }

        ensures counted { IsCounted (IsErrOf result DeviceFault.Fault) (D.Watch.counts watch.old) (D.Watch.counts watch.new) }
    {
        let bytes = bytes_held(record_bytes);
        self.failed = true;
        let length = bytes.len() as u32;
        put_slot(Slot { key, length }, &mut self.directory)?;
        self.spool.put(bytes, watch)?;
        self.failed = false;
        Ok(())
    }

    /// Writes what is left, the directory, the names, the schema and the header, and opens the gate.
    pub fn finish(
        self,
        names: &Names,
        schema: &Schema,
        watch: &mut D::Watch,
    ) -> Result<D, Broken<D>>
        requires { self.failed ≡ false }

        // On Ok the file is whole, and nothing is pending.
        ensures whole { IfOk result (λ device. (rows : List Row) → HasRows (D.history self.device) self rows
            → IfTold (D.history device) (λ f. f ≡ settled_file (file_bytes self.head rows names.now schema.now))) }
        ensures size { IfOk result (λ device. D.size device < 2 ^ 63) }
        ensures name { IfOk result (λ device. D.name device ≡ D.name self.device) }
        ensures broken_name { IfErr result (λ broken. D.name broken.device ≡ D.name self.device) }

        // At each moment of the call the file is there, and closed, or whole behind an open gate.
        ensures moments { (rows : List Row) → HasRows (D.history self.device) self rows
            → IfOk result (λ device. LeavesOnly (IsClosedOrWhole (file_bytes self.head rows names.now schema.now)) (D.history self.device) (D.history device)) }
        ensures broken_moments { (rows : List Row) → HasRows (D.history self.device) self rows
            → IfErr result (λ broken. LeavesOnly (IsClosedOrWhole (file_bytes self.head rows names.now schema.now)) (D.history self.device) (D.history broken.device)) }
        ensures untold { IfErr result (λ broken. D.history self.device ≡ [] → D.history broken.device ≡ []) }

        ensures counted { IsCounted (IsErrAnd result (λ broken. broken.cause ≡ DeviceFault.Fault)) (D.Watch.counts watch.old) (D.Watch.counts watch.new) }
    {
        self.finish_with(names, Counts::Of(schema), watch)
    }

    /// The same, with the names and the schema of a component, of which no tree is made.
    pub fn finish_under<F: Frozen>(
        self,
        newest: &Component<F>,
        watch: &mut D::Watch,
    ) -> Result<D, Broken<D>>
        requires { self.failed ≡ false }

        // On Ok the file is whole, and nothing is pending.
        ensures whole { IfOk result (λ device. (rows : List Row) → HasRows (D.history self.device) self rows
            → IfTold (D.history device) (λ f. f ≡ settled_file (file_bytes self.head rows newest.now.index.names newest.now.index.schema))) }
        ensures size { IfOk result (λ device. D.size device < 2 ^ 63) }
        ensures name { IfOk result (λ device. D.name device ≡ D.name self.device) }
        ensures broken_name { IfErr result (λ broken. D.name broken.device ≡ D.name self.device) }

        // At each moment of the call the file is there, and closed, or whole behind an open gate.
        ensures moments { (rows : List Row) → HasRows (D.history self.device) self rows
            → IfOk result (λ device. LeavesOnly (IsClosedOrWhole (file_bytes self.head rows newest.now.index.names newest.now.index.schema)) (D.history self.device) (D.history device)) }
        ensures broken_moments { (rows : List Row) → HasRows (D.history self.device) self rows
            → IfErr result (λ broken. LeavesOnly (IsClosedOrWhole (file_bytes self.head rows newest.now.index.names newest.now.index.schema)) (D.history self.device) (D.history broken.device)) }
        ensures untold { IfErr result (λ broken. D.history self.device ≡ [] → D.history broken.device ≡ []) }

        ensures counted { IsCounted (IsErrAnd result (λ broken. broken.cause ≡ DeviceFault.Fault)) (D.Watch.counts watch.old) (D.Watch.counts watch.new) }
    {
        self.finish_with(newest.names(), newest.counts(), watch)
    }

    /// The same, with a schema that is a tree or is kept as bytes.
    fn finish_with(
        self,
        names: &Names,
        schema: Counts<'_>,
        watch: &mut D::Watch,
    ) -> Result<D, Broken<D>>
        requires { self.failed ≡ false }

        ensures whole { IfOk result (λ device. (rows : List Row) → HasRows (D.history self.device) self rows
            → IfTold (D.history device) (λ f. f ≡ settled_file (file_bytes self.head rows names.now (counts_of schema.entry)))) }
        ensures size { IfOk result (λ device. D.size device < 2 ^ 63) }
        ensures name { IfOk result (λ device. D.name device ≡ D.name self.device) }
        ensures broken_name { IfErr result (λ broken. D.name broken.device ≡ D.name self.device) }

        ensures moments { (rows : List Row) → HasRows (D.history self.device) self rows
            → IfOk result (λ device. LeavesOnly (IsClosedOrWhole (file_bytes self.head rows names.now (counts_of schema.entry))) (D.history self.device) (D.history device)) }
        ensures broken_moments { (rows : List Row) → HasRows (D.history self.device) self rows
            → IfErr result (λ broken. LeavesOnly (IsClosedOrWhole (file_bytes self.head rows names.now (counts_of schema.entry))) (D.history self.device) (D.history broken.device)) }
        ensures untold { IfErr result (λ broken. D.history self.device ≡ [] → D.history broken.device ≡ []) }

        ensures counted { IsCounted (IsErrAnd result (λ broken. broken.cause ≡ DeviceFault.Fault)) (D.Watch.counts watch.old) (D.Watch.counts watch.new) }
    {
        let Builder {
            spool,
            head,
            directory,
            failed: _,
            alloc,
        } = self;
        let mut spool = spool;
        match put_rest(alloc, &mut spool, head, &directory, names, schema, watch) {
            Ok(()) => spool.gated.open_gate(watch),
            Err(cause) => Err(Broken {
                device: spool.gated.give_back(),
                cause,
            }),
        }
    }

    /// The device, as it is. A stop leaves its file there, and closed.
    pub fn give_back(self) -> D
        ensures same { result ≡ self.device }
        ensures closed { IfTold (D.history result) (LeavesAt IsClosed) }
    {
        self.spool.gated.give_back()
    }
}

/// The bytes of the record of an entry, which are none where it is gone.
fn bytes_held(record_bytes: Option<&[u8]>) -> &[u8]
    ensures { result.now ≡ held_bytes (option_map (λ bytes. bytes.now) record_bytes.entry) }
{
    match record_bytes {
        Some(bytes) => bytes,
        None => &[],
    }
}

/// Writes all but the gate: the records that wait, the directory, the names, the schema, and then the header.
fn put_rest<D: Device>(
    alloc: Global,
    spool: &mut Spool<D>,
    head: Head,
    directory: &[u8],
    names: &Names,
    schema: Counts<'_>,
    watch: &mut D::Watch,
) -> Result<(), DeviceFault>
    requires begun { records_place ≤ spool.old.end }
    requires short { spool.old.end < 2 ^ 63 }
    requires sized { spool.old.end ≡ D.size spool.old.gated }

    ensures whole { OnOk result ((rows : List Row) → directory.now ≡ directory_of (slots_of rows) → Spools (D.history spool.old.gated) spool.old.waiting.items (unheaded (records rows))
        → IfTold (D.history spool.new.gated) (λ f. opened f.content ≡ file_bytes head rows names.now (counts_of schema.entry))) }
    ensures size { OnOk result (D.size spool.new.gated < 2 ^ 63) }
    ensures name { D.name spool.new.gated ≡ D.name spool.old.gated }
    ensures moments { LeavesOnly IsClosed (D.history spool.old.gated) (D.history spool.new.gated) }
    ensures counted { IsCounted (IsErrOf result DeviceFault.Fault) (D.Watch.counts watch.old) (D.Watch.counts watch.new) }
{
    let records = spool.len() - RECORDS_PLACE;
    spool.put(directory, watch)?;
    // one after the other, so that their bytes are not in memory together
    let named = put_bytes(spool, Bytes::of(names.to_bytes(alloc)?), watch)?;
    let counted = put_bytes(spool, schema.to_bytes(alloc)?, watch)?;
    let sizes = sizes_written(records, directory, named, counted);
    let front = bytes_of_head(alloc, head, sizes)?;
    spool.flush(watch)?;
    spool.gated.write(HEAD_PLACE as u64, &front, watch)
}

/// Takes these bytes behind all before them, and answers how many they are.
fn put_bytes<D: Device>(
    spool: &mut Spool<D>,
    bytes: Bytes,
    watch: &mut D::Watch,
) -> Result<u64, DeviceFault>
    requires begun { 0 < spool.old.end }
    requires short { spool.old.end < 2 ^ 63 }
    requires sized { spool.old.end ≡ D.size spool.old.gated }

    ensures length { IfOk result (λ count. count ≡ length bytes) }
    ensures begun { OnOk result (spool.old.end ≤ spool.new.end) }
    ensures short { OnOk result (spool.new.end < 2 ^ 63) }
    ensures sized { OnOk result (spool.new.end ≡ D.size spool.new.gated) }
    ensures more { OnOk result ((all : List ℕ) → Spools (D.history spool.old.gated) spool.old.waiting.items all → Spools (D.history spool.new.gated) spool.new.waiting.items (all ++ bytes)) }

    ensures name { D.name spool.new.gated ≡ D.name spool.old.gated }
    ensures moments { LeavesOnly IsClosed (D.history spool.old.gated) (D.history spool.new.gated) }
    ensures counted { IsCounted (IsErrOf result DeviceFault.Fault) (D.Watch.counts watch.old) (D.Watch.counts watch.new) }
{
    let bytes = bytes.as_slice();
    if bytes.len() >= PIECE_LEN {
        // so that they are not copied behind what waits
        spool.flush(watch)?;
    }
    spool.put(bytes, watch)?;
    Ok(bytes.len() as u64)
}

/// The sizes of what is written, where the names and the schema have so many bytes.
fn sizes_written(records: u64, directory: &[u8], named: u64, counted: u64) -> Sizes
    ensures { (names schema : List ℕ) → named ≡ length names → counted ≡ length schema → result ≡ written_sizes records directory.now names schema }
{
    Sizes {
        records,
        entries: (directory.len() / SLOT_LEN) as u64,
        names: named,
        schema: counted,
    }
}
