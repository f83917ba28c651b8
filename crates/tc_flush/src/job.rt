//! The job that flushes a sealed table.

ghost use Rattle.std.specs.Arc.{arc_value};
ghost use Rattle.std.specs.Prelude.{◌≡◌, ◌<◌, ◌^◌, ℕ, All, List, IsErrOf, IsOk};
ghost use Rattle.tc_store.specs.Counted.{IsCounted};
ghost use Rattle.tc_store.specs.DiskFile.{settled_file};
ghost use Rattle.tc_store.specs.Gate.{IsShutOr, IsShutOrWhole};
ghost use Rattle.tc_store.specs.Images.{Image};
ghost use Rattle.tc_store.specs.Moments.{IfTold, LeavesAt, LeavesOnly};
ghost use Rattle.tc_memory.specs.DocumentTables.{IsTableOf};
ghost use Rattle.tc_lsm_model.specs.Contents.{Content};
ghost use Rattle.tc_lsm_model.specs.Flushes.{IsFlush};
ghost use Rattle.tc_lsm_model.specs.Tables.{Table};
ghost use Rattle.tc_flush.specs.Flushable.{CanFlush};
ghost use Rattle.tc_flush.specs.Flushing.{IsBehind, flush_bytes};
ghost use Rattle.tc_component.specs.Rows.{part_of, component_bytes, IsShortWrite};

use crate::laws::flushes_are_made;
use crate::writing::write;
use std::alloc::Global;
use std::marker::Model;
use std::sync::Arc;
use tc_component::Head;
use tc_memory::Sealed;
use tc_names::Names;
use tc_schema::Schema;
use tc_store::{Broken, Device, DeviceFault, Store};

/// What a flush is made of: the sealed table, the newest schema and names below it, an empty device, the header of the
/// component, and the watch that counts its calls.
#[derive(Drop)]
pub struct FlushParts<S: Store> {
    pub sealed: Arc<Sealed>,
    pub schema: Schema,
    pub names: Names,
    pub device: S::Device,
    pub head: Head,
    pub watch: S::Watch,
}

/// A flush that can be run. Contracts see its parts.
#[derive(Drop)]
pub struct FlushJob<S: Store> {
    parts: FlushParts<S>,
}

impl<S: Store> Model for FlushJob<S> {
    ghost use Rattle.std.specs.Arc.{arc_value};
    ghost use Rattle.std.specs.Prelude.{◌≡◌};
    ghost use Rattle.tc_memory.specs.DocumentTables.{IsTableOf};
    ghost use Rattle.tc_lsm_model.specs.Tables.{Table};
    ghost use Rattle.tc_flush.specs.Flushable.{CanFlush};
    ghost use Rattle.tc_flush.specs.Jobs.{JobState};
    ghost use Rattle.std.specs.Coded.{codes};
    ghost use Rattle.tc_memory.specs.Table.{coded_table};
    ghost use Rattle.tc_schema_model.specs.CountedCode.{coded_counted};

    ghost Value = { JobState S.Device S.Watch };

    ghost coded = { Prim.hlevel (codes, coded_table, coded_counted) };

    ghost view = { λ j. record { kept = arc_value j.parts.sealed; schema = j.parts.schema; names = j.parts.names; device = j.parts.device; head = j.parts.head; watch = j.parts.watch } };

    ghost invariant = { λ j. (S.Device.size j.parts.device ≡ 0) × ((t : Table) → IsTableOf t (arc_value j.parts.sealed) → CanFlush j.parts.names j.parts.schema t) };
}

/// What is left of a flush: the watch, the device, and whether its component is whole.
#[derive(Drop)]
pub struct FlushOut<S: Store> {
    pub watch: S::Watch,
    pub device: S::Device,
    pub outcome: Result<(), DeviceFault>,
}

impl<S: Store> FlushJob<S> {
    /// A flush of these parts. Takes no memory.
    pub fn new(parts: FlushParts<S>) -> FlushJob<S>
        requires counted { (t : Table) → IsTableOf t (arc_value parts.sealed) → CanFlush parts.names parts.schema t }
        requires empty { S.Device.size parts.device ≡ 0 }
        ensures same { result ≡ record { kept = arc_value parts.sealed; schema = parts.schema; names = parts.names; device = parts.device; head = parts.head; watch = parts.watch } }
    {
        FlushJob { parts }
    }

    /// Writes the component of the table. The outcome is an error only for want of memory or a fault of the device.
    pub fn run(self, alloc: Global) -> FlushOut<S>
        // On Ok the file is that of the flush, and nothing is pending. Its bytes are a function of the parts.
        ensures whole { IsOk result.outcome → (t : Table) → IsTableOf t self.kept → IfTold (S.Device.history result.device) (λ f. f ≡ settled_file (flush_bytes self.head self.names self.schema t)) }

        // Behind a list of components these are the bytes of the one content that the flush of the table makes there.
        ensures flushed { (cs : List Content) (t : Table) (generations : ℕ) → IsBehind cs t generations self.head self.names self.schema self.kept
            → (c : Content) × IsFlush (part_of self.head) cs t generations c × All IsShortWrite c.entries × (component_bytes c ≡ flush_bytes self.head self.names self.schema t) }

        // At each moment the file is absent, closed, the one before, or this one.
        ensures moments { (before : Image) (t : Table) → IsTableOf t self.kept → IfTold (S.Device.history self.device) (LeavesAt (IsShutOr before))
            → LeavesOnly (IsShutOrWhole before (flush_bytes self.head self.names self.schema t)) (S.Device.history self.device) (S.Device.history result.device) }

        ensures size { IsOk result.outcome → S.Device.size result.device < 2 ^ 63 }
        ensures name { S.Device.name result.device ≡ S.Device.name self.device }
        ensures watched { IsCounted (IsErrOf result.outcome DeviceFault.Fault) (S.Watch.counts self.watch) (S.Watch.counts result.watch) }
    {
        flushes_are_made();
        let FlushParts {
            sealed,
            schema,
            names,
            device,
            head,
            watch,
        } = self.parts;
        header_fits(head);
        let mut watch = watch;
        let table: &Sealed = &sealed;
        let _entries = table.len();
        match write(alloc, table, schema, names, device, head, &mut watch) {
            Ok(device) => FlushOut {
                watch,
                device,
                outcome: Ok(()),
            },
            Err(Broken { device, cause }) => FlushOut {
                watch,
                device,
                outcome: Err(cause),
            },
        }
    }
}

/// That the partition of a header has 32 bits.
fn header_fits(head: Head)
    ensures number { head.number < 2 ^ 32 }
    ensures count { head.count < 2 ^ 32 }
{}
