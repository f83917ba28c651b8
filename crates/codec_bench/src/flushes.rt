//! Calls that make components of memory tables.

ghost use Rattle.std.specs.Arc.{arc_value};
ghost use Rattle.tc_memory.specs.DocumentTables.{IsTableOf};
ghost use Rattle.tc_lsm_model.specs.Tables.{Table};
ghost use Rattle.tc_flush.specs.Flushable.{CanFlush};

use crate::silent::{SilentDevice, SilentFile, SilentStore, Tally};
use anyhow::{Result, bail};
use std::alloc::Global;
use std::sync::Arc;
use tc_component::{Component, Head};
use tc_flush::{FlushJob, FlushParts, counted};
use tc_memory::Sealed;
use tc_names::Names;
use tc_schema::Schema;
use tc_store::{Device, FileName, Store};

/// What a table is flushed over: the newest names and schema, and the generation that comes next.
#[derive(Drop)]
pub(crate) struct Below {
    names: Names,
    schema: Schema,
    next: u64,
}

/// How many writes were made, and how many bytes the files have.
#[derive(Drop)]
pub(crate) struct Written {
    pub writes: u64,
    pub bytes: u64,
}

impl Below {
    pub(crate) fn none(alloc: Global) -> Below {
        Below {
            names: Names::new(alloc),
            schema: Schema::empty(alloc),
            next: 1,
        }
    }

    /// What a component leaves below the next one.
    pub(crate) fn behind(alloc: Global, component: &Component<SilentFile>) -> Result<Below> {
        Ok(Below {
            names: component.names().copy()?,
            schema: component.schema(alloc)?,
            next: component.head().to.saturating_add(1),
        })
    }
}

/// The component of a table.
pub(crate) fn flushed(
    alloc: Global,
    table: &Arc<Sealed>,
    below: &Below,
) -> Result<Component<SilentFile>> {
    if !counted(alloc, table, &below.schema, &below.names)? {
        bail!("the table cannot be flushed");
    }
    let mut watch = Tally::none();
    let (device, name) = flush(alloc, table, below, Vec::new(alloc), &mut watch)?;
    let file = SilentStore {}.freeze(alloc, device, &mut watch)?;
    Ok(Component::load(alloc, file, name, &mut watch)?)
}

/// Asks so often whether a table can be flushed.
pub(crate) fn asked(alloc: Global, table: &Arc<Sealed>, below: &Below, rounds: u32) -> Result<u64> {
    let mut sum = 0u64;
    for _ in 0..rounds {
        if counted(alloc, table, &below.schema, &below.names)? {
            sum = sum.wrapping_add(1);
        }
    }
    Ok(sum)
}

/// Flushes a table so often, each time into the room of the time before.
pub(crate) fn flushed_again(
    alloc: Global,
    table: &Arc<Sealed>,
    below: &Below,
    rounds: u32,
) -> Result<Written> {
    if !counted(alloc, table, &below.schema, &below.names)? {
        bail!("the table cannot be flushed");
    }
    let mut watch = Tally::none();
    let mut bytes = 0u64;
    let mut room = Vec::new(alloc);
    for _ in 0..rounds {
        let (device, _name) = flush(alloc, table, below, room, &mut watch)?;
        bytes = bytes.wrapping_add(device.len());
        room = device.into_room();
    }
    let writes = watch.writes;
    Ok(Written { writes, bytes })
}

/// The file of a component, which is whole, in this room.
fn flush(
    alloc: Global,
    table: &Arc<Sealed>,
    below: &Below,
    room: Vec<u8>,
    watch: &mut Tally,
) -> Result<(SilentDevice, FileName)>
    requires { (t : Table) → IsTableOf t (arc_value table.now) → CanFlush below.now.names below.now.schema t }
{
    let (from, to) = (below.next, below.next);
    let name = FileName::Component { from, to };
    let head = Head {
        number: 0,
        count: 1,
        from,
        to,
    };
    let sealed = table.clone()?;
    let schema = below.schema.copy(alloc)?;
    let names = below.names.copy()?;
    let device = SilentDevice::within(name, room);
    let job: FlushJob<SilentStore> = FlushJob::new(FlushParts {
        sealed,
        schema,
        names,
        device,
        head,
        watch: Tally::none(),
    });
    let out = job.run(alloc);
    out.outcome?;
    watch.add(&out.watch);
    Ok((out.device, name))
}
