//! A frame that is made before it is written.

ghost use Rattle.std.specs.Prelude.{◌≡◌, ◌<◌, ◌≤◌, ◌+◌, ◌^◌, ◌++◌, length, IfOk, OnOk};
ghost use Rattle.std.specs.List.{AllByRecursion};
ghost use Rattle.tc_log.specs.Frame.{IsFrameKept, with_closed_gate};
ghost use Rattle.tc_log.specs.Spelling.{entry_bytes, body_bytes};
ghost use Rattle.tc_log.specs.Writes.{IsWrite};

use crate::layout::{DELETE, ENTRY_FRONT, LEADING, UPSERT};
use crate::write::Write;
use std::alloc::Global;
use std::marker::Model;
use tc_bytes::{Memory, put_u32, put_u64};

/// The bytes of a frame, ready to be written. Contracts see its writes.
#[derive(Drop)]
pub struct Frame {
    bytes: Vec<u8>,
}

impl Model for Frame {
    ghost use Rattle.std.specs.Prelude.{List};
    ghost use Rattle.tc_log.specs.declared.write.Write.{Write};
    ghost use Rattle.tc_log.specs.Frame.{frame_writes, IsFrameKept};

    ghost Value = { List Write };

    ghost view = { λ f. frame_writes f.bytes.items };

    ghost invariant = { λ f. IsFrameKept (frame_writes f.bytes.items) f.bytes.items };
}

impl Frame {
    /// The frame of these writes.
    pub(crate) fn of(alloc: Global, writes: &[Write]) -> Result<Frame, Memory>
        requires some { 0 < length writes.now }
        requires few { length writes.now ≤ 4096 }
        requires lawful { AllByRecursion IsWrite writes.now }
        requires short { length (body_bytes writes.now) < 2 ^ 32 }
        ensures { IfOk result (λ frame. frame ≡ writes.now) }
    {
        let bytes = frame_of(alloc, writes)?;
        Ok(Frame { bytes })
    }

    /// What stands behind the gate, and the closed gate behind it.
    pub(crate) fn bytes(&self) -> &[u8]
        ensures { IsFrameKept self.now result.now }
    {
        &self.bytes
    }
}

fn frame_of(alloc: Global, writes: &[Write]) -> Result<Vec<u8>, Memory>
    requires few { length writes.now ≤ 4096 }
    requires short { length (body_bytes writes.now) < 2 ^ 32 }
    ensures { IfOk result (λ bytes. bytes.items ≡ with_closed_gate writes.now) }
{
    let len = body_len(writes);
    let mut out = Vec::with_capacity(alloc, len + LEADING)?;
    put_u32(&mut out, writes.len() as u32)?;
    put_u32(&mut out, len as u32)?;
    put_body(&mut out, writes)?;
    out.push(0)?;
    Ok(out)
}

/// How many bytes the entries of these writes have.
fn body_len(writes: &[Write]) -> usize
    requires { length (body_bytes writes.now) < 2 ^ 32 }
    ensures { result ≡ length (body_bytes writes.now) }
{
    let mut len = 0;
    for write in writes {
        len += entry_len(write);
    }
    len
}

fn entry_len(write: &Write) -> usize
    requires { length (entry_bytes write.now) < 2 ^ 32 }
    ensures { result ≡ length (entry_bytes write.now) }
{
    match write {
        Write::Upsert { key: _, bytes } => bytes.as_slice().len() + ENTRY_FRONT,
        Write::Delete { key: _ } => ENTRY_FRONT,
    }
}

fn put_body(out: &mut Vec<u8>, writes: &[Write]) -> Result<(), Memory>
    ensures { OnOk result (out.new.items ≡ out.old.items ++ body_bytes writes.now) }
{
    for write in writes {
        put_entry(out, write)?;
    }
    Ok(())
}

fn put_entry(out: &mut Vec<u8>, write: &Write) -> Result<(), Memory>
    ensures { OnOk result (out.new.items ≡ out.old.items ++ entry_bytes write.now) }
{
    match write {
        Write::Upsert { key, bytes } => {
            put_u64(out, *key)?;
            out.push(UPSERT)?;
            out.extend_from_slice(bytes.as_slice())
        }
        Write::Delete { key } => {
            put_u64(out, *key)?;
            out.push(DELETE)?;
            Ok(())
        }
    }
}
