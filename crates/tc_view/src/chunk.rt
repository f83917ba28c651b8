//! The writes of one frame.

ghost use Rattle.std.specs.Prelude.{◌≡◌, ◌<◌, Some, length, option_map, slice_get, IfOk};
ghost use Rattle.tc_log.specs.Writes.{write_of};

use crate::piece::{Piece, put};
use crate::rooms::{Room, Rooms};
use std::alloc::Global;
use std::marker::Model;
use tc_bytes::Memory;
use tc_log::Write;

/// The writes of one frame of the log, the oldest first. Views share it, and keep it for long. It copies the records into one
/// room: if each kept the room that it was read into, the allocator would have a cold room for each record that is read after.
/// Contracts see the writes.
#[derive(Drop)]
pub struct Chunk {
    pieces: Vec<Piece>,
    bytes: Vec<u8>,
}

impl Model for Chunk {
    ghost use Rattle.std.specs.Prelude.{All, List, map};
    ghost use Rattle.tc_log.specs.declared.write.Write.{Write};
    ghost use Rattle.tc_view.specs.Pieces.{write_in, LiesIn};

    ghost Value = { List Write };

    ghost view = { λ c. map (write_in c.bytes.items) c.pieces.items };

    ghost invariant = { λ c. All (LiesIn c.bytes.items) c.pieces.items };
}

impl Chunk {
    /// The chunk of these writes, of which it copies the records into one of these rooms. Errs only for want of memory.
    pub fn of(alloc: Global, rooms: &mut Rooms, writes: &[Write]) -> Result<Chunk, Memory>
        ensures same { IfOk result (λ chunk. chunk ≡ writes.now) }
    {
        let room = rooms.take(alloc, writes.len(), records_len(writes))?;
        let Room {
            mut pieces,
            mut bytes,
        } = room;
        for write in writes {
            pieces.push(put(&mut bytes, write)?)?;
        }
        Ok(Chunk { pieces, bytes })
    }

    /// How many writes there are. Takes no memory.
    pub fn len(&self) -> usize
        ensures { result ≡ length self.now }
    {
        self.pieces.len()
    }

    /// The key of a write, and its record. A deletion has none. Takes no memory.
    pub fn write(&self, at: usize) -> (u64, Option<&[u8]>)
        requires { at < length self.now }
        ensures { slice_get self.now at ≡ Some (write_of (result.0, option_map (λ bytes. bytes.now) result.1)) }
    {
        let piece = self.pieces[at];
        match piece.record {
            Some(span) => (piece.key, Some(&self.bytes[span.begin..span.end])),
            None => (piece.key, None),
        }
    }
}

/// How many bytes the records of these writes have, if a number counts as many: the room that is asked for at once.
fn records_len(writes: &[Write]) -> usize {
    let mut len: usize = 0;
    for write in writes {
        if let Write::Upsert { key: _, bytes } = write {
            len = len.saturating_add(bytes.as_slice().len());
        }
    }
    len
}
