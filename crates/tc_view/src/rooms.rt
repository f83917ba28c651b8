//! Rooms in which chunks to come are made.

ghost use Rattle.std.specs.Prelude.{◌≡◌, [], IfOk};

use crate::piece::Piece;
use std::alloc::Global;
use tc_bytes::Memory;

/// How many rooms are taken at once.
const AT_ONCE: usize = 16;

/// Room for the writes of a chunk.
#[derive(Drop)]
pub(crate) struct Room {
    pub(crate) pieces: Vec<Piece>,
    pub(crate) bytes: Vec<u8>,
}

/// Rooms for chunks to come. Each window of lines frees many small rooms, and the allocator sorts them all where it is asked for
/// a large one. So many large ones are taken at once, each with room for a chunk like the one that wanted them.
#[derive(Drop)]
pub struct Rooms {
    spare: Vec<Room>,
}

impl Rooms {
    /// None yet. Takes no memory.
    pub fn new(alloc: Global) -> Rooms {
        Rooms {
            spare: Vec::new(alloc),
        }
    }

    /// An empty room, where it can be for so many writes, whose records have so many bytes. Errs only for want of memory.
    pub(crate) fn take(
        &mut self,
        alloc: Global,
        writes: usize,
        bytes: usize,
    ) -> Result<Room, Memory>
        ensures { IfOk result (λ room. (room.pieces.items ≡ []) × (room.bytes.items ≡ [])) }
    {
        if self.spare.is_empty() {
            self.fill(alloc, writes, bytes)?;
        }
        match self.spare.pop() {
            Some(room) => emptied(alloc, room, writes, bytes),
            None => room_for(alloc, writes, bytes),
        }
    }

    /// Takes rooms for a while. They have a quarter more, since no chunk is like another. Errs only for want of memory.
    fn fill(&mut self, alloc: Global, writes: usize, bytes: usize) -> Result<(), Memory> {
        let most = bytes.saturating_add(bytes / 4);
        for _ in 0..AT_ONCE {
            self.spare.push(room_for(alloc, writes, most)?)?;
        }
        Ok(())
    }
}

/// The room with nothing in it, or another one where it is too small.
fn emptied(alloc: Global, room: Room, writes: usize, bytes: usize) -> Result<Room, Memory>
    ensures { IfOk result (λ room. (room.pieces.items ≡ []) × (room.bytes.items ≡ [])) }
{
    if room.pieces.capacity() < writes || room.bytes.capacity() < bytes {
        return room_for(alloc, writes, bytes);
    }
    let mut room = room;
    room.pieces.clear();
    room.bytes.clear();
    Ok(room)
}

/// An empty room for so much.
fn room_for(alloc: Global, writes: usize, bytes: usize) -> Result<Room, Memory>
    ensures { IfOk result (λ room. (room.pieces.items ≡ []) × (room.bytes.items ≡ [])) }
{
    Ok(Room {
        pieces: Vec::with_capacity(alloc, writes)?,
        bytes: Vec::with_capacity(alloc, bytes)?,
    })
}
