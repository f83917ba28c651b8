//! What is guessed of a document from those before it.

use crate::members::Orders;

// The depths that a list in a line can have: that of the line's own object, and those of a document.
const DEPTHS: usize = 33;

// How many elements a vector has room for once it holds one, without a guess.
const FIRST_ROOM: usize = 4;

// The most elements that there is room for by a guess, 7 KiB of members: what a short list takes behind a long one.
const MAX_ROOM: usize = 128;

/// Guesses from the documents before.
#[derive(Drop)]
pub(crate) struct Guesses {
    pub(crate) orders: Orders,
    pub(crate) items: Lengths,
    pub(crate) members: Lengths,
}

impl Guesses {
    /// Before any document.
    pub(crate) fn new() -> Guesses {
        Guesses {
            orders: Orders::new(),
            items: Lengths::new(),
            members: Lengths::new(),
        }
    }
}

/// How long the last list was at each depth. The next one there is mostly as long, and need not grow if it begins with room
/// for as many. By a guess a list takes no more room than the one before it filled, so documents take at most twice as much.
#[derive(Drop)]
pub(crate) struct Lengths {
    rooms: [usize; DEPTHS],
}

impl Lengths {
    fn new() -> Lengths {
        Lengths { rooms: [0; DEPTHS] }
    }

    /// For how many elements a list begins with room, by how many levels there may be below it. For none where the room
    /// that comes with the first element is enough.
    pub(crate) fn room(&self, levels: u32) -> usize {
        let depth = levels as usize;
        if depth < DEPTHS { self.rooms[depth] } else { 0 }
    }

    /// Keeps the length of a list.
    pub(crate) fn keep(&mut self, levels: u32, length: usize) {
        let depth = levels as usize;
        if depth < DEPTHS {
            self.rooms[depth] = if length > FIRST_ROOM {
                length.min(MAX_ROOM)
            } else {
                0
            };
        }
    }
}
