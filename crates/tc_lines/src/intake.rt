//! The bytes that were taken from a source and not given out yet, and the reads that take more.

ghost use Rattle.std.specs.Prelude.{◌≡◌, ℕ, ◌+◌, ◌-◌, ◌≤◌, ◌<◌, ◌↔◌, false, List, [], ◌∷◌, ◌++◌, ◌==◌, length, take, drop, IfOk, IfSome, OnOk, OnErr, IsErrOf, IsTrue, MatchOption, Err, vec_len};
ghost use Rattle.std.specs.Io.KnownBytes.{Consumes, IsAtEnd, Keeps, ReadConsumes};
ghost use Rattle.tc_edge.specs.Faults.{HasCause};
ghost use Rattle.tc_edge.specs.Moments.{one_read, with_further};
ghost use Rattle.tc_bytes.specs.Counts.{Rose};
ghost use Rattle.tc_lines.specs.declared.intake.TheConstants.{PIECE, MAX_TAKEN};
ghost use Rattle.tc_lines.specs.Holding.{Holding, IsOneLine, HasFeedAt};

use memchr::memchr;
use std::alloc::Global;
use std::marker::Model;
use std::mem;
use tc_bytes::{Bytes, Memory};
use tc_edge::{EdgeFault, Sink, Source};

/// At most so many bytes are taken from a source in one read.
pub const PIECE: usize = 65_536;

/// At most so many bytes are taken from a source in all.
pub const MAX_TAKEN: u64 = 9_223_372_036_854_775_807;

/// Why no byte was taken.
#[derive(Clone, Copy)]
pub enum Stop {
    ReadFault,
    Spent,
    Memory,
}

/// The bytes at `start..end` of the last read stand behind those of earlier reads in `front`. So a
/// byte is copied into `front` at most once, and is never moved within it.
#[derive(Drop)]
pub struct Intake {
    front: Vec<u8>,
    piece: Vec<u8>,
    start: usize,
    end: usize,
    taken: u64,
    ended: bool,
}

impl Model for Intake {
    ghost Value = { Holding };

    ghost view = { λ a. record {
      front = a.front.items;
      rest = take (a.end - a.start) (drop a.start a.piece.items);
      taken = a.taken;
      ended = a.ended;
    } };

    ghost invariant = { λ a. (a.start ≤ a.end) × (a.end ≤ length a.piece.items)
        × (length a.piece.items ≤ PIECE) × (a.taken ≤ MAX_TAKEN) };
}

impl Intake {
    /// Nothing was taken yet.
    pub fn new(alloc: Global) -> Intake
        ensures { result ≡ record { front = []; rest = []; taken = 0; ended = false } }
    {
        Intake {
            front: Vec::new(alloc),
            piece: Vec::new(alloc),
            start: 0,
            end: 0,
            taken: 0,
            ended: false,
        }
    }

    /// Whether the source told of its end.
    pub fn ended(&self) -> bool
        ensures ended { result ≡ self.now.ended }
        ensures count { self.now.taken ≤ MAX_TAKEN }
    {
        self.ended
    }

    /// How many bytes of the last read stand before its first line feed.
    pub fn find_feed(&self) -> Option<usize>
        ensures feed { MatchOption result (IsOneLine self.now.rest) (HasFeedAt self.now.rest) }
        ensures within { IfSome result (λ n. n < length self.now.rest) }
        ensures piece { length self.now.rest ≤ PIECE }
        ensures count { self.now.taken ≤ MAX_TAKEN }
    {
        memchr(b'\n', &self.piece[self.start..self.end])
    }

    /// Whether the line of all that is held has more bytes than this.
    pub fn exceeds(&self, limit: usize) -> bool
        ensures { IsTrue result ↔ (limit < length (self.now.front ++ self.now.rest)) }
    {
        let rest = self.end - self.start;
        self.front.len() > limit || rest > limit - self.front.len()
    }

    /// Whether the line of what earlier reads left, and of so many bytes more, has more bytes than
    /// this.
    pub fn exceeds_at(&self, limit: usize, len: usize) -> bool
        ensures { IsTrue result ↔ (limit < length self.now.front + len) }
    {
        self.front.len() > limit || len > limit - self.front.len()
    }

    /// Makes the last read an earlier one. After an `Err` nothing has changed.
    pub fn carry_over(&mut self) -> Result<(), Memory>
        ensures ok { OnOk result (self.new ≡ record self.old {
          front = self.old.front ++ self.old.rest;
          rest = [];
        }) }
        ensures err { OnErr result (self.new ≡ self.old) }
    {
        self.front
            .extend_from_slice(&self.piece[self.start..self.end])?;
        self.start = self.end;
        Ok(())
    }

    /// Drops all that is held.
    pub fn clear(&mut self)
        ensures { self.new ≡ record self.old { front = []; rest = [] } }
    {
        self.front.clear();
        self.start = self.end;
    }

    /// The bytes that earlier reads left, which are held no more.
    pub fn take_front(&mut self, alloc: Global) -> Bytes
        ensures line { result ≡ self.old.front }
        ensures left { self.new ≡ record self.old { front = [] } }
    {
        Bytes::of(mem::replace(&mut self.front, Vec::new(alloc)))
    }

    /// The line before a line feed that stands behind `len` bytes of the last read. After an `Err`
    /// nothing has changed.
    pub fn take_line(&mut self, alloc: Global, len: usize) -> Result<Bytes, Memory>
        requires { len < length self.old.rest }
        ensures line { IfOk result (λ line. line ≡ self.old.front ++ take len self.old.rest) }
        ensures left { OnOk result (self.new ≡ record self.old {
          front = [];
          rest = drop (len + 1) self.old.rest;
        }) }
        ensures err { OnErr result (self.new ≡ self.old) }
    {
        let tail = &self.piece[self.start..self.start + len];
        let line = joined(alloc, &mut self.front, tail)?;
        self.start += len + 1;
        Ok(Bytes::of(line))
    }

    /// Drops the line before a line feed.
    pub fn drop_line(&mut self, len: usize)
        requires { len < length self.old.rest }
        ensures { self.new ≡ record self.old {
          front = [];
          rest = drop (len + 1) self.old.rest;
        } }
    {
        self.front.clear();
        self.start += len + 1;
    }

    /// Takes the next bytes of the source, beside a sink. `Ok(0)` is its end. After an `Err` nothing
    /// has changed.
    pub fn read<I: Source<O>, O: Sink>(&mut self, source: &mut I, sink: &O) -> Result<usize, Stop>
        requires { self.old.rest ≡ [] }
        ensures ok { IfOk result (λ n. (length self.new.rest ≡ n)
            × (self.new ≡ record self.old {
              rest = self.new.rest;
              taken = self.old.taken + n;
              ended = n == 0;
            })) }
        ensures bytes { IfOk result (λ n. Consumes (I.left source.old) (I.left source.new) self.new.rest
            × (n ≡ 0 → IsAtEnd (I.left source.new))) }
        ensures err { OnErr result ((self.new ≡ self.old) × Keeps (I.left source.old) (I.left source.new)) }
        ensures told { OnOk result (I.moments source.new
            ≡ with_further (one_read (O.taken sink.now) self.new.rest) (I.moments source.old)) }
        ensures untold { OnErr result (I.moments source.new ≡ I.moments source.old) }
        ensures fault { IsErrOf result Stop.ReadFault → Rose (I.faults source.old) (I.faults source.new) }
        ensures kept { I.faults source.old ≤ I.faults source.new }
        ensures unread { OnErr result (¬ IsErrOf result Stop.ReadFault → source.new ≡ source.old) }
        ensures spent { IsErrOf result Stop.Spent ↔ (self.old.taken ≡ MAX_TAKEN) }
        ensures below { ¬ IsErrOf result Stop.Spent → self.old.taken < MAX_TAKEN }
        ensures count { self.new.taken ≤ MAX_TAKEN }
        ensures piece { length self.new.rest ≤ PIECE }
    {
        self.start = 0;
        self.end = 0;
        if self.taken == MAX_TAKEN {
            return Err(Stop::Spent);
        }
        if open_piece(&mut self.piece).is_err() {
            return Err(Stop::Memory);
        }
        let most = (MAX_TAKEN - self.taken).min(PIECE as u64) as usize;
        let Ok(count) = read_front(source, sink, self.piece.as_mut_slice(), most) else {
            return Err(Stop::ReadFault);
        };
        self.end = count;
        self.taken += count as u64;
        self.ended = count == 0;
        Ok(count)
    }
}

// The two parts of a line in one vector. After an `Err` nothing has changed.
fn joined(alloc: Global, front: &mut Vec<u8>, tail: &[u8]) -> Result<Vec<u8>, Memory>
    ensures line { IfOk result (λ line. line.items ≡ front.old.items ++ tail.now) }
    ensures ok { OnOk result (front.new.items ≡ []) }
    ensures err { OnErr result (front.new.items ≡ front.old.items) }
{
    if front.is_empty() {
        return Vec::from_slice(alloc, tail);
    }
    front.extend_from_slice(tail)?;
    Ok(mem::replace(front, Vec::new(alloc)))
}

// Makes the place of a piece. After an `Err` nothing has changed.
fn open_piece(piece: &mut Vec<u8>) -> Result<(), Memory>
    requires { vec_len piece.old ≤ PIECE }
    ensures ok { OnOk result (vec_len piece.new ≡ PIECE) }
    ensures err { OnErr result (piece.new.items ≡ piece.old.items) }
{
    if piece.len() < PIECE {
        piece.resize(PIECE, 0)?;
    }
    Ok(())
}

// Reads into the first bytes of the place.
fn read_front<I: Source<O>, O: Sink>(
    source: &mut I,
    sink: &O,
    place: &mut [u8],
    most: usize,
) -> Result<usize, EdgeFault>
    requires some { 0 < most }
    requires within { most ≤ length place.old }
    ensures bound { IfOk result (λ n. n ≤ most) }
    ensures bytes { ReadConsumes (I.left source.old) (I.left source.new) result place.new }
    ensures cause { HasCause (I.faults source.old) (I.faults source.new) result }
    ensures told { IfOk result (λ n. I.moments source.new
        ≡ with_further (one_read (O.taken sink.now) (take n place.new)) (I.moments source.old)) }
    ensures untold { OnErr result (I.moments source.new ≡ I.moments source.old) }
{
    source.read(&mut place[..most], sink)
}
