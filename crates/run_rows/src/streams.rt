//! Sources and sinks that stand over readers and writers of std, and a source that tells its reads.

ghost use Rattle.std.specs.Prelude.{◌≡◌, ◌≤◌, Option, None, Some, List, ◌∷◌, map, IfOk, OnOk, OnErr};

use std::alloc::{AllocError, Global};
use std::io::{self, ErrorKind, Read, Write};
use std::str;
use tc_edge::{EdgeFault, MemSink, Source, StdSink, StdSource, WriteFault, write_all};

// A reader and writer of one byte a call, whose first calls answer errors.
#[derive(Drop)]
struct Stuttering {
    errors: usize,
    kind: ErrorKind,
    calls: usize,
}

impl Stuttering {
    fn stutters(&mut self) -> io::Result<usize>
        ensures { IfOk result (λ n. n ≤ 1) }
    {
        self.calls = self.calls.saturating_add(1);
        if self.calls <= self.errors {
            return Err(io::Error::from(self.kind));
        }
        Ok(1)
    }
}

impl Read for Stuttering {
    fn read(&mut self, buf: &mut [u8]) -> io::Result<usize> {
        let count = self.stutters()?.min(buf.len());
        buf[..count].fill(b'x');
        Ok(count)
    }
}

impl Write for Stuttering {
    fn write(&mut self, buf: &[u8]) -> io::Result<usize> {
        Ok(self.stutters()?.min(buf.len()))
    }

    fn flush(&mut self) -> io::Result<()> {
        Ok(())
    }
}

/// What two reads and a write of two bytes answer over a reader and a writer whose first calls err: how many, and by which kind
/// of error.
pub(crate) fn read_and_write(alloc: Global, argument: &str) -> Option<String> {
    let (errors, kind) = argument.split_once(' ')?;
    let errors = errors.parse::<usize>().ok()?;
    let kind = kind_of(kind)?;
    let begun = || Stuttering {
        errors,
        kind,
        calls: 0,
    };
    let seen = reads(alloc, &mut StdSource::new(begun()), 2).ok()?;
    let seen = str::from_utf8(seen.as_slice()).ok()?;
    match write_all(&mut StdSink::new(begun()), b"ab") {
        Ok(()) => format!(in alloc; "read {seen}, written\n").ok(),
        Err(WriteFault { taken }) => format!(in alloc; "read {seen}, {taken} written\n").ok(),
    }
}

fn kind_of(name: &str) -> Option<ErrorKind> {
    match name {
        "interrupted" => Some(ErrorKind::Interrupted),
        "broken pipe" => Some(ErrorKind::BrokenPipe),
        "would block" => Some(ErrorKind::WouldBlock),
        _ => None,
    }
}

// What a number of reads into four bytes gave: the bytes of each, or `!` for a fault.
fn reads<I: Source<MemSink>>(
    alloc: Global,
    source: &mut I,
    calls: usize,
) -> Result<Vec<u8>, AllocError> {
    let beside = MemSink::new(alloc, 0, Vec::new(alloc));
    let mut seen = Vec::new(alloc);
    for _ in 0..calls {
        let mut piece = [b'?'; 4];
        match source.read(&mut piece, &beside) {
            Ok(count) => seen.extend_from_slice(&piece[..count])?,
            Err(EdgeFault) => seen.extend_from_slice(b"!")?,
        }
        seen.extend_from_slice(b"|")?;
    }
    Ok(seen)
}

// A read: what the sink had accepted, and the bytes that it gave.
#[derive(Drop)]
struct Kept {
    accepted: Vec<u8>,
    given: Vec<u8>,
}

// A source of one byte a read, which keeps its reads, the newest first.
#[derive(Drop)]
struct Telling {
    kept: Vec<Kept>,
    faults: u64,
}

impl Telling {
    fn keep(&mut self, alloc: Global, accepted: &[u8], given: &[u8]) -> Result<(), AllocError>
        ensures kept { OnOk result ((kept : Kept) × (self.new.kept.items ≡ kept ∷ self.old.kept.items)
            × (kept.accepted.items ≡ accepted.now) × (kept.given.items ≡ given.now)) }
        ensures same { OnErr result (self.new.kept.items ≡ self.old.kept.items) }
        ensures faults { self.new.faults ≡ self.old.faults }
    {
        let kept = Kept {
            accepted: Vec::from_slice(alloc, accepted)?,
            given: Vec::from_slice(alloc, given)?,
        };
        Ok(self.kept.insert(0, kept)?)
    }
}

impl Source<MemSink> for Telling {
    ghost left = { λ s. None };

    ghost faults = { λ s. s.faults };

    ghost moments = { λ s. Some (map
        (λ kept. record { accepted = Some kept.accepted.items; given = kept.given.items }) s.kept.items) };

    fn read(&mut self, into: &mut [u8], beside: &MemSink) -> Result<usize, EdgeFault> {
        let alloc = *self.kept.allocator();
        let count = into.len().min(1);
        into[..count].fill(b'x');
        if self.keep(alloc, beside.taken(), &into[..count]).is_err() {
            self.faults = self.faults.saturating_add(1);
            return Err(EdgeFault);
        }
        Ok(count)
    }
}

/// What a source tells of two reads, with this text written between them: of each what the sink had accepted, and what the read
/// gave, the newest first.
pub(crate) fn told(alloc: Global, written: &str) -> Option<String> {
    let mut sink = MemSink::new(alloc, 9, Vec::new(alloc));
    let mut source = Telling {
        kept: Vec::new(alloc),
        faults: 0,
    };
    let mut place = [0u8; 4];
    source.read(&mut place, &sink).ok()?;
    write_all(&mut sink, written.as_bytes()).ok()?;
    source.read(&mut place, &sink).ok()?;
    let mut text = String::new(alloc);
    for kept in source.kept.iter() {
        let accepted = str::from_utf8(kept.accepted.as_slice()).ok()?;
        let given = str::from_utf8(kept.given.as_slice()).ok()?;
        let line = format!(in alloc; "accepted {accepted}, given {given}\n").ok()?;
        text.push_str(line.as_str()).ok()?;
    }
    Some(text)
}

/// The texts of the faults of streams.
pub(crate) fn faults(alloc: Global) -> Option<String> {
    let fault = WriteFault { taken: 7 };
    format!(in alloc; "{EdgeFault}\n{fault}\n").ok()
}
