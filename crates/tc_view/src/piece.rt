//! A write whose record lies among those of others.

ghost use Rattle.std.specs.Prelude.{◌≡◌, IfOk, OnOk};
ghost use mathlib.Core.List.{IsPrefix};
ghost use Rattle.tc_view.specs.Pieces.{write_in, LiesIn};

use tc_bytes::Memory;
use tc_log::Write;

/// Where a record begins and ends.
#[derive(Clone, Copy)]
pub(crate) struct Span {
    pub(crate) begin: usize,
    pub(crate) end: usize,
}

/// The key of a write, and where its record lies. That of a deletion has none.
#[derive(Clone, Copy)]
pub(crate) struct Piece {
    pub(crate) key: u64,
    pub(crate) record: Option<Span>,
}

/// The piece of a write, whose record is put behind the others. Errs only for want of memory.
pub(crate) fn put(bytes: &mut Vec<u8>, write: &Write) -> Result<Piece, Memory>
    ensures lies { IfOk result (LiesIn bytes.new.items) }
    ensures same { IfOk result (λ piece. write_in bytes.new.items piece ≡ write.now) }
    ensures others { OnOk result (IsPrefix bytes.old.items bytes.new.items) }
{
    match write {
        Write::Upsert { key, bytes: record } => {
            let begin = bytes.len();
            bytes.extend_from_slice(record.as_slice())?;
            let end = bytes.len();
            Ok(Piece {
                key: *key,
                record: Some(Span { begin, end }),
            })
        }
        Write::Delete { key } => Ok(Piece {
            key: *key,
            record: None,
        }),
    }
}
