//! The replies.

ghost use Rattle.std.specs.Prelude.{◌≡◌};

use crate::refusals::Refusal;
use std::marker::Model;
use tc_bytes::Bytes;

/// The row of a key: its JSON text, which has the id and the values that a query reached in the document.
#[derive(Drop, Debug)]
pub struct Row {
    pub id: u64,
    pub text: Bytes,
}

/// Rows of a reply. Contracts see the list.
#[derive(Drop, Debug)]
pub struct Rows {
    rows: Vec<Row>,
}

impl Model for Rows {
    ghost use Rattle.std.specs.Prelude.{List, map};
    ghost use Rattle.std.specs.Coded.{coded_list};
    ghost use Rattle.tc_request_model.specs.Rendered.{RowText};
    ghost use Rattle.tc_command.specs.Rows.{row_of, coded_row};

    ghost Value = { List RowText };

    ghost coded = { coded_list coded_row };

    ghost view = { λ r. map row_of r.rows.items };
}

/// A count of writes for each partition. Contracts see the list.
#[derive(Drop, Debug)]
pub struct Counts {
    counts: Vec<u64>,
}

impl Model for Counts {
    ghost use Rattle.std.specs.Prelude.{List, ℕ};

    ghost Value = { List ℕ };

    ghost view = { λ c. c.counts.items };
}

/// The JSON text of a schema for each partition. Contracts see the list.
#[derive(Drop, Debug)]
pub struct Schemas {
    texts: Vec<Bytes>,
}

impl Model for Schemas {
    ghost use Rattle.std.specs.Prelude.{List, ℕ};

    ghost Value = { List (List ℕ) };

    ghost view = { λ s. s.texts.items };
}

impl Rows {
    ghost use Rattle.std.specs.Prelude.{map};
    ghost use Rattle.tc_command.specs.Rows.{row_of};

    /// The rows of a reply. Takes no memory.
    pub fn of(rows: Vec<Row>) -> Rows
        ensures { result ≡ map row_of rows.items }
    {
        Rows { rows }
    }

    /// The rows, borrowed.
    pub fn as_slice(&self) -> &[Row]
        ensures { map row_of result.now ≡ self.now }
    {
        self.rows.as_slice()
    }

    /// The rows as a vector. Takes no memory.
    pub fn into_inner(self) -> Vec<Row>
        ensures { map row_of result.items ≡ self }
    {
        self.rows
    }
}

impl Counts {
    /// The counts of a reply. Takes no memory.
    pub fn of(counts: Vec<u64>) -> Counts
        ensures { result ≡ counts.items }
    {
        Counts { counts }
    }

    /// The counts, borrowed.
    pub fn as_slice(&self) -> &[u64]
        ensures { result.now ≡ self.now }
    {
        self.counts.as_slice()
    }

    /// The counts as a vector. Takes no memory.
    pub fn into_inner(self) -> Vec<u64>
        ensures { result.items ≡ self }
    {
        self.counts
    }
}

impl Schemas {
    /// The schemas of a reply. Takes no memory.
    pub fn of(texts: Vec<Bytes>) -> Schemas
        ensures { result ≡ texts.items }
    {
        Schemas { texts }
    }

    /// The texts, borrowed.
    pub fn as_slice(&self) -> &[Bytes]
        ensures { result.now ≡ self.now }
    {
        self.texts.as_slice()
    }

    /// The texts as a vector. Takes no memory.
    pub fn into_inner(self) -> Vec<Bytes>
        ensures { result.items ≡ self }
    {
        self.texts
    }
}

/// What the store answers. The text of `Got` is that of the document with its member `id`.
#[derive(Drop)]
pub enum Reply {
    Upserted { id: u64, replaced: bool },
    Deleted { id: u64, found: bool },
    Got { id: u64, text: Option<Bytes> },
    Rows(Rows),
    Flushed,
    Schemas(Schemas),
    Started,
    Collected { rows: Rows, upto: Counts },
    Refused(Refusal),
}
