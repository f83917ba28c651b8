//! The schema of a component, in memory: the bytes that spell it.

ghost use Rattle.std.specs.Prelude.{◌≡◌, IfOk};
ghost use Rattle.tc_schema_model.specs.Counted.{documents_of};
ghost use Rattle.tc_schema_model.specs.SchemaTree.{schema_tree};
ghost use Rattle.tc_schema_model.specs.SchemaBytes.{schema_bytes, IsSchema};
ghost use Rattle.tc_component.specs.Counts.{counts_of};

use std::alloc::{AllocError, Global};
use std::marker::Model;
use std::snapshot::Snapshot;
use tc_bytes::{Bytes, Memory};
use tc_schema::{Schema, SchemaFault};

/// A schema is asked for rarely, and its tree takes many times the memory of the bytes that spell it. So the bytes are kept, and
/// are read when it is asked for. Contracts see the schema.
#[derive(Drop)]
pub(crate) struct KeptSchema {
    bytes: Vec<u8>,
    documents: u64,
    of: Snapshot<Schema>,
}

impl Model for KeptSchema {
    ghost use Rattle.std.specs.Prelude.{◌≡◌};
    ghost use Rattle.tc_schema_model.specs.Counted.{Counted, documents_of};
    ghost use Rattle.tc_schema_model.specs.CountedCode.{coded_counted};
    ghost use Rattle.tc_schema_model.specs.SchemaTree.{schema_tree};
    ghost use Rattle.tc_schema_model.specs.SchemaBytes.{schema_bytes};

    ghost Value = { Counted };

    ghost coded = { coded_counted };

    ghost view = { λ k. k.of.value };

    ghost invariant = { λ k. (k.bytes.items ≡ schema_bytes (schema_tree k.of.value)) × (k.documents ≡ documents_of k.of.value) };
}

impl KeptSchema {
    /// Keeps a schema that these bytes spell. Errs only for want of memory.
    pub(crate) fn of(alloc: Global, schema: &Schema, bytes: &[u8]) -> Result<KeptSchema, Memory>
        requires { bytes.now ≡ schema_bytes (schema_tree schema.now) }
        ensures { IfOk result (λ kept. kept ≡ schema.now) }
    {
        Ok(KeptSchema {
            bytes: Vec::from_slice(alloc, bytes)?,
            documents: schema.documents(),
            of: Snapshot::of(schema),
        })
    }

    /// How many documents are counted.
    pub(crate) fn documents(&self) -> u64
        ensures { result ≡ documents_of self.now }
    {
        self.documents
    }

    /// The schema, whose numbers are below `names`. Errs only for want of memory.
    pub(crate) fn read(&self, alloc: Global, names: u32) -> Result<Schema, Memory>
        requires { IsSchema names self.now }
        ensures { IfOk result (λ schema. schema ≡ self.now) }
    {
        match Schema::from_bytes(alloc, &self.bytes, names) {
            Ok(schema) => Ok(schema),
            Err(SchemaFault::NotASchema) => unreachable!(),
            Err(SchemaFault::Memory) => Err(AllocError),
        }
    }
}

/// A schema that is to be written: as its tree, or as it is kept.
#[derive(Clone, Copy)]
pub(crate) enum Counts<'a> {
    Of(&'a Schema),
    Kept(&'a KeptSchema),
}

impl<'a> Counts<'a> {
    /// The bytes that spell it. Errs only for want of memory.
    pub(crate) fn to_bytes(self, alloc: Global) -> Result<Bytes, Memory>
        ensures { IfOk result (λ bytes. bytes ≡ schema_bytes (schema_tree (counts_of self.entry))) }
    {
        match self {
            Counts::Of(schema) => schema.to_bytes(alloc),
            Counts::Kept(kept) => Ok(Bytes::of(Vec::from_slice(alloc, &kept.bytes)?)),
        }
    }
}
