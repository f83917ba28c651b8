//! A whole schema.

ghost use Rattle.std.specs.Prelude.{◌≡◌, ◌≢◌, ◌↔◌, ◌≤◌, ◌++◌, List, IfOk, OnOk, IsErrOf, IsTrue};
ghost use Rattle.tc_schema_model.specs.Counted.{Counted, nothing, shows, total_at, IsCanonical, documents_of};
ghost use Rattle.tc_schema_model.specs.Bounds.{greatest_total};
ghost use Rattle.tc_schema_model.specs.Occurrences.{Path};
ghost use Rattle.tc_schema_model.specs.SchemaText.{tree_text, schema_text};
ghost use Rattle.tc_model.specs.Document.{Name, Document};
ghost use Rattle.tc_schema_model.specs.Stands.{StandsFor};
ghost use Rattle.serde_json.specs.Written.{compact_text};
ghost use Rattle.tc_schema.specs.Paths.{path_meant};
ghost use Rattle.tc_value.specs.Kinds.{kind_meant};
ghost use Rattle.tc_schema_model.specs.SchemaTree.{schema_tree};
ghost use Rattle.tc_schema_model.specs.SchemaBytes.{schema_bytes, IsSchema};
ghost use Rattle.tc_schema.specs.Places.{place_counted, most_names};

use crate::bounds::{greatest_count, is_below};
use crate::fault::SchemaFault;
use crate::paths::count_from;
use crate::place::Node;
use crate::reading::{MAX_LEVELS, read_root};
use crate::text::put_place_text;
use crate::writing::put_place;
use std::alloc::{AllocError, Global};
use std::marker::Model;
use tc_bytes::{Bytes, Memory};
use tc_names::Names;
use tc_value::{Kind, Step};

/// What documents have together: at each place how many values of each kind stand there. Nothing is kept that counts
/// nothing, and the fields of a place ascend by the numbers of their names. Contracts see what is counted.
#[derive(Drop, Debug)]
pub struct Schema {
    root: Node,
}

impl Model for Schema {
    ghost use Rattle.tc_schema_model.specs.Counted.{Counted, IsCanonical};
    ghost use Rattle.tc_schema_model.specs.CountedCode.{coded_counted};
    ghost use Rattle.tc_schema.specs.Places.{place_counted, most_names};

    ghost Value = { Counted };

    ghost coded = { coded_counted };

    ghost view = { λ a. place_counted a.root };

    ghost invariant = { λ a. IsCanonical most_names (place_counted a.root) };
}

impl Schema {
    /// The schema of no document. Takes no memory.
    pub fn empty(alloc: Global) -> Schema
        ensures { result ≡ nothing }
    {
        Schema {
            root: Node::new(alloc),
        }
    }

    /// The schema of a root place. Takes no memory.
    pub fn of(root: Node) -> Schema
        requires { IsCanonical most_names (place_counted root) }
        ensures { result ≡ place_counted root }
    {
        Schema { root }
    }

    /// The root place, borrowed.
    pub fn root(&self) -> &Node
        ensures counted { place_counted result.now ≡ self.now }
        ensures canonical { IsCanonical most_names self.now }
    {
        &self.root
    }

    /// The root place. Takes no memory.
    pub fn into_root(self) -> Node
        ensures counted { place_counted result ≡ self }
        ensures canonical { IsCanonical most_names self }
    {
        self.root
    }

    /// How many documents are counted.
    pub fn documents(&self) -> u64
        ensures { result ≡ documents_of self.now }
    {
        self.root.counts.total()
    }

    /// The most values that any one place counts, so that no path has more. Takes no memory.
    pub fn greatest(&self) -> u64
        ensures exact { result ≡ greatest_total self.now }
        ensures bound { (names : List Name) (path : Path) → total_at names self.now path ≤ result }
    {
        greatest_count(self.root())
    }

    /// Whether the schema is in the one form with all numbers of names below a limit. Takes no memory.
    pub fn numbers_below(&self, limit: u32) -> bool
        ensures canonical { IsTrue result ↔ IsCanonical limit self.now }
    {
        is_below(self.root(), limit)
    }

    /// The counter for a kind at a path, or 0 where nothing is counted there. Takes no memory.
    pub fn count_at(&self, names: &Names, path: &[Step], kind: Kind) -> u64
        ensures { result ≡ shows names.now self.now (path_meant path.now) (kind_meant kind) }
    {
        count_from(&self.root, names, path, kind)
    }

    /// The same schema in memory of its own. Errs only for want of memory.
    pub fn copy(&self, alloc: Global) -> Result<Schema, AllocError>
        ensures { IfOk result (λ copied. copied ≡ self.now) }
    {
        Ok(Schema {
            root: self.root.copy(alloc)?,
        })
    }

    /// The schema's bytes. Errs only for want of memory.
    pub fn to_bytes(&self, alloc: Global) -> Result<Bytes, Memory>
        ensures { IfOk result (λ bytes. bytes ≡ schema_bytes (schema_tree self.now)) }
    {
        let mut out = Vec::new(alloc);
        if self.documents() == 0 {
            out.push(0)?;
        } else {
            put_place(&self.root, &mut out)?;
        }
        Ok(Bytes::of(out))
    }

    /// The schema that the bytes spell, with numbers below `names`. `NotASchema` comes exactly where no schema of
    /// documents spells them.
    pub fn from_bytes(alloc: Global, bytes: &[u8], names: u32) -> Result<Schema, SchemaFault>
        ensures found { IfOk result (λ schema. bytes.now ≡ schema_bytes (schema_tree schema)) }
        ensures schema { IfOk result (IsSchema names) }
        ensures only { IfOk result (λ schema. (other : Counted) → IsSchema names other → bytes.now ≡ schema_bytes (schema_tree other) → schema ≡ other) }
        ensures refused { IsErrOf result SchemaFault.NotASchema → (schema : Counted) → IsSchema names schema → bytes.now ≢ schema_bytes (schema_tree schema) }
    {
        let root = read_root(bytes, MAX_LEVELS, names, alloc)?;
        Ok(Schema { root })
    }

    /// Puts the schema's text after other text: compact JSON, whose members stand in ascending order. A number without a
    /// name has the empty name. Errs only for want of memory, and then leaves some first part of the text.
    pub fn put_text(
        &self,
        alloc: Global,
        names: &Names,
        out: &mut Vec<u8>,
    ) -> Result<(), AllocError>
        ensures tree { OnOk result (out.new.items ≡ out.old.items ++ compact_text (tree_text names.now (schema_tree self.now))) }
        ensures documents { OnOk result ((docs : List Document) → StandsFor names.now self.now docs → out.new.items ≡ out.old.items ++ compact_text (schema_text docs)) }
    {
        self.put_tree(alloc, names, out)
    }

    fn put_tree(&self, alloc: Global, names: &Names, out: &mut Vec<u8>) -> Result<(), AllocError>
        ensures { OnOk result (out.new.items ≡ out.old.items ++ compact_text (tree_text names.now (schema_tree self.now))) }
    {
        if self.documents() == 0 {
            return out.extend_from_slice(b"null");
        }
        put_place_text(&self.root, names, alloc, out)
    }
}

/// Two schemas of the same documents are one schema where they have one dictionary, and have one text in any case. The
/// text is the tree with the name in place of each number and with fields in the order of their names.
pub fn schemas_agree(one: &Schema, names: &Names, other: &Schema, other_names: &Names)
    ensures same { (docs : List Document) → names.now ≡ other_names.now → StandsFor names.now one.now docs → StandsFor other_names.now other.now docs → one.now ≡ other.now }
    ensures named { (docs : List Document) → StandsFor names.now one.now docs → StandsFor other_names.now other.now docs → tree_text names.now (schema_tree one.now) ≡ tree_text other_names.now (schema_tree other.now) }
{}
