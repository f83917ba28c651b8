//! The places of a schema.

ghost use Rattle.std.specs.Prelude.{◌≡◌, IfOk, map};
ghost use Rattle.tc_schema_model.specs.Counted.{nothing};
ghost use Rattle.tc_schema.specs.Places.{place_counted, below_counted, field_counted};

use crate::counters::Counts;
use std::alloc::{AllocError, Global};

/// The tags of the kinds in the format, which are their numbers.
pub const NULL_TAG: u8 = 1;

pub const BOOLEAN_TAG: u8 = 2;

pub const INTEGER_TAG: u8 = 3;

pub const TEXT_TAG: u8 = 4;

pub const ARRAY_TAG: u8 = 5;

pub const OBJECT_TAG: u8 = 6;

/// The tag of a union, beside those of the kinds.
pub const UNION_TAG: u8 = 8;

/// One place of a schema. Where values of several kinds stand there it is a union.
#[cycle(place)]
#[derive(Drop, Debug)]
pub struct Node {
    pub counts: Counts,
    /// The place of the items of the arrays, if there are items.
    pub item: Option<Box<Node>>,
    /// The places of the members of the objects, by ascending numbers of their names.
    pub fields: Vec<Field>,
}

/// The place of the members of one name.
#[cycle(place)]
#[derive(Drop, Debug)]
pub struct Field {
    pub number: u32,
    /// Apart, so that fields before and behind it move cheaply.
    pub node: Box<Node>,
}

impl Node {
    /// A place where nothing is counted. Takes no memory.
    pub fn new(alloc: Global) -> Node
        ensures { place_counted result ≡ nothing }
    {
        Node {
            counts: Counts::none(),
            item: None,
            fields: Vec::new(alloc),
        }
    }

    /// The same place in memory of its own. Errs only for want of memory.
    #[cycle(copy_place)]
    pub fn copy(&self, alloc: Global) -> Result<Node, AllocError>
        ensures { IfOk result (λ copied. place_counted copied ≡ place_counted self.now) }
    {
        Ok(Node {
            counts: self.counts.copy(),
            item: copy_item(&self.item, alloc)?,
            fields: copy_fields(self.fields.as_slice(), alloc)?,
        })
    }
}

#[cycle(copy_place)]
fn copy_item(item: &Option<Box<Node>>, alloc: Global) -> Result<Option<Box<Node>>, AllocError>
    ensures { IfOk result (λ copied. below_counted copied ≡ below_counted item.now) }
{
    match item {
        None => Ok(None),
        Some(node) => Ok(Some(Box::new(alloc, node.copy(alloc)?)?)),
    }
}

#[cycle(copy_place)]
fn copy_fields(fields: &[Field], alloc: Global) -> Result<Vec<Field>, AllocError>
    ensures { IfOk result (λ copied. map field_counted copied.items ≡ map field_counted fields.now) }
{
    let mut copied = Vec::with_capacity(alloc, fields.len())?;
    for field in fields {
        copied.push(Field {
            number: field.number,
            node: Box::new(alloc, field.node.copy(alloc)?)?,
        })?;
    }
    Ok(copied)
}
