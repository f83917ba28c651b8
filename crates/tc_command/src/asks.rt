//! What a query asks for: a path into documents, and a value to compare with.

ghost use Rattle.std.specs.Prelude.{◌≡◌, IfOk, map};
ghost use Rattle.tc_command.specs.Asks.{hop_of};
ghost use Rattle.tc_command.specs.Commands.{ask_of};

use std::alloc::{AllocError, Global};
use std::marker::Model;
use tc_value::{Doc, Text};

/// A step of a path: to the member of a name, to the item at a place counted from 0, or to every item.
#[derive(Drop, Debug)]
pub enum Hop {
    Name(Text),
    At(i64),
    Any,
}

/// A path from a document to values in it: a list of hops. Contracts see the list.
#[derive(Drop, Debug)]
pub struct PathExpr {
    hops: Vec<Hop>,
}

impl Model for PathExpr {
    ghost use Rattle.std.specs.Prelude.{List, map};
    ghost use Rattle.std.specs.Coded.{coded_list};
    ghost use Rattle.tc_request_model.specs.Request.{Hop};
    ghost use Rattle.tc_command.specs.Asks.{hop_of, coded_hop};

    ghost Value = { List Hop };

    ghost coded = { coded_list coded_hop };

    ghost view = { λ p. map hop_of p.hops.items };
}

/// Which documents and values a query or a scan asks for: the values that the path reaches, and, where `eq` is
/// given, only in documents in which one of them equals it.
#[derive(Drop, Debug)]
pub struct Ask {
    pub path: PathExpr,
    pub eq: Option<Doc>,
}

impl Hop {
    /// The same hop in memory of its own. Errs only for want of memory.
    pub fn copy(&self, alloc: Global) -> Result<Hop, AllocError>
        ensures { IfOk result (λ copied. copied ≡ self.now) }
    {
        match self {
            Hop::Name(name) => Ok(Hop::Name(name.copy(alloc)?)),
            Hop::At(place) => Ok(Hop::At(*place)),
            Hop::Any => Ok(Hop::Any),
        }
    }
}

impl Ask {
    /// The same ask in memory of its own. Errs only for want of memory.
    pub fn copy(&self, alloc: Global) -> Result<Ask, AllocError>
        ensures { IfOk result (λ copied. ask_of copied ≡ ask_of self.now) }
    {
        let path = self.path.copy(alloc)?;
        let eq = match &self.eq {
            Some(doc) => Some(doc.copy(alloc)?),
            None => None,
        };
        Ok(Ask { path, eq })
    }
}

impl PathExpr {
    /// The path of these hops. Takes no memory.
    pub fn of(hops: Vec<Hop>) -> PathExpr
        ensures { result ≡ map hop_of hops.items }
    {
        PathExpr { hops }
    }

    /// The hops, borrowed.
    pub fn as_slice(&self) -> &[Hop]
        ensures { map hop_of result.now ≡ self.now }
    {
        self.hops.as_slice()
    }

    /// The hops as a vector. Takes no memory.
    pub fn into_inner(self) -> Vec<Hop>
        ensures { map hop_of result.items ≡ self }
    {
        self.hops
    }

    /// The same path in memory of its own. Errs only for want of memory.
    pub fn copy(&self, alloc: Global) -> Result<PathExpr, AllocError>
        ensures { IfOk result (λ copied. copied ≡ self.now) }
    {
        let mut hops = Vec::with_capacity(alloc, self.hops.len())?;
        for hop in &self.hops {
            hops.push(hop.copy(alloc)?)?;
        }
        Ok(PathExpr { hops })
    }
}
