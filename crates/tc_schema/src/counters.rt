//! How many values of each kind stand at one place.

ghost use Rattle.std.specs.Prelude.{◌≡◌, ◌+◌, ◌<◌, ◌≤◌, ◌^◌, IfSome, IfNone};
ghost use Rattle.tc_schema_model.specs.Counted.{no_counters, counter, total};
ghost use Rattle.tc_schema_model.specs.Added.{raised, lowered};
ghost use Rattle.tc_value.specs.Kinds.{kind_meant};
ghost use Rattle.tc_schema.specs.Writing.{one_if_some, kinds_in};

use std::marker::Model;
use tc_value::Kind;

/// How many values of each kind stand at one place. Together they are fewer than 2^64.
#[derive(Drop, Debug)]
pub struct Counts {
    nulls: u64,
    booleans: u64,
    integers: u64,
    texts: u64,
    arrays: u64,
    objects: u64,
}

impl Model for Counts {
    ghost use Rattle.std.specs.Prelude.{◌<◌, ◌^◌, ◌+◌};
    ghost use Rattle.tc_schema_model.specs.Counted.{Counters};
    ghost use Rattle.tc_schema_model.specs.CountedCode.{coded_counters};

    ghost Value = { Counters };

    ghost coded = { coded_counters };

    ghost view = { λ a. record { nulls = a.nulls; booleans = a.booleans; integers = a.integers; texts = a.texts; arrays = a.arrays; objects = a.objects } };

    ghost invariant = { λ a. a.nulls + a.booleans + a.integers + a.texts + a.arrays + a.objects < 2 ^ 64 };
}

impl Counts {
    /// No value. Takes no memory.
    pub fn none() -> Counts
        ensures { result ≡ no_counters }
    {
        Counts {
            nulls: 0,
            booleans: 0,
            integers: 0,
            texts: 0,
            arrays: 0,
            objects: 0,
        }
    }

    /// So many values of each kind, by ascending tag. `None` comes exactly where they are together 2^64 or more.
    pub fn of(
        nulls: u64,
        booleans: u64,
        integers: u64,
        texts: u64,
        arrays: u64,
        objects: u64,
    ) -> Option<Counts>
        ensures counters { IfSome result (λ c. c ≡ record { nulls = nulls; booleans = booleans; integers = integers; texts = texts; arrays = arrays; objects = objects }) }
        ensures bounded { IfSome result (λ c. total c < 2 ^ 64) }
        ensures none { IfNone result (2 ^ 64 ≤ nulls + booleans + integers + texts + arrays + objects) }
    {
        let sum = nulls.checked_add(booleans)?;
        let sum = sum.checked_add(integers)?;
        let sum = sum.checked_add(texts)?;
        let sum = sum.checked_add(arrays)?;
        let _total = sum.checked_add(objects)?;
        Some(Counts {
            nulls,
            booleans,
            integers,
            texts,
            arrays,
            objects,
        })
    }

    /// How many values there are together.
    pub fn total(&self) -> u64
        ensures total { result ≡ total self.now }
        ensures bounded { total self.now < 2 ^ 64 }
    {
        self.nulls + self.booleans + self.integers + self.texts + self.arrays + self.objects
    }

    /// How many values of a kind there are.
    pub fn of_kind(&self, kind: Kind) -> u64
        ensures counter { result ≡ counter self.now (kind_meant kind) }
        ensures bounded { total self.now < 2 ^ 64 }
    {
        match kind {
            Kind::Null => self.nulls,
            Kind::Bool => self.booleans,
            Kind::Int => self.integers,
            Kind::Text => self.texts,
            Kind::Array => self.arrays,
            Kind::Object => self.objects,
        }
    }

    /// How many kinds have values.
    pub fn kinds(&self) -> u8
        ensures { result ≡ kinds_in self.now }
    {
        one_if_some(self.nulls)
            + one_if_some(self.booleans)
            + one_if_some(self.integers)
            + one_if_some(self.texts)
            + one_if_some(self.arrays)
            + one_if_some(self.objects)
    }

    /// So many more values of a kind.
    pub fn raise(&mut self, kind: Kind, by: u64)
        requires { total self.old + by < 2 ^ 64 }
        ensures { self.new ≡ raised (kind_meant kind) by self.old }
    {
        match kind {
            Kind::Null => self.nulls += by,
            Kind::Bool => self.booleans += by,
            Kind::Int => self.integers += by,
            Kind::Text => self.texts += by,
            Kind::Array => self.arrays += by,
            Kind::Object => self.objects += by,
        }
    }

    /// So many fewer values of a kind.
    pub fn lower(&mut self, kind: Kind, by: u64)
        requires { by ≤ counter self.old (kind_meant kind) }
        ensures { self.new ≡ lowered (kind_meant kind) by self.old }
    {
        match kind {
            Kind::Null => self.nulls -= by,
            Kind::Bool => self.booleans -= by,
            Kind::Int => self.integers -= by,
            Kind::Text => self.texts -= by,
            Kind::Array => self.arrays -= by,
            Kind::Object => self.objects -= by,
        }
    }

    /// The same counters. Takes no memory.
    pub fn copy(&self) -> Counts
        ensures { result ≡ self.now }
    {
        Counts {
            nulls: self.nulls,
            booleans: self.booleans,
            integers: self.integers,
            texts: self.texts,
            arrays: self.arrays,
            objects: self.objects,
        }
    }
}

/// One where a counter is not 0.
pub fn one_if_some(count: u64) -> u8
    ensures counted { result ≡ one_if_some count }
    ensures small { result ≤ 1 }
{
    if count == 0 { 0 } else { 1 }
}
