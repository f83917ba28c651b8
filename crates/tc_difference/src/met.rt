//! A difference that was met, on the way back from there to the root.

ghost use Rattle.std.specs.Prelude.{◌≡◌, List, IfOk, map, reverse};
ghost use Rattle.tc_model.specs.Document.{Name};
ghost use Rattle.tc_schema.specs.Paths.{step_meant};
ghost use Rattle.tc_difference.specs.Found.{found_meant};
ghost use Rattle.tc_difference.specs.Comparing.{way_meant, met_meant, stepped};

use crate::found::Found;
use std::alloc::{AllocError, Global};
use tc_names::Names;
use tc_value::{Kind, Step, Text};

/// A step of a path, by the number of the name.
#[derive(Clone, Copy)]
pub enum Way {
    Item,
    Field(u32),
}

/// A difference, with the steps that lead to it from the last one back, so that a step before them is pushed.
#[derive(Drop)]
pub struct Met {
    pub back: Vec<Way>,
    pub kind: Kind,
    pub kept: u64,
    pub counted: u64,
}

/// A field with a difference.
#[derive(Drop)]
pub struct Candidate {
    pub number: u32,
    pub met: Met,
}

impl Met {
    /// The same difference, from one step before.
    pub fn stepped(self, way: Way) -> Result<Met, AllocError>
        ensures { IfOk result (λ met. (names : List Name) → met_meant names met ≡ stepped (way_meant names way) (met_meant names self)) }
    {
        let Met {
            mut back,
            kind,
            kept,
            counted,
        } = self;
        back.push(way)?;
        Ok(Met {
            back,
            kind,
            kept,
            counted,
        })
    }

    /// The difference with its path from the root, and with names.
    pub fn told(self, names: &Names, alloc: Global) -> Result<Found, AllocError>
        ensures { IfOk result (λ found. found_meant found ≡ met_meant names.now self) }
    {
        let Met {
            back,
            kind,
            kept,
            counted,
        } = self;
        let path = path_of(back, names, alloc)?;
        Ok(Found {
            path,
            kind,
            kept,
            counted,
        })
    }
}

fn path_of(mut back: Vec<Way>, names: &Names, alloc: Global) -> Result<Vec<Step>, AllocError>
    ensures { IfOk result (λ path. map step_meant path.items ≡ map (way_meant names.now) (reverse back.items)) }
{
    let mut path = Vec::with_capacity(alloc, back.len())?;
    while let Some(way) = back.pop() {
        path.push(step_of(way, names, alloc)?)?;
    }
    Ok(path)
}

fn step_of(way: Way, names: &Names, alloc: Global) -> Result<Step, AllocError>
    ensures { IfOk result (λ step. step_meant step ≡ way_meant names.now way) }
{
    match way {
        Way::Item => Ok(Step::Item),
        Way::Field(number) => {
            let name = names.name_of(number).unwrap_or("");
            Ok(Step::Field(Text::copy_of(alloc, name)?))
        }
    }
}
