//! Why the open files of a partition do not fit together, by their names.

use tc_store::FileName;

/// Where files do not follow each other.
#[derive(Clone, Copy)]
pub(crate) enum Misfit {
    /// No file has the generations from `first` to `last`, and one has the next.
    Missing { first: u64, last: u64 },
    /// Two components share generations, and neither has all of the other.
    Overlap { older: Interval, newer: Interval },
}

/// The generations of a component.
#[derive(Clone, Copy)]
pub(crate) struct Interval {
    pub(crate) from: u64,
    pub(crate) to: u64,
}

/// The first place where files do not follow each other; none where they do. The names are in order: components by their first
/// and then by their last generation, then logs. Of the components those count that lie in no other one, and of the logs those above them.
pub(crate) fn misfit_in(names: &[FileName]) -> Option<Misfit> {
    match follow(names) {
        Ok(()) => None,
        Err(misfit) => Some(misfit),
    }
}

fn follow(names: &[FileName]) -> Result<(), Misfit> {
    let mut newest = Interval { from: 0, to: 0 };
    for name in names {
        newest = match name {
            FileName::Component { from, to } => after_component(
                newest,
                Interval {
                    from: *from,
                    to: *to,
                },
            )?,
            FileName::Log { generation } => after_log(newest, *generation)?,
        };
    }
    Ok(())
}

// The newest component that counts after this one, which is the next in order.
fn after_component(newest: Interval, next: Interval) -> Result<Interval, Misfit> {
    if next.to <= newest.to {
        return Ok(newest);
    }
    if next.from == newest.from {
        return Ok(next);
    }
    if next.from <= newest.to {
        return Err(Misfit::Overlap {
            older: newest,
            newer: next,
        });
    }
    follows(newest, next.from)?;
    Ok(next)
}

// What is there after a log, whose generation counts only where no component has it.
fn after_log(newest: Interval, generation: u64) -> Result<Interval, Misfit> {
    if generation <= newest.to {
        return Ok(newest);
    }
    follows(newest, generation)?;
    Ok(Interval {
        from: newest.from,
        to: generation,
    })
}

// Whether a generation is the next one.
fn follows(newest: Interval, generation: u64) -> Result<(), Misfit> {
    let next = newest.to.saturating_add(1);
    if generation <= next {
        Ok(())
    } else {
        Err(Misfit::Missing {
            first: next,
            last: generation.saturating_sub(1),
        })
    }
}

/// Whether a file has a generation.
pub(crate) fn has(name: FileName, generation: u64) -> bool {
    match name {
        FileName::Component { from, to } => from <= generation && generation <= to,
        FileName::Log { generation: own } => own == generation,
    }
}
