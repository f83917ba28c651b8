//! What is published, and how a change changes it.

ghost use Rattle.std.specs.Prelude.{◌≡◌, ◌++◌, flat_map, option_map, IfOk, OnOk, OnErr};
ghost use Rattle.std.specs.Arc.{arc_value};
ghost use Rattle.tc_view.specs.Changes.{writes_in};
ghost use Rattle.tc_view.specs.Views.{content_of};

use crate::change::Change;
use crate::chunk::Chunk;
use crate::content::Content;
use crate::mark::Mark;
use crate::step::Step;
use left_right::Absorb;
use std::alloc::{AllocError, Global};
use std::sync::Arc;
use tc_list::ComponentList;
use tc_memory::Sealed;
use tc_store::Frozen;

/// Shares of what a partition has, and how many writes and changes of this run that holds.
#[derive(Drop)]
pub struct View<F: Frozen> {
    pub(crate) alloc: Global,
    pub(crate) list: Arc<ComponentList<F>>,
    pub(crate) sealed: Option<Arc<Sealed>>,
    pub(crate) chunks: Vec<Arc<Chunk>>,
    pub(crate) mark: Mark<F>,
}

impl<F: Frozen> Absorb<Step<F>> for View<F> {
    ghost use Rattle.tc_view.specs.Views.{content_of, applied};

    type State = Content<F>;

    ghost state = { content_of };

    ghost applied = { applied };

    // What can fail stands before what changes the view.
    fn absorb_first(&mut self, step: &Step<F>, _other: &View<F>) -> Result<(), AllocError> {
        match &step.change {
            Change::Writes(chunk) => add(&mut self.chunks, chunk)?,
            Change::Placed { list, sealed } => {
                let list = Arc::try_clone(list)?;
                let sealed = share_of(sealed)?;
                self.list = list;
                self.sealed = sealed;
                self.chunks.clear();
            }
        }
        self.mark = Mark {
            upto: step.mark.upto,
            changes: step.mark.changes,
            seen: step.mark.seen.again(),
        };
        Ok(())
    }
}

impl<F: Frozen> View<F> {
    /// Shares of the same.
    pub(crate) fn share(&self) -> Result<View<F>, AllocError>
        ensures { IfOk result (λ v. content_of v ≡ content_of self.now) }
    {
        Ok(View {
            alloc: self.alloc,
            list: Arc::try_clone(&self.list)?,
            sealed: share_of(&self.sealed)?,
            chunks: self.chunks.clone()?,
            mark: self.mark.again(),
        })
    }
}

/// Adds a share behind the others.
fn add(chunks: &mut Vec<Arc<Chunk>>, chunk: &Arc<Chunk>) -> Result<(), AllocError>
    ensures ok { OnOk result (flat_map writes_in chunks.new.items ≡ flat_map writes_in chunks.old.items ++ writes_in chunk.now) }
    ensures err { OnErr result (chunks.new.items ≡ chunks.old.items) }
{
    let more = Arc::try_clone(chunk)?;
    chunks.push(more)?;
    Ok(())
}

/// A share of the table, if there is one.
fn share_of(table: &Option<Arc<Sealed>>) -> Result<Option<Arc<Sealed>>, AllocError>
    ensures { IfOk result (λ share. option_map arc_value share ≡ option_map arc_value table.now) }
{
    match table {
        Some(table) => Ok(Some(Arc::try_clone(table)?)),
        None => Ok(None),
    }
}
