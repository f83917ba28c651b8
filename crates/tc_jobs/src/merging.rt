//! What a merge begins with.

ghost use Rattle.std.specs.Arc.{arc_value};
ghost use Rattle.std.specs.Prelude.{◌≡◌, ◌<◌, ◌≤◌, length, map, IfOk};
ghost use Rattle.tc_list.specs.Intervals.{first_of, last_of};
ghost use Rattle.tc_list.specs.Runs.{in_run};
ghost use Rattle.tc_merge.specs.Merging.{IsRun};
ghost use Rattle.tc_jobs.specs.Lists.{IsListOf};

use std::alloc::Global;
use std::sync::Arc;
use tc_bytes::Memory;
use tc_component::{Component, Head};
use tc_list::{ComponentList, Run};
use tc_store::Frozen;

/// Shares of the components of a run, the oldest first. Errs only for want of memory.
pub fn merge_inputs<F: Frozen>(
    alloc: Global,
    list: &ComponentList<F>,
    run: Run,
) -> Result<Vec<Arc<Component<F>>>, Memory>
    requires order { run.first ≤ run.last }
    requires within { run.last < length list.now }
    ensures { IfOk result (λ shares. map arc_value shares.items ≡ in_run run list.now) }
{
    let components = list.as_slice();
    shares_of(alloc, &components[run.first..run.last + 1])
}

/// Shares of these components.
fn shares_of<F: Frozen>(
    alloc: Global,
    components: &[Arc<Component<F>>],
) -> Result<Vec<Arc<Component<F>>>, Memory>
    ensures { IfOk result (λ shares. map arc_value shares.items ≡ map arc_value components.now) }
{
    let mut shares = Vec::new(alloc);
    for component in components {
        shares.push(Arc::try_clone(component)?)?;
    }
    Ok(shares)
}

/// The header of what a run is merged into, in the partition of this number among so many. Takes no memory.
pub fn merged_head<F: Frozen>(list: &ComponentList<F>, run: Run, number: u32, count: u32) -> Head
    requires order { run.first ≤ run.last }
    requires within { run.last < length list.now }
    ensures exact { result ≡ record { number = number; count = count; from = first_of (in_run run list.now); to = last_of (in_run run list.now) } }

    // What `MergeJob::new` asks for of two components or more.
    ensures mergeable { run.first < run.last → IsListOf number count list.now → IsRun result (in_run run list.now) }
{
    let components = list.as_slice();
    head_over(&components[run.first..run.last + 1], number, count)
}

/// The header over these components.
fn head_over<F: Frozen>(run: &[Arc<Component<F>>], number: u32, count: u32) -> Head
    requires { 0 < length run.now }
    ensures { result ≡ record { number = number; count = count; from = first_of (map arc_value run.now); to = last_of (map arc_value run.now) } }
{
    Head {
        number,
        count,
        from: run[0].head().from,
        to: run[run.len() - 1].head().to,
    }
}
