//! What the flush of the logs begins with, and the damage where the table cannot be over the components.

ghost use Rattle.std.specs.Arc.{arc_value};
ghost use Rattle.std.specs.Prelude.{◌≡◌, ◌+◌, ◌-◌, ◌<◌, ◌≤◌, ◌^◌, ◌++◌, [], List, IfOk, IsErrOf};
ghost use Rattle.tc_flush.specs.Counting.{IsCounted as CountsOf};
ghost use Rattle.tc_flush.specs.Flushable.{CanFlush};
ghost use Rattle.tc_lsm_model.specs.Tables.{Table};
ghost use Rattle.tc_memory.specs.DocumentTables.{IsTableOf};
ghost use Rattle.tc_merge.specs.Merging.{newest_names, newest_schema};
ghost use Rattle.tc_schema_model.specs.Counted.{nothing};
ghost use Rattle.tc_store.specs.declared.file_name.FileName.{FileName as Name};
ghost use Rattle.tc_jobs.specs.Faults.{AreFiles, AreFilesOr, IfDamaged};
ghost use Rattle.tc_jobs.specs.Lists.{file_names};
ghost use Rattle.tc_open.specs.FlushedLogs.{log_names};

use std::alloc::Global;
use std::sync::Arc;
use tc_bytes::Memory;
use tc_component::Head;
use tc_jobs::{FlushInputs, JobFault, flush_inputs};
use tc_list::ComponentList;
use tc_memory::Sealed;
use tc_store::{Damage, FileName, FileNames, Frozen};

/// What the flush of the table of the logs of these generations begins with. `Damaged` has the names of the listed components
/// and of the logs: it comes exactly where the table cannot be over them. Makes no read.
pub(crate) fn inputs_over<F: Frozen>(
    alloc: Global,
    sealed: &Arc<Sealed>,
    list: &ComponentList<F>,
    head: Head,
) -> Result<FlushInputs, JobFault>
    requires order { head.from ≤ head.to }
    requires last { head.to < 2 ^ 63 }
    ensures table { IfOk result (λ inputs. arc_value inputs.sealed ≡ arc_value sealed.now) }
    ensures names { IfOk result (λ inputs. inputs.names ≡ newest_names [] list.now) }
    ensures schema { IfOk result (λ inputs. inputs.schema ≡ newest_schema nothing list.now) }
    ensures can { IfOk result (λ inputs. (t : Table) → IsTableOf t (arc_value inputs.sealed) → CanFlush inputs.names inputs.schema t) }
    ensures damaged { IfDamaged result (AreFiles (file_names list.now ++ log_names head.from (head.to + 1 - head.from))) }
    ensures uncounted { IfDamaged result (λ damage. CountsOf (newest_names [] list.now) (newest_schema nothing list.now) (arc_value sealed.now) → ⊥) }
    ensures no_disk { IsErrOf result JobFault.Disk → ⊥ }
{
    match flush_inputs(alloc, sealed, list) {
        Ok(inputs) => Ok(inputs),
        Err(JobFault::Damaged(damage)) => Err(disordered(damage, head)),
        Err(fault) => Err(fault),
    }
}

/// The fault of components over which the table of the logs of these generations cannot be: their files, and then the logs.
fn disordered(damage: Damage, head: Head) -> JobFault
    requires order { head.from ≤ head.to }
    requires last { head.to < 2 ^ 63 }
    ensures { (files : List Name) → AreFiles files damage → AreFilesOr (files ++ log_names head.from (head.to + 1 - head.from)) result }
{
    match damage {
        Damage::Files { names } => match with_logs(names.into_inner(), head) {
            Ok(names) => JobFault::Damaged(Damage::Files {
                names: FileNames::of(names),
            }),
            Err(_) => JobFault::Memory,
        },
        bytes => JobFault::Damaged(bytes),
    }
}

/// These names, and after them those of the logs of these generations.
fn with_logs(files: Vec<FileName>, head: Head) -> Result<Vec<FileName>, Memory>
    requires order { head.from ≤ head.to }
    requires last { head.to < 2 ^ 63 }
    ensures { IfOk result (λ names. names.items ≡ files.items ++ log_names head.from (head.to + 1 - head.from)) }
{
    let mut names = files;
    for generation in head.from..head.to + 1 {
        names.push(FileName::Log { generation })?;
    }
    Ok(names)
}
