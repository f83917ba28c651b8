//! What a flush begins with.

ghost use Rattle.std.specs.Arc.{arc_value};
ghost use Rattle.std.specs.Prelude.{◌≡◌, [], map, IfOk, IsErrOf};
ghost use Rattle.tc_flush.specs.Counting.{IsCounted as CountsOf};
ghost use Rattle.tc_flush.specs.Flushable.{CanFlush};
ghost use Rattle.tc_lsm_model.specs.Tables.{Table};
ghost use Rattle.tc_memory.specs.DocumentTables.{IsTableOf};
ghost use Rattle.tc_merge.specs.Merging.{newest_names, newest_schema};
ghost use Rattle.tc_schema_model.specs.Counted.{nothing};
ghost use Rattle.tc_jobs.specs.Faults.{AreFiles, AreFilesOr, IfDamaged};
ghost use Rattle.tc_jobs.specs.Lists.{file_names};

use crate::fault::JobFault;
use std::alloc::Global;
use std::sync::Arc;
use tc_bytes::Memory;
use tc_component::Component;
use tc_flush::counted;
use tc_list::ComponentList;
use tc_memory::Sealed;
use tc_names::Names;
use tc_schema::Schema;
use tc_store::{Damage, FileName, FileNames, Frozen};

/// What a flush takes from a partition beside its device, its header and its watch: a share of the sealed table, and
/// copies of the newest schema and names.
#[derive(Drop)]
pub struct FlushInputs {
    pub sealed: Arc<Sealed>,
    pub schema: Schema,
    pub names: Names,
}

/// What the flush of a sealed table over listed components begins with. Over no component the schema is of no document,
/// and there are no names. `Damaged` has the names of all listed components: it comes exactly where the table cannot be
/// over them. Makes no read.
pub fn flush_inputs<F: Frozen>(
    alloc: Global,
    sealed: &Arc<Sealed>,
    list: &ComponentList<F>,
) -> Result<FlushInputs, JobFault>
    ensures table { IfOk result (λ inputs. arc_value inputs.sealed ≡ arc_value sealed.now) }
    ensures names { IfOk result (λ inputs. inputs.names ≡ newest_names [] list.now) }
    ensures schema { IfOk result (λ inputs. inputs.schema ≡ newest_schema nothing list.now) }
    ensures counted { IfOk result (λ inputs. CountsOf (newest_names [] list.now) (newest_schema nothing list.now) (arc_value sealed.now)) }

    // What `FlushJob::new` asks for.
    ensures can { IfOk result (λ inputs. (t : Table) → IsTableOf t (arc_value inputs.sealed) → CanFlush inputs.names inputs.schema t) }

    ensures damaged { IfDamaged result (λ damage. AreFiles (file_names list.now) damage) }
    ensures uncounted { IfDamaged result (λ damage. CountsOf (newest_names [] list.now) (newest_schema nothing list.now) (arc_value sealed.now) → ⊥) }
    ensures no_disk { IsErrOf result JobFault.Disk → ⊥ }
{
    let shared = Arc::try_clone(sealed)?;
    let schema = schema_of_newest(alloc, list)?;
    let names = names_of_newest(alloc, list)?;
    if !counted(alloc, sealed, &schema, &names)? {
        return Err(disordered(alloc, list));
    }
    Ok(FlushInputs {
        sealed: shared,
        schema,
        names,
    })
}

/// The schema of the newest component. Errs only for want of memory.
fn schema_of_newest<F: Frozen>(alloc: Global, list: &ComponentList<F>) -> Result<Schema, Memory>
    ensures { IfOk result (λ schema. schema ≡ newest_schema nothing list.now) }
{
    match list.as_slice().split_last() {
        Some((newest, _older)) => newest.schema(alloc),
        None => Ok(Schema::empty(alloc)),
    }
}

/// A copy of the names of the newest component.
fn names_of_newest<F: Frozen>(alloc: Global, list: &ComponentList<F>) -> Result<Names, Memory>
    ensures { IfOk result (λ names. names ≡ newest_names [] list.now) }
{
    match list.as_slice().split_last() {
        Some((newest, _older)) => newest.names().copy(),
        None => Ok(Names::new(alloc)),
    }
}

/// The fault of listed components over which a sealed table cannot be.
fn disordered<F: Frozen>(alloc: Global, list: &ComponentList<F>) -> JobFault
    ensures { AreFilesOr (file_names list.now) result }
{
    match names_of_files(alloc, list.as_slice()) {
        Ok(names) => JobFault::Damaged(Damage::Files {
            names: FileNames::of(names),
        }),
        Err(_) => JobFault::Memory,
    }
}

/// The names of the files of these components.
fn names_of_files<F: Frozen>(
    alloc: Global,
    components: &[Arc<Component<F>>],
) -> Result<Vec<FileName>, Memory>
    ensures { IfOk result (λ names. names.items ≡ file_names (map arc_value components.now)) }
{
    let mut names = Vec::new(alloc);
    for component in components {
        names.push(component.file_name())?;
    }
    Ok(names)
}
