//! What is said of a fault.

ghost use Rattle.std.specs.Prelude.{◌≡◌, IfOk};
ghost use Rattle.tc_server.specs.FaultText.{damage_text, text_of_fault};

use std::alloc::{AllocError, Global};
use tc_files::file_text;
use tc_keeper::RunFault;
use tc_store::Damage;
use tc_value::Text;

/// What to say of a fault, without a line feed. Errs only for want of memory.
pub fn fault_text(alloc: Global, fault: &RunFault) -> Result<Text, AllocError>
    ensures { IfOk result (λ text. text ≡ text_of_fault fault.now) }
{
    match fault {
        RunFault::Damaged { partition, damage } => damage_text(alloc, *partition, damage),
        RunFault::Usage => Ok(Text::copy_of(
            alloc,
            "usage: tuple_store FOLDER run [OPTIONS], tuple_store FOLDER demo N or tuple_store FOLDER check [OPTIONS]",
        )?),
        RunFault::Read => Ok(Text::copy_of(alloc, "read fault")?),
        RunFault::Spent => Ok(Text::copy_of(alloc, "no number left")?),
        RunFault::Memory => Ok(Text::copy_of(alloc, "no memory")?),
        RunFault::Write { taken } => Ok(Text::of(format!(in alloc;
            "write fault after {taken} bytes"
        )?)),
        RunFault::Disk { partition } => Ok(Text::of(format!(in alloc;
            "disk fault in partition {partition}"
        )?)),
        RunFault::Layout {
            partition,
            found,
            found_of,
            asked_of,
        } => Ok(Text::of(format!(in alloc;
            "partition {partition}: found {found} of {found_of}, asked {partition} of {asked_of}"
        )?)),
    }
}

fn damage_text(alloc: Global, partition: u32, damage: &Damage) -> Result<Text, AllocError>
    ensures { IfOk result (λ text. text ≡ damage_text partition damage.now) }
{
    match damage {
        Damage::Bytes { file, place, .. } => {
            let name = file_text(alloc, *file)?;
            let name = name.as_str();
            Ok(Text::of(format!(in alloc;
                "damaged file {name} in partition {partition} at byte {place}"
            )?))
        }
        Damage::Files { .. } => Ok(Text::of(format!(in alloc;
            "files of partition {partition} do not fit together"
        )?)),
    }
}
