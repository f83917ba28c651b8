//! The headers of the open files of a partition.

ghost use Rattle.std.specs.Prelude.{◌≡◌, [], ◌∷◌, true, length, filter, IfErr, IfSome, OnOk, IsErrOf};
ghost use Rattle.std.specs.Result.{IsOk};
ghost use Rattle.tc_recover.specs.declared.cause.FilesCause.TheVariants.{Layout};
ghost use Rattle.tc_recover.specs.Files.{picture_in, AreTold, AreGates, IsLawfulName, AreLawful};
ghost use Rattle.tc_recover.specs.Reads.{IsCountedTimes};
ghost use Rattle.tc_recover.specs.Refusals.{Refuses, IsHeadCause, asked, head_refused, heads_refused, stray};

use crate::cause::{FilesCause, of_read};
use crate::taken::Taken;
use std::alloc::Global;
use tc_component::read_head;
use tc_log::read_log_head;
use tc_store::{FileName, Frozen};

/// Which partition is opened, counted from 0, and how many there are.
#[derive(Clone, Copy, Debug, PartialEq, Eq)]
pub struct Partition {
    pub number: u32,
    pub count: u32,
}

/// Reads the headers of the open files, in their order, by one read each. `Damaged` has the first header that is none, or
/// not one of the file's name, or whose lengths do not add up; `Layout` the numbers of the first that is of another partition.
/// The first file decides, and in a file its bytes come before its numbers.
pub fn judge_heads<F: Frozen>(
    alloc: Global,
    part: Partition,
    files: &[Taken<F>],
    watch: &mut F::Watch,
) -> Result<(), FilesCause>
    requires gates { AreGates F.content files.now }
    ensures judged { AreTold F.content files.now → Refuses result (heads_refused (asked part) (picture_in F.content files.now)) }
    ensures causes { IfErr result (IsHeadCause F.size (asked part) files.now) }
    ensures lawful { OnOk result (AreLawful files.now) }
    ensures counted { IsCountedTimes (IsErrOf result FilesCause.Disk) (IsOk result) (length (filter (λ t. t.open) files.now)) (F.Watch.counts watch.old) (F.Watch.counts watch.new) }
{
    let mut rest = files;
    while let Some((file, behind)) = rest.split_first() {
        if file.open {
            judge_head(alloc, part, file, watch)?;
        }
        rest = behind;
    }
    Ok(())
}

/// Reads the header of an open file.
fn judge_head<F: Frozen>(
    alloc: Global,
    part: Partition,
    file: &Taken<F>,
    watch: &mut F::Watch,
) -> Result<(), FilesCause>
    requires { file.now.open ≡ true }
    ensures judged { IfSome (F.content file.now.file) (λ bytes. Refuses result (head_refused (asked part) file.now.name bytes)) }
    ensures causes { IfErr result (IsHeadCause F.size (asked part) (file.now ∷ [])) }
    ensures lawful { OnOk result (IsLawfulName file.now.name) }
    ensures counted { IsCountedTimes (IsErrOf result FilesCause.Disk) (IsOk result) 1 (F.Watch.counts watch.old) (F.Watch.counts watch.new) }
{
    match file.name {
        FileName::Component { from, to } => {
            let name = FileName::Component { from, to };
            match read_head(alloc, &file.file, name, watch) {
                Ok(head) => judge_numbers(part, head.number, head.count),
                Err(fault) => Err(of_read(name, fault)),
            }
        }
        FileName::Log { generation } => {
            match read_log_head(alloc, &file.file, generation, watch) {
                Ok(head) => judge_numbers(part, head.number, head.count),
                Err(fault) => Err(of_read(FileName::Log { generation }, fault)),
            }
        }
    }
}

/// Whether numbers that a file keeps are those of the partition.
pub(crate) fn judge_numbers(part: Partition, number: u32, count: u32) -> Result<(), FilesCause>
    ensures judged { Refuses result (stray (asked part) number count) }
    ensures numbers { IfErr result (λ cause. cause ≡ Layout number count) }
    ensures own_number { OnOk result (number ≡ part.number) }
    ensures own_count { OnOk result (count ≡ part.count) }
    ensures no_disk { IsErrOf result FilesCause.Disk → ⊥ }
{
    if number == part.number && count == part.count {
        Ok(())
    } else {
        Err(FilesCause::Layout {
            found: number,
            found_of: count,
        })
    }
}
