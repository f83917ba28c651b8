//! The logs above the components.

ghost use Rattle.std.specs.Prelude.{◌≡◌, [], true, Ok, length, filter, All, IfErr, IfOk, IfSome, IsErrOf};
ghost use Rattle.std.specs.List.{AllByRecursion};
ghost use Rattle.std.specs.Result.{IsOk};
ghost use Rattle.tc_store.specs.Gate.{is_open_file};
ghost use Rattle.tc_log.specs.Reading.{log_judged};
ghost use Rattle.tc_log.specs.Writes.{IsWrite};
ghost use Rattle.tc_recover.specs.Files.{picture_in, AreTold, AreGates};
ghost use Rattle.tc_recover.specs.Loads.{file_then, is_log as of_log, logs_judged, Answers, IsLogCause, IsLogDamage, same_writes};
ghost use Rattle.tc_recover.specs.Reads.{IsCountedTimes};

use crate::cause::{FilesCause, of_read};
use crate::taken::Taken;
use std::alloc::Global;
use tc_log::{LogRead, Writes, read_frames};
use tc_store::{FileName, Frozen};

/// Reads the open logs above a generation, in their order, by one read each: the writes of each one. `Damaged` has the
/// first place that breaks the rules: the header, the nine bytes at the front of a frame, or its body. `Disk` comes only where
/// a read failed.
pub fn read_logs<F: Frozen>(
    alloc: Global,
    last: u64,
    files: &[Taken<F>],
    watch: &mut F::Watch,
) -> Result<Vec<Writes>, FilesCause>
    requires gates { AreGates F.content files.now }
    ensures judged { AreTold F.content files.now → Answers (λ writes. writes.items) result (logs_judged last [] (picture_in F.content files.now)) }
    ensures causes { IfErr result (IsLogCause F.size last files.now) }
    ensures lawful { IfOk result (λ writes. All (AllByRecursion IsWrite) writes.items) }
    ensures each { IfOk result (λ writes. length writes.items ≡ length (filter (of_log last) files.now)) }
    ensures counted { IsCountedTimes (IsErrOf result FilesCause.Disk) (IsOk result) (length (filter (of_log last) files.now)) (F.Watch.counts watch.old) (F.Watch.counts watch.new) }
{
    let mut all = Vec::new(alloc);
    let mut rest = files;
    while let Some((file, behind)) = rest.split_first() {
        if is_log(last, file) {
            let writes = read_log(alloc, file, watch)?;
            all.push(writes)?;
        }
        rest = behind;
    }
    Ok(all)
}

/// Whether a file is an open log above a generation.
pub(crate) fn is_log<F: Frozen>(last: u64, file: &Taken<F>) -> bool
    ensures { result ≡ of_log last file.now }
{
    match file.name {
        FileName::Component { from: _, to: _ } => false,
        FileName::Log { generation } => file.open && last < generation,
    }
}

/// Reads a log.
fn read_log<F: Frozen>(
    alloc: Global,
    log: &Taken<F>,
    watch: &mut F::Watch,
) -> Result<Writes, FilesCause>
    requires { IfSome (F.content log.now.file) (λ bytes. is_open_file bytes ≡ true) }
    ensures judged { IfSome (F.content log.now.file) (λ bytes. Answers same_writes result (file_then log.now.name (log_judged bytes) (λ read. Ok read.1))) }
    ensures causes { IfErr result (IsLogDamage F.size log.now) }
    ensures lawful { IfOk result (AllByRecursion IsWrite) }
    ensures counted { IsCountedTimes (IsErrOf result FilesCause.Disk) (IsOk result) 1 (F.Watch.counts watch.old) (F.Watch.counts watch.new) }
{
    match read_frames(alloc, &log.file, watch) {
        Ok(LogRead { head: _, writes }) => Ok(writes),
        Err(fault) => Err(of_read(log.name, fault)),
    }
}
