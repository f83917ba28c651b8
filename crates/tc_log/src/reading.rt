//! What a closed file of a log means.

ghost use Rattle.std.specs.Prelude.{◌≡◌, ◌≤◌, ◌+◌, true, ℕ, List, Ok, Err, length, take, drop, IfOk, IfSome, IsErrOf};
ghost use Rattle.std.specs.List.{AllByRecursion};
ghost use Rattle.std.specs.Result.{IsOk};
ghost use Rattle.tc_store.specs.Counted.{IsCountedOnce};
ghost use Rattle.tc_store.specs.Gate.{is_open_file};
ghost use Rattle.tc_log.specs.declared.head.LogHead.{LogHead as Head};
ghost use Rattle.tc_log.specs.declared.write.Write.{Write as OneWrite};
ghost use Rattle.tc_log.specs.Judging.{read_of, same_head};
ghost use Rattle.tc_store.specs.Judging.{Judges, IfDamaged, IsNoDisk, IsNoDamage, or_damage, damage as a_damage};
ghost use Rattle.tc_log.specs.Layout.{head_place, head_size};
ghost use Rattle.tc_log.specs.Reading.{head_at, front_of, front_judged, log_judged};
ghost use Rattle.tc_log.specs.Spelling.{IsHead, IsNamedHead, Means};
ghost use Rattle.tc_log.specs.Writes.{IsWrite};

use crate::frame::frames_in;
use crate::head::{LogHead, head_in};
use crate::layout::{HEAD_LEN, HEAD_PLACE};
use crate::write::{Write, Writes};
use std::alloc::Global;
use tc_store::{Frozen, ReadFault, bytes_of, damaged, whole_of};

/// What a log means: its header, and the writes of its frames up to the first gate that is not open.
#[derive(Drop, Debug)]
pub struct LogRead {
    pub head: LogHead,
    pub writes: Writes,
}

/// Reads a log whose gate is open, by one read of the whole file. `Damaged` has the place of the header, of the nine
/// bytes at the front of a frame, or of a body, and the bytes there. `Disk` comes only where a read failed.
pub fn read_frames<F: Frozen>(
    alloc: Global,
    file: &F,
    watch: &mut F::Watch,
) -> Result<LogRead, ReadFault>
    requires open { IfSome (F.content file.now) (λ bytes. is_open_file bytes ≡ true) }

    ensures judged { IfSome (F.content file.now) (λ bytes. Judges read_of result (log_judged bytes)) }

    // What is read is what the bytes mean, and what they mean is read.
    ensures found { IfOk result (λ read. IfSome (F.content file.now) (λ bytes. Means bytes read.head read.writes)) }
    ensures whole { IfSome (F.content file.now) (λ bytes. (head : Head) (writes : List OneWrite) → Means bytes head writes → Judges read_of result (Ok (head, writes))) }

    // Also of a file that does not tell its content.
    ensures lawful { IfOk result (λ read. IsHead read.head × AllByRecursion IsWrite read.writes) }
    ensures damaged { IfDamaged result (λ place bytes. (whole : List ℕ) × (length whole ≡ F.size file.now) × (log_judged whole ≡ Err (a_damage place bytes))) }

    ensures counted { IsCountedOnce (IsErrOf result ReadFault.Disk) (IsOk result) (F.Watch.counts watch.old) (F.Watch.counts watch.new) }
{
    let bytes = whole_of(alloc, file, watch)?;
    let (head, writes) = log_in(alloc, &bytes)?;
    Ok(LogRead {
        head,
        writes: Writes::of(writes),
    })
}

/// Reads the header of a log that is named by this generation, by one read. `Damaged` has the place 1 and the 20 bytes
/// there, or as many as the file has: it comes where they are no header, or the header of another generation. `Disk`
/// comes only where the read failed.
pub fn read_log_head<F: Frozen>(
    alloc: Global,
    file: &F,
    generation: u64,
    watch: &mut F::Watch,
) -> Result<LogHead, ReadFault>
    ensures judged { IfSome (F.content file.now) (λ bytes. Judges same_head result (front_judged generation (front_of bytes))) }

    // What is read is the header that stands there, and the one that stands there is read.
    ensures found { IfOk result (λ head. IfSome (F.content file.now) (λ bytes. IsNamedHead generation (front_of bytes) head)) }
    ensures whole { IfSome (F.content file.now) (λ bytes. (head : Head) → IsNamedHead generation (front_of bytes) head → Judges same_head result (Ok head)) }

    // Also of a file that does not tell its content.
    ensures lawful { IfOk result (λ head. IsHead head × (head.generation ≡ generation)) }
    ensures damaged { IfDamaged result (λ place bytes. (whole : List ℕ) × (length whole ≡ F.size file.now) × (front_judged generation (front_of whole) ≡ Err (a_damage place bytes))) }

    ensures counted { IsCountedOnce (IsErrOf result ReadFault.Disk) (IsOk result) (F.Watch.counts watch.old) (F.Watch.counts watch.new) }
{
    let front = front_in(alloc, file, watch)?;
    named_head_in(alloc, generation, &front)
}

/// The bytes that stand where the header has its place: those of some content of the file's length.
fn front_in<F: Frozen>(alloc: Global, file: &F, watch: &mut F::Watch) -> Result<Vec<u8>, ReadFault>
    ensures read { IfOk result (λ read. IfSome (F.content file.now) (λ bytes. read.items ≡ front_of bytes)) }
    ensures possible { IfOk result (λ read. (whole : List ℕ) × (length whole ≡ F.size file.now) × (front_of whole ≡ read.items)) }
    ensures no_damage { IsNoDamage result }
    ensures counted { IsCountedOnce (IsErrOf result ReadFault.Disk) (IsOk result) (F.Watch.counts watch.old) (F.Watch.counts watch.new) }
{
    let at = file.len().min(HEAD_PLACE as u64);
    let count = (file.len() - at).min(HEAD_LEN as u64) as usize;
    bytes_of(alloc, file, at, count, watch)
}

fn named_head_in(alloc: Global, generation: u64, front: &[u8]) -> Result<LogHead, ReadFault>
    ensures judged { Judges same_head result (front_judged generation front.now) }
    ensures found { length front.now ≤ head_size → IfOk result (IsNamedHead generation front.now) }
    ensures lawful { IfOk result (λ head. IsHead head × (head.generation ≡ generation)) }
    ensures no_disk { IsNoDisk result }
{
    match head_in(front) {
        Some((head, _)) if head.generation == generation => Ok(head),
        _ => Err(damaged(alloc, HEAD_PLACE, front)),
    }
}

/// What a log means is one header and one list of lawful writes, and its gate is open.
pub fn logs_mean_one()
    ensures header { (bytes : List ℕ) (head other : Head) (writes others : List OneWrite) → Means bytes head writes → Means bytes other others → head ≡ other }
    ensures writes { (bytes : List ℕ) (head other : Head) (writes others : List OneWrite) → Means bytes head writes → Means bytes other others → writes ≡ others }
    ensures judged { (bytes : List ℕ) (head : Head) (writes : List OneWrite) → Means bytes head writes → log_judged bytes ≡ Ok (head, writes) }
    ensures lawful { (bytes : List ℕ) (head : Head) (writes : List OneWrite) → Means bytes head writes → AllByRecursion IsWrite writes }
    ensures open { (bytes : List ℕ) (head : Head) (writes : List OneWrite) → Means bytes head writes → is_open_file bytes ≡ true }
{}

/// The header and the writes of a log with these bytes.
fn log_in(alloc: Global, bytes: &[u8]) -> Result<(LogHead, Vec<Write>), ReadFault>
    ensures judged { Judges (λ x. (x.0, x.1.items)) result (log_judged bytes.now) }
    ensures found { is_open_file bytes.now ≡ true → IfOk result (λ x. Means bytes.now x.0 x.1.items) }
    ensures lawful { IfOk result (λ x. IsHead x.0 × AllByRecursion IsWrite x.1.items) }
    ensures damaged { IfDamaged result (λ place kept. log_judged bytes.now ≡ Err (a_damage place kept)) }
    ensures no_disk { IsNoDisk result }
{
    let (head, frames) = judged_head_in(alloc, behind_gate(bytes))?;
    let writes = frames_in(alloc, bytes.len(), frames)?;
    Ok((head, writes))
}

fn behind_gate(bytes: &[u8]) -> &[u8]
    ensures { result.now ≡ drop 1 bytes.now }
{
    match bytes {
        [] => &[],
        [_, rest @ ..] => rest,
    }
}

/// A header, and what stands behind it.
fn judged_head_in(alloc: Global, bytes: &[u8]) -> Result<(LogHead, &[u8]), ReadFault>
    ensures judged { Judges (λ x. (x.0, x.1.now)) result (or_damage (head_at bytes.now) (a_damage head_place (take head_size bytes.now))) }
    ensures no_disk { IsNoDisk result }
{
    match head_in(bytes) {
        Some(found) => Ok(found),
        None => {
            let front = &bytes[..bytes.len().min(HEAD_LEN)];
            Err(damaged(alloc, HEAD_PLACE, front))
        }
    }
}
