//! The audit of all partitions.

ghost use Rattle.std.specs.Prelude.{◌≡◌, ◌≤◌, ◌<◌, ◌∷◌, ◌++◌, ◌⊎◌, [], List, Some, IfErr, IfOk, IfSome, IsSome, OnOk, length, vec_capacity, vec_len};
ghost use Rattle.tc_bytes.specs.Counts.{Rose};
ghost use Rattle.tc_recover.specs.Refusals.{asked};
ghost use Rattle.tc_store.specs.Disk.{IsAtRest};
ghost use Rattle.tc_store.specs.Moments.{IfTold};
ghost use Rattle.tc_store.specs.declared.kit.Kit.{Kit as OneKit};
ghost use Rattle.tc_check.specs.declared.verdict.Verdict.{Verdict as OneVerdict};
ghost use Rattle.tc_verdicts.specs.Faults.{status_of, IsWrite};
ghost use Rattle.tc_verdicts.specs.Kits.{AreVerdicts, AtPlaces, HasEnded, IsGivenBack, IsShelfBehind, IsVerdict, IsWritten};
ghost use Rattle.tc_verdicts.specs.Lines.{lines_from, verdict_line};
ghost use Rattle.tc_verdicts.specs.Stages.{IsKept, IsOfKit, IsTaken};

use crate::fault::{CheckedFault, of_check, of_shelf};
use crate::line::put_verdict;
use std::alloc::Global;
use tc_check::check_part;
use tc_edge::{Sink, WriteFault, write_all};
use tc_recover::Partition;
use tc_store::{Kit, Shelf, Store};

/// How an audit ended: its exit status, the fault where the status is not 0, and each kit that the shelf gave, all files of which
/// have the bytes that they had.
#[derive(Drop)]
pub struct Checked<S: Store> {
    pub status: u8,
    pub fault: Option<CheckedFault>,
    pub kits: Vec<Kit<S>>,
}

impl<S: Store> Checked<S> {
    ghost use Rattle.std.specs.Prelude.{◌≡◌};
    ghost use Rattle.tc_verdicts.specs.Faults.{status_of};

    // An audit that ended by this fault, or by none.
    fn of(fault: Option<CheckedFault>, kits: Vec<Kit<S>>) -> Checked<S>
        ensures status { result.status ≡ status_of fault }
        ensures fault { result.fault ≡ fault }
        ensures kits { result.kits ≡ kits }
    {
        let status = match fault {
            Some(fault) => fault.status(),
            None => 0,
        };
        Checked {
            status,
            fault,
            kits,
        }
    }
}

/// Asks the shelf for the kits of so many partitions, in ascending number, and audits the files of each before the next one is
/// asked for. Behind the last verdict a line is written for each. No file is changed. A fault of the shelf or of a kit, and want of
/// memory, end it before anything is written.
pub fn check_all<H: Shelf, O: Sink>(
    alloc: Global,
    partitions: u32,
    shelf: &mut H,
    sink: &mut O,
) -> Checked<H::Store>
    ensures status { result.status ≡ status_of result.fault }
    ensures written { IsWritten (λ file. H.Store.Frozen.content file) (λ s. O.taken s) partitions (H.files shelf.old) result.fault sink.old sink.new }
    ensures sink { (O.faults sink.old ≤ O.faults sink.new) × IfSome result.fault (λ fault. IsWrite fault → Rose (O.faults sink.old) (O.faults sink.new)) }

    // The kits that were given are given back, in ascending number. Behind them none was asked for but the next one.
    ensures ended { HasEnded (λ w. H.Store.Watch.counts w) partitions (H.kit_faults shelf.old) (Rose (H.faults shelf.old) (H.faults shelf.new)) result.kits.items result.fault }
    ensures given_back { AtPlaces (λ p kit. IsGivenBack (λ s. H.Store.history s) (λ w. H.Store.Watch.counts w) (H.files shelf.old p) (H.kit_faults shelf.old p) kit) result.kits.items }
    ensures shelf { IsShelfBehind partitions (length result.kits.items) (H.files shelf.old) (H.files shelf.new) (H.kit_faults shelf.old) (H.kit_faults shelf.new) (H.faults shelf.old) (H.faults shelf.new) }
    ensures unasked { result.kits.items ≡ [] → (shelf.new ≡ shelf.old) ⊎ Rose (H.faults shelf.old) (H.faults shelf.new) }
{
    let mut kits = match Vec::with_capacity(alloc, partitions as usize) {
        Ok(kits) => kits,
        Err(_) => return Checked::of(Some(CheckedFault::Memory), Vec::new(alloc)),
    };
    match check_kits(alloc, partitions, shelf, &mut kits) {
        Ok(lines) => Checked::of(write_lines(sink, lines.as_slice()), kits),
        Err(fault) => Checked::of(Some(fault), kits),
    }
}

// Has the sink take all lines, and answers by which fault it did not.
fn write_lines<O: Sink>(sink: &mut O, lines: &[u8]) -> Option<CheckedFault>
    ensures taken { IsTaken lines.now result (O.taken sink.old) (O.taken sink.new) }
    ensures faults { O.faults sink.old ≤ O.faults sink.new }
    ensures cause { IsSome result → Rose (O.faults sink.old) (O.faults sink.new) }
{
    match write_all(sink, lines) {
        Ok(()) => None,
        Err(WriteFault { taken }) => Some(CheckedFault::Write { taken }),
    }
}

// The lines of all verdicts. The kits come into the room that was taken for them.
fn check_kits<H: Shelf>(
    alloc: Global,
    partitions: u32,
    shelf: &mut H,
    kits: &mut Vec<Kit<H::Store>>,
) -> Result<Vec<u8>, CheckedFault>
    requires none { kits.old.items ≡ [] }
    requires room { partitions ≤ vec_capacity kits.old }
    ensures verdicts { IfOk result (λ lines. (verdicts : List OneVerdict) × AreVerdicts (λ file. H.Store.Frozen.content file) partitions (H.files shelf.old) verdicts × (lines.items ≡ lines_from 0 verdicts)) }
    ensures all { OnOk result (length kits.new.items ≡ partitions) }
    ensures unwritten { IfErr result (λ fault. IsWrite fault → ⊥) }
    ensures ended { IfErr result (λ fault. HasEnded (λ w. H.Store.Watch.counts w) partitions (H.kit_faults shelf.old) (Rose (H.faults shelf.old) (H.faults shelf.new)) kits.new.items (Some fault)) }
    ensures given_back { AtPlaces (λ p kit. IsGivenBack (λ s. H.Store.history s) (λ w. H.Store.Watch.counts w) (H.files shelf.old p) (H.kit_faults shelf.old p) kit) kits.new.items }
    ensures shelf { IsShelfBehind partitions (length kits.new.items) (H.files shelf.old) (H.files shelf.new) (H.kit_faults shelf.old) (H.kit_faults shelf.new) (H.faults shelf.old) (H.faults shelf.new) }
    ensures unasked { kits.new.items ≡ [] → (shelf.new ≡ shelf.old) ⊎ Rose (H.faults shelf.old) (H.faults shelf.new) }
{
    let mut lines = Vec::new(alloc);
    for number in 0..partitions {
        let part = Partition {
            number,
            count: partitions,
        };
        match shelf.kit(alloc, number) {
            Ok(kit) => check_kit(alloc, part, kit, kits, &mut lines)?,
            Err(fault) => return Err(of_shelf(number, fault)),
        }
    }
    Ok(lines)
}

// Audits the files of a kit, keeps the kit behind those before it, and puts the line of the verdict.
fn check_kit<S: Store>(
    alloc: Global,
    part: Partition,
    kit: Kit<S>,
    kits: &mut Vec<Kit<S>>,
    lines: &mut Vec<u8>,
) -> Result<(), CheckedFault>
    requires at_rest { IfTold (S.history kit.store) IsAtRest }
    requires room { vec_len kits.old < vec_capacity kits.old }
    ensures verdict { OnOk result ((verdict : OneVerdict) × IsVerdict (λ file. S.Frozen.content file) (asked part) (S.history kit.store) verdict × (lines.new.items ≡ lines.old.items ++ verdict_line part.number verdict)) }
    ensures kept { (back : OneKit S S.Watch S.Device S.Frozen) × (kits.new.items ≡ kits.old.items ++ back ∷ []) × IsKept (λ s. S.history s) (λ w. S.Watch.counts w) kit back × IfErr result (IsOfKit part.number (Rose (S.Watch.counts kit.main).faults (S.Watch.counts back.main).faults)) }
    ensures room { vec_capacity kits.old ≤ vec_capacity kits.new }
{
    let mut kit = kit;
    let checked = check_part(alloc, &mut kit.store, part, &mut kit.main);
    keep(kits, kit);
    match checked {
        Ok(verdict) => Ok(put_verdict(alloc, part.number, &verdict, lines)?),
        Err(fault) => Err(of_check(part.number, fault)),
    }
}

// Puts a kit into room that was taken for it.
fn keep<S: Store>(kits: &mut Vec<Kit<S>>, kit: Kit<S>)
    requires room { vec_len kits.old < vec_capacity kits.old }
    ensures items { kits.new.items ≡ kits.old.items ++ kit ∷ [] }
    ensures room { vec_capacity kits.old ≤ vec_capacity kits.new }
{
    if kits.push(kit).is_err() {
        unreachable!();
    }
}
