//! The line of a verdict: compact JSON, whose members stand in ascending order, and a line feed.

ghost use Rattle.std.specs.Prelude.{◌≡◌, ◌++◌, ◌∷◌, codes, true, OnOk};
ghost use Rattle.json.specs.Print.{quoted};
ghost use Rattle.serde_json.specs.Written.{comma_if, compact_text};
ghost use Rattle.tc_request_model.specs.Reply.{count};
ghost use Rattle.tc_verdicts.specs.Lines.{reason_data, verdict_data, verdict_line};
ghost use Rattle.tc_check.specs.declared.verdict.Verdict.TheVariants.{Right as right, Wrong as wrong};

use crate::reasons::{put_number, put_reason, put_text};
use std::alloc::{AllocError, Global};
use tc_check::{Reason, Verdict};
use tc_text::{put_mark, put_name};

/// Puts the line of the verdict on a partition behind other text, with its line feed. Errs only for want of memory.
pub fn put_verdict(
    alloc: Global,
    partition: u32,
    verdict: &Verdict,
    out: &mut Vec<u8>,
) -> Result<(), AllocError>
    ensures { OnOk result (out.new.items ≡ out.old.items ++ verdict_line partition verdict.now) }
{
    put_object(alloc, partition, verdict, out)?;
    put_mark(b'\n', out)
}

fn put_object(
    alloc: Global,
    partition: u32,
    verdict: &Verdict,
    out: &mut Vec<u8>,
) -> Result<(), AllocError>
    ensures { OnOk result (out.new.items ≡ out.old.items ++ compact_text (verdict_data partition verdict.now)) }
{
    match verdict {
        Verdict::Right { documents } => put_right(partition, *documents, out),
        Verdict::Wrong(reason) => put_wrong(alloc, partition, reason, out),
    }
}

fn put_right(partition: u32, documents: u64, out: &mut Vec<u8>) -> Result<(), AllocError>
    ensures { OnOk result (out.new.items ≡ out.old.items ++ compact_text (verdict_data partition (right documents))) }
{
    put_mark(b'{', out)?;
    put_text(false, "check", "right", out)?;
    put_number(true, "documents", documents, out)?;
    put_partition(partition, out)?;
    put_mark(b'}', out)
}

fn put_wrong(
    alloc: Global,
    partition: u32,
    reason: &Reason,
    out: &mut Vec<u8>,
) -> Result<(), AllocError>
    ensures { OnOk result (out.new.items ≡ out.old.items ++ compact_text (verdict_data partition (wrong reason.now))) }
{
    put_mark(b'{', out)?;
    put_text(false, "check", "wrong", out)?;
    put_partition(partition, out)?;
    put_why(alloc, reason, out)?;
    put_mark(b'}', out)
}

fn put_partition(partition: u32, out: &mut Vec<u8>) -> Result<(), AllocError>
    ensures { OnOk result (out.new.items ≡ out.old.items ++ (comma_if true ++ (quoted (codes "partition") ++ 58 ∷ compact_text (count partition)))) }
{
    put_number(true, "partition", u64::from(partition), out)
}

fn put_why(alloc: Global, reason: &Reason, out: &mut Vec<u8>) -> Result<(), AllocError>
    ensures { OnOk result (out.new.items ≡ out.old.items ++ (comma_if true ++ (quoted (codes "why") ++ 58 ∷ compact_text (reason_data reason.now)))) }
{
    put_name(true, "why", out)?;
    put_reason(alloc, reason, out)
}
