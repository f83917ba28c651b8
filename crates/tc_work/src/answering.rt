//! One command of a window: its write is staged, its key is looked up, or a query gets its rows.

ghost use Rattle.std.specs.Prelude.{◌≡◌, ◌≤◌, ◌+◌, false, IfErr, IfOk, OnOk, IsErrOf};
ghost use Rattle.tc_request_model.specs.Request.{upsert, delete, get, query};
ghost use Rattle.tc_value.specs.Meaning.{tree_of};
ghost use Rattle.tc_command.specs.Commands.{ask_of, request_of_command};
ghost use Rattle.tc_command.specs.Replies.{rendered_of};
ghost use Rattle.tc_request_model.specs.Rendered.{rendered};
ghost use Rattle.tc_run_model.specs.Kinds.{IsRenderedOfKind};
ghost use Rattle.tc_request_model.specs.Part.{part_left, part_reply, part_writes};
ghost use Rattle.tc_part_model.specs.Meaning.{IsPart, plain_of};
ghost use Rattle.tc_part_model.specs.PartState.{told, AreTold};
ghost use Rattle.tc_part_model.specs.PartView.{PartView};
ghost use Rattle.tc_part.specs.Harms.{IsHarmIn};
ghost use Rattle.tc_work.specs.Asked.{writes_for, IsForPart};
ghost use Rattle.tc_work.specs.Faults.{IfDamage};
ghost use Rattle.tc_work.specs.Frames.{HasGrown, HasRoomFor};
ghost use Rattle.tc_work.specs.Reads.{live_in, reads_for, IsCountedWithin};
ghost use Rattle.tc_work.specs.Replied.{reply_to_delete, reply_to_upsert};
ghost use Rattle.tc_work.specs.Windowed.{HasOnlyStaged, IsStagedAs};

use crate::fault::EngineFault;
use std::alloc::Global;
use tc_command::{Ask, Command, Refusal, Reply};
use tc_log::Write;
use tc_part::{Part, Staged};
use tc_part_model::staged_is_kept;
use tc_record::encode;
use tc_store::Store;
use tc_value::Doc;

/// The reply to a command, whose write is staged. Where this errs the part may have failed or not.
pub(crate) fn answer<S: Store>(
    alloc: Global,
    part: &mut Part<S>,
    command: &Command,
) -> Result<Reply, EngineFault>
    requires sound { part.old.failed ≡ false }
    requires asked { IsForPart (request_of_command command.now) }
    requires frame { HasRoomFor (request_of_command command.now) part.old.staged }
    ensures staged { (p : PartView) → IsPart (told S.history S.Device.history S.Frozen.content part.old) p
        → OnOk result (IsStagedAs (part_writes part.old.limits (request_of_command command.now) (plain_of (told S.history S.Device.history S.Frozen.content part.old) p)) (part_left part.old.limits (request_of_command command.now) (plain_of (told S.history S.Device.history S.Frozen.content part.old) p)) p (told S.history S.Device.history S.Frozen.content part.new)) }
    ensures reply { (p : PartView) → IsPart (told S.history S.Device.history S.Frozen.content part.old) p → AreTold (told S.history S.Device.history S.Frozen.content part.old).components
        → IfOk result (λ reply. rendered_of reply ≡ rendered (part_reply part.old.limits (request_of_command command.now) (plain_of (told S.history S.Device.history S.Frozen.content part.old) p))) }
    ensures kind { IfOk result (λ reply. IsRenderedOfKind (request_of_command command.now) (rendered_of reply)) }
    ensures grown { OnOk result (HasGrown (request_of_command command.now) part.old.staged part.new.staged) }
    ensures same { HasOnlyStaged part.old part.new }
    ensures sound { OnOk result (part.new.failed ≡ false) }
    ensures harmed { IfErr result (λ fault. IfDamage fault (λ file at bytes. IsHarmIn (λ file. S.Frozen.content file) part.old.list file at bytes)) }
    ensures unspent { IsErrOf result EngineFault.Spent → ⊥ }
    ensures live { OnOk result (live_in part.new ≤ live_in part.old + writes_for (request_of_command command.now)) }
    ensures counted { IsCountedWithin (reads_for (live_in part.old) (request_of_command command.now)) (IsErrOf result EngineFault.Disk) (S.Watch.counts part.old.main) (S.Watch.counts part.new.main) }
{
    match command {
        Command::Upsert { key, doc } => upsert(alloc, part, *key, doc),
        Command::Delete { key } => delete(alloc, part, *key),
        Command::Get { key } => get(alloc, part, *key),
        Command::Query(ask) => query(alloc, part, ask),
        _other => unreachable!(),
    }
}

fn upsert<S: Store>(
    alloc: Global,
    part: &mut Part<S>,
    key: u64,
    doc: &Doc,
) -> Result<Reply, EngineFault>
    requires sound { part.old.failed ≡ false }
    requires asked { IsForPart (upsert key (tree_of doc.now)) }
    requires frame { HasRoomFor (upsert key (tree_of doc.now)) part.old.staged }
    ensures staged { (p : PartView) → IsPart (told S.history S.Device.history S.Frozen.content part.old) p
        → OnOk result (IsStagedAs (part_writes part.old.limits (upsert key (tree_of doc.now)) (plain_of (told S.history S.Device.history S.Frozen.content part.old) p)) (part_left part.old.limits (upsert key (tree_of doc.now)) (plain_of (told S.history S.Device.history S.Frozen.content part.old) p)) p (told S.history S.Device.history S.Frozen.content part.new)) }
    ensures reply { (p : PartView) → IsPart (told S.history S.Device.history S.Frozen.content part.old) p → AreTold (told S.history S.Device.history S.Frozen.content part.old).components
        → IfOk result (λ reply. rendered_of reply ≡ rendered (part_reply part.old.limits (upsert key (tree_of doc.now)) (plain_of (told S.history S.Device.history S.Frozen.content part.old) p))) }
    ensures kind { IfOk result (λ reply. IsRenderedOfKind (upsert key (tree_of doc.now)) (rendered_of reply)) }
    ensures grown { OnOk result (HasGrown (upsert key (tree_of doc.now)) part.old.staged part.new.staged) }
    ensures same { HasOnlyStaged part.old part.new }
    ensures sound { OnOk result (part.new.failed ≡ false) }
    ensures harmed { IfErr result (λ fault. IfDamage fault (λ file at bytes. IsHarmIn (λ file. S.Frozen.content file) part.old.list file at bytes)) }
    ensures unspent { IsErrOf result EngineFault.Spent → ⊥ }
    ensures live { OnOk result (live_in part.new ≤ live_in part.old + writes_for (upsert key (tree_of doc.now))) }
    ensures counted { IsCountedWithin (reads_for (live_in part.old) (upsert key (tree_of doc.now))) (IsErrOf result EngineFault.Disk) (S.Watch.counts part.old.main) (S.Watch.counts part.new.main) }
{
    staged_is_kept();
    let bytes = encode(alloc, doc)?;
    let staged = part.stage(alloc, Write::Upsert { key, bytes })?;
    Ok(upserted(key, staged))
}

/// The reply to the upsert of a key.
fn upserted(key: u64, staged: Staged) -> Reply
    ensures { rendered_of result ≡ rendered (reply_to_upsert key staged) }
{
    match staged {
        Staged::Done { was_live } => Reply::Upserted {
            id: key,
            replaced: was_live,
        },
        Staged::NamesFull => Reply::Refused(Refusal::NamesFull),
        Staged::Full => Reply::Refused(Refusal::Full),
    }
}

fn delete<S: Store>(alloc: Global, part: &mut Part<S>, key: u64) -> Result<Reply, EngineFault>
    requires sound { part.old.failed ≡ false }
    requires asked { IsForPart (delete key) }
    requires frame { HasRoomFor (delete key) part.old.staged }
    ensures staged { (p : PartView) → IsPart (told S.history S.Device.history S.Frozen.content part.old) p
        → OnOk result (IsStagedAs (part_writes part.old.limits (delete key) (plain_of (told S.history S.Device.history S.Frozen.content part.old) p)) (part_left part.old.limits (delete key) (plain_of (told S.history S.Device.history S.Frozen.content part.old) p)) p (told S.history S.Device.history S.Frozen.content part.new)) }
    ensures reply { (p : PartView) → IsPart (told S.history S.Device.history S.Frozen.content part.old) p → AreTold (told S.history S.Device.history S.Frozen.content part.old).components
        → IfOk result (λ reply. rendered_of reply ≡ rendered (part_reply part.old.limits (delete key) (plain_of (told S.history S.Device.history S.Frozen.content part.old) p))) }
    ensures kind { IfOk result (λ reply. IsRenderedOfKind (delete key) (rendered_of reply)) }
    ensures grown { OnOk result (HasGrown (delete key) part.old.staged part.new.staged) }
    ensures same { HasOnlyStaged part.old part.new }
    ensures sound { OnOk result (part.new.failed ≡ false) }
    ensures harmed { IfErr result (λ fault. IfDamage fault (λ file at bytes. IsHarmIn (λ file. S.Frozen.content file) part.old.list file at bytes)) }
    ensures unspent { IsErrOf result EngineFault.Spent → ⊥ }
    ensures live { OnOk result (live_in part.new ≤ live_in part.old + writes_for (delete key)) }
    ensures counted { IsCountedWithin (reads_for (live_in part.old) (delete key)) (IsErrOf result EngineFault.Disk) (S.Watch.counts part.old.main) (S.Watch.counts part.new.main) }
{
    staged_is_kept();
    let staged = part.stage(alloc, Write::Delete { key })?;
    Ok(deleted(key, staged))
}

/// The reply to the delete of a key. A delete is never refused.
fn deleted(key: u64, staged: Staged) -> Reply
    ensures { rendered_of result ≡ rendered (reply_to_delete key staged) }
{
    match staged {
        Staged::Done { was_live } => Reply::Deleted {
            id: key,
            found: was_live,
        },
        _refused => Reply::Deleted {
            id: key,
            found: false,
        },
    }
}

fn get<S: Store>(alloc: Global, part: &mut Part<S>, key: u64) -> Result<Reply, EngineFault>
    requires sound { part.old.failed ≡ false }
    requires asked { IsForPart (get key) }
    requires frame { HasRoomFor (get key) part.old.staged }
    ensures staged { (p : PartView) → IsPart (told S.history S.Device.history S.Frozen.content part.old) p
        → OnOk result (IsStagedAs (part_writes part.old.limits (get key) (plain_of (told S.history S.Device.history S.Frozen.content part.old) p)) (part_left part.old.limits (get key) (plain_of (told S.history S.Device.history S.Frozen.content part.old) p)) p (told S.history S.Device.history S.Frozen.content part.new)) }
    ensures reply { (p : PartView) → IsPart (told S.history S.Device.history S.Frozen.content part.old) p → AreTold (told S.history S.Device.history S.Frozen.content part.old).components
        → IfOk result (λ reply. rendered_of reply ≡ rendered (part_reply part.old.limits (get key) (plain_of (told S.history S.Device.history S.Frozen.content part.old) p))) }
    ensures kind { IfOk result (λ reply. IsRenderedOfKind (get key) (rendered_of reply)) }
    ensures grown { OnOk result (HasGrown (get key) part.old.staged part.new.staged) }
    ensures same { HasOnlyStaged part.old part.new }
    ensures sound { OnOk result (part.new.failed ≡ false) }
    ensures harmed { IfErr result (λ fault. IfDamage fault (λ file at bytes. IsHarmIn (λ file. S.Frozen.content file) part.old.list file at bytes)) }
    ensures unspent { IsErrOf result EngineFault.Spent → ⊥ }
    ensures live { OnOk result (live_in part.new ≤ live_in part.old + writes_for (get key)) }
    ensures counted { IsCountedWithin (reads_for (live_in part.old) (get key)) (IsErrOf result EngineFault.Disk) (S.Watch.counts part.old.main) (S.Watch.counts part.new.main) }
{
    let text = part.lookup(alloc, key)?;
    Ok(Reply::Got { id: key, text })
}

fn query<S: Store>(alloc: Global, part: &mut Part<S>, ask: &Ask) -> Result<Reply, EngineFault>
    requires sound { part.old.failed ≡ false }
    requires asked { IsForPart (query (ask_of ask.now)) }
    requires frame { HasRoomFor (query (ask_of ask.now)) part.old.staged }
    ensures staged { (p : PartView) → IsPart (told S.history S.Device.history S.Frozen.content part.old) p
        → OnOk result (IsStagedAs (part_writes part.old.limits (query (ask_of ask.now)) (plain_of (told S.history S.Device.history S.Frozen.content part.old) p)) (part_left part.old.limits (query (ask_of ask.now)) (plain_of (told S.history S.Device.history S.Frozen.content part.old) p)) p (told S.history S.Device.history S.Frozen.content part.new)) }
    ensures reply { (p : PartView) → IsPart (told S.history S.Device.history S.Frozen.content part.old) p → AreTold (told S.history S.Device.history S.Frozen.content part.old).components
        → IfOk result (λ reply. rendered_of reply ≡ rendered (part_reply part.old.limits (query (ask_of ask.now)) (plain_of (told S.history S.Device.history S.Frozen.content part.old) p))) }
    ensures kind { IfOk result (λ reply. IsRenderedOfKind (query (ask_of ask.now)) (rendered_of reply)) }
    ensures grown { OnOk result (HasGrown (query (ask_of ask.now)) part.old.staged part.new.staged) }
    ensures same { HasOnlyStaged part.old part.new }
    ensures sound { OnOk result (part.new.failed ≡ false) }
    ensures harmed { IfErr result (λ fault. IfDamage fault (λ file at bytes. IsHarmIn (λ file. S.Frozen.content file) part.old.list file at bytes)) }
    ensures unspent { IsErrOf result EngineFault.Spent → ⊥ }
    ensures live { OnOk result (live_in part.new ≤ live_in part.old + writes_for (query (ask_of ask.now))) }
    ensures counted { IsCountedWithin (reads_for (live_in part.old) (query (ask_of ask.now))) (IsErrOf result EngineFault.Disk) (S.Watch.counts part.old.main) (S.Watch.counts part.new.main) }
{
    let rows = part.rows(alloc, ask)?;
    Ok(Reply::Rows(rows))
}
