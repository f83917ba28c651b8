//! How many documents are stored in components and in the logs above them.

ghost use Rattle.std.specs.Prelude.{◌≡◌, ◌+◌, [], ◌∷◌, List, length, map, is_some, unwrap_or, IfOk, OnOk};
ghost use Rattle.std.specs.List.{AllZip};
ghost use Rattle.tc_model.specs.Keyed.{value_of};
ghost use Rattle.tc_plain_model.specs.Writes.{Write as PlainWrite};
ghost use Rattle.tc_lsm_model.specs.Contents.{Content, Partition};
ghost use Rattle.tc_lsm_model.specs.Lists.{IsList, live as live_in};
ghost use Rattle.tc_list.specs.Contents.{Shows};
ghost use Rattle.tc_machine.specs.Logs.{kept_write};
ghost use Rattle.tc_machine.specs.Pictures.{recovered};
ghost use Rattle.tc_part_model.specs.Staging.{counted_with};
ghost use Rattle.tc_check.specs.Counting.{CountsOver, writes_in};

use std::alloc::{AllocError, Global};
use std::collections::BTreeMap;
use tc_bytes::Memory;
use tc_list::{ComponentList, Whereabouts};
use tc_log::{Write, Writes};
use tc_store::Frozen;

/// How many documents are stored once some writes lie over components, and of each key that these wrote, whether it has one.
#[derive(Drop)]
pub(crate) struct Counting {
    pub documents: u64,
    pub written: BTreeMap<u64, bool>,
}

/// How many documents are stored once logs lie over components with so many. Makes no read. Errs only for want of memory.
pub fn documents_after<F: Frozen>(
    alloc: Global,
    list: &ComponentList<F>,
    logs: &[Writes],
    live: u64,
) -> Result<u64, Memory>
    ensures { IfOk result (λ documents. (part : Partition) (cs : List Content) (kept : List (List PlainWrite)) → IsList part cs → AllZip Shows list.now cs → live ≡ length (live_in cs) → logs.now ≡ map (map kept_write) kept
        → documents ≡ length (recovered cs kept).pairs) }
{
    let mut counting = Counting {
        documents: live,
        written: BTreeMap::new(alloc),
    };
    count_logs(list, logs, &mut counting)?;
    Ok(counting.documents)
}

fn count_logs<F: Frozen>(
    list: &ComponentList<F>,
    logs: &[Writes],
    counting: &mut Counting,
) -> Result<(), Memory>
    ensures { OnOk result (CountsOver list.now (writes_in logs.now) counting.old counting.new) }
{
    let mut rest = logs;
    while let Some((log, behind)) = rest.split_first() {
        count_log(list, log.as_slice(), counting)?;
        rest = behind;
    }
    Ok(())
}

fn count_log<F: Frozen>(
    list: &ComponentList<F>,
    writes: &[Write],
    counting: &mut Counting,
) -> Result<(), Memory>
    ensures { OnOk result (CountsOver list.now writes.now counting.old counting.new) }
{
    let mut rest = writes;
    while let Some((write, behind)) = rest.split_first() {
        count_write(list, write, counting)?;
        rest = behind;
    }
    Ok(())
}

fn count_write<F: Frozen>(
    list: &ComponentList<F>,
    write: &Write,
    counting: &mut Counting,
) -> Result<(), Memory>
    ensures { OnOk result (CountsOver list.now (write.now ∷ []) counting.old counting.new) }
{
    let (key, stores) = change_of(write);
    let stored = is_stored(list, &counting.written, key);
    let documents = documents_with(counting.documents, stored, stores)?;
    counting.written.insert(key, stores)?;
    counting.documents = documents;
    Ok(())
}

/// The key of a write, and whether it has a document then.
fn change_of(write: &Write) -> (u64, bool)
    ensures { (w : PlainWrite) → write.now ≡ kept_write w → (result.0 ≡ w.0) × (result.1 ≡ is_some w.1) }
{
    match write {
        Write::Upsert { key, bytes: _ } => (*key, true),
        Write::Delete { key } => (*key, false),
    }
}

/// Whether a key has a document, by the writes so far, or else by the components.
fn is_stored<F: Frozen>(list: &ComponentList<F>, written: &BTreeMap<u64, bool>, key: u64) -> bool
    ensures { (part : Partition) (cs : List Content) → IsList part cs → AllZip Shows list.now cs → result ≡ unwrap_or (value_of key written.now.entries) (is_some (value_of key (live_in cs))) }
{
    match written.get(&key) {
        Some(stores) => *stores,
        None => is_live(list, key),
    }
}

fn is_live<F: Frozen>(list: &ComponentList<F>, key: u64) -> bool
    ensures { (part : Partition) (cs : List Content) → IsList part cs → AllZip Shows list.now cs → result ≡ is_some (value_of key (live_in cs)) }
{
    match list.find(key) {
        Whereabouts::Absent => false,
        Whereabouts::At {
            component: _,
            place: _,
        } => true,
    }
}

/// How many documents there are behind a write, where its key had one or not.
#[tactic(auto, using(crate::proofs::DocumentCounts::counted_as))]
fn documents_with(documents: u64, stored: bool, stores: bool) -> Result<u64, Memory>
    ensures { IfOk result (λ after. (w : PlainWrite) → stores ≡ is_some w.1 → after ≡ counted_with w stored documents) }
{
    if stores {
        if stored {
            Ok(documents)
        } else {
            one_more(documents)
        }
    } else if stored {
        Ok(documents.saturating_sub(1))
    } else {
        Ok(documents)
    }
}

/// One document more. No memory holds 2^64 writes.
fn one_more(documents: u64) -> Result<u64, Memory>
    ensures { IfOk result (λ after. after ≡ documents + 1) }
{
    match documents.checked_add(1) {
        Some(after) => Ok(after),
        None => Err(AllocError),
    }
}
