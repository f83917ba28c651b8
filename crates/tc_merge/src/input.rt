//! The components that are merged, each with the place of its next entry.

ghost use Rattle.std.specs.Arc.{arc_value};
ghost use Rattle.std.specs.Prelude.{◌≡◌, ◌<◌, ◌≤◌, ◌+◌, ℕ, ◌∷◌, [], ◌++◌, List, length, option_map, take, drop, Some, None, false, IfSome, IfErr, IsErrOf, OnOk, IsSome};
ghost use Rattle.tc_store.specs.Gate.{IsClosed};
ghost use Rattle.tc_store.specs.Moments.{LeavesOnly};
ghost use Rattle.tc_component.specs.Building.{HasRows, IsWrittenRecord};
ghost use Rattle.tc_component.specs.Fetching.{IsRecordWithin};
ghost use Rattle.tc_component.specs.Spans.{IsSpan};
ghost use Rattle.tc_component.specs.Spelling.{Row, written_version};
ghost use Rattle.tc_merge.specs.Faults.{IfHarmed, IsHarmless, IsHarmOf, IsWatched};
ghost use Rattle.tc_merge.specs.Inputs.{key_ahead, key_in, rows_from, passed, IsNear};
ghost use Rattle.tc_merge.specs.Merging.{kept, live_rows, rewritten};
ghost use Rattle.tc_store.specs.Counted.{IsCounted};

use crate::fault::{MergeFault, of_device, of_read};
use std::alloc::Global;
use std::marker::Model;
use std::sync::Arc;
use tc_compact::repack;
use tc_component::{Builder, Component, RecordCursor, Span};
use tc_record::{NUMBERED_FORM, RecordRef};
use tc_store::{Device, Frozen, Store};

/// How many entries are looked up at once: directories are larger than a processor's near caches, and of each only a few
/// bytes are asked for in one step, so that many are fetched while the first of them is waited for.
const NEAR: usize = 16;

/// What stands where no entry was looked up.
const NONE: Span = Span {
    key: 0,
    begin: 0,
    count: 0,
};

/// The key where no entry is left, which is greater than each key.
pub(crate) const NO_KEY: u64 = u64::MAX;

/// A component whose entries are passed one after the other. Contracts see the component, and how many are behind.
#[derive(Drop)]
pub(crate) struct Input<F: Frozen> {
    component: Arc<Component<F>>,
    /// The key of the next entry, for which each step of a merge asks.
    key: u64,
    /// The position from which on entries were looked up.
    base: usize,
    near: [Span; NEAR],
    /// How many were looked up, and how many of them are behind.
    held: usize,
    step: usize,
    cursor: RecordCursor,
    /// Room for a record that is rewritten.
    packed: Vec<u8>,
}

impl<F: Frozen> Model for Input<F> {
    ghost use Rattle.std.specs.Arc.{arc_value};
    ghost use Rattle.std.specs.Coded.{codes};
    ghost use Rattle.std.specs.Prelude.{◌+◌};
    ghost use Rattle.tc_schema_model.specs.CountedCode.{coded_counted};
    ghost use Rattle.tc_component.specs.Cursors.{HoldsPart};
    ghost use Rattle.tc_merge.specs.Inputs.{InputState, IsNear};

    ghost Value = { InputState F };

    ghost coded = { Prim.hlevel (codes, coded_counted) };

    ghost view = { λ i. record { component = arc_value i.component; at = i.base + i.step } };

    ghost invariant = { λ i. IsNear (arc_value i.component).index i.base i.near i.held i.step i.key × HoldsPart (F.content (arc_value i.component).file) i.cursor };
}

/// Which of the inputs has the next entry, and the key of that.
#[derive(Clone, Copy)]
pub(crate) struct Next {
    pub input: usize,
    pub key: u64,
}

impl<F: Frozen> Input<F> {
    /// A component none of whose entries is behind.
    pub(crate) fn of(alloc: Global, component: Arc<Component<F>>) -> Input<F>
        ensures { result ≡ record { component = arc_value component; at = 0 } }
    {
        let mut near = [NONE; NEAR];
        let (held, key) = look_up(&component, 0, &mut near);
        Input {
            component,
            key,
            base: 0,
            near,
            held,
            step: 0,
            cursor: RecordCursor::new(alloc),
            packed: Vec::new(alloc),
        }
    }

    /// The key of the next entry, or `NO_KEY`.
    pub(crate) fn key(&self) -> u64
        ensures { key_in result ≡ key_ahead self.now }
    {
        self.key
    }

    /// The next entry.
    pub(crate) fn ahead(&self) -> Span
        requires { self.now.at < length self.now.component.index.slots }
        ensures { IsSpan self.now.component.index.slots self.now.at result }
    {
        self.near[self.step]
    }

    /// Passes the next entry, where it has this key.
    pub(crate) fn pass(&mut self, key: u64)
        requires { key_in key ≡ Some key }
        ensures { self.new ≡ passed key self.old }
    {
        if self.key != key {
            return;
        }
        // that a place behind it is a number
        let _fits = self.component.len();
        let next = self.step + 1;
        if next < self.held {
            self.key = self.near[next].key;
            self.step = next;
        } else {
            self.base += next;
            self.step = 0;
            (self.held, self.key) = look_up(&self.component, self.base, &mut self.near);
        }
    }
}

/// Looks up entries from a position on, as many as there is room for. Answers how many, and the key of the first, or `NO_KEY`.
// apart from the step that passes one, which is short without it
#[inline(never)]
fn look_up<F: Frozen>(component: &Component<F>, at: usize, near: &mut [Span; NEAR]) -> (usize, u64)
    requires { at ≤ length component.now.index.slots }
    ensures { IsNear component.now.index at near.new result.0 0 result.1 }
{
    let held = component.spans(at, near);
    let key = if held == 0 { NO_KEY } else { near[0].key };
    (held, key)
}

/// Pushes an entry of an input: its record as it is written now, or that it is gone, which from generation 1 on is left out.
/// The record is read, and judged, and nothing else is.
pub(crate) fn put<S: Store>(
    input: &mut Input<S::Frozen>,
    entry: Span,
    from: u64,
    builder: &mut Builder<S::Device>,
    watch: &mut S::Watch,
) -> Result<(), MergeFault>
    requires entry { (at : ℕ) × IsSpan input.old.component.index.slots at entry }
    requires going_on { builder.old.failed ≡ false }

    ensures same { input.new ≡ input.old }
    ensures pushed { OnOk result ((at : ℕ) (row : Row) (left rows : List Row) → IsSpan input.old.component.index.slots at entry → IsSome (S.Frozen.content input.old.component.file) → rows_from (λ file. S.Frozen.content file) input.old.component at ≡ row ∷ left
        → HasRows (S.Device.history builder.old.device) builder.old rows → HasRows (S.Device.history builder.new.device) builder.new (rows ++ kept from (row ∷ []))) }
    ensures judged { OnOk result ((at : ℕ) (row : Row) (left : List Row) → IsSpan input.old.component.index.slots at entry → IsSome (S.Frozen.content input.old.component.file) → rows_from (λ file. S.Frozen.content file) input.old.component at ≡ row ∷ left
        → IfSome row.1 (λ bytes. IsRecordWithin written_version (length input.old.component.index.names) bytes)) }

    // Also where no file tells.
    ensures more { OnOk result ((rows : List Row) → HasRows (S.Device.history builder.old.device) builder.old rows → (all : List Row) × HasRows (S.Device.history builder.new.device) builder.new all) }
    ensures harmed { IfErr result (λ fault. IfHarmed fault (λ file place bytes. IsHarmOf (λ f. S.Frozen.content f) input.old.component file place bytes)) }
    ensures head { builder.new.head ≡ builder.old.head }
    ensures not_failed { OnOk result (builder.new.failed ≡ false) }
    ensures name { S.Device.name builder.new.device ≡ S.Device.name builder.old.device }
    ensures moments { LeavesOnly IsClosed (S.Device.history builder.old.device) (S.Device.history builder.new.device) }
    ensures reads { (at : ℕ) (row : Row) (left : List Row) → IsSpan input.old.component.index.slots at entry → rows_from (λ file. S.Frozen.content file) input.old.component at ≡ row ∷ left → (S.Watch.counts watch.new).reads ≤ (S.Watch.counts watch.old).reads + live_rows (row ∷ []) }
    ensures watched { IsWatched (IsErrOf result MergeFault.Disk) (S.Watch.counts watch.old) (S.Watch.counts watch.new) }
{
    if entry.count == 0 {
        put_gone(entry.key, from, builder, watch)
    } else {
        put_live::<S>(input, entry, builder, watch)
    }
}

/// Pushes the record of an entry as it is written now, once it is read and judged.
fn put_live<S: Store>(
    input: &mut Input<S::Frozen>,
    entry: Span,
    builder: &mut Builder<S::Device>,
    watch: &mut S::Watch,
) -> Result<(), MergeFault>
    requires entry { (at : ℕ) × IsSpan input.old.component.index.slots at entry }
    requires live { 0 < entry.count }
    requires going_on { builder.old.failed ≡ false }

    ensures same { input.new ≡ input.old }
    ensures pushed { OnOk result ((rows : List Row) → HasRows (S.Device.history builder.old.device) builder.old rows
        → IfSome (S.Frozen.content input.old.component.file) (λ whole. HasRows (S.Device.history builder.new.device) builder.new (rows ++ (entry.key, Some (rewritten input.old.component.index.version (take entry.count (drop entry.begin whole)))) ∷ []))) }
    ensures judged { OnOk result (IfSome (S.Frozen.content input.old.component.file) (λ whole. IsRecordWithin written_version (length input.old.component.index.names) (rewritten input.old.component.index.version (take entry.count (drop entry.begin whole))))) }

    // Also where no file tells.
    ensures more { OnOk result ((rows : List Row) → HasRows (S.Device.history builder.old.device) builder.old rows → (all : List Row) × HasRows (S.Device.history builder.new.device) builder.new all) }
    ensures harmed { IfErr result (λ fault. IfHarmed fault (λ file place bytes. IsHarmOf (λ f. S.Frozen.content f) input.old.component file place bytes)) }
    ensures head { builder.new.head ≡ builder.old.head }
    ensures not_failed { OnOk result (builder.new.failed ≡ false) }
    ensures name { S.Device.name builder.new.device ≡ S.Device.name builder.old.device }
    ensures moments { LeavesOnly IsClosed (S.Device.history builder.old.device) (S.Device.history builder.new.device) }
    ensures reads { (S.Watch.counts watch.new).reads ≤ (S.Watch.counts watch.old).reads + 1 }
    ensures watched { IsWatched (IsErrOf result MergeFault.Disk) (S.Watch.counts watch.old) (S.Watch.counts watch.new) }
{
    let Span { key, begin, count } = entry;
    if let Err(fault) = input.cursor.hold(&input.component, begin, count, watch) {
        return Err(of_read(input.component.file_name(), fault));
    }
    match input.cursor.judged(&input.component, begin, count) {
        Ok(found) => put_record(key, found, &mut input.packed, builder, watch),
        Err(fault) => Err(of_read(input.component.file_name(), fault)),
    }
}

/// Pushes a record as it is written now: one of form 1 with the numbers of its columns in bits, and another as it is.
#[inline(always)]
fn put_record<D: Device>(
    key: u64,
    found: RecordRef<'_>,
    packed: &mut Vec<u8>,
    builder: &mut Builder<D>,
    watch: &mut D::Watch,
) -> Result<(), MergeFault>
    requires found { (limit : ℕ) × IsRecordWithin found.form limit found.bytes }
    requires going_on { builder.old.failed ≡ false }

    ensures pushed { OnOk result ((rows : List Row) → HasRows (D.history builder.old.device) builder.old rows
        → HasRows (D.history builder.new.device) builder.new (rows ++ (key, Some (rewritten found.entry.form found.entry.bytes)) ∷ [])) }
    ensures judged { OnOk result ((limit : ℕ) → IsRecordWithin found.entry.form limit found.entry.bytes → IsRecordWithin written_version limit (rewritten found.entry.form found.entry.bytes)) }
    ensures harmed { IfErr result IsHarmless }
    ensures head { builder.new.head ≡ builder.old.head }
    ensures not_failed { OnOk result (builder.new.failed ≡ false) }
    ensures name { D.name builder.new.device ≡ D.name builder.old.device }
    ensures moments { LeavesOnly IsClosed (D.history builder.old.device) (D.history builder.new.device) }
    ensures watched { IsCounted (IsErrOf result MergeFault.Disk) (D.Watch.counts watch.old) (D.Watch.counts watch.new) }
{
    let form = found.form();
    if form != NUMBERED_FORM {
        return push(key, Some(found.bytes()), builder, watch);
    }
    match repack(found, packed) {
        Ok(()) => push(key, Some(packed.as_slice()), builder, watch),
        Err(_) => Err(MergeFault::Memory),
    }
}

/// Pushes that a key is gone, where that has to be told.
fn put_gone<D: Device>(
    key: u64,
    from: u64,
    builder: &mut Builder<D>,
    watch: &mut D::Watch,
) -> Result<(), MergeFault>
    requires going_on { builder.old.failed ≡ false }

    ensures pushed { OnOk result ((rows : List Row) → HasRows (D.history builder.old.device) builder.old rows → HasRows (D.history builder.new.device) builder.new (rows ++ kept from ((key, None) ∷ []))) }
    ensures harmed { IfErr result IsHarmless }
    ensures head { builder.new.head ≡ builder.old.head }
    ensures not_failed { OnOk result (builder.new.failed ≡ false) }
    ensures name { D.name builder.new.device ≡ D.name builder.old.device }
    ensures moments { LeavesOnly IsClosed (D.history builder.old.device) (D.history builder.new.device) }
    ensures watched { IsCounted (IsErrOf result MergeFault.Disk) (D.Watch.counts watch.old) (D.Watch.counts watch.new) }
{
    if from == 1 {
        return Ok(());
    }
    push(key, None, builder, watch)
}

/// Pushes an entry.
fn push<D: Device>(
    key: u64,
    held: Option<&[u8]>,
    builder: &mut Builder<D>,
    watch: &mut D::Watch,
) -> Result<(), MergeFault>
    requires going_on { builder.old.failed ≡ false }
    requires written { IfSome held (λ bytes. IsWrittenRecord bytes.now) }

    ensures pushed { OnOk result ((rows : List Row) → HasRows (D.history builder.old.device) builder.old rows
        → HasRows (D.history builder.new.device) builder.new (rows ++ (key, option_map (λ bytes. bytes.now) held.entry) ∷ [])) }
    ensures harmed { IfErr result IsHarmless }
    ensures head { builder.new.head ≡ builder.old.head }
    ensures not_failed { OnOk result (builder.new.failed ≡ false) }
    ensures name { D.name builder.new.device ≡ D.name builder.old.device }
    ensures moments { LeavesOnly IsClosed (D.history builder.old.device) (D.history builder.new.device) }
    ensures watched { IsCounted (IsErrOf result MergeFault.Disk) (D.Watch.counts watch.old) (D.Watch.counts watch.new) }
{
    match builder.push(key, held, watch) {
        Ok(()) => Ok(()),
        Err(fault) => Err(of_device(fault)),
    }
}
