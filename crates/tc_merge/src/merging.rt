//! Entries are merged, one after the other.

ghost use Rattle.std.specs.Prelude.{◌≡◌, ◌<◌, ◌≤◌, ◌+◌, ◌++◌, ◌∷◌, [], List, All, length, map, IfOk, IfErr, IsErrOf, OnOk, false};
ghost use Rattle.tc_store.specs.Gate.{IsClosed};
ghost use Rattle.tc_store.specs.Moments.{LeavesOnly};
ghost use Rattle.tc_component.specs.Building.{HasRows};
ghost use Rattle.tc_component.specs.Spelling.{Row, IsIndex};
ghost use Rattle.tc_merge.specs.Faults.{IfHarmed, IsHarmIn, IsJudged, IsWatched};
ghost use Rattle.tc_merge.specs.Inputs.{InputState, rows_left, passed, left_of, key_in, IsNext, IsNextOf, IsUpTo, next_in};
ghost use Rattle.tc_merge.specs.Merging.{AreTold, kept, live_rows};
ghost use Rattle.tc_merge.specs.Newest.{newest};

use crate::fault::MergeFault;
use crate::input::{Input, Next, put};
use crate::least::Least;
use tc_component::Builder;
use tc_store::{Frozen, Store};

/// Pushes what is left of the inputs: of each key the entry of the newest that has one, in ascending key.
pub(crate) fn merge<S: Store>(
    inputs: &mut [Input<S::Frozen>],
    from: u64,
    builder: &mut Builder<S::Device>,
    watch: &mut S::Watch,
) -> Result<(), MergeFault>
    requires lawful { All (λ c. IsIndex c.index) (map (λ i. i.component) inputs.old) }
    requires going_on { builder.old.failed ≡ false }

    ensures same { map (λ i. i.component) inputs.new ≡ map (λ i. i.component) inputs.old }
    ensures pushed { OnOk result ((rows : List Row) → AreTold (λ file. S.Frozen.content file) (map (λ i. i.component) inputs.old) → HasRows (S.Device.history builder.old.device) builder.old rows
        → HasRows (S.Device.history builder.new.device) builder.new (rows ++ kept from (newest (map (rows_left (λ file. S.Frozen.content file)) inputs.old)))) }
    ensures judged { OnOk result (AreTold (λ file. S.Frozen.content file) (map (λ i. i.component) inputs.old) → All (IsJudged (λ file. S.Frozen.content file) (map (λ i. i.component) inputs.old)) (kept from (newest (map (rows_left (λ file. S.Frozen.content file)) inputs.old)))) }
    ensures more { OnOk result ((rows : List Row) → HasRows (S.Device.history builder.old.device) builder.old rows → (all : List Row) × HasRows (S.Device.history builder.new.device) builder.new all) }
    ensures harmed { IfErr result (λ fault. IfHarmed fault (λ file place bytes. IsHarmIn (λ f. S.Frozen.content f) (map (λ i. i.component) inputs.old) file place bytes)) }
    ensures head { builder.new.head ≡ builder.old.head }
    ensures not_failed { OnOk result (builder.new.failed ≡ false) }
    ensures name { S.Device.name builder.new.device ≡ S.Device.name builder.old.device }
    ensures moments { LeavesOnly IsClosed (S.Device.history builder.old.device) (S.Device.history builder.new.device) }
    ensures reads { OnOk result ((S.Watch.counts watch.new).reads ≤ (S.Watch.counts watch.old).reads + live_rows (kept from (newest (map (rows_left (λ file. S.Frozen.content file)) inputs.old)))) }
    ensures watched { IsWatched (IsErrOf result MergeFault.Disk) (S.Watch.counts watch.old) (S.Watch.counts watch.new) }
{
    let mut next = next_of(inputs);
    while let Some(least) = next {
        match put_entry::<S>(inputs, least, from, builder, watch) {
            Ok(behind) => next = behind,
            Err(fault) => return Err(fault),
        }
    }
    Ok(())
}

/// Pushes the next entry, and passes all entries of its key. Answers the next one behind it.
fn put_entry<S: Store>(
    inputs: &mut [Input<S::Frozen>],
    next: Next,
    from: u64,
    builder: &mut Builder<S::Device>,
    watch: &mut S::Watch,
) -> Result<Option<Next>, MergeFault>
    requires next { IsNext inputs.old next }
    requires lawful { All (λ c. IsIndex c.index) (map (λ i. i.component) inputs.old) }
    requires going_on { builder.old.failed ≡ false }

    ensures same { map (λ i. i.component) inputs.new ≡ map (λ i. i.component) inputs.old }
    ensures next { IfOk result (λ behind. IsNextOf inputs.new behind) }
    ensures fewer { OnOk result (left_of inputs.new < left_of inputs.old) }
    ensures pushed { OnOk result ((rows : List Row) → AreTold (λ file. S.Frozen.content file) (map (λ i. i.component) inputs.old) → HasRows (S.Device.history builder.old.device) builder.old rows
        → IsUpTo (λ file. S.Frozen.content file) from inputs.old inputs.new (λ done. HasRows (S.Device.history builder.new.device) builder.new (rows ++ done))) }
    ensures judged { OnOk result (AreTold (λ file. S.Frozen.content file) (map (λ i. i.component) inputs.old) → IsUpTo (λ file. S.Frozen.content file) from inputs.old inputs.new (λ done. All (IsJudged (λ file. S.Frozen.content file) (map (λ i. i.component) inputs.old)) done)) }
    ensures more { OnOk result ((rows : List Row) → HasRows (S.Device.history builder.old.device) builder.old rows → (all : List Row) × HasRows (S.Device.history builder.new.device) builder.new all) }
    ensures harmed { IfErr result (λ fault. IfHarmed fault (λ file place bytes. IsHarmIn (λ f. S.Frozen.content f) (map (λ i. i.component) inputs.old) file place bytes)) }
    ensures head { builder.new.head ≡ builder.old.head }
    ensures not_failed { OnOk result (builder.new.failed ≡ false) }
    ensures name { S.Device.name builder.new.device ≡ S.Device.name builder.old.device }
    ensures moments { LeavesOnly IsClosed (S.Device.history builder.old.device) (S.Device.history builder.new.device) }
    ensures reads { OnOk result (IsUpTo (λ file. S.Frozen.content file) from inputs.old inputs.new (λ done. (S.Watch.counts watch.new).reads ≤ (S.Watch.counts watch.old).reads + live_rows done)) }
    ensures watched { IsWatched (IsErrOf result MergeFault.Disk) (S.Watch.counts watch.old) (S.Watch.counts watch.new) }
{
    let chosen = &mut inputs[next.input];
    let entry = chosen.ahead();
    // all are passed below; this one is known here, and need not be guessed there
    chosen.pass(next.key);
    // which is next is found out before it is needed: a processor does so while it judges the record
    let behind = pass_all(inputs, next.key);
    match put::<S>(&mut inputs[next.input], entry, from, builder, watch) {
        Ok(()) => Ok(behind),
        Err(fault) => Err(fault),
    }
}

/// Passes all entries of a key that are ahead, and answers the next one behind them, so that one step looks at each input once.
fn pass_all<F: Frozen>(inputs: &mut [Input<F>], key: u64) -> Option<Next>
    requires { key_in key ≡ Some key }
    ensures passed { inputs.new ≡ map (passed key) inputs.old }
    ensures next { IsNextOf inputs.new result }
{
    let mut least = Least::none();
    let mut place = 0;
    for input in inputs.iter_mut() {
        input.pass(key);
        least = newer_of(least, place, input);
        place += 1;
    }
    least.next()
}

/// The newest of the inputs that have the least key ahead, and that key.
fn next_of<F: Frozen>(inputs: &[Input<F>]) -> Option<Next>
    ensures { IsNextOf inputs.now result }
{
    let mut least = Least::none();
    let mut place = 0;
    for input in inputs {
        least = newer_of(least, place, input);
        place += 1;
    }
    least.next()
}

/// The least of inputs and of one more, which has this place behind them. Which of them has the least key cannot be guessed,
/// so that this is to be a choice between numbers, and no branch.
fn newer_of<F: Frozen>(least: Least, place: usize, input: &Input<F>) -> Least
    ensures { (inputs : List (InputState F)) → length inputs ≡ place → IsNextOf inputs (next_in least) → IsNextOf (inputs ++ input.now ∷ []) (next_in result) }
{
    let key = input.key();
    if key <= least.key {
        Least { input: place, key }
    } else {
        least
    }
}
