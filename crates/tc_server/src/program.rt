//! All that a program does between its words and its exit.

ghost use Rattle.std.specs.Prelude.{◌≡◌, ◌<◌, ◌⊎◌, map, All, Option, Some, option_map, IfErr};
ghost use Rattle.std.specs.Result.{result_ok};
ghost use Rattle.tc_server.specs.Ending.{IsRun, ServedPromptly};
ghost use Rattle.tc_keeper.specs.Faults.{faults_in, status_of};
ghost use Rattle.tc_server.specs.KitCauses.{GivesKitsBack, HasCauseOver};
ghost use Rattle.tc_server.specs.OverFiles.{partitions_asked, BeginsFor, ServedOver};
ghost use Rattle.tc_keeper.specs.Sight.{Sight};
ghost use Rattle.tc_open.specs.BeingOpened.{AreIn};
ghost use Rattle.tc_store.specs.Moments.{IfTold};
ghost use Rattle.tc_server.specs.Program.{fault_of_words, invocation_given};

use crate::outcome::Served;
use crate::server::serve;
use crate::texts::fault_text;
use std::alloc::Global;
use std::env;
use std::env::Env;
use std::io::{Eprint, Error, ErrorKind};
use std::sync::Wait;
use std::thread::Threads;
use tc_edge::{Sink, Source};
use tc_keeper::RunFault;
use tc_running::Pace;
use tc_store::{Shelf, Store};
use tc_value::Text;
use tc_words::WordsFault;

/// The words behind the program's name. Errs with `Usage` where they are no text, and for want of memory.
pub fn words(rt: &(impl Env + AllocGlobal)) -> Result<Vec<Text>, WordsFault> {
    let args = match env::args(rt) {
        Ok(args) => args,
        Err(error) => return Err(refusal_of(&error)),
    };
    let mut words = Vec::new(rt.alloc());
    for word in args.skip(1) {
        words.push(Text::of(word))?;
    }
    Ok(words)
}

fn refusal_of(error: &Error) -> WordsFault {
    if error.kind() == ErrorKind::OutOfMemory {
        WordsFault::Memory
    } else {
        WordsFault::Usage
    }
}

/// Serves the lines of the source for these words, and says on standard error by which fault the run ended, if by any. What is
/// answered is what `serve` answers for the words, of whose contract these are the clauses.
pub fn run_program<
    R: Eprint + AllocGlobal + Threads + Wait + Sync,
    I: Source<O>,
    O: Sink,
    H: Shelf,
    P: Pace + 'static,
>(
    rt: &R,
    words: Result<Vec<Text>, WordsFault>,
    source: &mut I,
    sink: &mut O,
    shelf: &mut H,
    pace: P,
) -> Served<H::Store>
where
    H::Store: 'static,
    <H::Store as Store>::Device: 'static,
    <H::Store as Store>::Frozen: 'static,
    <H::Store as Store>::Watch: 'static,
    ensures status { result.status ≡ status_of result.fault }

    // What was read and written, and what is left of the files, from each first world that the files give, and from none.
    ensures served { (first : Sight) → BeginsFor (invocation_given (option_map (λ words. words.items) (result_ok words))) (H.files shelf.old) first
        → ServedOver (invocation_given (option_map (λ words. words.items) (result_ok words))) result.fault first (H.files shelf.old) (I.left source.old) (I.left source.new) (O.taken sink.old) (O.taken sink.new) (map (λ kit. H.Store.history kit.store) result.kits.items) }

    // Only a run reads. At each of its reads the sink had accepted the replies to the windows that had closed among what was
    // given before it, and no more.
    ensures unread { IsRun (invocation_given (option_map (λ words. words.items) (result_ok words))) ⊎ (source.new ≡ source.old) }
    ensures prompt { (first : Sight) → BeginsFor (invocation_given (option_map (λ words. words.items) (result_ok words))) (H.files shelf.old) first
        → ServedPromptly first (invocation_given (option_map (λ words. words.items) (result_ok words))) (O.taken sink.old) (I.moments source.old) (I.moments source.new) }

    // The kits that were asked for are given back, in ascending number: all where a line may have been read. Behind them none was
    // asked for but the next one, where the shelf failed.
    ensures back { GivesKitsBack (shelf.new ≡ shelf.old) (partitions_asked (invocation_given (option_map (λ words. words.items) (result_ok words)))) (H.faults shelf.old) (H.faults shelf.new) (H.files shelf.old) (H.files shelf.new) (H.kit_faults shelf.old) (H.kit_faults shelf.new) result.fault result.kits.items (faults_in (λ w. H.Store.Watch.counts w)) }

    // However the run ended, and whatever the files are: no file of a kit that is given back is out.
    ensures home { All (λ kit. IfTold (H.Store.history kit.store) AreIn) result.kits.items }

    // When a fault may be answered.
    ensures cause { HasCauseOver H.Store H.Store.Watch H.Store.Device.history H.Store.Frozen.content H.Store.Frozen.name (λ file. H.Store.Frozen.size file) (invocation_given (option_map (λ words. words.items) (result_ok words))) (I.left source.old) (I.left source.new) (I.faults source.old) (I.faults source.new) (O.faults sink.old) (O.faults sink.new) (H.faults shelf.old) (H.faults shelf.new) (H.files shelf.old) (H.kit_faults shelf.old) result.fault result.kits.items (λ kit. H.Store.history kit.store) (faults_in (λ w. H.Store.Watch.counts w)) }
    ensures words { IfErr words (λ fault. result.fault ≡ Some (fault_of_words fault)) }
{
    let served = served_for(rt, rt.alloc(), words, source, sink, shelf, pace);
    report(rt, &served.fault);
    served
}

// How the run for these words ends.
fn served_for<R: Threads + Wait + Sync, I: Source<O>, O: Sink, H: Shelf, P: Pace + 'static>(
    rt: &R,
    alloc: Global,
    words: Result<Vec<Text>, WordsFault>,
    source: &mut I,
    sink: &mut O,
    shelf: &mut H,
    pace: P,
) -> Served<H::Store>
where
    H::Store: 'static,
    <H::Store as Store>::Device: 'static,
    <H::Store as Store>::Frozen: 'static,
    <H::Store as Store>::Watch: 'static,
    ensures status { result.status ≡ status_of result.fault }
    ensures served { (first : Sight) → BeginsFor (invocation_given (option_map (λ words. words.items) (result_ok words))) (H.files shelf.old) first
        → ServedOver (invocation_given (option_map (λ words. words.items) (result_ok words))) result.fault first (H.files shelf.old) (I.left source.old) (I.left source.new) (O.taken sink.old) (O.taken sink.new) (map (λ kit. H.Store.history kit.store) result.kits.items) }
    ensures unread { IsRun (invocation_given (option_map (λ words. words.items) (result_ok words))) ⊎ (source.new ≡ source.old) }
    ensures prompt { (first : Sight) → BeginsFor (invocation_given (option_map (λ words. words.items) (result_ok words))) (H.files shelf.old) first
        → ServedPromptly first (invocation_given (option_map (λ words. words.items) (result_ok words))) (O.taken sink.old) (I.moments source.old) (I.moments source.new) }
    ensures back { GivesKitsBack (shelf.new ≡ shelf.old) (partitions_asked (invocation_given (option_map (λ words. words.items) (result_ok words)))) (H.faults shelf.old) (H.faults shelf.new) (H.files shelf.old) (H.files shelf.new) (H.kit_faults shelf.old) (H.kit_faults shelf.new) result.fault result.kits.items (faults_in (λ w. H.Store.Watch.counts w)) }
    ensures home { All (λ kit. IfTold (H.Store.history kit.store) AreIn) result.kits.items }
    ensures cause { HasCauseOver H.Store H.Store.Watch H.Store.Device.history H.Store.Frozen.content H.Store.Frozen.name (λ file. H.Store.Frozen.size file) (invocation_given (option_map (λ words. words.items) (result_ok words))) (I.left source.old) (I.left source.new) (I.faults source.old) (I.faults source.new) (O.faults sink.old) (O.faults sink.new) (H.faults shelf.old) (H.faults shelf.new) (H.files shelf.old) (H.kit_faults shelf.old) result.fault result.kits.items (λ kit. H.Store.history kit.store) (faults_in (λ w. H.Store.Watch.counts w)) }
    ensures words { IfErr words (λ fault. result.fault ≡ Some (fault_of_words fault)) }
{
    match words {
        Ok(words) => serve(rt, alloc, words.as_slice(), source, sink, shelf, pace),
        Err(WordsFault::Usage) => Served::of(Some(RunFault::Usage), Vec::new(alloc)),
        Err(WordsFault::Memory) => Served::of(Some(RunFault::Memory), Vec::new(alloc)),
    }
}

// Says on standard error how the run ended. Where memory is refused for the text, nothing is said.
fn report(rt: &(impl Eprint + AllocGlobal), fault: &Option<RunFault>) {
    if let Some(fault) = fault {
        if let Ok(text) = fault_text(rt.alloc(), fault) {
            let _ = eprintln!(rt; "{}", text.as_str());
        }
    }
}
