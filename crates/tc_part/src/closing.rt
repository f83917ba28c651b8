//! A partition ends.

ghost use Rattle.std.specs.Prelude.{◌≡◌, ◌-◌, List, Option, Some, None, true, false, is_some, option_map, IfSome};
ghost use Rattle.tc_store.specs.declared.file_name.FileName.{FileName};
ghost use Rattle.tc_store.specs.declared.file_name.FileName.TheVariants.{Log as log_name};
ghost use Rattle.tc_store.specs.Disk.{is_out};
ghost use Rattle.tc_store.specs.Moments.{IfTold};
ghost use Rattle.tc_machine.specs.State.{logs};
ghost use Rattle.tc_plain_model.specs.Writes.{Write as PlainWrite};
ghost use Rattle.tc_part_model.specs.Calls.{RestsWith};
ghost use Rattle.tc_part_model.specs.Leaving.{FailedMomentsLeaveStore, KeepsStore, OpensAs};
ghost use Rattle.tc_part_model.specs.Meaning.{IsPart, HasFailedAs};
ghost use Rattle.tc_part_model.specs.PartState.{told};
ghost use Rattle.tc_part_model.specs.PartView.{PartView, state_of, store_of};
ghost use Rattle.tc_part.specs.Closing.{brought_home, logs_length, HasLogsOf};
ghost use Rattle.tc_part.specs.FilesOut.{OnlyDevicesOut, TellsLogs};

use crate::part::Part;
use tc_log::Log;
use tc_store::{Kit, Store};

impl<S: Store> Part<S> {
    /// Gives the store and the watches back, of a part that failed too. The devices of its logs come home.
    pub fn close(self) -> Kit<S>
        requires no_flush { self.flushing ≡ false }
        requires no_merge { self.merging ≡ None }
        requires reader { is_some self.reader ≡ true }

        ensures home { S.history result.store ≡ brought_home (log_name self.generation) (S.Device.history self.log.device) (option_map (λ moments. (log_name (self.generation - 1), moments)) (option_map (λ l. S.Device.history l.device) self.sealed_log)) (S.history self.store) }

        // Where no file is out but those of its devices, none is out any more.
        ensures brought_in { TellsLogs (told S.history S.Device.history S.Frozen.content self) → OnlyDevicesOut (told S.history S.Device.history S.Frozen.content self) → IfTold (S.history result.store) (λ disk. (name : FileName) → is_out (disk name) ≡ false) }

        // Whatever a stop leaves from then on is what was stored, of a part that failed without the frame or with it.
        ensures kept { (p : PartView) → IsPart (told S.history S.Device.history S.Frozen.content self) p → IfTold (S.history result.store) (KeepsStore p.part (store_of p) None) }
        ensures failed { (p : PartView) (frame : Option (List PlainWrite)) → HasFailedAs (told S.history S.Device.history S.Frozen.content self) p frame → HasLogsOf (told S.history S.Device.history S.Frozen.content self) p
            → IfTold (S.history result.store) (KeepsStore p.part (store_of p) frame) }

        // Of a part that has not failed it opens as the components that are listed and as the logs of the tables, which are as long
        // as their devices are.
        ensures opens { (p : PartView) → IsPart (told S.history S.Device.history S.Frozen.content self) p → IfTold (S.history result.store) (OpensAs p.part p.list (logs (state_of p)) (logs_length (λ d. S.Device.size d) self.log self.sealed_log)) }

        // At each moment of the call a stop leaves the same.
        ensures moments { (p : PartView) → IsPart (told S.history S.Device.history S.Frozen.content self) p → FailedMomentsLeaveStore p None (told S.history S.Device.history S.Frozen.content self) (S.history result.store) }
        ensures failed_moments { (p : PartView) (frame : Option (List PlainWrite)) → HasFailedAs (told S.history S.Device.history S.Frozen.content self) p frame → HasLogsOf (told S.history S.Device.history S.Frozen.content self) p
            → FailedMomentsLeaveStore p frame (told S.history S.Device.history S.Frozen.content self) (S.history result.store) }

        ensures main { result.main ≡ self.main }
        ensures flusher { Some result.flusher ≡ self.flusher }
        ensures merger { Some result.merger ≡ self.merger }
        ensures reader { Some result.reader ≡ self.reader }
    {
        let Part {
            store,
            main,
            flusher,
            merger,
            reader,
            sealed_log,
            log,
            ..
        } = self;
        let mut store = store;
        bring_home(&mut store, log, sealed_log);
        kit_of(store, main, flusher, merger, reader)
    }
}

/// A store with its watches, of which none is out.
fn kit_of<S: Store>(
    store: S,
    main: S::Watch,
    flusher: Option<S::Watch>,
    merger: Option<S::Watch>,
    reader: Option<S::Watch>,
) -> Kit<S>
    requires flusher { is_some flusher ≡ true }
    requires merger { is_some merger ≡ true }
    requires reader { is_some reader ≡ true }
    ensures store { result.store ≡ store }
    ensures main { result.main ≡ main }
    ensures flusher { Some result.flusher ≡ flusher }
    ensures merger { Some result.merger ≡ merger }
    ensures reader { Some result.reader ≡ reader }
{
    match (flusher, merger, reader) {
        (Some(flusher), Some(merger), Some(reader)) => Kit {
            store,
            main,
            flusher,
            merger,
            reader,
        },
        _ => unreachable!(),
    }
}

/// Brings the devices of both logs home.
fn bring_home<S: Store>(store: &mut S, log: Log<S::Device>, sealed_log: Option<Log<S::Device>>)
    ensures home { S.history store.new ≡ brought_home (S.Device.name log.device) (S.Device.history log.device) (option_map (λ l. (S.Device.name l.device, S.Device.history l.device)) sealed_log) (S.history store.old) }
    ensures rests { log.failed ≡ false → IfTold (S.Device.history log.device) (RestsWith (S.Device.size log.device)) }
    ensures sealed_rests { IfSome sealed_log (λ l. l.failed ≡ false → IfTold (S.Device.history l.device) (RestsWith (S.Device.size l.device))) }
{
    store.abandon(log.give_back());
    if let Some(sealed_log) = sealed_log {
        store.abandon(sealed_log.give_back());
    }
}
