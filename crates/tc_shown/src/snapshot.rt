//! The rows over what a snapshot shows.

ghost use Rattle.std.specs.Prelude.{◌≡◌, ◌≤◌, ◌+◌, All, List, IfOk, IfErr, IsErrOf, map, option_map};
ghost use Rattle.std.specs.Arc.{arc_value};
ghost use Rattle.std.specs.List.{AllZip};
ghost use Rattle.tc_command.specs.Commands.{ask_of};
ghost use Rattle.tc_component.specs.Loaded.{IsLoadedOf};
ghost use Rattle.tc_log.specs.Writes.{IsWrite};
ghost use Rattle.tc_lsm_model.specs.Contents.{Content};
ghost use Rattle.tc_request_model.specs.Rows.{rows_over as rows_of_pairs};
ghost use Rattle.tc_request_model.specs.Rendered.{row_text};
ghost use Rattle.tc_plain_model.specs.Writes.{Pairs};
ghost use Rattle.tc_query.specs.Faults.{OfDamage, IsUnharmed, IsHarmIn, IsWatched};
ghost use Rattle.tc_shown.specs.Newest.{newest_of};
ghost use Rattle.tc_query.specs.Shown.{MayHold, live_keys};
ghost use Rattle.tc_query.specs.Windows.{most_windows};
ghost use Rattle.tc_view.specs.Changes.{showing_in};
ghost use Rattle.tc_view.specs.Holding.{Holds};
ghost use Rattle.tc_view.specs.Places.{shown_by};

use crate::newest::newest_written;
use std::alloc::Global;
use std::sync::Arc;
use tc_command::{Ask, Rows};
use tc_memory::Sealed;
use tc_query::{QueryFault, rows_over};
use tc_store::Frozen;
use tc_view::Snapshot;

/// The rows that an ask gets over what a snapshot shows, in ascending key: as `rows_over` gives them over its components, its
/// sealed table, and a table of the newest write of each key behind both, which it makes first. Takes memory for copies of the
/// records that these writes left, beside that for the rows.
pub(crate) fn rows<F: Frozen>(
    alloc: Global,
    of: &Snapshot<F>,
    ask: &Ask,
    watch: &mut F::Watch,
) -> Result<Rows, QueryFault>
    requires stored { All IsWrite (shown_by of.now).written }

    // Where the files tell what they hold.
    ensures rows { (pairs : Pairs) → Holds F.content (showing_in (shown_by of.now)) pairs → IfOk result (λ rows. rows ≡ map row_text (rows_of_pairs (ask_of ask.now) pairs)) }
    ensures unharmed { (cs : List Content) → AllZip (IsLoadedOf F.content) (shown_by of.now).list cs → IfErr result IsUnharmed }

    // Over every store.
    ensures shown { IfOk result (λ rows. (pairs : Pairs) × MayHold (λ file. F.content file) (shown_by of.now).list (shown_by of.now).sealed (newest_of (shown_by of.now).written) pairs × (rows ≡ map row_text (rows_of_pairs (ask_of ask.now) pairs))) }
    ensures harmed { IfErr result (λ fault. OfDamage fault (λ file at bytes. IsHarmIn (λ file. F.content file) (shown_by of.now).list file at bytes)) }
    ensures reads { (F.Watch.counts watch.new).reads ≤ (F.Watch.counts watch.old).reads + live_keys (shown_by of.now).list (shown_by of.now).sealed (newest_of (shown_by of.now).written) }
    ensures windows { (F.Watch.counts watch.new).reads ≤ (F.Watch.counts watch.old).reads + most_windows (shown_by of.now).list }
    ensures watched { IsWatched (IsErrOf result QueryFault.Disk) (F.Watch.counts watch.old) (F.Watch.counts watch.new) }
{
    let active = newest_written(alloc, of.chunks())?;
    rows_over(alloc, of.list(), table_of(of.sealed()), &active, ask, watch)
}

/// The sealed table, borrowed, if there is one.
fn table_of(sealed: Option<&Arc<Sealed>>) -> Option<&Sealed>
    ensures { option_map (λ t. t.now) result ≡ option_map (λ share. arc_value share.now) sealed.entry }
{
    match sealed {
        Some(table) => Some(table),
        None => None,
    }
}
