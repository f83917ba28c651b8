//! A window: lines that are answered together.

ghost use Rattle.std.specs.Prelude.{◌≡◌, false, ◌+◌, ◌≤◌, ◌<◌, ◌^◌, ◌||◌, ◌++◌, [], ◌∷◌, ℕ, length, map, nat_le, Option, Some, IfErr, OnErr, OnOk};
ghost use Rattle.tc_command.specs.Commands.{request_of_command};
ghost use Rattle.tc_command.specs.Replies.{rendered_of};
ghost use Rattle.tc_model.specs.Limits.{max_line};
ghost use Rattle.tc_request_model.specs.Light.{IsLight};
ghost use Rattle.tc_run_model.specs.Windows.{max_window};
ghost use Rattle.tc_run_model.specs.World.{World};
ghost use Rattle.tc_keeper.specs.Together.{IsForPart};
ghost use Rattle.tc_server.specs.Asked.{is_whole, request_asked, IsRunForPart};
ghost use Rattle.tc_keeper.specs.Faults.{fault_in, gave_up, HasDiskCause, IsNoDamage, IsOfStore};
ghost use Rattle.tc_keeper.specs.Holds.{worlds_at, AreAnswered, IsLeft};
ghost use Rattle.tc_keeper.specs.Keeping.{faults_kept, settings_kept, FailsAt, MayServe, ServesAt, IsTrueHere};
ghost use Rattle.tc_keeper.specs.Sight.{sees, Sight};
ghost use Rattle.tc_server.specs.Window.{each_rendered, mixed, rendered_refused, request_refused, requests_of, IsSoundWindow};

use crate::answer::Action;
use std::alloc::{AllocError, Global};
use std::mem;
use std::sync::Wait;
use std::thread::Threads;
use tc_command::{Command, Refusal, Reply, put_line};
use tc_keeper::{Keeper, RunFault};
use tc_route::{Placed, Routed};
use tc_running::Pace;
use tc_store::Store;
use tc_work::Seen;

/// Bytes of lines that close a window, at least.
pub const MAX_WINDOW: usize = 4_194_304;

/// The lines that have come since the last window closed.
#[derive(Drop)]
pub struct Window {
    /// For each line why it is refused, and none where it has a command.
    refusals: Vec<Option<Refusal>>,
    /// The commands, in the order of their lines, each with the place of its line.
    commands: Vec<Routed>,
    /// Bytes of these lines.
    pub bytes: usize,
    /// Lines that close a window.
    pub limit: usize,
}

impl Window {
    /// A window without lines.
    pub fn new(alloc: Global, limit: usize) -> Window
        ensures requests { requests_of result ≡ [] }
        ensures lines { length result.refusals.items ≡ 0 }
        ensures sound { IsSoundWindow result }
        ensures bytes { result.bytes ≡ 0 }
        ensures limit { result.limit ≡ limit }
    {
        Window {
            refusals: Vec::new(alloc),
            commands: Vec::new(alloc),
            bytes: 0,
            limit,
        }
    }

    /// Adds a line of this many bytes that is not for the whole store. Errs only for want of memory.
    pub fn push(&mut self, action: Action, size: usize) -> Result<(), AllocError>
        requires sound { IsSoundWindow self.old }
        requires room { self.old.bytes + size < 2 ^ 64 }
        requires lines { length self.old.refusals.items < 2 ^ 32 }
        requires size { size ≤ max_line }
        requires for_part { IsRunForPart action }
        requires plain { is_whole action ≡ false }
        requires light { IsLight size (request_asked action) }
        ensures requests { OnOk result (requests_of self.new ≡ requests_of self.old ++ request_asked action ∷ []) }
        ensures lines { OnOk result (length self.new.refusals.items ≡ length self.old.refusals.items + 1) }
        ensures sound { OnOk result (IsSoundWindow self.new) }
        ensures bytes { OnOk result (self.new.bytes ≡ self.old.bytes + size) }
        ensures limit { OnOk result (self.new.limit ≡ self.old.limit) }
    {
        match action {
            Action::Run(command) => self.push_command(command, size),
            Action::Refuse(refusal) => self.push_refused(refusal, size),
            Action::Whole(_) => unreachable!(),
        }
    }

    // Adds a line of this many bytes that is refused. Errs only for want of memory.
    fn push_refused(&mut self, refusal: Refusal, size: usize) -> Result<(), AllocError>
        requires sound { IsSoundWindow self.old }
        requires room { self.old.bytes + size < 2 ^ 64 }
        ensures requests { OnOk result (requests_of self.new ≡ requests_of self.old ++ request_refused refusal ∷ []) }
        ensures lines { OnOk result (length self.new.refusals.items ≡ length self.old.refusals.items + 1) }
        ensures sound { OnOk result (IsSoundWindow self.new) }
        ensures bytes { OnOk result (self.new.bytes ≡ self.old.bytes + size) }
        ensures limit { OnOk result (self.new.limit ≡ self.old.limit) }
    {
        self.refusals.push(Some(refusal))?;
        self.bytes += size;
        Ok(())
    }

    // Adds a line of this many bytes that has a command for a partition. Errs only for want of memory.
    fn push_command(&mut self, command: Command, size: usize) -> Result<(), AllocError>
        requires sound { IsSoundWindow self.old }
        requires room { self.old.bytes + size < 2 ^ 64 }
        requires lines { length self.old.refusals.items < 2 ^ 32 }
        requires size { size ≤ max_line }
        requires for_part { IsForPart (request_of_command command) }
        requires light { IsLight size (request_of_command command) }
        ensures requests { OnOk result (requests_of self.new ≡ requests_of self.old ++ request_of_command command ∷ []) }
        ensures lines { OnOk result (length self.new.refusals.items ≡ length self.old.refusals.items + 1) }
        ensures sound { OnOk result (IsSoundWindow self.new) }
        ensures bytes { OnOk result (self.new.bytes ≡ self.old.bytes + size) }
        ensures limit { OnOk result (self.new.limit ≡ self.old.limit) }
    {
        let at = self.refusals.len() as u32;
        self.commands.push(Routed { at, command })?;
        self.refusals.push(None)?;
        self.bytes += size;
        Ok(())
    }

    /// Whether the window has to close.
    pub fn is_full(&self) -> bool
        ensures { result ≡ (nat_le self.now.limit (length self.now.refusals.items) || nat_le max_window self.now.bytes) }
    {
        self.limit <= self.refusals.len() || MAX_WINDOW <= self.bytes
    }

    /// Answers the lines, and leaves the window without lines and the reply lines in `replies`, in whose place others stood.
    pub fn answer<R: Threads + Wait + Sync, S: Store, P: Pace>(
        &mut self,
        rt: &R,
        alloc: Global,
        keeper: &mut Keeper<S, P>,
        replies: &mut Vec<u8>,
    ) -> Result<(), RunFault>
        requires sound { IsSoundWindow self.old }
        requires few { length self.old.refusals.items ≤ 4096 }
        requires bytes { self.old.bytes ≤ max_window + max_line }
        requires works { MayServe S.history S.Device.history S.Frozen.content keeper.old }
        ensures works { OnOk result (MayServe S.history S.Device.history S.Frozen.content keeper.new) }
        ensures answered { (known : Sight) → ServesAt ⟦<S as Seen>⟧.eyes keeper.old known → OnOk result (AreAnswered (ServesAt ⟦<S as Seen>⟧.eyes) known (requests_of self.old) replies.new.items keeper.new) }
        ensures requests { OnOk result (requests_of self.new ≡ []) }
        ensures lines { OnOk result (length self.new.refusals.items ≡ 0) }
        ensures sound { OnOk result (IsSoundWindow self.new) }
        ensures bytes { OnOk result (self.new.bytes ≡ 0) }
        ensures limit { OnOk result (self.new.limit ≡ self.old.limit) }
        ensures left { (known : Sight) → ServesAt ⟦<S as Seen>⟧.eyes keeper.old known → OnErr result (IsLeft (ServesAt ⟦<S as Seen>⟧.eyes) (FailsAt ⟦<S as Seen>⟧.eyes) keeper.new known (worlds_at gave_up (requests_of self.old))) }
        ensures undamaged { (only : Option ℕ) (w : World) → ServesAt ⟦<S as Seen>⟧.eyes keeper.old (sees only w) → IfErr result (IsNoDamage only) }
        ensures kinds { IfErr result IsOfStore }
        ensures settings { settings_kept keeper.new ≡ settings_kept keeper.old }
        ensures cause { HasDiskCause (faults_kept (λ w. S.Watch.counts w) keeper.old) (faults_kept (λ w. S.Watch.counts w) keeper.new) (IsTrueHere S.history S.Device.history S.Frozen.content keeper.new) (fault_in result) }
    {
        let commands = mem::replace(&mut self.commands, Vec::new(alloc));
        let answers = keeper.window(rt, alloc, commands)?;
        replies.clear();
        push_all(self.refusals.as_slice(), answers.as_slice(), replies)?;
        self.refusals.clear();
        self.bytes = 0;
        Ok(())
    }
}

// Puts the reply lines of a window behind those that are there: to a refused line that it is refused, and to the others
// the answers, in order. Errs only for want of memory.
fn push_all(
    refusals: &[Option<Refusal>],
    answers: &[Placed],
    replies: &mut Vec<u8>,
) -> Result<(), AllocError>
    ensures { OnOk result (replies.new.items ≡ replies.old.items ++ each_rendered (mixed rendered_refused refusals.now (map (λ a. rendered_of a.reply) answers.now))) }
{
    let mut rest = answers;
    for refusal in refusals {
        match refusal {
            Some(refusal) => put_line(&Reply::Refused(*refusal), replies)?,
            None => {
                if let Some((first, more)) = rest.split_first() {
                    put_line(&first.reply, replies)?;
                    rest = more;
                }
            }
        }
    }
    Ok(())
}
