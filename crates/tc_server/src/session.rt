//! A run between two lines: what keeps the documents, and the window that is open.

ghost use Rattle.std.specs.Prelude.{◌≡◌, ◌∷◌, ℕ, ◌+◌, ◌<◌, ◌≤◌, false, List, [], length, Option, IfErr, IfOk, OnErr, OnOk};
ghost use Rattle.tc_command.specs.Replies.{rendered_of};
ghost use Rattle.tc_model.specs.Limits.{max_line};
ghost use Rattle.tc_request_model.specs.Request.{Request};
ghost use Rattle.tc_request_model.specs.Light.{IsLight};
ghost use Rattle.tc_run_model.specs.Known.{MayRender};
ghost use Rattle.tc_run_model.specs.Windows.{max_window};
ghost use Rattle.tc_run_model.specs.World.{World};
ghost use Rattle.tc_server.specs.Asked.{is_whole, request_asked, request_whole, IsRunForPart};
ghost use Rattle.tc_keeper.specs.Faults.{fault_in, gave_up, HasCauses, HasDiskCause, IsNoDamage, IsOfStore};
ghost use Rattle.tc_keeper.specs.Holds.{worlds_at, AreAnswered, AreWritten, HaveFailed, IsLeft};
ghost use Rattle.tc_keeper.specs.Keeping.{faults_kept, settings_kept, FailsAt, MayServe, AllRest, ServesAt, IsTrueHere};
ghost use Rattle.tc_keeper.specs.Sight.{sees, sight_after, whole_of, Sight};
ghost use Rattle.tc_server.specs.Stage.{AsksFor, FailsAtLine, IsReady, TakesLine};
ghost use Rattle.tc_server.specs.Window.{requests_of, IsSoundWindow};
ghost use Rattle.tc_server.specs.declared.answer.Action.TheVariants.{Whole as whole};

use crate::answer::{Action, Asked, Control};
use crate::window::Window;
use std::alloc::Global;
use std::sync::Wait;
use std::thread::Threads;
use tc_bytes::Bytes;
use tc_command::{Refusal, Reply, put_line};
use tc_command_reader::CommandReader;
use tc_edge::{Sink, write_all};
use tc_keeper::{Keeper, RunFault};
use tc_running::Pace;
use tc_store::Store;
use tc_work::Seen;

/// Bytes of room for replies, up to which it is kept from window to window.
const KEPT_ROOM: usize = 65_536;

/// What keeps the documents, the window that is open, what reads lines, and room for the replies to a window, which is kept for the
/// next one where it is not large.
pub struct Session<K> {
    pub keeper: K,
    pub window: Window,
    commands: CommandReader,
    replies: Vec<u8>,
}

impl<S: Store + 'static, P: Pace + 'static> Session<Keeper<S, P>>
where
    S::Device: 'static,
    S::Frozen: 'static,
    S::Watch: 'static,
{
    /// A session over what keeps the documents, with windows of so many lines at most.
    pub fn new(alloc: Global, keeper: Keeper<S, P>, window: usize) -> Session<Keeper<S, P>>
        requires works { MayServe S.history S.Device.history S.Frozen.content keeper }
        requires some { 0 < window }
        requires limit { window ≤ 4096 }
        ensures keeper { result.keeper ≡ keeper }
        ensures requests { requests_of result.window ≡ [] }
        ensures bytes { result.window.bytes ≡ 0 }
        ensures limit { result.window.limit ≡ window }
        ensures ready { IsReady (MayServe S.history S.Device.history S.Frozen.content) result }
    {
        Session {
            keeper,
            window: Window::new(alloc, window),
            commands: CommandReader::new(alloc),
            replies: Vec::new(alloc),
        }
    }

    /// What keeps the documents, where the session ends.
    pub fn into_keeper(self) -> Keeper<S, P>
        ensures { result ≡ self.keeper }
    {
        let Session {
            keeper,
            window: _window,
            commands: _commands,
            replies: _replies,
        } = self;
        keeper
    }

    /// Settles the store before a line is read.
    pub fn begin<R: Threads + Wait>(&mut self, rt: &R, alloc: Global) -> Result<(), RunFault>
        requires ready { IsReady (MayServe S.history S.Device.history S.Frozen.content) self.old }
        ensures ready { OnOk result (IsReady (MayServe S.history S.Device.history S.Frozen.content) self.new) }
        ensures rests { OnOk result (AllRest (λ d. S.Device.size d) self.new.keeper) }
        ensures window { self.new.window ≡ self.old.window }
        ensures held { (known : Sight) → ServesAt ⟦<S as Seen>⟧.eyes self.old.keeper known → OnOk result (ServesAt ⟦<S as Seen>⟧.eyes self.new.keeper known) }
        ensures failed { (only : Option ℕ) (w : World) → ServesAt ⟦<S as Seen>⟧.eyes self.old.keeper (sees only w) → OnErr result (FailsAt ⟦<S as Seen>⟧.eyes self.new.keeper only w w) }
        ensures undamaged { (only : Option ℕ) (w : World) → ServesAt ⟦<S as Seen>⟧.eyes self.old.keeper (sees only w) → IfErr result (IsNoDamage only) }
        ensures kinds { IfErr result IsOfStore }
        ensures settings { settings_kept self.new.keeper ≡ settings_kept self.old.keeper }
        ensures cause { HasDiskCause (faults_kept (λ w. S.Watch.counts w) self.old.keeper) (faults_kept (λ w. S.Watch.counts w) self.new.keeper) (IsTrueHere S.history S.Device.history S.Frozen.content self.new.keeper) (fault_in result) }
    {
        self.keeper.settle(rt, alloc)
    }

    /// Answers the window that is open, and writes the replies. Errs where the store or the sink fails, and for want of memory.
    pub fn close<R: Threads + Wait + Sync, O: Sink>(
        &mut self,
        rt: &R,
        alloc: Global,
        sink: &mut O,
    ) -> Result<(), RunFault>
        requires sound { IsSoundWindow self.old.window }
        requires few { length self.old.window.refusals.items ≤ 4096 }
        requires bytes { self.old.window.bytes ≤ max_window + max_line }
        requires works { MayServe S.history S.Device.history S.Frozen.content self.old.keeper }
        ensures works { OnOk result (MayServe S.history S.Device.history S.Frozen.content self.new.keeper) }
        ensures rests { OnOk result (AllRest (λ d. S.Device.size d) self.new.keeper) }
        ensures written { OnOk result ((known : Sight) → ServesAt ⟦<S as Seen>⟧.eyes self.old.keeper known
            → AreWritten (ServesAt ⟦<S as Seen>⟧.eyes) known (requests_of self.old.window) (O.taken sink.old) (O.taken sink.new) self.new.keeper) }
        ensures requests { OnOk result (requests_of self.new.window ≡ []) }
        ensures lines { OnOk result (length self.new.window.refusals.items ≡ 0) }
        ensures sound { OnOk result (IsSoundWindow self.new.window) }
        ensures bytes { OnOk result (self.new.window.bytes ≡ 0) }
        ensures limit { OnOk result (self.new.window.limit ≡ self.old.window.limit) }
        ensures fault { IfErr result (λ fault. (known : Sight) → ServesAt ⟦<S as Seen>⟧.eyes self.old.keeper known
            → HaveFailed (ServesAt ⟦<S as Seen>⟧.eyes) (FailsAt ⟦<S as Seen>⟧.eyes) fault known (requests_of self.old.window) (O.taken sink.old) (O.taken sink.new) self.new.keeper) }
        ensures settings { settings_kept self.new.keeper ≡ settings_kept self.old.keeper }
        ensures cause { HasCauses (O.faults sink.old) (O.faults sink.new) (faults_kept (λ w. S.Watch.counts w) self.old.keeper) (faults_kept (λ w. S.Watch.counts w) self.new.keeper) (IsTrueHere S.history S.Device.history S.Frozen.content self.new.keeper) (fault_in result) }
    {
        self.window
            .answer(rt, alloc, &mut self.keeper, &mut self.replies)?;
        self.settle_and_write(rt, alloc, sink)
    }

    // Settles the store behind a window that was answered, and writes the replies.
    fn settle_and_write<R: Threads + Wait, O: Sink>(
        &mut self,
        rt: &R,
        alloc: Global,
        sink: &mut O,
    ) -> Result<(), RunFault>
        requires works { MayServe S.history S.Device.history S.Frozen.content self.old.keeper }
        ensures works { OnOk result (MayServe S.history S.Device.history S.Frozen.content self.new.keeper) }
        ensures rests { OnOk result (AllRest (λ d. S.Device.size d) self.new.keeper) }
        ensures window { self.new.window ≡ self.old.window }
        ensures written { OnOk result ((known : Sight) (rs : List Request) → AreAnswered (ServesAt ⟦<S as Seen>⟧.eyes) known rs self.old.replies.items self.old.keeper
            → AreWritten (ServesAt ⟦<S as Seen>⟧.eyes) known rs (O.taken sink.old) (O.taken sink.new) self.new.keeper) }
        ensures fault { IfErr result (λ fault. (known : Sight) (rs : List Request) → AreAnswered (ServesAt ⟦<S as Seen>⟧.eyes) known rs self.old.replies.items self.old.keeper
            → HaveFailed (ServesAt ⟦<S as Seen>⟧.eyes) (FailsAt ⟦<S as Seen>⟧.eyes) fault known rs (O.taken sink.old) (O.taken sink.new) self.new.keeper) }
        ensures settings { settings_kept self.new.keeper ≡ settings_kept self.old.keeper }
        ensures cause { HasCauses (O.faults sink.old) (O.faults sink.new) (faults_kept (λ w. S.Watch.counts w) self.old.keeper) (faults_kept (λ w. S.Watch.counts w) self.new.keeper) (IsTrueHere S.history S.Device.history S.Frozen.content self.new.keeper) (fault_in result) }
    {
        self.keeper.settle(rt, alloc)?;
        write_all(sink, self.replies.as_slice())?;
        give_back_large(alloc, &mut self.replies);
        Ok(())
    }

    /// Takes a line that is answered in its window, and closes the window where it is full.
    pub fn take_line<R: Threads + Wait + Sync, O: Sink>(
        &mut self,
        rt: &R,
        alloc: Global,
        action: Action,
        size: usize,
        sink: &mut O,
    ) -> Result<(), RunFault>
        requires ready { IsReady (MayServe S.history S.Device.history S.Frozen.content) self.old }
        requires size { size ≤ max_line }
        requires for_part { IsRunForPart action }
        requires plain { is_whole action ≡ false }
        requires light { IsLight size (request_asked action) }
        ensures ok { OnOk result ((line : List ℕ) → AsksFor line action size
            → TakesLine (ServesAt ⟦<S as Seen>⟧.eyes) line self.old (O.taken sink.old) self.new (O.taken sink.new)) }
        ensures ready { OnOk result (IsReady (MayServe S.history S.Device.history S.Frozen.content) self.new) }
        ensures limit { OnOk result (self.new.window.limit ≡ self.old.window.limit) }
        ensures fault { IfErr result (λ fault. (line : List ℕ) → AsksFor line action size
            → FailsAtLine (ServesAt ⟦<S as Seen>⟧.eyes) (FailsAt ⟦<S as Seen>⟧.eyes) fault line self.old (O.taken sink.old) self.new (O.taken sink.new)) }
        ensures settings { settings_kept self.new.keeper ≡ settings_kept self.old.keeper }
        ensures cause { HasCauses (O.faults sink.old) (O.faults sink.new) (faults_kept (λ w. S.Watch.counts w) self.old.keeper) (faults_kept (λ w. S.Watch.counts w) self.new.keeper) (IsTrueHere S.history S.Device.history S.Frozen.content self.new.keeper) (fault_in result) }
    {
        self.window.push(action, size)?;
        if !self.window.is_full() {
            return Ok(());
        }
        self.close(rt, alloc, sink)?;
        Ok(())
    }

    /// Takes a line that is a window of its own: answers the window before it, and then the line.
    pub fn take_control<R: Threads + Wait + Sync, O: Sink>(
        &mut self,
        rt: &R,
        alloc: Global,
        control: Control,
        size: usize,
        sink: &mut O,
    ) -> Result<(), RunFault>
        requires ready { IsReady (MayServe S.history S.Device.history S.Frozen.content) self.old }
        ensures ok { OnOk result ((line : List ℕ) → AsksFor line (whole control) size
            → TakesLine (ServesAt ⟦<S as Seen>⟧.eyes) line self.old (O.taken sink.old) self.new (O.taken sink.new)) }
        ensures ready { OnOk result (IsReady (MayServe S.history S.Device.history S.Frozen.content) self.new) }
        ensures limit { OnOk result (self.new.window.limit ≡ self.old.window.limit) }
        ensures fault { IfErr result (λ fault. (line : List ℕ) → AsksFor line (whole control) size
            → FailsAtLine (ServesAt ⟦<S as Seen>⟧.eyes) (FailsAt ⟦<S as Seen>⟧.eyes) fault line self.old (O.taken sink.old) self.new (O.taken sink.new)) }
        ensures settings { settings_kept self.new.keeper ≡ settings_kept self.old.keeper }
        ensures cause { HasCauses (O.faults sink.old) (O.faults sink.new) (faults_kept (λ w. S.Watch.counts w) self.old.keeper) (faults_kept (λ w. S.Watch.counts w) self.new.keeper) (IsTrueHere S.history S.Device.history S.Frozen.content self.new.keeper) (fault_in result) }
    {
        self.close(rt, alloc, sink)?;
        self.close_control(rt, alloc, control, sink)
    }

    // Answers a line for the whole store, and writes the reply.
    fn close_control<R: Threads + Wait, O: Sink>(
        &mut self,
        rt: &R,
        alloc: Global,
        control: Control,
        sink: &mut O,
    ) -> Result<(), RunFault>
        requires works { MayServe S.history S.Device.history S.Frozen.content self.old.keeper }
        ensures works { OnOk result (MayServe S.history S.Device.history S.Frozen.content self.new.keeper) }
        ensures rests { OnOk result (AllRest (λ d. S.Device.size d) self.new.keeper) }
        ensures window { self.new.window ≡ self.old.window }
        ensures written { OnOk result ((known : Sight) → ServesAt ⟦<S as Seen>⟧.eyes self.old.keeper known
            → AreWritten (ServesAt ⟦<S as Seen>⟧.eyes) known (request_whole control ∷ []) (O.taken sink.old) (O.taken sink.new) self.new.keeper) }
        ensures fault { IfErr result (λ fault. (known : Sight) → ServesAt ⟦<S as Seen>⟧.eyes self.old.keeper known
            → HaveFailed (ServesAt ⟦<S as Seen>⟧.eyes) (FailsAt ⟦<S as Seen>⟧.eyes) fault known (request_whole control ∷ []) (O.taken sink.old) (O.taken sink.new) self.new.keeper) }
        ensures settings { settings_kept self.new.keeper ≡ settings_kept self.old.keeper }
        ensures cause { HasCauses (O.faults sink.old) (O.faults sink.new) (faults_kept (λ w. S.Watch.counts w) self.old.keeper) (faults_kept (λ w. S.Watch.counts w) self.new.keeper) (IsTrueHere S.history S.Device.history S.Frozen.content self.new.keeper) (fault_in result) }
    {
        answer_whole(rt, alloc, &mut self.keeper, control, &mut self.replies)?;
        self.settle_and_write(rt, alloc, sink)
    }

    /// Takes a line, by what it asks for and its size.
    fn take<R: Threads + Wait + Sync, O: Sink>(
        &mut self,
        rt: &R,
        alloc: Global,
        asked: Asked,
        size: usize,
        sink: &mut O,
    ) -> Result<(), RunFault>
        requires ready { IsReady (MayServe S.history S.Device.history S.Frozen.content) self.old }
        requires size { size ≤ max_line }
        requires light { IsLight size (request_asked asked) }
        ensures ok { OnOk result ((line : List ℕ) → AsksFor line asked size
            → TakesLine (ServesAt ⟦<S as Seen>⟧.eyes) line self.old (O.taken sink.old) self.new (O.taken sink.new)) }
        ensures ready { OnOk result (IsReady (MayServe S.history S.Device.history S.Frozen.content) self.new) }
        ensures limit { OnOk result (self.new.window.limit ≡ self.old.window.limit) }
        ensures fault { IfErr result (λ fault. (line : List ℕ) → AsksFor line asked size
            → FailsAtLine (ServesAt ⟦<S as Seen>⟧.eyes) (FailsAt ⟦<S as Seen>⟧.eyes) fault line self.old (O.taken sink.old) self.new (O.taken sink.new)) }
        ensures settings { settings_kept self.new.keeper ≡ settings_kept self.old.keeper }
        ensures cause { HasCauses (O.faults sink.old) (O.faults sink.new) (faults_kept (λ w. S.Watch.counts w) self.old.keeper) (faults_kept (λ w. S.Watch.counts w) self.new.keeper) (IsTrueHere S.history S.Device.history S.Frozen.content self.new.keeper) (fault_in result) }
    {
        match asked.into_action() {
            Action::Whole(control) => self.take_control(rt, alloc, control, size, sink),
            action => self.take_line(rt, alloc, action, size, sink),
        }
    }

    /// Takes a line that is not oversized.
    pub fn take_whole<R: Threads + Wait + Sync, O: Sink>(
        &mut self,
        rt: &R,
        alloc: Global,
        line: Bytes,
        sink: &mut O,
    ) -> Result<(), RunFault>
        requires ready { IsReady (MayServe S.history S.Device.history S.Frozen.content) self.old }
        requires size { length line ≤ max_line }
        ensures ok { OnOk result (TakesLine (ServesAt ⟦<S as Seen>⟧.eyes) line self.old (O.taken sink.old) self.new (O.taken sink.new)) }
        ensures ready { OnOk result (IsReady (MayServe S.history S.Device.history S.Frozen.content) self.new) }
        ensures limit { OnOk result (self.new.window.limit ≡ self.old.window.limit) }
        ensures fault { IfErr result (λ fault. FailsAtLine (ServesAt ⟦<S as Seen>⟧.eyes) (FailsAt ⟦<S as Seen>⟧.eyes) fault line self.old (O.taken sink.old) self.new (O.taken sink.new)) }
        ensures settings { settings_kept self.new.keeper ≡ settings_kept self.old.keeper }
        ensures cause { HasCauses (O.faults sink.old) (O.faults sink.new) (faults_kept (λ w. S.Watch.counts w) self.old.keeper) (faults_kept (λ w. S.Watch.counts w) self.new.keeper) (IsTrueHere S.history S.Device.history S.Frozen.content self.new.keeper) (fault_in result) }
    {
        self.take_slice(rt, alloc, line.as_slice(), sink)
    }

    // Takes a line that is not oversized, borrowed.
    fn take_slice<R: Threads + Wait + Sync, O: Sink>(
        &mut self,
        rt: &R,
        alloc: Global,
        line: &[u8],
        sink: &mut O,
    ) -> Result<(), RunFault>
        requires ready { IsReady (MayServe S.history S.Device.history S.Frozen.content) self.old }
        requires size { length line.now ≤ max_line }
        ensures ok { OnOk result (TakesLine (ServesAt ⟦<S as Seen>⟧.eyes) line.now self.old (O.taken sink.old) self.new (O.taken sink.new)) }
        ensures ready { OnOk result (IsReady (MayServe S.history S.Device.history S.Frozen.content) self.new) }
        ensures limit { OnOk result (self.new.window.limit ≡ self.old.window.limit) }
        ensures fault { IfErr result (λ fault. FailsAtLine (ServesAt ⟦<S as Seen>⟧.eyes) (FailsAt ⟦<S as Seen>⟧.eyes) fault line.now self.old (O.taken sink.old) self.new (O.taken sink.new)) }
        ensures settings { settings_kept self.new.keeper ≡ settings_kept self.old.keeper }
        ensures cause { HasCauses (O.faults sink.old) (O.faults sink.new) (faults_kept (λ w. S.Watch.counts w) self.old.keeper) (faults_kept (λ w. S.Watch.counts w) self.new.keeper) (IsTrueHere S.history S.Device.history S.Frozen.content self.new.keeper) (fault_in result) }
    {
        let asked = Asked::of(&mut self.commands, alloc, line)?;
        self.take(rt, alloc, asked, line.len(), sink)
    }

    /// Takes a line that is oversized.
    pub fn take_oversized<R: Threads + Wait + Sync, O: Sink>(
        &mut self,
        rt: &R,
        alloc: Global,
        sink: &mut O,
    ) -> Result<(), RunFault>
        requires ready { IsReady (MayServe S.history S.Device.history S.Frozen.content) self.old }
        ensures ok { OnOk result ((line : List ℕ) → max_line < length line
            → TakesLine (ServesAt ⟦<S as Seen>⟧.eyes) line self.old (O.taken sink.old) self.new (O.taken sink.new)) }
        ensures ready { OnOk result (IsReady (MayServe S.history S.Device.history S.Frozen.content) self.new) }
        ensures limit { OnOk result (self.new.window.limit ≡ self.old.window.limit) }
        ensures fault { IfErr result (λ fault. (line : List ℕ) → max_line < length line
            → FailsAtLine (ServesAt ⟦<S as Seen>⟧.eyes) (FailsAt ⟦<S as Seen>⟧.eyes) fault line self.old (O.taken sink.old) self.new (O.taken sink.new)) }
        ensures settings { settings_kept self.new.keeper ≡ settings_kept self.old.keeper }
        ensures cause { HasCauses (O.faults sink.old) (O.faults sink.new) (faults_kept (λ w. S.Watch.counts w) self.old.keeper) (faults_kept (λ w. S.Watch.counts w) self.new.keeper) (IsTrueHere S.history S.Device.history S.Frozen.content self.new.keeper) (fault_in result) }
    {
        self.take(rt, alloc, Asked::refused(Refusal::Oversized), 0, sink)
    }
}

// Answers a line for the whole store, and leaves the reply line in `replies`, in whose place others stood.
fn answer_whole<R: Threads + Wait, S: Store + 'static, P: Pace + 'static>(
    rt: &R,
    alloc: Global,
    keeper: &mut Keeper<S, P>,
    control: Control,
    replies: &mut Vec<u8>,
) -> Result<(), RunFault>
where
    S::Device: 'static,
    S::Frozen: 'static,
    S::Watch: 'static,
    requires works { MayServe S.history S.Device.history S.Frozen.content keeper.old }
    ensures works { OnOk result (MayServe S.history S.Device.history S.Frozen.content keeper.new) }
    ensures answered { (known : Sight) → ServesAt ⟦<S as Seen>⟧.eyes keeper.old known → OnOk result (AreAnswered (ServesAt ⟦<S as Seen>⟧.eyes) known (request_whole control ∷ []) replies.new.items keeper.new) }
    ensures left { (known : Sight) → ServesAt ⟦<S as Seen>⟧.eyes keeper.old known → OnErr result (IsLeft (ServesAt ⟦<S as Seen>⟧.eyes) (FailsAt ⟦<S as Seen>⟧.eyes) keeper.new known (worlds_at gave_up (request_whole control ∷ []))) }
    ensures undamaged { (only : Option ℕ) (w : World) → ServesAt ⟦<S as Seen>⟧.eyes keeper.old (sees only w) → IfErr result (IsNoDamage only) }
    ensures kinds { IfErr result IsOfStore }
    ensures settings { settings_kept keeper.new ≡ settings_kept keeper.old }
    ensures cause { HasDiskCause (faults_kept (λ w. S.Watch.counts w) keeper.old) (faults_kept (λ w. S.Watch.counts w) keeper.new) (IsTrueHere S.history S.Device.history S.Frozen.content keeper.new) (fault_in result) }
{
    replies.clear();
    let reply = reply_whole(rt, alloc, keeper, control)?;
    put_line(&reply, replies)?;
    Ok(())
}

// The reply to a line for the whole store.
fn reply_whole<R: Threads + Wait, S: Store + 'static, P: Pace + 'static>(
    rt: &R,
    alloc: Global,
    keeper: &mut Keeper<S, P>,
    control: Control,
) -> Result<Reply, RunFault>
where
    S::Device: 'static,
    S::Frozen: 'static,
    S::Watch: 'static,
    requires works { MayServe S.history S.Device.history S.Frozen.content keeper.old }
    ensures works { OnOk result (MayServe S.history S.Device.history S.Frozen.content keeper.new) }
    ensures reply { (known : Sight) → ServesAt ⟦<S as Seen>⟧.eyes keeper.old known → IfOk result (λ reply. MayRender (request_whole control ∷ []) (whole_of known) (rendered_of reply ∷ [])) }
    ensures held { (known : Sight) → ServesAt ⟦<S as Seen>⟧.eyes keeper.old known → OnOk result (ServesAt ⟦<S as Seen>⟧.eyes keeper.new (sight_after (request_whole control ∷ []) known)) }
    ensures failed { (only : Option ℕ) (w : World) → ServesAt ⟦<S as Seen>⟧.eyes keeper.old (sees only w) → OnErr result (FailsAt ⟦<S as Seen>⟧.eyes keeper.new only w w) }
    ensures undamaged { (only : Option ℕ) (w : World) → ServesAt ⟦<S as Seen>⟧.eyes keeper.old (sees only w) → IfErr result (IsNoDamage only) }
    ensures kinds { IfErr result IsOfStore }
    ensures settings { settings_kept keeper.new ≡ settings_kept keeper.old }
    ensures cause { HasDiskCause (faults_kept (λ w. S.Watch.counts w) keeper.old) (faults_kept (λ w. S.Watch.counts w) keeper.new) (IsTrueHere S.history S.Device.history S.Frozen.content keeper.new) (fault_in result) }
{
    match control {
        Control::Flush => {
            keeper.flush(rt, alloc)?;
            Ok(Reply::Flushed)
        }
        Control::Schema => Ok(Reply::Schemas(keeper.schemas(rt, alloc)?)),
        Control::Scan(ask) => keeper.scan(rt, alloc, ask),
        Control::Collect => keeper.collect(rt),
    }
}

/// Gives back the room for replies where it is large. Kept room saves a request of memory a window, which counts where
/// windows are small; behind one window of long replies it would be held to the end of the run.
fn give_back_large(alloc: Global, replies: &mut Vec<u8>) {
    if KEPT_ROOM < replies.capacity() {
        *replies = Vec::new(alloc);
    }
}
