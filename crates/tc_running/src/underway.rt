//! Where a job is that is out.

/// On a thread, which the handle joins; or done, where no thread could be started, with what is left of it.
#[derive(Drop)]
pub(crate) enum Underway<H, O> {
    OnThread(H),
    Done(O),
}
