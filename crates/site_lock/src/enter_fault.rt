//! The reasons why a site didn't answer an event.
use site_core::CallFault;

/// Why a site didn't answer an event. `Journal` comes only at a site that keeps a journal.
#[derive(Clone, Copy)]
pub enum EnterFault {
    /// The history is full (S29), or memory ran out (S31): the event wasn't entered, and nothing has changed, but that
    /// a full history marks the pass.
    Call(CallFault),
    /// The journal failed. If it was at this event, its entry stays, and isn't counted; else nothing has changed.
    Journal,
}
