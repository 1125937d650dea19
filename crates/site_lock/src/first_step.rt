use site_core::{Answered, Draft};

/// The first step of a till's request, which is made under the lock.
#[derive(Drop)]
pub(super) enum FirstStep {
    /// No program has to be run.
    Entered(Answered),
    /// A program has to be run on this draft, and then committed.
    Run(Draft),
}
