//! The gate, which runs programs without the lock.
ghost use Rattle.std.specs.Prelude.{◌≡◌};

use site_core::{Draft, Ready};

/// Runs drafts: what programs are to be run on for tills' requests. The caller doesn't hold the site's lock meanwhile.
/// The count of its calls wraps at 2^64.
pub trait Gate {
    ghost use Rattle.std.specs.Prelude.{◌≡◌, ℕ};
    ghost use Rattle.till_request.specs.Count.{RoseBy};
    ghost use Rattle.site_core.specs.Draft.{ReadyValue};

    ghost calls: { Self → ℕ };

    /// For proofs: from the first state to the second `run` can return this `Ready`.
    ghost makes: { Self → ReadyValue → Self → Type 0 };

    /// Runs the program on a draft of this till's request.
    fn run(&mut self, till: u32, draft: Draft) -> Ready
        ensures run { result.draft ≡ draft }
        ensures made { makes self.old result self.new }
        ensures counted { RoseBy 1 (calls self.old) (calls self.new) };
}

/// Runs each draft's program at once, on the caller's thread.
#[derive(Clone, Copy)]
pub struct Straight {
    pub calls: u64,
}

impl Gate for Straight {
    ghost use Rattle.till_request.specs.Count.{RoseBy};

    ghost calls = { λ s. s.calls };

    ghost makes = { λ before _ after. RoseBy 1 before.calls after.calls };

    fn run(&mut self, _till: u32, draft: Draft) -> Ready {
        self.calls = self.calls.wrapping_add(1);
        draft.run()
    }
}
