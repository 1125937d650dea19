//! The desk, which answers acts and looks, and the clock, which gives the moment at which each is asked.
use till_request::{Act, Answer, LookAt};

/// Answers acts and looks (parsed lines), one after another.
pub trait Desk {
    ghost use Rattle.std.specs.Prelude.{ℕ, List, Result, Ok, Err, OnOk, IfErr};
    ghost use Rattle.till_request.specs.declared.act.Act.{Act};
    ghost use Rattle.till_request.specs.declared.act.Answer.{Answer};
    ghost use Rattle.till_request.specs.declared.look.LookAt.{LookAt};

    /// For proofs: from the first state to the second, it can give this answer to this act at this moment.
    ghost step: { Self → Act → ℕ → Answer → Self → Type 0 };

    fn answer(&mut self, act: Act, moment: u64) -> Answer
        ensures { step self.old act moment result self.new };

    /// For proofs: from the first state to the second, it can answer this look at this moment with this text, or with
    /// an answer in its place.
    ghost looks: { Self → LookAt → ℕ → Result (List ℕ) Answer → Self → Type 0 };

    /// Leaves in `text` the line that answers a look, with its LF; whatever was in it is gone. An error is what is
    /// answered in its place: `OutOfMemory`, or `JournalFailed`.
    fn look(&mut self, look: LookAt, moment: u64, text: &mut Vec<u8>) -> Result<(), Answer>
        ensures ok { OnOk result (looks self.old look moment (Ok text.new.items) self.new) }
        ensures err { IfErr result (λ a. looks self.old look moment (Err a) self.new) };
}

/// Gives the moments at which acts and looks are asked: where a site is served, in seconds since the start of 1970.
pub trait Clock {
    ghost use Rattle.std.specs.Prelude.{ℕ};

    /// For proofs: from the first state to the second, it can give this moment.
    ghost tick: { Self → ℕ → Self → Type 0 };

    fn now(&mut self) -> u64
        ensures { tick self.old result self.new };
}
