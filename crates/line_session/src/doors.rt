use crate::answering::{Ended, SessionFault};
use till_request::{DeviceFault, LineIn, LineOut};

/// A source of connections, one after another.
pub trait Doors {
    type In: LineIn + Drop;

    type Out: LineOut + Drop;

    ghost use Rattle.std.specs.Prelude.{Result, IfOk, IsTrue, OnErr};
    ghost use Rattle.line_session.specs.declared.answering.Ended.{Ended};
    ghost use Rattle.line_session.specs.declared.answering.SessionFault.{SessionFault};

    /// For proofs: from the first state to the second, `next` can return this input and this output.
    ghost opens: { Self → Self.In → Self.Out → Self → Type 0 };

    /// For proofs: from the first state to the second, `next` can fail.
    ghost fails: { Self → Self → Type 0 };

    /// For proofs: `are_closed` can say so.
    ghost may_close: { Self → Type 0 };

    /// For proofs: from the first state to the second, `ended` can take back this input and this output.
    ghost reported: { Self → Self.In → Self.Out → Result Ended SessionFault → Self → Type 0 };

    ghost stray_reported: { Self → Type 0 };

    /// Waits for the next connection.
    fn next(&mut self) -> Result<(Self::In, Self::Out), DeviceFault>
        ensures ok { IfOk result (λ door. opens self.old door.0 door.1 self.new) }
        ensures err { OnErr result (fails self.old self.new) }
        ensures closes { may_close self.new → may_close self.old };

    /// Whether no further connection is to be opened, and the worker is to return early.
    fn are_closed(&self) -> bool
        ensures { IsTrue result → may_close self.now }
    {
        false
    }

    /// Whether the input has the whole next line in its buffer, so that answers can be written together.
    fn has_buffered_line(&self, _input: &Self::In) -> bool {
        false
    }

    /// Reports that a line is answered `OtherDoor`.
    fn met_stray(&self)
        ensures { stray_reported self.now };

    /// Takes back a connection, with how the session over it ended.
    fn ended(&mut self, input: Self::In, output: Self::Out, outcome: &Result<Ended, SessionFault>)
        ensures told { reported self.old input output outcome.now self.new }
        ensures closes { may_close self.new → may_close self.old };
}
