//! What is reported to an operator while a site is served.
use crate::starting::ThreadCounts;
use line_session::SessionFault;
use std::{fmt, io};
use till_request::{LineFault, Role};

#[derive(Clone, Copy)]
pub enum SessionFailure {
    /// The last line was too long (L1), or the input ended before its LF (L4).
    Line(LineFault),
    Session(SessionFault),
}

impl fmt::Display for SessionFailure {
    ghost use Rattle.std.specs.Prelude.{Some};
    ghost use Rattle.site_server.specs.Words.{session_failure_text};

    ghost output = { λ failure. Some (session_failure_text failure) };

    fn fmt<W: fmt::Write>(&self, f: &mut fmt::Formatter<W>) -> fmt::Result {
        match self {
            SessionFailure::Line(LineFault::TooLong) => {
                f.write_str("ended by a line of more than 8,400 bytes")
            }
            // Of the line faults only `TooLong`, which is handled above, and `CutLine` end a session.
            SessionFailure::Line(_) => f.write_str("ended in mid-line"),
            SessionFailure::Session(fault) => fault.fmt(f),
        }
    }
}

/// Receives the reports of a site's workers, for an operator to read or to be counted. `role` says whose lines the
/// worker takes, and `pass` is the number of its pass.
pub trait Notices {
    ghost use Rattle.std.specs.Prelude.{ℕ};
    ghost use Rattle.till_request.specs.declared.act.Role.{Role};
    ghost use Rattle.site_server.specs.declared.notices.SessionFailure.{SessionFailure};

    ghost failure_reported: { Role → ℕ → SessionFailure → Type 0 };

    ghost end_reported: { Role → ℕ → Type 0 };

    ghost stranger_reported: { Role → ℕ → Type 0 };

    ghost line_reported: { Role → ℕ → Type 0 };

    ghost stray_reported: { Role → ℕ → Type 0 };

    /// A connection couldn't be opened.
    fn accept_failed(&self, role: Role, pass: u32, error: &io::Error);

    fn session_failed(&self, role: Role, pass: u32, failure: SessionFailure)
        ensures { failure_reported role pass failure };

    /// A peer sent nothing for so long that its input ended.
    fn fell_silent(&self, role: Role, pass: u32, seconds: u32);

    /// A connection spoke another protocol, and is closed without an answer.
    fn turned_away(&self, role: Role, pass: u32)
        ensures { stranger_reported role pass };

    fn line_read(&self, role: Role, pass: u32)
        ensures { line_reported role pass };

    /// A line is answered `OtherDoor`.
    fn met_stray(&self, role: Role, pass: u32)
        ensures { stray_reported role pass };

    /// The worker has a thread. It serves once `started` has returned.
    fn began(&self, role: Role, pass: u32);

    /// All threads have been asked for. If a role has none, the site isn't served; else it is from now on, and a worker
    /// without a thread begins once others have ended.
    fn started(&self, threads: ThreadCounts);

    fn connected(&self, role: Role, pass: u32);

    /// A session ended, with or without a fault.
    fn disconnected(&self, role: Role, pass: u32)
        ensures { end_reported role pass };

    /// The worker has served its last connection.
    fn left(&self, role: Role, pass: u32);
}
