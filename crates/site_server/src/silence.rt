//! The reading half of a connection. Its input ends if the peer is silent for too long.
ghost use Rattle.std.specs.Prelude.{◌≡◌, ◌<◌, ◌↔◌, IsErrAnd, IsFalse, IsTrue, Ok};
ghost use Rattle.std.specs.IoError.{error_kind};

use crate::notices::Notices;
use crate::waiting::WaitingReader;
use std::io::{self, ErrorKind, Read};
use std::sync::Wait;
use std::time::Clock;
use till_request::Role;

/// The reading half of a connection. If its peer sends nothing for `idle_seconds` (0 is no limit), that is reported,
/// and the input ends as if the peer had closed it.
#[derive(Drop)]
pub struct IdleLimitedReader<'a, R: Wait + Clock, N: Notices> {
    pub(crate) stream: WaitingReader<'a, R>,
    pub(crate) notices: &'a N,
    pub(crate) role: Role,
    pub(crate) pass: u32,
    pub(crate) idle_seconds: u32,
    /// No read waits once the peer was silent.
    pub(crate) is_over: bool,
}

fn is_silence(error: &io::Error, idle_seconds: u32) -> bool
    ensures { IsTrue result ↔ (0 < idle_seconds) × (error_kind error.now ≡ ErrorKind.WouldBlock) }
{
    idle_seconds > 0 && error.kind() == ErrorKind::WouldBlock
}

fn end_if_silent(read: io::Result<usize>, idle_seconds: u32) -> (io::Result<usize>, bool)
    ensures silent { IsTrue result.1
        ↔ IsErrAnd read (λ error. (0 < idle_seconds) × (error_kind error ≡ ErrorKind.WouldBlock)) }
    ensures ended { IsTrue result.1 → result.0 ≡ Ok 0 }
    ensures passed_on { IsFalse result.1 → result.0 ≡ read }
{
    match read {
        Err(error) if is_silence(&error, idle_seconds) => (Ok(0), true),
        read => (read, false),
    }
}

impl<R: Wait + Clock, N: Notices> Read for IdleLimitedReader<'_, R, N> {
    fn read(&mut self, buf: &mut [u8]) -> io::Result<usize> {
        if self.is_over {
            return Ok(0);
        }
        let (read, is_silent) = end_if_silent(self.stream.read(buf), self.idle_seconds);
        if is_silent {
            self.is_over = true;
            self.notices
                .fell_silent(self.role, self.pass, self.idle_seconds);
        }
        read
    }
}
