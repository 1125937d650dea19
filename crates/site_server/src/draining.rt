//! The end of a connection whose peer may still be sending.
ghost use Rattle.std.specs.Prelude.{◌≡◌};
ghost use Rattle.site_server.specs.Draining.{drain_wait, is_drained};

use crate::waiting::WaitingReader;
use line_session::{Ended, SessionFault};
use std::io::{self, Read};
use std::sync::Wait;
use std::time::{Clock, Duration, Instant};
use till_request::LineFault;

/// Whether a session ended while its peer may still be sending: all its reads were made (N3), or its last line was too
/// long (L1).
pub(crate) fn is_drained(outcome: &Result<Ended, SessionFault>) -> bool
    // proved: It is drained behind L1 and N3 alone | failed_write_is_drained
    ensures { result ≡ is_drained outcome.now }
{
    match outcome {
        Ok(ended) => matches!(ended.cut, Some(LineFault::TooLong)),
        Err(fault) => matches!(fault, SessionFault::ReadsSpent),
    }
}

/// How many milliseconds the next read may wait, `elapsed` milliseconds after the beginning; at 0 there is none.
fn drain_wait(elapsed: u64) -> u64
    ensures { result ≡ drain_wait elapsed }
{
    30_000u64.saturating_sub(elapsed).min(5_000)
}

/// Ends the output, and throws away what comes until the peer closes the connection, for at most 30 seconds, or 5 in
/// which nothing comes. A stop ends it.
pub(crate) fn drain<R: Wait + Clock>(rt: &R, reader: &mut WaitingReader<'_, R>) -> io::Result<()> {
    let start = Instant::now(rt)?;
    reader.stream().end_output()?;
    let mut bytes = [0; 4096];
    for _ in rt.forever() {
        let elapsed = start.elapsed(rt)?;
        let wait = drain_wait(u64::try_from(elapsed.as_millis()).unwrap_or(u64::MAX));
        if wait == 0 {
            return Ok(());
        }
        reader.limit_reads(Duration::from_millis(wait))?;
        if reader.read(&mut bytes)? == 0 {
            return Ok(());
        }
    }
    unreachable!()
}
