//! Waiting for a connection to come in.
use crate::listener::Listener;
use crate::stop::Stop;
use crate::stream::Stream;
use crate::waiting::STEP_MILLISECONDS;
use std::io::{self, ErrorKind};
use std::sync::Wait;
use std::time::Duration;

fn accept_unless<R: Wait>(rt: &R, listener: &Listener, stop: &Stop) -> io::Result<Stream> {
    listener.limit_waits(Duration::from_millis(STEP_MILLISECONDS))?;
    for _ in rt.forever() {
        if stop.is_asked() {
            return Err(io::Error::from(ErrorKind::Interrupted));
        }
        match listener.accept() {
            Err(error) if error.kind() == ErrorKind::WouldBlock => {}
            accepted => return accepted,
        }
    }
    unreachable!()
}

/// Waits for a connection. If there is a stop and it is asked for, fails with `Interrupted`.
pub(crate) fn accept<R: Wait>(
    rt: &R,
    listener: &Listener,
    stop: Option<&Stop>,
) -> io::Result<Stream> {
    match stop {
        Some(stop) => accept_unless(rt, listener, stop),
        None => listener.accept(),
    }
}
