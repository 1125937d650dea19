//! The halves of a connection, whose reads and writes wait for the peer.
ghost use Rattle.std.specs.Io.{ReadsAtMost, WritesAtMost};

use crate::stop::Stop;
use crate::stream::Stream;
use std::io::{self, Chain, Cursor, ErrorKind, Read, Write};
use std::sync::Wait;
use std::time::{Clock, Duration, Instant};

/// The time limit of a stream's reads and writes where they can be stopped, in milliseconds.
pub(crate) const STEP_MILLISECONDS: u64 = 20;

fn is_over(limit: Option<Duration>, elapsed: Duration) -> bool {
    match limit {
        Some(limit) => elapsed >= limit,
        None => false,
    }
}

/// Sets how long the stream's own reads and writes wait.
pub(crate) fn limit_waits(
    stream: &Stream,
    has_stop: bool,
    limit: Option<Duration>,
) -> io::Result<()> {
    if has_stop {
        return stream.limit_waits(Duration::from_millis(STEP_MILLISECONDS));
    }
    match limit {
        Some(limit) => stream.limit_waits(limit),
        None => Ok(()),
    }
}

/// The reading half of a connection. A read that waits longer than `limit` fails with `WouldBlock`. Where a stop is asked
/// for, a read doesn't wait, and fails with `Interrupted`.
#[derive(Drop)]
pub struct WaitingReader<'a, R: Wait + Clock> {
    pub(crate) rt: &'a R,
    /// What workers before have read of the connection, and then its stream.
    pub(crate) source: Chain<Cursor<Vec<u8>>, Stream>,
    pub(crate) stop: Option<&'a Stop>,
    pub(crate) limit: Option<Duration>,
}

impl<R: Wait + Clock> WaitingReader<'_, R> {
    pub(crate) fn stream(&self) -> &Stream {
        self.source.get_ref().1
    }

    /// Sets another limit.
    pub(crate) fn limit_reads(&mut self, limit: Duration) -> io::Result<()> {
        self.limit = Some(limit);
        if self.stop.is_none() {
            self.stream().limit_reads(limit)?;
        }
        Ok(())
    }

    fn read_unless(&mut self, stop: &Stop, buf: &mut [u8]) -> io::Result<usize>
        ensures bound { ReadsAtMost result buf.new }
    {
        let start = Instant::now(self.rt)?;
        for _ in self.rt.forever() {
            if stop.is_asked() {
                return Err(io::Error::from(ErrorKind::Interrupted));
            }
            match self.source.read(buf) {
                Err(error) if error.kind() == ErrorKind::WouldBlock => {}
                read => return read,
            }
            if is_over(self.limit, start.elapsed(self.rt)?) {
                return Err(io::Error::from(ErrorKind::WouldBlock));
            }
        }
        unreachable!()
    }
}

impl<R: Wait + Clock> Read for WaitingReader<'_, R> {
    fn read(&mut self, buf: &mut [u8]) -> io::Result<usize> {
        match self.stop {
            Some(stop) => self.read_unless(stop, buf),
            None => self.source.read(buf),
        }
    }
}

/// The writing half of a connection. A write of which the peer takes nothing for longer than `limit`, or while a stop is
/// asked for, fails with `WouldBlock`.
#[derive(Drop)]
pub struct WaitingWriter<'a, R: Wait + Clock> {
    pub(crate) rt: &'a R,
    pub stream: Stream,
    pub(crate) stop: Option<&'a Stop>,
    pub(crate) limit: Option<Duration>,
}

impl<R: Wait + Clock> WaitingWriter<'_, R> {
    fn write_unless(&mut self, stop: &Stop, buf: &[u8]) -> io::Result<usize>
        ensures bound { WritesAtMost result buf.now }
    {
        let start = Instant::now(self.rt)?;
        for _ in self.rt.forever() {
            match self.stream.write(buf) {
                Err(error) if error.kind() == ErrorKind::WouldBlock => {}
                written => return written,
            }
            if stop.is_asked() || is_over(self.limit, start.elapsed(self.rt)?) {
                return Err(io::Error::from(ErrorKind::WouldBlock));
            }
        }
        unreachable!()
    }
}

impl<R: Wait + Clock> Write for WaitingWriter<'_, R> {
    fn write(&mut self, buf: &[u8]) -> io::Result<usize> {
        match self.stop {
            Some(stop) => self.write_unless(stop, buf),
            None => self.stream.write(buf),
        }
    }

    fn flush(&mut self) -> io::Result<()> {
        self.stream.flush()
    }
}
