//! A connection, over a port or a local socket.
use std::io::{self, Read, Write};
use std::net::{Shutdown, TcpStream};
use std::os::unix::net::UnixStream;
use std::time::Duration;

/// A connection over a port or a local socket. It is closed when its last handle is dropped.
#[derive(Drop)]
pub enum Stream {
    Port(TcpStream),
    Socket(UnixStream),
}

impl Stream {
    pub(crate) fn try_clone(&self) -> io::Result<Stream> {
        match self {
            Stream::Port(stream) => Ok(Stream::Port(stream.try_clone()?)),
            Stream::Socket(stream) => Ok(Stream::Socket(stream.try_clone()?)),
        }
    }

    /// Reads and writes that wait longer than `limit`, which isn't 0, fail with `WouldBlock`, through any handle.
    pub(crate) fn limit_waits(&self, limit: Duration) -> io::Result<()> {
        match self {
            Stream::Port(stream) => {
                stream.set_read_timeout(Some(limit))?;
                stream.set_write_timeout(Some(limit))
            }
            Stream::Socket(stream) => {
                stream.set_read_timeout(Some(limit))?;
                stream.set_write_timeout(Some(limit))
            }
        }
    }

    /// As `limit_waits`, for reads alone.
    pub(crate) fn limit_reads(&self, limit: Duration) -> io::Result<()> {
        match self {
            Stream::Port(stream) => stream.set_read_timeout(Some(limit)),
            Stream::Socket(stream) => stream.set_read_timeout(Some(limit)),
        }
    }

    /// Tells the peer that nothing more will be written.
    pub(crate) fn end_output(&self) -> io::Result<()> {
        match self {
            Stream::Port(stream) => stream.shutdown(Shutdown::Write),
            Stream::Socket(stream) => stream.shutdown(Shutdown::Write),
        }
    }
}

impl Read for Stream {
    fn read(&mut self, buf: &mut [u8]) -> io::Result<usize> {
        match self {
            Stream::Port(stream) => stream.read(buf),
            Stream::Socket(stream) => stream.read(buf),
        }
    }
}

impl Write for Stream {
    fn write(&mut self, buf: &[u8]) -> io::Result<usize> {
        match self {
            Stream::Port(stream) => stream.write(buf),
            Stream::Socket(stream) => stream.write(buf),
        }
    }

    fn flush(&mut self) -> io::Result<()> {
        match self {
            Stream::Port(stream) => stream.flush(),
            Stream::Socket(stream) => stream.flush(),
        }
    }
}
