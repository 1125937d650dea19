//! The listeners of a site: ports and local sockets where connections come in.
ghost use Rattle.std.specs.Prelude.{◌≡◌, ◌<◌, IsErrAnd};
ghost use Rattle.std.specs.IoError.{error_kind};

use crate::stream::Stream;
use std::io::{self, ErrorKind};
use std::net::{Net, SocketAddr, TcpListener, TcpStream};
use std::os::fd::OwnedFd;
use std::os::unix::net::{UnixListener, UnixStream};
use std::time::Duration;

/// A port or a local socket where connections come in. It is closed when it is dropped.
#[derive(Drop)]
pub enum Listener {
    Port(TcpListener),
    /// Whoever made it has to remove its file.
    Socket(UnixListener),
}

impl Listener {
    /// Opens a port of 127.0.0.1, to which only this machine can connect; port 0 is any free one.
    pub fn on_port<R: Net<Listener = TcpListener, Stream = TcpStream>>(
        rt: &R,
        port: u32,
    ) -> io::Result<Listener>
        ensures high { 65535 < port → IsErrAnd result (λ error. error_kind error ≡ ErrorKind.InvalidInput) }
    {
        let Ok(number) = u16::try_from(port) else {
            return Err(io::Error::from(ErrorKind::InvalidInput));
        };
        let address = SocketAddr::from(([127, 0, 0, 1], number));
        Ok(Listener::Port(TcpListener::bind(rt, address)?))
    }

    /// From now on an `accept` that waits longer fails with `WouldBlock`.
    pub(crate) fn limit_waits(&self, limit: Duration) -> io::Result<()> {
        let again = match self {
            Listener::Port(listener) => OwnedFd::from(listener.try_clone()?),
            Listener::Socket(listener) => OwnedFd::from(listener.try_clone()?),
        };
        // The limit is the socket's, of whatever kind it is.
        UnixStream::from(again).set_read_timeout(Some(limit))
    }

    pub(crate) fn accept(&self) -> io::Result<Stream> {
        match self {
            Listener::Port(listener) => {
                let (stream, _) = listener.accept()?;
                stream.set_nodelay(true)?;
                Ok(Stream::Port(stream))
            }
            Listener::Socket(listener) => {
                let (stream, _) = listener.accept()?;
                Ok(Stream::Socket(stream))
            }
        }
    }
}
