//! A connection to the page port, on which a browser or a script looks at the petrol station that is served.
ghost use Rattle.std.specs.Prelude.{◌≡◌};
ghost use Rattle.page_port.specs.Limits.{is_over};

use http_server::{Config, Connection, Service, State};
use http1::Limits;
use std::alloc::Global;
use std::hash::RandomState;
use std::io::{self, ErrorKind, Read};
use std::net::{Shutdown, TcpStream};
use std::time::{Clock, Instant};

/// In milliseconds: so long a connection is open without an answer at most, and so long after its answer was made.
const MOST_MILLISECONDS: u128 = 5000;

/// The same without an answer, in milliseconds, while no further connection can be served.
const MOST_MILLISECONDS_IF_TAKEN: u128 = 1000;

const LIMITS: Config = Config {
    limits: Limits {
        max_head_len: 8192,
        max_extensions_len: 0,
        max_trailers_len: 2,
    },
    max_body_len: 0,
    max_pending: 65_536,
    read_size: 4096,
};

#[derive(Clone, Copy)]
pub enum TurnOutcome {
    /// Bytes were read or written, or the input ended.
    Moved,
    /// The peer must send or take something first.
    Waits,
    /// The connection must be closed.
    Over,
}

/// `milliseconds` have passed since the answer was made, or else since the connection was opened.
fn is_over(milliseconds: u128, is_answered: bool, are_all_taken: bool) -> bool
    ensures { result ≡ is_over milliseconds is_answered are_all_taken }
{
    let most = if are_all_taken && !is_answered {
        MOST_MILLISECONDS_IF_TAKEN
    } else {
        MOST_MILLISECONDS
    };
    milliseconds >= most
}

/// A connection to the page port. No method waits for the peer.
#[derive(Drop)]
pub struct Client {
    stream: TcpStream,
    connection: Connection,
    /// When the answer was made, or, before that, when the connection was opened.
    since: Instant,
    /// Nothing more is sent then.
    is_answered: bool,
}

impl Client {
    pub fn new<R: Clock>(
        rt: &R,
        alloc: Global,
        keys: RandomState,
        stream: TcpStream,
    ) -> io::Result<Client> {
        stream.set_nonblocking(true)?;
        stream.set_nodelay(true)?;
        match Instant::now(rt) {
            Ok(since) => Ok(Client {
                stream,
                connection: Connection::new(alloc, keys, LIMITS),
                since,
                is_answered: false,
            }),
            Err(error) => Err(error),
        }
    }

    fn is_open(&self) -> bool {
        matches!(self.connection.state(), State::Open)
    }

    /// Has `service` answer the request, if it has come whole and isn't answered yet.
    fn answer<S: Service, R: Clock>(&mut self, rt: &R, service: &mut S) -> io::Result<()> {
        if self.is_open() {
            self.connection.advance(service);
            if !self.is_open() {
                self.since = Instant::now(rt)?;
            }
        }
        Ok(())
    }

    /// Writes if something is to be sent, and reads otherwise. The error is `WouldBlock` if nothing can be done at
    /// once.
    fn transfer_bytes(&mut self) -> io::Result<usize> {
        if self.connection.wants_write() {
            self.connection.write_to(&mut self.stream)
        } else {
            self.connection.read_from(&mut self.stream)
        }
    }

    /// Ends the output, and throws away what the peer still sends: at most 4,096 bytes. If the connection were closed
    /// before they are read, the system might throw the answer away.
    fn drain_input(&mut self) -> io::Result<usize> {
        if !self.is_answered {
            self.is_answered = true;
            self.stream.shutdown(Shutdown::Write)?;
        }
        let mut bytes = [0u8; 4096];
        self.stream.read(&mut bytes)
    }

    /// As `turn`, but returns a failure as an error.
    fn try_turn<S: Service, R: Clock>(
        &mut self,
        rt: &R,
        service: &mut S,
        are_all_taken: bool,
    ) -> io::Result<TurnOutcome> {
        self.answer(rt, service)?;
        let milliseconds = self.since.elapsed(rt)?.as_millis();
        if is_over(milliseconds, !self.is_open(), are_all_taken) {
            return Ok(TurnOutcome::Over);
        }
        let is_done = self.connection.is_done();
        let carried = if is_done {
            self.drain_input()
        } else {
            self.transfer_bytes()
        };
        match carried {
            Ok(0) if is_done => Ok(TurnOutcome::Over),
            Ok(_) => Ok(TurnOutcome::Moved),
            Err(error) if error.kind() == ErrorKind::WouldBlock => Ok(TurnOutcome::Waits),
            Err(error) => Err(error),
        }
    }

    /// Has `service` answer the request once it has come, and writes or reads what it can at once. `are_all_taken` says
    /// that no further connection can be served: then a request must come within 1 second, not 5. A failure isn't
    /// reported: nobody needs to know of a peer that goes away.
    pub fn turn<S: Service, R: Clock>(
        &mut self,
        rt: &R,
        service: &mut S,
        are_all_taken: bool,
    ) -> TurnOutcome {
        match self.try_turn(rt, service, are_all_taken) {
            Ok(turn) => turn,
            Err(_) => TurnOutcome::Over,
        }
    }
}
