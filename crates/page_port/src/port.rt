//! The page port: a port of 127.0.0.1 on which a browser or a script looks at a site while it is served.
ghost use Rattle.std.specs.Prelude.{◌≡◌, None, true, is_some};

use crate::client::{Client, TurnOutcome};
use crate::connections::ConnectionCounts;
use crate::journal_counts::JournalCounts;
use crate::service::PageService;
use crate::timings::Timings;
use http_server::Service;
use pages::JournalFileStats;
use site_lock::{Forecourt, Journal, SiteLedger};
use std::alloc::Global;
use std::hash::RandomState;
use std::io::{self, ErrorKind};
use std::net::{Net, SocketAddr, TcpListener, TcpStream};
use std::os::fd::OwnedFd;
use std::sync::Wait;
use std::sync::atomic::{AtomicBool, Ordering};
use std::time::{Clock, Duration};
use std::{fs, thread};

/// The most connections that are served at one time. Further connections wait in the system's queue.
const MOST_CLIENTS: usize = 32;

/// How long `watch` waits, in milliseconds, after a round without progress.
const REST_MILLISECONDS: u64 = 5;

/// How long it waits, in milliseconds, after a connection couldn't be accepted.
const PAUSE_MILLISECONDS: u64 = 100;

/// How long it waits, in milliseconds, for a connection, before it looks whether it has to return.
const ACCEPT_MILLISECONDS: u64 = 20;

/// How many rounds of turns its last clients get before it returns.
const LAST_ROUNDS: u32 = 10;

const MEMORY_PAGE: u64 = 4096;

/// A port of 127.0.0.1, which stays open while one day after another is shown on it.
#[derive(Drop)]
pub struct PageListener {
    listener: TcpListener,
    keys: RandomState,
}

impl PageListener {
    /// Opens a port of 127.0.0.1. `host` must be the same runtime as `rt`. The error is `InvalidInput` for a port above
    /// 65,535.
    pub fn open<H: Net<Listener = TcpListener, Stream = TcpStream>>(
        rt: &HostRuntime,
        host: &H,
        port: u32,
    ) -> io::Result<PageListener> {
        let Ok(number) = u16::try_from(port) else {
            return Err(io::Error::from(ErrorKind::InvalidInput));
        };
        let keys = RandomState::new(rt)?;
        let listener = TcpListener::bind(host, SocketAddr::from(([127, 0, 0, 1], number)))?;
        // The limit is the socket's, also for what waits to accept.
        let again = TcpStream::from(OwnedFd::from(listener.try_clone()?));
        again.set_read_timeout(Some(Duration::from_millis(ACCEPT_MILLISECONDS)))?;
        Ok(PageListener { listener, keys })
    }
}

/// A port of 127.0.0.1 on which a browser or a script looks at a site while a day of it is served.
///
/// One thread serves up to 32 connections at once, and answers one request on each, so that a peer that hangs keeps
/// nobody waiting. A request must come within 5 seconds (1 while 32 connections are served), and its answer be taken
/// within 5. What it shows is copied under the site's lock, a bounded amount at a time.
#[derive(Drop)]
pub struct PagePort<'a> {
    rt: &'a HostRuntime,
    listener: &'a PageListener,
    /// The number of the day, from 1.
    pub(crate) day: u32,
    /// False if the day was to begin with the given configuration, and couldn't.
    pub(crate) is_given: bool,
    pub(crate) tills: u32,
    pub(crate) connections: ConnectionCounts,
    pub(crate) journal: Option<&'a JournalCounts>,
    /// How often answers took the site's lock, and how long they waited for it.
    pub(crate) waits: Timings,
    is_leaving: AtomicBool,
}

/// Gives each client a turn, and drops those that are over. The last client takes the place of one, and then has no
/// turn in this call. Returns whether a client progressed.
fn take_turns<S: Service, R: Clock>(rt: &R, clients: &mut Vec<Client>, service: &mut S) -> bool {
    let are_all_taken = clients.len() >= MOST_CLIENTS;
    let mut has_progressed = false;
    for place in 0..clients.len() {
        // Removals make `clients` shorter, so `place` can be past the end.
        let Some(client) = clients.get_mut(place) else {
            break;
        };
        match client.turn(rt, service, are_all_taken) {
            TurnOutcome::Waits => {}
            TurnOutcome::Moved => has_progressed = true,
            TurnOutcome::Over => {
                has_progressed = true;
                if place < clients.len() {
                    drop(clients.swap_remove(place));
                }
            }
        }
    }
    has_progressed
}

/// Gives the last clients some turns, those that do nothing for 50 milliseconds.
fn take_last_turns<S: Service, R: Clock>(rt: &R, clients: &mut Vec<Client>, service: &mut S) {
    for _ in 0..LAST_ROUNDS {
        if clients.is_empty() {
            return;
        }
        if !take_turns(rt, clients, service) {
            thread::sleep(rt, Duration::from_millis(REST_MILLISECONDS));
        }
    }
}

impl<'a> PagePort<'a> {
    /// Shows day `day` of a site. `is_given` is false if the day was to begin with the given configuration, and couldn't.
    /// `journal` has the counts of its journal file, if there is one.
    pub fn new(
        rt: &'a HostRuntime,
        listener: &'a PageListener,
        day: u32,
        is_given: bool,
        tills: u32,
        connections: ConnectionCounts,
        journal: Option<&'a JournalCounts>,
    ) -> PagePort<'a>
        ensures day { result.day ≡ day }
        ensures given { result.is_given ≡ is_given }
        ensures tills { result.tills ≡ tills }
        ensures connections { result.connections ≡ connections }
    {
        PagePort {
            rt,
            listener,
            day,
            is_given,
            tills,
            connections,
            journal,
            waits: Timings::new(),
            is_leaving: AtomicBool::new(false),
        }
    }

    pub fn connections(&self) -> &ConnectionCounts
        ensures { result.now ≡ self.now.connections }
    {
        &self.connections
    }

    pub(crate) fn alloc(&self) -> Global {
        self.rt.alloc()
    }

    pub(crate) fn journal(&self) -> Option<JournalFileStats>
        ensures { is_some result ≡ is_some self.now.journal }
    {
        match self.journal {
            Some(counts) => Some(counts.file()),
            None => None,
        }
    }

    /// Whether the journal failed, also if only its file did: the site learns of a failed sync only when the next event
    /// is entered.
    pub(crate) fn has_failed(&self, has_site_failed: bool) -> bool
        ensures site { has_site_failed ≡ true → result ≡ true }
        ensures unkept { self.now.journal ≡ None → result ≡ has_site_failed }
    {
        if has_site_failed {
            return true;
        }
        match self.journal {
            Some(counts) => counts.has_failed(),
            None => false,
        }
    }

    /// The resident memory of the process in bytes, if it can be found out.
    pub(crate) fn memory(&self) -> Option<u64> {
        let Ok(text) = fs::read_to_string(self.rt, "/proc/self/statm") else {
            return None;
        };
        let pages = text.split_ascii_whitespace().nth(1)?;
        pages.parse::<u64>().ok()?.checked_mul(MEMORY_PAGE)
    }

    /// Accepts the next connection. The error is `WouldBlock` if none has come, for a moment if there is no client. A connection that can't be set up, as its peer has gone already, is closed.
    fn accept<R: Clock>(&self, rt: &R, clients: &mut Vec<Client>) -> io::Result<()> {
        let PageListener { listener, keys } = self.listener;
        listener.set_nonblocking(!clients.is_empty())?;
        let (stream, _) = listener.accept()?;
        match Client::new(rt, self.alloc(), *keys, stream) {
            Ok(client) => Ok(clients.push(client)?),
            Err(_) => Ok(()),
        }
    }

    /// Prints that a connection couldn't be accepted, unless accepting `has_failed` before, and waits.
    fn pause(&self, has_failed: bool, error: &io::Error) {
        if !has_failed {
            let _ = eprintln!(self.rt; "fc: no connection for the page: {error}");
        }
        thread::sleep(self.rt, Duration::from_millis(PAUSE_MILLISECONDS));
    }

    /// Accepts the next connection if there are fewer than 32 clients, and returns whether there was one. `has_failed` says whether accepting failed since the last connection came.
    fn accept_next<R: Clock>(
        &self,
        rt: &R,
        clients: &mut Vec<Client>,
        has_failed: &mut bool,
    ) -> bool {
        if clients.len() >= MOST_CLIENTS {
            return false;
        }
        match self.accept(rt, clients) {
            Ok(()) => {
                *has_failed = false;
                true
            }
            Err(error) => {
                if error.kind() != ErrorKind::WouldBlock {
                    self.pause(*has_failed, &error);
                    *has_failed = true;
                }
                false
            }
        }
    }

    fn is_leaving(&self) -> bool {
        self.is_leaving.load(Ordering::SeqCst)
    }

    /// Answers requests until `leave` is called. Then no answer is cut off that can be made and taken at once; who comes
    /// later waits for the next day.
    pub fn watch<L: SiteLedger, J: Journal, R: Wait + Clock>(
        &self,
        rt: &R,
        forecourt: &Forecourt<L, J>,
    ) {
        // This counts all entries, so that later looks needn't.
        let _ = forecourt.look(rt, 0);
        let mut answers = PageService {
            rt,
            port: self,
            forecourt,
        };
        let mut clients = Vec::new(self.alloc());
        let mut has_failed = false;
        for _ in rt.forever() {
            if self.is_leaving() {
                break;
            }
            let has_come = self.accept_next(rt, &mut clients, &mut has_failed);
            let has_progressed = take_turns(rt, &mut clients, &mut answers);
            if !has_come && !has_progressed {
                thread::sleep(rt, Duration::from_millis(REST_MILLISECONDS));
            }
        }
        take_last_turns(rt, &mut clients, &mut answers);
    }

    /// Asks `watch` to return soon.
    pub fn leave(&self) {
        self.is_leaving.store(true, Ordering::SeqCst);
    }
}
