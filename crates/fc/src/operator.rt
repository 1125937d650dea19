//! The lines that are printed for an operator on standard error while a site is served.
ghost use Rattle.std.specs.Prelude.{◌≡◌, is_some};

use crate::day_end::second;
use crate::doors::{DoorAddress, DoorListing};
use file_jobs::messages::print_message;
use page_port::ConnectionCounts;
use site_config::{Door, Serve};
use site_server::{Limiter, Notices, SessionFailure, SessionFault, Stop, ThreadCounts};
use std::fmt::{self, Display};
use std::io;
use std::sync::atomic::{AtomicU64, Ordering};
use std::sync::{Mutex, Wait};
use std::time::Clock;
use till_request::{LineFault, Role};

const MOST_IN_SECOND: u32 = 10;

const MOST_STRANGERS_IN_MINUTE: u32 = 1;

/// Prints reports for an operator on standard error, at most ten a second, and at most one a minute on connections that
/// speak another protocol, and one on lines of another door. Of the latter it says how many there were; of others a line
/// before the next printed one says how many were left out. If a report can't be printed, the site is served all the
/// same.
#[derive(Drop)]
pub struct OperatorReports<'a, H: Wait + Clock> {
    rt: &'a HostRuntime,
    host: &'a H,
    limiter: Mutex<Limiter>,
    strangers: Mutex<Limiter>,
    strays: AtomicU64,
    /// The last minute in which a line of another door was reported.
    stray_minute: AtomicU64,
    serve: &'a Serve,
    connections: Option<&'a ConnectionCounts>,
    /// Whether the doors are new, and not those of the day before.
    is_first: bool,
    /// What asks the workers to stop, if anything does.
    stop: Option<&'a Stop>,
}

/// A peer's name, such as `till 3` or `a dispenser`.
#[derive(Clone, Copy)]
struct Peer(Role);

impl Display for Peer {
    fn fmt<W: fmt::Write>(&self, f: &mut fmt::Formatter<W>) -> fmt::Result {
        match self.0 {
            Role::Till => f.write_str("a till"),
            Role::OneTill(number, _) => write!(f, "till {number}"),
            Role::Dispenser | Role::SomePoints(..) => f.write_str("a dispenser"),
            Role::Owner | Role::DaysOwner | Role::All => f.write_str("the owner"),
        }
    }
}

/// How many workers have a thread, in all and for each role.
#[derive(Clone, Copy)]
struct ThreadsFound(ThreadCounts);

impl Display for ThreadsFound {
    fn fmt<W: fmt::Write>(&self, f: &mut fmt::Formatter<W>) -> fmt::Result {
        let ThreadCounts {
            tills,
            dispensers,
            owner,
        } = self.0;
        let all = self.0.all();
        write!(
            f,
            "the system gave threads to {} of {} workers: tills {} of {}, dispensers {} of {}, owner {} of {}",
            all.threads,
            all.workers,
            tills.threads,
            tills.workers,
            dispensers.threads,
            dispensers.workers,
            owner.threads,
            owner.workers
        )
    }
}

/// Returns the number of the fault that ended a session, as ` (L1)`, or nothing if it has none.
fn code_of(failure: SessionFailure) -> &'static str {
    match failure {
        SessionFailure::Line(LineFault::TooLong) => " (L1)",
        SessionFailure::Line(LineFault::CutLine) => " (L4)",
        // These faults of a line never end a session.
        SessionFailure::Line(
            LineFault::BadLine
            | LineFault::BadNumber
            | LineFault::OtherDoor
            | LineFault::OutOfMemory,
        ) => "",
        SessionFailure::Session(SessionFault::Read) => " (N1)",
        SessionFailure::Session(SessionFault::Write) => " (N2)",
        SessionFailure::Session(SessionFault::ReadsSpent) => " (N3)",
        SessionFailure::Session(
            SessionFault::OutOfMemory | SessionFault::Journal | SessionFault::NextDay,
        ) => "",
    }
}

/// Returns what a write to a peer that failed means, or nothing for any other fault.
fn why_of(failure: SessionFailure) -> &'static str {
    match failure {
        SessionFailure::Session(SessionFault::Write) => ": the peer hung up, or took nothing",
        SessionFailure::Line(_) | SessionFailure::Session(_) => "",
    }
}

/// The workers of `doors` have the passes from 1 on, door after door.
fn door_at(doors: &[Door], pass: u32) -> Option<&Door> {
    let mut passes = 0u32;
    for door in doors {
        passes = passes.saturating_add(door.workers);
        if pass <= passes {
            return Some(door);
        }
    }
    None
}

impl<'a, H: Wait + Clock> OperatorReports<'a, H> {
    /// `connections` counts connections, lines, and workers that have served their last connection. `doors` are in the
    /// order of their workers' passes. `host` must be the same runtime as `rt`.
    pub fn new(
        rt: &'a HostRuntime,
        host: &'a H,
        serve: &'a Serve,
        connections: Option<&'a ConnectionCounts>,
        is_first: bool,
        stop: Option<&'a Stop>,
    ) -> OperatorReports<'a, H> {
        OperatorReports {
            rt,
            host,
            limiter: Mutex::new(Limiter::new(MOST_IN_SECOND)),
            strangers: Mutex::new(Limiter::new(MOST_STRANGERS_IN_MINUTE)),
            strays: AtomicU64::new(0),
            stray_minute: AtomicU64::new(u64::MAX),
            serve,
            connections,
            is_first,
            stop,
        }
    }

    /// Returns the seconds since the start of 1970, or 0 if the clock can't tell: then at most ten reports are printed.
    fn second(&self) -> u64 {
        second(self.host)
    }

    /// Returns whether a report may be printed now. If so, first prints how many were left out.
    fn is_admitted(&self) -> bool {
        let admitted = self.limiter.lock(self.host).admit(self.second());
        self.print_held(admitted)
    }

    /// The same for a report on a connection that speaks another protocol.
    fn is_stranger_admitted(&self) -> bool {
        let minute = self.second() / 60;
        let admitted = self.strangers.lock(self.host).admit(minute);
        self.print_held(admitted)
    }

    /// Counts workers without a thread as gone, if all were counted before.
    fn count_lacking(&self, threads: ThreadCounts) {
        let Some(connections) = self.connections else {
            return;
        };
        if self.is_first {
            return;
        }
        let ThreadCounts {
            tills,
            dispensers,
            owner,
        } = threads;
        for (role, counts) in [
            (Role::Till, tills),
            (Role::Dispenser, dispensers),
            (Role::Owner, owner),
        ] {
            for _ in counts.threads..counts.workers {
                connections.left(role);
            }
        }
    }

    /// Prints how many reports were left out, if `admitted` is over 0. Returns whether it is a number.
    fn print_held(&self, admitted: Option<u64>) -> bool
        ensures { result ≡ is_some admitted }
    {
        match admitted {
            None => false,
            Some(0) => true,
            Some(held) => {
                print_message(self.rt, &format_args!("and {held} more"));
                true
            }
        }
    }
}

impl<H: Wait + Clock> Notices for OperatorReports<'_, H> {
    // What is printed on standard error has no contract.
    ghost failure_reported = { λ _ _ _. Unit {0} };

    ghost end_reported = { λ _ _. Unit {0} };

    ghost stranger_reported = { λ _ _. Unit {0} };

    ghost line_reported = { λ _ _. Unit {0} };

    ghost stray_reported = { λ _ _. Unit {0} };

    fn accept_failed(&self, role: Role, pass: u32, error: &io::Error) {
        if self.is_admitted() {
            let who = Peer(role);
            let words = format_args!("pass {pass}: no connection for {who}: {error}");
            print_message(self.rt, &words);
        }
    }

    fn session_failed(&self, role: Role, pass: u32, failure: SessionFailure) {
        if self.is_admitted() {
            let (who, why, code) = (Peer(role), why_of(failure), code_of(failure));
            let words = format_args!("pass {pass}: the session of {who}: {failure}{why}{code}");
            print_message(self.rt, &words);
        }
    }

    fn fell_silent(&self, role: Role, pass: u32, seconds: u32) {
        if self.is_admitted() {
            let (who, unit) = (Peer(role), if seconds == 1 { "second" } else { "seconds" });
            let words = format_args!(
                "pass {pass}: the connection of {who} was closed: nothing came for {seconds} {unit}"
            );
            print_message(self.rt, &words);
        }
    }

    fn turned_away(&self, role: Role, pass: u32) {
        if let Some(connections) = self.connections {
            connections.turned_away(role, pass);
        }
        let Some(door) = door_at(&self.serve.doors, pass) else {
            return;
        };
        if self.is_stranger_admitted() {
            let address = DoorAddress(&door.address);
            let words = format_args!(
                "pass {pass}: {address}: a connection that speaks another protocol was closed"
            );
            print_message(self.rt, &words);
        }
    }

    fn line_read(&self, role: Role, pass: u32) {
        if let Some(connections) = self.connections {
            connections.line_read(role, pass);
        }
    }

    // Without a lock, since each stray line comes here, however many a peer sends.
    fn met_stray(&self, role: Role, pass: u32) {
        let so_far = self
            .strays
            .fetch_add(1, Ordering::Relaxed)
            .saturating_add(1);
        let minute = self.second() / 60;
        if self.stray_minute.swap(minute, Ordering::Relaxed) != minute {
            let (who, lines) = (Peer(role), if so_far == 1 { "line" } else { "lines" });
            let words = format_args!(
                "pass {pass}: {who}: a line of another door (L5); {so_far} such {lines} so far"
            );
            print_message(self.rt, &words);
        }
    }

    fn began(&self, role: Role, _pass: u32) {
        match self.connections {
            Some(connections) if self.is_first => connections.began(role),
            // All workers are counted already.
            Some(_) | None => {}
        }
    }

    fn started(&self, threads: ThreadCounts) {
        let all = threads.all();
        if all.threads < all.workers {
            print_message(self.rt, &ThreadsFound(threads));
            self.count_lacking(threads);
        }
        if self.is_first && threads.serves_each_role() {
            let listing = DoorListing {
                doors: &self.serve.doors,
                page_port: self.serve.page_port,
            };
            print_message(self.rt, &listing);
        }
    }

    fn connected(&self, role: Role, _pass: u32) {
        if let Some(connections) = self.connections {
            connections.connected(role);
        }
    }

    fn disconnected(&self, role: Role, _pass: u32) {
        if let Some(connections) = self.connections {
            connections.disconnected(role);
        }
    }

    fn left(&self, role: Role, _pass: u32) {
        match (self.connections, self.stop) {
            // A worker of the next day goes on in its place.
            (Some(_), Some(stop)) if stop.is_asked() => {}
            (Some(connections), _) => connections.left(role),
            (None, _) => {}
        }
    }
}
