//! Tests of serving over the loopback interface. The tests themselves connect as till, dispenser and owner.
use day_report::Sums;
use line_session::Doors;
use site_core::{Config, Watched};
use site_server::{
    AtOnce, Crew, Listener, NoJournal, NoWatcher, Notices, OpenDoor, Serving, ServingHooks,
    SessionFailure, SharedDoor, SocketDoors, Stream, ThreadCounts,
};
use std::alloc::{AllocError, Global};
use std::io;
use std::io::{BufRead, BufReader, Write};
use std::net::{Net, SocketAddr, TcpListener, TcpStream};
use std::sync::Wait;
use std::test::Fail;
use std::thread::{Threads, join};
use std::time::Clock;
use till_request::{Role, Stray};

/// A receiver of notices that ignores them.
#[derive(Drop)]
pub struct Silent;

impl Notices for Silent {
    ghost failure_reported = { λ _ _ _. Unit {0} };

    ghost end_reported = { λ _ _. Unit {0} };

    ghost stranger_reported = { λ _ _. Unit {0} };

    ghost line_reported = { λ _ _. Unit {0} };

    ghost stray_reported = { λ _ _. Unit {0} };

    fn accept_failed(&self, _role: Role, _pass: u32, _error: &io::Error) {}

    fn session_failed(&self, _role: Role, _pass: u32, _breach: SessionFailure) {}

    fn fell_silent(&self, _role: Role, _pass: u32, _seconds: u32) {}

    fn turned_away(&self, _role: Role, _pass: u32) {}

    fn line_read(&self, _role: Role, _pass: u32) {}

    fn met_stray(&self, _role: Role, _pass: u32) {}

    fn began(&self, _role: Role, _pass: u32) {}

    fn started(&self, _threads: ThreadCounts) {}

    fn connected(&self, _role: Role, _pass: u32) {}

    fn disconnected(&self, _role: Role, _pass: u32) {}

    fn left(&self, _role: Role, _pass: u32) {}
}

/// Opens a free port.
pub fn port<R: Net<Listener = TcpListener, Stream = TcpStream>>(rt: &R) -> Result<Listener, Fail> {
    match Listener::on_port(rt, 0) {
        Ok(listener) => Ok(listener),
        Err(_) => Err(Fail::from("a port")),
    }
}

/// Makes a new site with one till and one fuelling point. Releases are decided by slot 0, presets by slot 1, and prices
/// by slot 2.
pub fn site(alloc: Global) -> Result<Watched<Sums>, Fail> {
    let points = vec![in alloc; (0, 1)]?;
    let prices = [1799, 1849, 0, 0, 0, 0, 0, 0];
    let config = Config::new(1, 2, prices, points, [(0, 0); 32]).ok_or("a configuration")?;
    Ok(Watched::start(alloc, config, Sums::new())?)
}

/// The addresses to which tills, dispensers and the owner connect.
#[derive(Clone, Copy)]
struct Addresses {
    till: SocketAddr,
    dispenser: SocketAddr,
    owner: SocketAddr,
}

pub fn address_of(listener: &Listener) -> io::Result<SocketAddr> {
    match listener {
        Listener::Port(listener) => listener.local_addr(),
        Listener::Socket(_) => Err(io::Error::from(io::ErrorKind::Unsupported)),
    }
}

/// The listeners of the workers for a till, for dispensers and for the owner.
#[derive(Drop)]
struct Ports {
    till: Listener,
    dispenser: Listener,
    owner: Listener,
}

fn open_ports<R: Net<Listener = TcpListener, Stream = TcpStream>>(rt: &R) -> Result<Ports, Fail> {
    Ok(Ports {
        till: port(rt)?,
        dispenser: port(rt)?,
        owner: port(rt)?,
    })
}

fn addresses_of(ports: &Ports) -> io::Result<Addresses> {
    Ok(Addresses {
        till: address_of(&ports.till)?,
        dispenser: address_of(&ports.dispenser)?,
        owner: address_of(&ports.owner)?,
    })
}

/// Makes three doors with one worker each: for till 1, for dispensers and for the owner.
fn doors_at(alloc: Global, ports: Ports) -> Result<Vec<OpenDoor>, AllocError> {
    let mut doors = Vec::new(alloc);
    for (role, listener) in [
        (Role::OneTill(1, Stray::BadLine), ports.till),
        (Role::Dispenser, ports.dispenser),
        (Role::Owner, ports.owner),
    ] {
        doors.push(OpenDoor {
            role,
            listener,
            workers: 1,
            lines_per_second: 0,
        })?;
    }
    Ok(doors)
}

/// Connects to the address `at`, sends `lines`, and appends the next `answers` answers to `heard`.
fn ask<R: Net<Listener = TcpListener, Stream = TcpStream>>(
    rt: &R,
    alloc: Global,
    at: SocketAddr,
    lines: &str,
    answers: u32,
    heard: &mut String,
) -> io::Result<()> {
    let mut stream = TcpStream::connect(rt, at)?;
    stream.write_all(lines.as_bytes())?;
    let mut reader = BufReader::new(alloc, stream)?;
    for _ in 0..answers {
        reader.read_line(heard)?;
    }
    Ok(())
}

/// Sends lines as three peers in turn. The owner loads a program, a till opens a fuelling point and asks for a release,
/// and the dispenser asks what it must do. Returns the answers that they get.
fn in_turn<R: Net<Listener = TcpListener, Stream = TcpStream>>(
    rt: &R,
    alloc: Global,
    at: Addresses,
) -> io::Result<String> {
    let mut heard = String::new(alloc);
    for (address, lines, answers) in [
        (at.owner, "load 0 0 79101800000000009500000000000000\n", 1),
        (at.till, "till 1 open 1\ntill 1 release 1 8000\n", 2),
        (at.dispenser, "disp 1 order\n", 1),
    ] {
        ask(rt, alloc, address, lines, answers, &mut heard)?;
    }
    Ok(heard)
}

/// Makes what is needed to serve a new site, with one connection for each worker.
fn serving(alloc: Global, ports: Ports) -> Result<Serving, Fail> {
    let crew = Crew::new(alloc, doors_at(alloc, ports)?, None)?.ok_or("a crew")?;
    Ok(Serving {
        watched: site(alloc)?,
        journal: NoJournal,
        crew,
        day: 1,
        connections: Some(1),
        idle_seconds: 0,
        ready_entries: 0,
    })
}

/// Serves a site while `in_turn` sends lines as three peers. Returns how many connections ended without fault, how many
/// entries the closed site has, and the answers that the peers got.
fn one_of_each<R: Net<Listener = TcpListener, Stream = TcpStream> + Threads + Wait + Clock + Sync>(
    rt: &R,
    alloc: Global,
    serving: Serving,
    at: Addresses,
) -> Result<(u64, usize, String), Fail> {
    let outside = ServingHooks {
        notices: &Silent,
        release: &AtOnce,
        watcher: &NoWatcher,
    };
    let (served, heard) = join(
        rt,
        || serving.run(rt, alloc, outside),
        || in_turn(rt, alloc, at),
    );
    match served {
        Ok(served) => Ok((served.clean, served.site.history().len(), heard?)),
        Err(_) => Err(Fail::from("a closed site")),
    }
}

#[test]
fn serve_on_loopback(rt: HostRuntime) -> Result<(), Fail> {
    let ports = open_ports(&rt)?;
    let at = addresses_of(&ports)?;
    let serving = serving(rt.alloc(), ports)?;
    let (clean, entries, heard) = one_of_each(&rt, rt.alloc(), serving, at)?;
    let wanted = "1 version 1\n2 done\n3 granted 8000 by 1\n4 order authorise 8000\n";
    assert!(rt; heard.as_str() == wanted && clean == 3 && entries == 4);
    Ok(())
}

/// Returns whether the socket of a till's connection sends small answers without delay (`TCP_NODELAY`).
fn leaves_at_once<'x, R: Net<Listener = TcpListener, Stream = TcpStream> + Wait + Clock>(
    rt: &'x R,
    alloc: Global,
    door: &'x SharedDoor,
) -> io::Result<bool> {
    let _peer = TcpStream::connect(rt, address_of(&door.listener)?)?;
    let mut doors = SocketDoors::new(rt, alloc, door, &Silent, Role::Till, 1, 0, 1, None);
    match doors.next() {
        Ok((_input, output)) => match output.writer.stream {
            Stream::Port(stream) => stream.nodelay(),
            Stream::Socket(_stream) => Ok(false),
        },
        Err(_) => Ok(false),
    }
}

#[test]
fn answers_leave_without_a_delay(rt: HostRuntime) -> Result<(), Fail> {
    let door = SharedDoor::new(rt.alloc(), port(&rt)?, 0, None);
    assert!(rt; leaves_at_once(&rt, rt.alloc(), &door)?);
    Ok(())
}
