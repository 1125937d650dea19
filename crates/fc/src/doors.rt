//! The doors of a served site: the ports and sockets where its tills, its dispensers and the owner connect.
use crate::sockets::{Listening, SocketFile, StagingFolder, listen_at};
use file_jobs::{FAILED, JobError, Place};
use site_config::{Address, Door};
use site_server::{Listener, OpenDoor};
use std::alloc::{AllocError, Global};
use std::fmt::{self, Display};
use std::fs::Files;
use std::io::{self, ErrorKind};
use std::net::{Net, TcpListener, TcpStream};
use till_request::Role;

/// The open doors of a site, and the files of those doors that are local sockets.
#[derive(Drop)]
pub struct BoundDoors<'a> {
    pub doors: Vec<OpenDoor>,
    pub files: Vec<SocketFile<'a>>,
}

/// The name that is printed for a door with this role, such as `tills` or `points 1 3`.
#[derive(Clone, Copy)]
pub struct Name(pub Role);

impl Display for Name {
    fn fmt<W: fmt::Write>(&self, f: &mut fmt::Formatter<W>) -> fmt::Result {
        match self.0 {
            Role::Till => f.write_str("tills"),
            Role::Dispenser => f.write_str("dispensers"),
            Role::Owner | Role::DaysOwner | Role::All => f.write_str("owner"),
            Role::OneTill(number, _) => write!(f, "till {number}"),
            Role::SomePoints(points, _) => write_points(f, points),
        }
    }
}

/// Bit p of `points`, counted from 0, is the bit of point p + 1.
fn write_points<W: fmt::Write>(f: &mut fmt::Formatter<W>, points: u32) -> fmt::Result {
    f.write_str("points")?;
    for place in 0..32u32 {
        if (points >> place) & 1 == 1 {
            write!(f, " {}", place + 1)?;
        }
    }
    Ok(())
}

fn are_ports(doors: &[Door]) -> bool {
    for door in doors {
        if let Address::Socket(_) = door.address {
            return false;
        }
    }
    true
}

/// The address of a door, as it is printed: `127.0.0.1:` and a port, or the path of a socket.
#[derive(Clone, Copy)]
pub struct DoorAddress<'a>(pub &'a Address);

impl Display for DoorAddress<'_> {
    fn fmt<W: fmt::Write>(&self, f: &mut fmt::Formatter<W>) -> fmt::Result {
        write_address(f, self.0, false)
    }
}

/// Writes one address of a `DoorListing`. If all doors are ports (`are_ports`), the listing has `127.0.0.1:` once, at
/// its start.
fn write_address<W: fmt::Write>(
    f: &mut fmt::Formatter<W>,
    address: &Address,
    are_ports: bool,
) -> fmt::Result {
    match address {
        Address::Port(port) if are_ports => write!(f, "{port}"),
        Address::Port(port) => write!(f, "127.0.0.1:{port}"),
        Address::Socket(path) => f.write_str(path),
    }
}

/// The list of a site's open doors, and last its page port, if it has one.
#[derive(Clone, Copy)]
pub struct DoorListing<'a> {
    pub doors: &'a [Door],
    pub page_port: Option<u32>,
}

impl Display for DoorListing<'_> {
    fn fmt<W: fmt::Write>(&self, f: &mut fmt::Formatter<W>) -> fmt::Result {
        let are_ports = are_ports(self.doors);
        f.write_str(if are_ports {
            "serving on 127.0.0.1:"
        } else {
            "serving:"
        })?;
        let mut between = " ";
        for door in self.doors {
            write!(f, "{between}{} ", Name(door.role))?;
            write_address(f, &door.address, are_ports)?;
            between = ", ";
        }
        if let Some(port) = self.page_port {
            f.write_str(", page ")?;
            write_address(f, &Address::Port(port), are_ports)?;
        }
        Ok(())
    }
}

/// To a socket for `Owner` or `All` only the program's own user may connect, to the others the user's group too.
fn mode_of(role: Role) -> u32 {
    match role {
        Role::Owner | Role::DaysOwner | Role::All => 0o600,
        Role::Till | Role::Dispenser | Role::OneTill(..) | Role::SomePoints(..) => 0o660,
    }
}

fn refuse_socket(alloc: Global, config_name: &str, door: &Door, error: io::Error) -> JobError {
    if error.kind() == ErrorKind::OutOfMemory && error.raw_os_error().is_none() {
        return JobError::OutOfMemory;
    }
    let words = format_args!("{}: {error}", door.place);
    JobError::at(alloc, Place::of(config_name), &words, FAILED)
}

/// Makes the error for a socket in a folder that can't be made, since something else is there.
fn refuse_folder(
    alloc: Global,
    config_name: &str,
    door: &Door,
    folder: StagingFolder<'_>,
) -> JobError {
    let words = format_args!("{}: {folder} is in the way", door.place);
    JobError::at(alloc, Place::of(config_name), &words, FAILED)
}

pub fn refuse_port(alloc: Global, port: u32, error: io::Error) -> JobError {
    JobError::message(alloc, &format_args!("port {port}: {error}"), FAILED)
}

impl<'a> BoundDoors<'a> {
    fn add(&mut self, door: &Door, listener: Listener) -> Result<(), AllocError> {
        self.doors.push(OpenDoor {
            role: door.role,
            listener,
            workers: door.workers,
            lines_per_second: door.lines_per_second,
        })?;
        Ok(())
    }

    fn add_socket(&mut self, door: &Door, listening: Listening<'a>) -> Result<(), AllocError> {
        let (listener, file) = listening;
        self.files.push(file)?;
        self.add(door, Listener::Socket(listener))
    }

    fn open<H: Files + Net<Listener = TcpListener, Stream = TcpStream>>(
        &mut self,
        rt: &'a HostRuntime,
        host: &H,
        config_name: &str,
        door: &'a Door,
    ) -> Result<(), JobError> {
        match &door.address {
            Address::Port(port) => match Listener::on_port(host, *port) {
                Ok(listener) => Ok(self.add(door, listener)?),
                Err(error) => Err(refuse_port(rt.alloc(), *port, error)),
            },
            Address::Socket(path) => match listen_at(rt, host, path, mode_of(door.role)) {
                Ok(Some(listening)) => Ok(self.add_socket(door, listening)?),
                Ok(None) => Err(refuse_folder(rt.alloc(), config_name, door, StagingFolder(path))),
                Err(error) => Err(refuse_socket(rt.alloc(), config_name, door, error)),
            },
        }
    }

    /// After a door that can't be opened no further one is.
    fn open_all<H: Files + Net<Listener = TcpListener, Stream = TcpStream>>(
        &mut self,
        rt: &'a HostRuntime,
        host: &H,
        config_name: &str,
        doors: &'a [Door],
    ) -> Result<(), JobError> {
        for door in doors {
            self.open(rt, host, config_name, door)?;
        }
        Ok(())
    }
}

/// Opens `doors` in their order. If one can't be opened, none of these doors stays open.
pub fn open_doors<'a, H: Files + Net<Listener = TcpListener, Stream = TcpStream>>(
    rt: &'a HostRuntime,
    host: &H,
    config_name: &str,
    doors: &'a [Door],
) -> Result<BoundDoors<'a>, JobError> {
    let mut opened = BoundDoors {
        doors: Vec::new(rt.alloc()),
        files: Vec::new(rt.alloc()),
    };
    match opened.open_all(rt, host, config_name, doors) {
        Ok(()) => Ok(opened),
        Err(job_error) => Err(job_error),
    }
}
