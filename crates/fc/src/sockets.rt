//! The files of local sockets.
use std::alloc::{AllocError, Global};
use std::fmt::{self, Display};
use std::fs::{self, DirEntry, FileType, Files, Permissions};
use std::io::{self, ErrorKind};
use std::net::Net;
use std::os::unix::fs::{FileTypeExt, MetadataExt, PermissionsExt};
use std::os::unix::net::{UnixListener, UnixStream};

/// The most bytes of a socket's path. The system takes at most 107 bytes, and a socket is first bound at another path,
/// which is three bytes longer.
const MOST_BYTES: usize = 104;

/// The folder in which a socket is bound before its file is moved to this path. For the path `run/tills` the folder is
/// `run/.tills`.
#[derive(Clone, Copy)]
pub struct StagingFolder<'a>(pub &'a str);

impl Display for StagingFolder<'_> {
    fn fmt<W: fmt::Write>(&self, f: &mut fmt::Formatter<W>) -> fmt::Result {
        match self.0.rsplit_once('/') {
            Some((folder, name)) => write!(f, "{folder}/.{name}"),
            None => write!(f, ".{}", self.0),
        }
    }
}

/// A file that was found at a path: its kind, and which file it is, by its device and its inode on that device.
#[derive(Clone, Copy)]
struct Found {
    kind: FileType,
    device: u64,
    inode: u64,
}

/// Returns which file is at a path. If it is a link, the link itself is meant. The error is the system's: `NotFound` if
/// nothing is there.
fn find(rt: &HostRuntime, path: &str) -> io::Result<Found> {
    match fs::symlink_metadata(rt, path) {
        Ok(there) => Ok(Found {
            kind: there.file_type(),
            device: there.dev(),
            inode: there.ino(),
        }),
        Err(error) => Err(error),
    }
}

/// The file of a socket that this process bound. When this value is dropped, the file is removed, unless another file
/// is now at its path.
pub struct SocketFile<'a> {
    rt: &'a HostRuntime,
    path: &'a str,
    device: u64,
    inode: u64,
}

impl Drop for SocketFile<'_> {
    fn drop(self) {
        let SocketFile {
            rt,
            path,
            device,
            inode,
        } = self;
        if let Ok(there) = find(rt, path) {
            if there.kind.is_socket() && there.device == device && there.inode == inode {
                let _ = fs::remove_file(rt, path);
            }
        }
    }
}

/// A listening socket, and its file.
pub type Listening<'a> = (UnixListener, SocketFile<'a>);

/// Returns an error if somebody listens at a socket, or if that can't be found out. To find out, this connects to the
/// socket; a site that is served there counts this as a connection.
fn check_nobody_listens<H: Net>(host: &H, path: &str) -> io::Result<()> {
    match UnixStream::connect(host, path) {
        Ok(_) => Err(io::Error::new(ErrorKind::AddrInUse, "another process listens there")),
        Err(error) => match error.kind() {
            ErrorKind::ConnectionRefused | ErrorKind::NotFound => Ok(()),
            _ => Err(error),
        },
    }
}

/// Checks that a path is free: nothing is there, or a socket at which nobody listens. If it isn't free, or if that
/// can't be found out, returns an error.
fn check_path_free<H: Net>(rt: &HostRuntime, host: &H, path: &str) -> io::Result<()> {
    match find(rt, path) {
        Ok(there) if there.kind.is_socket() => check_nobody_listens(host, path),
        Ok(_) => Err(io::Error::other("another kind of file is there")),
        Err(error) if error.kind() == ErrorKind::NotFound => Ok(()),
        Err(error) => Err(error),
    }
}

/// Whether an entry of a folder is a socket with the name `s` or `o`.
fn is_staged(entry: io::Result<DirEntry>) -> io::Result<bool> {
    let entry = entry?;
    if entry.file_name() != "s" && entry.file_name() != "o" {
        return Ok(false);
    }
    match entry.file_type() {
        Ok(kind) => Ok(kind.is_socket()),
        Err(error) => Err(error),
    }
}

/// Whether a killed process could have left what is at the path `folder`: a folder with nothing but staged sockets.
fn is_leftover_folder(rt: &HostRuntime, folder: &str) -> io::Result<bool> {
    if !find(rt, folder)?.kind.is_dir() {
        return Ok(false);
    }
    for entry in fs::read_dir(rt, folder)? {
        match is_staged(entry) {
            Ok(true) => (),
            other => return other,
        }
    }
    Ok(true)
}

/// Removes the file at a path. If there is none, does nothing. The error is the system's.
fn remove(rt: &HostRuntime, path: &str) -> io::Result<()> {
    match fs::remove_file(rt, path) {
        Err(error) if error.kind() != ErrorKind::NotFound => Err(error),
        Ok(()) | Err(_) => Ok(()),
    }
}

/// Where a socket is bound before it has its own path: a folder, and in it the socket, and the one that it replaces.
#[derive(Drop)]
struct Staging {
    folder: String,
    socket: String,
    replaced: String,
}

impl Staging {
    fn beside(alloc: Global, path: &str) -> Result<Staging, AllocError> {
        let folder = StagingFolder(path);
        Ok(Staging {
            folder: format!(in alloc; "{folder}")?,
            socket: format!(in alloc; "{folder}/s")?,
            replaced: format!(in alloc; "{folder}/o")?,
        })
    }
}

fn remove_if_free<H: Net>(rt: &HostRuntime, host: &H, path: &str) -> io::Result<()> {
    check_path_free(rt, host, path)?;
    remove(rt, path)
}

/// If a killed process could have left the folder, perhaps with sockets in it, makes it anew, and returns true. It's an
/// error if somebody listens at one of these sockets.
fn replace_leftover_folder<H: Net>(
    rt: &HostRuntime,
    host: &H,
    staging: &Staging,
) -> io::Result<bool> {
    if !is_leftover_folder(rt, &staging.folder)? {
        return Ok(false);
    }
    remove_if_free(rt, host, &staging.socket)?;
    remove_if_free(rt, host, &staging.replaced)?;
    fs::remove_dir(rt, &staging.folder)?;
    rt.create_dir_with_mode(&staging.folder, 0o700)?;
    Ok(true)
}

/// Makes the folder, which nobody else may enter, also in place of one that a killed process could have left. Returns
/// false if anything else is there.
fn make_folder<H: Net>(rt: &HostRuntime, host: &H, staging: &Staging) -> io::Result<bool> {
    match rt.create_dir_with_mode(&staging.folder, 0o700) {
        Ok(()) => Ok(true),
        Err(error) if error.kind() == ErrorKind::AlreadyExists => {
            replace_leftover_folder(rt, host, staging)
        }
        Err(error) => Err(error),
    }
}

/// Removes the socket at `path`, at which nobody listens. It is looked at once more at `replaced`, where no other process
/// can put its own: one that was bound at `path` meanwhile has its name back, and is an error.
fn take_away<H: Net>(rt: &HostRuntime, host: &H, path: &str, replaced: &str) -> io::Result<()> {
    check_path_free(rt, host, path)?;
    match fs::rename(rt, path, replaced) {
        Ok(()) => (),
        Err(error) if error.kind() == ErrorKind::NotFound => return Ok(()),
        Err(error) => return Err(error),
    }
    let checked = check_path_free(rt, host, replaced);
    if checked.is_err() {
        let _ = fs::hard_link(rt, replaced, path);
    }
    let _ = fs::remove_file(rt, replaced);
    checked
}

/// Gives the socket's file a second name, `path`, also in place of a socket at which nobody listens. Anything else at
/// `path` is an error.
fn link_to<H: Net>(rt: &HostRuntime, host: &H, staging: &Staging, path: &str) -> io::Result<()> {
    match fs::hard_link(rt, &staging.socket, path) {
        Err(error) if error.kind() == ErrorKind::AlreadyExists => {
            take_away(rt, host, path, &staging.replaced)?;
            fs::hard_link(rt, &staging.socket, path)
        }
        put => put,
    }
}

/// Gives the file of a bound socket this mode, moves it to `path`, and returns it.
fn move_to<'a, H: Net>(
    rt: &'a HostRuntime,
    host: &H,
    staging: &Staging,
    path: &'a str,
    mode: u32,
) -> io::Result<SocketFile<'a>> {
    fs::set_permissions(rt, &staging.socket, Permissions::from_mode(mode))?;
    let there = find(rt, &staging.socket)?;
    link_to(rt, host, staging, path)?;
    // If the first name can't be removed, `file` is dropped, which removes the name `path`.
    let file = SocketFile {
        rt,
        path,
        device: there.device,
        inode: there.inode,
    };
    match fs::remove_file(rt, &staging.socket) {
        Ok(()) => Ok(file),
        Err(error) => Err(error),
    }
}

/// Binds a socket, and moves its file to `path`; removes the file if that fails. The result is never `None`.
fn bind_and_move<'a, H: Files + Net>(
    rt: &'a HostRuntime,
    host: &H,
    staging: &Staging,
    path: &'a str,
    mode: u32,
) -> io::Result<Option<Listening<'a>>> {
    // If this fails, any socket there was bound by another process, so it isn't removed.
    let listener = UnixListener::bind(host, &staging.socket)?;
    match move_to(rt, host, staging, path, mode) {
        Ok(file) => Ok(Some((listener, file))),
        Err(error) => {
            let _ = fs::remove_file(rt, &staging.socket);
            Err(error)
        }
    }
}

/// Makes the folder, binds a socket in it, moves its file to `path`, and removes the folder. Returns `None` if anything
/// but a leftover folder is at the folder's path.
fn bind_beside<'a, H: Files + Net>(
    rt: &'a HostRuntime,
    host: &H,
    path: &'a str,
    staging: &Staging,
    mode: u32,
) -> io::Result<Option<Listening<'a>>> {
    match make_folder(rt, host, staging) {
        Ok(true) => (),
        Ok(false) => return Ok(None),
        Err(error) => return Err(error),
    }
    let made = bind_and_move(rt, host, staging, path, mode);
    let _ = fs::remove_dir(rt, &staging.folder);
    made
}

/// Listens at `path`. The socket is bound in a folder beside `path` that nobody else may enter, and its file is then
/// moved to `path`. So the file has the mode `mode` as soon as others can see it.
///
/// - A socket at `path` at which nobody listens is replaced. Anything else at `path` is an error, and stays as it is.
/// - A folder that a killed process could have left beside `path` is replaced. It is an error if somebody listens at
///   the socket in it. If anything else has the folder's name, the result is `None`.
/// - A path of more than 104 bytes is an error.
pub fn listen_at<'a, H: Files + Net>(
    rt: &'a HostRuntime,
    host: &H,
    path: &'a str,
    mode: u32,
) -> io::Result<Option<Listening<'a>>> {
    if path.len() > MOST_BYTES {
        return Err(io::Error::other("the path has more than 104 bytes"));
    }
    check_path_free(rt, host, path)?;
    let staging = Staging::beside(rt.alloc(), path)?;
    bind_beside(rt, host, path, &staging, mode)
}
