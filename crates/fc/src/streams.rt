//! The standard streams that are closed when the program starts.
use std::fs::File;
use std::io;
use std::os::fd::{AsFd, IntoRawFd};

/// What is opened in the place of a closed stream.
pub const NOTHING: &str = "/dev/null";

/// The system's number for a descriptor that isn't open.
const EBADF: i32 = 9;

fn is_closed<S: AsFd>(stream: &S) -> bool {
    match stream.as_fd().try_clone_to_owned() {
        Ok(_) => false,
        Err(error) => error.raw_os_error() == Some(EBADF),
    }
}

/// Opens `/dev/null` in the place of each standard stream that is closed, so that no message is written into a file
/// that got its number. The stream stays as useless as it was: standard input is opened to be written to, and the
/// others to be read. No other file may have been opened before, since the system gives each file the lowest number
/// that is free.
pub fn fill_closed_streams(rt: &HostRuntime) -> io::Result<()> {
    if is_closed(&rt.stdin()) {
        hold(File::options().write(true).open(rt, NOTHING)?);
    }
    if is_closed(&rt.stdout()) {
        hold(File::open(rt, NOTHING)?);
    }
    if is_closed(&rt.stderr()) {
        hold(File::open(rt, NOTHING)?);
    }
    Ok(())
}

/// Leaves a file open until the program ends.
fn hold(file: File) {
    let _ = file.into_raw_fd();
}
