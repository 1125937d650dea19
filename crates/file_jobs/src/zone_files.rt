//! The files of time zones, which the system has.

use crate::files::Source;
use crate::{JobError, Place};
use jiff_core::Error;
use jiff_tz::Tzif;
use std::env::{self, VarError};
use std::fmt::Display;
use std::io::{self, ErrorKind, Read};

/// The folder of the zones' files, unless the environment names another by `TZDIR`.
const ZONES: &str = "/usr/share/zoneinfo";

const MOST_BYTES: u64 = 65_536;

fn zones_folder(rt: &HostRuntime) -> Result<String, JobError> {
    match env::var(rt, "TZDIR") {
        Ok(folder) if !folder.is_empty() => Ok(folder),
        Err(VarError::OutOfMemory) => Err(JobError::OutOfMemory),
        Ok(_) | Err(_) => Ok(String::from_str(rt.alloc(), ZONES)?),
    }
}

fn bytes_of(rt: &HostRuntime, path: &str) -> io::Result<Vec<u8>> {
    let mut bytes = Vec::new(rt.alloc());
    let mut source = Source::open_regular(rt, path)?.take(MOST_BYTES + 1);
    source.read_to_end(&mut bytes)?;
    if bytes.len() as u64 > MOST_BYTES {
        return Err(io::Error::other("longer than 65536 bytes"));
    }
    Ok(bytes)
}

fn refuse<D: Display>(rt: &HostRuntime, config_name: &str, path: &str, words: &D) -> JobError {
    let words = format_args!("serve.zone: {path}: {words}");
    JobError::refused(rt.alloc(), Place::of(config_name), &words, "K3")
}

/// Reads the rules of the zone with this name, which the configuration in the file `config_name` names; `None` for UTC,
/// which needs no file. The error is that it has no file, or no good one (K3).
pub fn rules_of(rt: &HostRuntime, config_name: &str, name: &str) -> Result<Option<Tzif>, JobError> {
    if name == "UTC" {
        return Ok(None);
    }
    let path = format!(in rt.alloc(); "{}/{name}", zones_folder(rt)?)?;
    let bytes = match bytes_of(rt, &path) {
        Ok(bytes) => bytes,
        Err(error) if is_out_of_memory(&error) => return Err(JobError::OutOfMemory),
        Err(error) => return Err(refuse(rt, config_name, &path, &error)),
    };
    match Tzif::parse(rt.alloc(), None, &bytes) {
        Ok(rules) => Ok(Some(rules)),
        Err(Error::OutOfMemory) => Err(JobError::OutOfMemory),
        Err(_) => Err(refuse(rt, config_name, &path, &"not the file of a time zone")),
    }
}

/// Whether memory of the program ran out, and not of the system.
fn is_out_of_memory(error: &io::Error) -> bool {
    error.kind() == ErrorKind::OutOfMemory && error.raw_os_error().is_none()
}
