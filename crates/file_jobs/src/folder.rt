//! The folder of a station's days. A day has up to three files there: its journal, the opening that it begins with, and
//! the configuration of its site. Their names begin with the day's number, as in `000002.journal`.
ghost use Rattle.std.specs.Prelude.{◌≡◌, ◌++◌, [], true, false, IfOk, IfErr, codes, string_bytes};
ghost use Rattle.file_jobs.specs.StandardInput.{is_input};
ghost use Rattle.file_jobs.specs.JobErrors.{Ends};
ghost use Rattle.file_jobs.specs.Days.{ending_of, path_of, without_zeros, day_of, shows_day, day_named, with_day};
ghost use Rattle.file_jobs.specs.Days.{with_found, day_after};

use crate::files::{FileIn, Source, is_input, open_regular, read_all};
use crate::job_error::{JobError, at_file};
use crate::statuses::USAGE;
use std::alloc::AllocError;
use std::fs::{self, File, read_dir};
use std::io::{self, ErrorKind, Write};
use till_request::numbers::number_u32;

/// One of the three files of a day.
#[derive(Clone, Copy)]
pub enum Part {
    Config,
    Opening,
    Journal,
}

impl Part {
    pub(crate) fn ending(self) -> &'static str
        ensures { result.now ≡ ending_of self }
    {
        match self {
            Part::Config => "toml",
            Part::Opening => "opening",
            Part::Journal => "journal",
        }
    }
}

/// The numbers of the oldest and of the newest day.
#[derive(Clone, Copy)]
pub struct Span {
    pub oldest: u32,
    pub newest: u32,
}

/// The folder of a station's days.
#[derive(Clone, Copy)]
pub struct Folder<'a> {
    pub path: &'a str,
}

impl<'a> Folder<'a> {
    /// Returns the folder that an argument names, which must not be standard input.
    pub fn named(rt: &HostRuntime, word: &'a str) -> Result<Folder<'a>, JobError>
        // proved folder, input, named: Standard input is no folder: status 2
        ensures folder { IfOk result (λ folder. folder.path.now ≡ word.now) }
        ensures input { IfErr result (λ job_error. (is_input word.now ≡ true)
            × Ends 2 [] job_error) }
        ensures named { IfOk result (λ _. is_input word.now ≡ false) }
    {
        if is_input(word) {
            let words = "--days wants a folder, and - is standard input";
            return Err(JobError::message(rt.alloc(), &words, USAGE));
        }
        Ok(Folder { path: word })
    }

    /// Returns the path of a day's file, whether the folder has it or not.
    pub fn file(self, rt: &HostRuntime, day: u32, part: Part) -> Result<String, AllocError>
        // proved: It gives the path of a day's file
        ensures { IfOk result (λ path. string_bytes path ≡ path_of self.entry.path.now day part) }
    {
        let (path, ending) = (self.path, part.ending());
        format!(in rt.alloc(); "{path}/{day:06}.{ending}")
    }

    pub fn has(self, rt: &HostRuntime, day: u32, part: Part) -> Result<bool, JobError>
        ensures { IfErr result (Ends 3 []) }
    {
        let path = self.file(rt, day, part)?;
        at_file(rt.alloc(), &path, fs::exists(rt, path.as_str()))
    }

    /// Writes files of days: writes and syncs all of them under other names, and then renames one after another in this
    /// order. So if there is no room for one of them, the folder stays as it was, and even if the program is stopped
    /// meanwhile, each file is the whole new one or what was there before, and new only if those before it are. What
    /// has one of the other names is removed first, so nothing is written through a link.
    pub fn put(self, rt: &HostRuntime, files: &[DayFile<'_>]) -> Result<(), JobError>
        ensures { IfErr result (Ends 3 []) }
    {
        match self.write_and_rename(rt, files) {
            Ok(()) => Ok(()),
            Err(job_error) => {
                self.remove_asides(rt, files);
                Err(job_error)
            }
        }
    }

    /// Writes `file` like `put`, unless the folder has it with these very bytes: then only syncs it, for which no room
    /// is needed.
    pub fn put_if_other(self, rt: &HostRuntime, file: DayFile<'_>) -> Result<(), JobError>
        ensures { IfErr result (Ends 3 []) }
    {
        let path = self.file(rt, file.day, file.part)?;
        match is_synced_as(rt, &path, file.bytes) {
            Ok(true) => self.sync(rt),
            Ok(false) | Err(_) => self.put(rt, &[file]),
        }
    }

    fn write_and_rename(self, rt: &HostRuntime, files: &[DayFile<'_>]) -> Result<(), JobError>
        ensures { IfErr result (Ends 3 []) }
    {
        for file in files {
            self.write_aside(rt, *file)?;
        }
        for file in files {
            self.put_in_place(rt, *file)?;
        }
        Ok(())
    }

    /// Writes `file` under its other name, and syncs it.
    fn write_aside(self, rt: &HostRuntime, file: DayFile<'_>) -> Result<(), JobError>
        ensures { IfErr result (Ends 3 []) }
    {
        let path = self.file(rt, file.day, file.part)?;
        let aside = other_name(rt, &path)?;
        at_file(rt.alloc(), &aside, remove(rt, &aside))?;
        at_file(rt.alloc(), &path, write_new(rt, &aside, file.bytes))
    }

    /// Gives a file that `write_aside` wrote its own name, and syncs the folder.
    fn put_in_place(self, rt: &HostRuntime, file: DayFile<'_>) -> Result<(), JobError>
        ensures { IfErr result (Ends 3 []) }
    {
        let path = self.file(rt, file.day, file.part)?;
        let aside = other_name(rt, &path)?;
        at_file(rt.alloc(), &path, fs::rename(rt, &aside, &path))?;
        self.sync(rt)
    }

    /// Removes what `write_aside` wrote. What can't be removed is removed by the next `put` of that file.
    fn remove_asides(self, rt: &HostRuntime, files: &[DayFile<'_>]) {
        for file in files {
            if let Ok(path) = self.file(rt, file.day, file.part) {
                if let Ok(aside) = other_name(rt, &path) {
                    let _ = fs::remove_file(rt, &aside);
                }
            }
        }
    }

    fn sync(self, rt: &HostRuntime) -> Result<(), JobError>
        ensures { IfErr result (Ends 3 []) }
    {
        at_file(rt.alloc(), self.path, synced(rt, self.path))
    }
}

/// A folder of days, as it is read.
pub trait DayFiles {
    type File: FileIn + Drop;

    ghost use Rattle.std.specs.Prelude.{◌≡◌, [], List, ℕ, Option, Some, IfOk, IfErr, option_map};
    ghost use Rattle.file_jobs.specs.JobErrors.{Ends};
    ghost use Rattle.file_jobs.specs.Days.{FolderText, file_of, span_of};

    /// For proofs: the folder's files, or `None` if proofs don't know them.
    ghost files: { Self → Option FolderText };

    /// Returns the folder that messages name, and in which a day is closed.
    fn as_folder(&self) -> Folder<'_>;

    /// Returns the oldest and the newest of the days that have a journal or an opening.
    fn span(&self, rt: &HostRuntime) -> Result<Option<Span>, JobError>
        ensures span { (texts : FolderText) → files self.now ≡ Some texts → IfOk result (λ span. span ≡ span_of texts) }
        ensures refused { IfErr result (Ends 3 []) };

    /// Opens a day's file, if there is one; it must be a regular file.
    fn open(&self, rt: &HostRuntime, day: u32, part: Part) -> Result<Option<Self::File>, JobError>
        ensures file { (texts : FolderText) → files self.now ≡ Some texts → IfOk result (λ file.
            option_map Self.File.remaining file ≡ option_map (λ text. Some text) (file_of texts day part)) }
        ensures refused { IfErr result (Ends 3 []) };
}

impl DayFiles for Folder<'_> {
    type File = Source;

    ghost use Rattle.std.specs.Prelude.{None};

    /// For proofs: no contract knows what the system's files hold.
    ghost files = { λ _. None };

    fn as_folder(&self) -> Folder<'_> {
        *self
    }

    fn span(&self, rt: &HostRuntime) -> Result<Option<Span>, JobError> {
        at_file(rt.alloc(), self.path, span_of(rt, self.path))
    }

    fn open(&self, rt: &HostRuntime, day: u32, part: Part) -> Result<Option<Source>, JobError> {
        let path = self.file(rt, day, part)?;
        match Source::open_regular(rt, &path) {
            Ok(source) => Ok(Some(source)),
            Err(error) if error.kind() == ErrorKind::NotFound => Ok(None),
            Err(error) => Err(JobError::of_file(rt.alloc(), &path, &error)),
        }
    }
}

/// A file of a day that is to be written.
#[derive(Clone, Copy)]
pub struct DayFile<'a> {
    pub day: u32,
    pub part: Part,
    pub bytes: &'a [u8],
}

/// Returns the name under which a file is written before it is renamed to `path`.
fn other_name(rt: &HostRuntime, path: &str) -> Result<String, AllocError>
    ensures { IfOk result (λ name. string_bytes name ≡ path.now ++ codes ".new") }
{
    format!(in rt.alloc(); "{path}.new")
}

/// Removes the file or the link at `path`, if there is one.
fn remove(rt: &HostRuntime, path: &str) -> io::Result<()> {
    match fs::remove_file(rt, path) {
        Err(error) if error.kind() != ErrorKind::NotFound => Err(error),
        Ok(()) | Err(_) => Ok(()),
    }
}

/// Writes and syncs a file at `path`, where nothing may be yet.
fn write_new(rt: &HostRuntime, path: &str, bytes: &[u8]) -> io::Result<()> {
    let mut file = File::create_new(rt, path)?;
    file.write_all(bytes)?;
    file.sync_all()
}

fn synced(rt: &HostRuntime, folder: &str) -> io::Result<()> {
    File::open(rt, folder)?.sync_all()
}

/// Returns whether a regular file with these very bytes is at `path`, and no link. If so, has synced it.
fn is_synced_as(rt: &HostRuntime, path: &str, bytes: &[u8]) -> io::Result<bool> {
    if !fs::symlink_metadata(rt, path)?.is_file() {
        return Ok(false);
    }
    let mut options = File::options();
    let file = open_regular(rt, path, options.read(true))?;
    let mut kept = Vec::new(rt.alloc());
    read_all(&mut Source::of(file.try_clone()?), &mut kept, bytes.len())?;
    if kept.as_slice() != bytes {
        return Ok(false);
    }
    file.sync_all()?;
    Ok(true)
}

fn span_of(rt: &HostRuntime, folder: &str) -> io::Result<Option<Span>> {
    let mut span = None;
    for entry in read_dir(rt, folder)? {
        match entry {
            Ok(entry) => span = with_name(span, entry.file_name()),
            // A name that isn't text names no file of a day.
            Err(error) if error.kind() == ErrorKind::InvalidFilename => (),
            Err(error) => return Err(error),
        }
    }
    Ok(span)
}

/// Adds to `span` the day whose journal or opening is called `name`, if it is a day's.
pub(crate) fn with_name(span: Option<Span>, name: &str) -> Option<Span>
    ensures { result ≡ with_found span (day_named name.now) }
{
    match day_named(name) {
        Some(day) => Some(with_day(span, day)),
        None => span,
    }
}

fn with_day(span: Option<Span>, day: u32) -> Span
    ensures { result ≡ with_day span day }
{
    match span {
        None => Span {
            oldest: day,
            newest: day,
        },
        Some(span) => Span {
            oldest: span.oldest.min(day),
            newest: span.newest.max(day),
        },
    }
}

fn day_named(name: &str) -> Option<u32>
    ensures { result ≡ day_named name.now }
{
    let (digits, ending) = name.split_once('.')?;
    if !shows_day(ending) {
        return None;
    }
    day_of(digits.as_bytes())
}

/// Returns whether `ending`, behind the `.` in a file's name, is that of a journal or of an opening.
fn shows_day(ending: &str) -> bool
    ensures { result ≡ shows_day ending.now }
{
    ending == Part::Journal.ending() || ending == Part::Opening.ending()
}

/// Returns the day that exactly six digits spell, or more than six that don't begin with 0; not 0, and below 2^32.
fn day_of(digits: &[u8]) -> Option<u32>
    ensures { result ≡ day_of digits.now }
{
    if digits.len() == 6 {
        return number_u32(without_zeros(digits)).ok();
    }
    if digits.len() > 6 {
        return number_u32(digits).ok();
    }
    None
}

fn without_zeros(digits: &[u8]) -> &[u8]
    ensures { result.now ≡ without_zeros digits.now }
{
    for (at, digit) in digits.iter().enumerate() {
        if *digit != b'0' {
            return &digits[at..];
        }
    }
    &[]
}

pub fn day_after(day: u32, newest: u32) -> Option<u32>
    ensures { result ≡ day_after day newest }
{
    if day < newest { Some(day + 1) } else { None }
}
