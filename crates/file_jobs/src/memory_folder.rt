//! A folder of days in memory, for tests: what contracts say of a folder whose files are known, they say of this one.
ghost use Rattle.std.specs.Prelude.{◌≡◌, ◌++◌, ◌∷◌, IfOk, bytes_eq, option_map, string_bytes};
ghost use Rattle.std.specs.Map.{lookup};
ghost use Rattle.file_jobs.specs.Days.{file_name, span_of, texts_of};

use crate::files::FileIn;
use crate::folder::{DayFiles, Folder, Part, Span, with_name};
use crate::job_error::JobError;
use std::alloc::{AllocError, Global};
use std::io;

/// A file in memory, with a name as `000002.journal`.
#[derive(Clone, Copy)]
pub struct MemoryFile<'a> {
    pub name: &'a str,
    pub bytes: &'a [u8],
}

/// A folder that has these files and no others.
#[derive(Clone, Copy)]
pub struct MemoryFolder<'a> {
    /// What messages name. A day is closed there too, so not in memory.
    pub folder: Folder<'a>,
    pub files: &'a [MemoryFile<'a>],
}

impl FileIn for &[u8] {
    fn size(&self) -> Option<u64> {
        Some(self.len() as u64)
    }

    fn failure(&self) -> Option<&io::Error> {
        None
    }
}

impl<'a> DayFiles for MemoryFolder<'a> {
    type File = &'a [u8];

    ghost use Rattle.std.specs.Prelude.{Some};
    ghost use Rattle.file_jobs.specs.Days.{texts_of};

    ghost files = { λ s. Some (texts_of s.files.now) };

    fn as_folder(&self) -> Folder<'_> {
        self.folder
    }

    fn span(&self, _rt: &HostRuntime) -> Result<Option<Span>, JobError> {
        Ok(span_in(self.files))
    }

    fn open(&self, rt: &HostRuntime, day: u32, part: Part) -> Result<Option<&'a [u8]>, JobError> {
        let name = file_name(rt.alloc(), day, part)?;
        Ok(bytes_in(self.files, &name))
    }
}

fn span_in(files: &[MemoryFile<'_>]) -> Option<Span>
    ensures { result ≡ span_of (texts_of files.now) }
{
    let mut span = None;
    for file in files {
        span = with_name(span, file.name);
    }
    span
}

fn file_name(alloc: Global, day: u32, part: Part) -> Result<String, AllocError>
    ensures { IfOk result (λ name. string_bytes name ≡ file_name day part) }
{
    let ending = part.ending();
    format!(in alloc; "{day:06}.{ending}")
}

fn bytes_in<'a>(files: &[MemoryFile<'a>], name: &str) -> Option<&'a [u8]>
    ensures { option_map (λ bytes. bytes.now) result ≡ lookup (bytes_eq name.now) (texts_of files.now) }
{
    for file in files {
        if name == file.name {
            return Some(file.bytes);
        }
    }
    None
}
