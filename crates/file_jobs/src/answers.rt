//! The answers of a play, in a buffer. All of them are written before more of the script is read.
ghost use Rattle.std.specs.Prelude.{◌≡◌, ◌⊎◌, ◌≤◌, [], Ok, Err, IfOk, MatchResult, length};
ghost use Rattle.file_jobs.specs.JobErrors.{Ends};

use crate::progress::Progress;
use crate::{JobError, Outlet, Source};
use line_session::{Ended, SessionFault};
use std::alloc::{AllocError, Global};
use std::cell::RefCell;
use std::io::{self, BufWriter, Error, ErrorKind, Printer, Read, Write};

type Waiting<'a> = BufWriter<Outlet<Printer<'a, HostRuntime>>>;

/// The answers of a play that are buffered for standard output. They are written before more of the script is read, so
/// that each answer appears before the next line is awaited. Nothing is written after a failed write.
#[derive(Drop)]
pub struct Answers<'a> {
    waiting: RefCell<Waiting<'a>>,
}

impl<'a> Answers<'a> {
    pub fn new(rt: &'a HostRuntime) -> Result<Answers<'a>, AllocError> {
        match BufWriter::new(rt.alloc(), Outlet::new(io::writer(rt))) {
            Ok(waiting) => Ok(Answers {
                waiting: RefCell::new(waiting),
            }),
            Err(_) => Err(AllocError),
        }
    }

    fn flush(&self) -> io::Result<()> {
        match self.waiting.try_borrow_mut() {
            Ok(mut waiting) => match waiting.flush() {
                Ok(()) => Ok(()),
                Err(error) => Err(waiting.get_mut().keep(error)),
            },
            // This never happens: each method ends its borrow of the buffer before it returns.
            Err(_) => Err(Error::from(ErrorKind::WouldBlock)),
        }
    }

    /// Appends a piece of an answer, and returns how many of its bytes were taken.
    fn add(&self, piece: &[u8]) -> io::Result<usize>
        ensures { IfOk result (λ count. count ≤ length piece.now) }
    {
        match self.waiting.try_borrow_mut() {
            Ok(mut waiting) => match waiting.get_ref().failure() {
                Some(error) => Err(Error::from(error.kind())),
                None => waiting.write(piece),
            },
            Err(_) => Err(Error::from(ErrorKind::WouldBlock)),
        }
    }

    /// Writes the answers that are still buffered. A play that ended well then ends with `Write` if they can't be
    /// written.
    pub fn end(&self, ended: Result<Ended, SessionFault>) -> Result<Ended, SessionFault>
        // proved: A play's end is as it was, or that a write failed
        ensures { MatchResult ended (λ e. (result ≡ Ok e) ⊎ (result ≡ Err SessionFault.Write)) (λ fault. result
            ≡ Err fault) }
    {
        let written = self.flush();
        match ended {
            Ok(ended) => match written {
                Ok(()) => Ok(ended),
                Err(_) => Err(SessionFault::Write),
            },
            Err(fault) => Err(fault),
        }
    }

    pub fn failure(&self, alloc: Global) -> JobError
        ensures { Ends 3 [] result }
    {
        match self.waiting.try_borrow() {
            Ok(waiting) => JobError::unwritten(alloc, waiting.get_ref().failure()),
            Err(_) => JobError::unwritten(alloc, None),
        }
    }
}

/// The writer that a play writes its answers to.
#[derive(Drop)]
pub struct Outgoing<'a, 'b> {
    pub answers: &'b Answers<'a>,
}

impl Write for Outgoing<'_, '_> {
    fn write(&mut self, buf: &[u8]) -> io::Result<usize> {
        self.answers.add(buf)
    }

    fn flush(&mut self) -> io::Result<()> {
        self.answers.flush()
    }
}

/// The reader that a play reads its script from. Each read first writes the buffered answers.
#[derive(Drop)]
pub struct Incoming<'a, 'b, 'c> {
    pub source: Source,
    pub answers: &'b Answers<'a>,
    pub progress: Option<&'c Progress<'a>>,
}

impl Read for Incoming<'_, '_, '_> {
    fn read(&mut self, buf: &mut [u8]) -> io::Result<usize> {
        // If the answers can't be written, the play gets the end of its script here, and `Answers::end` then returns
        // the error.
        if self.answers.flush().is_err() {
            return Ok(0);
        }
        let count = self.source.read(buf)?;
        if let Some(progress) = self.progress {
            progress.see(&buf[..count]);
        }
        Ok(count)
    }
}
