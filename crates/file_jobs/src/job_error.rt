//! Why a job ends before it is done, and how that is printed.
ghost use Rattle.std.specs.Prelude.{◌≡◌, ◌≢◌, ◌⊎◌, ◌++◌, ◌∷◌, [], None, Ok, IfErr, IfSome, IsErrAnd, IsOk, OnOk, MatchResult, string_bytes};
ghost use Rattle.std.specs.Io.KnownBytes.{Appends};
ghost use Rattle.file_jobs.specs.JobErrors.{Ends, EndsOrRunsOut, Says, status_of, message_of, message_bytes, output_of, words_at, numbered_words};

use crate::messages::Place;
use crate::statuses::{FAILED, REFUSED};
use pages::Printable;
use std::alloc::{AllocError, Global};
use std::fmt::Display;
use std::io::{self, ErrorKind, Write};

/// Why a job ends before it is done: a file can't be used, or what is in it is refused, or memory ran out.
#[derive(Drop)]
pub enum JobError {
    OutOfMemory,
    Refused(Refusal),
}

#[derive(Drop)]
pub struct Refusal {
    /// The line for standard error, or empty for none. `None` if memory ran out for it.
    message: Option<String>,
    /// The line for standard output, or empty for none.
    output: String,
    status: u8,
}

fn write_out_of_memory<E: Write>(errors: &mut E) -> io::Result<()>
    ensures { OnOk result (Appends (E.contents errors.old) (E.contents errors.new) (message_bytes None)) }
{
    errors.write_all(b"fc: out of memory\n")
}

impl From<AllocError> for JobError {
    ghost use Rattle.std.specs.Prelude.{◌≡◌};
    ghost use Rattle.file_jobs.specs.declared.job_error.JobError.TheVariants as job_error;

    ghost from_gives = { λ _ result. result ≡ job_error.OutOfMemory };

    fn from(_refused: AllocError) -> Self {
        JobError::OutOfMemory
    }
}

impl JobError {
    /// The message is `words` behind the program's name, with control characters escaped; `output` goes to standard
    /// output.
    pub fn new<D: Display>(alloc: Global, words: &D, output: String, status: u8) -> JobError
        ensures ends { Ends status (string_bytes output) result }
        ensures says { IfSome (D.output words.now) (λ text. Says text result) }
    {
        let words = Printable(words);
        JobError::Refused(Refusal {
            message: format!(in alloc; "fc: {words}\n").ok(),
            output,
            status,
        })
    }

    pub fn message<D: Display>(alloc: Global, words: &D, status: u8) -> JobError
        ensures ends { Ends status [] result }
        ensures says { IfSome (D.output words.now) (λ text. Says text result) }
    {
        JobError::new(alloc, words, String::new(alloc), status)
    }

    pub fn at<D: Display>(alloc: Global, place: Place<'_>, words: &D, status: u8) -> JobError
        ensures ends { Ends status [] result }
        ensures says { IfSome (D.output words.now) (λ text. Says (words_at place.entry text) result) }
    {
        JobError::message(alloc, &format_args!("{place}: {words}"), status)
    }

    /// `code` is a fault's number, as `N1`, which the message ends with.
    pub fn fault<D: Display>(
        alloc: Global,
        place: Place<'_>,
        words: &D,
        code: &str,
        status: u8,
    ) -> JobError
        ensures ends { Ends status [] result }
        ensures says { IfSome (D.output words.now)
            (λ text. Says (words_at place.entry (numbered_words text code.now)) result) }
    {
        JobError::at(alloc, place, &format_args!("{words} ({code})"), status)
    }

    /// For input that is refused for a fault: its number `code`, as `K1`, is printed on standard output too.
    pub fn refused<D: Display>(alloc: Global, place: Place<'_>, words: &D, code: &str) -> JobError
        // proved: A fault's number is printed, with status 1
        ensures ends { EndsOrRunsOut 1 (code.now ++ 10 ∷ []) result }
        // proved: Its message has place, words and number | message_without_its_number
        ensures says { IfSome (D.output words.now)
            (λ text. Says (words_at place.entry (numbered_words text code.now)) result) }
    {
        JobError::refused_as(alloc, place, words, code, &code)
    }

    /// Like `refused`, but with another line on standard output.
    pub fn refused_as<D: Display, L: Display>(
        alloc: Global,
        place: Place<'_>,
        words: &D,
        code: &str,
        line: &L,
    ) -> JobError
        ensures ends { IfSome (L.output line.now) (λ text. EndsOrRunsOut 1 (text ++ 10 ∷ []) result) }
        ensures says { IfSome (D.output words.now)
            (λ text. Says (words_at place.entry (numbered_words text code.now)) result) }
    {
        match format!(in alloc; "{line}\n") {
            Ok(output) => JobError::refused_with(alloc, place, words, code, output),
            Err(_) => JobError::OutOfMemory,
        }
    }

    /// Like `refused_as`, with a line that ends in its LF.
    pub(crate) fn refused_with<D: Display>(
        alloc: Global,
        place: Place<'_>,
        words: &D,
        code: &str,
        output: String,
    ) -> JobError
        ensures ends { Ends 1 (string_bytes output) result }
        ensures says { IfSome (D.output words.now)
            (λ text. Says (words_at place.entry (numbered_words text code.now)) result) }
    {
        let words = format_args!("{place}: {words} ({code})");
        JobError::new(alloc, &words, output, REFUSED)
    }

    /// For a file that can't be used.
    pub fn of_file(alloc: Global, word: &str, error: &io::Error) -> JobError
        // proved: A file that can't be used has status 3
        ensures { Ends 3 [] result }
    {
        if error.kind() == ErrorKind::OutOfMemory && error.raw_os_error().is_none() {
            return JobError::OutOfMemory;
        }
        JobError::at(alloc, Place::of(word), error, FAILED)
    }

    pub fn silent(alloc: Global, status: u8) -> JobError
        ensures { Ends status [] result }
    {
        JobError::Refused(Refusal {
            message: Some(String::new(alloc)),
            output: String::new(alloc),
            status,
        })
    }

    /// For standard output that can't be written. Nothing is printed if its reader closed the pipe.
    pub fn unwritten(alloc: Global, failure: Option<&io::Error>) -> JobError
        // proved: So has an output that can't be written
        ensures { Ends 3 [] result }
    {
        match failure {
            Some(error) if error.kind() == ErrorKind::BrokenPipe => JobError::silent(alloc, FAILED),
            Some(_) | None => JobError::any_unwritten(alloc, failure),
        }
    }

    /// Like `unwritten`, but with a message also if the reader closed the pipe.
    pub fn any_unwritten(alloc: Global, failure: Option<&io::Error>) -> JobError
        ensures { Ends 3 [] result }
    {
        let place = Place::output();
        match failure {
            Some(error) => JobError::fault(alloc, place, error, "N2", FAILED),
            None => JobError::fault(alloc, place, &"a write failed", "N2", FAILED),
        }
    }

    fn write_message<E: Write>(&self, errors: &mut E) -> io::Result<()>
        ensures { OnOk result (Appends (E.contents errors.old) (E.contents errors.new) (message_of self.now)) }
    {
        match self {
            JobError::OutOfMemory => write_out_of_memory(errors),
            JobError::Refused(refusal) => match &refusal.message {
                Some(message) => errors.write_all(message.as_bytes()),
                None => write_out_of_memory(errors),
            },
        }
    }

    /// Prints the message on `errors`, where a failed write is ignored, and then the line for standard output on
    /// `output`. Returns the exit status: `FAILED` if that line can't be written, which is printed on `errors` too.
    pub fn print<E: Write, O: Write>(&self, alloc: Global, errors: &mut E, output: &mut O) -> u8
        // proved status, printed, nothing: An error's line is written, else the status is 3
        ensures status { (result ≡ status_of self.now) ⊎ (result ≡ 3) }
        ensures printed { result ≢ 3 → Appends (O.contents output.old) (O.contents output.new) (output_of self.now) }
        ensures nothing { output_of self.now ≡ [] → (result ≡ status_of self.now) × (output.new ≡ output.old) }
    {
        let _ = self.write_message(errors);
        let refusal = match self {
            JobError::OutOfMemory => return FAILED,
            JobError::Refused(refusal) => refusal,
        };
        if refusal.output.is_empty() {
            return refusal.status;
        }
        match output.write_all(refusal.output.as_bytes()) {
            Ok(()) => refusal.status,
            Err(error) => {
                let _ = JobError::unwritten(alloc, Some(&error)).write_message(errors);
                FAILED
            }
        }
    }
}

/// Returns what a call gave that used the file which an argument names.
pub fn at_file<T>(alloc: Global, word: &str, called: io::Result<T>) -> Result<T, JobError>
    ensures { MatchResult called (λ value. result ≡ Ok value) (λ _. IsErrAnd result (Ends 3 [])) }
{
    match called {
        Ok(value) => Ok(value),
        Err(error) => Err(JobError::of_file(alloc, word, &error)),
    }
}

/// Returns what a print on standard output came to.
pub fn printed(alloc: Global, printed: io::Result<()>) -> Result<(), JobError>
    ensures { MatchResult printed (λ _. IsOk result) (λ _. IsErrAnd result (Ends 3 [])) }
{
    match printed {
        Ok(()) => Ok(()),
        Err(error) => Err(JobError::unwritten(alloc, Some(&error))),
    }
}

pub fn print_text(rt: &HostRuntime, text: &str) -> Result<(), JobError>
    ensures { IfErr result (Ends 3 []) }
{
    printed(rt.alloc(), print!(rt; "{text}"))
}
