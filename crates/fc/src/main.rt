//! The program `fc`: parses the command line, does the job that it asks for, and returns an exit status.
#![tactic(auto)]

mod day_end;
mod day_times;
mod doors;
mod jobs;
mod journal_file;
mod journal_watch;
mod kept;
mod looking;
mod operator;
mod printed;
mod serve;
mod served_days;
mod sockets;
mod streams;
mod unclosed_site;

use file_jobs::command_line::command;
use file_jobs::job_error::at_file;
use file_jobs::{CommandFault, DONE, Job, JobError, USAGE};
use jobs::do_job;
use pages::Printable;
use std::alloc::AllocError;
use std::io::{self, ErrorKind};
use std::process::ExitCode;
use streams::{NOTHING, fill_closed_streams};

fn arguments(rt: &HostRuntime) -> io::Result<Vec<String>> {
    let words = std::env::args(rt)?.collect(rt.alloc())?;
    Ok(words)
}

fn printable_words(rt: &HostRuntime, words: &[String]) -> Result<Vec<String>, AllocError> {
    let mut printable = Vec::new(rt.alloc());
    for word in words {
        printable.push(format!(in rt.alloc(); "{}", Printable(word))?)?;
    }
    Ok(printable)
}

/// The message repeats some of the arguments and has several lines, so it is printed here.
fn refuse_words(rt: &HostRuntime, printable: Vec<String>) -> JobError {
    match command(rt.alloc(), printable) {
        Err(CommandFault::Usage(text)) => {
            let _ = eprint!(rt; "{text}");
            JobError::silent(rt.alloc(), USAGE)
        }
        Err(CommandFault::OutOfMemory) => JobError::OutOfMemory,
        // An escape makes no word valid that wasn't, so this can't come.
        Ok(_) => JobError::message(rt.alloc(), &"the words are not valid; see fc --help", USAGE),
    }
}

fn job_of(rt: &HostRuntime) -> Result<Job, JobError> {
    let words = match arguments(rt) {
        Ok(words) => words,
        Err(error) if error.kind() == ErrorKind::OutOfMemory => return Err(JobError::OutOfMemory),
        // Any other error is that an argument isn't UTF-8.
        Err(_) => {
            let words = "the words are not text; see fc --help";
            return Err(JobError::message(rt.alloc(), &words, USAGE));
        }
    };
    let printable = printable_words(rt, &words)?;
    match command(rt.alloc(), words) {
        Ok(job) => Ok(job),
        Err(CommandFault::Usage(_)) => Err(refuse_words(rt, printable)),
        Err(CommandFault::OutOfMemory) => Err(JobError::OutOfMemory),
    }
}

fn main(rt: HostRuntime) -> ExitCode {
    // This comes before any file is opened.
    let job = match at_file(rt.alloc(), NOTHING, fill_closed_streams(&rt)) {
        Ok(()) => job_of(&rt),
        Err(job_error) => Err(job_error),
    };
    let done = match job {
        Ok(job) => do_job(&rt, &rt, &job),
        Err(job_error) => Err(job_error),
    };
    let status = match done {
        Ok(()) => DONE,
        Err(job_error) => job_error.print(rt.alloc(), &mut rt.stderr(), &mut rt.stdout()),
    };
    ExitCode::from(status)
}
