//! Why a file is refused, in words and as a line.
ghost use Rattle.std.specs.Prelude.{◌≡◌, ◌++◌, codes, IfOk, IsErr, string_bytes};
ghost use Rattle.verifier.specs.Refusals.{refusal_numbers};
ghost use Rattle.file_jobs.specs.FileFlaws.{line_of, refusal_line};

use crate::reasons::RefusedProgram;
use bpf_asm::{AsmFault, AsmFlaw, ProgramFileFault};
use std::alloc::{AllocError, Global};
use std::fmt;
use till_request::Answer;
use verifier::Refusal;

/// Why `fc asm`, `fc dis` or `fc verify` refuses a file.
#[derive(Drop)]
pub enum FileFlaw<'a> {
    /// L1, H1: the file isn't a program file, or has too many bytes.
    File(ProgramFileFault),
    /// A1 to A4.
    Text(AsmFault, AsmFlaw<'a>),
    /// V1 to V20.
    Program(RefusedProgram),
    OutOfMemory,
}

impl From<AllocError> for FileFlaw<'_> {
    ghost use Rattle.std.specs.Prelude.{◌≡◌};
    ghost use Rattle.file_jobs.specs.declared.file_flaws.FileFlaw.TheVariants as file_flaw;

    ghost from_gives = { λ _ flaw. flaw ≡ file_flaw.OutOfMemory };

    fn from(_refused: AllocError) -> Self {
        FileFlaw::OutOfMemory
    }
}

impl From<ProgramFileFault> for FileFlaw<'_> {
    ghost use Rattle.std.specs.Prelude.{◌≡◌};
    ghost use Rattle.file_jobs.specs.FileFlaws.{flaw_of};

    ghost from_gives = { λ fault flaw. flaw ≡ flaw_of fault };

    fn from(fault: ProgramFileFault) -> Self {
        match fault {
            ProgramFileFault::OutOfMemory => FileFlaw::OutOfMemory,
            ProgramFileFault::TooLong | ProgramFileFault::BadDigits => FileFlaw::File(fault),
        }
    }
}

/// A fault of a program file, and of one with other bytes also how such a file is made of a text.
#[derive(Clone, Copy)]
struct FileFault(ProgramFileFault);

impl fmt::Display for FileFault {
    ghost use Rattle.std.specs.Prelude.{Some};
    ghost use Rattle.file_jobs.specs.FlawTexts.{file_fault_text};

    ghost output = { λ fault. Some (file_fault_text fault.0) };

    fn fmt<W: fmt::Write>(&self, f: &mut fmt::Formatter<W>) -> fmt::Result {
        match self.0 {
            ProgramFileFault::BadDigits => {
                let fault = self.0;
                write!(f, "{fault}; fc asm assembles a text")
            }
            fault => write!(f, "{fault}"),
        }
    }
}

impl fmt::Display for FileFlaw<'_> {
    ghost use Rattle.std.specs.Prelude.{Some};
    ghost use Rattle.file_jobs.specs.FlawTexts.{file_flaw_text};

    ghost output = { λ flaw. Some (file_flaw_text flaw) };

    fn fmt<W: fmt::Write>(&self, f: &mut fmt::Formatter<W>) -> fmt::Result {
        match self {
            FileFlaw::File(fault) => write!(f, "{}", FileFault(*fault)),
            FileFlaw::Text(_, flaw) => write!(f, "{flaw}"),
            FileFlaw::Program(refused) => write!(f, "{refused}"),
            FileFlaw::OutOfMemory => f.write_str("out of memory"),
        }
    }
}

impl FileFlaw<'_> {
    /// Returns the line that is printed on standard output of a file with this flaw, without its LF.
    pub fn line(&self, alloc: Global) -> Result<String, AllocError>
        // proved line, memory: It gives the line that is printed of a refused file
        ensures line { IfOk result (λ line. string_bytes line ++ codes "\n" ≡ line_of self.now) }
        ensures memory { self.now ≡ FileFlaw.OutOfMemory → IsErr result }
    {
        match self {
            FileFlaw::File(ProgramFileFault::TooLong) => format!(in alloc; "L1"),
            FileFlaw::File(ProgramFileFault::BadDigits) => format!(in alloc; "H1"),
            FileFlaw::Text(AsmFault::BadLine(line), _) => format!(in alloc; "A1 {line}"),
            FileFlaw::Text(AsmFault::BadLabel(line), _) => format!(in alloc; "A2 {line}"),
            FileFlaw::Text(AsmFault::OutOfRange(line), _) => format!(in alloc; "A3 {line}"),
            FileFlaw::Text(AsmFault::Length, _) => format!(in alloc; "A4"),
            FileFlaw::Program(refused) => refusal_line(alloc, refused.refusal),
            FileFlaw::File(ProgramFileFault::OutOfMemory)
            | FileFlaw::Text(AsmFault::OutOfMemory, _)
            | FileFlaw::OutOfMemory => Err(AllocError),
        }
    }
}

/// A refusal for want of memory has no line and is an error too.
fn refusal_line(alloc: Global, refusal: Refusal) -> Result<String, AllocError>
    ensures { IfOk result (λ line. string_bytes line ++ codes "\n" ≡ refusal_line (refusal_numbers refusal)) }
{
    match refusal.fault_numbers() {
        Some((number, unit, part)) => {
            let answer = Answer::Program(number, unit, part);
            format!(in alloc; "{answer}")
        }
        None => Err(AllocError),
    }
}
