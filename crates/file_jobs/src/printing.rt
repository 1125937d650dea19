//! What `fc asm`, `fc dis` and `fc verify` print of a file.
ghost use Rattle.std.specs.Prelude.{◌≡◌, IfOk, IfErr, string_bytes};
ghost use Rattle.file_jobs.specs.FileFlaws.{line_of};
ghost use Rattle.file_jobs.specs.JobErrors.{EndsOrRunsOut};
ghost use Rattle.file_jobs.specs.PrintRequests.{Accepts, IsFlaw, PrintsAsked};

use crate::files::text_of;
use crate::job_error::print_text;
use crate::program_files::{asm_file, dis_file, dis_units_file, verify_file};
use crate::{FileFlaw, JobError, Place};
use bpf_asm::AsmFault;
use bpf_model::context::Layout;
use std::alloc::Global;

/// What to print of a file.
#[derive(Clone, Copy)]
pub enum PrintRequest {
    Asm,
    Dis,
    DisUnits,
    Verify(u32, Layout),
}

pub fn print_file(rt: &HostRuntime, word: &str, request: PrintRequest) -> Result<(), JobError> {
    let text = text_of(rt, word)?;
    print_bytes(rt, word, request, &text)
}

fn print_bytes(
    rt: &HostRuntime,
    word: &str,
    request: PrintRequest,
    file: &[u8],
) -> Result<(), JobError>
    ensures { PrintsAsked request file.now result }
{
    match printed_text(rt.alloc(), request, file) {
        Ok(text) => print_text(rt, &text),
        Err(flaw) => Err(refuse_file(rt.alloc(), word, &flaw)),
    }
}

fn printed_text<'a>(
    alloc: Global,
    request: PrintRequest,
    file: &'a [u8],
) -> Result<String, FileFlaw<'a>>
    ensures text { IfOk result (λ text. Accepts request file.now (string_bytes text)) }
    ensures flaw { IfErr result (IsFlaw request file.now) }
{
    match request {
        PrintRequest::Asm => asm_file(alloc, file),
        PrintRequest::Dis => dis_file(alloc, file),
        PrintRequest::DisUnits => dis_units_file(alloc, file),
        PrintRequest::Verify(counters, context) => verify_file(alloc, file, counters, context),
    }
}

pub(crate) fn refuse_file(alloc: Global, word: &str, flaw: &FileFlaw<'_>) -> JobError
    ensures ends { EndsOrRunsOut 1 (line_of flaw.now) result }
    ensures memory { flaw.now ≡ FileFlaw.OutOfMemory → result ≡ JobError.OutOfMemory }
{
    let Ok(line) = flaw.line(alloc) else {
        return JobError::OutOfMemory;
    };
    let place = match flaw {
        FileFlaw::Text(
            AsmFault::BadLine(number) | AsmFault::BadLabel(number) | AsmFault::OutOfRange(number),
            _,
        ) => Place::of(word).line(*number),
        _ => Place::of(word),
    };
    // The line begins with the number of the fault, as in `A1 7`.
    let code = line.split(' ').next().unwrap_or("");
    JobError::refused_as(alloc, place, flaw, code, &line)
}
