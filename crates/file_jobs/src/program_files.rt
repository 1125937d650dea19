//! What `fc asm`, `fc dis` and `fc verify` print of a file, and the rule in a file.
ghost use Rattle.std.specs.Prelude.{◌≡◌, ◌<◌, length, Err, IfOk, IfErr, string_bytes};
ghost use Rattle.bpf_asm.specs.Text.{canonical_text};
ghost use Rattle.bpf_asm.specs.Numbered.{numbered_from};
ghost use Rattle.bpf_asm.specs.ProgramFile.{program_in};
ghost use Rattle.file_jobs.specs.Printed.{Assembles, DecodesTo, Disassembles, Verifies, VerifiesAs};
ghost use Rattle.file_jobs.specs.FileFlaws.{IsAsmFlaw, IsDisFlaw, IsVerifyFlaw};

use crate::file_flaws::FileFlaw;
use crate::reasons::explain_refusal;
use bpf_asm::flaw::explain;
use bpf_asm::program_file::{read_program, unit_lines};
use bpf_asm::{MOST_BYTES, ProgramFileFault, assemble, disassemble, disassemble_numbered};
use bpf_model::decode::{decode, encode};
use bpf_model::{Code, DecodeFault};
use std::alloc::Global;
use verifier::verifying::verify;
use verifier::{Layout, Program, Refusal};

/// Returns what `fc asm` prints of an assembler text: its units, each as a line of 16 hexadecimal digits.
pub fn asm_file<'a>(alloc: Global, text: &'a [u8]) -> Result<String, FileFlaw<'a>>
    // proved printed, flaw: It gives what `asm` prints | good_text_is_refused_by_nothing
    ensures printed { IfOk result (λ printed. Assembles text.now (string_bytes printed)) }
    // proved flaw, length: It says why a text is refused
    ensures flaw { IfErr result (IsAsmFlaw text.now) }
    ensures length { 65536 < length text.now → result ≡ Err (FileFlaw.File ProgramFileFault.TooLong) }
{
    if text.len() > MOST_BYTES {
        return Err(FileFlaw::File(ProgramFileFault::TooLong));
    }
    match assemble(alloc, text) {
        Ok(code) => Ok(unit_lines(alloc, &encode(alloc, &code)?)?),
        Err(fault) => Err(FileFlaw::Text(fault, explain(alloc, text, fault)?)),
    }
}

/// Returns what `fc dis` prints of a program file: its text. Jumps and types aren't checked.
pub fn dis_file(alloc: Global, file: &[u8]) -> Result<String, FileFlaw<'static>>
    // proved: It gives what `dis` prints
    ensures printed { IfOk result
        (λ printed. Disassembles canonical_text (program_in file.now) (string_bytes printed)) }
    // proved flaw, length: The same for `dis`
    ensures flaw { IfErr result (IsDisFlaw (program_in file.now)) }
    ensures length { 65536 < length file.now → result ≡ Err (FileFlaw.File ProgramFileFault.TooLong) }
{
    let code = code_in(alloc, file)?;
    Ok(disassemble(alloc, &code)?)
}

/// Returns what `fc dis --units` prints: the text of `dis_file`, with the number of its first unit before each line.
pub fn dis_units_file(alloc: Global, file: &[u8]) -> Result<String, FileFlaw<'static>>
    // proved printed, flaw: It gives what `dis --units` prints | units_are_not_numbered
    ensures printed { IfOk result
        (λ printed. Disassembles (numbered_from 0) (program_in file.now) (string_bytes printed)) }
    ensures flaw { IfErr result (IsDisFlaw (program_in file.now)) }
    ensures length { 65536 < length file.now → result ≡ Err (FileFlaw.File ProgramFileFault.TooLong) }
{
    let code = code_in(alloc, file)?;
    Ok(disassemble_numbered(alloc, &code)?)
}

fn code_in(alloc: Global, file: &[u8]) -> Result<Code, FileFlaw<'static>>
    ensures code { IfOk result (DecodesTo (program_in file.now)) }
    ensures flaw { IfErr result (IsDisFlaw (program_in file.now)) }
    ensures length { 65536 < length file.now → result ≡ Err (FileFlaw.File ProgramFileFault.TooLong) }
{
    let bytes = read_program(alloc, file)?;
    match decode(alloc, &bytes) {
        Ok(code) => Ok(code),
        Err(DecodeFault::OutOfMemory) => Err(FileFlaw::OutOfMemory),
        Err(fault) => {
            let refused = explain_refusal(alloc, &bytes, Refusal::Decode(fault))?;
            Err(FileFlaw::Program(refused))
        }
    }
}

/// Returns what `fc verify` prints of a program file that the verifier accepts for contexts of this layout: `accepted
/// N` for N units. Bit c of `counters` declares counter c.
pub fn verify_file(
    alloc: Global,
    file: &[u8],
    counters: u32,
    context: Layout,
) -> Result<String, FileFlaw<'static>>
    // proved: It gives what `verify` prints
    // proved printed, flaw: The verdict is `verify`'s | good_program_is_refused_by_its_mask
    ensures printed { IfOk result
        (λ printed. Verifies (program_in file.now) counters context (string_bytes printed)) }
    // proved flaw, length: It says why `verify` refuses a program file: `verify`'s own refusal
    ensures flaw { IfErr result (IsVerifyFlaw (program_in file.now) counters context) }
    ensures length { 65536 < length file.now → result ≡ Err (FileFlaw.File ProgramFileFault.TooLong) }
{
    let program = program_of(alloc, file, counters, context)?;
    Ok(format!(in alloc; "accepted {}\n", program.units())?)
}

/// Returns the program of a program file that `verify_file` accepts.
pub fn program_of(
    alloc: Global,
    file: &[u8],
    counters: u32,
    context: Layout,
) -> Result<Program, FileFlaw<'static>>
    // proved: A rule is the program of its file, as the verifier accepts it
    ensures program { IfOk result (VerifiesAs (program_in file.now) counters context) }
    ensures layout { IfOk result (λ program. program.layout ≡ context) }
    ensures flaw { IfErr result (IsVerifyFlaw (program_in file.now) counters context) }
    ensures length { 65536 < length file.now → result ≡ Err (FileFlaw.File ProgramFileFault.TooLong) }
{
    let bytes = read_program(alloc, file)?;
    match verify(alloc, &bytes, counters, context) {
        Ok(program) => Ok(program),
        Err(refusal) => {
            if refusal.fault_numbers().is_none() {
                return Err(FileFlaw::OutOfMemory);
            }
            Err(FileFlaw::Program(explain_refusal(alloc, &bytes, refusal)?))
        }
    }
}
