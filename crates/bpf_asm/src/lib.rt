//! Assembles and disassembles programs, and reads and writes them as hexadecimal digits.
#![tactic(auto)]

ghost use Rattle.std.specs.Prelude.{◌≡◌, ◌++◌, IfOk, IfErr, OnOk, map, None, ◌&&◌, nat_le, string_bytes, option_map};
ghost use Rattle.std.specs.Prelude.{codes, false, Err, IsOk};
ghost use Rattle.std.specs.Fmt.{decimal};
ghost use Rattle.bpf_model.specs.Reading.{form_of};
ghost use Rattle.bpf_asm.specs.Numbered.{line_of_unit, numbered_from, front_line as front_of};
ghost use Rattle.bpf_asm.specs.Program as spec;
ghost use Rattle.bpf_asm.specs.RoundTrip.{RoundTrip};
ghost use Rattle.bpf_asm.specs.Sound.{AreSound};
ghost use Rattle.bpf_asm.specs.Text.{canonical_text, high_of, instruction_text};
ghost use Rattle.bpf_model.specs.declared.limits.TheConstants.{UNITS};

use bpf_model::Code;
use bpf_model::instruction::{Inst, Unit};
use grammar::Line;
use std::alloc::{AllocError, Global};
use std::fmt::Write;

/// Why a text can't be assembled, with the number of the line at fault, counted from 1. `flaw::explain` has its
/// message.
#[derive(Clone, Copy)]
pub enum AsmFault {
    /// A1: the line can't be parsed.
    BadLine(u64),
    /// A2: the line defines a label that an earlier line defines too, or jumps to a label that no line defines.
    BadLabel(u64),
    /// A3: a number in the line is out of range.
    OutOfRange(u64),
    /// A4: the program doesn't have 1 to 512 units of eight bytes.
    Length,
    OutOfMemory,
}

pub mod flaw;
mod grammar;
mod label;
mod lex;
mod line;
pub mod program_file;
mod text;
mod token;
mod units;

pub use flaw::AsmFlaw;
pub use program_file::{MOST_BYTES, ProgramFileFault};

/// The upper 32 bits of a wide load's number, given the units after its first; 0 for any other instruction.
fn high(units: &[Unit]) -> i32
    ensures { result ≡ high_of units.now }
{
    match units.first() {
        Some(Unit::Second(high)) => *high,
        Some(Unit::First(_)) => 0,
        None => 0,
    }
}

/// One line for each instruction, each with its LF.
pub fn disassemble(alloc: Global, code: &Code) -> Result<String, AllocError>
    // proved: It gives the one canonical text | file_jobs/units_are_not_numbered
    ensures { IfOk result (λ text. string_bytes text ≡ canonical_text code.now) }
{
    let mut out = String::new(alloc);
    let mut rest = code.units();
    while let Some((unit, after)) = rest.split_first() {
        if let Unit::First(inst) = unit {
            text::write_instruction(&mut out, *inst, high(after))?;
        }
        rest = after;
    }
    Ok(out)
}

/// The line, with its LF, of the instruction that begins at unit `unit`, counted from 0; `None` if none begins there.
pub fn instruction_line(alloc: Global, code: &Code, unit: u32) -> Result<Option<String>, AllocError>
    // proved: It gives an instruction's line | file_jobs/refusal_without_its_instruction
    ensures line { IfOk result (λ found. option_map string_bytes found ≡ line_of_unit code.now unit) }
    ensures none { line_of_unit code.now unit ≡ None → IsOk result }
{
    match code.units().get(unit as usize..) {
        Some(units) => front_line(alloc, units),
        None => Ok(None),
    }
}

fn front_line(alloc: Global, units: &[Unit]) -> Result<Option<String>, AllocError>
    ensures line { IfOk result (λ found. option_map string_bytes found ≡ front_of units.now) }
    ensures none { front_of units.now ≡ None → IsOk result }
{
    match units.split_first() {
        Some((Unit::First(inst), after)) => {
            let mut line = String::new(alloc);
            text::write_instruction(&mut line, *inst, high(after))?;
            Ok(Some(line))
        }
        Some((Unit::Second(_), _)) => Ok(None),
        None => Ok(None),
    }
}

/// Like `disassemble`, but each line begins with the number of the instruction's first unit, counted from 0, and `: `.
pub fn disassemble_numbered(alloc: Global, code: &Code) -> Result<String, AllocError>
    // proved: It gives the text with unit numbers | file_jobs/units_are_not_numbered
    ensures { IfOk result (λ text. string_bytes text ≡ numbered_from 0 code.now) }
{
    let mut out = String::new(alloc);
    let mut rest = code.units();
    let mut number = 0u64;
    while let Some((unit, after)) = rest.split_first() {
        if let Unit::First(inst) = unit {
            write_numbered(&mut out, number, *inst, high(after))?;
        }
        number += 1;
        rest = after;
    }
    Ok(out)
}

fn write_numbered(out: &mut String, number: u64, inst: Inst, high: i32) -> Result<(), AllocError>
    ensures { OnOk result (string_bytes out.new ≡ string_bytes out.old ++ decimal number ++ codes ": "
        ++ instruction_text (form_of inst.opcode) inst high) }
{
    write!(out, "{number}: ")?;
    text::write_instruction(out, inst, high)
}

fn is_length(count: u64) -> bool
    ensures { result ≡ (nat_le 1 count && nat_le count UNITS) }
{
    1 <= count && count <= 512
}

// Assembles rows as `line::rows_of` returns them.
fn assemble_rows(alloc: Global, rows: &[(Line, &[u8])]) -> Result<Code, AsmFault>
    requires fits { spec.AreInRange (map (λ p. spec.row p.0 p.1.now) rows.now) }
    requires sound { AreSound (map (λ p. spec.row p.0 p.1.now) rows.now) }
    ensures ok { IfOk result (λ code. code ≡ spec.spelled (map (λ p. spec.row p.0 p.1.now) rows.now)) }
    ensures none { IfOk result (λ code. spec.rows_fault (map (λ p. spec.row p.0 p.1.now) rows.now) ≡ None) }
    ensures refused { IfErr result
        (λ fault. spec.IsFault (spec.rows_fault (map (λ p. spec.row p.0 p.1.now) rows.now)) fault) }
    ensures length { (nat_le 1 (spec.units_in (map (λ p. spec.row p.0 p.1.now) rows.now))
        && nat_le (spec.units_in (map (λ p. spec.row p.0 p.1.now) rows.now)) UNITS) ≡ false
        → result ≡ Err AsmFault.Length }
{
    let count = label::units_in(rows);
    if !is_length(count) {
        return Err(AsmFault::Length);
    }
    let Ok(labels) = label::labels_of(alloc, rows) else {
        return Err(AsmFault::OutOfMemory);
    };
    let Ok(found) = label::label_fault(alloc, labels.as_slice(), rows) else {
        return Err(AsmFault::OutOfMemory);
    };
    if let Some(fault) = found {
        return Err(fault);
    }
    let Ok(units) = units::units_of(alloc, labels.as_slice(), rows) else {
        return Err(AsmFault::OutOfMemory);
    };
    Ok(Code::from_units(units))
}

/// The error is the fault of the first line that can't be parsed or has a number out of range; else `Length`; else
/// `BadLabel` for the first line with a wrong label. It can also be that memory ran out.
pub fn assemble(alloc: Global, text: &[u8]) -> Result<Code, AsmFault>
    // proved: It is Ok just with the text's units | file_jobs/good_text_is_refused_by_nothing
    ensures ok { IfOk result (λ code. spec.AssemblesTo text.now code) }
    // proved: Faults are reported in their order
    ensures refused { IfErr result (λ fault. spec.IsRefused text.now fault) }
{
    let Ok(lines) = line::cut(alloc, text) else {
        return Err(AsmFault::OutOfMemory);
    };
    let rows = match line::rows_of(alloc, lines.as_slice()) {
        Ok(rows) => rows,
        Err(fault) => return Err(fault),
    };
    assemble_rows(alloc, rows.as_slice())
}

/// A law: the text of a program, as `disassemble` writes it, assembles to this program and to no other.
pub fn law_of_canonical_text()
    // proved: The canonical text assembles to the program and nothing else
    ensures { RoundTrip }
{}

/// Assembles the text of a program, which gives the same program.
pub fn reassemble(alloc: Global, code: &Code) -> Result<Code, AsmFault>
    // proved same, refused: To text and back gives the same program
    ensures same { IfOk result (λ again. again ≡ code.now) }
    ensures refused { IfErr result (λ fault. fault ≡ AsmFault.OutOfMemory) }
{
    let _units = code.units();
    let Ok(text) = disassemble(alloc, code) else {
        return Err(AsmFault::OutOfMemory);
    };
    match assemble(alloc, text.as_bytes()) {
        Ok(again) => Ok(again),
        Err(fault) => Err(fault),
    }
}
