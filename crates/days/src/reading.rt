//! Reads an opening: its lines loosely, and then the text of what was read is compared with what was given.

ghost use Rattle.std.specs.Prelude.{◌≡◌, ◌↔◌, ◌<◌, ◌∷◌, ℕ, Ok, IfErr, IfOk, IsTrue, MatchOption, OnOk};
ghost use Rattle.bpf_model.specs.Program.{as_loaded};
ghost use Rattle.verifier.specs.RefusedPrograms.{IsRefusal, refusal_of};
ghost use Rattle.days.specs.File.{IsOpeningFile};
ghost use Rattle.days.specs.Flaws.{Differs, IsFlaw, IsLineFlaw, IsOnly, LacksLine};
ghost use Rattle.days.specs.Parsing.{line_read};
ghost use Rattle.days.specs.Ranges.{FileFits};
ghost use Rattle.days.specs.Reading.{Reads, TakesRead, blank_file, pieces};
ghost use Rattle.days.specs.Text.{opening_text};

use crate::file::{OpeningFile, OpeningFlaw};
use crate::line::Line;
use crate::parsing::parse_line;
use crate::ranges::file_in_range;
use crate::step::Reading;
use crate::writing::opening_text;
use bpf_model::context::Layout;
use std::alloc::{AllocError, Global};
use till_request::LineFault;
use till_request::parts::first_part;
use verifier::Refusal;
use verifier::verifying::verify;

pub(crate) fn is_same(text: &[u8], other: &[u8]) -> bool
    ensures { IsTrue result ↔ (text.now ≡ other.now) }
{
    text == other
}

/// Adds a line, given without its LF, if it is read as one of an opening and can be taken.
fn take_line(alloc: Global, reading: &mut Reading, line: &[u8]) -> Result<(), AllocError>
    ensures { OnOk result (TakesRead reading.old (line_read line.now) reading.new) }
{
    match parse_line(alloc, line) {
        Ok(line) => {
            let _taken = reading.take(&line)?;
            Ok(())
        }
        Err(LineFault::OutOfMemory) => Err(AllocError),
        Err(LineFault::TooLong) | Err(LineFault::BadLine) => Ok(()),
        Err(LineFault::BadNumber) | Err(LineFault::CutLine) => Ok(()),
        Err(LineFault::OtherDoor) => Ok(()),
    }
}

fn take_lines(alloc: Global, reading: &mut Reading, text: &[u8]) -> Result<(), AllocError>
    ensures { OnOk result (Reads reading.old (pieces text.now) reading.new) }
{
    let mut rest = Some(text);
    while let Some(text) = rest {
        let (line, more) = first_part(text, b'\n');
        take_line(alloc, reading, line)?;
        rest = more;
    }
    Ok(())
}

/// The opening that the lines of a text describe, in whatever order. What is no line of an opening is skipped.
fn read_loosely(alloc: Global, text: &[u8]) -> Result<OpeningFile, AllocError>
    ensures reads { IfOk result (λ file. Reads blank_file (pieces text.now) file) }
    ensures good { IfOk result (λ file. IsOpeningFile file) }
{
    let mut reading = Reading::new(alloc)?;
    take_lines(alloc, &mut reading, text)?;
    Ok(reading.finish())
}

/// What comes after `line` and its LF, if a text begins with these.
fn behind_line<'a>(text: &'a [u8], line: &[u8]) -> Option<&'a [u8]>
    ensures { MatchOption result (LacksLine text.now line.now)
        (λ behind. pieces text.now ≡ line.now ∷ pieces behind.now) }
{
    let (own, behind) = first_part(text, b'\n');
    let Some(behind) = behind else {
        return None;
    };
    if is_same(own, line) {
        Some(behind)
    } else {
        None
    }
}

fn refused(alloc: Global, number: u32, slot: u32, bytes: &[u8], refusal: Refusal) -> OpeningFlaw
    ensures { slot < 16 → (version mask : ℕ) (layout : Layout)
        → IsRefusal (refusal_of (as_loaded bytes.now mask layout)) refusal
        → IsLineFlaw number (Ok (Line.Version slot version mask layout bytes.now)) result }
{
    match refusal {
        Refusal::OutOfMemory => OpeningFlaw::OutOfMemory,
        Refusal::Decode(_) | Refusal::Flow(_) | Refusal::Type(_) => match bytes.to_vec(alloc) {
            Ok(program) => OpeningFlaw::BadProgram {
                line: number,
                slot,
                program,
                refusal,
            },
            Err(_) => OpeningFlaw::OutOfMemory,
        },
    }
}

/// The flaw in a version's line that isn't the one that it should be.
fn version_flaw(
    alloc: Global,
    number: u32,
    slot: u64,
    mask: u32,
    layout: Layout,
    bytes: &[u8],
) -> OpeningFlaw
    ensures { (version : ℕ) → IsLineFlaw number (Ok (Line.Version slot version mask layout bytes.now)) result }
{
    if slot > 15 {
        return OpeningFlaw::BadLine(number);
    }
    match verify(alloc, bytes, mask, layout) {
        Ok(_program) => OpeningFlaw::BadLine(number),
        Err(refusal) => refused(alloc, number, slot as u32, bytes, refusal),
    }
}

/// The flaw in a line, given without its LF, that isn't the one that it should be.
fn line_flaw(alloc: Global, number: u32, line: &[u8]) -> OpeningFlaw
    ensures { IsLineFlaw number (line_read line.now) result }
{
    match parse_line(alloc, line) {
        Ok(
            Line::Version {
                slot,
                number: _version,
                mask,
                layout,
                bytes,
            },
        ) => version_flaw(alloc, number, slot, mask, layout, bytes.as_slice()),
        Err(LineFault::OutOfMemory) => OpeningFlaw::OutOfMemory,
        Ok(Line::Day(_)) | Ok(Line::Cleared(_, _)) => OpeningFlaw::BadLine(number),
        Ok(Line::Versions(_)) | Ok(Line::Price(_, _)) => OpeningFlaw::BadLine(number),
        Ok(Line::Counter(_, _, _)) | Ok(Line::Point(_, _)) => OpeningFlaw::BadLine(number),
        Ok(Line::Unpaid(_, _)) | Ok(Line::Journal(_, _)) => OpeningFlaw::BadLine(number),
        Err(LineFault::TooLong) | Err(LineFault::BadLine) => OpeningFlaw::BadLine(number),
        Err(LineFault::BadNumber) | Err(LineFault::CutLine) => OpeningFlaw::BadLine(number),
        Err(LineFault::OtherDoor) => OpeningFlaw::BadLine(number),
    }
}

/// The flaw in the first line in which `text` differs from the text `other` of an opening.
fn first_flaw(alloc: Global, text: &[u8], other: &[u8]) -> OpeningFlaw
    ensures { Differs text.now other.now result }
{
    let mut rest = text;
    let mut left = other;
    let mut number = 1u32;
    while !rest.is_empty() {
        let (line, more) = first_part(rest, b'\n');
        let Some(more) = more else {
            return OpeningFlaw::CutLine(number);
        };
        let Some(behind) = behind_line(left, line) else {
            return line_flaw(alloc, number, line);
        };
        rest = more;
        left = behind;
        number = number.saturating_add(1);
    }
    OpeningFlaw::Ends(number)
}

/// Reads the text of an opening; no other opening has it. The error is the flaw in the first line in which it differs
/// from the text of what was read of it.
pub fn read_opening(alloc: Global, text: &[u8]) -> Result<OpeningFile, OpeningFlaw>
    // proved read, good: It reads only what has that text | other_spelling_is_read
    ensures read { IfOk result (λ file. opening_text file ≡ text.now) }
    // proved: A program in it is verified as loaded | program_gets_every_counter
    ensures good { IfOk result (λ file. IsOpeningFile file) }
    ensures fits { IfOk result (λ file. FileFits file) }
    // proved: And no other opening has it
    ensures only { IfOk result (λ file. IsOnly text.now file) }
    // proved: A text with a flaw is that of no opening
    ensures flaw { IfErr result (λ flaw. IsFlaw text.now flaw) }
{
    let Ok(file) = read_loosely(alloc, text) else {
        return Err(OpeningFlaw::OutOfMemory);
    };
    let Ok(own) = opening_text(alloc, &file) else {
        return Err(OpeningFlaw::OutOfMemory);
    };
    if !is_same(text, own.as_bytes()) {
        return Err(first_flaw(alloc, text, own.as_bytes()));
    }
    // This call brings that the numbers are in the ranges of their types.
    file_in_range(&file);
    Ok(file)
}
