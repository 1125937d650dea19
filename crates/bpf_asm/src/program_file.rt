//! Program files: the bytes of a program as hexadecimal digits. Blanks are skipped.
ghost use Rattle.std.specs.Prelude.{◌≡◌, ◌*◌, ◌+◌, ◌%◌, ◌≤◌, ◌<◌, length, filter, not, IfOk, OnOk, Err, ◌++◌, string_bytes};
ghost use Rattle.bpf_asm.specs.ProgramFile.{Gives, bytes_or_fault, program_in, is_blank, unit_line, unit_lines};
ghost use Rattle.hex.specs.Hex.{decode_of};

use hex::FromHexError;
use std::alloc::{AllocError, Global};
use std::fmt;

/// The most bytes that a program file or an assembler text can have.
pub const MOST_BYTES: usize = 65_536;

#[derive(Clone, Copy)]
pub enum ProgramFileFault {
    /// L1: the file has more than `MOST_BYTES` bytes.
    TooLong,
    /// H1: a byte is neither a hexadecimal digit nor a blank, or the number of digits is odd.
    BadDigits,
    OutOfMemory,
}

impl fmt::Display for ProgramFileFault {
    ghost use Rattle.std.specs.Prelude.{Some};
    ghost use Rattle.bpf_asm.specs.Messages.{program_file_text};

    ghost output = { λ fault. Some (program_file_text fault) };

    fn fmt<W: fmt::Write>(&self, f: &mut fmt::Formatter<W>) -> fmt::Result {
        match self {
            ProgramFileFault::TooLong => f.write_str("over 65,536 bytes"),
            ProgramFileFault::BadDigits => f.write_str(
                "another byte than hexadecimal digits and blanks, or an odd count of digits",
            ),
            ProgramFileFault::OutOfMemory => f.write_str("out of memory"),
        }
    }
}

impl From<AllocError> for ProgramFileFault {
    ghost use Rattle.bpf_asm.specs.declared.program_file.ProgramFileFault.TheVariants.{OutOfMemory};

    ghost from_gives = { λ _ e. e ≡ OutOfMemory };

    fn from(_: AllocError) -> Self {
        ProgramFileFault::OutOfMemory
    }
}

fn is_a_blank(byte: u8) -> bool
    ensures { result ≡ is_blank byte }
{
    byte == b' ' || byte == b'\t' || byte == b'\r' || byte == b'\n'
}

fn without_blanks(alloc: Global, text: &[u8]) -> Result<Vec<u8>, AllocError>
    ensures { IfOk result (λ kept. kept.items ≡ filter (λ b. not (is_blank b)) text.now) }
{
    text.iter()
        .copied()
        .filter(|byte| !is_a_blank(*byte))
        .collect(alloc)
}

/// An odd number of digits always gives `BadDigits`, also where memory is short.
fn bytes_of(alloc: Global, digits: &[u8]) -> Result<Vec<u8>, ProgramFileFault>
    ensures given { Gives (λ bytes. bytes.items) result (bytes_or_fault (decode_of digits.now)) }
    ensures odd { length digits.now % 2 ≡ 1 → result ≡ Err ProgramFileFault.BadDigits }
{
    match hex::decode(alloc, digits) {
        Ok(bytes) => Ok(bytes),
        Err(FromHexError::OutOfMemory) => Err(ProgramFileFault::OutOfMemory),
        Err(FromHexError::InvalidHexCharacter { .. }) => Err(ProgramFileFault::BadDigits),
        Err(FromHexError::OddLength) => Err(ProgramFileFault::BadDigits),
        Err(FromHexError::InvalidStringLength) => Err(ProgramFileFault::BadDigits),
    }
}

/// Reads a program file of at most 65,536 bytes: hexadecimal digits in lower or upper case, with spaces, tabs, CR and
/// LF between them.
#[tactic(auto, unfolding(crate::specs::ProgramFile::program_in))]
pub fn read_program(alloc: Global, text: &[u8]) -> Result<Vec<u8>, ProgramFileFault>
    // proved given, length: It reads program files
    ensures given { Gives (λ bytes. bytes.items) result (program_in text.now) }
    ensures length { 65536 < length text.now → result ≡ Err ProgramFileFault.TooLong }
{
    if text.len() > MOST_BYTES {
        return Err(ProgramFileFault::TooLong);
    }
    let digits = without_blanks(alloc, text)?;
    bytes_of(alloc, digits.as_slice())
}

/// Appends unit number `unit`, counted from 0, as 16 lower case hexadecimal digits and an LF.
fn push_line(alloc: Global, text: &mut String, bytes: &[u8], unit: usize) -> Result<(), AllocError>
    requires { 8 * unit + 8 ≤ length bytes.now }
    ensures { OnOk result (string_bytes text.new ≡ string_bytes text.old ++ unit_line bytes.now unit) }
{
    let digits = hex::encode(alloc, &bytes[8 * unit..8 * unit + 8])?;
    text.push_str(digits.as_str())?;
    text.push('\n')
}

/// A line of 16 lower case hexadecimal digits and an LF for each whole unit of 8 bytes. Further bytes are left out.
pub fn unit_lines(alloc: Global, bytes: &[u8]) -> Result<String, AllocError>
    ensures { IfOk result (λ text. string_bytes text ≡ unit_lines bytes.now) }
{
    let mut text = String::new(alloc);
    for unit in 0..bytes.len() / 8 {
        push_line(alloc, &mut text, bytes, unit)?;
    }
    Ok(text)
}
