// The faults of an assembler text, and the messages that describe them.

ghost use Rattle.std.specs.Prelude.{◌≡◌, ◌-◌, ℕ, [], true, IfOk, IsOk, slice_get, unwrap_or, take};
ghost use Rattle.bpf_asm.specs.Program as spec;
ghost use Rattle.bpf_asm.specs.Flaws.{line_at, begins_with_mark, ends_with_return, is_marked, Explains};
ghost use Rattle.std.specs.Fmt.{WritesOnOk};
ghost use Rattle.bpf_asm.specs.Messages.{ending, shown_byte};

use crate::AsmFault;
use crate::grammar::Line;
use crate::line::{cut, row_of};
use std::alloc::{AllocError, Global};
use std::fmt;

/// A fault with the line or the label that its message shows, if it shows one. `Display` writes the message.
#[derive(Clone, Copy)]
pub enum AsmFlaw<'a> {
    /// A1: the text begins with a byte order mark.
    ByteOrderMark,
    /// A1: the line ends with a CR before its LF.
    CarriageReturn,
    /// A1, for another reason. Also what `explain` makes of A2 for a line that is empty or can't be parsed, in which
    /// `assemble` never finds A2.
    NoForm(&'a [u8]),
    /// A2: an earlier line defines this label too.
    DuplicateLabel(&'a [u8]),
    /// A2: a jump names this label, and no line defines it.
    UndefinedLabel(&'a [u8]),
    /// A3: a number in this line is out of range.
    OutOfRange(&'a [u8]),
    /// A4: the program doesn't have 1 to 512 units of eight bytes.
    Length,
}

impl fmt::Display for AsmFlaw<'_> {
    ghost use Rattle.std.specs.Prelude.{Some};
    ghost use Rattle.bpf_asm.specs.Messages.{flaw_text};

    ghost output = { λ flaw. Some (flaw_text flaw) };

    fn fmt<W: fmt::Write>(&self, f: &mut fmt::Formatter<W>) -> fmt::Result {
        match *self {
            AsmFlaw::ByteOrderMark => f.write_str("the text begins with a byte order mark"),
            AsmFlaw::CarriageReturn => {
                f.write_str("the line ends with CR LF, and LF alone ends a line")
            }
            AsmFlaw::NoForm(line) => write!(f, "no such form: {}", Beginning(line)),
            AsmFlaw::DuplicateLabel(name) => {
                write!(f, "the label '{}' stands on a line before", Beginning(name))
            }
            AsmFlaw::UndefinedLabel(name) => write!(
                f,
                "no line has the label '{}'",
                Beginning(name)
            ),
            AsmFlaw::OutOfRange(line) => write!(f, "a number out of range: {}", Beginning(line)),
            AsmFlaw::Length => f.write_str("a program has 1 to 512 units"),
        }
    }
}

/// The most bytes of a line or a label that a message shows.
const MOST_SHOWN: usize = 80;

/// `Display` writes the first 80 bytes, and ` ..` if there are more. A byte that isn't a printable ASCII character is
/// written as `\x` and two lower case hexadecimal digits.
#[derive(Clone, Copy)]
struct Beginning<'a>(&'a [u8]);

impl fmt::Display for Beginning<'_> {
    ghost use Rattle.std.specs.Prelude.{Some};
    ghost use Rattle.bpf_asm.specs.Messages.{shown};

    ghost output = { λ b. Some (shown b.0.now) };

    fn fmt<W: fmt::Write>(&self, f: &mut fmt::Formatter<W>) -> fmt::Result {
        let first = first_bytes(self.0);
        for byte in first {
            write_byte(f, *byte)?;
        }
        f.write_str(ending(self.0))
    }
}

fn first_bytes(line: &[u8]) -> &[u8]
    ensures { result.now ≡ take 80 line.now }
{
    &line[..MOST_SHOWN.min(line.len())]
}

fn ending(line: &[u8]) -> &'static str
    ensures { result.now ≡ ending line.now }
{
    if line.len() > MOST_SHOWN { " .." } else { "" }
}

fn write_byte<W: fmt::Write>(f: &mut fmt::Formatter<W>, byte: u8) -> fmt::Result
    ensures { WritesOnOk W.write_str_gives f.old result (shown_byte byte) f.new }
{
    if (b' '..=b'~').contains(&byte) {
        f.write_char(char::from(byte))
    } else {
        write!(f, "\\x{byte:02x}")
    }
}

/// Lines count from 1. An empty line if the text has fewer.
fn line_of(alloc: Global, text: &[u8], number: u64) -> Result<&[u8], AllocError>
    ensures { IfOk result (λ line. line.now ≡ line_at text.now number) }
{
    let lines = cut(alloc, text)?;
    match lines.get(number.saturating_sub(1) as usize) {
        Some(line) => Ok(*line),
        None => Ok(&[]),
    }
}

fn has_mark(text: &[u8]) -> bool
    ensures { result ≡ begins_with_mark text.now }
{
    text.starts_with(b"\xef\xbb\xbf")
}

fn has_return(line: &[u8]) -> bool
    ensures { result ≡ ends_with_return line.now }
{
    line.ends_with(b"\r")
}

/// Finding `ByteOrderMark` takes no memory.
fn formless<'a>(alloc: Global, text: &'a [u8], number: u64) -> Result<AsmFlaw<'a>, AllocError>
    ensures flaw { IfOk result (Explains text.now (AsmFault.BadLine number)) }
    ensures mark { is_marked text.now number ≡ true → IsOk result }
{
    if number == 1 && has_mark(text) {
        return Ok(AsmFlaw::ByteOrderMark);
    }
    let line = line_of(alloc, text, number)?;
    if has_return(line) {
        Ok(AsmFlaw::CarriageReturn)
    } else {
        Ok(AsmFlaw::NoForm(line))
    }
}

/// Shows the label that line `number` defines, or that its jump names by its last token.
fn label_of<'a>(alloc: Global, text: &'a [u8], number: u64) -> Result<AsmFlaw<'a>, AllocError>
    ensures { IfOk result (Explains text.now (AsmFault.BadLabel number)) }
{
    let line = line_of(alloc, text, number)?;
    match row_of(alloc, line)? {
        Some((Line::Label, name)) => Ok(AsmFlaw::DuplicateLabel(name)),
        Some((Line::Statement(_), name)) => Ok(AsmFlaw::UndefinedLabel(name)),
        Some((Line::Empty, _)) | None => Ok(AsmFlaw::NoForm(line)),
    }
}

fn out_of_range<'a>(alloc: Global, text: &'a [u8], number: u64) -> Result<AsmFlaw<'a>, AllocError>
    ensures { IfOk result (Explains text.now (AsmFault.OutOfRange number)) }
{
    let line = line_of(alloc, text, number)?;
    Ok(AsmFlaw::OutOfRange(line))
}

/// `fault` is one that `assemble` found in this text. Never an error for `Length`, nor for `BadLine(1)` if the text
/// begins with a byte order mark; always one for `OutOfMemory`.
pub fn explain<'a>(
    alloc: Global,
    text: &'a [u8],
    fault: AsmFault,
) -> Result<AsmFlaw<'a>, AllocError>
    // proved: It shows the line or the label that a fault names
    ensures flaw { IfOk result (Explains text.now fault) }
    ensures length { fault ≡ AsmFault.Length → IsOk result }
    ensures mark { (number : ℕ) → fault ≡ AsmFault.BadLine number → is_marked text.now number ≡ true → IsOk result }
{
    match fault {
        AsmFault::BadLine(number) => formless(alloc, text, number),
        AsmFault::BadLabel(number) => label_of(alloc, text, number),
        AsmFault::OutOfRange(number) => out_of_range(alloc, text, number),
        AsmFault::Length => Ok(AsmFlaw::Length),
        AsmFault::OutOfMemory => Err(AllocError),
    }
}
