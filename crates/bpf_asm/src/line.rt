// The lines of a text, and their parsing.

ghost use Rattle.std.specs.Prelude.{◌≡◌, ◌^◌, ◌≤◌, ◌<◌, ◌+◌, length, drop, map, take, option_map, IfOk, IfErr, Some};
ghost use Rattle.std.specs.Prelude.{false, nat_lt, Err, IsOk, None};
ghost use Rattle.std.specs.List.{list_all};
ghost use Rattle.bpf_asm.specs.Program as spec;
ghost use Rattle.bpf_asm.specs.Grammar.{line_of as parsed_line};
ghost use Rattle.bpf_asm.specs.Lex.{split};

use crate::AsmFault;
use crate::grammar::{Line, Statement, Target, Value, line_of};
use crate::lex::{code_len, kinds, split};
use crate::token::Token;
use bpf_model::instruction::Form;
use std::alloc::{AllocError, Global};

fn is_ascii(line: &[u8]) -> bool
    ensures { result ≡ list_all (λ b. nat_lt b 128) line.now }
{
    line.iter().all(|b| *b < 128)
}

fn words_of<'a>(alloc: Global, line: &'a [u8]) -> Result<Option<Vec<&'a [u8]>>, AllocError>
    ensures found { IfOk result (λ found. option_map (λ v. map (λ t. t.now) v.items) found ≡ spec.words_of line.now) }
    ensures other { list_all (λ b. nat_lt b 128) line.now ≡ false → IsOk result }
{
    if is_ascii(line) {
        split(alloc, &line[..code_len(line)])
    } else {
        Ok(None)
    }
}

fn last_word<'a>(words: &[&'a [u8]]) -> &'a [u8]
    ensures { result.now ≡ spec.last_word (map (λ t. t.now) words.now) }
{
    match words {
        [] => &[],
        [.., last] => *last,
    }
}

fn first_word<'a>(words: &[&'a [u8]]) -> &'a [u8]
    ensures { result.now ≡ spec.first_word (map (λ t. t.now) words.now) }
{
    match words {
        [] => &[],
        [first, ..] => *first,
    }
}

fn label_of<'a>(line: Line, words: &[&'a [u8]]) -> &'a [u8]
    ensures { result.now ≡ spec.label_of line (map (λ t. t.now) words.now) }
{
    match line {
        Line::Empty => &[],
        Line::Label => first_word(words),
        Line::Statement(_) => last_word(words),
    }
}

// The row of a line, given the tokens and their texts.
fn row_with<'a>(tokens: &[Token], words: &[&'a [u8]]) -> Option<(Line, &'a [u8])>
    ensures { option_map (λ p. spec.row p.0 p.1.now) result
        ≡ spec.row_with (parsed_line tokens.now) (map (λ t. t.now) words.now) }
{
    let parsed = line_of(tokens)?;
    Some((parsed, label_of(parsed, words)))
}

fn row_by<'a>(alloc: Global, words: &[&'a [u8]]) -> Result<Option<(Line, &'a [u8])>, AllocError>
    ensures { IfOk result (λ found. option_map (λ p. spec.row p.0 p.1.now) found
        ≡ spec.row_by (Some (map (λ t. t.now) words.now))) }
{
    let tokens = kinds(alloc, words)?;
    Ok(row_with(tokens.as_slice(), words))
}

/// Parses a line without its LF. The text is the label that it defines or, for an instruction, its last token (a jump's
/// label); for an empty line it is empty. `None` if the line can't be parsed, as for a byte that isn't ASCII, even in a
/// comment.
pub fn row_of<'a>(alloc: Global, line: &'a [u8]) -> Result<Option<(Line, &'a [u8])>, AllocError>
    ensures found { IfOk result (λ found. option_map (λ p. spec.row p.0 p.1.now) found ≡ spec.row_of line.now) }
    ensures other { list_all (λ b. nat_lt b 128) line.now ≡ false → IsOk result }
{
    match words_of(alloc, line)? {
        Some(words) => row_by(alloc, words.as_slice()),
        None => Ok(None),
    }
}

// From minus `half` to `half` - 1.
fn fits(half: u64, value: Value) -> bool
    ensures { result ≡ spec.fits half value }
{
    match value.size {
        None => false,
        Some(n) => { if value.negative { n <= half } else { n < half } }
    }
}

fn target_fits(form: Form, target: Target) -> bool
    ensures { result ≡ spec.target_fits form target }
{
    match (form, target) {
        (_, Target::Label) => true,
        (Form::Ja32, Target::Distance(value)) => fits(0x8000_0000, value),
        (_, Target::Distance(value)) => fits(0x8000, value),
    }
}

fn statement_fits(statement: Statement) -> bool
    ensures { result ≡ spec.statement_fits statement }
{
    match statement {
        Statement::Plain(_, parts) => fits(0x8000, parts.offset) && fits(0x8000_0000, parts.imm),
        Statement::Wide(_, n) => n.is_some(),
        Statement::Jump(form, parts, target) => fits(0x8000_0000, parts.imm)
            && target_fits(form, target),
    }
}

/// Offsets and distances must be from -2^15 to 2^15 - 1, the number of a wide load below 2^64, any other number from
/// -2^31 to 2^31 - 1.
pub fn line_fits(line: Line) -> bool
    ensures { result ≡ spec.line_fits line }
{
    match line {
        Line::Empty => true,
        Line::Label => true,
        Line::Statement(statement) => statement_fits(statement),
    }
}

fn line_len(text: &[u8]) -> usize
    ensures value { result ≡ spec.line_len text.now }
    ensures within { result ≤ length text.now }
{
    let mut at = 0;
    while at < text.len() && text[at] != b'\n' {
        at += 1;
    }
    at
}

// What follows the first line of `n` bytes and its LF.
fn past(text: &[u8], n: usize) -> &[u8]
    requires { n ≤ length text.now }
    ensures value { result.now ≡ drop (n + 1) text.now }
{
    match &text[n..] {
        [] => &[],
        [_, rest @ ..] => rest,
    }
}

/// The lines of a text without their LF. The last one needs none.
pub fn cut<'a>(alloc: Global, text: &'a [u8]) -> Result<Vec<&'a [u8]>, AllocError>
    ensures { IfOk result (λ v. map (λ t. t.now) v.items ≡ spec.cut text.now) }
{
    let mut lines = Vec::new(alloc);
    let mut rest = text;
    while !rest.is_empty() {
        let len = line_len(rest);
        let (line, _) = rest.split_at(len);
        lines.push(line)?;
        rest = past(rest, len);
    }
    Ok(lines)
}

/// Like `row_of`, with its faults for line `number`.
fn row_at<'a>(alloc: Global, number: u64, line: &'a [u8]) -> Result<(Line, &'a [u8]), AsmFault>
    ensures ok { IfOk result (λ p. spec.row_of line.now ≡ Some (spec.row p.0 p.1.now)) }
    ensures none { IfOk result (λ p. spec.row_fault number (spec.row_of line.now) ≡ None) }
    ensures refused { IfErr result (λ fault. spec.IsFault (spec.row_fault number (spec.row_of line.now)) fault) }
    ensures other { list_all (λ b. nat_lt b 128) line.now ≡ false → result ≡ Err (AsmFault.BadLine number) }
{
    let Ok(found) = row_of(alloc, line) else {
        return Err(AsmFault::OutOfMemory);
    };
    let Some((parsed, label)) = found else {
        return Err(AsmFault::BadLine(number));
    };
    if line_fits(parsed) {
        Ok((parsed, label))
    } else {
        Err(AsmFault::OutOfRange(number))
    }
}

/// Parses all lines (see `row_of`). The fault is that of the first line that can't be parsed (A1) or has a number out
/// of range (A3).
pub fn rows_of<'a>(alloc: Global, lines: &[&'a [u8]]) -> Result<Vec<(Line, &'a [u8])>, AsmFault>
    ensures ok { IfOk result
        (λ v. map (λ p. spec.row p.0 p.1.now) v.items ≡ spec.rows_of (map (λ t. t.now) lines.now)) }
    ensures none { IfOk result (λ v. spec.first_line_fault 1 (map (λ t. t.now) lines.now) ≡ None) }
    ensures refused { IfErr result
        (λ fault. spec.IsFault (spec.first_line_fault 1 (map (λ t. t.now) lines.now)) fault) }
{
    let mut rows = Vec::new(alloc);
    let mut rest = lines;
    let mut number = 1;
    while let [line, after @ ..] = rest {
        let row = match row_at(alloc, number, *line) {
            Ok(row) => row,
            Err(fault) => return Err(fault),
        };
        if rows.push(row).is_err() {
            return Err(AsmFault::OutOfMemory);
        }
        number += 1;
        rest = after;
    }
    Ok(rows)
}
