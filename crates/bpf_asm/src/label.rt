// Labels, and the units that they name. A label names the first unit of the next instruction, or the end of the program
// if none follows. A row is a parsed line with a label, as `line::row_of` returns it.

ghost use Rattle.std.specs.Prelude.{◌≡◌, ◌≤◌, ◌++◌, [], ℕ, List, map, IfOk, OnOk, Some, is_some};
ghost use Rattle.bpf_asm.specs.Program as spec;

use crate::AsmFault;
use crate::grammar::{Line, Statement, Target};
use std::alloc::{AllocError, Global};

pub fn len_of(line: Line) -> u64
    ensures value { result ≡ spec.line_len_of line }
    ensures small { result ≤ 2 }
{
    match line {
        Line::Empty => 0,
        Line::Label => 0,
        Line::Statement(Statement::Plain(_, _)) => 1,
        Line::Statement(Statement::Wide(_, _)) => 2,
        Line::Statement(Statement::Jump(_, _, _)) => 1,
    }
}

pub fn units_in(rows: &[(Line, &[u8])]) -> u64
    ensures { result ≡ spec.units_in (map (λ p. spec.row p.0 p.1.now) rows.now) }
{
    let mut rest = rows;
    let mut units = 0;
    while let [row, after @ ..] = rest {
        units += len_of(row.0);
        rest = after;
    }
    units
}

fn define<'a>(
    labels: &mut Vec<(&'a [u8], u64)>,
    parsed: Line,
    name: &'a [u8],
    at: u64,
) -> Result<(), AllocError>
    ensures { OnOk result ((more : List spec.Definition) → map (λ d. spec.definition d.0.now d.1) labels.new.items
        ++ more ≡ map (λ d. spec.definition d.0.now d.1) labels.old.items ++ spec.defining parsed name.now at more) }
{
    match parsed {
        Line::Label => Ok(labels.push((name, at))?),
        Line::Empty => Ok(()),
        Line::Statement(_) => Ok(()),
    }
}

/// The labels in the order of their rows, each with the unit that it names. One that is defined twice is there twice.
pub fn labels_of<'a>(
    alloc: Global,
    rows: &[(Line, &'a [u8])],
) -> Result<Vec<(&'a [u8], u64)>, AllocError>
    ensures { IfOk result
        (λ v. map (λ d. spec.definition d.0.now d.1) v.items
        ≡ spec.labels_from 0 (map (λ p. spec.row p.0 p.1.now) rows.now)) }
{
    let mut labels = Vec::new(alloc);
    let mut rest = rows;
    let mut at = 0;
    while let [row, after @ ..] = rest {
        define(&mut labels, row.0, row.1, at)?;
        at += len_of(row.0);
        rest = after;
    }
    Ok(labels)
}

/// The unit of the first label of this name, `None` if there is none.
pub fn place_of(mut labels: &[(&[u8], u64)], name: &[u8]) -> Option<u64>
    ensures { result ≡ spec.place_found (map (λ d. spec.definition d.0.now d.1) labels.entry.now) name.now }
{
    while let [label, after @ ..] = labels {
        if label.0 == name {
            return Some(label.1);
        }
        labels = after;
    }
    None
}

fn is_among(mut names: &[&[u8]], name: &[u8]) -> bool
    ensures { result ≡ spec.is_among (map (λ t. t.now) names.entry.now) name.now }
{
    while let [other, after @ ..] = names {
        if *other == name {
            return true;
        }
        names = after;
    }
    false
}

fn jumps_to_label(statement: Statement) -> bool
    ensures { result ≡ spec.jumps_to_label statement }
{
    matches!(statement, Statement::Jump(_, _, Target::Label))
}

// `seen` has the labels of earlier rows, `labels` those of all.
fn is_wrong(labels: &[(&[u8], u64)], seen: &[&[u8]], parsed: Line, name: &[u8]) -> bool
    ensures { result ≡ spec.is_wrong (map (λ d. spec.definition d.0.now d.1) labels.now)
        (map (λ t. t.now) seen.now) parsed name.now }
{
    match parsed {
        Line::Empty => false,
        Line::Label => is_among(seen, name),
        Line::Statement(statement) => jumps_to_label(statement)
            && !place_of(labels, name).is_some(),
    }
}

fn note<'a>(seen: &mut Vec<&'a [u8]>, parsed: Line, name: &'a [u8]) -> Result<(), AllocError>
    ensures { OnOk result (map (λ t. t.now) seen.new.items
        ≡ spec.with_name parsed name.now (map (λ t. t.now) seen.old.items)) }
{
    match parsed {
        Line::Label => Ok(seen.push(name)?),
        Line::Empty => Ok(()),
        Line::Statement(_) => Ok(()),
    }
}

/// The first row, counted from 1, that defines a label for the second time, or jumps to one that isn't in `labels`
/// (what `labels_of` returns for these rows).
pub fn label_fault(
    alloc: Global,
    labels: &[(&[u8], u64)],
    rows: &[(Line, &[u8])],
) -> Result<Option<AsmFault>, AllocError>
    ensures { IfOk result
        (λ fault. fault ≡ spec.label_fault (map (λ d. spec.definition d.0.now d.1) labels.now) 1 []
        (map (λ p. spec.row p.0 p.1.now) rows.now)) }
{
    let mut seen = Vec::new(alloc);
    let mut rest = rows;
    let mut number = 1;
    while let [row, after @ ..] = rest {
        if is_wrong(labels, seen.as_slice(), row.0, row.1) {
            return Ok(Some(AsmFault::BadLabel(number)));
        }
        note(&mut seen, row.0, row.1)?;
        number += 1;
        rest = after;
    }
    Ok(None)
}
