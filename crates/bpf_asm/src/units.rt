// The units of parsed instructions, and the opcodes of forms.

ghost use Rattle.std.specs.Prelude.{◌≡◌, ◌^◌, ◌≤◌, ◌+◌, ◌-ℤ◌, ◌++◌, true, pos, map, IfOk, OnOk, Some, []};
ghost use Rattle.bpf_asm.specs.Program as spec;
ghost use Rattle.bpf_model.specs.declared.limits.TheConstants.{UNITS};

use crate::grammar::{Fields, Line, Statement, Target, Value};
use crate::label::{len_of, place_of};
use bpf_model::instruction::{Condition, Form, Inst, Operator, Size, Source, Unit, Width};
use std::alloc::{AllocError, Global};

fn source_bit(source: Source) -> u8
    ensures value { result ≡ spec.source_bit source }
    ensures small { result ≤ 8 }
{
    match source {
        Source::Immediate => 0,
        Source::Register => 8,
    }
}

fn operator_code(operator: Operator) -> u8
    ensures value { result ≡ spec.operator_code operator }
    ensures small { result ≤ 13 }
{
    match operator {
        Operator::Add => 0,
        Operator::Sub => 1,
        Operator::Mul => 2,
        Operator::Div => 3,
        Operator::Or => 4,
        Operator::And => 5,
        Operator::Lsh => 6,
        Operator::Rsh => 7,
        Operator::Neg => 8,
        Operator::Mod => 9,
        Operator::Xor => 10,
        Operator::Mov => 11,
        Operator::Arsh => 12,
        Operator::SwapBytes => 13,
    }
}

fn condition_code(condition: Condition) -> u8
    ensures value { result ≡ spec.condition_code condition }
    ensures small { result ≤ 13 }
{
    match condition {
        Condition::Jeq => 1,
        Condition::Jgt => 2,
        Condition::Jge => 3,
        Condition::Jset => 4,
        Condition::Jne => 5,
        Condition::Jsgt => 6,
        Condition::Jsge => 7,
        Condition::Jlt => 10,
        Condition::Jle => 11,
        Condition::Jslt => 12,
        Condition::Jsle => 13,
    }
}

fn size_code(size: Size) -> u8
    ensures value { result ≡ spec.size_code size }
    ensures small { result ≤ 3 }
{
    match size {
        Size::Word => 0,
        Size::Half => 1,
        Size::Byte => 2,
        Size::Double => 3,
    }
}

fn arithmetic_class(width: Width) -> u8
    ensures value { result ≡ spec.arithmetic_class width }
    ensures small { result ≤ 7 }
{
    match width {
        Width::Bits32 => 4,
        Width::Bits64 => 7,
    }
}

fn jump_class(width: Width) -> u8
    ensures value { result ≡ spec.jump_class width }
    ensures small { result ≤ 7 }
{
    match width {
        Width::Bits32 => 6,
        Width::Bits64 => 5,
    }
}

pub fn opcode_of(form: Form) -> u8
    ensures { result ≡ spec.opcode_of form }
{
    match form {
        Form::Arithmetic(operator, width, source) => 16 * operator_code(operator)
            + source_bit(source)
            + arithmetic_class(width),
        Form::Wide => 0x18,
        Form::Load(size) => 0x61 + 8 * size_code(size),
        Form::LoadSigned(size) => 0x81 + 8 * size_code(size),
        Form::StoreImmediate(size) => 0x62 + 8 * size_code(size),
        Form::StoreRegister(size) => 0x63 + 8 * size_code(size),
        Form::Ja => 0x05,
        Form::Ja32 => 0x06,
        Form::Branch(condition, width, source) => 16 * condition_code(condition)
            + source_bit(source)
            + jump_class(width),
        Form::Call => 0x85,
        Form::Exit => 0x95,
    }
}

pub fn int_of(value: Value) -> i32
    requires { spec.fits (2 ^ 31) value ≡ true }
    ensures { result ≡ spec.int_of value }
{
    match value.size {
        None => 0,
        Some(n) => {
            if value.negative {
                (-(n as i64)) as i32
            } else {
                n as i32
            }
        }
    }
}

fn short_of(value: Value) -> i16
    requires { spec.fits (2 ^ 15) value ≡ true }
    ensures { result ≡ spec.int_of value }
{
    match value.size {
        None => 0,
        Some(n) => {
            if value.negative {
                (-(n as i64)) as i16
            } else {
                n as i16
            }
        }
    }
}

fn inst_of(form: Form, dst: u8, src: u8, offset: i16, imm: i32) -> Inst
    ensures { result ≡ spec.inst_of form dst src offset imm }
{
    Inst {
        opcode: opcode_of(form),
        dst,
        src,
        offset,
        imm,
    }
}

fn place_or_zero(labels: &[(&[u8], u64)], name: &[u8]) -> u64
    ensures { result ≡ spec.place_of (map (λ d. spec.definition d.0.now d.1) labels.now) name.now }
{
    match place_of(labels, name) {
        Some(place) => place,
        None => 0,
    }
}

// The distance from a jump at unit `at`, counted from the unit after it.
fn apart(place: u64, at: u64) -> i16
    requires place { place ≤ UNITS }
    requires at { at ≤ UNITS }
    ensures { result ≡ pos place -ℤ pos (at + 1) }
{
    let to = place as i16;
    let from = (at + 1) as i16;
    to - from
}

// As `apart`. A label that isn't in `labels` counts as one that names unit 0.
fn distance_to(labels: &[(&[u8], u64)], at: u64, name: &[u8]) -> i16
    requires at { at ≤ UNITS }
    requires places { spec.AreWithin UNITS (map (λ d. spec.definition d.0.now d.1) labels.now) }
    ensures { result ≡ spec.distance_of (map (λ d. spec.definition d.0.now d.1) labels.now) at name.now Target.Label }
{
    apart(place_or_zero(labels, name), at)
}

fn jump_inst(
    labels: &[(&[u8], u64)],
    at: u64,
    name: &[u8],
    form: Form,
    fields: Fields,
    target: Target,
) -> Inst
    requires fits { spec.statement_fits (Statement.Jump form fields target) ≡ true }
    requires at { at ≤ UNITS }
    requires places { spec.AreWithin UNITS (map (λ d. spec.definition d.0.now d.1) labels.now) }
    ensures { result
        ≡ spec.jump_inst form fields
        (spec.distance_of (map (λ d. spec.definition d.0.now d.1) labels.now) at name.now target) }
{
    match (form, target) {
        (Form::Ja32, Target::Label) => inst_of(
            form,
            fields.dst,
            fields.src,
            0,
            i32::from(distance_to(labels, at, name)),
        ),
        (Form::Ja32, Target::Distance(value)) => inst_of(
            form,
            fields.dst,
            fields.src,
            0,
            int_of(value),
        ),
        (_, Target::Label) => inst_of(
            form,
            fields.dst,
            fields.src,
            distance_to(labels, at, name),
            int_of(fields.imm),
        ),
        (_, Target::Distance(value)) => inst_of(
            form,
            fields.dst,
            fields.src,
            short_of(value),
            int_of(fields.imm),
        ),
    }
}

fn low_half(n: u64) -> i32
    ensures { result ≡ spec.low_half n }
{
    ((n % 4_294_967_296) as u32).cast_signed()
}

fn high_half(n: u64) -> i32
    ensures { result ≡ spec.high_half n }
{
    ((n >> 32) as u32).cast_signed()
}

fn push_wide(units: &mut Vec<Unit>, dst: u8, n: u64) -> Result<(), AllocError>
    ensures { OnOk result (units.new.items ≡ units.old.items
        ++ spec.statement_units [] 0 [] (Statement.Wide dst (Some n))) }
{
    units.push(Unit::First(inst_of(Form::Wide, dst, 0, 0, low_half(n))))?;
    Ok(units.push(Unit::Second(high_half(n)))?)
}

// Appends the units of a line, the first of which is unit `at`. `name` is used only for a jump to a label.
fn push_units(
    units: &mut Vec<Unit>,
    labels: &[(&[u8], u64)],
    at: u64,
    name: &[u8],
    parsed: Line,
) -> Result<(), AllocError>
    requires fits { spec.line_fits parsed ≡ true }
    requires at { at ≤ UNITS }
    requires places { spec.AreWithin UNITS (map (λ d. spec.definition d.0.now d.1) labels.now) }
    ensures { OnOk result (units.new.items ≡ units.old.items
        ++ spec.line_units (map (λ d. spec.definition d.0.now d.1) labels.now) at name.now parsed) }
{
    match parsed {
        Line::Empty => Ok(()),
        Line::Label => Ok(()),
        Line::Statement(Statement::Plain(form, fields)) => {
            let inst = inst_of(
                form,
                fields.dst,
                fields.src,
                short_of(fields.offset),
                int_of(fields.imm),
            );
            Ok(units.push(Unit::First(inst))?)
        }
        Line::Statement(Statement::Wide(dst, n)) => push_wide(units, dst, n.unwrap_or(0)),
        Line::Statement(Statement::Jump(form, fields, target)) => {
            let inst = jump_inst(labels, at, name, form, fields, target);
            Ok(units.push(Unit::First(inst))?)
        }
    }
}

/// `labels` are those that `label::labels_of` returns for these rows, which must have at most 512 units in all.
pub fn units_of(
    alloc: Global,
    labels: &[(&[u8], u64)],
    rows: &[(Line, &[u8])],
) -> Result<Vec<Unit>, AllocError>
    requires fits { spec.AreInRange (map (λ p. spec.row p.0 p.1.now) rows.now) }
    requires few { spec.units_in (map (λ p. spec.row p.0 p.1.now) rows.now) ≤ UNITS }
    requires places { spec.AreWithin UNITS (map (λ d. spec.definition d.0.now d.1) labels.now) }
    ensures { IfOk result
        (λ v. v.items ≡ spec.units_from (map (λ d. spec.definition d.0.now d.1) labels.now) 0
        (map (λ p. spec.row p.0 p.1.now) rows.now)) }
{
    let mut units = Vec::new(alloc);
    let mut rest = rows;
    let mut at = 0;
    while let [row, after @ ..] = rest {
        push_units(&mut units, labels, at, row.1, row.0)?;
        at += len_of(row.0);
        rest = after;
    }
    Ok(units)
}
