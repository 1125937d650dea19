// What a register holds, and what memory an instruction reaches, in words.

use crate::fields::{field_name, number_in};
use crate::kinds::{Kind, Kinds};
use crate::tracing::MachineState;
use bpf_model::instruction::Inst;
use std::alloc::AllocError;
use std::fmt::Write;

/// The address of the context's first byte; the stack's have those below.
const CONTEXT: u64 = 512;

pub(crate) fn word_in(state: &MachineState, register: u8) -> u64 {
    match state.frame.words.get(register as usize) {
        Some(word) => *word,
        None => 0,
    }
}

/// The address of an access by this register and the instruction's offset.
pub(crate) fn address_by(state: &MachineState, register: u8, inst: Inst) -> u64 {
    word_in(state, register).wrapping_add(i64::from(inst.offset).cast_unsigned())
}

pub(crate) fn write_value(out: &mut String, kind: Kind, word: u64) -> Result<(), AllocError> {
    match kind {
        Kind::Number => write!(out, "{word}"),
        Kind::Context => match word.wrapping_sub(CONTEXT) {
            0 => write!(out, "context"),
            bytes => write!(out, "context + {bytes}"),
        },
        Kind::Stack => match CONTEXT.wrapping_sub(word) {
            0 => write!(out, "stack"),
            bytes => write!(out, "stack - {bytes}"),
        },
    }
}

/// As in `r2 = 12`.
pub(crate) fn write_register(
    out: &mut String,
    state: &MachineState,
    kinds: &Kinds,
    register: u8,
) -> Result<(), AllocError> {
    write!(out, "r{register} = ")?;
    write_value(out, kinds.of(register), word_in(state, register))
}

/// As in `context.asked` and `stack[-8]`.
pub(crate) fn write_place(
    out: &mut String,
    base: Kind,
    address: u64,
    size: u64,
) -> Result<(), AllocError> {
    if base != Kind::Context {
        let bytes = CONTEXT.wrapping_sub(address);
        return write!(out, "stack[-{bytes}]");
    }
    let at = address.wrapping_sub(CONTEXT);
    match field_name(at, size) {
        Some(name) => write!(out, "context.{name}"),
        None => write!(out, "context[{at}]"),
    }
}

/// The number in `size` bytes of memory, without a sign.
pub(crate) fn number_at(
    state: &MachineState,
    context: &[u8],
    base: Kind,
    address: u64,
    size: u64,
) -> u64 {
    if base == Kind::Context {
        number_in(context, address.wrapping_sub(CONTEXT), size)
    } else {
        number_in(&state.frame.stack, address, size)
    }
}
