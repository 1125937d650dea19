// What an instruction did that a run executed.

use crate::calls::write_call;
use crate::kinds::{Kind, Kinds};
use crate::tracing::MachineState;
use crate::values::{address_by, number_at, word_in, write_place, write_register, write_value};
use bpf_model::instruction::{Form, Inst, Operator, Source};
use std::alloc::AllocError;
use std::fmt::Write;

/// An executed instruction: the states before and after it, where there is one after it.
#[derive(Clone, Copy)]
pub(crate) struct Executed<'a> {
    pub(crate) inst: Inst,
    pub(crate) form: Form,
    pub(crate) context: &'a [u8],
    pub(crate) before: &'a MachineState,
    pub(crate) after: Option<&'a MachineState>,
}

impl Executed<'_> {
    /// The address of the memory that it reads or writes; of a call what r2 has.
    fn address(&self) -> u64 {
        match self.form {
            Form::Load(_) | Form::LoadSigned(_) => {
                address_by(self.before, self.inst.src, self.inst)
            }
            Form::Call => word_in(self.before, 2),
            _ => address_by(self.before, self.inst.dst, self.inst),
        }
    }

    /// Writes what it read and what it did, and lets `kinds` follow.
    pub(crate) fn write(&self, out: &mut String, kinds: &mut Kinds) -> Result<(), AllocError> {
        let before = *kinds;
        kinds.follow(self.inst, self.form, self.address());
        match self.form {
            Form::Arithmetic(operator, _, source) => {
                self.write_operands(out, &before, operator, source)?;
                self.write_result(out, kinds)
            }
            Form::Wide => self.write_result(out, kinds),
            Form::Load(size) | Form::LoadSigned(size) => {
                self.write_loaded(out, &before, u64::from(size.bytes()))?;
                self.write_result(out, kinds)
            }
            Form::StoreImmediate(size) => self.write_stored(out, kinds, u64::from(size.bytes())),
            Form::StoreRegister(size) => {
                write_register(out, self.before, &before, self.inst.src)?;
                write!(out, "; ")?;
                self.write_stored(out, kinds, u64::from(size.bytes()))
            }
            Form::Ja | Form::Ja32 => self.write_next(out, "jumps to"),
            Form::Branch(_, _, source) => self.write_branch(out, &before, source),
            Form::Call => write_call(out, self),
            Form::Exit => {
                write_register(out, self.before, &before, 0)?;
                write!(out, "; ends")
            }
        }
    }

    fn write_operands(
        &self,
        out: &mut String,
        kinds: &Kinds,
        operator: Operator,
        source: Source,
    ) -> Result<(), AllocError> {
        let is_moved = matches!(operator, Operator::Mov);
        let is_alone = matches!(operator, Operator::Neg | Operator::SwapBytes);
        let reads_source = matches!(source, Source::Register) && !is_alone;
        if !is_moved {
            write_register(out, self.before, kinds, self.inst.dst)?;
            write!(out, "{}", if reads_source { ", " } else { "; " })?;
        }
        if reads_source {
            write_register(out, self.before, kinds, self.inst.src)?;
            write!(out, "; ")?;
        }
        Ok(())
    }

    /// The destination register after it.
    fn write_result(&self, out: &mut String, kinds: &Kinds) -> Result<(), AllocError> {
        match self.after {
            Some(after) => {
                write!(out, "sets ")?;
                write_register(out, after, kinds, self.inst.dst)
            }
            None => Ok(()),
        }
    }

    fn write_loaded(&self, out: &mut String, kinds: &Kinds, size: u64) -> Result<(), AllocError> {
        let base = kinds.of(self.inst.src);
        let address = self.address();
        write_place(out, base, address, size)?;
        let word = number_at(self.before, self.context, base, address, size);
        write!(out, " = ")?;
        write_value(out, kinds.loaded(self.inst, self.form, address), word)?;
        write!(out, "; ")
    }

    fn write_stored(&self, out: &mut String, kinds: &Kinds, size: u64) -> Result<(), AllocError> {
        let Some(after) = self.after else {
            return Ok(());
        };
        let address = self.address();
        write!(out, "sets ")?;
        write_place(out, Kind::Stack, address, size)?;
        let word = number_at(after, self.context, Kind::Stack, address, size);
        write!(out, " = ")?;
        write_value(out, kinds.stored(self.form, address), word)
    }

    fn write_branch(
        &self,
        out: &mut String,
        kinds: &Kinds,
        source: Source,
    ) -> Result<(), AllocError> {
        write_register(out, self.before, kinds, self.inst.dst)?;
        if matches!(source, Source::Register) {
            write!(out, ", ")?;
            write_register(out, self.before, kinds, self.inst.src)?;
        }
        let next = self.before.unit.wrapping_add(1);
        match self.after {
            Some(after) if after.unit == next => write!(out, "; goes on"),
            _ => self.write_next(out, "; jumps to"),
        }
    }

    fn write_next(&self, out: &mut String, words: &str) -> Result<(), AllocError> {
        match self.after {
            Some(after) => write!(out, "{words} {}", after.unit),
            None => Ok(()),
        }
    }
}
