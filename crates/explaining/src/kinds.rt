// Which registers and places of the stack hold pointers. A run keeps plain words, where a pointer can't be told from a
// number.

use bpf_model::instruction::{Form, Inst, Operator, Size, Source, Width};

#[derive(Clone, Copy, PartialEq)]
pub(crate) enum Kind {
    Number,
    Context,
    Stack,
}

#[derive(Clone, Copy)]
pub(crate) struct Kinds {
    registers: [Kind; 11],
    /// Those of the stack's aligned places of eight bytes.
    places: [Kind; 64],
}

impl Kinds {
    pub(crate) fn at_entry() -> Kinds {
        let mut registers = [Kind::Number; 11];
        registers[1] = Kind::Context;
        registers[10] = Kind::Stack;
        Kinds {
            registers,
            places: [Kind::Number; 64],
        }
    }

    pub(crate) fn of(&self, register: u8) -> Kind {
        match self.registers.get(register as usize) {
            Some(kind) => *kind,
            None => Kind::Number,
        }
    }

    fn at(&self, address: u64) -> Kind {
        match self.places.get((address / 8) as usize) {
            Some(kind) => *kind,
            None => Kind::Number,
        }
    }

    /// The kind of what a load reads at this address.
    pub(crate) fn loaded(&self, inst: Inst, form: Form, address: u64) -> Kind {
        match form {
            Form::Load(Size::Double) if self.of(inst.src) == Kind::Stack => self.at(address),
            _ => Kind::Number,
        }
    }

    /// The kind of what a store wrote at this address.
    pub(crate) fn stored(&self, form: Form, address: u64) -> Kind {
        match form {
            Form::StoreRegister(Size::Double) => self.at(address),
            _ => Kind::Number,
        }
    }

    fn set(&mut self, register: u8, kind: Kind) {
        if let Some(place) = self.registers.get_mut(register as usize) {
            *place = kind;
        }
    }

    fn set_at(&mut self, address: u64, kind: Kind) {
        if let Some(place) = self.places.get_mut((address / 8) as usize) {
            *place = kind;
        }
    }

    /// Follows an instruction. `address` is that of the memory that it reads or writes.
    pub(crate) fn follow(&mut self, inst: Inst, form: Form, address: u64) {
        match form {
            Form::Arithmetic(operator, width, source) => {
                let kind = self.of_result(inst, operator, width, source);
                self.set(inst.dst, kind);
            }
            Form::Wide | Form::Load(_) | Form::LoadSigned(_) => {
                let kind = self.loaded(inst, form, address);
                self.set(inst.dst, kind);
            }
            Form::StoreRegister(Size::Double) => {
                let kind = self.of(inst.src);
                self.set_at(address, kind);
            }
            Form::StoreRegister(size) | Form::StoreImmediate(size) => {
                self.overwrite(address, u64::from(size.bytes()));
            }
            Form::Call => self.called(inst, address),
            Form::Ja | Form::Ja32 | Form::Branch(..) | Form::Exit => {}
        }
    }

    fn of_result(&self, inst: Inst, operator: Operator, width: Width, source: Source) -> Kind {
        match (operator, width, source) {
            (Operator::Mov, Width::Bits64, Source::Register) => self.of(inst.src),
            (Operator::Add | Operator::Sub, Width::Bits64, Source::Immediate) => self.of(inst.dst),
            _ => Kind::Number,
        }
    }

    /// Numbers were written there.
    fn overwrite(&mut self, address: u64, size: u64) {
        self.set_at(address, Kind::Number);
        self.set_at(address.wrapping_add(size.wrapping_sub(1)), Kind::Number);
    }

    /// Helper 5 writes 16 bytes at `place`.
    fn called(&mut self, inst: Inst, place: u64) {
        if inst.imm == 5 {
            self.overwrite(place, 8);
            self.overwrite(place.wrapping_add(8), 8);
        }
        for register in 0..6u8 {
            self.set(register, Kind::Number);
        }
    }
}
