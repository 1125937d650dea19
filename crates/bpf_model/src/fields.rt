// Checks of an instruction's fields: which of them its form uses, and which values they can have.

ghost use Rattle.std.specs.Prelude.{◌≡◌, ◌||◌};
ghost use Rattle.bpf_model.specs.Reading.{uses, uses_of_source, uses_of_operator, extends_from, fits_operator};
ghost use Rattle.bpf_model.specs.Reading.{fits_form, has_valid_fields, has_valid_registers, first_fault, form_of};

use crate::instruction::{Form, Inst, Operator, Source, UnitFault, Uses, Width};

fn uses_by_source(source: Source) -> Uses
    ensures { result ≡ uses_of_source source }
{
    match source {
        Source::Immediate => Uses {
            dst: true,
            src: false,
            offset: true,
            imm: true,
        },
        Source::Register => Uses {
            dst: true,
            src: true,
            offset: true,
            imm: false,
        },
    }
}

fn uses_by_form(form: Form) -> Uses
    ensures { result ≡ uses form }
{
    match form {
        Form::Arithmetic(Operator::Neg, _, _) => Uses {
            dst: true,
            src: false,
            offset: false,
            imm: false,
        },
        Form::Arithmetic(Operator::SwapBytes, _, _) | Form::Wide => Uses {
            dst: true,
            src: false,
            offset: false,
            imm: true,
        },
        Form::Arithmetic(_, _, source) | Form::Branch(_, _, source) => uses_by_source(source),
        Form::Load(_) | Form::LoadSigned(_) | Form::StoreRegister(_) => Uses {
            dst: true,
            src: true,
            offset: true,
            imm: false,
        },
        Form::StoreImmediate(_) => Uses {
            dst: true,
            src: false,
            offset: true,
            imm: true,
        },
        Form::Ja => Uses {
            dst: false,
            src: false,
            offset: true,
            imm: false,
        },
        Form::Ja32 | Form::Call => Uses {
            dst: false,
            src: false,
            offset: false,
            imm: true,
        },
        Form::Exit => Uses {
            dst: false,
            src: false,
            offset: false,
            imm: false,
        },
    }
}

fn is_extension(width: Width, source: Source, offset: i16) -> bool
    ensures { result ≡ extends_from width source offset }
{
    match (width, source) {
        (_, Source::Immediate) => false,
        (Width::Bits32, Source::Register) => offset == 8 || offset == 16,
        (Width::Bits64, Source::Register) => offset == 8 || offset == 16 || offset == 32,
    }
}

fn is_taken(operator: Operator, width: Width, source: Source, offset: i16, imm: i32) -> bool
    ensures { result ≡ fits_operator operator width source offset imm }
{
    match operator {
        Operator::Div | Operator::Mod => offset == 0 || offset == 1,
        Operator::Mov => offset == 0 || is_extension(width, source, offset),
        Operator::SwapBytes => imm == 16 || imm == 32 || imm == 64,
        _ => offset == 0,
    }
}

fn fits(form: Form, inst: Inst) -> bool
    ensures { result ≡ fits_form form inst }
{
    match form {
        Form::Arithmetic(operator, width, source) => is_taken(
            operator,
            width,
            source,
            inst.offset,
            inst.imm,
        ),
        _ => true,
    }
}

// Whether the form uses the field (`taken`), or the field is 0 (`zero`).
fn allows(taken: bool, zero: bool) -> bool
    ensures { result ≡ (taken || zero) }
{
    taken || zero
}

fn are_right_fields(form: Form, inst: Inst) -> bool
    ensures { result ≡ has_valid_fields form inst }
{
    let taken = uses_by_form(form);
    let dst = allows(taken.dst, inst.dst == 0);
    let src = allows(taken.src, inst.src == 0);
    let offset = allows(taken.offset, inst.offset == 0);
    let imm = allows(taken.imm, inst.imm == 0);
    dst && src && offset && imm && fits(form, inst)
}

fn are_right_registers(form: Form, inst: Inst) -> bool
    ensures { result ≡ has_valid_registers form inst }
{
    let taken = uses_by_form(form);
    (!taken.dst || inst.dst <= 10) && (!taken.src || inst.src <= 10)
}

/// `last` says whether this is the program's last unit.
pub fn fault_of_first(inst: Inst, last: bool) -> Option<UnitFault>
    ensures { result ≡ first_fault (form_of inst.opcode) inst last }
{
    let Some(form) = Form::from_opcode(inst.opcode) else {
        return Some(UnitFault::Opcode);
    };
    if !are_right_fields(form, inst) {
        Some(UnitFault::Field)
    } else if !are_right_registers(form, inst) {
        Some(UnitFault::Register)
    } else if matches!(form, Form::Wide) && last {
        Some(UnitFault::HalfWide)
    } else {
        None
    }
}
