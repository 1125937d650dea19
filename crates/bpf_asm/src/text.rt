// The text of one instruction, as the disassembler writes it.

ghost use Rattle.std.specs.Prelude.{◌≡◌, ◌++◌, ◌+◌, ◌*◌, ◌^◌, ◌≤◌, [], ◌∷◌, pos, Some, OnOk, string_bytes};
ghost use Rattle.std.specs.Prelude.{codes};
ghost use Rattle.std.specs.Int.{cast_unsigned, w32};
ghost use Rattle.std.specs.Fmt.{decimal, signed_decimal};
ghost use Rattle.bpf_asm.specs.Text.{line_text, pieces, register_text, operator_text, condition_text, size_text};
ghost use Rattle.bpf_asm.specs.Text.{signed_size_text, extension_text, order_text, swap_text, instruction_text};
ghost use Rattle.bpf_asm.specs.Text.{distance, number, operand, left_width, right_pieces, wide_value, place};
ghost use Rattle.bpf_asm.specs.Text.{HasSecondOperand, Next, After};
ghost use Rattle.bpf_asm.specs.Words.{shift_text, place_text};
ghost use Rattle.bpf_model.specs.Reading.{form_of};

use bpf_model::instruction::{Condition, Form, Inst, Operator, Size, Source, Width};
use std::alloc::AllocError;

fn write_number(out: &mut String, before: &str, n: u64) -> Result<(), AllocError>
    ensures { OnOk result (string_bytes out.new ≡ string_bytes out.old ++ before.now ++ decimal n) }
{
    write!(out, "{before}{n}")
}

fn write_signed(out: &mut String, before: &str, n: i32) -> Result<(), AllocError>
    ensures { OnOk result (string_bytes out.new ≡ string_bytes out.old ++ before.now ++ signed_decimal n) }
{
    write!(out, "{before}{n}")
}

// `r` for 64 bits or `w` for 32, and its number.
fn write_register(
    out: &mut String,
    before: &str,
    width: Width,
    register: u8,
) -> Result<(), AllocError>
    ensures { OnOk result (string_bytes out.new ≡ string_bytes out.old
        ++ before.now ++ register_text width register) }
{
    out.push_str(before)?;
    match width {
        Width::Bits64 => write_number(out, "r", u64::from(register)),
        Width::Bits32 => write_number(out, "w", u64::from(register)),
    }
}

fn end_with_number(out: &mut String, n: i32) -> Result<(), AllocError>
    ensures { OnOk result (string_bytes out.new ≡ string_bytes out.old ++ line_text (number n [])) }
{
    write_signed(out, " ", n)?;
    out.push_str("\n")
}

fn end_with_register(out: &mut String, width: Width, register: u8) -> Result<(), AllocError>
    ensures { OnOk result (string_bytes out.new ≡ string_bytes out.old
        ++ line_text (After (register_text width register) ∷ [])) }
{
    write_register(out, " ", width, register)?;
    out.push_str("\n")
}

fn symbol_of_operator(operator: Operator, offset: i16) -> &'static str
    ensures { result.now ≡ operator_text operator offset }
{
    match operator {
        Operator::Add => "+=",
        Operator::Sub => "-=",
        Operator::Mul => "*=",
        Operator::Div => { if offset == 0 { "/=" } else { "s/=" } }
        Operator::Or => "|=",
        Operator::And => "&=",
        Operator::Lsh => "<<=",
        Operator::Rsh => ">>=",
        Operator::Neg => "=",
        Operator::Mod => { if offset == 0 { "%=" } else { "s%=" } }
        Operator::Xor => "^=",
        Operator::Mov => "=",
        Operator::Arsh => "s>>=",
        Operator::SwapBytes => "=",
    }
}

fn symbol_of_condition(condition: Condition) -> &'static str
    ensures { result.now ≡ condition_text condition }
{
    match condition {
        Condition::Jeq => "==",
        Condition::Jgt => ">",
        Condition::Jge => ">=",
        Condition::Jset => "&",
        Condition::Jne => "!=",
        Condition::Jsgt => "s>",
        Condition::Jsge => "s>=",
        Condition::Jlt => "<",
        Condition::Jle => "<=",
        Condition::Jslt => "s<",
        Condition::Jsle => "s<=",
    }
}

fn name_of_size(size: Size) -> &'static str
    ensures { result.now ≡ size_text size }
{
    match size {
        Size::Byte => "u8",
        Size::Half => "u16",
        Size::Word => "u32",
        Size::Double => "u64",
    }
}

fn name_of_signed(size: Size) -> &'static str
    ensures { result.now ≡ signed_size_text size }
{
    match size {
        Size::Byte => "s8",
        Size::Half => "s16",
        Size::Word => "s32",
        Size::Double => "s64",
    }
}

fn name_of_order(width: Width, source: Source) -> &'static str
    ensures { result.now ≡ order_text width source }
{
    match (width, source) {
        (Width::Bits32, Source::Immediate) => "le",
        (Width::Bits32, Source::Register) => "be",
        (Width::Bits64, _) => "bswap",
    }
}

fn name_of_extension(offset: i16) -> &'static str
    ensures { result.now ≡ extension_text offset }
{
    match offset {
        8 => "s8",
        16 => "s16",
        _ => "s32",
    }
}

// Also ends the line, as do the functions below up to `write_right`.
fn write_operand(
    out: &mut String,
    source: Source,
    width: Width,
    inst: Inst,
) -> Result<(), AllocError>
    ensures { OnOk result (string_bytes out.new ≡ string_bytes out.old
        ++ line_text (operand source width inst [])) }
{
    match source {
        Source::Immediate => end_with_number(out, inst.imm),
        Source::Register => end_with_register(out, width, inst.src),
    }
}

// What follows the `=` of END, as in ` le16 r1`.
fn write_swapped(
    out: &mut String,
    width: Width,
    source: Source,
    inst: Inst,
) -> Result<(), AllocError>
    ensures { OnOk result (string_bytes out.new ≡ string_bytes out.old
        ++ line_text (right_pieces Operator.SwapBytes width source inst)) }
{
    out.push_str(" ")?;
    let bits = u64::from(inst.imm.cast_unsigned());
    write_number(out, name_of_order(width, source), bits)?;
    end_with_register(out, Width::Bits64, inst.dst)
}

// What follows the `=` of NEG, as in ` -r1`.
fn write_negated(
    out: &mut String,
    width: Width,
    source: Source,
    inst: Inst,
) -> Result<(), AllocError>
    ensures { OnOk result (string_bytes out.new ≡ string_bytes out.old
        ++ line_text (right_pieces Operator.Neg width source inst)) }
{
    write_register(out, " -", width, inst.dst)?;
    out.push_str("\n")
}

// What follows the `=` of a sign extension, as in ` (s8)r2`.
fn write_extended(out: &mut String, width: Width, inst: Inst) -> Result<(), AllocError>
    ensures { OnOk result (string_bytes out.new ≡ string_bytes out.old
        ++ line_text (After (codes "(") ∷ Next (extension_text inst.offset) ∷ Next (codes ")")
        ∷ Next (register_text width inst.src) ∷ [])) }
{
    out.push_str(" (")?;
    out.push_str(name_of_extension(inst.offset))?;
    write_register(out, ")", width, inst.src)?;
    out.push_str("\n")
}

// What follows the `=` of MOV: a number, a register or a sign extension.
fn write_moved(out: &mut String, width: Width, source: Source, inst: Inst) -> Result<(), AllocError>
    ensures { OnOk result (string_bytes out.new ≡ string_bytes out.old
        ++ line_text (right_pieces Operator.Mov width source inst)) }
{
    match source {
        Source::Immediate => end_with_number(out, inst.imm),
        Source::Register => {
            if inst.offset == 0 {
                end_with_register(out, width, inst.src)
            } else {
                write_extended(out, width, inst)
            }
        }
    }
}

// The operator must not be NEG, END or MOV.
fn write_second(
    out: &mut String,
    operator: Operator,
    width: Width,
    source: Source,
    inst: Inst,
) -> Result<(), AllocError>
    requires { HasSecondOperand operator }
    ensures { OnOk result (string_bytes out.new ≡ string_bytes out.old
        ++ line_text (right_pieces operator width source inst)) }
{
    write_operand(out, source, width, inst)
}

fn write_right(
    out: &mut String,
    operator: Operator,
    width: Width,
    source: Source,
    inst: Inst,
) -> Result<(), AllocError>
    ensures { OnOk result (string_bytes out.new ≡ string_bytes out.old
        ++ line_text (right_pieces operator width source inst)) }
{
    match operator {
        Operator::Neg => write_negated(out, width, source, inst),
        Operator::SwapBytes => write_swapped(out, width, source, inst),
        Operator::Mov => write_moved(out, width, source, inst),
        _ => write_second(out, operator, width, source, inst),
    }
}

// END names its register by 64 bits, whatever its width says.
fn width_of_left(operator: Operator, width: Width) -> Width
    ensures { result ≡ left_width operator width }
{
    match operator {
        Operator::SwapBytes => Width::Bits64,
        _ => width,
    }
}

fn write_arithmetic(
    out: &mut String,
    operator: Operator,
    width: Width,
    source: Source,
    inst: Inst,
) -> Result<(), AllocError>
    ensures { OnOk result (string_bytes out.new ≡ string_bytes out.old
        ++ line_text (pieces (Form.Arithmetic operator width source) inst (pos 0))) }
{
    write_register(out, "", width_of_left(operator, width), inst.dst)?;
    out.push_str(" ")?;
    out.push_str(symbol_of_operator(operator, inst.offset))?;
    write_right(out, operator, width, source, inst)
}

fn wide_number(low: i32, high: i32) -> u64
    ensures { result ≡ wide_value low high }
{
    u64::from(low.cast_unsigned()) + u64::from(high.cast_unsigned()) * 4_294_967_296
}

fn write_wide(out: &mut String, dst: u8, value: u64) -> Result<(), AllocError>
    ensures { OnOk result (string_bytes out.new ≡ string_bytes out.old
        ++ line_text (Next (register_text Width.Bits64 dst) ∷ After (codes "=") ∷ After (decimal value)
        ∷ After (codes "ll") ∷ [])) }
{
    write_register(out, "", Width::Bits64, dst)?;
    write_number(out, " = ", value)?;
    out.push_str(" ll\n")
}

// As in ` + 8` or ` - 8`.
fn write_shift(out: &mut String, offset: i16) -> Result<(), AllocError>
    ensures { OnOk result (string_bytes out.new ≡ string_bytes out.old ++ shift_text offset) }
{
    if offset >= 0 {
        write_signed(out, " + ", i32::from(offset))
    } else {
        write_number(out, " - ", u64::from(offset.unsigned_abs()))
    }
}

// As in `*(u8 *)(r2 + 8)`.
fn write_place(out: &mut String, size: &str, base: u8, offset: i16) -> Result<(), AllocError>
    ensures { OnOk result (string_bytes out.new ≡ string_bytes out.old ++ place_text size.now base offset) }
{
    out.push_str("*(")?;
    out.push_str(size)?;
    write_register(out, " *)(", Width::Bits64, base)?;
    write_shift(out, offset)?;
    out.push_str(")")
}

fn write_load(out: &mut String, size: &str, inst: Inst) -> Result<(), AllocError>
    ensures { OnOk result (string_bytes out.new ≡ string_bytes out.old
        ++ line_text (Next (register_text Width.Bits64 inst.dst) ∷ After (codes "=") ∷ After (codes "*")
        ∷ place size.now inst.src inst.offset [])) }
{
    write_register(out, "", Width::Bits64, inst.dst)?;
    out.push_str(" = ")?;
    write_place(out, size, inst.src, inst.offset)?;
    out.push_str("\n")
}

fn write_number_store(out: &mut String, size: Size, inst: Inst) -> Result<(), AllocError>
    ensures { OnOk result (string_bytes out.new ≡ string_bytes out.old
        ++ line_text (pieces (Form.StoreImmediate size) inst (pos 0))) }
{
    write_place(out, name_of_size(size), inst.dst, inst.offset)?;
    out.push_str(" =")?;
    end_with_number(out, inst.imm)
}

fn write_register_store(out: &mut String, size: Size, inst: Inst) -> Result<(), AllocError>
    ensures { OnOk result (string_bytes out.new ≡ string_bytes out.old
        ++ line_text (pieces (Form.StoreRegister size) inst (pos 0))) }
{
    write_place(out, name_of_size(size), inst.dst, inst.offset)?;
    out.push_str(" =")?;
    end_with_register(out, Width::Bits64, inst.src)
}

// `word` is `goto` or `gotol`, and can begin with a space. `to` counts units from the unit after the jump.
fn write_goto(out: &mut String, word: &str, to: i32) -> Result<(), AllocError>
    ensures { OnOk result (string_bytes out.new ≡ string_bytes out.old
        ++ line_text (Next word.now ∷ distance to [])) }
{
    out.push_str(word)?;
    if to >= 0 {
        write_signed(out, " +", to)?;
        out.push_str("\n")
    } else {
        end_with_number(out, to)
    }
}

// What follows the symbol of a comparison: the second operand, the jump, and the end of the line.
fn write_compared(
    out: &mut String,
    width: Width,
    source: Source,
    inst: Inst,
) -> Result<(), AllocError>
    ensures { OnOk result (string_bytes out.new ≡ string_bytes out.old
        ++ line_text (operand source width inst (After (codes "goto") ∷ distance inst.offset []))) }
{
    let distance = i32::from(inst.offset);
    match source {
        Source::Immediate => {
            write_signed(out, " ", inst.imm)?;
            write_goto(out, " goto", distance)
        }
        Source::Register => {
            write_register(out, " ", width, inst.src)?;
            write_goto(out, " goto", distance)
        }
    }
}

fn write_branch(
    out: &mut String,
    condition: Condition,
    width: Width,
    source: Source,
    inst: Inst,
) -> Result<(), AllocError>
    ensures { OnOk result (string_bytes out.new ≡ string_bytes out.old
        ++ line_text (pieces (Form.Branch condition width source) inst (pos 0))) }
{
    write_register(out, "if ", width, inst.dst)?;
    out.push_str(" ")?;
    out.push_str(symbol_of_condition(condition))?;
    write_compared(out, width, source, inst)
}

fn write_call(out: &mut String, inst: Inst) -> Result<(), AllocError>
    ensures { OnOk result (string_bytes out.new ≡ string_bytes out.old ++ line_text (pieces Form.Call inst (pos 0))) }
{
    out.push_str("call")?;
    end_with_number(out, inst.imm)
}

/// Writes a line with its LF, or nothing if the opcode is unknown. `high` has the upper 32 bits of a wide load's
/// number.
pub fn write_instruction(out: &mut String, inst: Inst, high: i32) -> Result<(), AllocError>
    ensures { OnOk result (string_bytes out.new ≡ string_bytes out.old
        ++ instruction_text (form_of inst.opcode) inst high) }
{
    match Form::from_opcode(inst.opcode) {
        None => Ok(()),
        Some(Form::Arithmetic(operator, width, source)) => write_arithmetic(
            out, operator, width, source, inst,
        ),
        Some(Form::Wide) => write_wide(out, inst.dst, wide_number(inst.imm, high)),
        Some(Form::Load(size)) => write_load(out, name_of_size(size), inst),
        Some(Form::LoadSigned(size)) => write_load(out, name_of_signed(size), inst),
        Some(Form::StoreImmediate(size)) => write_number_store(out, size, inst),
        Some(Form::StoreRegister(size)) => write_register_store(out, size, inst),
        Some(Form::Ja) => write_goto(out, "goto", i32::from(inst.offset)),
        Some(Form::Ja32) => write_goto(out, "gotol", inst.imm),
        Some(Form::Branch(condition, width, source)) => write_branch(
            out, condition, width, source, inst,
        ),
        Some(Form::Call) => write_call(out, inst),
        Some(Form::Exit) => out.push_str("exit\n"),
    }
}
