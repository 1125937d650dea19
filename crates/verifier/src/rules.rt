// The typing rules of the verifier: which types an instruction takes in its registers, and which types the registers
// have after it.

ghost use Rattle.std.specs.Prelude.{List, ◌≡◌, ℤ, ◌+ℤ◌, neg_ℤ, negsuc, pos, ◌≤ℤ◌, ◌+◌, ◌-◌, ◌^◌, ◌≤◌, ◌<◌, Bool, true};
ghost use Rattle.std.specs.Prelude.{IfOk, IfSome, Some, None, length};
ghost use Rattle.bpf_model.specs.Machine.{shifted, is_aligned};
ghost use Rattle.bpf_model.specs.Reading.{bytes_in};
ghost use Rattle.bpf_model.specs.Layouts.{context_len};
ghost use Rattle.verifier.specs.HelperCalls.{signature};
ghost use Rattle.verifier.specs.Operations.{upper_of};
ghost use Rattle.verifier.specs.Effects.{effect_of, effect_with};
ghost use Rattle.verifier.specs.Rules.{type_at, one_number, two_numbers, ctx_at, stk_at, sum_type, copied_type};
ghost use Rattle.verifier.specs.Rules.{move_type, alu_type, operand_type, unmarked, put_type, set_type, lowest};
ghost use Rattle.verifier.specs.Rules.{all_in, number_set, load_type, spill_in, reload_type, reload_or, loaded_type, marks};
ghost use Rattle.verifier.specs.Rules.{store_type, stores_pointer, stores_if_pointer, store_register, compared, exited, place_by};
ghost use Rattle.verifier.specs.Rules.{fits_counter, fits_kind, declares, is_declared, after_call, marks_record};
ghost use Rattle.verifier.specs.Rules.{record_at, call_with, call_type, effect, falls_off, checked_effect};
ghost use Rattle.bpf_model.specs.declared.limits.TheConstants.{STACK_BYTES, UNITS};

use crate::helpers::{Kind, arguments};
use crate::operations::upper_at;
use crate::spills::spilled_type;
use crate::stack_map::StackMap;
use crate::types::{Fact, Flaw, LoadOptions, RegType, StackWrite};
use bpf_model::context::Layout;
use bpf_model::instruction::{Form, Inst, Operator, Size, Source, Unit, Width};
use bpf_model::machine::shift;

fn number_type(register: u8, value: RegType) -> Result<RegType, Flaw>
    ensures { result ≡ one_number register value }
{
    if value.is_unknown() {
        Err(Flaw::NotANumber(register))
    } else if value.holds_pointer() {
        Err(Flaw::PointerArithmetic)
    } else {
        Ok(RegType::Num)
    }
}

fn numbers_type(dst: u8, src: u8, left: RegType, right: RegType) -> Result<RegType, Flaw>
    ensures { result ≡ two_numbers dst src left right }
{
    if left.is_unknown() {
        Err(Flaw::NotANumber(dst))
    } else if right.is_unknown() {
        Err(Flaw::NotANumber(src))
    } else if left.holds_pointer() || right.holds_pointer() {
        Err(Flaw::PointerArithmetic)
    } else {
        Ok(RegType::Num)
    }
}

fn stack_type(k: i32, z: i64) -> Result<RegType, Flaw>
    requires low { negsuc (2 ^ 32) ≤ℤ z }
    requires high { z ≤ℤ pos (2 ^ 32) }
    ensures { result ≡ stk_at (k +ℤ z) }
{
    let to = i64::from(k) + z;
    if -512 <= to && to <= 0 {
        Ok(RegType::Stk(to as i32))
    } else {
        Err(Flaw::OutOfRange)
    }
}

fn context_type(layout: Layout, k: u32, z: i64) -> Result<RegType, Flaw>
    ensures { result ≡ ctx_at (shifted k z (context_len layout)) }
{
    match shift(k, z, layout.len()) {
        Some(to) => Ok(RegType::Ctx(to)),
        None => Err(Flaw::OutOfRange),
    }
}

#[derive(Clone, Copy)]
struct Operands {
    left: RegType,
    right: RegType,
}

// The type of the result of ADD or SUB. `z` is what an immediate adds: a 64-bit instruction can move a pointer by it.
// In all other cases both operands must be numbers.
fn add_or_subtract(
    layout: Layout,
    width: Width,
    source: Source,
    inst: Inst,
    z: i64,
    operands: Operands,
) -> Result<RegType, Flaw>
    requires low { negsuc (2 ^ 32) ≤ℤ z }
    requires high { z ≤ℤ pos (2 ^ 32) }
    ensures { result ≡ sum_type layout width source inst z operands.left operands.right }
{
    match (width, source, operands.left) {
        (Width::Bits64, Source::Immediate, RegType::Ctx(k)) => context_type(layout, k, z),
        (Width::Bits64, Source::Immediate, RegType::Stk(k)) => stack_type(k, z),
        _ => numbers_type(inst.dst, inst.src, operands.left, operands.right),
    }
}

fn copy_register(src: u8, value: RegType) -> Result<RegType, Flaw>
    ensures { result ≡ copied_type src value }
{
    if value.is_unknown() {
        Err(Flaw::NotANumber(src))
    } else {
        Ok(value)
    }
}

fn move_operand(width: Width, source: Source, inst: Inst, right: RegType) -> Result<RegType, Flaw>
    ensures { result ≡ move_type width source inst right }
{
    match (width, source) {
        (_, Source::Immediate) => {
            if inst.offset == 0 {
                Ok(RegType::Const(width.low(width.immediate(inst.imm))))
            } else {
                Ok(RegType::Num)
            }
        }
        (Width::Bits64, Source::Register) => {
            if inst.offset == 0 {
                copy_register(inst.src, right)
            } else {
                number_type(inst.src, right)
            }
        }
        (Width::Bits32, Source::Register) => number_type(inst.src, right),
    }
}

fn opposite(imm: i32) -> i64
    ensures { result ≡ neg_ℤ imm }
{
    -i64::from(imm)
}

fn arithmetic_type(
    layout: Layout,
    operator: Operator,
    width: Width,
    source: Source,
    inst: Inst,
    operands: Operands,
) -> Result<RegType, Flaw>
    ensures { result ≡ alu_type layout operator width source inst operands.left operands.right }
{
    let Operands { left, right } = operands;
    match operator {
        Operator::Add => add_or_subtract(
            layout,
            width,
            source,
            inst,
            i64::from(inst.imm),
            operands,
        ),
        Operator::Sub => add_or_subtract(layout, width, source, inst, opposite(inst.imm), operands),
        Operator::Mov => move_operand(width, source, inst, right),
        Operator::Neg | Operator::SwapBytes => number_type(inst.dst, left),
        _ => numbers_type(inst.dst, inst.src, left, right),
    }
}

fn second_operand(source: Source, width: Width, inst: Inst, types: &[RegType; 11]) -> RegType
    requires { inst.src ≤ 10 }
    ensures { result ≡ operand_type source width inst types.now }
{
    match source {
        Source::Immediate => RegType::Const(width.immediate(inst.imm)),
        Source::Register => types[inst.src as usize],
    }
}

// Nothing is written to the stack.
const UNMARKED: StackWrite = StackWrite {
    at: 0,
    len: 0,
    spilled: RegType::Unset,
};

fn write_any_register(
    types: &mut [RegType; 11],
    dst: u8,
    value: Result<RegType, Flaw>,
) -> Result<StackWrite, Flaw>
    requires { dst ≤ 10 }
    ensures same { effect_with types.new result ≡ put_type types.old dst value }
    ensures inside { IfOk result (λ m. m.at + m.len ≤ STACK_BYTES) }
{
    let value = value?;
    types[dst as usize] = value;
    Ok(UNMARKED)
}

// R10 can't be written.
fn write_register(
    types: &mut [RegType; 11],
    dst: u8,
    value: Result<RegType, Flaw>,
) -> Result<StackWrite, Flaw>
    requires { dst ≤ 10 }
    ensures same { effect_with types.new result ≡ set_type types.old dst value }
    ensures inside { IfOk result (λ m. m.at + m.len ≤ STACK_BYTES) }
{
    if dst == 10 {
        return Err(Flaw::WriteR10);
    }
    write_any_register(types, dst, value)
}

// In bytes from the stack's lowest byte; 0 if `k` is below -512.
pub fn above_lowest_byte(k: i32) -> u32
    ensures { result ≡ lowest k }
{
    let up = i64::from(k) + 512;
    if up < 0 { 0 } else { up as u32 }
}

fn width_of(size: Size) -> u32
    ensures same { result ≡ bytes_in size }
    ensures small { result ≤ 8 }
{
    match size {
        Size::Byte => 1,
        Size::Half => 2,
        Size::Word => 4,
        Size::Double => 8,
    }
}

// Counted from the stack's lowest byte; `None` if not all `size` bytes are in the stack.
fn stack_place(k: i32, offset: i16, size: u32) -> Option<u32>
    requires { size ≤ 16 }
    ensures same { result ≡ shifted (lowest k) offset (STACK_BYTES - size) }
    ensures inside { IfSome result (λ at. at + size ≤ STACK_BYTES) }
{
    shift(above_lowest_byte(k), i64::from(offset), 512 - size)
}

fn are_set(set: &StackMap, at: u32, len: u32) -> bool
    requires { at + len ≤ STACK_BYTES }
    ensures { result ≡ all_in set.now at len }
{
    set.all_set(at, len)
}

fn set_place(set: &StackMap, size: u32, place: Option<u32>) -> Result<RegType, Flaw>
    requires { IfSome place (λ at. at + size ≤ STACK_BYTES) }
    ensures { result ≡ number_set set.now size place }
{
    match place {
        None => Err(Flaw::OutOfRange),
        Some(at) => if are_set(set, at, size) {
            Ok(RegType::Num)
        } else {
            Err(Flaw::UnsetBytes)
        },
    }
}

fn last_load(layout: Layout, size: u32) -> u32
    requires { size ≤ 8 }
    ensures { result ≡ context_len layout - size }
{
    layout.len() - size
}

fn load_number(
    layout: Layout,
    set: &StackMap,
    base: RegType,
    inst: Inst,
    size: Size,
) -> Result<RegType, Flaw>
    ensures { result ≡ load_type layout set.now base inst (bytes_in size) }
{
    let size = width_of(size);
    match base {
        RegType::Unset | RegType::Num | RegType::Const(_) => Err(Flaw::NotAPointer),
        RegType::Ctx(k) => match shift(k, i64::from(inst.offset), last_load(layout, size)) {
            Some(_) => Ok(RegType::Num),
            None => Err(Flaw::OutOfRange),
        },
        RegType::Stk(k) => set_place(set, size, stack_place(k, inst.offset, size)),
    }
}

// Only whole places of eight bytes hold pointers.
fn is_whole_place(size: u32, at: u32) -> bool
    ensures { result ≡ is_aligned size at }
{
    size == 8 && at % 8 == 0
}

fn spilled_at(spills: &[u16; 64], size: u32, place: Option<u32>) -> RegType
    requires { IfSome place (λ at. at + size ≤ STACK_BYTES) }
    ensures { result ≡ spill_in spills.now size place }
{
    match place {
        None => RegType::Unset,
        Some(at) => if is_whole_place(size, at) {
            spilled_type(spills[(at / 8) as usize])
        } else {
            RegType::Unset
        },
    }
}

fn reload_pointer(spills: &[u16; 64], base: RegType, inst: Inst, size: u32) -> RegType
    requires { size ≤ 8 }
    ensures { result ≡ reload_type spills.now base inst size }
{
    match base {
        RegType::Stk(k) => spilled_at(spills, size, stack_place(k, inst.offset, size)),
        _ => RegType::Unset,
    }
}

fn load_or_reload(
    layout: Layout,
    set: &StackMap,
    spills: &[u16; 64],
    base: RegType,
    inst: Inst,
    size: Size,
) -> Result<RegType, Flaw>
    ensures { result ≡ loaded_type layout set.now spills.now base inst (bytes_in size) }
{
    let spilled = reload_pointer(spills, base, inst, width_of(size));
    if spilled.is_unknown() {
        load_number(layout, set, base, inst, size)
    } else {
        Ok(spilled)
    }
}

fn write_number(size: u32, place: Option<u32>) -> Result<StackWrite, Flaw>
    requires { IfSome place (λ at. at + size ≤ STACK_BYTES) }
    ensures same { (types : List RegType) → effect_with types result ≡ marks types size place }
    ensures inside { IfOk result (λ m. m.at + m.len ≤ STACK_BYTES) }
{
    match place {
        None => Err(Flaw::OutOfRange),
        Some(at) => Ok(StackWrite {
            at,
            len: size,
            spilled: RegType::Unset,
        }),
    }
}

fn store_number(base: RegType, inst: Inst, size: Size) -> Result<StackWrite, Flaw>
    ensures same { (types : List RegType) → effect_with types result ≡ store_type types base inst (bytes_in size) }
    ensures inside { IfOk result (λ m. m.at + m.len ≤ STACK_BYTES) }
{
    let size = width_of(size);
    match base {
        RegType::Unset | RegType::Num | RegType::Const(_) => Err(Flaw::NotAPointer),
        RegType::Ctx(_) => Err(Flaw::StoreToContext),
        RegType::Stk(k) => write_number(size, stack_place(k, inst.offset, size)),
    }
}

fn store_pointer(value: RegType, mark: StackWrite) -> Result<StackWrite, Flaw>
    requires { mark.at + mark.len ≤ STACK_BYTES }
    ensures same { (types : List RegType) → effect_with types result ≡ stores_pointer value (effect_of types mark) }
    ensures inside { IfOk result (λ m. m.at + m.len ≤ STACK_BYTES) }
{
    if is_whole_place(mark.len, mark.at) {
        Ok(StackWrite {
            spilled: value,
            ..mark
        })
    } else {
        Err(Flaw::StorePointer)
    }
}

fn store_if_pointer(value: RegType, mark: Result<StackWrite, Flaw>) -> Result<StackWrite, Flaw>
    requires { IfOk mark (λ m. m.at + m.len ≤ STACK_BYTES) }
    ensures same { (types : List RegType) → effect_with types result
        ≡ stores_if_pointer value (effect_with types mark) }
    ensures inside { IfOk result (λ m. m.at + m.len ≤ STACK_BYTES) }
{
    let mark = mark?;
    if value.holds_pointer() {
        store_pointer(value, mark)
    } else {
        Ok(mark)
    }
}

fn store_from_register(
    base: RegType,
    value: RegType,
    inst: Inst,
    size: Size,
) -> Result<StackWrite, Flaw>
    ensures same { (types : List RegType)
        → effect_with types result ≡ store_register types base value inst (bytes_in size) }
    ensures inside { IfOk result (λ m. m.at + m.len ≤ STACK_BYTES) }
{
    if value.is_unknown() {
        return Err(Flaw::NotANumber(inst.src));
    }
    store_if_pointer(value, store_number(base, inst, size))
}

fn compare_numbers(inst: Inst, left: RegType, right: RegType) -> Result<StackWrite, Flaw>
    ensures same { (types : List RegType) → effect_with types result ≡ compared types inst.dst inst.src left right }
    ensures inside { IfOk result (λ m. m.at + m.len ≤ STACK_BYTES) }
{
    if !left.holds_number() {
        return Err(Flaw::NotANumber(inst.dst));
    }
    if !right.holds_number() {
        return Err(Flaw::NotANumber(inst.src));
    }
    Ok(UNMARKED)
}

fn exit_with(value: RegType) -> Result<StackWrite, Flaw>
    ensures same { (types : List RegType) → effect_with types result ≡ exited types value }
    ensures inside { IfOk result (λ m. m.at + m.len ≤ STACK_BYTES) }
{
    if value.holds_number() {
        Ok(UNMARKED)
    } else {
        Err(Flaw::NotANumber(0))
    }
}

// Where a helper writes a record of 16 bytes, counted from the stack's lowest byte; `None` if it doesn't fit.
fn record_place(value: RegType) -> Option<u32>
    ensures same { result ≡ place_by value }
    ensures inside { IfSome result (λ at. at + 16 ≤ STACK_BYTES) }
{
    match value {
        RegType::Stk(k) => shift(above_lowest_byte(k), 0, 496),
        _ => None,
    }
}

fn is_counter(value: RegType) -> bool
    ensures { result ≡ fits_counter value }
{
    match value {
        RegType::Const(c) => c <= 31,
        _ => false,
    }
}

fn is_right(kind: Kind, value: RegType) -> bool
    ensures { result ≡ fits_kind kind value }
{
    match kind {
        Kind::Nothing => true,
        Kind::Number => value.holds_number(),
        Kind::Counter => is_counter(value),
        Kind::Place => record_place(value).is_some(),
    }
}

fn is_counter_declared(declared: u32, value: RegType) -> bool
    requires { fits_counter value ≡ true }
    ensures { result ≡ declares declared value }
{
    match value {
        RegType::Const(c) => (declared >> c) % 2 == 1,
        _ => true,
    }
}

fn is_kind_declared(declared: u32, kind: Kind, value: RegType) -> bool
    requires { fits_kind kind value ≡ true }
    ensures { result ≡ is_declared declared kind value }
{
    match kind {
        Kind::Counter => is_counter_declared(declared, value),
        _ => true,
    }
}

fn types_after_call(types: &[RegType; 11]) -> [RegType; 11]
    ensures { result ≡ after_call types.now }
{
    let unset = RegType::Unset;
    [
        RegType::Num,
        unset,
        unset,
        unset,
        unset,
        unset,
        types[6],
        types[7],
        types[8],
        types[9],
        types[10],
    ]
}

fn written_record(kind: Kind, value: RegType) -> Option<u32>
    ensures same { result ≡ record_at kind value }
    ensures inside { IfSome result (λ at. at + 16 ≤ STACK_BYTES) }
{
    match kind {
        Kind::Place => record_place(value),
        _ => None,
    }
}

fn mark_record(place: Option<u32>) -> StackWrite
    requires { IfSome place (λ at. at + 16 ≤ STACK_BYTES) }
    ensures same { (types : List RegType) → effect_of types result ≡ marks_record types place }
    ensures inside { result.at + result.len ≤ STACK_BYTES }
{
    match place {
        None => UNMARKED,
        Some(at) => StackWrite {
            at,
            len: 16,
            spilled: RegType::Unset,
        },
    }
}

fn call_kinds(
    declared: u32,
    types: &mut [RegType; 11],
    first: Kind,
    second: Kind,
    a: RegType,
    b: RegType,
) -> Result<StackWrite, Flaw>
    ensures same { effect_with types.new result ≡ call_with declared types.old first second a b }
    ensures inside { IfOk result (λ m. m.at + m.len ≤ STACK_BYTES) }
{
    if !is_right(first, a) {
        return Err(Flaw::BadArgument(1));
    }
    if !is_right(second, b) {
        return Err(Flaw::BadArgument(2));
    }
    if !is_kind_declared(declared, first, a) {
        return Err(Flaw::UndeclaredCounter);
    }
    *types = types_after_call(types);
    Ok(mark_record(written_record(second, b)))
}

fn call_helper(declared: u32, types: &mut [RegType; 11], id: i32) -> Result<StackWrite, Flaw>
    ensures same { effect_with types.new result ≡ call_type declared types.old (signature id) }
    ensures inside { IfOk result (λ m. m.at + m.len ≤ STACK_BYTES) }
{
    let (a, b) = (types[1], types[2]);
    match arguments(id) {
        None => Err(Flaw::NoSuchHelper),
        Some(kinds) => call_kinds(declared, types, kinds[0], kinds[1], a, b),
    }
}

// Changes the types to those after the instruction, and returns what it writes to the stack. `upper` is used for a wide
// load alone.
fn transfer(
    fact: &mut Fact,
    options: LoadOptions,
    inst: Inst,
    upper: i32,
    form: Form,
) -> Result<StackWrite, Flaw>
    requires dst { inst.dst ≤ 10 }
    requires src { inst.src ≤ 10 }
    ensures same { effect_with fact.new.types result ≡ effect options fact.old inst upper form }
    ensures stack { fact.new.stack ≡ fact.old.stack }
    ensures spills { fact.new.spills ≡ fact.old.spills }
    ensures inside { IfOk result (λ m. m.at + m.len ≤ STACK_BYTES) }
{
    let (left, right) = (fact.types[inst.dst as usize], fact.types[inst.src as usize]);
    match form {
        Form::Arithmetic(operator, width, source) => {
            let operands = Operands {
                left,
                right: second_operand(source, width, inst, &fact.types),
            };
            let value = arithmetic_type(options.layout, operator, width, source, inst, operands);
            write_register(&mut fact.types, inst.dst, value)
        }
        Form::Wide => {
            let n = u64::from(upper.cast_unsigned()) * 0x1_0000_0000
                + u64::from(inst.imm.cast_unsigned());
            write_register(&mut fact.types, inst.dst, Ok(RegType::Const(n)))
        }
        Form::Load(size) => {
            let value = load_or_reload(
                options.layout,
                &fact.stack,
                &fact.spills,
                right,
                inst,
                size,
            );
            write_register(&mut fact.types, inst.dst, value)
        }
        Form::LoadSigned(size) => {
            let value = load_number(options.layout, &fact.stack, right, inst, size);
            write_register(&mut fact.types, inst.dst, value)
        }
        Form::StoreImmediate(size) => store_number(left, inst, size),
        Form::StoreRegister(size) => store_from_register(left, right, inst, size),
        Form::Ja | Form::Ja32 => Ok(UNMARKED),
        Form::Branch(_, width, source) => compare_numbers(
            inst,
            left,
            second_operand(source, width, inst, &fact.types),
        ),
        Form::Call => call_helper(options.mask, &mut fact.types, inst.imm),
        Form::Exit => exit_with(fact.types[0]),
    }
}

// The program ends before the unit to which a run could go on.
fn is_falling_off(count: u32, pc: u32, form: Form) -> bool
    requires { pc < UNITS }
    ensures { result ≡ falls_off count pc form }
{
    match form {
        Form::Exit | Form::Ja | Form::Ja32 => false,
        Form::Wide => count <= pc + 2,
        _ => count <= pc + 1,
    }
}

/// Changes the fact's types to those after the instruction, and returns what it writes to the stack, which the caller
/// must apply to the fact. Of several flaws the error is the one with the lowest number (V1 to V20), and of two with
/// this number that of the destination register or of argument 1.
pub fn check_instruction(
    units: &[Unit],
    pc: u32,
    options: LoadOptions,
    fact: &mut Fact,
    inst: Inst,
    form: Form,
) -> Result<StackWrite, Flaw>
    requires few { length units.now ≤ UNITS }
    requires pc { pc < UNITS }
    requires dst { inst.dst ≤ 10 }
    requires src { inst.src ≤ 10 }
    ensures same { effect_with fact.new.types result
        ≡ checked_effect (length units.now) pc options fact.old inst (upper_of units.now pc) form }
    ensures stack { fact.new.stack ≡ fact.old.stack }
    ensures spills { fact.new.spills ≡ fact.old.spills }
    ensures inside { IfOk result (λ m. m.at + m.len ≤ STACK_BYTES) }
{
    if is_falling_off(units.len() as u32, pc, form) {
        return Err(Flaw::FallsOff);
    }
    transfer(fact, options, inst, upper_at(units, pc), form)
}
