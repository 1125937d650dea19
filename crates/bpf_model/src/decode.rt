// Programs as lists of units: decoding from bytes, and encoding to bytes.

ghost use Rattle.std.specs.Prelude.{◌≡◌, ℕ, ◌+◌, ◌*◌, ◌/◌, ◌≤◌, ◌<◌, List, length, IfOk, IfErr, OnOk, Some, true, []};
ghost use Rattle.std.specs.Prelude.{◌∷◌, ◌++◌, ◌&&◌, Err, false};
ghost use Rattle.bpf_model.specs.Reading.{begins, units, unit_fault, unit_at, units_below, fault_below};
ghost use Rattle.bpf_model.specs.Reading.{has_valid_length, imm_at, fields_at, is_wide, form_of};
ghost use Rattle.bpf_model.specs.Encoded.{encoded, unit_bytes};
ghost use Rattle.bpf_model.specs.Making.{AreUnits};
ghost use Rattle.bpf_model.specs.DecodeFaults.{IsRefusedFor, IsProgram, IsDecodingInjective, numbered};
ghost use Rattle.bpf_model.specs.declared.limits.TheConstants.{UNITS, PROGRAM_BYTES};

use crate::fields::fault_of_first;
use crate::instruction::{Form, Inst, Unit, UnitFault};
use byteorder::{ByteOrder, LittleEndian};
use std::alloc::{AllocError, Global};
use std::fmt;
use std::marker::Model;

/// Why bytes are no program. The number in a variant is that of the first wrong unit, counted from 0. `Display` doesn't
/// write it.
#[derive(Clone, Copy, PartialEq)]
pub enum DecodeFault {
    Length,
    BadOpcode(u32),
    BadField(u32),
    BadRegister(u32),
    HalfWide(u32),
    OutOfMemory,
}

impl fmt::Display for DecodeFault {
    ghost use Rattle.std.specs.Prelude.{Some};
    ghost use Rattle.bpf_model.specs.DecodeWords.{decode_text};

    ghost output = { λ fault. Some (decode_text fault) };

    fn fmt<W: fmt::Write>(&self, f: &mut fmt::Formatter<W>) -> fmt::Result {
        match self {
            DecodeFault::Length => f.write_str("a program has 1 to 512 units of 8 bytes"),
            DecodeFault::BadOpcode(_) => f.write_str("no such opcode"),
            DecodeFault::BadField(_) => {
                f.write_str("a field that must be 0, or has another value than the form takes")
            }
            DecodeFault::BadRegister(_) => f.write_str("no such register"),
            DecodeFault::HalfWide(_) => f.write_str("a wide load without its second unit"),
            DecodeFault::OutOfMemory => f.write_str("out of memory"),
        }
    }
}

/// A decoded program of 1 to 512 units.
#[derive(Drop)]
pub struct Code {
    units: Vec<Unit>,
}

impl Model for Code {
    ghost use Rattle.std.specs.Prelude.{List};
    ghost use Rattle.bpf_model.specs.declared.instruction.Unit.{Unit as ProgramUnit};
    ghost use Rattle.bpf_model.specs.DecodeFaults.{IsProgram};

    ghost Value = { List ProgramUnit };

    ghost view = { λ c. c.units.items };

    ghost invariant = { λ c. IsProgram c.units.items };
}

impl Code {
    /// The units must be instructions without a fault, each wide load followed by its second unit.
    pub fn from_units(units: Vec<Unit>) -> Code
        requires sound { AreUnits true units.items }
        requires some { 0 < length units.items }
        requires few { length units.items ≤ UNITS }
        ensures { result ≡ units.items }
    {
        Code { units }
    }

    pub fn units(&self) -> &[Unit]
        ensures same { result.now ≡ self.now }
        ensures program { IsProgram self.now }
        ensures count { (0 < length self.now) × (length self.now ≤ UNITS) }
    {
        self.units.as_slice()
    }
}

fn fields_of(bytes: &[u8], pc: usize) -> Inst
    requires { 8 * pc + 8 ≤ length bytes.now }
    ensures { result ≡ fields_at bytes.now pc }
{
    let registers = bytes[8 * pc + 1];
    Inst {
        opcode: bytes[8 * pc],
        dst: registers % 16,
        src: registers / 16,
        offset: LittleEndian::read_i16(&bytes[8 * pc + 2..]),
        imm: LittleEndian::read_i32(&bytes[8 * pc + 4..]),
    }
}

fn imm_of(bytes: &[u8], pc: usize) -> i32
    requires { 8 * pc + 8 ≤ length bytes.now }
    ensures { result ≡ imm_at bytes.now pc }
{
    LittleEndian::read_i32(&bytes[8 * pc + 4..])
}

// `first` says whether an instruction begins at the unit.
fn fault_of_unit(bytes: &[u8], pc: usize, first: bool) -> Option<UnitFault>
    requires room { 8 * pc + 8 ≤ length bytes.now }
    requires small { length bytes.now ≤ PROGRAM_BYTES }
    requires place { first ≡ begins bytes.now pc }
    ensures { result ≡ unit_fault bytes.now pc }
{
    if first {
        fault_of_first(fields_of(bytes, pc), bytes.len() / 8 <= pc + 1)
    } else if LittleEndian::read_u32(&bytes[8 * pc..]) == 0 {
        None
    } else {
        Some(UnitFault::Field)
    }
}

fn read_unit(bytes: &[u8], pc: usize, first: bool) -> Unit
    requires room { 8 * pc + 8 ≤ length bytes.now }
    requires small { length bytes.now ≤ PROGRAM_BYTES }
    requires place { first ≡ begins bytes.now pc }
    ensures { result ≡ unit_at bytes.now pc }
{
    if first {
        Unit::First(fields_of(bytes, pc))
    } else {
        Unit::Second(imm_of(bytes, pc))
    }
}

fn fault_at(fault: UnitFault, pc: u32) -> DecodeFault
    ensures { result ≡ numbered fault pc }
{
    match fault {
        UnitFault::Opcode => DecodeFault::BadOpcode(pc),
        UnitFault::Field => DecodeFault::BadField(pc),
        UnitFault::Register => DecodeFault::BadRegister(pc),
        UnitFault::HalfWide => DecodeFault::HalfWide(pc),
    }
}

fn begins_wide(first: bool, opcode: u8) -> bool
    ensures { result ≡ (first && is_wide (form_of opcode)) }
{
    first && matches!(Form::from_opcode(opcode), Some(Form::Wide))
}

fn keep(units: &mut Vec<Unit>, unit: Unit) -> Result<(), DecodeFault>
    ensures kept { OnOk result (units.new.items ≡ units.old.items ++ unit ∷ []) }
    ensures refused { IfErr result (λ e. e ≡ DecodeFault.OutOfMemory) }
{
    match units.push(unit) {
        Ok(()) => Ok(()),
        Err(_) => Err(DecodeFault::OutOfMemory),
    }
}

/// The error is `Length` if the bytes aren't 1 to 512 units of 8, or else the fault of the first wrong unit, or that
/// memory ran out.
pub fn decode(alloc: Global, bytes: &[u8]) -> Result<Code, DecodeFault>
    // proved: It is Ok exactly with the units of the bytes | halves_a_second_unit
    ensures ok { IfOk result (λ code. units bytes.now ≡ Some code) }
    // proved refused, length: Each refusal is the first | names_the_register_before_the_field
    ensures refused { IfErr result (λ fault. IsRefusedFor bytes.now fault) }
    ensures length { has_valid_length bytes.now ≡ false → result ≡ Err DecodeFault.Length }
{
    let len = bytes.len();
    if len % 8 != 0 || len < 8 || len > 4096 {
        return Err(DecodeFault::Length);
    }
    let mut units = Vec::new(alloc);
    let mut first = true;
    for pc in 0..len / 8 {
        if let Some(fault) = fault_of_unit(bytes, pc, first) {
            return Err(fault_at(fault, pc as u32));
        }
        if let Err(fault) = keep(&mut units, read_unit(bytes, pc, first)) {
            return Err(fault);
        }
        first = !begins_wide(first, bytes[8 * pc]);
    }
    Ok(Code { units })
}

fn bytes_of(unit: Unit) -> [u8; 8]
    ensures { result ≡ unit_bytes unit }
{
    match unit {
        Unit::First(inst) => {
            let registers = inst.dst % 16 + 16 * (inst.src % 16);
            let offset = inst.offset.to_le_bytes();
            let imm = inst.imm.to_le_bytes();
            [
                inst.opcode,
                registers,
                offset[0],
                offset[1],
                imm[0],
                imm[1],
                imm[2],
                imm[3],
            ]
        }
        Unit::Second(upper) => {
            let upper = upper.to_le_bytes();
            [0, 0, 0, 0, upper[0], upper[1], upper[2], upper[3]]
        }
    }
}

pub fn encode(alloc: Global, code: &Code) -> Result<Vec<u8>, AllocError>
    // proved bytes, read_back: What it writes is read back | writes_registers_the_other_way_round
    ensures bytes { IfOk result (λ bytes. bytes.items ≡ encoded code.now) }
    ensures read_back { IfOk result (λ bytes. units bytes.items ≡ Some code.now) }
{
    let units = code.units();
    let mut bytes = Vec::new(alloc);
    for unit in units {
        bytes.extend_from_slice(&bytes_of(*unit))?;
    }
    Ok(bytes)
}

/// A law: no two different lists of bytes decode to the same program.
pub fn law_of_injective_decoding()
    // proved: No two byte lists are one program
    ensures { IsDecodingInjective }
{}
