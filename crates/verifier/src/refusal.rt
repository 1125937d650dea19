// The reasons for which the verifier refuses a program.

ghost use Rattle.std.specs.Prelude.{◌≡◌};
ghost use Rattle.verifier.specs.Refusals.{located, refusal_numbers, decode_numbers, flow_numbers, type_numbers};

use crate::flow::FlowFault;
use crate::types::Flaw;
use bpf_model::DecodeFault;
use std::fmt;

/// What is wrong with an instruction, given the fact (the abstract state) before it. The first number is its unit,
/// counted from 0, which `Display` doesn't write; a second one is the register (0 to 10) or the argument (1 or 2) at
/// fault.
#[derive(Clone, Copy)]
pub enum TypeFault {
    FallsOff(u32),
    WriteR10(u32),
    NotANumber(u32, u32),
    NotAPointer(u32),
    OutOfRange(u32),
    UnsetBytes(u32),
    StoreToContext(u32),
    StorePointer(u32),
    PointerArithmetic(u32),
    NoSuchHelper(u32),
    BadArgument(u32, u32),
    UndeclaredCounter(u32),
}

impl fmt::Display for TypeFault {
    ghost use Rattle.std.specs.Prelude.{Some};
    ghost use Rattle.verifier.specs.RefusalWords.{type_text};

    ghost output = { λ fault. Some (type_text fault) };

    fn fmt<W: fmt::Write>(&self, f: &mut fmt::Formatter<W>) -> fmt::Result {
        match self {
            TypeFault::FallsOff(_) => f.write_str("the program runs past its last unit"),
            TypeFault::WriteR10(_) => f.write_str("r10 is written"),
            TypeFault::NotANumber(_, register) => {
                write!(f, "r{register} isn't a number, or isn't set")
            }
            TypeFault::NotAPointer(_) => f.write_str("the base register isn't a pointer"),
            TypeFault::OutOfRange(_) => f.write_str("outside the context and the stack"),
            TypeFault::UnsetBytes(_) => {
                f.write_str("stack bytes that aren't set, or no whole kept pointer")
            }
            TypeFault::StoreToContext(_) => f.write_str("a store to the context"),
            TypeFault::StorePointer(_) => {
                f.write_str("a pointer stored by fewer than 8 bytes, or not at a multiple of 8")
            }
            TypeFault::PointerArithmetic(_) => f.write_str("arithmetic on a pointer"),
            TypeFault::NoSuchHelper(_) => f.write_str("no such helper"),
            TypeFault::BadArgument(_, argument) => {
                write!(f, "argument {argument} isn't what the helper takes")
            }
            TypeFault::UndeclaredCounter(_) => f.write_str("a counter that isn't declared"),
        }
    }
}

/// Why the verifier refuses a program: a fault of decoding, of a jump or of a type; or memory ran out.
#[derive(Clone, Copy)]
pub enum Refusal {
    Decode(DecodeFault),
    Flow(FlowFault),
    Type(TypeFault),
    OutOfMemory,
}

impl fmt::Display for Refusal {
    ghost use Rattle.std.specs.Prelude.{Some};
    ghost use Rattle.verifier.specs.RefusalWords.{refusal_text};

    ghost output = { λ refusal. Some (refusal_text refusal) };

    fn fmt<W: fmt::Write>(&self, f: &mut fmt::Formatter<W>) -> fmt::Result {
        match self {
            Refusal::Decode(fault) => fmt::Display::fmt(fault, f),
            Refusal::Flow(fault) => fmt::Display::fmt(fault, f),
            Refusal::Type(fault) => fmt::Display::fmt(fault, f),
            Refusal::OutOfMemory => f.write_str("out of memory"),
        }
    }
}

fn numbers_of_decode(fault: DecodeFault) -> Option<(u32, Option<u32>, Option<u32>)>
    ensures { result ≡ decode_numbers fault }
{
    match fault {
        DecodeFault::Length => Some((1, None, None)),
        DecodeFault::BadOpcode(pc) => Some((2, Some(pc), None)),
        DecodeFault::BadField(pc) => Some((3, Some(pc), None)),
        DecodeFault::BadRegister(pc) => Some((4, Some(pc), None)),
        DecodeFault::HalfWide(pc) => Some((5, Some(pc), None)),
        DecodeFault::OutOfMemory => None,
    }
}

fn numbers_of_flow(fault: FlowFault) -> Option<(u32, Option<u32>, Option<u32>)>
    ensures { result ≡ flow_numbers fault }
{
    match fault {
        FlowFault::BackwardJump(pc) => Some((6, Some(pc), None)),
        FlowFault::JumpOut(pc) => Some((7, Some(pc), None)),
        FlowFault::JumpIntoWide(pc) => Some((8, Some(pc), None)),
        FlowFault::OutOfMemory => None,
    }
}

fn numbers_of_type(fault: TypeFault) -> (u32, Option<u32>, Option<u32>)
    ensures { result ≡ type_numbers fault }
{
    match fault {
        TypeFault::FallsOff(pc) => (9, Some(pc), None),
        TypeFault::WriteR10(pc) => (10, Some(pc), None),
        TypeFault::NotANumber(pc, register) => (11, Some(pc), Some(register)),
        TypeFault::NotAPointer(pc) => (12, Some(pc), None),
        TypeFault::OutOfRange(pc) => (13, Some(pc), None),
        TypeFault::UnsetBytes(pc) => (14, Some(pc), None),
        TypeFault::StoreToContext(pc) => (15, Some(pc), None),
        TypeFault::StorePointer(pc) => (16, Some(pc), None),
        TypeFault::PointerArithmetic(pc) => (17, Some(pc), None),
        TypeFault::NoSuchHelper(pc) => (18, Some(pc), None),
        TypeFault::BadArgument(pc, argument) => (19, Some(pc), Some(argument)),
        TypeFault::UndeclaredCounter(pc) => (20, Some(pc), None),
    }
}

impl Refusal {
    /// The number of the fault (1 for V1, to 20 for V20), its unit, and its register or argument. Only V1 (a wrong
    /// length) has no unit; only V11 (a register that isn't a number, or isn't set) and V19 (a wrong argument) have the
    /// last. `None` if memory ran out.
    pub fn fault_numbers(self) -> Option<(u32, Option<u32>, Option<u32>)>
        ensures { result ≡ refusal_numbers self }
    {
        match self {
            Refusal::Decode(fault) => numbers_of_decode(fault),
            Refusal::Flow(fault) => numbers_of_flow(fault),
            Refusal::Type(fault) => Some(numbers_of_type(fault)),
            Refusal::OutOfMemory => None,
        }
    }
}

impl Flaw {
    pub fn at(self, pc: u32) -> TypeFault
        ensures { result ≡ located pc self }
    {
        match self {
            Flaw::FallsOff => TypeFault::FallsOff(pc),
            Flaw::WriteR10 => TypeFault::WriteR10(pc),
            Flaw::NotANumber(register) => TypeFault::NotANumber(pc, u32::from(register)),
            Flaw::NotAPointer => TypeFault::NotAPointer(pc),
            Flaw::OutOfRange => TypeFault::OutOfRange(pc),
            Flaw::UnsetBytes => TypeFault::UnsetBytes(pc),
            Flaw::StoreToContext => TypeFault::StoreToContext(pc),
            Flaw::StorePointer => TypeFault::StorePointer(pc),
            Flaw::PointerArithmetic => TypeFault::PointerArithmetic(pc),
            Flaw::NoSuchHelper => TypeFault::NoSuchHelper(pc),
            Flaw::BadArgument(argument) => TypeFault::BadArgument(pc, u32::from(argument)),
            Flaw::UndeclaredCounter => TypeFault::UndeclaredCounter(pc),
        }
    }
}
