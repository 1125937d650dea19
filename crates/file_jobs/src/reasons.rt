//! The reasons why a program is refused, in words.
ghost use Rattle.std.specs.Prelude.{◌≡◌, ◌↔◌, IfOk, IsOk, IsTrue, MatchOption, Some, None, option_map, string_bytes};
ghost use Rattle.bpf_model.specs.Reading.{units};
ghost use Rattle.verifier.specs.Refusals.{refusal_numbers};
ghost use Rattle.file_jobs.specs.Reasons.{number_in, unit_in, wanted_at, wanted_by, hint_for, hint_in};
ghost use Rattle.file_jobs.specs.Reasons.{counter_hint, counter_numbered, in_second_alone, layout_hint, load_size, reads_second_layout, sets_r1};
ghost use Rattle.file_jobs.specs.Reasons.{digits_line, line_named};
ghost use Rattle.file_jobs.specs.FlawTexts.{kind_text};

use bpf_asm::instruction_line;
use bpf_asm::program_file::unit_lines;
use bpf_model::decode::decode;
use bpf_model::instruction::{Form, Inst, Unit};
use bpf_model::{Code, DecodeFault};
use std::alloc::{AllocError, Global};
use std::fmt;
use verifier::helpers::{Kind, arguments};
use verifier::{Refusal, TypeFault};

/// What a message says more of a refused program.
#[derive(Clone, Copy)]
pub enum Hint {
    /// What kind of value the argument at fault must be.
    Wanted(Kind),
    /// The load at fault reads what only a context of the second layout has.
    SecondLayout,
    /// The counter that isn't declared, and its bit of the mask.
    Counter(u32, u32),
}

/// Why a program is refused, with the line of the unit at fault.
#[derive(Drop)]
pub struct RefusedProgram {
    pub refusal: Refusal,
    /// The instruction as `fc dis` prints it, or the unit's 16 hexadecimal digits if the bytes don't decode; with an
    /// LF.
    pub line: Option<String>,
    pub hint: Option<Hint>,
}

impl fmt::Display for RefusedProgram {
    ghost use Rattle.file_jobs.specs.FlawTexts.{refused_text};

    ghost output = { λ reported. Some (refused_text reported) };

    fn fmt<W: fmt::Write>(&self, f: &mut fmt::Formatter<W>) -> fmt::Result {
        let unit = UnitAtFault(unit_of(self.refusal));
        let line = LineAtFault(&self.line);
        let wrong = Wrong(self.refusal, self.hint);
        write!(f, "{unit}{line}{wrong}")
    }
}

/// The beginning of a message, such as `unit 7: `, if a unit is at fault.
#[derive(Clone, Copy)]
struct UnitAtFault(Option<u32>);

impl fmt::Display for UnitAtFault {
    ghost use Rattle.file_jobs.specs.FlawTexts.{unit_text};

    ghost output = { λ unit. Some (unit_text unit.0) };

    fn fmt<W: fmt::Write>(&self, f: &mut fmt::Formatter<W>) -> fmt::Result {
        match self.0 {
            Some(unit) => write!(f, "unit {unit}: "),
            None => Ok(()),
        }
    }
}

/// The line of the unit at fault, without the white space at its end, and `: `.
#[derive(Clone, Copy)]
struct LineAtFault<'a>(&'a Option<String>);

impl fmt::Display for LineAtFault<'_> {
    ghost use Rattle.file_jobs.specs.FlawTexts.{line_text};

    ghost output = { λ line. Some (line_text (option_map string_bytes line.0.now)) };

    fn fmt<W: fmt::Write>(&self, f: &mut fmt::Formatter<W>) -> fmt::Result {
        match self.0 {
            Some(line) => write!(f, "{}: ", line.trim_end()),
            None => Ok(()),
        }
    }
}

/// What is wrong with an argument that isn't of this kind.
#[derive(Clone, Copy)]
struct WrongArgument(Refusal, Kind);

impl fmt::Display for WrongArgument {
    ghost use Rattle.file_jobs.specs.FlawTexts.{argument_text};

    ghost output = { λ wrong. Some (argument_text wrong.0 wrong.1) };

    fn fmt<W: fmt::Write>(&self, f: &mut fmt::Formatter<W>) -> fmt::Result {
        match self.0 {
            Refusal::Type(TypeFault::BadArgument(_, argument)) => {
                write!(f, "argument {argument} isn't {}", words_of(self.1))
            }
            refusal => write!(f, "{refusal}"),
        }
    }
}

/// A counter that isn't declared, and its bit of the mask.
#[derive(Clone, Copy)]
struct Undeclared(u32, u32);

impl fmt::Display for Undeclared {
    ghost use Rattle.file_jobs.specs.FlawTexts.{undeclared_text};

    ghost output = { λ counter. Some (undeclared_text counter.0 counter.1) };

    fn fmt<W: fmt::Write>(&self, f: &mut fmt::Formatter<W>) -> fmt::Result {
        write!(
            f,
            "counter {} isn't declared: the mask lacks {}",
            self.0, self.1
        )
    }
}

/// What is wrong where the message says more than the refusal's text.
#[derive(Clone, Copy)]
struct Hinted(Refusal, Hint);

impl fmt::Display for Hinted {
    ghost use Rattle.file_jobs.specs.FlawTexts.{hinted_text};

    ghost output = { λ wrong. Some (hinted_text wrong.0 wrong.1) };

    fn fmt<W: fmt::Write>(&self, f: &mut fmt::Formatter<W>) -> fmt::Result {
        let refusal = self.0;
        match self.1 {
            Hint::Wanted(kind) => write!(f, "{}", WrongArgument(refusal, kind)),
            Hint::SecondLayout => {
                write!(
                    f,
                    "{refusal}; load2 (--context 2) gives a context of 80 bytes"
                )
            }
            Hint::Counter(counter, bit) => write!(f, "{}", Undeclared(counter, bit)),
        }
    }
}

/// What is wrong, in words.
#[derive(Clone, Copy)]
struct Wrong(Refusal, Option<Hint>);

impl fmt::Display for Wrong {
    ghost use Rattle.file_jobs.specs.FlawTexts.{wrong_text};

    ghost output = { λ wrong. Some (wrong_text wrong.0 wrong.1) };

    fn fmt<W: fmt::Write>(&self, f: &mut fmt::Formatter<W>) -> fmt::Result {
        let refusal = self.0;
        match self.1 {
            None => write!(f, "{refusal}"),
            Some(hint) => write!(f, "{}", Hinted(refusal, hint)),
        }
    }
}

fn words_of(kind: Kind) -> &'static str
    ensures { result.now ≡ kind_text kind }
{
    match kind {
        Kind::Nothing => "anything",
        Kind::Number => "a number",
        Kind::Counter => "a constant counter",
        Kind::Place => "a place of the stack for 16 bytes",
    }
}

impl RefusedProgram {
    /// Returns the number of the fault (1 for V1, to 20 for V20), or 0 if memory ran out.
    pub fn number(&self) -> u32
        // proved: It returns the V number
        ensures { result ≡ number_in (refusal_numbers self.now.refusal) }
    {
        match self.refusal.fault_numbers() {
            Some((number, _, _)) => number,
            None => 0,
        }
    }
}

fn unit_of(refusal: Refusal) -> Option<u32>
    ensures { result ≡ unit_in (refusal_numbers refusal) }
{
    let (_, unit, _) = refusal.fault_numbers()?;
    unit
}

fn digits_of(alloc: Global, bytes: &[u8], unit: u32) -> Result<Option<String>, AllocError>
    ensures { IfOk result (λ line. option_map string_bytes line ≡ digits_line bytes.now unit) }
{
    let from = 8 * unit as usize;
    match bytes.get(from..from + 8) {
        Some(bytes) => Ok(Some(unit_lines(alloc, bytes)?)),
        None => Ok(None),
    }
}

/// Returns the kind of value that the helper of a call takes as an argument.
fn wanted_by(call: Option<&Unit>, argument: u32) -> Option<Hint>
    ensures { result ≡ option_map Hint.Wanted (wanted_by (option_map (λ u. u.now) call.entry) argument) }
{
    match call {
        Some(Unit::First(inst)) => kind_of(inst.imm, argument).map(Hint::Wanted),
        _ => None,
    }
}

fn kind_of(helper: i32, argument: u32) -> Option<Kind>
    ensures { result ≡ wanted_at helper argument }
{
    let kinds = arguments(helper)?;
    if argument == 1 {
        Some(kinds[0])
    } else if argument == 2 {
        Some(kinds[1])
    } else {
        None
    }
}

/// Returns how many bytes an instruction of this form loads, or 0 if it doesn't.
fn load_size(form: Option<Form>) -> u8
    ensures { result ≡ load_size form }
{
    match form {
        Some(Form::Load(size) | Form::LoadSigned(size)) => size.bytes(),
        _ => 0,
    }
}

fn in_second_alone(size: u8, end: i32) -> bool
    ensures { result ≡ in_second_alone size end }
{
    size > 0 && (end > 64 && end <= 80)
}

fn reads_second_layout(inst: Inst) -> bool
    ensures { result ≡ reads_second_layout inst }
{
    let size = load_size(Form::from_opcode(inst.opcode));
    let end = i32::from(inst.offset) + i32::from(size);
    inst.src != 10 && in_second_alone(size, end)
}

fn layout_hint(load: Option<&Unit>) -> Option<Hint>
    ensures { result ≡ layout_hint (option_map (λ u. u.now) load.entry) }
{
    match load {
        Some(Unit::First(inst)) if reads_second_layout(*inst) => Some(Hint::SecondLayout),
        _ => None,
    }
}

fn counter_numbered(number: i32) -> Option<Hint>
    ensures { result ≡ counter_numbered number }
{
    match u32::try_from(number) {
        Ok(counter) if counter < 32 => Some(Hint::Counter(counter, 1 << counter)),
        _ => None,
    }
}

/// Returns the counter whose number an instruction sets r1 to.
fn counter_hint(before: Option<&Unit>) -> Option<Hint>
    ensures { result ≡ counter_hint (option_map (λ u. u.now) before.entry) }
{
    match before {
        Some(Unit::First(inst)) if sets_r1(*inst) => counter_numbered(inst.imm),
        _ => None,
    }
}

/// Returns whether an instruction sets r1 to a number.
fn sets_r1(inst: Inst) -> bool
    ensures { result ≡ sets_r1 inst }
{
    (inst.opcode == 0xb7 || inst.opcode == 0xb4) && inst.dst == 1
}

fn hint_for(code: &Code, refusal: Refusal) -> Option<Hint>
    ensures { result ≡ hint_for code.now refusal }
{
    let units = code.units();
    match refusal {
        Refusal::Type(TypeFault::BadArgument(unit, argument)) => {
            wanted_by(units.get(unit as usize), argument)
        }
        Refusal::Type(TypeFault::OutOfRange(unit)) => layout_hint(units.get(unit as usize)),
        // The unit before the call mostly sets the number.
        Refusal::Type(TypeFault::UndeclaredCounter(unit)) => {
            counter_hint(units.get(unit.saturating_sub(1) as usize))
        }
        _ => None,
    }
}

fn is_memory(fault: DecodeFault) -> bool
    ensures { IsTrue result ↔ (fault ≡ DecodeFault.OutOfMemory) }
{
    fault == DecodeFault::OutOfMemory
}

/// Decodes bytes, and returns `None` if they don't decode.
fn units_of(alloc: Global, bytes: &[u8]) -> Result<Option<Code>, AllocError>
    ensures { IfOk result (λ found. MatchOption found (units bytes.now ≡ None) (λ code. units bytes.now ≡ Some code)) }
{
    match decode(alloc, bytes) {
        Ok(code) => Ok(Some(code)),
        Err(fault) => {
            if is_memory(fault) {
                Err(AllocError)
            } else {
                Ok(None)
            }
        }
    }
}

/// Returns `refusal` with the line of the unit that it names, and with what the message says more, as far as `bytes`
/// have them. Without a unit there is no error.
pub fn explain_refusal(
    alloc: Global,
    bytes: &[u8],
    refusal: Refusal,
) -> Result<RefusedProgram, AllocError>
    // proved refusal, line: It shows the instruction | refusal_without_its_instruction
    ensures refusal { IfOk result (λ reported. reported.refusal ≡ refusal) }
    ensures line { IfOk result
        (λ reported. option_map string_bytes reported.line ≡ line_named bytes.now (unit_in (refusal_numbers refusal))) }
    // proved: It says which argument, counter or layout is wanted
    ensures hint { IfOk result (λ reported. reported.hint ≡ hint_in (units bytes.now) refusal) }
    ensures unitless { unit_in (refusal_numbers refusal) ≡ None → IsOk result }
{
    let Some(unit) = unit_of(refusal) else {
        return Ok(RefusedProgram {
            refusal,
            line: None,
            hint: None,
        });
    };
    match units_of(alloc, bytes)? {
        Some(code) => {
            let line = instruction_line(alloc, &code, unit)?;
            let hint = hint_for(&code, refusal);
            Ok(RefusedProgram {
                refusal,
                line,
                hint,
            })
        }
        None => {
            let line = digits_of(alloc, bytes, unit)?;
            Ok(RefusedProgram {
                refusal,
                line,
                hint: None,
            })
        }
    }
}
