// The check that each jump of a program goes forward to the first unit of an instruction; and where its jumps go.

ghost use Rattle.std.specs.Prelude.{◌≡◌, ℕ, ◌+◌, ◌≤◌, ◌<◌, length, slice_get, IfOk, IfErr, IfSome, Some, None};
ghost use Rattle.bpf_model.specs.Reading.{form_of};
ghost use Rattle.bpf_model.specs.Flow.{distance_by, distance_of, distance_fault, jump_fault, landing_fault, flow_fault};
ghost use Rattle.bpf_model.specs.Flow.{target, IsAhead, GoesForward};
ghost use Rattle.verifier.specs.FlowFaults.{IsFirstFlowFault, numbered};
ghost use Rattle.bpf_model.specs.declared.limits.TheConstants.{UNITS};

use bpf_model::Code;
use bpf_model::instruction::{Form, Inst, JumpFault, Unit};
use bpf_model::machine::shift;
use std::alloc::Global;
use std::fmt;
use std::marker::Model;

/// The number in a variant is that of the first wrong jump's unit, counted from 0. `Display` doesn't write it.
#[derive(Clone, Copy)]
pub enum FlowFault {
    BackwardJump(u32),
    JumpOut(u32),
    JumpIntoWide(u32),
    OutOfMemory,
}

impl fmt::Display for FlowFault {
    ghost use Rattle.std.specs.Prelude.{Some};
    ghost use Rattle.verifier.specs.FlowWords.{flow_text};

    ghost output = { λ fault. Some (flow_text fault) };

    fn fmt<W: fmt::Write>(&self, f: &mut fmt::Formatter<W>) -> fmt::Result {
        match self {
            FlowFault::BackwardJump(_) => f.write_str("a jump backwards"),
            FlowFault::JumpOut(_) => f.write_str("a jump past the last unit"),
            FlowFault::JumpIntoWide(_) => f.write_str("a jump into a wide load"),
            FlowFault::OutOfMemory => f.write_str("out of memory"),
        }
    }
}

/// A program whose jumps all go forward to the first unit of an instruction.
#[derive(Drop)]
pub struct Flow {
    code: Code,
}

impl Model for Flow {
    ghost use Rattle.std.specs.Prelude.{List};
    ghost use Rattle.bpf_model.specs.declared.instruction.Unit.{Unit as ProgramUnit};
    ghost use Rattle.bpf_model.specs.Flow.{GoesForward};

    ghost Value = { List ProgramUnit };

    ghost view = { λ f. f.code };

    ghost invariant = { λ f. GoesForward f.code };
}

// In units from the unit after the jump; `None` if the instruction isn't a jump.
fn distance_in(inst: Inst) -> Option<i64>
    ensures { result ≡ distance_by (form_of inst.opcode) inst }
{
    match Form::from_opcode(inst.opcode) {
        Some(Form::Ja | Form::Branch(_, _, _)) => Some(i64::from(inst.offset)),
        Some(Form::Ja32) => Some(i64::from(inst.imm)),
        _ => None,
    }
}

fn distance(unit: Unit) -> Option<i64>
    ensures { result ≡ distance_of unit }
{
    match unit {
        Unit::First(inst) => distance_in(inst),
        Unit::Second(_) => None,
    }
}

fn fault_of_landing(landing: Option<Unit>) -> Option<JumpFault>
    ensures { result ≡ landing_fault landing }
{
    match landing {
        None => Some(JumpFault::Out),
        Some(Unit::First(_)) => None,
        Some(Unit::Second(_)) => Some(JumpFault::IntoWide),
    }
}

fn fault_of_distance(units: &[Unit], pc: usize, distance: Option<i64>) -> Option<JumpFault>
    requires { pc < UNITS }
    ensures { result ≡ distance_fault units.now pc distance }
{
    let distance = distance?;
    if distance < 0 {
        return Some(JumpFault::Backward);
    }
    fault_of_landing(units.get(pc + 1 + distance as usize).copied())
}

fn fault_of_jump(units: &[Unit], pc: usize) -> Option<JumpFault>
    requires inside { pc < length units.now }
    requires small { length units.now ≤ UNITS }
    ensures { result ≡ jump_fault units.now pc }
{
    fault_of_distance(units, pc, distance(units[pc]))
}

fn first_jump_fault(units: &[Unit]) -> Option<(u32, JumpFault)>
    requires { length units.now ≤ UNITS }
    ensures { result ≡ flow_fault units.now }
{
    for pc in 0..units.len() {
        if let Some(fault) = fault_of_jump(units, pc) {
            return Some((pc as u32, fault));
        }
    }
    None
}

fn target_in(units: &[Unit], pc: u32) -> Option<u32>
    requires { length units.now ≤ UNITS }
    ensures { result ≡ target units.now pc }
{
    let distance = distance(*units.get(pc as usize)?)?;
    shift(pc + 1, distance, 512)
}

fn fault_at(fault: JumpFault, pc: u32) -> FlowFault
    ensures { result ≡ numbered fault pc }
{
    match fault {
        JumpFault::Backward => FlowFault::BackwardJump(pc),
        JumpFault::Out => FlowFault::JumpOut(pc),
        JumpFault::IntoWide => FlowFault::JumpIntoWide(pc),
    }
}

/// Checks also jumps that no run reaches. Never fails for want of memory, since none is taken.
pub fn check_flow(_alloc: Global, code: Code) -> Result<Flow, FlowFault>
    // proved: Ok exactly where jumps go to instructions ahead | takes_a_jump_into_a_wide_load
    ensures ok { IfOk result (λ flow. (flow ≡ code) × (flow_fault code ≡ None)) }
    // proved: Else it names the first jump at fault | names_the_jump_after
    ensures refused { IfErr result (λ fault. IsFirstFlowFault code fault) }
{
    match first_jump_fault(code.units()) {
        Some((pc, fault)) => Err(fault_at(fault, pc)),
        None => Ok(Flow { code }),
    }
}

impl Flow {
    pub fn code(&self) -> &Code
        ensures same { result.now ≡ self.now }
        ensures forward { GoesForward self.now }
    {
        &self.code
    }

    /// The unit to which the jump at unit `pc` goes; `None` if no jump begins there.
    pub fn target(&self, pc: u32) -> Option<u32>
        // proved same, ahead: It gives a jump's target, which is ahead | targets_one_unit_too_far
        ensures same { result ≡ target self.now pc }
        ensures ahead { IfSome result (λ to. IsAhead self.now pc to) }
    {
        target_in(self.code.units(), pc)
    }
}
