// The text of an explanation.

use crate::acts::write_act;
use crate::explained::{Decision, Explained};
use crate::fields::{Field, further_fields, number_in, shared_fields};
use crate::instructions::Executed;
use crate::kinds::Kinds;
use crate::moments::{Zone, write_moment};
use crate::tracing::{MachineState, Trace};
use crate::why::write_why;
use bpf_asm::instruction_line;
use bpf_model::Code;
use bpf_model::context::Context;
use bpf_model::decode::decode;
use bpf_model::instruction::{Form, Inst, Unit};
use std::alloc::{AllocError, Global};
use std::fmt::Write;
use verifier::{Counters, Program};

/// Who asked what when, what was answered and why; then the run that decided, if one did. The moment is told in the zone,
/// or else in UTC.
pub fn explanation(
    alloc: Global,
    explained: &Explained<'_>,
    zone: &Option<Zone<'_>>,
) -> Result<String, AllocError> {
    let entry = explained.entry;
    let mut out = String::new(alloc);
    write!(out, "entry {}: ", entry.number)?;
    write_act(&mut out, &entry.act)?;
    write!(out, "\nwhen: ")?;
    write_moment(&mut out, entry.moment, zone)?;
    write!(out, "\nanswered: {}\nwhy: ", entry.reply)?;
    write_why(&mut out, explained)?;
    write!(out, "\n")?;
    if let Some(decision) = &explained.decision {
        write_decision(alloc, &mut out, decision)?;
    }
    Ok(out)
}

/// A run of a rule, and what it began with.
#[derive(Clone, Copy)]
pub(crate) struct Done<'a> {
    pub(crate) program: &'a Program,
    pub(crate) context: &'a Context,
    pub(crate) before: &'a Counters,
    pub(crate) trace: &'a Trace,
}

/// The run of a decision.
pub(crate) fn run_of(decision: &Decision) -> Done<'_> {
    Done {
        program: decision.draft.program(),
        context: decision.draft.context(),
        before: decision.draft.counters(),
        trace: &decision.trace,
    }
}

fn write_decision(alloc: Global, out: &mut String, decision: &Decision) -> Result<(), AllocError> {
    let done = run_of(decision);
    write_steps(alloc, out, &done)?;
    write_counters(out, &done)
}

/// The context, and each instruction that was executed.
pub(crate) fn write_steps(
    alloc: Global,
    out: &mut String,
    done: &Done<'_>,
) -> Result<(), AllocError> {
    let context = done.context;
    write!(out, "context:\n")?;
    write_fields(out, shared_fields(), context.bytes())?;
    write_fields(out, further_fields(context.layout()), context.bytes())?;
    let Ok(code) = decode(alloc, done.program.bytes()) else {
        return Err(AllocError);
    };
    write!(out, "run:\n")?;
    write_run(alloc, out, &code, context.bytes(), done.trace)
}

fn write_fields(out: &mut String, fields: &[Field], bytes: &[u8]) -> Result<(), AllocError> {
    for Field(name, at, size) in fields {
        let number = number_in(bytes, *at, *size);
        write!(out, "  {name} = {number}\n")?;
    }
    Ok(())
}

fn write_run(
    alloc: Global,
    out: &mut String,
    code: &Code,
    context: &[u8],
    trace: &Trace,
) -> Result<(), AllocError> {
    let mut kinds = Kinds::at_entry();
    let mut rest = trace.states.as_slice();
    while let Some((before, later)) = rest.split_first() {
        let Some((inst, form)) = instruction_at(code, before) else {
            return Ok(());
        };
        write_text(alloc, out, code, before.unit)?;
        let executed = Executed {
            inst,
            form,
            context,
            before,
            after: later.first(),
        };
        executed.write(out, &mut kinds)?;
        write!(out, "\n")?;
        rest = later;
    }
    Ok(())
}

pub(crate) fn instruction_at(code: &Code, state: &MachineState) -> Option<(Inst, Form)> {
    match code.units().get(state.unit) {
        Some(Unit::First(inst)) => match Form::from_opcode(inst.opcode) {
            Some(form) => Some((*inst, form)),
            None => None,
        },
        _ => None,
    }
}

/// As in `  3: r0 = 5000 -- `.
fn write_text(alloc: Global, out: &mut String, code: &Code, unit: usize) -> Result<(), AllocError> {
    let Ok(number) = u32::try_from(unit) else {
        return Ok(());
    };
    match instruction_line(alloc, code, number)? {
        Some(line) => write!(out, "  {number}: {} -- ", line.trim_end()),
        None => Ok(()),
    }
}

/// The counters that the program declares, before and after the run.
pub(crate) fn write_counters(out: &mut String, done: &Done<'_>) -> Result<(), AllocError> {
    let declared = done.program.declared();
    for counter in 0..32u32 {
        if (declared >> counter) % 2 == 1 {
            let (value, bound) = (done.before.get(counter), done.before.bound(counter));
            let now = done.trace.counters.get(counter);
            write!(
                out,
                "counter {counter}: {value} before, {now} after, at most {bound}\n"
            )?;
        }
    }
    Ok(())
}
