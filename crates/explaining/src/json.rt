//! Runs and explanations as objects of JSON.
ghost use Rattle.std.specs.Prelude.{◌<◌};
ghost use Rattle.bpf_model.specs.declared.limits.TheConstants.{COUNTERS};

use crate::explained::{Decision, Explained};
use crate::fields::{Field, further_fields, number_in, shared_fields};
use crate::instructions::Executed;
use crate::kinds::Kinds;
use crate::moments::{Zone, write_local};
use crate::tracing::Trace;
use crate::why::write_why;
use crate::writing::{Done, instruction_at, run_of};
use bpf_asm::instruction_line;
use bpf_model::Code;
use bpf_model::context::Context;
use bpf_model::decode::decode;
use decision_journal::Entry;
use fuelling_point::DispenserEvent;
use serde_json::{Map, Value, put};
use std::alloc::{AllocError, Global};
use till_request::{Act, Request};

type Members = Map<String, Value>;

pub(crate) fn put_number(
    members: &mut Members,
    alloc: Global,
    name: &str,
    number: u64,
) -> Result<(), AllocError> {
    put(members, alloc, name, Value::from(number))
}

pub(crate) fn put_word(
    members: &mut Members,
    alloc: Global,
    name: &str,
    word: &str,
) -> Result<(), AllocError> {
    let value = Value::try_from_str(alloc, word)?;
    put(members, alloc, name, value)
}

/// An explanation as one object of JSON, with a LF.
pub fn explanation_json(
    alloc: Global,
    explained: &Explained<'_>,
    zone: &Option<Zone<'_>>,
) -> Result<String, AllocError> {
    let entry = explained.entry;
    let mut members = Map::new(alloc);
    put_number(&mut members, alloc, "entry", u64::from(entry.number))?;
    put_number(&mut members, alloc, "moment", entry.moment)?;
    put_local(&mut members, alloc, entry.moment, zone)?;
    put(&mut members, alloc, "asked", act_value(alloc, &entry.act)?)?;
    put_answer(&mut members, alloc, entry)?;
    let mut why = String::new(alloc);
    write_why(&mut why, explained)?;
    put(&mut members, alloc, "why", Value::String(why))?;
    put_decision(&mut members, alloc, &explained.decision)?;
    let object = Value::Object(members).to_string(alloc)?;
    format!(in alloc; "{object}\n")
}

/// The moment as the zone's clock shows it, where there is a zone.
fn put_local(
    members: &mut Members,
    alloc: Global,
    moment: u64,
    zone: &Option<Zone<'_>>,
) -> Result<(), AllocError> {
    let Some(zone) = zone else {
        return Ok(());
    };
    put_word(members, alloc, "zone", zone.name)?;
    let mut local = String::new(alloc);
    if write_local(&mut local, moment, zone.ahead)? {
        put(members, alloc, "local", Value::String(local))
    } else {
        put(members, alloc, "local", Value::Null)
    }
}

fn put_answer(members: &mut Members, alloc: Global, entry: &Entry) -> Result<(), AllocError> {
    let answer = format!(in alloc; "{}", entry.reply)?;
    put(members, alloc, "answer", Value::String(answer))
}

/// Nulls if no rule decided.
fn put_decision(
    members: &mut Members,
    alloc: Global,
    decision: &Option<Decision>,
) -> Result<(), AllocError> {
    match decision {
        Some(decision) => {
            let done = run_of(decision);
            let slot = number_in(done.context.bytes(), 52, 4);
            put_number(
                members,
                alloc,
                "version",
                u64::from(decision.draft.version()),
            )?;
            put_number(members, alloc, "slot", slot)?;
            put_run(members, alloc, &done)?;
            put_number(members, alloc, "r0", done.trace.r0)?;
            put_counters(members, alloc, &done)
        }
        None => {
            for name in ["version", "slot", "context", "run", "r0", "counters"] {
                put(members, alloc, name, Value::Null)?;
            }
            Ok(())
        }
    }
}

/// The context, and each instruction that was executed.
pub(crate) fn put_run(
    members: &mut Members,
    alloc: Global,
    done: &Done<'_>,
) -> Result<(), AllocError> {
    let context = context_value(alloc, done.context)?;
    put(members, alloc, "context", context)?;
    let Ok(code) = decode(alloc, done.program.bytes()) else {
        return Err(AllocError);
    };
    let run = run_value(alloc, &code, done.context.bytes(), done.trace)?;
    put(members, alloc, "run", run)
}

fn context_value(alloc: Global, context: &Context) -> Result<Value, AllocError> {
    let mut members = Map::new(alloc);
    put_fields(&mut members, alloc, shared_fields(), context.bytes())?;
    put_fields(
        &mut members,
        alloc,
        further_fields(context.layout()),
        context.bytes(),
    )?;
    Ok(Value::Object(members))
}

fn put_fields(
    members: &mut Members,
    alloc: Global,
    fields: &[Field],
    bytes: &[u8],
) -> Result<(), AllocError> {
    for Field(name, at, size) in fields {
        put_number(members, alloc, *name, number_in(bytes, *at, *size))?;
    }
    Ok(())
}

fn run_value(
    alloc: Global,
    code: &Code,
    context: &[u8],
    trace: &Trace,
) -> Result<Value, AllocError> {
    let mut steps = Vec::new(alloc);
    let mut kinds = Kinds::at_entry();
    let mut rest = trace.states.as_slice();
    while let Some((before, later)) = rest.split_first() {
        let Some((inst, form)) = instruction_at(code, before) else {
            return Ok(Value::Array(steps));
        };
        let executed = Executed {
            inst,
            form,
            context,
            before,
            after: later.first(),
        };
        steps.push(step_value(alloc, code, &executed, &mut kinds)?)?;
        rest = later;
    }
    Ok(Value::Array(steps))
}

fn step_value(
    alloc: Global,
    code: &Code,
    executed: &Executed<'_>,
    kinds: &mut Kinds,
) -> Result<Value, AllocError> {
    let Ok(unit) = u32::try_from(executed.before.unit) else {
        return Ok(Value::Null);
    };
    let mut members = Map::new(alloc);
    put_number(&mut members, alloc, "unit", u64::from(unit))?;
    if let Some(line) = instruction_line(alloc, code, unit)? {
        put_word(&mut members, alloc, "text", line.trim_end())?;
    }
    let mut did = String::new(alloc);
    executed.write(&mut did, kinds)?;
    put(&mut members, alloc, "did", Value::String(did))?;
    Ok(Value::Object(members))
}

/// The counters that the program declares, before and after the run.
pub(crate) fn put_counters(
    members: &mut Members,
    alloc: Global,
    done: &Done<'_>,
) -> Result<(), AllocError> {
    let declared = done.program.declared();
    let mut counters = Vec::new(alloc);
    for counter in 0..32u32 {
        if (declared >> counter) % 2 == 1 {
            counters.push(counter_value(alloc, done, counter)?)?;
        }
    }
    put(members, alloc, "counters", Value::Array(counters))
}

fn counter_value(alloc: Global, done: &Done<'_>, counter: u32) -> Result<Value, AllocError>
    requires { counter < COUNTERS }
{
    let mut members = Map::new(alloc);
    put_number(&mut members, alloc, "counter", u64::from(counter))?;
    put_number(&mut members, alloc, "before", done.before.get(counter))?;
    put_number(
        &mut members,
        alloc,
        "after",
        done.trace.counters.get(counter),
    )?;
    put_number(&mut members, alloc, "most", done.before.bound(counter))?;
    Ok(Value::Object(members))
}

/// Who asked what.
fn act_value(alloc: Global, act: &Act) -> Result<Value, AllocError> {
    let mut members = Map::new(alloc);
    match act {
        Act::Till { till, request } => put_request(&mut members, alloc, *till, *request)?,
        Act::Dispenser { point, event } => put_event(&mut members, alloc, *point, *event)?,
        Act::Load {
            slot,
            mask,
            bytes,
            ..
        } => {
            let units = bytes.as_slice().len() as u64 / 8;
            put_word(&mut members, alloc, "kind", "load")?;
            put_number(&mut members, alloc, "slot", u64::from(*slot))?;
            put_number(&mut members, alloc, "mask", u64::from(*mask))?;
            put_number(&mut members, alloc, "units", units)?;
        }
    }
    Ok(Value::Object(members))
}

/// A name and a number of what is asked.
type Part = (&'static str, u64);

fn put_parts(
    members: &mut Members,
    alloc: Global,
    kind: &str,
    parts: &[Part],
) -> Result<(), AllocError> {
    put_word(members, alloc, "kind", kind)?;
    for (name, number) in parts {
        put_number(members, alloc, *name, *number)?;
    }
    Ok(())
}

fn put_request(
    members: &mut Members,
    alloc: Global,
    till: u32,
    request: Request,
) -> Result<(), AllocError> {
    let (kind, first, second) = parts_of(request);
    put_parts(members, alloc, kind, &[("till", u64::from(till)), first])?;
    match second {
        Some((name, number)) => put_number(members, alloc, name, number),
        None => Ok(()),
    }
}

/// The word of a request, and its numbers with their names.
fn parts_of(request: Request) -> (&'static str, Part, Option<Part>) {
    match request {
        Request::Release(point, amount) => ("release", at(point), Some(("amount", amount))),
        Request::Preset(point, amount) => ("preset", at(point), Some(("amount", amount))),
        Request::Price(product, price) => {
            let product = ("product", u64::from(product));
            ("price", product, Some(("price", price)))
        }
        Request::OpenPoint(point) => ("open", at(point), None),
        Request::ClosePoint(point) => ("close", at(point), None),
        Request::Suspend(point) => ("suspend", at(point), None),
        Request::Resume(point) => ("resume", at(point), None),
        Request::Stop(point) => ("stop", at(point), None),
        Request::Lock(point, number) => ("lock", at(point), Some(transaction(number))),
        Request::Unlock(point, number) => ("unlock", at(point), Some(transaction(number))),
        Request::Clear(point, number) => ("clear", at(point), Some(transaction(number))),
        Request::Show(point) => ("show", at(point), None),
    }
}

fn at(point: u32) -> Part {
    ("point", u64::from(point))
}

fn transaction(number: u32) -> Part {
    ("transaction", u64::from(number))
}

fn put_event(
    members: &mut Members,
    alloc: Global,
    point: u32,
    event: DispenserEvent,
) -> Result<(), AllocError> {
    let point = at(point);
    match event {
        DispenserEvent::Up(nozzle) => {
            put_parts(
                members,
                alloc,
                "up",
                &[point, ("nozzle", u64::from(nozzle))],
            )
        }
        DispenserEvent::Down => put_parts(members, alloc, "down", &[point]),
        DispenserEvent::Started => put_parts(members, alloc, "started", &[point]),
        DispenserEvent::Flowed(amount, volume) => {
            let parts = [point, ("amount", amount), ("volume", volume)];
            put_parts(members, alloc, "flow", &parts)
        }
        DispenserEvent::Fault => put_parts(members, alloc, "fault", &[point]),
        DispenserEvent::Repaired => put_parts(members, alloc, "repaired", &[point]),
        DispenserEvent::TakeOrder => put_parts(members, alloc, "order", &[point]),
    }
}
