//! What is printed of a rule that is run by itself.

ghost use Rattle.std.specs.Prelude.{◌≡◌, ◌++◌, ◌∷◌, ℕ, List, IfOk, codes, decimal, string_bytes};
ghost use Rattle.bpf_model.specs.Runs.{Ended};
ghost use Rattle.bpf_model.specs.Program.{outcome};
ghost use Rattle.bpf_model.specs.Layouts.{layout_of, bytes_of};
ghost use Rattle.explaining.specs.Traces.{IsTrace};
ghost use Rattle.explaining.specs.Answers.{verdict_on};

use crate::fields::number_in;
use crate::json::{put_counters, put_number, put_run, put_word};
use crate::request::Request;
use crate::tracing::{Trace, trace_run};
use crate::writing::{Done, write_counters, write_steps};
use bpf_model::context::Context;
use serde_json::{Map, Value};
use std::alloc::{AllocError, Global};
use std::fmt::Write;
use verifier::Program;

/// What an answer does to what is asked.
#[derive(Clone, Copy)]
pub enum Verdict {
    Denied,
    /// The price is allowed.
    Allowed,
    /// So many cents are granted.
    Granted(u64),
}

/// Runs a rule on a request.
pub fn run_once(alloc: Global, program: &Program, request: &Request) -> Result<Trace, AllocError>
    requires { layout_of request.now.context ≡ program.now.layout }
    // proved states, end: A rule is run on just these, and each state is kept
    ensures states { IfOk result (λ trace. IsTrace program.now (bytes_of request.now.context) request.now.view
        request.now.counters trace.states.items trace.r0 trace.counters) }
    ensures end { IfOk result (λ trace. outcome program.now (bytes_of request.now.context) request.now.view
        request.now.counters ≡ Ended trace.r0 trace.counters) }
{
    trace_run(
        alloc,
        program,
        &request.context,
        &request.view,
        &request.counters,
    )
}

/// What an answer grants of what is asked; `kind` is the request's.
fn verdict_on(kind: u64, asked: u64, answer: u64) -> Verdict
    ensures { result ≡ verdict_on kind asked answer }
{
    if answer == 0 {
        Verdict::Denied
    } else if kind == 3 {
        Verdict::Allowed
    } else if answer < asked {
        Verdict::Granted(answer)
    } else {
        Verdict::Granted(asked)
    }
}

fn verdict_of(context: &Context, answer: u64) -> Verdict {
    let kind = number_in(context.bytes(), 8, 4);
    verdict_on(kind, asked_in(context), answer)
}

fn asked_in(context: &Context) -> u64 {
    number_in(context.bytes(), 24, 8)
}

fn write_verdict(out: &mut String, verdict: Verdict, asked: u64) -> Result<(), AllocError> {
    match verdict {
        Verdict::Denied => write!(out, "denied\n"),
        Verdict::Allowed => write!(out, "allowed\n"),
        Verdict::Granted(amount) => write!(out, "granted {amount} of {asked} asked\n"),
    }
}

fn done_of<'a>(program: &'a Program, request: &'a Request, trace: &'a Trace) -> Done<'a> {
    Done {
        program,
        context: &request.context,
        before: &request.counters,
        trace,
    }
}

/// What is granted, the counters, and if `is_traced` each state of the run.
fn rest_of(alloc: Global, done: &Done<'_>, is_traced: bool) -> Result<String, AllocError> {
    let mut out = String::new(alloc);
    let verdict = verdict_of(done.context, done.trace.r0);
    write_verdict(&mut out, verdict, asked_in(done.context))?;
    write_counters(&mut out, done)?;
    if is_traced {
        write_steps(alloc, &mut out, done)?;
    }
    Ok(out)
}

/// What is printed of a run: first the rule's answer.
pub fn single_text(
    alloc: Global,
    program: &Program,
    request: &Request,
    trace: &Trace,
    is_traced: bool,
) -> Result<String, AllocError>
    // proved: The answer of the run is printed first
    ensures { IfOk result (λ text. (rest : List ℕ)
        × (string_bytes text ≡ codes "answer " ++ (decimal trace.now.r0 ++ (10 ∷ rest)))) }
{
    let rest = rest_of(alloc, &done_of(program, request, trace), is_traced)?;
    format!(in alloc; "answer {}\n{rest}", trace.r0)
}

fn verdict_word(verdict: Verdict) -> &'static str {
    match verdict {
        Verdict::Denied => "denied",
        Verdict::Allowed => "allowed",
        Verdict::Granted(_) => "granted",
    }
}

/// The amount or the price that is granted; 0 if it is denied.
fn granted_by(verdict: Verdict, asked: u64) -> u64 {
    match verdict {
        Verdict::Denied => 0,
        Verdict::Allowed => asked,
        Verdict::Granted(amount) => amount,
    }
}

/// The same as one object of JSON, with a LF.
pub fn single_json(
    alloc: Global,
    program: &Program,
    request: &Request,
    trace: &Trace,
    is_traced: bool,
) -> Result<String, AllocError> {
    let done = done_of(program, request, trace);
    let (verdict, asked) = (verdict_of(done.context, trace.r0), asked_in(done.context));
    let mut members = Map::new(alloc);
    put_number(&mut members, alloc, "answer", trace.r0)?;
    put_word(&mut members, alloc, "verdict", verdict_word(verdict))?;
    put_number(&mut members, alloc, "granted", granted_by(verdict, asked))?;
    put_number(&mut members, alloc, "asked", asked)?;
    put_counters(&mut members, alloc, &done)?;
    if is_traced {
        put_run(&mut members, alloc, &done)?;
    }
    let object = Value::Object(members).to_string(alloc)?;
    format!(in alloc; "{object}\n")
}
