// The trace of a run: the machine's states, one before each instruction that is executed.

ghost use Rattle.std.specs.Prelude.{◌≡◌, IfOk, length};
ghost use Rattle.bpf_model.specs.Runs.{Ended};
ghost use Rattle.bpf_model.specs.Program.{outcome};
ghost use Rattle.bpf_model.specs.Layouts.{context_len, layout_of, bytes_of};
ghost use Rattle.explaining.specs.Traces.{IsTrace};

use bpf_model::context::Context;
use interp::frame::{Frame, Input};
use interp::turn;
use std::alloc::{AllocError, Global};
use verifier::{Counters, Program, View};

/// What the machine holds before the instruction of unit `unit` is executed.
#[derive(Drop)]
pub struct MachineState {
    pub unit: usize,
    pub frame: Frame,
    pub counters: Counters,
}

/// All states of a run, and how it ended.
#[derive(Drop)]
pub struct Trace {
    pub states: Vec<MachineState>,
    pub r0: u64,
    pub counters: Counters,
}

/// Runs the program like `interp::run`, and keeps each state.
pub fn trace_run(
    alloc: Global,
    program: &Program,
    context: &Context,
    view: &View,
    before: &Counters,
) -> Result<Trace, AllocError>
    requires { layout_of context.now ≡ program.now.layout }
    // proved states: It has each state of the standard's run, in order, and no other
    ensures states { IfOk result (λ trace. IsTrace program.now (bytes_of context.now) view.now before.now
        trace.states.items trace.r0 trace.counters) }
    // proved end: It ends as the run does
    ensures end { IfOk result (λ trace. outcome program.now (bytes_of context.now) view.now before.now
        ≡ Ended trace.r0 trace.counters) }
{
    trace_on(alloc, program, context.bytes(), view, before)
}

fn trace_on(
    alloc: Global,
    program: &Program,
    context: &[u8],
    view: &View,
    before: &Counters,
) -> Result<Trace, AllocError>
    requires { length context.now ≡ context_len program.now.layout }
    ensures states { IfOk result (λ trace. IsTrace program.now context.now view.now before.now trace.states.items
        trace.r0 trace.counters) }
    ensures end { IfOk result (λ trace. outcome program.now context.now view.now before.now
        ≡ Ended trace.r0 trace.counters) }
{
    let ops = program.ops();
    let mut frame = Frame {
        stack: [0; 512],
        words: [0; 11],
    };
    frame.words[1] = 512;
    frame.words[10] = 512;
    let mut counters = *before;
    let mut pc = 0;
    let input = Input { context, view };
    let mut states = Vec::new(alloc);
    states.push(state_of(pc, &frame, &counters))?;
    while let Some(next) = turn(&ops[pc], pc, &mut frame, &input, &mut counters) {
        pc = next;
        states.push(state_of(pc, &frame, &counters))?;
    }
    Ok(Trace {
        states,
        r0: frame.words[0],
        counters,
    })
}

fn state_of(unit: usize, frame: &Frame, counters: &Counters) -> MachineState
    ensures unit { result.unit ≡ unit }
    ensures words { result.frame.words ≡ frame.now.words }
    ensures stack { result.frame.stack ≡ frame.now.stack }
    ensures counters { result.counters ≡ counters.now }
{
    MachineState {
        unit,
        frame: Frame {
            stack: frame.stack,
            words: frame.words,
        },
        counters: *counters,
    }
}
