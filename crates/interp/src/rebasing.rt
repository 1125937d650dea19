// The counters after a run, computed without making the run: from an earlier run of the same program with the same
// context and view, which began with the same declared counters.

ghost use Rattle.std.specs.Prelude.{◌≡◌, ℕ};
ghost use Rattle.bpf_model.specs.Machine.{counter};
ghost use Rattle.bpf_model.specs.Runs.{Ended};
ghost use Rattle.bpf_model.specs.Program.{outcome};
ghost use Rattle.bpf_model.specs.Layouts.{layout_of, bytes_of};
ghost use Rattle.verifier.specs.CounterChanges.{adopted};
ghost use Rattle.interp.specs.Depends.{Agrees};

use bpf_model::context::Context;
use verifier::{Counters, Program, View};

/// Sets the counters of `now` that the program declares to those of `after`, as a run on `now` would, which would also
/// give the answer of the run that led from `before` to `after`.
pub fn rebase(
    program: &Program,
    context: &Context,
    view: &View,
    before: &Counters,
    after: &Counters,
    now: &mut Counters,
)
    requires layout { layout_of context.now ≡ program.now.layout }
    requires agree { Agrees program.now.declared before.now now.old }
    // proved run_result, counters: Only declared ones count | site_core/undeclared_counters_are_adopted
    ensures run_result { (answer : ℕ) → outcome program.now (bytes_of context.now) view.now before.now
        ≡ Ended answer after.now
        → outcome program.now (bytes_of context.now) view.now now.old ≡ Ended answer now.new }
    ensures counters { (c : ℕ) → counter now.new c ≡ adopted program.now.declared after.now now.old c }
{
    let _ops = program.ops();
    let _bytes = context.bytes();
    let _before = before.get(0);
    let _old = now.get(0);
    now.adopt(program.declared(), after);
    let _new = now.get(0);
}
