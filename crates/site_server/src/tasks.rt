//! The tasks of the workers' threads: what each worker starts with, and what it returns.
ghost use Rattle.std.specs.Prelude.{◌≡◌, ◌++◌, ◌∷◌, ◌+◌, ◌-◌, ◌^◌, ◌≤◌, [], IfOk, Some, length, map, min};
ghost use Rattle.std.specs.Prelude.{vec_capacity, vec_len};
ghost use Rattle.std.specs.List.{zip};
ghost use Rattle.site_server.specs.Collecting.{collected, clean_at, clean_in};

use crate::crew::Worker;
use site_lock::{Pass, SiteLedger};
use std::alloc::{AllocError, Global};

/// Before it runs, `waiting` has the pass and the worker; afterwards `done` has the pass, and how many sessions ended
/// without a `SessionFault`.
#[derive(Drop)]
pub struct WorkerTask<L: SiteLedger> {
    pub waiting: Option<(Pass<L>, Worker)>,
    pub done: Option<(Pass<L>, u64)>,
}

/// Makes a task for each pass, with the worker at the same place in `workers`.
pub(crate) fn tasks_of<L: SiteLedger>(
    alloc: Global,
    passes: Vec<Pass<L>>,
    workers: Vec<Worker>,
) -> Result<Vec<WorkerTask<L>>, AllocError>
    ensures { IfOk result (λ tasks. map (λ p. p.waiting) tasks.items
        ≡ map (λ pair. Some pair) (zip passes.items workers.items)) }
{
    let mut tasks = Vec::with_capacity(alloc, passes.len())?;
    for pair in passes.into_iter().zip(workers) {
        tasks.push(WorkerTask {
            waiting: Some(pair),
            done: None,
        })?;
    }
    Ok(tasks)
}

fn collect_pass<L: SiteLedger>(task: &mut WorkerTask<L>, passes: &mut Vec<Pass<L>>) -> u64
    requires { vec_len passes.old + 1 ≤ vec_capacity passes.old }
    ensures items { passes.new.items ≡ passes.old.items ++ collected (task.old.done ∷ []) }
    ensures len { vec_len passes.new ≤ vec_len passes.old + 1 }
    ensures capacity { vec_capacity passes.new ≡ vec_capacity passes.old }
    ensures clean { result ≡ clean_at task.old.done }
{
    match task.done.take() {
        Some((pass, clean)) => {
            passes.push_reserved(pass);
            clean
        }
        None => 0,
    }
}

/// Moves the passes of all finished tasks into `passes`. Returns how many of their sessions ended without a
/// `SessionFault`, at most 2^64 - 1.
pub fn collect_passes<L: SiteLedger>(tasks: &mut [WorkerTask<L>], passes: &mut Vec<Pass<L>>) -> u64
    requires { vec_len passes.old + length tasks.old ≤ vec_capacity passes.old }
    ensures items { passes.new.items ≡ passes.old.items ++ collected (map (λ p. p.done) tasks.old) }
    ensures clean { result ≡ min (clean_in (map (λ p. p.done) tasks.old)) (2 ^ 64 - 1) }
{
    let Some((task, rest)) = tasks.split_first_mut() else {
        return 0;
    };
    let clean = collect_pass(task, passes);
    clean.saturating_add(collect_passes(rest, passes))
}
