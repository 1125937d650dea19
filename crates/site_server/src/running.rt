//! Runs the tasks of a site's workers in threads.
ghost use Rattle.std.specs.Prelude.{◌≡◌, IfSome, IsTrue, Some, map};
ghost use Rattle.site_server.specs.Collecting.{MayRunWorker, RunEach};
ghost use Rattle.site_server.specs.Tasks.{opened_by};

use crate::crew::Worker;
use crate::group_sync::Release;
use crate::notices::Notices;
use crate::shift::Shift;
use crate::starting::ThreadCounts;
use crate::tasks::WorkerTask;
use crate::workers::Workers;
use site_lock::{Journal, Pass, SiteLedger};
use std::marker::PhantomData;
use std::snapshot::Snapshot;
use std::sync::Wait;
use std::thread::{self, Promise, Scope, Threads};
use std::time::Clock;

/// For proofs: what the thread of a worker with this task returns.
#[derive(Drop)]
struct WorkerPromise<L: SiteLedger, J: Journal> {
    task: Snapshot<(Pass<L>, Worker)>,
    day: u32,
    shift: Shift,
    journal: PhantomData<J>,
}

impl<L: SiteLedger, J: Journal> Promise<Option<(Pass<L>, u64)>> for WorkerPromise<L, J> {
    ghost use Rattle.std.specs.Prelude.{Some};
    ghost use Rattle.site_server.specs.Collecting.{MayRunWorker};
    ghost use Rattle.site_server.specs.Tasks.{opened_by};

    ghost kept_by = { λ promise done. MayRunWorker (opened_by L.config L.parts L.base L.taken) J.may_fail promise.day
        promise.shift (Some promise.task.value) done };
}

/// Runs these tasks, the last one first; `threads` counts the threads of those behind them. When all have been asked for,
/// it is decided whether the site is served. The first doors are those for tills, which have most workers to spare. A
/// task without a thread runs here, once those before it have ended. Returns whether all ran.
fn run_each<
    's,
    E,
    L: SiteLedger + Send + Sync,
    J: Journal + Send,
    N: Notices + Sync,
    A: Release + Sync,
    R: Threads + Wait + Clock + Sync,
>(
    scope: &'s Scope<'s, E>,
    workers: &'s Workers<'_, L, J, N, A, R>,
    tasks: &mut [WorkerTask<L>],
    threads: ThreadCounts,
) -> bool
    ensures { IsTrue result → RunEach (opened_by L.config L.parts L.base L.taken) J.may_fail workers.now.day
        workers.now.shift (map (λ p. p.waiting) tasks.old) (map (λ p. p.done) tasks.new) }
{
    let Some((task, rest)) = tasks.split_last_mut() else {
        workers.start(threads);
        return true;
    };
    let Some(own) = task.waiting.take() else {
        return run_each(scope, workers, rest, threads);
    };
    let (role, number) = (own.1.role, own.0.id());
    let promise = WorkerPromise::<L, J> {
        task: Snapshot::of(&own),
        day: workers.day,
        shift: workers.shift,
        journal: PhantomData,
    };
    let run = move || -> Option<(Pass<L>, u64)>
        ensures { MayRunWorker (opened_by L.config L.parts L.base L.taken) J.may_fail workers.entry.now.day
            workers.entry.now.shift (Some own) result }
    { workers.work(own) };
    match scope.spawn_with(promise, run) {
        Ok(thread) => {
            workers.notices.began(role, number);
            let all = run_each(scope, workers, rest, threads.counted(role, true));
            task.done = thread.join(workers.rt);
            all && task.done.is_some()
        }
        Err(refused) => {
            let all = run_each(scope, workers, rest, threads.counted(role, false));
            workers.notices.began(role, number);
            task.done = (refused.value)();
            all && task.done.is_some()
        }
    }
}

/// Runs all tasks, each in a thread of its own where one can be made, and returns them. `None` if the system gave too
/// few threads; then none ran.
pub fn run_in_threads<
    L: SiteLedger + Send + Sync,
    J: Journal + Send,
    N: Notices + Sync,
    A: Release + Sync,
    R: Threads + Wait + Clock + Sync,
>(workers: &Workers<'_, L, J, N, A, R>, tasks: Vec<WorkerTask<L>>) -> Option<Vec<WorkerTask<L>>>
    // proved: It gives the tasks back only where each ran | half_of_the_tasks_run
    ensures { IfSome result (λ done. RunEach (opened_by L.config L.parts L.base L.taken) J.may_fail workers.now.day
        workers.now.shift (map (λ p. p.waiting) tasks.items) (map (λ p. p.done) done.items)) }
{
    thread::scope(
        thread::scope_env(),
        workers.rt,
        move |scope| -> Option<Vec<WorkerTask<L>>>
            ensures { IfSome result (λ done. RunEach (opened_by L.config L.parts L.base L.taken) J.may_fail
                workers.entry.now.day workers.entry.now.shift (map (λ p. p.waiting) tasks.items)
                (map (λ p. p.done) done.items)) }
        {
            let mut tasks = tasks;
            if run_each(scope, workers, tasks.as_mut_slice(), ThreadCounts::none()) {
                Some(tasks)
            } else {
                None
            }
        },
    )
}
