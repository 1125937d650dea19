//! Serves a site: runs the workers of its crew on threads, and closes the site when all of them have ended.
ghost use Rattle.std.specs.Prelude.{◌≡◌, ◌≤◌, [], IfErr, IfOk, IfSome, IsErrAnd, None, Some, false, length, map, vec_capacity};
ghost use Rattle.site_lock.specs.Closing.{ClosesSince};
ghost use Rattle.site_server.specs.Plans.{plan_of};
ghost use Rattle.site_server.specs.Ending.{IsServed, NeverServes, RefusesWithFault, ServingFails, RunsAllTasks, fault_of_close};
ghost use Rattle.site_server.specs.Collecting.{AreWaiting, HasCrew, RunEach};
ghost use Rattle.site_server.specs.Tasks.{opened_by};

use crate::crew::Crew;
use crate::group_sync::Release;
use crate::notices::Notices;
use crate::running::run_in_threads;
use crate::shift::Shift;
use crate::starting::StartGate;
use crate::tasks::{WorkerTask, collect_passes, tasks_of};
use crate::watcher::Watcher;
use crate::workers::Workers;
use day_report::Sums;
use site_core::{Config, Site, Watched};
use site_lock::{CloseRefusal, Forecourt, ForecourtBuilder, Journal, NoJournal, Pass, SiteLedger};
use std::alloc::{AllocError, Global};
use std::marker::Brand;
use std::sync::Wait;
use std::sync::ledger::Blank;
use std::thread;
use std::thread::Threads;
use std::time::Clock;

#[derive(Drop)]
pub struct Serving<J: Journal = NoJournal> {
    /// The site, with what its sales come to.
    pub watched: Watched<Sums>,
    pub journal: J,
    pub crew: Crew,
    /// The number of the day, from 1, which a look tells.
    pub day: u32,
    /// How many connections each worker serves; one that can't be opened counts too. `None` is without end: then the
    /// site is closed only if it is asked to stop.
    pub connections: Option<u32>,
    /// For how many seconds a peer may send nothing, or take no bytes of an answer. 0 is no limit.
    pub idle_seconds: u32,
    /// For how many further entries memory is made ready before the first connection, if there is enough. Other entries
    /// hold the site's lock while the system finds memory.
    pub ready_entries: usize,
}

/// Who gets the workers' reports, what decides when an answer may be sent, and who looks at the site meanwhile.
#[derive(Clone, Copy)]
pub struct ServingHooks<'a, N: Notices, A: Release, W: Watcher> {
    pub notices: &'a N,
    pub release: &'a A,
    pub watcher: &'a W,
}

#[derive(Drop)]
pub struct Served<J: Journal = NoJournal> {
    /// The site, closed.
    pub site: Site,
    pub journal: J,
    /// How many sessions ended without a `SessionFault`, at most 2^64 - 1.
    pub clean: u64,
}

/// Why serving a site ended without a closed site.
#[derive(Clone, Copy)]
pub enum ServeFault {
    OutOfMemory,
    /// The system gave so few threads that a role has no worker, so nothing was served.
    TooFewThreads,
    /// The journal failed, so the act of the last entry was never answered.
    Journal,
    /// The workers' receipts differ from the site's history (C2).
    NotClosed(CloseRefusal),
}

impl From<AllocError> for ServeFault {
    ghost use Rattle.site_server.specs.declared.serving.ServeFault.TheVariants.{OutOfMemory};

    ghost from_gives = { λ _ e. e ≡ OutOfMemory };

    fn from(_: AllocError) -> Self {
        ServeFault::OutOfMemory
    }
}

#[derive(Drop)]
pub struct Unclosed<J: Journal = NoJournal> {
    pub why: ServeFault,
    /// The site and the journal, unchanged, if `why` is `OutOfMemory`.
    pub back: Option<(Watched<Sums>, J)>,
}

/// What is allocated before the first connection is served.
#[derive(Drop)]
struct Prepared<L: SiteLedger> {
    builder: ForecourtBuilder<L>,
    tasks: Vec<WorkerTask<L>>,
    /// Memory for the passes that the workers give back.
    room: Vec<Pass<L>>,
}

fn prepare<L: SiteLedger>(
    alloc: Global,
    config: &Config,
    blank: Blank,
    crew: Crew,
) -> Result<Prepared<L>, AllocError>
    requires name { blank.name ≡ L.name }
    requires parts { blank.parts ≡ L.parts }
    requires config { config.now ≡ L.config }
    requires passes { blank.parts ≡ length crew.workers.items }
    ensures config { IfOk result (λ p. p.builder.config ≡ config.now) }
    ensures passes { IfOk result (λ p. p.builder.passes ≡ length crew.workers.items) }
    ensures base { IfOk result (λ p. p.builder.base ≡ L.base) }
    ensures taken { IfOk result (λ p. p.builder.taken ≡ L.taken) }
    ensures tasks { IfOk result (λ p. AreWaiting crew.workers.items (map (λ q. q.waiting) p.tasks.items)) }
    ensures room { IfOk result (λ p. (p.room.items ≡ []) × (length p.tasks.items ≤ vec_capacity p.room)) }
{
    let room = Vec::with_capacity(alloc, crew.passes() as usize)?;
    let (builder, passes) = ForecourtBuilder::new(alloc, config, crew.passes(), blank)?;
    let tasks = tasks_of(alloc, passes, crew.workers)?;
    Ok(Prepared {
        builder,
        tasks,
        room,
    })
}

fn why_not_closed(why: CloseRefusal, journal_has_failed: bool) -> ServeFault
    ensures { result ≡ fault_of_close why journal_has_failed }
{
    if journal_has_failed {
        ServeFault::Journal
    } else {
        ServeFault::NotClosed(why)
    }
}

fn close<L: SiteLedger, J: Journal, R: Wait>(
    rt: &R,
    forecourt: Forecourt<L, J>,
    passes: Vec<Pass<L>>,
    clean: u64,
) -> Result<Served<J>, Unclosed<J>>
    ensures clean { IfOk result (λ served. served.clean ≡ clean) }
    ensures ok { IfOk result (λ served. ClosesSince forecourt passes.items served.site (J.written served.journal)) }
    ensures err { IfErr result (λ unclosed. RefusesWithFault forecourt J.may_fail passes.items unclosed.why) }
{
    match forecourt.finish(rt, passes) {
        Ok((closed, journal)) => Ok(Served {
            site: closed.site,
            journal,
            clean,
        }),
        Err(fault) => {
            let why = why_not_closed(fault.why, fault.forecourt.journal_has_failed());
            Err(Unclosed { why, back: None })
        }
    }
}

/// What all workers gave back.
#[derive(Drop)]
struct Returned<L: SiteLedger> {
    passes: Vec<Pass<L>>,
    clean: u64,
}

/// Runs all tasks of a crew, and then asks the watcher to go. `None` if the system gave too few threads.
fn work_all<
    L: SiteLedger + Send + Sync,
    J: Journal + Send,
    N: Notices + Sync,
    A: Release + Sync,
    W: Watcher,
    R: Threads + Wait + Clock + Sync,
>(
    workers: &Workers<'_, L, J, N, A, R>,
    tasks: Vec<WorkerTask<L>>,
    mut passes: Vec<Pass<L>>,
    watcher: &W,
) -> Option<Returned<L>>
    requires waiting { HasCrew (map (λ p. p.waiting) tasks.items) }
    requires room { (passes.items ≡ []) × (length tasks.items ≤ vec_capacity passes) }
    requires opened { workers.now.forecourt ≡ opened_by L.config L.parts L.base L.taken }
    ensures { IfSome result (λ r. RunsAllTasks workers.now.forecourt J.may_fail workers.now.day workers.now.shift
        (map (λ p. p.waiting) tasks.items) r.passes.items r.clean) }
{
    let done = run_in_threads(workers, tasks);
    watcher.leave();
    let mut done = done?;
    let clean = collect_passes(done.as_mut_slice(), &mut passes);
    Some(Returned { passes, clean })
}

impl<J: Journal + Send> Serving<J> {
    /// Serves the site, and then closes it. Each entry's line is passed to the journal before the entry is answered,
    /// and the answer is sent once `release` allows it. A listener is closed when the last of its workers ends, unless
    /// another crew has it. If `connections` is `None`, and the crew can't be asked to stop, this returns only if
    /// nothing was served.
    pub fn run<
        N: Notices + Sync,
        A: Release + Sync,
        W: Watcher + Sync,
        R: Threads + Wait + Clock + Sync,
    >(
        self,
        rt: &R,
        alloc: Global,
        outside: ServingHooks<'_, N, A, W>,
    ) -> Result<Served<J>, Unclosed<J>>
        // proved: Each pass serves its worker's role | all_workers_serve_the_owner
        // proved: A look shows the site, on this day | look_tells_another_day
        // proved: It leaves the site described above | half_of_the_connections_are_served
        ensures ok { IfOk result
            (λ served. IsServed (plan_of J.written J.may_fail self) served.clean served.site (J.written
            served.journal)) }
        // proved: Else it says why it doesn't | site_is_closed_without_its_passes
        // proved: A failed journal is named | failed_journal_is_a_refused_close
        ensures err { IfErr result (λ unclosed. ServingFails (plan_of J.written J.may_fail self) unclosed.why) }
        // proved: Out of memory, all is as before | out_of_memory_is_returned_after_serving
        ensures memory { IfErr result
            (λ unclosed. unclosed.why ≡ ServeFault.OutOfMemory → unclosed.back ≡ Some (self.watched, self.journal)) }
        // proved: Without end it doesn't return
        ensures endless { self.connections ≡ None → self.crew.may_stop ≡ false
            → IsErrAnd result (λ unclosed. NeverServes unclosed.why) }
    {
        let blank = Blank::new(u64::from(self.crew.passes()));
        self.run_on::<Brand, N, A, W, R>(rt, alloc, blank, outside)
    }

    /// `run`, over a ledger that names the site's configuration, its history, and what the journal has taken.
    fn run_on<
        L: SiteLedger + Send + Sync,
        N: Notices + Sync,
        A: Release + Sync,
        W: Watcher + Sync,
        R: Threads + Wait + Clock + Sync,
    >(
        self,
        rt: &R,
        alloc: Global,
        blank: Blank,
        outside: ServingHooks<'_, N, A, W>,
    ) -> Result<Served<J>, Unclosed<J>>
        requires name { blank.name ≡ L.name }
        requires parts { blank.parts ≡ L.parts }
        requires config { self.watched.site.config ≡ L.config }
        requires base { self.watched.site.history ≡ L.base }
        requires taken { J.written self.journal ≡ L.taken }
        requires passes { blank.parts ≡ length self.crew.workers.items }
        ensures ok { IfOk result
            (λ served. IsServed (plan_of J.written J.may_fail self) served.clean served.site (J.written
            served.journal)) }
        ensures err { IfErr result (λ unclosed. ServingFails (plan_of J.written J.may_fail self) unclosed.why) }
        ensures memory { IfErr result
            (λ unclosed. unclosed.why ≡ ServeFault.OutOfMemory → unclosed.back ≡ Some (self.watched, self.journal)) }
        ensures endless { self.connections ≡ None → self.crew.may_stop ≡ false
            → IsErrAnd result (λ unclosed. NeverServes unclosed.why) }
    {
        let Serving {
            watched,
            journal,
            crew,
            day,
            connections,
            idle_seconds,
            ready_entries,
        } = self;
        let shift = Shift {
            connections,
            may_stop: crew.may_stop,
        };
        let Ok(prepared) = prepare::<L>(alloc, watched.site().config(), blank, crew) else {
            return Err(Unclosed {
                why: ServeFault::OutOfMemory,
                back: Some((watched, journal)),
            });
        };
        let ServingHooks {
            notices,
            release,
            watcher,
        } = outside;
        let (tasks, room) = (prepared.tasks, prepared.room);
        let workers = Workers {
            rt,
            alloc,
            forecourt: prepared.builder.open(watched, journal),
            notices,
            release,
            gate: StartGate::new(),
            ready_entries,
            day,
            shift,
            idle_seconds,
        };
        let (_, returned) = thread::join(
            rt,
            || watcher.watch(rt, &workers.forecourt),
            ||
                requires waiting { HasCrew (map (λ p. p.waiting) tasks.items) }
                requires room { (room.items ≡ []) × (length tasks.items ≤ vec_capacity room) }
                requires opened { workers.forecourt ≡ opened_by L.config L.parts L.base L.taken }
                ensures { IfSome result (λ r. RunsAllTasks workers.entry.forecourt J.may_fail workers.entry.day
                    workers.entry.shift (map (λ p. p.waiting) tasks.items) r.passes.items r.clean) }
            { work_all(&workers, tasks, room, watcher) },
        );
        let Some(returned) = returned else {
            return Err(Unclosed {
                why: ServeFault::TooFewThreads,
                back: None,
            });
        };
        close(rt, workers.forecourt, returned.passes, returned.clean)
    }
}
