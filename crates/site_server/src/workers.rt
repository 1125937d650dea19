//! What the workers of a served site share, and how a worker does its task.
ghost use Rattle.std.specs.Prelude.{◌≡◌, IsSome, Some, true};
ghost use Rattle.site_server.specs.Collecting.{MayRunWorker, RunsWorker};
ghost use Rattle.site_server.specs.Tasks.{Worked, opened_by};

use crate::crew::Worker;
use crate::doors::SocketDoors;
use crate::group_sync::{HeldDoors, Release};
use crate::notices::Notices;
use crate::shared_door::SharedDoor;
use crate::shift::Shift;
use crate::starting::{StartGate, ThreadCounts};
use crate::stop::Stop;
use line_session::serving::worker;
use line_session::{Doors, MachineClock};
use site_lock::{Forecourt, Journal, Pass, PassDesk, SiteLedger, Straight};
use std::alloc::Global;
use std::sync::Wait;
use std::time::Clock;
use till_request::Role;

#[derive(Drop)]
pub struct Workers<'a, L: SiteLedger, J: Journal, N: Notices, A: Release, R: Wait + Clock> {
    pub rt: &'a R,
    pub alloc: Global,
    pub forecourt: Forecourt<L, J>,
    pub notices: &'a N,
    pub release: &'a A,
    pub(crate) gate: StartGate,
    pub ready_entries: usize,
    /// The number of the day, from 1.
    pub day: u32,
    pub shift: Shift,
    pub idle_seconds: u32,
}

impl<L: SiteLedger, J: Journal, N: Notices, A: Release, R: Wait + Clock> Workers<
    '_,
    L,
    J,
    N,
    A,
    R,
> {
    /// Decides by these threads whether the site is served, and lets the workers go on. Memory is made ready only now,
    /// so that there is room for the threads.
    pub fn start(&self, threads: ThreadCounts) {
        let is_served = threads.serves_each_role();
        if is_served {
            self.forecourt.make_ready(self.rt, self.ready_entries);
        }
        self.notices.started(threads);
        self.gate.decide(self.rt, is_served);
    }

    /// Waits at the gate, and then serves the worker's connections. Returns the pass, and how many sessions ended
    /// without a `SessionFault`, at most 2^64 - 1; `None` if the site isn't served.
    pub fn work(&self, task: (Pass<L>, Worker)) -> Option<(Pass<L>, u64)>
        ensures { MayRunWorker (opened_by L.config L.parts L.base L.taken) J.may_fail self.now.day
            self.now.shift (Some task) result }
    {
        if self.gate.wait(self.rt) {
            Some(self.serve_task(task))
        } else {
            None
        }
    }

    fn serve_task(&self, task: (Pass<L>, Worker)) -> (Pass<L>, u64)
        ensures { RunsWorker (opened_by L.config L.parts L.base L.taken) J.may_fail self.now.day self.now.shift
            (Some task) (Some result) }
    {
        let (pass, worker) = task;
        let (role, number) = (worker.role, pass.id());
        let doors = SocketDoors::new(
            self.rt,
            self.alloc,
            &worker.door,
            self.notices,
            role,
            number,
            self.idle_seconds,
            self.day,
            self.stop_at(&worker.door),
        );
        let done = self.serve(pass, role, doors);
        self.notices.left(role, number);
        done
    }

    fn desk(&self, pass: Pass<L>) -> PassDesk<'_, L, R, Straight, J>
        ensures pass { result.pass ≡ pass }
        ensures day { result.day ≡ self.now.day }
    {
        let gate = Straight { calls: 0 };
        PassDesk::new(self.rt, self.alloc, &self.forecourt, pass, gate, self.day)
    }

    fn stop_at<'b>(&self, door: &'b SharedDoor) -> Option<&'b Stop>
        ensures { IsSome result → self.now.shift.may_stop ≡ true }
    {
        if self.shift.may_stop {
            door.stop()
        } else {
            None
        }
    }

    /// Serves a shift at these doors.
    fn serve<S: Doors + Drop>(&self, pass: Pass<L>, role: Role, doors: S) -> (Pass<L>, u64)
        requires closes { S.may_close doors → self.now.shift.may_stop ≡ true }
        ensures worked { Worked (opened_by L.config L.parts L.base L.taken) J.may_fail self.now.day role self.now.shift
            result.1 pass result.0 }
        ensures id { result.0.id ≡ pass.id }
    {
        let mut doors = HeldDoors {
            doors,
            release: self.release,
        };
        let mut clock = MachineClock::new(self.rt);
        let mut desk = self.desk(pass);
        let most = self.shift.connections.unwrap_or(u32::MAX);
        let mut clean = 0u64;
        for _round in self.rt.forever() {
            let more = worker(self.alloc, role, &mut doors, &mut clock, &mut desk, most);
            clean = clean.saturating_add(more);
            if self.shift.connections.is_some() || doors.are_closed() {
                return (desk.into_pass(), clean);
            }
        }
        unreachable!()
    }
}
