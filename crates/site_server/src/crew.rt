//! The workers of a site: whose lines each one takes, and at which door.
ghost use Rattle.std.specs.Prelude.{Bool, ◌≡◌, ◌++◌, ◌-◌, ◌^◌, ◌<◌, ◌≤◌, ◌↔◌, IfOk, IfSome, IsSome, OnErr, is_some, length, min};
ghost use Rattle.site_server.specs.Crews.{IsCrew, all_posts, post_at, posts_at, posts_of};
ghost use Rattle.std.specs.Arc.{arc_value};

use crate::listener::Listener;
use crate::shared_door::SharedDoor;
use crate::stop::Stop;
use std::alloc::{AllocError, Global};
use std::sync::Arc;
use till_request::Role;

/// A listener with its workers, and whose lines they take.
#[derive(Drop)]
pub struct OpenDoor {
    pub role: Role,
    pub listener: Listener,
    pub workers: u32,
    /// How many lines a second of all its connections together are read at most; 0 is no bound.
    pub lines_per_second: u32,
}

/// All workers of a door share its listener, which is closed when the last of them is dropped, and its bound.
#[derive(Drop)]
pub(crate) struct Worker {
    pub role: Role,
    pub door: Arc<SharedDoor>,
}

impl Worker {
    fn try_clone(&self) -> Result<Worker, AllocError>
        ensures { IfOk result (λ w. post_at w.role (arc_value w.door) ≡ post_at self.now.role (arc_value self.now.door)) }
    {
        Ok(Worker {
            role: self.role,
            door: Arc::try_clone(&self.door)?,
        })
    }
}

/// The workers of a site, 1 to 96. The one at place k, counted from 0, has the pass with the number k + 1.
#[derive(Drop)]
pub struct Crew {
    pub(crate) workers: Vec<Worker>,
    /// Whether its workers can be asked to stop.
    pub may_stop: bool,
    ghost few: { IsCrew (length workers.items) },
}

fn count_workers(doors: &[OpenDoor]) -> u32
    ensures { (may_stop : Bool) → result ≡ min (length (all_posts may_stop doors.now)) (2 ^ 32 - 1) }
{
    let Some((door, rest)) = doors.split_first() else {
        return 0;
    };
    door.workers.saturating_add(count_workers(rest))
}

fn push_workers(
    alloc: Global,
    workers: &mut Vec<Worker>,
    door: OpenDoor,
    stop: &Option<Arc<Stop>>,
) -> Result<(), AllocError>
    ensures { IfOk result (λ _. posts_of workers.new.items ≡ posts_of workers.old.items ++ posts_at (is_some stop.now) door) }
{
    let OpenDoor {
        role,
        listener,
        workers: count,
        lines_per_second,
    } = door;
    let door = Arc::new(
        alloc,
        SharedDoor::new(alloc, listener, lines_per_second, clone_of(stop)?),
    )?;
    for _turn in 0..count {
        let door = Arc::try_clone(&door)?;
        workers.push(Worker { role, door })?;
    }
    Ok(())
}

fn clone_of(stop: &Option<Arc<Stop>>) -> Result<Option<Arc<Stop>>, AllocError>
    ensures { IfOk result (λ clone. is_some clone ≡ is_some stop.now) }
{
    match stop {
        Some(stop) => Ok(Some(Arc::try_clone(stop)?)),
        None => Ok(None),
    }
}

fn workers_of(
    alloc: Global,
    doors: Vec<OpenDoor>,
    stop: &Option<Arc<Stop>>,
) -> Result<Vec<Worker>, AllocError>
    ensures { IfOk result (λ workers. posts_of workers.items ≡ all_posts (is_some stop.now) doors.items) }
{
    let mut workers = Vec::new(alloc);
    for door in doors {
        push_workers(alloc, &mut workers, door, stop)?;
    }
    Ok(workers)
}

impl Crew {
    /// Makes a crew: for each door as many workers as it asks for, in the order of the doors. `None` if that is none,
    /// or over 96. Where there is a `stop`, it ends what they wait for.
    pub fn new(
        alloc: Global,
        doors: Vec<OpenDoor>,
        stop: Option<Arc<Stop>>,
    ) -> Result<Option<Crew>, AllocError>
        // proved there, workers, memory: It has its doors' workers, 1 to 96 | door_lacks_a_worker
        ensures there { IfOk result (λ made. IsSome made ↔ IsCrew (length (all_posts (is_some stop) doors.items))) }
        ensures memory { OnErr result (IsCrew (length (all_posts (is_some stop) doors.items))) }
        // proved: Each worker has its door's bound | door_has_no_bound
        ensures workers { IfOk result (λ made. IfSome made (λ crew. posts_of crew.workers.items
            ≡ all_posts (is_some stop) doors.items)) }
        ensures stop { IfOk result (λ made. IfSome made (λ crew. crew.may_stop ≡ is_some stop)) }
    {
        if !(1..=96).contains(&count_workers(&doors)) {
            return Ok(None);
        }
        let workers = workers_of(alloc, doors, &stop)?;
        Ok(Some(Crew {
            workers,
            may_stop: stop.is_some(),
        }))
    }

    /// A crew with the same doors, workers and stop. A door is open until the last crew that has it is gone.
    pub fn try_clone(&self, alloc: Global) -> Result<Crew, AllocError>
        // proved workers_kept, stop_kept: The next day has the same crew
        ensures workers_kept { IfOk result (λ crew. posts_of crew.workers.items ≡ posts_of self.now.workers.items) }
        ensures stop_kept { IfOk result (λ crew. crew.may_stop ≡ self.now.may_stop) }
    {
        let mut workers = Vec::new(alloc);
        for worker in &self.workers {
            workers.push(worker.try_clone()?)?;
        }
        Ok(Crew {
            workers,
            may_stop: self.may_stop,
        })
    }

    /// How many passes the crew needs: one for each worker.
    pub fn passes(&self) -> u32
        ensures number { result ≡ length self.now.workers.items }
        ensures some { (0 < result) × (result ≤ 96) }
    {
        self.workers.len() as u32
    }
}
