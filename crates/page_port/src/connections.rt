//! Counts of a site's workers, of their connections, and of what comes in at each door.
ghost use Rattle.std.specs.Prelude.{◌≡◌, ◌+◌, ◌-◌, ◌≤◌, ◌++◌, ◌∷◌, [], IfOk, OnOk, length, map, min, string_bytes};
ghost use Rattle.page_port.specs.Counting.{DoorName, listed, name_of_counts, name_of_door, roles_with_doors};

use pages::{DoorCounts, RoleCounts};
use std::alloc::{AllocError, Global};
use std::sync::atomic::{AtomicU32, AtomicU64, Ordering};
use till_request::Role;

#[derive(Drop)]
struct RoleCounters {
    /// How many workers the doors of this role have.
    workers: u32,
    /// How many of them have a thread, or had one.
    began: AtomicU32,
    /// How many workers have served their last connection.
    left: AtomicU32,
    opened: AtomicU64,
    closed: AtomicU64,
}

impl RoleCounters {
    fn new() -> RoleCounters
        ensures { result.workers ≡ 0 }
    {
        RoleCounters {
            workers: 0,
            began: AtomicU32::new(0),
            left: AtomicU32::new(0),
            opened: AtomicU64::new(0),
            closed: AtomicU64::new(0),
        }
    }

    fn add_workers(&mut self, workers: u32)
        ensures { self.new.workers ≡ min (self.old.workers + workers) 4294967295 }
    {
        self.workers = self.workers.saturating_add(workers);
    }

    /// A connection that ends during this call can still count as open.
    fn role_counts(&self, role: Role) -> RoleCounts
        ensures role { result.role ≡ role }
        ensures opened { result.open ≤ result.total }
    {
        let left = self.left.load(Ordering::SeqCst);
        let closed = self.closed.load(Ordering::SeqCst);
        let total = self.opened.load(Ordering::SeqCst);
        counts_of(
            role,
            (self.began.load(Ordering::SeqCst), left),
            (total, closed),
        )
    }
}

/// `workers` are those that began and those that left, `connections` those that were opened and those that were closed.
fn counts_of(role: Role, workers: (u32, u32), connections: (u64, u64)) -> RoleCounts
    ensures role { result.role ≡ role }
    ensures workers { result.workers ≡ workers.0 - workers.1 }
    ensures opened { result.open ≡ connections.0 - connections.1 }
    ensures total { result.total ≡ connections.0 }
{
    RoleCounts {
        role,
        workers: workers.0.saturating_sub(workers.1),
        open: connections.0.saturating_sub(connections.1),
        total: connections.0,
    }
}

/// Adds the counts of a role, if it has a door.
fn put_counts(
    role_counts: &mut Vec<RoleCounts>,
    role: Role,
    counted: &RoleCounters,
) -> Result<(), AllocError>
    ensures { OnOk result (map (λ (c : RoleCounts). c.role) role_counts.new.items
        ≡ map (λ (c : RoleCounts). c.role) role_counts.old.items ++ listed counted.now.workers role) }
{
    if counted.workers > 0 {
        role_counts.push(counted.role_counts(role))?;
    }
    Ok(())
}

/// What comes to one worker. Its counts are 128 bytes apart from the next worker's, so that workers on several
/// processors don't wait for one another when they count.
#[derive(Drop)]
struct PassCounters {
    lines: AtomicU64,
    turned_away: AtomicU64,
    _apart: [u64; 14],
}

impl PassCounters {
    fn new() -> PassCounters {
        PassCounters {
            lines: AtomicU64::new(0),
            turned_away: AtomicU64::new(0),
            _apart: [0; 14],
        }
    }
}

/// Adds the counters of this many workers.
fn add_passes(passes: &mut Vec<PassCounters>, workers: u32) -> Result<(), AllocError>
    ensures { OnOk result (length passes.new.items ≡ length passes.old.items + workers) }
{
    for _ in 0..workers {
        passes.push(PassCounters::new())?;
    }
    Ok(())
}

#[derive(Drop)]
struct NamedDoor {
    address: String,
    who: String,
    workers: u32,
}

impl NamedDoor {
    /// `passes` are the counters of the door's workers.
    fn counts(&self, passes: &[PassCounters]) -> DoorCounts<'_>
        ensures { name_of_counts result ≡ name_of_door self.now }
    {
        let (mut lines, mut turned_away) = (0u64, 0u64);
        for pass in passes {
            lines = lines.saturating_add(pass.lines.load(Ordering::Relaxed));
            turned_away = turned_away.saturating_add(pass.turned_away.load(Ordering::Relaxed));
        }
        DoorCounts {
            address: &self.address,
            who: &self.who,
            lines,
            turned_away,
        }
    }
}

/// Counts a site's workers and their connections by role, and what comes in at each door. A worker with `Role::All`
/// counts for the owner.
#[derive(Drop)]
pub struct ConnectionCounts {
    tills: RoleCounters,
    dispensers: RoleCounters,
    owner: RoleCounters,
    /// In the order of their workers' passes.
    doors: Vec<NamedDoor>,
    /// Those of the worker whose pass has the number n are at place n - 1.
    passes: Vec<PassCounters>,
}

impl ConnectionCounts {
    pub fn new(alloc: Global) -> ConnectionCounts
        ensures doors { result.doors.items ≡ [] }
        ensures roles { roles_with_doors result ≡ [] }
    {
        ConnectionCounts {
            tills: RoleCounters::new(),
            dispensers: RoleCounters::new(),
            owner: RoleCounters::new(),
            doors: Vec::new(alloc),
            passes: Vec::new(alloc),
        }
    }

    fn counted(&self, role: Role) -> &RoleCounters {
        match role {
            Role::Till | Role::OneTill(..) => &self.tills,
            Role::Dispenser | Role::SomePoints(..) => &self.dispensers,
            Role::Owner | Role::DaysOwner | Role::All => &self.owner,
        }
    }

    fn add_workers(&mut self, role: Role, workers: u32)
        ensures doors { self.new.doors ≡ self.old.doors }
        ensures passes { self.new.passes ≡ self.old.passes }
    {
        match role {
            Role::Till | Role::OneTill(..) => self.tills.add_workers(workers),
            Role::Dispenser | Role::SomePoints(..) => self.dispensers.add_workers(workers),
            Role::Owner | Role::DaysOwner | Role::All => self.owner.add_workers(workers),
        }
    }

    /// Adds a door with `workers` workers, which have the next passes. `who` and `address` are shown.
    pub fn add_door(
        &mut self,
        role: Role,
        workers: u32,
        who: String,
        address: String,
    ) -> Result<(), AllocError>
        // proved doors, passes: A door is added behind the others, with its workers
        ensures doors { OnOk result (map name_of_door self.new.doors.items
            ≡ map name_of_door self.old.doors.items ++ (string_bytes address, string_bytes who) ∷ []) }
        ensures passes { OnOk result (length self.new.passes.items ≡ length self.old.passes.items + workers) }
    {
        self.add_workers(role, workers);
        add_passes(&mut self.passes, workers)?;
        self.doors.push(NamedDoor {
            address,
            who,
            workers,
        })?;
        Ok(())
    }

    fn at_pass(&self, pass: u32) -> Option<&PassCounters> {
        self.passes.get((pass as usize).wrapping_sub(1))
    }

    pub fn line_read(&self, _role: Role, pass: u32) {
        if let Some(counters) = self.at_pass(pass) {
            counters.lines.fetch_add(1, Ordering::Relaxed);
        }
    }

    /// Counts a connection that speaks another protocol.
    pub fn turned_away(&self, _role: Role, pass: u32) {
        if let Some(counters) = self.at_pass(pass) {
            counters.turned_away.fetch_add(1, Ordering::Relaxed);
        }
    }

    pub(crate) fn door_counts(&self, alloc: Global) -> Result<Vec<DoorCounts<'_>>, AllocError>
        // proved: It lists each door, in order
        ensures { IfOk result (λ counts. map name_of_counts counts.items ≡ map name_of_door self.now.doors.items) }
    {
        let mut door_counts = Vec::new(alloc);
        let mut passes = self.passes.as_slice();
        for door in &self.doors {
            let (own, others) = passes.split_at(passes.len().min(door.workers as usize));
            door_counts.push(door.counts(own))?;
            passes = others;
        }
        Ok(door_counts)
    }

    /// Counts all workers as those that have a thread.
    pub fn all_began(&self) {
        for counters in [&self.tills, &self.dispensers, &self.owner] {
            counters.began.store(counters.workers, Ordering::SeqCst);
        }
    }

    /// Counts that a worker with this role has a thread.
    pub fn began(&self, role: Role) {
        self.counted(role).began.fetch_add(1, Ordering::SeqCst);
    }

    pub fn connected(&self, role: Role) {
        self.counted(role).opened.fetch_add(1, Ordering::SeqCst);
    }

    pub fn disconnected(&self, role: Role) {
        self.counted(role).closed.fetch_add(1, Ordering::SeqCst);
    }

    /// Counts that a worker with this role has served its last connection.
    pub fn left(&self, role: Role) {
        self.counted(role).left.fetch_add(1, Ordering::SeqCst);
    }

    /// For tills, for dispensers and for the owner, in this order, but for a role without a door.
    pub(crate) fn role_counts(&self, alloc: Global) -> Result<Vec<RoleCounts>, AllocError>
        // proved: It lists each role that has a door, in order
        ensures { IfOk result (λ counts. map (λ (c : RoleCounts). c.role) counts.items ≡ roles_with_doors self.now) }
    {
        let mut role_counts = Vec::new(alloc);
        put_counts(&mut role_counts, Role::Till, &self.tills)?;
        put_counts(&mut role_counts, Role::Dispenser, &self.dispensers)?;
        put_counts(&mut role_counts, Role::Owner, &self.owner)?;
        Ok(role_counts)
    }
}
