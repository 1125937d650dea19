//! The start of a site's workers: they wait at a gate until it is known which of them have a thread.
ghost use Rattle.std.specs.Prelude.{◌≡◌};
ghost use Rattle.site_server.specs.Starting.{all_roles, counted, is_unserved, no_workers, one_more, plus, serves_each_role};

use std::sync::{Condvar, Mutex, Wait};
use till_request::Role;

/// How many workers a role has, and how many of them have a thread.
#[derive(Clone, Copy)]
pub struct RoleThreads {
    pub workers: u32,
    pub threads: u32,
}

impl RoleThreads {
    fn none() -> RoleThreads
        ensures { result ≡ no_workers }
    {
        RoleThreads {
            workers: 0,
            threads: 0,
        }
    }

    fn one_more(self, has_thread: bool) -> RoleThreads
        ensures { result ≡ one_more self has_thread }
    {
        RoleThreads {
            workers: self.workers.saturating_add(1),
            threads: if has_thread {
                self.threads.saturating_add(1)
            } else {
                self.threads
            },
        }
    }

    fn plus(self, other: RoleThreads) -> RoleThreads
        ensures { result ≡ plus self other }
    {
        RoleThreads {
            workers: self.workers.saturating_add(other.workers),
            threads: self.threads.saturating_add(other.threads),
        }
    }

    pub fn is_unserved(self) -> bool
        ensures { result ≡ is_unserved self }
    {
        self.workers > 0 && self.threads == 0
    }
}

/// How many workers of each role have a thread. One with `Role::All` counts for the owner.
#[derive(Clone, Copy)]
pub struct ThreadCounts {
    pub tills: RoleThreads,
    pub dispensers: RoleThreads,
    pub owner: RoleThreads,
}

impl ThreadCounts {
    pub(crate) fn none() -> ThreadCounts
        ensures tills { result.tills ≡ no_workers }
        ensures dispensers { result.dispensers ≡ no_workers }
        ensures owner { result.owner ≡ no_workers }
    {
        let none = RoleThreads::none();
        ThreadCounts {
            tills: none,
            dispensers: none,
            owner: none,
        }
    }

    pub(crate) fn counted(self, role: Role, has_thread: bool) -> ThreadCounts
        ensures { result ≡ counted self role has_thread }
    {
        let ThreadCounts {
            tills,
            dispensers,
            owner,
        } = self;
        match role {
            Role::Till | Role::OneTill(..) => ThreadCounts {
                tills: tills.one_more(has_thread),
                dispensers,
                owner,
            },
            Role::Dispenser | Role::SomePoints(..) => ThreadCounts {
                tills,
                dispensers: dispensers.one_more(has_thread),
                owner,
            },
            Role::Owner | Role::DaysOwner | Role::All => ThreadCounts {
                tills,
                dispensers,
                owner: owner.one_more(has_thread),
            },
        }
    }

    pub fn all(self) -> RoleThreads
        ensures { result ≡ all_roles self }
    {
        self.tills.plus(self.dispensers).plus(self.owner)
    }

    /// Whether each role with workers has a thread for one of them. A site is served only then.
    pub fn serves_each_role(self) -> bool
        // proved: Each role has a thread | role_without_a_thread_is_served
        ensures { result ≡ serves_each_role self }
    {
        !self.tills.is_unserved() && !self.dispensers.is_unserved() && !self.owner.is_unserved()
    }
}

#[derive(Clone, Copy)]
enum Start {
    Waiting,
    Serves,
    Ends,
}

/// Where workers wait until it is decided whether the site is served.
#[derive(Drop)]
pub(crate) struct StartGate {
    start: Mutex<Start>,
    decided: Condvar,
}

impl StartGate {
    pub fn new() -> StartGate {
        StartGate {
            start: Mutex::new(Start::Waiting),
            decided: Condvar::new(),
        }
    }

    pub fn decide<R: Wait>(&self, rt: &R, is_served: bool) {
        *self.start.lock(rt) = if is_served {
            Start::Serves
        } else {
            Start::Ends
        };
        self.decided.notify_all();
    }

    /// Waits for the decision, and returns whether the site is served.
    pub fn wait<R: Wait>(&self, rt: &R) -> bool {
        let mut start = self.start.lock(rt);
        for _ in rt.forever() {
            match *start {
                Start::Waiting => start = self.decided.wait(rt, start),
                Start::Serves => return true,
                Start::Ends => return false,
            }
        }
        unreachable!()
    }
}
