//! Workers, which run a session at each connection.
ghost use Rattle.std.specs.Prelude.{◌≡◌, ◌≤◌, Some};
ghost use Rattle.line_session.specs.Serving.{Serves, RunsDeskSession, ServesConnection, one_good};

use crate::answering::{Ended, SessionFault};
use crate::connection::Connection;
use crate::desk::{Clock, Desk};
use crate::doors::Doors;
use crate::pipelined::pipelined_session;
use std::alloc::Global;
use till_request::Role;

fn one_if_good(outcome: Result<Ended, SessionFault>) -> u64
    ensures counted { result ≡ one_good (Some outcome) }
    ensures most { result ≤ 1 }
{
    match outcome {
        Ok(_) => 1,
        Err(_) => 0,
    }
}

/// Serves `connections` connections of a role, or fewer if the doors are closed before, and returns how many of their
/// sessions ended without a `SessionFault`. One that can't be opened counts as a connection, but not in what is returned.
pub fn worker<S: Doors, C: Clock, D: Desk>(
    alloc: Global,
    role: Role,
    doors: &mut S,
    clock: &mut C,
    desk: &mut D,
    connections: u32,
) -> u64
    // proved: It serves connections one after another | worker_serves_one_connection_too_few
    ensures serves { Serves
        (ServesConnection S.opens S.fails S.reported
        (RunsDeskSession D.step D.looks C.tick role S.In.remaining S.In.reads S.In.failures S.Out.written
        S.Out.failures))
        S.may_close connections result doors.old (clock.old, desk.old) doors.new (clock.new, desk.new) }
    ensures closes { S.may_close doors.new → S.may_close doors.old }
{
    let mut clean = 0;
    for _ in 0..connections {
        if doors.are_closed() {
            return clean;
        }
        let Ok((input, output)) = doors.next() else {
            continue;
        };
        let mut connection = Connection { input, output };
        let outcome = pipelined_session(alloc, role, doors, &mut connection, clock, desk);
        doors.ended(connection.input, connection.output, &outcome);
        clean += one_if_good(outcome);
    }
    clean
}
