//! A source of connections whose answers are sent only once the journal is synced.
ghost use Rattle.site_server.specs.Reporting.{IsReportedAs, ReportsHeld};

use super::outputs::HeldOut;
use super::release::Release;
use line_session::{Doors, Ended, SessionFault};
use till_request::DeviceFault;

/// Doors (a source of connections) that give a worker the connections of `doors`, and send each answer only once
/// `release` allows it. If `release.wait` fails (a sync failed), the answer isn't sent. If a session ends by a failed
/// write, and `release.wait` then fails, the session is reported to `doors` as ended by a failure of the journal.
#[derive(Drop)]
pub struct HeldDoors<'a, A: Release, S: Doors> {
    pub doors: S,
    pub release: &'a A,
}

/// Returns what to report of a session that ended with `outcome`. If `outcome` is a failed write, calls `release.wait`,
/// and if this call fails, returns a failure of the journal. In all other cases returns `outcome` itself.
fn outcome_to_report<A: Release>(
    release: &A,
    outcome: Result<Ended, SessionFault>,
) -> Result<Ended, SessionFault>
    ensures { IsReportedAs A.journal_synced A.failed outcome result }
{
    match outcome {
        Ok(ended) => Ok(ended),
        Err(SessionFault::Write) => match release.wait() {
            Ok(_) => Err(SessionFault::Write),
            Err(DeviceFault) => Err(SessionFault::Journal),
        },
        Err(SessionFault::Read) => Err(SessionFault::Read),
        Err(SessionFault::ReadsSpent) => Err(SessionFault::ReadsSpent),
        Err(SessionFault::OutOfMemory) => Err(SessionFault::OutOfMemory),
        Err(SessionFault::Journal) => Err(SessionFault::Journal),
        Err(SessionFault::NextDay) => Err(SessionFault::NextDay),
    }
}

impl<'a, A: Release, S: Doors> Doors for HeldDoors<'a, A, S> {
    type In = S::In;

    type Out = HeldOut<'a, A, S::Out>;

    ghost opens = { λ before i o after. S.opens before.doors i o.output after.doors };

    ghost fails = { λ before after. S.fails before.doors after.doors };

    ghost may_close = { λ doors. S.may_close doors.doors };

    ghost reported = { λ before i o outcome after. ReportsHeld A.journal_synced A.failed
        (λ last. S.reported before.doors i o.output last after.doors) outcome };

    ghost stray_reported = { λ doors. S.stray_reported doors.doors };

    fn next(&mut self) -> Result<(Self::In, Self::Out), DeviceFault> {
        let (input, output) = self.doors.next()?;
        Ok((input, HeldOut::new(output, self.release)))
    }

    fn are_closed(&self) -> bool {
        self.doors.are_closed()
    }

    fn has_buffered_line(&self, input: &Self::In) -> bool {
        self.doors.has_buffered_line(input)
    }

    fn met_stray(&self) {
        self.doors.met_stray();
    }

    fn ended(&mut self, input: Self::In, output: Self::Out, outcome: &Result<Ended, SessionFault>) {
        let reported = outcome_to_report(self.release, *outcome);
        self.doors.ended(input, output.output, &reported);
    }
}
