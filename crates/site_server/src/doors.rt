//! The connections of a listener, which a worker opens one after another.
ghost use Rattle.std.specs.Prelude.{◌≡◌, [], false, true, ℕ, take, IfOk, IfSome, IsSome, OnErr, OnOk, is_some};
ghost use Rattle.std.specs.Io.KnownBytes.{Appends};
ghost use Rattle.till_request.specs.Looks.{next_day_line};
ghost use Rattle.till_request.specs.Count.{RoseBy};
ghost use Rattle.site_server.specs.Kept.{BeginsJudged, EndsConnection, ReportsUnkept};
ghost use Rattle.std.specs.Io.Chain.{chain_first, chain_second};
ghost use Rattle.std.specs.Io.Cursor.{cursor_inner, cursor_position};
ghost use Rattle.site_server.specs.Pauses.{IsNextPause, longer_pause, reported_failure};

use crate::accepting::accept;
use crate::draining::{drain, is_drained};
use crate::guard::GuardedReader;
use crate::kept::{KeptConnection, ends_day, is_kept, kept_of};
use crate::notices::{Notices, SessionFailure};
use crate::paced::PacedIn;
use crate::paused::PausedIn;
use crate::shared_door::SharedDoor;
use crate::silence::IdleLimitedReader;
use crate::stop::{Stop, is_stopped};
use crate::stream::Stream;
use crate::waiting::{WaitingReader, WaitingWriter, limit_waits};
use line_session::{Doors, Ended, SessionFault};
use std::alloc::{AllocError, Global};
use std::io::{self, Cursor, Read};
use std::sync::Wait;
use std::time::{Clock, Duration};
use till_request::devices::{Ahead, StreamIn, StreamOut};
use till_request::write::write_next_day;
use till_request::{DeviceFault, LineOut, Role};

/// From the socket on: what is kept of it, its end if the peer is silent, and the guard.
pub(crate) type Source<'a, R, N> = StreamIn<GuardedReader<'a, N, IdleLimitedReader<'a, R, N>>>;

/// Behind that the block that is read ahead, which a stop may interrupt, and the pace.
type Input<'a, R, N> = PacedIn<'a, R, N, PausedIn<'a, Source<'a, R, N>>>;

type Output<'a, R> = StreamOut<WaitingWriter<'a, R>>;

/// Opens the connections of a door one after another, for one worker.
///
/// - Input is read ahead, in blocks of 4,096 bytes. Output is sent at once; a port's connections have `TCP_NODELAY`.
/// - A line is read only once the door allows it.
/// - If a session ends while its peer may still be sending, what comes is read and thrown away before the connection is
///   closed, so that the peer gets all answers.
/// - If a connection can't be opened, the worker waits before it tries again: 10 milliseconds, then twice as long each
///   time, at most 1 second. Of several failures in a row only the first is reported.
/// - Where a stop is asked for, no connection is opened. The one that is open is kept, if its session ended by that, and
///   the first to be opened next is one that was kept.
/// - A line that ends the day asks for a stop. It is answered when its connection, which is kept, is opened next.
#[derive(Drop)]
pub struct SocketDoors<'a, R: Wait + Clock, N: Notices> {
    rt: &'a R,
    alloc: Global,
    door: &'a SharedDoor,
    notices: &'a N,
    role: Role,
    pass: u32,
    idle_seconds: u32,
    /// The number of the day, from 1.
    day: u32,
    stop: Option<&'a Stop>,
    asked: u64,
    /// How many milliseconds the worker waited after the last failure; 0 if a connection was opened since then.
    pause: u64,
}

fn longer(pause: u64) -> u64
    ensures { result ≡ longer_pause pause }
{
    if pause == 0 {
        10
    } else if pause >= 500 {
        1000
    } else {
        2 * pause
    }
}

/// What an operator reads of a session's end: nothing if it ended behind a whole line, or before the first byte.
fn failure_of(outcome: &Result<Ended, SessionFault>) -> Option<SessionFailure>
    ensures { result ≡ reported_failure outcome.now }
{
    match outcome {
        Ok(ended) => ended.cut.map(SessionFailure::Line),
        Err(fault) => Some(SessionFailure::Session(*fault)),
    }
}

impl<'a, R: Wait + Clock, N: Notices> SocketDoors<'a, R, N> {
    pub fn new(
        rt: &'a R,
        alloc: Global,
        door: &'a SharedDoor,
        notices: &'a N,
        role: Role,
        pass: u32,
        idle_seconds: u32,
        day: u32,
        stop: Option<&'a Stop>,
    ) -> SocketDoors<'a, R, N>
        // proved door, role, pass, idle: It keeps the door, role, pass and limit
        ensures door { result.door.now ≡ door.now }
        ensures role { result.role ≡ role }
        ensures pass { result.pass ≡ pass }
        ensures idle { result.idle_seconds ≡ idle_seconds }
        ensures day { result.day ≡ day }
        ensures stop { result.stop ≡ stop.entry }
        // proved asked, pause: No door is asked for yet
        ensures asked { result.asked ≡ 0 }
        ensures pause { result.pause ≡ 0 }
    {
        SocketDoors {
            rt,
            alloc,
            door,
            notices,
            role,
            pass,
            idle_seconds,
            day,
            stop,
            asked: 0,
            pause: 0,
        }
    }

    /// For how long a peer may be silent, or take no bytes.
    fn limit(&self) -> Option<Duration> {
        match self.idle_seconds {
            0 => None,
            seconds => Some(Duration::from_secs(u64::from(seconds))),
        }
    }

    fn guarded(
        &self,
        stream: Stream,
        ahead: Vec<u8>,
        is_known: bool,
    ) -> GuardedReader<'a, N, IdleLimitedReader<'a, R, N>>
        ensures first { (cursor_inner (chain_first result.reader.stream.source) ≡ ahead)
            × (cursor_position (chain_first result.reader.stream.source) ≡ 0) }
        ensures then { chain_second result.reader.stream.source ≡ stream }
        ensures judged { BeginsJudged is_known result.beginning }
    {
        let reader = IdleLimitedReader {
            stream: WaitingReader {
                rt: self.rt,
                source: Cursor::new(ahead).chain(stream),
                stop: self.stop,
                limit: self.limit(),
            },
            notices: self.notices,
            role: self.role,
            pass: self.pass,
            idle_seconds: self.idle_seconds,
            is_over: false,
        };
        if is_known {
            GuardedReader::of_client(reader, self.notices, self.role, self.pass)
        } else {
            GuardedReader::new(reader, self.notices, self.role, self.pass)
        }
    }

    fn connection_of(&self, opened: KeptConnection) -> (Input<'a, R, N>, Output<'a, R>)
        // proved first, then, judged, writer: What is kept of a connection is read first
        ensures first { (cursor_inner (chain_first result.0.input.input.input.reader.reader.stream.source)
            ≡ opened.ahead)
            × (cursor_position (chain_first result.0.input.input.input.reader.reader.stream.source) ≡ 0) }
        ensures then { chain_second result.0.input.input.input.reader.reader.stream.source ≡ opened.reader }
        ensures judged { BeginsJudged opened.is_known result.0.input.input.input.reader.beginning }
        ensures fresh { (result.0.input.input.block ≡ []) × (result.0.input.begun.items ≡ [])
            × (result.0.input.is_paused ≡ false) }
        ensures writer { result.1.writer.stream ≡ opened.writer }
        ensures door { result.0.door.now ≡ self.now.door.now }
        ensures role { result.0.role ≡ self.now.role }
        ensures pass { result.0.pass ≡ self.now.pass }
    {
        let KeptConnection {
            reader,
            writer,
            ahead,
            is_known,
            is_owed: _,
        } = opened;
        let source = Ahead::new(StreamIn {
            reader: self.guarded(reader, ahead, is_known),
            reads: 0,
            failures: 0,
            asked: 0,
        });
        let input = PacedIn::new(
            self.rt,
            self.door,
            self.notices,
            self.role,
            self.pass,
            PausedIn::new(self.alloc, source, self.stop),
        );
        let writer = WaitingWriter {
            rt: self.rt,
            stream: writer,
            stop: self.stop,
            limit: self.limit(),
        };
        (
            input,
            StreamOut {
                writer,
                failures: 0,
            },
        )
    }

    /// The next connection: one that was kept, or one that comes in.
    fn open(&mut self) -> io::Result<KeptConnection>
        ensures asked { self.new.asked ≡ self.old.asked }
        ensures pause { self.new.pause ≡ self.old.pause }
        ensures role { self.new.role ≡ self.old.role }
        ensures pass { self.new.pass ≡ self.old.pass }
        ensures idle { self.new.idle_seconds ≡ self.old.idle_seconds }
        ensures stop { self.new.stop ≡ self.old.stop }
        ensures door { self.new.door.now ≡ self.old.door.now }
    {
        if let Some(kept) = self.door.take_kept(self.rt) {
            return Ok(kept);
        }
        let (listener, stop) = (&self.door.listener, self.stop);
        let writer = accept(self.rt, listener, stop)?;
        limit_waits(&writer, stop.is_some(), self.limit())?;
        Ok(KeptConnection {
            reader: writer.try_clone()?,
            writer,
            ahead: Vec::new(self.alloc),
            is_known: false,
            is_owed: false,
        })
    }

    /// Doesn't wait if the failure came from a stop.
    fn wait_after_failure(&mut self, error: &io::Error)
        ensures asked { self.new.asked ≡ self.old.asked }
        ensures pause { IsNextPause (is_some self.old.stop) self.old.pause self.new.pause }
        ensures role { self.new.role ≡ self.old.role }
        ensures pass { self.new.pass ≡ self.old.pass }
        ensures idle { self.new.idle_seconds ≡ self.old.idle_seconds }
        ensures stop { self.new.stop ≡ self.old.stop }
        ensures door { self.new.door.now ≡ self.old.door.now }
    {
        if is_stopped(self.stop) {
            return;
        }
        if self.pause == 0 {
            self.notices.accept_failed(self.role, self.pass, error);
        }
        self.pause = longer(self.pause);
        self.door.sleep(self.rt, 1000 * self.pause);
    }

    fn report(&self, outcome: &Result<Ended, SessionFault>)
        ensures { IfSome (reported_failure outcome.now) (λ failure. N.failure_reported self.now.role self.now.pass
            failure) }
    {
        if let Some(failure) = failure_of(outcome) {
            self.notices.session_failed(self.role, self.pass, failure);
        }
    }

    fn drain_if_needed(&self, input: &mut Input<'a, R, N>, outcome: &Result<Ended, SessionFault>) {
        if is_drained(outcome) {
            let reader = &mut input.input.input.input.reader.reader.stream;
            let _ = drain(self.rt, reader);
        }
    }

    fn keep(
        &self,
        input: Input<'a, R, N>,
        writer: Stream,
        is_owed: bool,
    ) -> Result<(), AllocError> {
        self.door
            .keep(self.rt, kept_of(input.input, writer, is_owed)?)
    }

    fn ask_stop(&self) {
        if let Some(stop) = self.stop {
            stop.ask();
        }
    }

    fn end(
        &self,
        mut input: Input<'a, R, N>,
        output: Output<'a, R>,
        outcome: &Result<Ended, SessionFault>,
    )
        ensures { ReportsUnkept N.failure_reported self.now.role self.now.pass input.entry.input.is_paused
            outcome.now }
    {
        if !is_kept(input.input.is_paused, outcome) {
            self.report(outcome);
            self.drain_if_needed(&mut input, outcome);
            return;
        }
        let is_owed = ends_day(outcome);
        if self.keep(input, output.writer.stream, is_owed).is_err() {
            self.report(&Err(SessionFault::Read));
        }
        if is_owed {
            self.ask_stop();
        }
    }
}

/// Answers the line that ended the day before, if the peer waits for that.
fn answer_owed<O: LineOut>(output: &mut O, is_owed: bool, day: u32) -> Result<(), DeviceFault>
    ensures owed { OnOk result (is_owed ≡ true
        → Appends (O.written output.old) (O.written output.new) (next_day_line day)) }
    ensures err { OnErr result ((k : ℕ)
        × Appends (O.written output.old) (O.written output.new) (take k (next_day_line day))) }
    ensures none { is_owed ≡ false → output.new ≡ output.old }
{
    if is_owed {
        write_next_day(output, day)
    } else {
        Ok(())
    }
}

impl<'a, R: Wait + Clock, N: Notices> Doors for SocketDoors<'a, R, N> {
    type In = PacedIn<
        'a,
        R,
        N,
        PausedIn<'a, StreamIn<GuardedReader<'a, N, IdleLimitedReader<'a, R, N>>>>,
    >;

    type Out = StreamOut<WaitingWriter<'a, R>>;

    ghost opens = { λ before input _ after. RoseBy 1 before.asked after.asked × (after.pause ≡ 0)
        × (input.door.now ≡ before.door.now) × (input.role ≡ before.role) × (input.pass ≡ before.pass)
        × (after.role ≡ before.role) × (after.pass ≡ before.pass) × (after.idle_seconds ≡ before.idle_seconds)
        × (after.door.now ≡ before.door.now) };

    ghost fails = { λ before after. RoseBy 1 before.asked after.asked
        × IsNextPause (is_some before.stop) before.pause after.pause
        × (after.role ≡ before.role) × (after.pass ≡ before.pass) × (after.idle_seconds ≡ before.idle_seconds)
        × (after.door.now ≡ before.door.now) };

    ghost may_close = { λ doors. IsSome doors.stop };

    ghost reported = { λ before input _ outcome after. EndsConnection N.failure_reported N.end_reported before.role
        before.pass input.input.is_paused outcome × (after ≡ before) };

    ghost stray_reported = { λ doors. N.stray_reported doors.role doors.pass };

    fn next(&mut self) -> Result<(Self::In, Self::Out), DeviceFault> {
        self.asked = self.asked.wrapping_add(1);
        match self.open() {
            Ok(opened) => {
                self.pause = 0;
                self.notices.connected(self.role, self.pass);
                let is_owed = opened.is_owed;
                let (input, mut output) = self.connection_of(opened);
                // Where it fails, the session's next write fails too.
                let _ = answer_owed(&mut output, is_owed, self.day);
                Ok((input, output))
            }
            Err(error) => {
                self.wait_after_failure(&error);
                Err(DeviceFault)
            }
        }
    }

    fn are_closed(&self) -> bool {
        is_stopped(self.stop)
    }

    // The block that is read ahead can have the next line too. False where the door has a bound, since the line may
    // have to wait, and no answer is to wait with it.
    fn has_buffered_line(&self, input: &Self::In) -> bool {
        self.door.lines_per_second == 0 && input.input.input.holds_line()
    }

    fn met_stray(&self) {
        self.notices.met_stray(self.role, self.pass);
    }

    fn ended(&mut self, input: Self::In, output: Self::Out, outcome: &Result<Ended, SessionFault>) {
        self.end(input, output, outcome);
        self.notices.disconnected(self.role, self.pass);
    }
}
