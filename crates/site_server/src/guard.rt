//! What keeps a peer that speaks another protocol out of a session.
ghost use Rattle.std.specs.Prelude.{[], ◌≡◌, ◌≢◌, ◌≤◌, ◌<◌, ◌+◌, ◌⊎◌, length, OnOk, OnErr, option_map};
ghost use Rattle.std.specs.Io.{ReadsAtMost};
ghost use Rattle.std.specs.Io.KnownBytes.{Keeps, ReadConsumes};
ghost use Rattle.site_server.specs.Guard.{admitted};
ghost use Rattle.site_server.specs.Guarding.{ahead_of};

use crate::beginning::Beginning;
use crate::judging::Verdict;
use crate::notices::Notices;
use std::io::{self, Read};
use till_request::Role;

/// Reads the next bytes, and judges the peer by all that came so far.
fn judge_next<R: Read>(beginning: &mut Beginning, reader: &mut R) -> io::Result<()>
    requires { beginning.old.verdict ≡ Verdict.Unclear }
    ensures ahead { Keeps (ahead_of beginning.old (R.remaining reader.old))
        (ahead_of beginning.new (R.remaining reader.new)) }
    ensures grown { OnOk result
        (beginning.new.verdict ≡ Verdict.Unclear → length beginning.old.kept < length beginning.new.kept) }
    ensures few { OnOk result (beginning.new.verdict ≡ Verdict.Unclear → length beginning.new.kept < 8402) }
    ensures err { OnErr result (beginning.new ≡ beginning.old) }
{
    let mut chunk = [0; 512];
    match reader.read(&mut chunk) {
        Err(error) => return Err(error),
        Ok(0) => beginning.finish(),
        Ok(count) => beginning.append(&chunk[..count]),
    }
    Ok(())
}

fn judge_peer<R: Read>(beginning: &mut Beginning, reader: &mut R) -> io::Result<()>
    ensures ahead { Keeps (ahead_of beginning.old (R.remaining reader.old))
        (ahead_of beginning.new (R.remaining reader.new)) }
    ensures judged { OnOk result (beginning.new.verdict ≢ Verdict.Unclear) }
    ensures err { OnErr result (beginning.new.verdict ≡ Verdict.Unclear) }
{
    while let Verdict::Unclear = beginning.verdict() {
        judge_next(beginning, reader)?;
    }
    Ok(())
}

fn read_on<R: Read>(beginning: &mut Beginning, reader: &mut R, buf: &mut [u8]) -> io::Result<usize>
    requires { beginning.old.verdict ≡ Verdict.Client }
    ensures verdict { beginning.new.verdict ≡ beginning.old.verdict }
    ensures bound { ReadsAtMost result buf.new }
    ensures bytes { ReadConsumes (ahead_of beginning.old (R.remaining reader.old))
        (ahead_of beginning.new (R.remaining reader.new)) result buf.new }
{
    if beginning.is_empty() {
        return reader.read(buf);
    }
    Ok(beginning.pass_on(buf))
}

/// The reading half of a connection, as a session sees it. If the peer speaks another protocol, that is reported once,
/// and the input is empty. It is judged at the first read, which waits for at most the first word and two bytes behind
/// it.
#[derive(Drop)]
pub struct GuardedReader<'a, N: Notices, R: Read> {
    pub(crate) reader: R,
    pub(crate) beginning: Beginning,
    notices: &'a N,
    role: Role,
    pass: u32,
}

impl<'a, N: Notices, R: Read> GuardedReader<'a, N, R> {
    /// Nothing may have been read from `reader` yet.
    pub(crate) fn new(reader: R, notices: &'a N, role: Role, pass: u32) -> GuardedReader<'a, N, R>
        // proved: No byte of a stranger | bytes_of_a_stranger_are_passed_on
        ensures reader { result.reader ≡ reader }
        ensures unclear { (result.beginning.kept ≡ []) × (result.beginning.verdict ≡ Verdict.Unclear) }
        ensures admitted { ahead_of result.beginning (R.remaining result.reader)
            ≡ option_map (λ bytes. admitted bytes) (R.remaining reader) }
        ensures role { result.role ≡ role }
        ensures pass { result.pass ≡ pass }
    {
        GuardedReader {
            reader,
            beginning: Beginning::new(),
            notices,
            role,
            pass,
        }
    }

    /// Of a peer that was judged before, and is no stranger.
    pub(crate) fn of_client(
        reader: R,
        notices: &'a N,
        role: Role,
        pass: u32,
    ) -> GuardedReader<'a, N, R>
        ensures reader { result.reader ≡ reader }
        ensures client { (result.beginning.kept ≡ []) × (result.beginning.verdict ≡ Verdict.Client) }
        ensures all { ahead_of result.beginning (R.remaining result.reader) ≡ R.remaining reader }
        ensures role { result.role ≡ role }
        ensures pass { result.pass ≡ pass }
    {
        GuardedReader {
            reader,
            beginning: Beginning::of_client(),
            notices,
            role,
            pass,
        }
    }

    /// Judges the peer, if that wasn't done yet, and reports a stranger.
    fn meet(&mut self) -> io::Result<()>
        ensures ahead { Keeps (ahead_of self.old.beginning (R.remaining self.old.reader))
            (ahead_of self.new.beginning (R.remaining self.new.reader)) }
        ensures judged { OnOk result (self.new.beginning.verdict ≢ Verdict.Unclear) }
        ensures told { self.new.beginning.verdict ≡ Verdict.Stranger
            → (self.old.beginning.verdict ≡ Verdict.Stranger) ⊎ N.stranger_reported self.new.role self.new.pass }
    {
        if let Verdict::Unclear = self.beginning.verdict() {
            judge_peer(&mut self.beginning, &mut self.reader)?;
            if let Verdict::Stranger = self.beginning.verdict() {
                self.notices.turned_away(self.role, self.pass);
            }
        }
        Ok(())
    }
}

impl<N: Notices, R: Read> Read for GuardedReader<'_, N, R> {
    ghost remaining = { λ s. ahead_of s.beginning (R.remaining s.reader) };

    fn read(&mut self, buf: &mut [u8]) -> io::Result<usize>
        ensures bound { ReadsAtMost result buf.new }
        ensures bytes { ReadConsumes (ahead_of self.old.beginning (R.remaining self.old.reader))
            (ahead_of self.new.beginning (R.remaining self.new.reader)) result buf.new }
        ensures judged { OnOk result (self.new.beginning.verdict ≢ Verdict.Unclear) }
        ensures told { self.new.beginning.verdict ≡ Verdict.Stranger
            → (self.old.beginning.verdict ≡ Verdict.Stranger) ⊎ N.stranger_reported self.new.role self.new.pass }
    {
        self.meet()?;
        match self.beginning.verdict() {
            Verdict::Client => read_on(&mut self.beginning, &mut self.reader, buf),
            Verdict::Stranger | Verdict::Unclear => Ok(0),
        }
    }
}
