//! The connections that a stop leaves open.
ghost use Rattle.std.specs.Prelude.{◌≡◌, ◌↔◌, IfOk, drop, true};
ghost use Rattle.std.specs.Io.Chain.{chain_first, chain_second};
ghost use Rattle.std.specs.Io.Cursor.{cursor_inner, cursor_position};
ghost use Rattle.site_server.specs.Kept.{begun_behind, ends_day, has_more, is_kept, left_ahead};

use crate::guard::GuardedReader;
use crate::judging::Verdict;
use crate::notices::Notices;
use crate::paused::PausedIn;
use crate::silence::IdleLimitedReader;
use crate::stream::Stream;
use line_session::{Ended, SessionFault};
use std::alloc::AllocError;
use std::io::Cursor;
use std::sync::Wait;
use std::time::Clock;
use till_request::devices::StreamIn;

/// A connection that a stop leaves open for the workers that follow.
#[derive(Drop)]
pub struct KeptConnection {
    pub(crate) reader: Stream,
    pub(crate) writer: Stream,
    /// What was read of it, and isn't answered.
    pub(crate) ahead: Vec<u8>,
    /// Whether its peer was judged, and is no stranger.
    pub(crate) is_known: bool,
    /// Whether its peer ended the day, and waits for the number of the day that is served then.
    pub(crate) is_owed: bool,
}

fn has_more(outcome: &Result<Ended, SessionFault>) -> bool
    ensures { result ≡ has_more outcome.now }
{
    match outcome {
        Ok(ended) => ended.cut.is_none(),
        Err(fault) => matches!(fault, SessionFault::Read),
    }
}

/// Whether the session ended by the line that ends a day.
pub(crate) fn ends_day(outcome: &Result<Ended, SessionFault>) -> bool
    ensures { result ≡ ends_day outcome.now }
{
    matches!(outcome, Err(SessionFault::NextDay))
}

/// Whether a connection is kept, by whether a stop interrupted its input.
pub(crate) fn is_kept(is_paused: bool, outcome: &Result<Ended, SessionFault>) -> bool
    ensures { result ≡ is_kept is_paused outcome.now }
{
    if ends_day(outcome) {
        return true;
    }
    is_paused && has_more(outcome)
}

/// What wasn't read of a list.
fn unread(cursor: &Cursor<Vec<u8>>) -> &[u8]
    ensures { result.now ≡ drop (cursor_position cursor.now) (cursor_inner cursor.now).items }
{
    let bytes = cursor.get_ref().as_slice();
    let start = (cursor.position() as usize).min(bytes.len());
    &bytes[start..]
}

/// What is left of a line so far.
fn begun_behind(is_owed: bool, mut begun: Vec<u8>) -> Vec<u8>
    ensures { result.items ≡ begun_behind is_owed begun.items }
{
    if is_owed {
        begun.clear();
    }
    begun
}

fn gather(begun: Vec<u8>, block: &[u8], judged: &[u8], kept: &[u8]) -> Result<Vec<u8>, AllocError>
    ensures { IfOk result (λ ahead. ahead.items ≡ left_ahead begun.items block.now judged.now kept.now) }
{
    let mut ahead = begun;
    ahead.extend_from_slice(block)?;
    ahead.extend_from_slice(judged)?;
    ahead.extend_from_slice(kept)?;
    Ok(ahead)
}

/// What is left of a connection whose input a stop has interrupted, or whose session ended the day (`is_owed`).
pub(crate) fn kept_of<R: Wait + Clock, N: Notices>(
    input: PausedIn<'_, StreamIn<GuardedReader<'_, N, IdleLimitedReader<'_, R, N>>>>,
    writer: Stream,
    is_owed: bool,
) -> Result<KeptConnection, AllocError>
    // proved ahead, known: Nothing is lost of a kept connection
    ensures ahead { IfOk result (λ kept. kept.ahead.items ≡ left_ahead
        (begun_behind is_owed input.entry.begun.items) input.entry.input.block
        input.entry.input.input.reader.beginning.kept
        (drop (cursor_position (chain_first input.entry.input.input.reader.reader.stream.source))
        (cursor_inner (chain_first input.entry.input.input.reader.reader.stream.source)).items)) }
    ensures reader { IfOk result
        (λ kept. kept.reader ≡ chain_second input.entry.input.input.reader.reader.stream.source) }
    ensures writer { IfOk result (λ kept. kept.writer ≡ writer) }
    ensures known { IfOk result (λ kept. kept.is_known ≡ true
        ↔ (input.entry.input.input.reader.beginning.verdict ≡ Verdict.Client)) }
    ensures owed { IfOk result (λ kept. kept.is_owed ≡ is_owed) }
{
    let PausedIn {
        input: source,
        begun,
        ..
    } = input;
    let guard = &source.input.reader;
    let before = guard.reader.stream.source.get_ref().0;
    let is_known = matches!(guard.beginning.verdict(), Verdict::Client);
    let ahead = gather(
        begun_behind(is_owed, begun),
        source.ahead(),
        guard.beginning.kept(),
        unread(before),
    )?;
    let (_, reader) = source.input.reader.reader.stream.source.into_inner();
    Ok(KeptConnection {
        reader,
        writer,
        ahead,
        is_known,
        is_owed,
    })
}
