//! Parses the lines of a script: the acts of all roles, looks, and the lines that only scripts have.
ghost use Rattle.std.specs.Prelude.{◌≡◌, ◌≢◌, Err, map};
ghost use Rattle.std.specs.Str.{bytes_eq};
ghost use Rattle.till_request.specs.Gives.{Gives};
ghost use Rattle.till_request.specs.Grammar.{IsLoad, words as words_of};
ghost use Rattle.file_jobs.specs.Script.{asking_line, counter_line, is_named, line_for, line_of};
ghost use Rattle.file_jobs.specs.Script.{moment_line, own_line, own_pair, words_line};

use std::alloc::Global;
use till_request::look::words_asked;
use till_request::numbers::{number_u32, number_u64};
use till_request::parts::split_at_most;
use till_request::{Act, Asked, LINE_BYTES, LINE_WORDS, LineFault, LookAt, Role};

/// A parsed line of a script.
#[derive(Drop)]
pub enum ScriptLine {
    Act(Act),
    /// `look ..` asks to see something of the site.
    Look(LookAt),
    /// `moment N` sets the moment (the time) of the acts in later lines.
    Moment(u64),
    /// `counter C` asks for the value and the bound of counter C.
    Counter(u32),
    /// `journal` asks for all entries of the history.
    Journal,
}

fn is_pair(word: &[u8], name: &[u8], value: &[u8]) -> bool
    ensures { result ≡ is_named word.now name.now value.now }
{
    word == name && !value.is_empty()
}

/// The line that asks for this. No line of a script ends a day.
fn line_for(asked: Asked) -> Result<ScriptLine, LineFault>
    ensures value { result ≡ line_for asked }
    ensures memory { result ≢ Err LineFault.OutOfMemory }
{
    match asked {
        Asked::Act(act) => Ok(ScriptLine::Act(act)),
        Asked::Look(look) => Ok(ScriptLine::Look(look)),
        Asked::NextDay => Err(LineFault::BadLine),
    }
}

/// The line, if all roles together may send it.
fn read_asking(alloc: Global, words: &[&[u8]]) -> Result<ScriptLine, LineFault>
    ensures given { Gives result (asking_line (map (λ w. w.now) words.now)) }
    ensures memory { result ≡ Err LineFault.OutOfMemory → IsLoad Role.All (map (λ w. w.now) words.now) }
{
    line_for(words_asked(alloc, Role::All, words)?)
}

fn moment_of(value: &[u8]) -> Result<ScriptLine, LineFault>
    ensures { result ≡ moment_line value.now }
{
    Ok(ScriptLine::Moment(number_u64(value)?))
}

fn counter_of(value: &[u8]) -> Result<ScriptLine, LineFault>
    ensures { result ≡ counter_line value.now }
{
    Ok(ScriptLine::Counter(number_u32(value)?))
}

fn own_pair(word: &[u8], value: &[u8]) -> Option<Result<ScriptLine, LineFault>>
    ensures { result ≡ own_pair word.now value.now }
{
    if is_pair(word, b"moment", value) {
        Some(moment_of(value))
    } else if is_pair(word, b"counter", value) {
        Some(counter_of(value))
    } else {
        None
    }
}

fn own_words(words: &[&[u8]]) -> Option<Result<ScriptLine, LineFault>>
    ensures { result ≡ own_line (map (λ w. w.now) words.now) }
{
    match words {
        [word] if *word == b"journal".as_slice() => Some(Ok(ScriptLine::Journal)),
        [_word] => None,
        [word, value] => own_pair(word, value),
        _ => None,
    }
}

fn read_words(alloc: Global, words: &[&[u8]]) -> Result<ScriptLine, LineFault>
    ensures given { Gives result (words_line (map (λ w. w.now) words.now)) }
    ensures memory { result ≡ Err LineFault.OutOfMemory → IsLoad Role.All (map (λ w. w.now) words.now) }
{
    match own_words(words) {
        Some(own) => own,
        None => read_asking(alloc, words),
    }
}

/// As `parse_script_line`, of a line of any length.
#[tactic(auto, using(crate::proofs::LongLines::too_many))]
fn read_short(alloc: Global, line: &[u8]) -> Result<ScriptLine, LineFault>
    ensures given { Gives result (words_line (words_of line.now)) }
    ensures memory { result ≡ Err LineFault.OutOfMemory → IsLoad Role.All (words_of line.now) }
{
    let Some(words) = split_at_most::<LINE_WORDS>(line, b' ') else {
        return Err(LineFault::BadLine);
    };
    read_words(alloc, words.as_slice())
}

/// Parses a line of a script, without its LF. Memory is taken for the bytes of a load alone.
pub fn parse_script_line(alloc: Global, line: &[u8]) -> Result<ScriptLine, LineFault>
    ensures given { Gives result (line_of line.now) }
    ensures memory { result ≡ Err LineFault.OutOfMemory → IsLoad Role.All (words_of line.now) }
{
    if line.len() > LINE_BYTES {
        return Err(LineFault::TooLong);
    }
    read_short(alloc, line)
}
