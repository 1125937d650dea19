//! Reads bytes as a TOML document.
ghost use Rattle.std.specs.Prelude.{◌≡◌, ◌≢◌, ◌<◌, ◌==◌, ◌↔◌, Err, IfErr, IfOk, IfSome, IsNone, None, Some, option_map, slice_range, string_bytes};
ghost use Rattle.std.specs.List.{before_first};
ghost use Rattle.std.specs.Str.{IsCharBoundary};
ghost use Rattle.toml.specs.Errors.{IsBlank, IsMemory, IsWithin, span_end, span_start};
ghost use Rattle.toml.specs.View.{table_view};
ghost use Rattle.site_config.specs.Document.{document_of};
ghost use Rattle.site_config.specs.Flaws.{HasRightPosition, IsNotToml, IsOfText};
ghost use Rattle.site_config.specs.Words.{SaysFault, SaysTwice, behind_bracket, key_part};
ghost use Rattle.site_config.specs.Positions.{past, position_behind, position_at};

use crate::flaw::ConfigFlaw;
use std::alloc::{AllocError, Global};
use toml::Table;
use toml::de::Error;

/// The position after `byte`, which is at `at`: line and column from 1, columns by characters, a line up to its LF.
fn past(at: (usize, usize), byte: u8) -> (usize, usize)
    requires { (at.0 < usize.MAX) × (at.1 < usize.MAX) }
    ensures { result ≡ past at byte }
{
    match byte {
        b'\n' => (at.0 + 1, 1),
        // The byte continues a character.
        0x80..=0xbf => at,
        _ => (at.0, at.1 + 1),
    }
}

/// The position of a text's end.
fn position_behind(text: &[u8]) -> (usize, usize)
    ensures { result ≡ position_behind text.now }
{
    let mut at = (1, 1);
    for byte in text {
        at = past(at, *byte);
    }
    at
}

/// The position of the byte at `at`, or of the end if there is none.
fn position_at(bytes: &[u8], at: usize) -> (usize, usize)
    ensures { result ≡ position_at bytes.now at }
{
    position_behind(bytes.get(..at).unwrap_or(bytes))
}

/// Where an error of the TOML reader starts; `None` if memory ran out.
fn start_of(text: &str, error: &Error) -> Option<(usize, usize)>
    ensures none { IsNone result ↔ IsMemory error.now }
    ensures start { IfSome result (λ at. at ≡ position_at text.now (span_start error.now)) }
{
    match error.span() {
        Some(span) => Some(position_at(text.as_bytes(), span.start)),
        None => None,
    }
}

/// The text of an error's span.
fn piece_of<'a>(text: &'a str, error: &Error) -> Option<&'a str>
    ensures piece { IfSome result
        (λ piece. piece.now ≡ slice_range text.now (span_start error.now) (span_end error.now)) }
    ensures none { IsNone result → IsWithin text.now error.now → IsCharBoundary text.now (span_start error.now)
        → IsCharBoundary text.now (span_end error.now) → IsMemory error.now }
{
    text.get(error.span()?)
}

/// The text without a `[` at its front.
fn behind_bracket(text: &str) -> &str
    ensures { result.now ≡ behind_bracket text.now }
{
    match text.strip_prefix('[') {
        Some(rest) => rest,
        None => text,
    }
}

fn before_closing(text: &str) -> &str
    ensures { result.now ≡ before_first (λ byte. byte == 93) text.now }
{
    match text.split_once(']') {
        Some((front, _)) => front,
        None => text,
    }
}

fn before_equals(text: &str) -> &str
    ensures { result.now ≡ before_first (λ byte. byte == 61) text.now }
{
    match text.split_once('=') {
        Some((front, _)) => front,
        None => text,
    }
}

/// The key at the front of a pair or of a table's header, perhaps with blanks around it.
fn key_part(piece: &str) -> &str
    ensures { result.now ≡ key_part piece.now }
{
    before_equals(before_closing(behind_bracket(behind_bracket(piece))))
}

fn twice(alloc: Global, piece: &str) -> Result<String, AllocError>
    ensures { IfOk result (λ words. SaysTwice piece.now (string_bytes words)) }
{
    let key = key_part(piece).trim_ascii();
    format!(in alloc; "the key '{key}' stands twice")
}

/// What is said of an error of the TOML reader: its message, or which key stands twice. `piece` is the text of its span.
fn fault_words(alloc: Global, message: &str, piece: Option<&str>) -> Result<String, AllocError>
    ensures { IfOk result (λ words.
        SaysFault message.now (option_map (λ text. text.now) piece.entry) (string_bytes words)) }
{
    match piece {
        Some(piece) if message == "duplicate key" => twice(alloc, piece),
        Some(_) | None => String::from_str(alloc, message),
    }
}

/// `NotToml` with this position and what is said of the error, or `OutOfMemory`.
fn not_toml(alloc: Global, at: (usize, usize), message: &str, piece: Option<&str>) -> ConfigFlaw
    ensures { IsNotToml at (SaysFault message.now (option_map (λ text. text.now) piece.entry)) result }
{
    let (line, column) = at;
    match fault_words(alloc, message, piece) {
        Ok(message) => ConfigFlaw::NotToml {
            line,
            column,
            message,
        },
        Err(_) => ConfigFlaw::OutOfMemory,
    }
}

/// Reads bytes as a TOML document (K1).
#[tactic(auto, using(crate::proofs::Memory::not_blank), unfolding(crate::specs::Document::document_of))]
pub fn read_document(alloc: Global, bytes: &[u8]) -> Result<Table, ConfigFlaw>
    ensures read { IfOk result (λ table. document_of bytes.now ≡ Some (table_view table)) }
    ensures none { IfErr result (λ flaw. flaw ≢ ConfigFlaw.OutOfMemory → document_of bytes.now ≡ None) }
    ensures fault { IfErr result (λ flaw. flaw ≢ ConfigFlaw.OutOfMemory → IsOfText flaw) }
    ensures position { IfErr result (HasRightPosition bytes.now) }
    ensures memory { result ≡ Err ConfigFlaw.OutOfMemory → ¬ IsBlank bytes.now }
{
    match str::from_utf8(bytes) {
        Err(error) => {
            let (line, column) = position_at(bytes, error.valid_up_to());
            Err(ConfigFlaw::NotUtf8 { line, column })
        }
        Ok(text) => match toml::table_from_str(alloc, text) {
            Ok(table) => Ok(table),
            Err(error) => match start_of(text, &error) {
                Some(at) => Err(not_toml(alloc, at, error.message(), piece_of(text, &error))),
                None => Err(ConfigFlaw::OutOfMemory),
            },
        },
    }
}
