//! What is wrong with an entry of a journal, in words.
ghost use Rattle.std.specs.Prelude.{◌≡◌, IfOk, Some};
ghost use Rattle.file_jobs.specs.JournalFlaws.{Explains};

use crate::reasons::{RefusedProgram, explain_refusal};
use site_core::{Difference, EntryFlaw};
use std::alloc::{AllocError, Global};
use std::fmt;

/// Why an entry of a journal is refused.
#[derive(Drop)]
pub enum JournalFlaw {
    /// F1: the number of an entry, and its place, which it isn't.
    Number(u32, u32),
    /// F2: the slot of a load whose program is refused.
    Program(u32, RefusedProgram),
    /// F3: the entry differs from the one that the site makes of the same event.
    Entry(Difference),
    /// F3: the site's history is full, so the site makes no entry.
    NoEntry,
}

impl fmt::Display for JournalFlaw {
    ghost use Rattle.file_jobs.specs.FlawTexts.{flaw_text};

    ghost output = { λ flaw. Some (flaw_text flaw) };

    fn fmt<W: fmt::Write>(&self, f: &mut fmt::Formatter<W>) -> fmt::Result {
        match self {
            JournalFlaw::Number(number, place) => {
                write!(f, "the entry's number is {number}, its place {place}")
            }
            JournalFlaw::Program(slot, refused) => write!(f, "slot {slot}: {refused}"),
            JournalFlaw::Entry(difference) => write!(f, "{difference}"),
            JournalFlaw::NoEntry => f.write_str("the site enters no such entry"),
        }
    }
}

/// Returns the place of an entry, counted from 1, and in words what is wrong with it.
pub fn explained(alloc: Global, flaw: EntryFlaw) -> Result<(u32, JournalFlaw), AllocError>
    // proved: What an audit found, in words | flaw_is_told_of_the_next_entry
    ensures explains { IfOk result (λ p. Explains flaw p.0 p.1) }
{
    match flaw {
        EntryFlaw::Number { place, number } => Ok((place, JournalFlaw::Number(number, place))),
        EntryFlaw::Program {
            place,
            slot,
            bytes,
            refusal,
        } => {
            let refused = explain_refusal(alloc, bytes.as_slice(), refusal)?;
            Ok((place, JournalFlaw::Program(slot, refused)))
        }
        EntryFlaw::Entry { place, difference } => Ok((place, JournalFlaw::Entry(difference))),
        EntryFlaw::Full { place } => Ok((place, JournalFlaw::NoEntry)),
    }
}
