//! Why days don't follow one another.
use crate::beginning::Unfit;
use crate::file::{OpeningFlaw, Uncarried};
use decision_journal::JournalFault;
use site_core::EntryFlaw;

/// Why a day leaves no opening.
#[derive(Clone, Copy)]
pub enum NoNextOpening {
    /// The day has no journal.
    NoJournal,
    /// The day's site leaves none, or memory ran out.
    Uncarried(Uncarried),
}

/// Why a day doesn't begin with the opening that the day before left, whose text each case has.
#[derive(Drop)]
pub enum Unfollowed {
    /// The day has no opening.
    NoOpening(String),
    /// The day has another opening, of these bytes.
    OtherOpening(Vec<u8>, String),
}

/// Why no site of its configuration begins a day.
#[derive(Drop)]
pub enum Unbegun {
    /// It has no opening, and isn't day 1.
    NoOpening,
    /// It is day 1 and has an opening, given for it or in its configuration.
    HasOpening,
    /// The opening couldn't be read, or memory ran out.
    Flawed(OpeningFlaw),
    /// The opening is for the day of this number.
    OtherDay(u32),
    /// No site of the configuration begins with the opening, or memory ran out.
    Unfit(Unfit),
}

/// Why a day can't be closed.
#[derive(Drop)]
pub enum Unclosed<J> {
    /// No journal could be read from this device.
    Text(J, JournalFault),
    /// What is wrong with the first entry that the day's site can't have.
    History(EntryFlaw),
    /// Memory ran out for a day without a journal.
    OutOfMemory,
}

/// Why days don't follow one another; or a day couldn't be read (`Unread`), its end couldn't be told (`Untold`), the
/// device of a journal failed (`Unclosed`), or memory ran out (`NoNextOpening`, `Unbegun` or `Unclosed`).
#[derive(Drop)]
pub enum Cause<J> {
    NoDays,
    Unread,
    Untold,
    NoNextOpening(NoNextOpening),
    Unfollowed(Unfollowed),
    Unbegun(Unbegun),
    Unclosed(Unclosed<J>),
}

/// Why an audit of days failed: at which day, and the cause. Where there are no days, it is the number that the first
/// would have; for an unread day after day 4,294,967,295, it is this number.
#[derive(Drop)]
pub struct DaysFault<J> {
    pub day: u32,
    pub cause: Cause<J>,
}
