//! Messages on standard error, each a line. Control characters in it, which can come from a file's name or content, are
//! escaped. A failed write to it is ignored.
ghost use Rattle.std.specs.Prelude.{◌≡◌, None, Some, codes};
ghost use Rattle.file_jobs.specs.StandardInput.{name_of};

use crate::files::name_of;
use pages::Printable;
use std::fmt::{self, Display};

/// A place that a message names: a file, and perhaps a line and a column of it, both counted from 1.
#[derive(Clone, Copy)]
pub struct Place<'a> {
    name: &'a str,
    line: Option<u64>,
    column: Option<u64>,
}

impl<'a> Place<'a> {
    /// Makes the place of the whole file that an argument names.
    pub fn of(word: &'a str) -> Place<'a>
        ensures name { result.name.now ≡ name_of word.now }
        ensures line { result.line ≡ None }
        ensures column { result.column ≡ None }
    {
        Place {
            name: name_of(word),
            line: None,
            column: None,
        }
    }

    pub(crate) fn output() -> Place<'static>
        ensures name { result.name.now ≡ codes "standard output" }
        ensures line { result.line ≡ None }
        ensures column { result.column ≡ None }
    {
        Place {
            name: "standard output",
            line: None,
            column: None,
        }
    }

    pub fn line(self, line: u64) -> Place<'a>
        ensures name { result.name.now ≡ self.entry.name.now }
        ensures line { result.line ≡ Some line }
        ensures column { result.column ≡ self.entry.column }
    {
        Place {
            line: Some(line),
            ..self
        }
    }

    pub(crate) fn column(self, column: u64) -> Place<'a>
        ensures name { result.name.now ≡ self.entry.name.now }
        ensures line { result.line ≡ self.entry.line }
        ensures column { result.column ≡ Some column }
    {
        Place {
            column: Some(column),
            ..self
        }
    }
}

impl Display for Place<'_> {
    ghost use Rattle.std.specs.Prelude.{Some};
    ghost use Rattle.file_jobs.specs.JobErrors.{place_text};

    ghost output = { λ place. Some (place_text place) };

    fn fmt<W: fmt::Write>(&self, f: &mut fmt::Formatter<W>) -> fmt::Result {
        let (line, column) = (AfterColon(self.line), AfterColon(self.column));
        write!(f, "{}{line}{column}", self.name)
    }
}

/// A number of a place, behind a colon, if it is given.
#[derive(Clone, Copy)]
struct AfterColon(Option<u64>);

impl Display for AfterColon {
    ghost use Rattle.std.specs.Prelude.{Some};
    ghost use Rattle.file_jobs.specs.JobErrors.{after_colon};

    ghost output = { λ number. Some (after_colon number.0) };

    fn fmt<W: fmt::Write>(&self, f: &mut fmt::Formatter<W>) -> fmt::Result {
        match self.0 {
            Some(number) => write!(f, ":{number}"),
            None => Ok(()),
        }
    }
}

pub fn print_message<D: Display>(rt: &HostRuntime, words: &D) {
    let words = Printable(words);
    let _ = eprintln!(rt; "fc: {words}");
}

pub fn print_message_at<D: Display>(rt: &HostRuntime, place: Place<'_>, words: &D) {
    print_message(rt, &format_args!("{place}: {words}"));
}
