//! Tests of a folder of days, in memory: which day is the newest, and the audit of all days.
use crate::sites::station;
use file_jobs::chained::audit_in;
use file_jobs::newest::newest_day;
use file_jobs::{Folder, MemoryFile, MemoryFolder};
use std::test::Fail;

const JOURNAL: MemoryFile<'static> = MemoryFile {
    name: "000001.journal",
    bytes: b"1 1 0 till 1 open 1 = done\n",
};

/// The opening that the journal leaves, whose SHA-256 it has.
const OPENING: &str =
    "day 2\ncleared 0 0\nversions 0\nprice 1 1799\nprice 2 1849\npoint 1 3 0 0 0 0 0 none no 0\n\
        point 2 2 0 0 0 0 0 none no 0\n\
        journal 1 754cab53f8a13d2e7f419ee63e680f3a035568e64b291f14eb76cc6758727a2d\n";

/// A file that no day has.
const NOTES: MemoryFile<'static> = MemoryFile {
    name: "000009.txt",
    bytes: b"",
};

fn named(name: &'static str, text: &'static str) -> MemoryFile<'static> {
    MemoryFile {
        name,
        bytes: text.as_bytes(),
    }
}

fn folder<'a>(files: &'a [MemoryFile<'a>]) -> MemoryFolder<'a> {
    let folder = Folder { path: "days" };
    MemoryFolder { folder, files }
}

#[test]
fn days_are_audited(rt: HostRuntime) -> Result<(), Fail> {
    let files = [NOTES, named("000002.opening", OPENING), JOURNAL];
    let Ok(chained) = audit_in(&rt, folder(&files), station(rt.alloc())?) else {
        return Err(Fail::from("the days are refused"));
    };
    assert!(rt; chained.days == 2 && chained.entries == 1);
    Ok(())
}

#[test]
fn a_day_with_an_opening_is_the_newest(rt: HostRuntime) -> Result<(), Fail> {
    let files = [named("000002.opening", OPENING), JOURNAL];
    let given = station(rt.alloc())?;
    let Ok(day) = newest_day(&rt, &folder(&files), "site.toml", b"", given, false) else {
        return Err(Fail::from("the newest day is refused"));
    };
    assert!(rt; day.number == 2 && !day.is_kept);
    Ok(())
}

#[test]
fn a_refused_configuration_refuses_the_days(rt: HostRuntime) -> Result<(), Fail> {
    let config = named("000001.toml", "tills = 0\n");
    let files = [JOURNAL, config];
    assert!(rt; audit_in(&rt, folder(&files), station(rt.alloc())?).is_err());
    Ok(())
}

#[test]
fn a_missing_opening_refuses_the_days(rt: HostRuntime) -> Result<(), Fail> {
    let files = [JOURNAL, named("000002.journal", "")];
    assert!(rt; audit_in(&rt, folder(&files), station(rt.alloc())?).is_err());
    Ok(())
}
