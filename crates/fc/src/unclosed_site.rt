//! Why a served site couldn't be closed.
use file_jobs::{FAILED, JobError, Place};
use site_server::{CloseRefusal, ServeFault};
use std::alloc::Global;

fn refuse_close(alloc: Global, config_name: &str, why: CloseRefusal) -> JobError {
    let place = Place::of(config_name);
    match why {
        CloseRefusal::PassMissing => JobError::refused(alloc, place, &why, "C1"),
        CloseRefusal::NotInHistory(pass, number) => {
            let line = format_args!("C2 {pass} {number}");
            JobError::refused_as(alloc, place, &why, "C2", &line)
        }
        CloseRefusal::OtherConfig => JobError::refused(alloc, place, &why, "C3"),
    }
}

pub fn unclosed(alloc: Global, config_name: &str, why: ServeFault) -> JobError {
    match why {
        ServeFault::NotClosed(why) => refuse_close(alloc, config_name, why),
        ServeFault::OutOfMemory => JobError::OutOfMemory,
        ServeFault::TooFewThreads => {
            let words = "not served: the system gave too few threads for a worker of each role";
            JobError::at(alloc, Place::of(config_name), &words, FAILED)
        }
        // Never here: the journal `NoJournal` can't fail, and with another the caller handles this fault itself.
        ServeFault::Journal => JobError::silent(alloc, FAILED),
    }
}
