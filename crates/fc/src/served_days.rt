//! Serves the days of a folder, one after another, behind the same doors.
use crate::day_end::{end_of, second};
use crate::day_times::DayTimes;
use crate::kept::{AnswerAfter, KeptBy, new_stop, open_synced, print_error, serve_on};
use crate::serve::{OpenDoors, ServedBy, open_page, open_site_doors, print_end};
use days::Closed;
use file_jobs::files::{is_input, text_of};
use file_jobs::job_error::at_file;
use file_jobs::messages::print_message;
use file_jobs::newest::{check_newest, day_after_ended, newest_day};
use file_jobs::settings::{served, settings_in};
use file_jobs::{
    DayFile, DayFiles, DayToServe, EndedDay, FAILED, Folder, FoundFile, HashedSite, JobError,
    OpenJournal, Part, Place,
};
use page_port::PageListener;
use site_config::{Serve, Settings};
use site_server::{Crew, Stop};
use std::alloc::AllocError;
use std::fs::{self, File, Files};
use std::io;
use std::net::{Net, TcpListener, TcpStream};
use std::sync::{Arc, Wait};
use std::thread::Threads;
use std::time::Clock;
use till_request::Role;

/// How many seconds after a day couldn't be ended that is tried again.
const RETRY_SECONDS: u64 = 60;

fn check_regular(rt: &HostRuntime, path: &str) -> io::Result<()> {
    if fs::metadata(rt, path)?.is_file() {
        Ok(())
    } else {
        Err(io::Error::other("not a regular file"))
    }
}

/// The days of a station.
#[derive(Clone, Copy)]
struct Days<'a> {
    rt: &'a HostRuntime,
    folder: Folder<'a>,
    config_name: &'a str,
    after: AnswerAfter,
}

/// What the configuration says that can change from day to day: its text, and when days end.
#[derive(Drop)]
struct Given {
    text: Vec<u8>,
    times: DayTimes,
}

/// By what one day after another is served.
#[derive(Clone, Copy)]
struct ServedAt<'a> {
    serve: &'a Serve,
    page: &'a Option<PageListener>,
    stop: &'a Stop,
}

/// A day that is to be served.
#[derive(Drop)]
struct BegunDay {
    number: u32,
    path: String,
    audited: HashedSite,
    file: File,
    found: FoundFile,
    /// False if the day was to begin with the given configuration, and couldn't.
    is_given: bool,
    /// The moment at which the end of the day before is tried again, if it failed.
    retry: Option<u64>,
    /// The day before, if it has just ended.
    before: Option<Closed>,
}

/// A day that was served to its end. Its journal's file is locked.
#[derive(Drop)]
struct ServedDay {
    number: u32,
    path: String,
    closed: Closed,
    file: File,
}

impl Days<'_> {
    /// Opens the newest day, or, if `is_new_day` and it has an entry, closes it and opens the next one. `text` is the
    /// text of the given configuration.
    fn begin(&self, text: &[u8], is_new_day: bool) -> Result<BegunDay, JobError> {
        let Settings { config, .. } = settings_in(self.rt, self.config_name, text)?;
        let newest = newest_day(
            self.rt,
            &self.folder,
            self.config_name,
            text,
            config,
            is_new_day,
        )?;
        self.open(&newest, text, None)
    }

    /// Closes the day that was served, and opens the next one; or that day again, if it has no entry.
    fn begin_after(&self, text: &[u8], served: ServedDay) -> Result<BegunDay, JobError> {
        let Settings { config, .. } = settings_in(self.rt, self.config_name, text)?;
        let ServedDay {
            number,
            path,
            closed,
            file,
        } = served;
        let ended = EndedDay {
            number,
            path: &path,
            file: &file,
            closed: &closed,
        };
        let newest = day_after_ended(
            self.rt,
            &self.folder,
            self.config_name,
            text,
            config,
            &ended,
        )?;
        drop(file);
        self.open(&newest, text, Some(closed))
    }

    /// Opens the journal of `newest`, before which `before` has just ended.
    fn open(
        &self,
        newest: &DayToServe,
        text: &[u8],
        before: Option<Closed>,
    ) -> Result<BegunDay, JobError> {
        let path = self.folder.file(self.rt, newest.number, Part::Journal)?;
        let OpenJournal {
            audited,
            file,
            found,
            ..
        } = open_synced(self.rt, &newest.config, &path, self.after)?;
        keep_config(self.rt, self.folder, newest, text)?;
        Ok(BegunDay {
            number: newest.number,
            path,
            audited,
            file,
            found,
            is_given: newest.own.is_none(),
            retry: None,
            before,
        })
    }

    /// Returns an error if the folder has got a later day while this one was served.
    fn check_newest(&self, served: u32) -> Result<(), JobError> {
        match self.folder.span(self.rt)? {
            Some(span) if span.newest == served => Ok(()),
            _ => {
                let words = format_args!("day {served} isn't the folder's newest any more");
                let place = Place::of(self.folder.path);
                Err(JobError::at(self.rt.alloc(), place, &words, FAILED))
            }
        }
    }

    /// Closes the day that was served, and opens the next one. If that can't be done, prints why, and opens the day
    /// again. The error is that neither can be done, or that somebody else began a day meanwhile.
    fn begin_next<H: Clock>(
        &self,
        host: &H,
        text: &[u8],
        served: ServedDay,
    ) -> Result<BegunDay, JobError> {
        self.check_newest(served.number)?;
        let failure = match self.begin_after(text, served) {
            Ok(day) => return Ok(day),
            Err(job_error) => job_error,
        };
        print_error(self.rt, &failure);
        let mut day = self.begin(text, false)?;
        day.retry = Some(second(host).saturating_add(RETRY_SECONDS));
        Ok(day)
    }

    /// Reads the configuration again. The error is also that a start would refuse it.
    fn given_again(&self) -> Result<Given, JobError> {
        let (alloc, name) = (self.rt.alloc(), self.config_name);
        // A pipe would keep everybody waiting.
        at_file(alloc, name, check_regular(self.rt, name))?;
        let text = text_of(self.rt, name)?;
        let Settings { serve, .. } = settings_in(self.rt, name, &text)?;
        let serve = served(alloc, name, serve)?;
        let times = DayTimes::read(self.rt, name, &serve)?;
        Ok(Given { text, times })
    }

    /// Reads the configuration again, unless it came from standard input. If it can't be served, prints why, and returns
    /// false.
    fn reread(&self, given: &mut Given) -> bool {
        if is_input(self.config_name) {
            return true;
        }
        match self.given_again() {
            Ok(new) => {
                *given = new;
                true
            }
            Err(job_error) => {
                print_error(self.rt, &job_error);
                false
            }
        }
    }

    /// Serves a day until it ends, or until the connections of its crew are used up. Returns its close.
    fn serve<
        H: Files + Net<Listener = TcpListener, Stream = TcpStream> + Threads + Wait + Clock + Sync,
    >(
        &self,
        host: &H,
        at: ServedAt<'_>,
        times: &DayTimes,
        crew: Crew,
        day: BegunDay,
        is_first: bool,
    ) -> Result<ServedDay, JobError> {
        let BegunDay {
            number,
            path,
            audited,
            file,
            found,
            is_given,
            retry,
            before,
        } = day;
        let ServedAt { serve, page, stop } = at;
        let goes_on = serve.connections.is_none();
        let ends = match retry {
            Some(retry) => Some(retry),
            None if goes_on => end_of(audited.watched.site(), times, second(host)),
            None => None,
        };
        let kept_by = KeptBy {
            by: ServedBy {
                config_name: self.config_name,
                serve,
                day: number,
                is_first,
                is_given,
            },
            stop,
            after: self.after,
            page,
            is_day: goes_on,
            ends,
        };
        let kept = OpenJournal {
            audited,
            path: &path,
            file,
            found,
        };
        let (closed, file) = serve_on(self.rt, host, kept_by, crew, kept, before)?;
        Ok(ServedDay {
            number,
            path,
            closed,
            file,
        })
    }

    /// Serves a day, and when it ends the next one, until all connections are used up.
    fn serve_each<
        H: Files + Net<Listener = TcpListener, Stream = TcpStream> + Threads + Wait + Clock + Sync,
    >(
        &self,
        host: &H,
        at: ServedAt<'_>,
        crew: Crew,
        first: BegunDay,
        mut given: Given,
    ) -> Result<(), JobError> {
        let mut next = Some(first);
        let mut crews = Some(crew);
        let mut is_first = true;
        for _ in host.forever() {
            let (Some(day), Some(crew)) = (next.take(), crew_of_day(self.rt, &mut crews, at.serve)?)
            else {
                break;
            };
            let number = day.number;
            let served = self.serve(host, at, &given.times, crew, day, is_first)?;
            is_first = false;
            if at.stop.is_asked() {
                at.stop.withdraw();
                let is_read = self.reread(&mut given);
                let mut day = self.begin_next(host, &given.text, served)?;
                day.is_given &= is_read;
                if day.number != number {
                    print_message(self.rt, &format_args!("day {} is served", day.number));
                }
                next = Some(day);
            }
        }
        Ok(())
    }
}

/// Lets the owner end a day, where days follow one another.
fn let_owner_end_days(serve: &mut Serve) {
    if serve.connections.is_some() {
        return;
    }
    for door in serve.doors.iter_mut() {
        if let Role::Owner = door.role {
            door.role = Role::DaysOwner;
        }
    }
}

/// Serves the days of a folder: the newest, and when it ends the next one, until all connections are used up.
/// `config_name` names the configuration's file.
///
/// - If the folder has no day, serves day 1.
/// - If `is_new_day` is true and the newest day has an entry, closes that day, and serves the next one.
/// - Otherwise serves the newest day, from the end of its journal.
///
/// If its workers serve connections without end, a day ends at the time that the configuration names, when it is full, or
/// by the owner's line.
/// The doors and their connections stay open.
///
/// `host` must be the same runtime as `rt`, with a type that can start threads and open sockets. Only `main` can borrow
/// the runtime with this type.
pub fn serve_days<
    'a,
    H: Files + Net<Listener = TcpListener, Stream = TcpStream> + Threads + Wait + Clock + Sync,
>(
    rt: &'a HostRuntime,
    host: &H,
    folder: Folder<'a>,
    config_name: &'a str,
    is_new_day: bool,
    after: AnswerAfter,
) -> Result<(), JobError> {
    let days = Days {
        rt,
        folder,
        config_name,
        after,
    };
    let text = text_of(rt, config_name)?;
    let Settings { serve, .. } = settings_in(rt, config_name, &text)?;
    // This is checked first, so that no day is closed if the configuration can't be served.
    let mut serve = served(rt.alloc(), config_name, serve)?;
    let_owner_end_days(&mut serve);
    let times = DayTimes::read(rt, config_name, &serve)?;
    let day = days.begin(&text, is_new_day)?;
    let stop = new_stop(rt)?;
    let OpenDoors { crew, files } = open_site_doors(
        rt,
        host,
        config_name,
        &serve,
        Some(Arc::try_clone(&stop)?),
    )?;
    let page = open_page(rt, host, &serve)?;
    let at = ServedAt {
        serve: &serve,
        page: &page,
        stop: &stop,
    };
    days.serve_each(host, at, crew, day, Given { text, times })?;
    drop(page);
    print_end(rt, files);
    Ok(())
}

/// The crew for a day. A site whose workers serve a number of connections has one day, and its doors are closed as they
/// end; else the doors stay open for the next day.
fn crew_of_day(
    rt: &HostRuntime,
    crews: &mut Option<Crew>,
    serve: &Serve,
) -> Result<Option<Crew>, AllocError> {
    if serve.connections.is_some() {
        return Ok(crews.take());
    }
    match crews {
        Some(crew) => Ok(Some(crew.try_clone(rt.alloc())?)),
        None => Ok(None),
    }
}

/// Checks that the day after `newest` hasn't begun, and then writes the text of the day's configuration, which is `text`
/// or the folder's own, into `folder`, unless the folder has it already. The error is that the next day has begun, that
/// this can't be found out, or that the text can't be written.
///
/// This must be called only after the audit has accepted the day's journal with this configuration: the day keeps the
/// configuration to its end.
fn keep_config(
    rt: &HostRuntime,
    folder: Folder<'_>,
    newest: &DayToServe,
    text: &[u8],
) -> Result<(), JobError> {
    check_newest(rt, folder, newest.number)?;
    if newest.is_kept {
        return Ok(());
    }
    let file = DayFile {
        day: newest.number,
        part: Part::Config,
        bytes: match &newest.own {
            Some(own) => own,
            None => text,
        },
    };
    folder.put_if_other(rt, file)
}
