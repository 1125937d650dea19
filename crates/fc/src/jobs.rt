//! Does the job that a command line asks for.
use crate::kept::{AnswerAfter, serve_kept};
use crate::printed::serve_printed;
use crate::served_days::serve_days;
use file_jobs::audits::audit_files;
use file_jobs::carry::carry_files;
use file_jobs::chained::audit_folder;
use file_jobs::command_line::help;
use file_jobs::explain::{explain_day, explain_files};
use file_jobs::export::export_files;
use file_jobs::follow::follow_folder;
use file_jobs::job_error::print_text;
use file_jobs::plays::{play_files, play_input};
use file_jobs::printing::print_file;
use file_jobs::report::report_files;
use file_jobs::run::run_rule;
use file_jobs::tomorrow::check_next_day;
use file_jobs::whatif::what_if_files;
use file_jobs::whatif_days::what_if_folder;
use file_jobs::{Folder, Job, JobError, PrintRequest, RunOptions, ServeJob, SiteFiles};
use std::fs::Files;
use std::io::IsTerminal;
use std::net::{Net, TcpListener, TcpStream};
use std::sync::Wait;
use std::thread::Threads;
use std::time::Clock;

/// `host` must be the same runtime as `rt`, with a type that can start threads and open sockets. Only `main` can borrow
/// the runtime with this type.
pub fn do_job<
    H: Files + Net<Listener = TcpListener, Stream = TcpStream> + Threads + Wait + Clock + Sync,
>(rt: &HostRuntime, host: &H, job: &Job) -> Result<(), JobError> {
    match job {
        Job::NoWords => without_words(rt),
        Job::Show(text) => print_text(rt, text),
        Job::Asm(file) => print_file(rt, file, PrintRequest::Asm),
        Job::Dis(file) => print_file(rt, file, PrintRequest::Dis),
        Job::DisUnits(file) => print_file(rt, file, PrintRequest::DisUnits),
        Job::Verify {
            counters,
            context,
            file,
        } => print_file(rt, file, PrintRequest::Verify(*counters, *context)),
        Job::Play {
            opening,
            config,
            script,
        } => play_files(rt, site_files(config, opening), script),
        Job::Audit {
            opening,
            config,
            journal,
        } => audit_files(rt, site_files(config, opening), journal),
        Job::AuditDays { folder, config } => audit_folder(rt, folder, config),
        Job::Carry {
            opening,
            config,
            journal,
        } => carry_files(rt, site_files(config, opening), journal),
        Job::Report {
            opening,
            config,
            journal,
        } => report_files(rt, site_files(config, opening), journal),
        Job::Export {
            rows,
            format,
            opening,
            config,
            journal,
        } => export_files(rt, *rows, *format, site_files(config, opening), journal),
        Job::Explain {
            opening,
            config,
            journal,
            number,
            is_json,
        } => explain_files(rt, site_files(config, opening), journal, *number, *is_json),
        Job::ExplainDay {
            folder,
            config,
            day,
            number,
            is_json,
        } => explain_day(rt, folder, config, *day, *number, *is_json),
        Job::Run {
            rule,
            counters,
            context,
            is_traced,
            is_json,
            fields,
        } => {
            let options = RunOptions {
                counters: *counters,
                context: *context,
                is_traced: *is_traced,
                is_json: *is_json,
            };
            run_rule(rt, rule, options, fields)
        }
        Job::WhatIf {
            opening,
            config,
            journal,
            what_if,
        } => what_if_files(rt, site_files(config, opening), journal, what_if),
        Job::WhatIfDays {
            folder,
            config,
            what_if,
        } => what_if_folder(rt, folder, config, what_if),
        Job::Follow { folder, config } => follow_folder(rt, host, folder, config),
        Job::Serve(job) => serve(rt, host, job),
    }
}

/// Plays standard input, or prints the help where that is a terminal.
fn without_words(rt: &HostRuntime) -> Result<(), JobError> {
    if rt.stdin().is_terminal() {
        return print_text(rt, &help(rt.alloc())?);
    }
    play_input(rt)
}

fn serve<
    H: Files + Net<Listener = TcpListener, Stream = TcpStream> + Threads + Wait + Clock + Sync,
>(rt: &HostRuntime, host: &H, job: &ServeJob) -> Result<(), JobError> {
    match job {
        ServeJob::Printed { opening, config } => {
            serve_printed(rt, host, site_files(config, opening))
        }
        ServeJob::Kept {
            opening,
            config,
            journal,
        } => serve_kept(
            rt,
            host,
            site_files(config, opening),
            journal,
            AnswerAfter::Write,
        ),
        ServeJob::Synced {
            opening,
            config,
            journal,
        } => serve_kept(
            rt,
            host,
            site_files(config, opening),
            journal,
            AnswerAfter::Sync,
        ),
        ServeJob::Days {
            folder,
            config,
            is_synced,
            is_new_day,
        } => {
            let folder = Folder::named(rt, folder)?;
            serve_days(rt, host, folder, config, *is_new_day, after(*is_synced))
        }
        ServeJob::Check { folder, config } => check_next_day(rt, folder, config),
    }
}

fn after(is_synced: bool) -> AnswerAfter {
    if is_synced {
        AnswerAfter::Sync
    } else {
        AnswerAfter::Write
    }
}

fn site_files<'a>(config: &'a String, opening: &'a Option<String>) -> SiteFiles<'a> {
    SiteFiles::new(config, opening.as_deref())
}
