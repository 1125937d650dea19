//! The parsing of a command line. A function that gives no job for arguments that `clap` takes gives `None`: they are
//! wrong, contradictory or incomplete.
ghost use Rattle.std.specs.Prelude.{◌≡◌, IsTrue, IsSome, None, false, [], IfOk, IfErr, IsOk, IsOkAnd, OnOk};
ghost use Rattle.std.specs.Prelude.{map, codes, is_some, option_map, string_bytes, ◌↔◌};
ghost use Rattle.clap.specs.Words.{first_of, rows_of, found_of, subcommand_of, subcommand_rows_of, takes, fault_of};
ghost use Rattle.file_jobs.specs.JobRequest.{fc_app, requested, parsed_request, is_set, layout_in, layout_named, mask_in, IsHelpOrVersion, MayShow};
ghost use Rattle.file_jobs.specs.JobRequest.{RefusesBy, audit_by, days_in, entry_in, explain_by, format_in, kind_in, named, opening_in};
ghost use Rattle.file_jobs.specs.JobRequest.{check_by, rows_named, serve_by, serve_days_by, unasked_by, unasked_text, unasked_words};
ghost use Rattle.file_jobs.specs.JobRequest.{audit_message, explain_message, serve_message, verify_message};
ghost use Rattle.file_jobs.specs.JobRequest.{fields_in, what_if_message};
ghost use Rattle.file_jobs.specs.Refusing.{Asks, Finds, FindsFiles, IsJobOfLine, IsNoJobMessage, IsRefusalOf};

use crate::job::{CommandFault, Job, ServeJob};
use crate::mask::{decimal_named, mask_named};
use crate::subcommands::fc;
use crate::trial_words::{what_if_message, what_if_of};
use bpf_model::context::Layout;
use clap::ArgMatches;
use clap::error::ErrorKind;
use day_export::{Format, Rows};
use std::alloc::{AllocError, Global};

pub(crate) fn file_of(
    alloc: Global,
    matches: &ArgMatches,
    id: &str,
) -> Result<Option<String>, AllocError>
    ensures { IfOk result (λ s. first_of id.now (rows_of (found_of matches.now)) ≡ option_map string_bytes s) }
{
    match matches.get_str(id) {
        Some(text) => {
            let name = String::from_str(alloc, text)?;
            Ok(Some(name))
        }
        None => Ok(None),
    }
}

/// The mask is 0 if the option isn't given.
pub(crate) fn mask_of(matches: &ArgMatches) -> Option<u32>
    ensures { result ≡ mask_in (rows_of (found_of matches.now)) }
{
    match matches.get_str("counters") {
        Some(text) => mask_named(text),
        None => None,
    }
}

fn layout_named(text: &str) -> Option<Layout>
    ensures { result ≡ layout_named text.now }
{
    if text == "1" {
        Some(Layout::One)
    } else if text == "2" {
        Some(Layout::Two)
    } else {
        None
    }
}

/// The layout is `One` if the option isn't given.
pub(crate) fn layout_of(matches: &ArgMatches) -> Option<Layout>
    ensures { result ≡ layout_in (rows_of (found_of matches.now)) }
{
    match matches.get_str("context") {
        Some(text) => layout_named(text),
        None => None,
    }
}

fn asm_of(alloc: Global, matches: &ArgMatches) -> Result<Option<Job>, AllocError>
    ensures { IfOk result (Finds (codes "asm") (rows_of (found_of matches.now))) }
{
    match file_of(alloc, matches, "file")? {
        Some(file) => Ok(Some(Job::Asm(file))),
        None => Ok(None),
    }
}

/// Returns whether the option `id`, which takes no value, is given.
pub(crate) fn is_set(matches: &ArgMatches, id: &str) -> bool
    ensures { result ≡ is_set id.now (rows_of (found_of matches.now)) }
{
    match matches.get_str(id) {
        Some(text) => text == "true",
        None => false,
    }
}

fn dis_of(alloc: Global, matches: &ArgMatches) -> Result<Option<Job>, AllocError>
    ensures { IfOk result (Finds (codes "dis") (rows_of (found_of matches.now))) }
{
    let Some(file) = file_of(alloc, matches, "file")? else {
        return Ok(None);
    };
    if is_set(matches, "units") {
        Ok(Some(Job::DisUnits(file)))
    } else {
        Ok(Some(Job::Dis(file)))
    }
}

fn verify_of(alloc: Global, matches: &ArgMatches) -> Result<Option<Job>, AllocError>
    ensures job { IfOk result (Finds (codes "verify") (rows_of (found_of matches.now))) }
    ensures mask { mask_in (rows_of (found_of matches.now)) ≡ None → IsOk result }
    ensures layout { layout_in (rows_of (found_of matches.now)) ≡ None → IsOk result }
{
    let Some(counters) = mask_of(matches) else {
        return Ok(None);
    };
    let Some(context) = layout_of(matches) else {
        return Ok(None);
    };
    match file_of(alloc, matches, "file")? {
        Some(file) => Ok(Some(Job::Verify {
            counters,
            context,
            file,
        })),
        None => Ok(None),
    }
}

fn files_of(
    alloc: Global,
    matches: &ArgMatches,
    first: &str,
    second: &str,
) -> Result<Option<(String, String)>, AllocError>
    ensures { IfOk result (FindsFiles first.now second.now (rows_of (found_of matches.now))) }
{
    let Some(one) = file_of(alloc, matches, first)? else {
        return Ok(None);
    };
    match file_of(alloc, matches, second)? {
        Some(other) => Ok(Some((one, other))),
        None => Ok(None),
    }
}

pub(crate) fn opening_of(alloc: Global, matches: &ArgMatches) -> Result<Option<String>, AllocError>
    ensures { IfOk result (λ file. opening_in (rows_of (found_of matches.now)) ≡ named file) }
{
    file_of(alloc, matches, "opening")
}

pub(crate) fn days_of(alloc: Global, matches: &ArgMatches) -> Result<Option<String>, AllocError>
    ensures { IfOk result (λ folder. days_in (rows_of (found_of matches.now)) ≡ named folder) }
{
    file_of(alloc, matches, "days")
}

/// Returns what the argument JOURNAL gives, or the option `--journal`, which has its name.
fn journal_of(alloc: Global, matches: &ArgMatches) -> Result<Option<String>, AllocError>
    ensures { IfOk result (λ file. first_of (codes "journal") (rows_of (found_of matches.now)) ≡ named file) }
{
    file_of(alloc, matches, "journal")
}

fn play_of(alloc: Global, matches: &ArgMatches) -> Result<Option<Job>, AllocError>
    ensures { IfOk result (Finds (codes "play") (rows_of (found_of matches.now))) }
{
    let opening = opening_of(alloc, matches)?;
    match files_of(alloc, matches, "config", "script")? {
        Some((config, script)) => Ok(Some(Job::Play {
            opening,
            config,
            script,
        })),
        None => Ok(None),
    }
}

fn audit_of(alloc: Global, matches: &ArgMatches) -> Result<Option<Job>, AllocError>
    ensures { IfOk result (Finds (codes "audit") (rows_of (found_of matches.now))) }
{
    let Some(config) = file_of(alloc, matches, "config")? else {
        return Ok(None);
    };
    let opening = opening_of(alloc, matches)?;
    let journal = journal_of(alloc, matches)?;
    let days = days_of(alloc, matches)?;
    Ok(audit_by(days, opening, journal, config))
}

fn audit_by(
    days: Option<String>,
    opening: Option<String>,
    journal: Option<String>,
    config: String,
) -> Option<Job>
    ensures { Asks (audit_by (named days) (named opening) (named journal) (string_bytes config)) result }
{
    match (days, journal) {
        (None, None) => None,
        (None, Some(journal)) => Some(Job::Audit {
            opening,
            config,
            journal,
        }),
        (Some(_folder), Some(_journal)) => None,
        (Some(folder), None) => match opening {
            None => Some(Job::AuditDays { folder, config }),
            Some(_opening) => None,
        },
    }
}

fn carry_of(alloc: Global, matches: &ArgMatches) -> Result<Option<Job>, AllocError>
    ensures { IfOk result (Finds (codes "carry") (rows_of (found_of matches.now))) }
{
    let opening = opening_of(alloc, matches)?;
    match files_of(alloc, matches, "config", "journal")? {
        Some((config, journal)) => Ok(Some(Job::Carry {
            opening,
            config,
            journal,
        })),
        None => Ok(None),
    }
}

fn report_of(alloc: Global, matches: &ArgMatches) -> Result<Option<Job>, AllocError>
    ensures { IfOk result (Finds (codes "report") (rows_of (found_of matches.now))) }
{
    let opening = opening_of(alloc, matches)?;
    match files_of(alloc, matches, "config", "journal")? {
        Some((config, journal)) => Ok(Some(Job::Report {
            opening,
            config,
            journal,
        })),
        None => Ok(None),
    }
}

fn rows_named(text: &str) -> Option<Rows>
    ensures { result ≡ rows_named text.now }
{
    if text == "sales" {
        Some(Rows::Sales)
    } else if text == "decisions" {
        Some(Rows::Decisions)
    } else if text == "events" {
        Some(Rows::Events)
    } else {
        None
    }
}

fn rows_of_kind(matches: &ArgMatches) -> Option<Rows>
    ensures { result ≡ kind_in (rows_of (found_of matches.now)) }
{
    match matches.get_str("kind") {
        Some(text) => rows_named(text),
        None => None,
    }
}

fn row_format(matches: &ArgMatches) -> Format
    ensures { result ≡ format_in (rows_of (found_of matches.now)) }
{
    if is_set(matches, "json") {
        Format::Json
    } else {
        Format::Csv
    }
}

fn export_of(alloc: Global, matches: &ArgMatches) -> Result<Option<Job>, AllocError>
    ensures job { IfOk result (Finds (codes "export") (rows_of (found_of matches.now))) }
    ensures kind { kind_in (rows_of (found_of matches.now)) ≡ None → IsOk result }
{
    let Some(rows) = rows_of_kind(matches) else {
        return Ok(None);
    };
    let format = row_format(matches);
    let opening = opening_of(alloc, matches)?;
    match files_of(alloc, matches, "config", "journal")? {
        Some((config, journal)) => Ok(Some(Job::Export {
            rows,
            format,
            opening,
            config,
            journal,
        })),
        None => Ok(None),
    }
}

/// The number of the entry that is to be explained.
fn number_of(matches: &ArgMatches) -> Option<u32>
    ensures { result ≡ entry_in (rows_of (found_of matches.now)) }
{
    match matches.get_str("entry") {
        Some(text) => decimal_named(text),
        None => None,
    }
}

fn explain_of(alloc: Global, matches: &ArgMatches) -> Result<Option<Job>, AllocError>
    ensures job { IfOk result (Finds (codes "explain") (rows_of (found_of matches.now))) }
    ensures number { entry_in (rows_of (found_of matches.now)) ≡ None → IsOk result }
{
    let Some(number) = number_of(matches) else {
        return Ok(None);
    };
    let Some(config) = file_of(alloc, matches, "config")? else {
        return Ok(None);
    };
    let Some(journal) = file_of(alloc, matches, "journal")? else {
        return Ok(None);
    };
    let opening = opening_of(alloc, matches)?;
    let days = days_of(alloc, matches)?;
    let is_json = is_set(matches, "json");
    Ok(explain_by(is_json, days, opening, config, journal, number))
}

/// With a folder, `journal` is the number of one of its days.
fn explain_by(
    is_json: bool,
    days: Option<String>,
    opening: Option<String>,
    config: String,
    journal: String,
    number: u32,
) -> Option<Job>
    ensures { Asks
        (explain_by is_json (named days) (named opening) (string_bytes config) (string_bytes journal) number)
        result }
{
    match (days, opening) {
        (None, opening) => Some(Job::Explain {
            opening,
            config,
            journal,
            number,
            is_json,
        }),
        (Some(folder), None) => match decimal_named(&journal) {
            Some(day) => Some(Job::ExplainDay {
                folder,
                config,
                day,
                number,
                is_json,
            }),
            None => None,
        },
        (Some(_folder), Some(_opening)) => None,
    }
}

fn copies_of(alloc: Global, texts: &[&str]) -> Result<Vec<String>, AllocError>
    ensures { IfOk result (λ copies. map string_bytes copies.items ≡ map (λ t. t.now) texts.now) }
{
    let mut copies = Vec::new(alloc);
    let mut rest = texts;
    while let [text, after @ ..] = rest {
        copies.push(String::from_str(alloc, *text)?)?;
        rest = after;
    }
    Ok(copies)
}

/// The words `NAME=NUMBER` of `run`.
fn fields_of(alloc: Global, matches: &ArgMatches) -> Result<Vec<String>, AllocError>
    ensures { IfOk result (λ fields. map string_bytes fields.items ≡ fields_in (rows_of (found_of matches.now))) }
{
    match matches.get_strs("fields") {
        Some(texts) => copies_of(alloc, texts),
        None => Ok(Vec::new(alloc)),
    }
}

fn run_of(alloc: Global, matches: &ArgMatches) -> Result<Option<Job>, AllocError>
    ensures job { IfOk result (Finds (codes "run") (rows_of (found_of matches.now))) }
    ensures mask { mask_in (rows_of (found_of matches.now)) ≡ None → IsOk result }
    ensures layout { layout_in (rows_of (found_of matches.now)) ≡ None → IsOk result }
{
    let Some(counters) = mask_of(matches) else {
        return Ok(None);
    };
    let Some(context) = layout_of(matches) else {
        return Ok(None);
    };
    let Some(rule) = file_of(alloc, matches, "rule")? else {
        return Ok(None);
    };
    let fields = fields_of(alloc, matches)?;
    Ok(Some(Job::Run {
        rule,
        counters,
        context,
        is_traced: is_set(matches, "trace"),
        is_json: is_set(matches, "json"),
        fields,
    }))
}

fn follow_of(alloc: Global, matches: &ArgMatches) -> Result<Option<Job>, AllocError>
    ensures { IfOk result (Finds (codes "follow") (rows_of (found_of matches.now))) }
{
    match files_of(alloc, matches, "folder", "config")? {
        Some((folder, config)) => Ok(Some(Job::Follow { folder, config })),
        None => Ok(None),
    }
}

fn serve_by(
    opening: Option<String>,
    is_synced: bool,
    journal: Option<String>,
    config: String,
) -> Option<Job>
    ensures { Asks (serve_by (named opening) is_synced (named journal) (string_bytes config)) result }
{
    match (is_synced, journal) {
        (false, None) => Some(Job::Serve(ServeJob::Printed { opening, config })),
        (false, Some(journal)) => Some(Job::Serve(ServeJob::Kept {
            opening,
            config,
            journal,
        })),
        (true, None) => None,
        (true, Some(journal)) => Some(Job::Serve(ServeJob::Synced {
            opening,
            config,
            journal,
        })),
    }
}

fn serve_days_by(
    opening: Option<String>,
    journal: Option<String>,
    is_synced: bool,
    is_new_day: bool,
    folder: String,
    config: String,
) -> Option<Job>
    ensures { Asks
        (serve_days_by (named opening) (named journal) is_synced is_new_day (string_bytes folder) (string_bytes config))
        result }
{
    match opening {
        None => match journal {
            None => Some(Job::Serve(ServeJob::Days {
                folder,
                config,
                is_synced,
                is_new_day,
            })),
            Some(_journal) => None,
        },
        Some(_opening) => None,
    }
}

fn check_by(
    opening: Option<String>,
    journal: Option<String>,
    is_synced: bool,
    is_new_day: bool,
    folder: String,
    config: String,
) -> Option<Job>
    ensures { Asks
        (check_by (named opening) (named journal) is_synced is_new_day (string_bytes folder) (string_bytes config))
        result }
{
    match opening {
        None => match journal {
            None => match (is_synced, is_new_day) {
                (false, false) => Some(Job::Serve(ServeJob::Check { folder, config })),
                (false, true) | (true, false) | (true, true) => None,
            },
            Some(_journal) => None,
        },
        Some(_opening) => None,
    }
}

fn serve_of(alloc: Global, matches: &ArgMatches) -> Result<Option<Job>, AllocError>
    ensures { IfOk result (Finds (codes "serve") (rows_of (found_of matches.now))) }
{
    let Some(config) = file_of(alloc, matches, "config")? else {
        return Ok(None);
    };
    let opening = opening_of(alloc, matches)?;
    let journal = journal_of(alloc, matches)?;
    let is_synced = is_set(matches, "sync");
    let is_new_day = is_set(matches, "new-day");
    let is_check = is_set(matches, "check");
    match days_of(alloc, matches)? {
        Some(folder) if is_check => {
            Ok(check_by(opening, journal, is_synced, is_new_day, folder, config))
        }
        Some(folder) => Ok(serve_days_by(opening, journal, is_synced, is_new_day, folder, config)),
        None if is_new_day => Ok(None),
        None if is_check => Ok(None),
        None => Ok(serve_by(opening, is_synced, journal, config)),
    }
}

fn named_job(alloc: Global, name: &str, matches: &ArgMatches) -> Result<Option<Job>, AllocError>
    ensures { IfOk result (Finds name.now (rows_of (found_of matches.now))) }
{
    match name {
        "asm" => asm_of(alloc, matches),
        "dis" => dis_of(alloc, matches),
        "verify" => verify_of(alloc, matches),
        "play" => play_of(alloc, matches),
        "audit" => audit_of(alloc, matches),
        "carry" => carry_of(alloc, matches),
        "report" => report_of(alloc, matches),
        "export" => export_of(alloc, matches),
        "explain" => explain_of(alloc, matches),
        "run" => run_of(alloc, matches),
        "whatif" => what_if_of(alloc, matches),
        "follow" => follow_of(alloc, matches),
        "serve" => serve_of(alloc, matches),
        _ => Ok(None),
    }
}

fn job_of(alloc: Global, matches: &ArgMatches) -> Result<Option<Job>, AllocError>
    ensures job { IfOk result (IsJobOfLine (subcommand_rows_of matches.now)) }
    ensures nothing { subcommand_rows_of matches.now ≡ None → IsOk result }
{
    match matches.subcommand() {
        None => Ok(Some(Job::NoWords)),
        Some((name, rest)) => named_job(alloc, name, rest),
    }
}

pub(crate) fn has_days(matches: &ArgMatches) -> bool
    ensures { result ≡ is_some (days_in (rows_of (found_of matches.now))) }
{
    match matches.get_str("days") {
        Some(_) => true,
        None => false,
    }
}

fn audit_message(matches: &ArgMatches) -> &'static str
    ensures { result.now ≡ audit_message (rows_of (found_of matches.now)) }
{
    if has_days(matches) {
        "error: --days takes neither --opening nor JOURNAL"
    } else {
        "error: audit wants JOURNAL, or --days FOLDER"
    }
}

fn serve_message(matches: &ArgMatches) -> &'static str
    ensures { result.now ≡ serve_message (rows_of (found_of matches.now)) }
{
    if has_days(matches) {
        if is_set(matches, "check") {
            "error: --check takes none of --opening, --journal, --sync and --new-day"
        } else {
            "error: --days takes neither --opening nor --journal"
        }
    } else if is_set(matches, "new-day") {
        "error: --new-day wants --days FOLDER"
    } else if is_set(matches, "check") {
        "error: --check wants --days FOLDER"
    } else {
        "error: --sync wants --journal FILE or --days FOLDER"
    }
}

fn verify_message(matches: &ArgMatches) -> &'static str
    ensures { result.now ≡ verify_message (rows_of (found_of matches.now)) }
{
    match mask_of(matches) {
        Some(_) => "error: --context takes 1 or 2",
        None => "error: --counters takes a number of 32 bits, as 6 or 0x6",
    }
}

fn explain_message(matches: &ArgMatches) -> &'static str
    ensures { result.now ≡ explain_message (rows_of (found_of matches.now)) }
{
    match number_of(matches) {
        Some(_) =>
            "error: --days takes DAY, the number of a day, in place of JOURNAL, and no --opening",
        None => "error: ENTRY is the number of an entry, such as 412",
    }
}

/// Returns the first line of the message for arguments of the subcommand `name` that give no job.
fn unasked_by(name: &str, matches: &ArgMatches) -> &'static str
    ensures { result.now ≡ unasked_by name.now (rows_of (found_of matches.now)) }
{
    match name {
        "serve" => serve_message(matches),
        "audit" => audit_message(matches),
        "export" => "error: export takes sales, decisions or events",
        "explain" => explain_message(matches),
        "whatif" => what_if_message(matches),
        _ => verify_message(matches),
    }
}

fn no_job_message(matches: &ArgMatches) -> &'static str
    ensures { result.now ≡ unasked_words (subcommand_rows_of matches.now) }
{
    match matches.subcommand() {
        Some((name, rest)) => unasked_by(name, rest),
        None => "error: --context takes 1 or 2",
    }
}

fn unasked_text(alloc: Global, matches: &ArgMatches) -> Result<String, AllocError>
    ensures { IfOk result (λ text. string_bytes text ≡ unasked_text (subcommand_rows_of matches.now)) }
{
    let words = no_job_message(matches);
    format!(in alloc; "{words}\n\nFor more information, try '--help'.\n")
}

fn found_job(alloc: Global, matches: &ArgMatches) -> Result<Job, CommandFault>
    ensures requested { IfOk result (λ job. parsed_request (subcommand_rows_of matches.now) ≡ requested job) }
    ensures some { IfOk result (λ job. IsSome (requested job)) }
    ensures none { IfErr result (IsNoJobMessage (subcommand_rows_of matches.now)) }
    ensures nothing { subcommand_rows_of matches.now ≡ None → IsOk result }
{
    match job_of(alloc, matches)? {
        Some(job) => Ok(job),
        None => Err(CommandFault::Usage(unasked_text(alloc, matches)?)),
    }
}

fn is_asked_text(kind: ErrorKind) -> bool
    ensures { IsTrue result ↔ IsHelpOrVersion kind }
{
    matches!(kind, ErrorKind::DisplayHelp | ErrorKind::DisplayVersion)
}

/// Returns what follows from an error of `clap` of this kind. `made` is its text, for which memory may have run out.
fn job_from_error(kind: ErrorKind, made: Result<String, AllocError>) -> Result<Job, CommandFault>
    ensures none { IfOk result (λ job. requested job ≡ None) }
    ensures shown { OnOk result (IsHelpOrVersion kind) }
    ensures text { IfOk result (λ job. IsOkAnd made (λ text. job ≡ Job.Show text)) }
    ensures refused { IfErr result (IsRefusalOf kind made) }
{
    let text = made?;
    let is_asked = is_asked_text(kind);
    if kind == ErrorKind::OutOfMemory {
        Err(CommandFault::OutOfMemory)
    } else if is_asked {
        Ok(Job::Show(text))
    } else {
        Err(CommandFault::Usage(text))
    }
}

/// Returns the job that a command line asks for, whose first word is the program's name.
pub fn command(alloc: Global, words: Vec<String>) -> Result<Job, CommandFault>
    // proved requested, faultless: A job comes of words without a fault
    // proved: 1 and 2 are the layouts
    // proved: Three words name the rows that are exported
    ensures requested { IfOk result
        (λ job. IsSome (requested job) → parsed_request (subcommand_of fc_app (map string_bytes words.items)) ≡
        requested job) }
    // proved shown, helps, refused: Else help or a usage
    ensures shown { IfOk result (λ job. requested job ≡ None → takes fc_app (map string_bytes words.items) ≡ false) }
    ensures faultless { IfOk result (λ job. IsSome (requested job)
        → fault_of fc_app (map string_bytes words.items) ≡ []) }
    ensures helps { IfOk result (λ job. requested job ≡ None → MayShow (fault_of fc_app (map string_bytes
        words.items))) }
    // proved: It says what is missing where nothing is asked
    ensures refused { IfErr result
        (RefusesBy (fault_of fc_app (map string_bytes words.items))
        (subcommand_of fc_app (map string_bytes words.items))) }
{
    let command = fc(alloc)?;
    match command.try_get_matches_from(words.as_slice()) {
        Ok(matches) => found_job(alloc, &matches),
        Err(error) => job_from_error(error.kind(), error.to_string(alloc)),
    }
}

/// Returns the text that `fc --help` prints.
pub fn help(alloc: Global) -> Result<String, AllocError> {
    let mut command = fc(alloc)?;
    command.render_help()
}
