//! What `fc run` does.
ghost use Rattle.std.specs.Prelude.{◌≡◌, [], Some, false, map, IfErr, IfOk, string_bytes};
ghost use Rattle.explaining.specs.Named.{setting_of};
ghost use Rattle.file_jobs.specs.JobErrors.{Ends};
ghost use Rattle.bpf_model.specs.Layouts.{layout_of};
ghost use Rattle.file_jobs.specs.RunOutput.{IsWrongWord, SaysOutcome};

use crate::JobError;
use crate::files::text_of;
use crate::job_error::print_text;
use crate::printing::refuse_file;
use crate::program_files::program_of;
use crate::statuses::USAGE;
use bpf_model::context::Layout;
use explaining::names::Setting;
use explaining::request::{Request, request_of};
use explaining::single::{run_once, single_json, single_text};
use explaining::words::{WordFault, WordFlaw, WordsFault, flaw_of, settings_of};
use std::alloc::{AllocError, Global};
use verifier::Program;

/// How a rule is run by itself, and what is printed. Bit c of `counters` declares counter c.
#[derive(Clone, Copy)]
pub struct RunOptions {
    pub counters: u32,
    pub context: Layout,
    pub is_traced: bool,
    pub is_json: bool,
}

/// Runs the rule in the file that `rule` names, on the request that the words describe, and prints its answer.
pub fn run_rule(
    rt: &HostRuntime,
    rule: &str,
    options: RunOptions,
    words: &[String],
) -> Result<(), JobError> {
    let settings = settings_in(rt.alloc(), options.context, words)?;
    let file = text_of(rt, rule)?;
    match program_of(rt.alloc(), &file, options.counters, options.context) {
        Ok(program) => {
            let request = request_of(options.context, settings.as_slice());
            print_text(rt, &run_text(rt.alloc(), &program, &request, options)?)
        }
        Err(flaw) => Err(refuse_file(rt.alloc(), rule, &flaw)),
    }
}

fn run_text(
    alloc: Global,
    program: &Program,
    request: &Request,
    options: RunOptions,
) -> Result<String, AllocError>
    requires { layout_of request.now.context ≡ program.now.layout }
    ensures { options.is_json ≡ false → IfOk result
        (λ text. SaysOutcome program.now request.now (string_bytes text)) }
{
    let trace = run_once(alloc, program, request)?;
    if options.is_json {
        return single_json(alloc, program, request, &trace, options.is_traced);
    }
    single_text(alloc, program, request, &trace, options.is_traced)
}

fn settings_in(alloc: Global, layout: Layout, words: &[String]) -> Result<Vec<Setting>, JobError>
    ensures settings { IfOk result
        (λ settings. map (λ s. Some s) settings.items ≡ map setting_of (map string_bytes words.now)) }
    ensures refused { IfErr result IsWrongWord }
{
    match settings_of(alloc, layout, words) {
        Ok(settings) => Ok(settings),
        Err(WordsFault::Word(number, fault)) => match words.get(number) {
            Some(word) => Err(refused_word(alloc, word, fault)),
            None => Err(JobError::OutOfMemory),
        },
        Err(WordsFault::OutOfMemory) => Err(JobError::OutOfMemory),
    }
}

fn refused_word(alloc: Global, word: &str, fault: WordFault) -> JobError
    ensures { Ends 2 [] result }
{
    match fault {
        WordFault::NoSetting => flawed_word(alloc, word, flaw_of(word)),
        WordFault::Twice => {
            let words = format_args!("'{word}': this field is given twice");
            JobError::message(alloc, &words, USAGE)
        }
        WordFault::OfSecondLayout => {
            let words = format_args!("'{word}': the second layout has this field: --context 2");
            JobError::message(alloc, &words, USAGE)
        }
    }
}

fn flawed_word(alloc: Global, word: &str, flaw: WordFlaw) -> JobError
    ensures { Ends 2 [] result }
{
    match flaw {
        WordFlaw::NoEquals => {
            let words = format_args!("'{word}' isn't NAME=NUMBER");
            JobError::message(alloc, &words, USAGE)
        }
        WordFlaw::NoSuchField => {
            let words = format_args!("'{word}': a rule is given no such field");
            JobError::message(alloc, &words, USAGE)
        }
        WordFlaw::Kind => {
            let words = format_args!("'{word}': the kind is release, preset or price");
            JobError::message(alloc, &words, USAGE)
        }
        WordFlaw::Counter => {
            let words = format_args!(
                "'{word}': a counter takes VALUE or VALUE/BOUND, up to its bound"
            );
            JobError::message(alloc, &words, USAGE)
        }
        WordFlaw::Range(least, most) => {
            let words = format_args!("'{word}': this field takes {least} to {most}");
            JobError::message(alloc, &words, USAGE)
        }
    }
}
