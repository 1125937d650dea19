//! The subcommands and arguments of `fc`, as they are described to the crate `clap`.
ghost use Rattle.std.specs.Prelude.{◌≡◌, false, IfOk, codes};
ghost use Rattle.clap.specs.Words.{app_of, new_app, rule_of, with_subcommand};
ghost use Rattle.clap.specs.declared.builder.command.Command.TheViews.{out-Command};
ghost use Rattle.file_jobs.specs.JobRequest.{context_rule, fields_rule, file_rule, flag_rule, kind_rule, mask_rule};
ghost use Rattle.file_jobs.specs.JobRequest.{option_rule, slot_rule, spare_rule};
ghost use Rattle.file_jobs.specs.JobRequest.{fc_app, top_app};
ghost use Rattle.file_jobs.specs.Described.{app_for, rule_for, with_words};

use clap::{Arg, ArgAction, Command};
use std::alloc::{AllocError, Global};

/// An argument of a subcommand.
#[derive(Clone, Copy)]
enum Argument {
    /// Its name, and its help text; so below.
    File(&'static str, &'static str),
    /// A file that can be left out.
    SpareFile(&'static str, &'static str),
    /// Which rows `export` prints.
    Kind,
    Mask,
    Context,
    /// An option `--NAME FILE`.
    FileOption(&'static str, &'static str),
    /// The help text of `--days FOLDER`.
    Days(&'static str),
    /// An option without a value.
    Flag(&'static str, &'static str),
    /// The words `NAME=NUMBER` of `run`, as many as are given.
    Fields,
    /// The option `--slot`, which `whatif` needs.
    Slot,
}

#[derive(Clone, Copy)]
struct SubcommandDescription {
    name: &'static str,
    about: &'static str,
    example: &'static str,
    arguments: &'static [Argument],
}

fn file_arg<'a>(alloc: Global, name: &'a str, help: &'a str) -> Arg<'a>
    ensures rule { rule_of result ≡ file_rule name.entry.now }
    ensures local { result.global ≡ false }
{
    Arg::new(alloc, name).help(help).required(true)
}

fn spare_arg<'a>(alloc: Global, name: &'a str, help: &'a str) -> Arg<'a>
    ensures rule { rule_of result ≡ spare_rule name.entry.now }
    ensures local { result.global ≡ false }
{
    Arg::new(alloc, name).help(help)
}

fn kind_arg<'a>(alloc: Global) -> Arg<'a>
    ensures rule { rule_of result ≡ kind_rule }
    ensures local { result.global ≡ false }
{
    file_arg(alloc, "kind", "which rows: sales, decisions or events")
}

/// In the help text, the option's value is shown as `value`, for example `FILE`.
fn option_arg<'a>(alloc: Global, name: &'a str, value: &'a str, help: &'a str) -> Arg<'a>
    ensures rule { rule_of result ≡ option_rule name.entry.now }
    ensures local { result.global ≡ false }
{
    Arg::new(alloc, name)
        .long(name)
        .value_name(value)
        .help(help)
}

/// The mask of the counters that a program declares: bit c is counter c.
fn mask_arg<'a>(alloc: Global) -> Arg<'a>
    ensures rule { rule_of result ≡ mask_rule }
    ensures local { result.global ≡ false }
{
    let help = "the declared counters: bit c of this number, such as 6 or 0x6, for counter c";
    option_arg(alloc, "counters", "MASK", help).default_value("0")
}

fn context_arg<'a>(alloc: Global) -> Arg<'a>
    ensures rule { rule_of result ≡ context_rule }
    ensures local { result.global ≡ false }
{
    let help = "the layout of the context: 1 as load gives it, 2 as load2 does";
    option_arg(alloc, "context", "LAYOUT", help).default_value("1")
}

fn flag_arg<'a>(alloc: Global, name: &'a str, help: &'a str) -> Arg<'a>
    ensures rule { rule_of result ≡ flag_rule name.entry.now }
    ensures local { result.global ≡ false }
{
    Arg::new(alloc, name)
        .long(name)
        .help(help)
        .action(ArgAction::SetTrue)
}

fn fields_arg<'a>(alloc: Global) -> Arg<'a>
    ensures rule { rule_of result ≡ fields_rule }
    ensures local { result.global ≡ false }
{
    let help = "a field of what the rule is given, such as asked=8000; what isn't named is 0";
    Arg::new(alloc, "fields")
        .value_name("NAME=NUMBER")
        .help(help)
        .action(ArgAction::Append)
}

fn slot_arg<'a>(alloc: Global) -> Arg<'a>
    ensures rule { rule_of result ≡ slot_rule }
    ensures local { result.global ≡ false }
{
    let help = "the slot, 0 to 15, whose rule is another";
    option_arg(alloc, "slot", "N", help).required(true)
}

const CONFIG: &str = "the site's configuration, as TOML";

const SCRIPT: &str = "requests, events and loads, one a line";

const JOURNAL: &str = "the journal of a play, or of a served site";

const PROGRAM: &str = "the program's bytes, as hexadecimal digits";

const OPENING: Argument = Argument::FileOption(
    "opening",
    "begin with the opening in this file, as carry prints it",
);

const SUBCOMMANDS: [SubcommandDescription; 13] = [
    SubcommandDescription {
        name: "asm",
        about: "Prints the units of a rule",
        example: "Example: fc asm rule.bpf",
        arguments: &[Argument::File("file", "the rule, as assembler text")],
    },
    SubcommandDescription {
        name: "dis",
        about: "Prints a program as text",
        example: "Examples: fc dis rule.hex, fc dis --units rule.hex",
        arguments: &[
            Argument::File("file", PROGRAM),
            Argument::Flag("units", "print each unit's number before its line"),
        ],
    },
    SubcommandDescription {
        name: "verify",
        about: "Tells whether a program file is accepted",
        example: "Example: fc verify --counters 3 rule.hex",
        arguments: &[
            Argument::File("file", PROGRAM),
            Argument::Mask,
            Argument::Context,
        ],
    },
    SubcommandDescription {
        name: "play",
        about: "Answers each line of a script",
        example: "Example: fc play site.toml day.script",
        arguments: &[
            Argument::File("config", CONFIG),
            Argument::File("script", SCRIPT),
            OPENING,
        ],
    },
    SubcommandDescription {
        name: "audit",
        about: "Tells whether a journal is a legal history",
        example: "Examples: fc audit site.toml day.journal, fc audit --days days site.toml",
        arguments: &[
            Argument::File("config", CONFIG),
            Argument::SpareFile("journal", JOURNAL),
            OPENING,
            Argument::Days("audit all days of this folder, in place of JOURNAL"),
        ],
    },
    SubcommandDescription {
        name: "carry",
        about: "Prints the opening of the day that comes after a journal",
        example: "Example: fc carry site.toml day.journal > day.opening",
        arguments: &[
            Argument::File("config", CONFIG),
            Argument::File("journal", JOURNAL),
            OPENING,
        ],
    },
    SubcommandDescription {
        name: "report",
        about: "Makes a page of pictures and figures of a journal",
        example: "Example: fc report site.toml day.journal > day.html",
        arguments: &[
            Argument::File("config", CONFIG),
            Argument::File("journal", JOURNAL),
            OPENING,
        ],
    },
    SubcommandDescription {
        name: "export",
        about: "Prints rows of a journal for other programs, as CSV or as JSON",
        example: "Examples: fc export sales site.toml day.journal, fc export --json events site.toml day.journal",
        arguments: &[
            Argument::Kind,
            Argument::File("config", CONFIG),
            Argument::File("journal", JOURNAL),
            Argument::Flag("json", "print a line of JSON for each row, in place of CSV"),
            OPENING,
        ],
    },
    SubcommandDescription {
        name: "explain",
        about: "Tells why an entry of a journal was answered so, with the run of its rule",
        example: "Examples: fc explain site.toml day.journal 412, fc explain --days days site.toml 2 412",
        arguments: &[
            Argument::File("config", CONFIG),
            Argument::File(
                "journal",
                "the journal of a play, or of a served site; with --days the day's number",
            ),
            Argument::File("entry", "the entry's number, with which its line begins"),
            Argument::Flag("json", "print one object of JSON, in place of text"),
            OPENING,
            Argument::Days("explain an entry of a day of this folder, by the day's number"),
        ],
    },
    SubcommandDescription {
        name: "run",
        about: "Runs a rule by itself, on a request that the words describe",
        example: "Examples: fc run rule.hex kind=release asked=8000, fc run --trace --counters 2 rule.hex counter.1=3/9",
        arguments: &[
            Argument::File("rule", PROGRAM),
            Argument::Fields,
            Argument::Mask,
            Argument::Context,
            Argument::Flag("trace", "print each instruction that is executed too"),
            Argument::Flag("json", "print one object of JSON, in place of text"),
        ],
    },
    SubcommandDescription {
        name: "whatif",
        about: "Tells what a journal's requests would have been answered with another rule",
        example: "Examples: fc whatif --slot 1 site.toml day.journal rule.hex, fc whatif --days days --slot 1 site.toml rule.hex",
        arguments: &[
            Argument::File("config", CONFIG),
            Argument::File(
                "journal",
                "the journal of a play, or of a served site; with --days the other rule",
            ),
            Argument::SpareFile("rule", "the other rule's bytes, as hexadecimal digits"),
            Argument::Slot,
            Argument::Mask,
            Argument::Context,
            Argument::Flag(
                "carry",
                "let each answer change the site for what comes after it",
            ),
            Argument::Flag(
                "json",
                "print a line of JSON for each request, in place of CSV",
            ),
            Argument::Flag("summary", "print only what all answers come to"),
            OPENING,
            Argument::Days("try the rule on all days of this folder"),
        ],
    },
    SubcommandDescription {
        name: "follow",
        about: "Keeps up with a folder of days that another program writes",
        example: "Example: fc follow days site.toml",
        arguments: &[
            Argument::File("folder", "the folder of the days"),
            Argument::File("config", CONFIG),
        ],
    },
    SubcommandDescription {
        name: "serve",
        about: "Serves a site at ports and local sockets, then prints its journal",
        example: "Examples: fc serve --journal day.journal site.toml, fc serve --days days --new-day site.toml",
        arguments: &[
            Argument::File("config", CONFIG),
            Argument::FileOption(
                "journal",
                "keep the journal in this file as it happens, and go on from what it holds",
            ),
            Argument::Flag(
                "sync",
                "with --journal or --days: answer only what the system says is on the disk",
            ),
            OPENING,
            Argument::Days("serve the newest day of this folder, and keep its journal there"),
            Argument::Flag(
                "new-day",
                "with --days: close the newest day first, and serve the next one",
            ),
            Argument::Flag(
                "check",
                "with --days: serve nothing, but print what the next day would take of CONFIG",
            ),
        ],
    },
];

const ABOUT: &str =
    "Keeps a petrol station's site, where small programs decide each release, preset and price.
Without words it reads a configuration, a line ---, and a script from standard input.";

const AFTER: &str = "Example: fc play site.toml day.script

Faults: A assembler text, C closing a site, F an entry that is not legal, H hexadecimal, J journal text,
K configuration, L line, N device, O days that don't follow one another, S refusal of the site, V program refused.
docs/use/messages.md names each, and every message.
Status: 0 done, 1 the input is refused, 2 the words are wrong, 3 a device failed or memory ran out.";

fn argument_of<'a>(alloc: Global, argument: Argument) -> Arg<'a>
    ensures rule { rule_of result ≡ rule_for argument }
    ensures local { result.global ≡ false }
{
    match argument {
        Argument::File(name, help) => file_arg(alloc, name, help),
        Argument::SpareFile(name, help) => spare_arg(alloc, name, help),
        Argument::Kind => kind_arg(alloc),
        Argument::Mask => mask_arg(alloc),
        Argument::Context => context_arg(alloc),
        Argument::FileOption(name, help) => option_arg(alloc, name, "FILE", help),
        Argument::Days(help) => option_arg(alloc, "days", "FOLDER", help),
        Argument::Flag(name, help) => flag_arg(alloc, name, help),
        Argument::Fields => fields_arg(alloc),
        Argument::Slot => slot_arg(alloc),
    }
}

fn described<'a>(alloc: Global, word: SubcommandDescription) -> Command<'a>
    ensures app { app_of result ≡ new_app word.name.now }
    ensures local { (out-Command result).has_globals ≡ false }
{
    Command::new(alloc, word.name)
        .about(word.about)
        .after_help(word.example)
}

fn subcommand_of<'a>(alloc: Global, word: SubcommandDescription) -> Result<Command<'a>, AllocError>
    ensures app { IfOk result (λ c. app_of c ≡ app_for word) }
    ensures local { IfOk result (λ c. (out-Command c).has_globals ≡ false) }
{
    let mut command = described(alloc, word);
    for argument in word.arguments {
        command = command.arg(argument_of(alloc, *argument))?;
    }
    Ok(command)
}

fn with_word<'a>(
    alloc: Global,
    some: Command<'a>,
    word: SubcommandDescription,
) -> Result<Command<'a>, AllocError>
    ensures { IfOk result (λ c. app_of c ≡ with_subcommand (app_of some.entry) (app_for word).top) }
{
    let subcommand = subcommand_of(alloc, word)?;
    some.subcommand(subcommand)
}

fn top_command<'a>(alloc: Global) -> Command<'a>
    ensures { app_of result ≡ top_app }
{
    Command::new(alloc, "fc")
        .version("0.1.0")
        .about(ABOUT)
        .after_help(AFTER)
}

fn with_words<'a>(alloc: Global, words: &[SubcommandDescription]) -> Result<Command<'a>, AllocError>
    ensures { IfOk result (λ c. app_of c ≡ with_words top_app words.now) }
{
    let mut command = top_command(alloc);
    for word in words {
        command = with_word(alloc, command, *word)?;
    }
    Ok(command)
}

pub fn fc<'a>(alloc: Global) -> Result<Command<'a>, AllocError>
    ensures { IfOk result (λ c. app_of c ≡ fc_app) }
{
    with_words(alloc, &SUBCOMMANDS)
}
