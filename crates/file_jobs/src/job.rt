//! The jobs that the program can do.
ghost use Rattle.std.specs.Prelude.{◌≡◌};

use bpf_model::context::Layout;
use day_export::{Format, Rows};
use std::alloc::AllocError;
use what_if::Reading;

/// The job that a command line asks for. A `String` names a file or a folder, except in `Show`. `opening` is what the
/// site keeps from the day before, and `folder` has the files of a station's days.
#[derive(Drop)]
pub enum Job {
    /// Without words: read a configuration and a script from standard input, and answer the script's lines.
    NoWords,
    Asm(String),
    Dis(String),
    /// `dis` with the number of each instruction's first unit.
    DisUnits(String),
    /// Bit c of `counters` declares counter c.
    Verify {
        counters: u32,
        context: Layout,
        file: String,
    },
    Play {
        opening: Option<String>,
        config: String,
        script: String,
    },
    Audit {
        opening: Option<String>,
        config: String,
        journal: String,
    },
    AuditDays {
        folder: String,
        config: String,
    },
    /// Print the opening of the next day.
    Carry {
        opening: Option<String>,
        config: String,
        journal: String,
    },
    /// Print a page of HTML.
    Report {
        opening: Option<String>,
        config: String,
        journal: String,
    },
    Export {
        rows: Rows,
        format: Format,
        opening: Option<String>,
        config: String,
        journal: String,
    },
    /// Print why entry `number` of a journal was answered so.
    Explain {
        opening: Option<String>,
        config: String,
        journal: String,
        number: u32,
        is_json: bool,
    },
    /// Print why entry `number` of a day in a folder was answered so.
    ExplainDay {
        folder: String,
        config: String,
        day: u32,
        number: u32,
        is_json: bool,
    },
    /// Run a rule by itself. Each of `fields` is `NAME=NUMBER`, as in `asked=8000`.
    Run {
        rule: String,
        counters: u32,
        context: Layout,
        is_traced: bool,
        is_json: bool,
        fields: Vec<String>,
    },
    /// Print what another rule would have answered at each decision of a slot.
    WhatIf {
        opening: Option<String>,
        config: String,
        journal: String,
        what_if: WhatIf,
    },
    /// Do the same for all days of a folder.
    WhatIfDays {
        folder: String,
        config: String,
        what_if: WhatIf,
    },
    /// Follow a folder whose days another program serves.
    Follow {
        folder: String,
        config: String,
    },
    Serve(ServeJob),
    /// Print the help or the version.
    Show(String),
}

/// Which rule is tried on a journal in place of those of a slot, and how. Bit c of `counters` declares counter c.
#[derive(Drop)]
pub struct WhatIf {
    pub slot: u32,
    pub rule: String,
    pub counters: u32,
    pub context: Layout,
    pub reading: Reading,
    pub format: WhatIfFormat,
}

#[derive(Clone, Copy)]
pub enum WhatIfFormat {
    Csv,
    Json,
    Summary,
}

/// How a site is served, and where its journal goes.
#[derive(Drop)]
pub enum ServeJob {
    /// Print the journal at the end.
    Printed {
        opening: Option<String>,
        config: String,
    },
    /// Write the journal to a file as it grows, and go on from what the file has.
    Kept {
        opening: Option<String>,
        config: String,
        journal: String,
    },
    /// Like `Kept`, but send an answer only after its line in the journal is synced.
    Synced {
        opening: Option<String>,
        config: String,
        journal: String,
    },
    /// Serve the newest day of a folder, or day 1 if it has none. If `is_new_day` and the newest day has an entry,
    /// close that day first, and serve the next one.
    Days {
        folder: String,
        config: String,
        is_synced: bool,
        is_new_day: bool,
    },
    /// Print what the next day of a folder would take of the configuration, and serve nothing.
    Check {
        folder: String,
        config: String,
    },
}

/// Why a command line gives no job.
#[derive(Drop)]
pub enum CommandFault {
    /// The message for the user.
    Usage(String),
    OutOfMemory,
}

impl From<AllocError> for CommandFault {
    ghost use Rattle.file_jobs.specs.declared.job.CommandFault.TheVariants.{OutOfMemory};

    ghost from_gives = { λ _ e. e ≡ OutOfMemory };

    fn from(_: AllocError) -> Self {
        CommandFault::OutOfMemory
    }
}
