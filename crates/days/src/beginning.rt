//! Puts an opening into the configuration that a site begins with.

ghost use Rattle.std.specs.Prelude.{IfErr, IfOk};
ghost use Rattle.days.specs.Fitting.{BeginsWith};
ghost use Rattle.days.specs.Misfits.{CannotBegin, IsUnfit, IsOutOfMemory};

use crate::fitting::{Misfit, first_misfit, fitted, rebounded};
use site_core::{Config, Opening, OpeningFault};
use std::alloc::Global;
use std::fmt::{self, Display};

/// Why no site of a configuration begins with an opening.
#[derive(Clone, Copy)]
pub enum Unfit {
    /// They don't fit each other.
    Misfit(Misfit),
    /// They fit, but the opening has this fault; or memory ran out.
    Fault(OpeningFault),
}

impl Display for Unfit {
    ghost use Rattle.std.specs.Prelude.{Some};
    ghost use Rattle.days.specs.Words.{unfit_text};

    ghost output = { λ why. Some (unfit_text why) };

    fn fmt<W: fmt::Write>(&self, f: &mut fmt::Formatter<W>) -> fmt::Result {
        match self {
            Unfit::Misfit(misfit) => misfit.fmt(f),
            Unfit::Fault(fault) => fault.fmt(f),
        }
    }
}

/// `config` with `opening` in place of its own. Each counter has its value from `opening` and its bound from `config`,
/// and a point that only `config` has is closed.
pub fn begun(alloc: Global, config: Config, opening: Opening) -> Result<Config, Unfit>
    // proved begun, unfit, none: A site begins with an opening that fits
    ensures begun { IfOk result (BeginsWith config opening) }
    ensures unfit { IfErr result (IsUnfit config opening) }
    ensures none { IfErr result (λ unfit. ¬ IsOutOfMemory unfit → CannotBegin config opening) }
{
    // This read brings that there are 32 counters.
    let _first = opening.counters.get(0);
    if let Some(misfit) = first_misfit(&config, &opening) {
        return Err(Unfit::Misfit(misfit));
    }
    let counters = rebounded(&config, &opening);
    let opening = match fitted(config.points().len(), counters, opening) {
        Ok(opening) => opening,
        Err(_) => return Err(Unfit::Fault(OpeningFault::OutOfMemory)),
    };
    match config.opened(alloc, opening) {
        Ok(config) => Ok(config),
        Err(fault) => Err(Unfit::Fault(fault)),
    }
}
