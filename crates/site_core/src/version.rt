ghost use Rattle.std.specs.Prelude.{◌≡◌, IfOk};

use std::alloc::AllocError;
use std::marker::Model;
use std::sync::Arc;
use verifier::Program;

/// A program that was installed in a slot, and its number, counted from 1.
#[derive(Drop)]
pub struct Version {
    pub number: u32,
    pub program: Arc<Program>,
}

impl Model for Version {
    ghost use Rattle.std.specs.Arc.{arc_value};
    ghost use Rattle.site_core.specs.SlotsValue.{Version as VersionValue};

    ghost Value = { VersionValue };

    ghost view = { λ v. record { number = v.number; program = arc_value v.program } };
}

impl Version {
    /// Returns a copy, which shares the program. The error is that the program's `Arc` has too many owners.
    pub fn copied(&self) -> Result<Version, AllocError>
        ensures { IfOk result (λ v. v ≡ self.now) }
    {
        Ok(Version {
            number: self.number,
            program: Arc::try_clone(&self.program)?,
        })
    }
}
