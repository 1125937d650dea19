//! The errors of writing a day's rows.

use std::alloc::AllocError;
use std::io;

/// Why the rows of a day couldn't be written.
#[derive(Drop)]
pub enum RowsFault<W> {
    /// Memory ran out. The writer has only whole rows.
    OutOfMemory(W),
    /// The writer failed with this error.
    Io(io::Error),
}

/// Why a row couldn't be written.
#[derive(Clone, Copy)]
pub(crate) enum RowFault {
    OutOfMemory,
    /// The writer to which the row was written failed with this error.
    Io(io::Error),
}

impl From<AllocError> for RowFault {
    ghost use Rattle.std.specs.Prelude.{◌≡◌};
    ghost use Rattle.day_export.specs.declared.fault.RowFault.TheVariants as fault;

    ghost from_gives = { λ _ f. f ≡ fault.OutOfMemory };

    fn from(_refused: AllocError) -> Self {
        RowFault::OutOfMemory
    }
}

impl From<io::Error> for RowFault {
    ghost use Rattle.std.specs.Prelude.{◌≡◌};
    ghost use Rattle.day_export.specs.declared.fault.RowFault.TheVariants as fault;

    ghost from_gives = { λ error f. f ≡ fault.Io error };

    fn from(error: io::Error) -> Self {
        RowFault::Io(error)
    }
}

impl<W> From<io::Error> for RowsFault<W> {
    ghost use Rattle.std.specs.Prelude.{◌≡◌};
    ghost use Rattle.day_export.specs.declared.fault.RowsFault.TheVariants as fault;

    ghost from_gives = { λ error f. f ≡ fault.Io error };

    fn from(error: io::Error) -> Self {
        RowsFault::Io(error)
    }
}
