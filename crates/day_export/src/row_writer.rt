//! The trait of the two writers of rows: one writes CSV, the other lines of JSON.

use crate::cells::{Cell, Rows};
use crate::fault::RowFault;

/// A writer of rows in one format.
pub(crate) trait RowWriter {
    ghost use Rattle.std.specs.Prelude.{◌≡◌, Err, List, Option, ℕ, OnOk};
    ghost use Rattle.std.specs.Io.KnownBytes.{Appends, Keeps};
    ghost use Rattle.day_export.specs.declared.cells.Format.{Format};
    ghost use Rattle.day_export.specs.Text.{row_bytes};

    /// For proofs: the format of the rows.
    ghost format: { Format };

    /// For proofs: the bytes in the underlying writer, followed by those that still wait in a buffer. `None` if the
    /// contract of the underlying writer doesn't say which bytes it has.
    ghost written_bytes: { Self → Option (List ℕ) };

    /// For proofs: the next row can be written. After an error this can be false.
    ghost is_ready: { Self → Type 0 };

    /// Writes a row of the kind `rows` with these cells. `is_ready` must hold, and still holds if there is no error.
    /// The error is an error of the underlying writer, and a part of the row was perhaps written, or that memory ran
    /// out, and nothing of the row was written.
    fn write_row(&mut self, rows: Rows, cells: &[Cell]) -> Result<(), RowFault>
        requires { is_ready self.old }
        ensures text { OnOk result (Appends (written_bytes self.old) (written_bytes self.new) (row_bytes rows format
            cells.now)) }
        ensures ready { OnOk result (is_ready self.new) }
        ensures memory { result ≡ Err RowFault.OutOfMemory
            → Keeps (written_bytes self.old) (written_bytes self.new) };
}
