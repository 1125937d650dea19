//! Writes rows as lines of JSON.

ghost use Rattle.std.specs.Prelude.{◌≡◌, ◌≢◌, ◌++◌, ◌∷◌, [], IfOk, IsOk, OnOk, map, string_bytes};
ghost use Rattle.serde_json.specs.View.{view, members_view};
ghost use Rattle.day_export.specs.Cells.{columns};
ghost use Rattle.day_export.specs.Text.{cell_data, object_of, row_bytes, with_cells};
ghost use Rattle.day_export.specs.declared.cells.Format.TheVariants as format;

use crate::cells::{Cell, Rows, Word, columns, word_text};
use crate::fault::RowFault;
use crate::row_writer::RowWriter;
use serde_json::{Map, Value, put};
use std::alloc::{AllocError, Global};
use std::io::Write;

/// A writer of rows as lines of JSON.
#[derive(Drop)]
pub(crate) struct JsonRows<W: Write + Drop> {
    pub(crate) alloc: Global,
    pub(crate) out: W,
}

/// Returns the JSON value of a cell. If the cell isn't a word, there is no error.
#[tactic(auto, unfolding(crate::specs::Text::cell_data))]
fn cell_value(alloc: Global, cell: Cell) -> Result<Value, AllocError>
    ensures value { IfOk result (λ value. view value ≡ cell_data cell) }
    ensures none { ((word : Word) → cell ≢ Cell.Word word) → IsOk result }
{
    match cell {
        Cell::Number(n) => Ok(Value::from(n)),
        Cell::Word(word) => Value::try_from_str(alloc, word_text(word)),
        Cell::Nothing => Ok(Value::Null),
    }
}

/// Puts the value of each cell into `members` under the name of its column, first to last. Names without a cell, and
/// cells without a name, are ignored.
fn put_cells(
    members: &mut Map<String, Value>,
    alloc: Global,
    names: &[&str],
    cells: &[Cell],
) -> Result<(), AllocError>
    ensures { OnOk result (members_view members.new.entries
        ≡ with_cells (members_view members.old.entries) (map (λ name. name.now) names.now) cells.now) }
{
    let Some((name, names)) = names.split_first() else {
        return Ok(());
    };
    let Some((cell, cells)) = cells.split_first() else {
        return Ok(());
    };
    put(members, alloc, name, cell_value(alloc, *cell)?)?;
    put_cells(members, alloc, names, cells)
}

/// Returns a row of the kind `rows`, with these cells, as a JSON object.
fn object_of(alloc: Global, rows: Rows, cells: &[Cell]) -> Result<Value, AllocError>
    ensures { IfOk result (λ value. view value ≡ object_of (columns rows) cells.now) }
{
    let mut members = Map::new(alloc);
    put_cells(&mut members, alloc, columns(rows), cells)?;
    Ok(Value::Object(members))
}

/// Returns a row of the kind `rows`, with these cells, as a line of JSON that ends with LF.
fn line_of(alloc: Global, rows: Rows, cells: &[Cell]) -> Result<String, AllocError>
    ensures { IfOk result (λ line. string_bytes line ≡ row_bytes rows format.Json cells.now) }
{
    let mut line = object_of(alloc, rows, cells)?.to_string(alloc)?;
    line.push_str("\n")?;
    Ok(line)
}

impl<W: Write + Drop> RowWriter for JsonRows<W> {
    ghost use Rattle.day_export.specs.declared.cells.Format.TheVariants as format;

    ghost format = { format.Json };

    ghost written_bytes = { λ it. W.contents it.out };

    ghost is_ready = { λ it. Unit {0} };

    fn write_row(&mut self, rows: Rows, cells: &[Cell]) -> Result<(), RowFault> {
        let line = line_of(self.alloc, rows, cells)?;
        Ok(self.out.write_all(line.as_bytes())?)
    }
}
