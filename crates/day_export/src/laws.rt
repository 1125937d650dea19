//! Laws about the rows of a day.

ghost use Rattle.day_export.specs.Laws.{AllRowsAreWhole, RowsShowContexts};

/// Does nothing. Its contract is a law about the rows of a day:
///
/// - Each row has a cell for each column.
/// - With its default settings, the crate `csv` reads from the CSV the names of the columns, and then the texts of the
///   rows.
pub fn law_of_rows()
    // proved: The law of rows holds
    ensures { AllRowsAreWhole }
{}

/// Does nothing. Its contract is a law: from the column `context_till` on, the row of a decision has the fields of the
/// context that the rule ran on, in order. The value of each field must fit in the field's 4 or 8 bytes.
///
/// - Layout 1: the last two cells are empty, because it has no counts of cleared transactions and of open points.
/// - Layout 2: the zero that ends the context has no cell.
pub fn law_of_contexts()
    // proved: The law of contexts holds
    ensures { RowsShowContexts }
{}
