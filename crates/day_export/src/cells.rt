//! The columns of each kind of rows, and the cells of a row.

ghost use Rattle.std.specs.Prelude.{◌≡◌, map};
ghost use Rattle.day_export.specs.Cells.{columns, word_text, optional, moment_cell};

use till_request::Form;
use till_request::form::text_of;

/// Which rows of a day are written.
#[derive(Clone, Copy)]
pub enum Rows {
    /// A row for each sale.
    Sales,
    /// A row for each decision of a rule.
    Decisions,
    /// A row for each entry of the journal.
    Events,
}

/// The format in which rows are written.
#[derive(Clone, Copy)]
pub enum Format {
    /// CSV by RFC 4180, with the names of the columns as its first record.
    Csv,
    /// Lines of JSON: each row is a JSON object on a line of its own.
    Json,
}

/// One of the fixed words that a cell of an exported row can hold.
#[derive(Clone, Copy)]
pub enum Word {
    /// The verb of a line of this form, such as `release`.
    Verb(Form),
    Till,
    Dispenser,
    Owner,
    Suspend,
    Resume,
    Stop,
    Order,
    Done,
    Granted,
    Denied,
    Version,
    Point,
    Refused,
    Authorise,
}

/// The value that a row has in a column.
#[derive(Clone, Copy)]
pub enum Cell {
    Number(u64),
    Word(Word),
    Nothing,
}

/// The column names for rows of sales.
const SALES: [&str; 11] = [
    "ended",
    "cleared",
    "point",
    "transaction",
    "product",
    "price",
    "volume",
    "amount",
    "till",
    "moment",
    "off",
];

/// The column names for rows of decisions.
const DECISIONS: [&str; 26] = [
    "entry",
    "moment",
    "till",
    "point",
    "kind",
    "asked",
    "slot",
    "version",
    "r0",
    "answer",
    "granted",
    "context_till",
    "context_point",
    "context_kind",
    "context_state",
    "context_nozzle",
    "context_product",
    "context_asked",
    "context_moment",
    "context_price",
    "context_busy_points",
    "context_unpaid",
    "context_slot",
    "context_cleared",
    "context_clears",
    "context_open_points",
];

/// The column names for rows of entries.
const EVENTS: [&str; 21] = [
    "entry",
    "pass",
    "moment",
    "sender",
    "till",
    "point",
    "verb",
    "product",
    "nozzle",
    "transaction",
    "amount",
    "volume",
    "slot",
    "mask",
    "layout",
    "reply",
    "granted",
    "version",
    "order",
    "refusal",
    "detail",
];

/// Returns the column names for this kind of rows, first to last.
pub(crate) fn columns(rows: Rows) -> &'static [&'static str]
    ensures { map (λ name. name.now) result.now ≡ columns rows }
{
    match rows {
        Rows::Sales => &SALES,
        Rows::Decisions => &DECISIONS,
        Rows::Events => &EVENTS,
    }
}

/// Returns the text of a word.
pub(crate) fn word_text(word: Word) -> &'static str
    ensures { result.now ≡ word_text word }
{
    match word {
        Word::Verb(form) => text_of(form),
        Word::Till => "till",
        Word::Dispenser => "dispenser",
        Word::Owner => "owner",
        Word::Suspend => "suspend",
        Word::Resume => "resume",
        Word::Stop => "stop",
        Word::Order => "order",
        Word::Done => "done",
        Word::Granted => "granted",
        Word::Denied => "denied",
        Word::Version => "version",
        Word::Point => "point",
        Word::Refused => "refused",
        Word::Authorise => "authorise",
    }
}

/// Returns a cell with the number `n`.
pub(crate) fn number(n: u32) -> Cell
    ensures { result ≡ Cell.Number n }
{
    Cell::Number(u64::from(n))
}

/// Returns a cell with the number `n`, or `Nothing` for `None`.
pub(crate) fn optional(n: Option<u32>) -> Cell
    ensures { result ≡ optional n }
{
    match n {
        None => Cell::Nothing,
        Some(n) => Cell::Number(u64::from(n)),
    }
}

/// Returns a cell with a moment (a time in seconds), or `Nothing` for 0, which means that there is no moment.
pub(crate) fn moment_cell(moment: u64) -> Cell
    ensures { result ≡ moment_cell moment }
{
    if moment == 0 {
        Cell::Nothing
    } else {
        Cell::Number(moment)
    }
}
