//! Makes the cells of a row that describe an entry's reply.

ghost use Rattle.std.specs.Prelude.{◌≡◌};
ghost use Rattle.day_export.specs.Acts.{word_reply_cells, order_cells, order_word_cells, reply_cells};

use crate::cells::{Cell, Word, number, optional};
use fuelling_point::Order;
use till_request::Reply;

/// The cells of a reply, one for each column that describes the reply. If the reply has no value for a column, the
/// column's cell is `Nothing`.
#[derive(Clone, Copy)]
pub(crate) struct ReplyCells {
    pub(crate) reply: Cell,
    pub(crate) granted: Cell,
    pub(crate) version: Cell,
    pub(crate) order: Cell,
    pub(crate) refusal: Cell,
    pub(crate) detail: Cell,
}

/// Returns the cells of a reply that is only a word.
fn word_reply_cells(word: Word) -> ReplyCells
    ensures { result ≡ word_reply_cells word }
{
    ReplyCells {
        reply: Cell::Word(word),
        granted: Cell::Nothing,
        version: Cell::Nothing,
        order: Cell::Nothing,
        refusal: Cell::Nothing,
        detail: Cell::Nothing,
    }
}

/// Returns the cells of a reply that is an order to a dispenser; `word` is the order's word.
fn order_word_cells(word: Word) -> ReplyCells
    ensures { result ≡ order_word_cells word }
{
    ReplyCells {
        order: Cell::Word(word),
        ..word_reply_cells(Word::Order)
    }
}

/// Returns the cells of a reply that is an order to a dispenser. If the order has an amount, in cents, it is in the
/// cell `granted`.
fn order_cells(order: Order) -> ReplyCells
    ensures { result ≡ order_cells order }
{
    match order {
        Order::Authorise(amount) => ReplyCells {
            granted: Cell::Number(amount),
            ..order_word_cells(Word::Authorise)
        },
        Order::Suspend => order_word_cells(Word::Suspend),
        Order::Resume => order_word_cells(Word::Resume),
        Order::Stop => order_word_cells(Word::Stop),
    }
}

/// Returns the cells of a reply. For the reply `Point` only the cell `reply` has a value: there are no columns for the
/// point's values.
pub(crate) fn reply_cells(reply: Reply) -> ReplyCells
    ensures { result ≡ reply_cells reply }
{
    match reply {
        Reply::Done => word_reply_cells(Word::Done),
        Reply::Granted(granted, version) => ReplyCells {
            granted: Cell::Number(granted),
            version: number(version),
            ..word_reply_cells(Word::Granted)
        },
        Reply::Version(version) => ReplyCells {
            version: number(version),
            ..word_reply_cells(Word::Version)
        },
        Reply::Order(order) => order_cells(order),
        Reply::Point { .. } => word_reply_cells(Word::Point),
        Reply::Refused(refusal, detail) => ReplyCells {
            refusal: number(refusal),
            detail: optional(detail),
            ..word_reply_cells(Word::Refused)
        },
    }
}
