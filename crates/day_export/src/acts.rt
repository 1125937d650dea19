//! Makes the cells of a row that describe an act: a till's request, a dispenser's event, or a load of a program.

ghost use Rattle.std.specs.Prelude.{◌≡◌};
ghost use Rattle.day_export.specs.Acts.{act_cells, bare_act_cells, bare_event_cells, event_cells, layout_number};
ghost use Rattle.day_export.specs.Acts.{amount_request_cells, point_request_cells, request_cells};

use crate::cells::{Cell, Word, number};
use bpf_model::context::Layout;
use fuelling_point::DispenserEvent;
use till_request::spelling::event_form;
use till_request::{Act, AmountVerb, Form, RequestByForm};

/// The cells of an act, one for each column that describes the act. If the act has no value for a column, the column's
/// cell is `Nothing`.
#[derive(Clone, Copy)]
pub(crate) struct ActCells {
    pub(crate) sender: Cell,
    pub(crate) till: Cell,
    pub(crate) point: Cell,
    pub(crate) verb: Cell,
    pub(crate) product: Cell,
    pub(crate) nozzle: Cell,
    pub(crate) transaction: Cell,
    pub(crate) amount: Cell,
    pub(crate) volume: Cell,
    pub(crate) slot: Cell,
    pub(crate) mask: Cell,
    pub(crate) layout: Cell,
}

/// Returns the cells of an act that has no values but its sender and its verb.
fn bare_act_cells(sender: Word, verb: Form) -> ActCells
    ensures { result ≡ bare_act_cells sender verb }
{
    ActCells {
        sender: Cell::Word(sender),
        till: Cell::Nothing,
        point: Cell::Nothing,
        verb: Cell::Word(Word::Verb(verb)),
        product: Cell::Nothing,
        nozzle: Cell::Nothing,
        transaction: Cell::Nothing,
        amount: Cell::Nothing,
        volume: Cell::Nothing,
        slot: Cell::Nothing,
        mask: Cell::Nothing,
        layout: Cell::Nothing,
    }
}

/// Returns the cells of a till's request that names point `n` and has no further values. Only the cells of the sender,
/// the till, the verb and the point are filled.
fn point_request_cells(till: u32, verb: Form, n: u32) -> ActCells
    ensures { result ≡ point_request_cells till verb n }
{
    ActCells {
        till: number(till),
        point: number(n),
        ..bare_act_cells(Word::Till, verb)
    }
}

/// Returns the cells of a till's request with an amount in cents, or with a price in thousandths of the currency per
/// litre. Either is in the cell `amount`. `subject` is the request's point or, for a price, its product.
fn amount_request_cells(till: u32, verb: AmountVerb, subject: u32, amount: u64) -> ActCells
    ensures { result ≡ amount_request_cells till verb subject amount }
{
    match verb {
        AmountVerb::Price => ActCells {
            till: number(till),
            product: number(subject),
            amount: Cell::Number(amount),
            ..bare_act_cells(Word::Till, Form::Amount(verb))
        },
        AmountVerb::Release | AmountVerb::Preset => ActCells {
            amount: Cell::Number(amount),
            ..point_request_cells(till, Form::Amount(verb), subject)
        },
    }
}

/// Returns the cells of a till's request.
fn request_cells(till: u32, request: RequestByForm) -> ActCells
    ensures { result ≡ request_cells till request }
{
    match request {
        RequestByForm::Amount(verb, subject, amount) => {
            amount_request_cells(till, verb, subject, amount)
        }
        RequestByForm::Point(verb, n) => point_request_cells(till, Form::Point(verb), n),
        RequestByForm::Transaction(verb, n, transaction) => ActCells {
            transaction: number(transaction),
            ..point_request_cells(till, Form::Transaction(verb), n)
        },
    }
}

/// Returns the cells of an event of the dispenser at point `n`, without the event's numbers. Only the cells of the
/// sender, the verb and the point are filled.
fn bare_event_cells(n: u32, event: DispenserEvent) -> ActCells
    ensures { result ≡ bare_event_cells n event }
{
    ActCells {
        point: number(n),
        ..bare_act_cells(Word::Dispenser, event_form(event))
    }
}

/// Returns the cells of an event of the dispenser at point `n`.
fn event_cells(n: u32, event: DispenserEvent) -> ActCells
    ensures { result ≡ event_cells n event }
{
    let bare = bare_event_cells(n, event);
    match event {
        DispenserEvent::Up(nozzle) => ActCells {
            nozzle: number(nozzle),
            ..bare
        },
        DispenserEvent::Flowed(amount, volume) => ActCells {
            amount: Cell::Number(amount),
            volume: Cell::Number(volume),
            ..bare
        },
        DispenserEvent::Down
        | DispenserEvent::Started
        | DispenserEvent::Fault
        | DispenserEvent::Repaired
        | DispenserEvent::TakeOrder => bare,
    }
}

/// Returns the number of a context's layout: 1 for `One`, 2 for `Two`.
fn layout_number(layout: Layout) -> u32
    ensures { result ≡ layout_number layout }
{
    match layout {
        Layout::One => 1,
        Layout::Two => 2,
    }
}

/// Returns the cells of an act. The bytes of a load's program have no cell. The verb of a load is `load` for both
/// layouts.
pub(crate) fn act_cells(act: &Act) -> ActCells
    ensures { result ≡ act_cells act.now }
{
    match act {
        Act::Till { till, request } => request_cells(*till, request.by_form()),
        Act::Dispenser { point, event } => event_cells(*point, *event),
        Act::Load {
            slot,
            mask,
            layout,
            ..
        } => ActCells {
            slot: number(*slot),
            mask: number(*mask),
            layout: number(layout_number(*layout)),
            ..bare_act_cells(Word::Owner, Form::Load(Layout::One))
        },
    }
}
