//! The site's refusals, and its reply to a dispenser's event.

ghost use Rattle.std.specs.Prelude.{◌≡◌};
ghost use Rattle.site_core.specs.Decide.{wrong_state, no_program, denied};
ghost use Rattle.site_core.specs.Step.{fault_reply, event_reply};

use fuelling_point::{Order, PointFault, State};
use till_request::Reply;

/// S20: there is no point of this number.
pub const NO_SUCH_POINT: Reply = Reply::Refused(20, None);

/// S21: there is no till of this number.
pub const NO_SUCH_TILL: Reply = Reply::Refused(21, None);

/// S25: an amount, a price or a product is out of range.
pub const BAD_AMOUNT: Reply = Reply::Refused(25, None);

/// S26: two transactions of the point are unpaid, and a point can't have more.
pub const TRANSACTIONS_FULL: Reply = Reply::Refused(26, None);

/// S27: another till holds the transaction; or, for an `Unlock` or a `Clear`, no till holds it.
const NOT_YOUR_TRANSACTION: Reply = Reply::Refused(27, None);

/// S28: the point has no unpaid transaction of this number.
const NO_SUCH_TRANSACTION: Reply = Reply::Refused(28, None);

/// S30: 4,096 versions were installed since the site began, and a site can't install more.
pub const VERSIONS_FULL: Reply = Reply::Refused(30, None);

/// S32: there is no slot of this number; slots are 0 to 15.
pub const NO_SUCH_SLOT: Reply = Reply::Refused(32, None);

/// S33: no `Order` to the dispenser is pending.
const NO_ORDER: Reply = Reply::Refused(33, None);

/// S34: the dispenser's event, or a number in it, doesn't fit the point as it is now.
const UNEXPECTED: Reply = Reply::Refused(34, None);

/// S22: the request isn't possible, because of a point in this state.
pub fn wrong_state(state: State) -> Reply
    ensures { result ≡ wrong_state state }
{
    Reply::Refused(22, Some(state.number()))
}

/// S23: no program is installed in this slot.
pub fn no_program(slot: u32) -> Reply
    ensures { result ≡ no_program slot }
{
    Reply::Refused(23, Some(slot))
}

/// S24: the program of this version denied the request.
pub fn denied(version: u32) -> Reply
    ensures { result ≡ denied version }
{
    Reply::Refused(24, Some(version))
}

pub fn event_reply(outcome: Result<Option<Order>, PointFault>) -> Reply
    ensures { result ≡ event_reply outcome }
{
    match outcome {
        Ok(Some(order)) => Reply::Order(order),
        Ok(None) => Reply::Done,
        Err(fault) => fault_reply(fault),
    }
}

pub fn fault_reply(fault: PointFault) -> Reply
    ensures { result ≡ fault_reply fault }
{
    match fault {
        PointFault::WrongState(state) => wrong_state(state),
        PointFault::TransactionsFull => TRANSACTIONS_FULL,
        PointFault::NotYourTransaction => NOT_YOUR_TRANSACTION,
        PointFault::NoSuchTransaction => NO_SUCH_TRANSACTION,
        PointFault::NoOrder => NO_ORDER,
        PointFault::Unexpected => UNEXPECTED,
    }
}
