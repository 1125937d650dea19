//! What a till's request leads to.

ghost use Rattle.std.specs.Prelude.{◌≡◌};
ghost use Rattle.site_core.specs.Decide.{request_action};

use crate::config::Config;
use fuelling_point::Command;
use till_request::Request;

#[derive(Clone, Copy)]
pub enum Kind {
    Release,
    Preset,
    Price,
}

/// What a request asks the program in this slot. `asked` is in cents, or a price in thousandths per litre. A price
/// change has point 0; releases and presets have product 0.
#[derive(Clone, Copy)]
pub struct Question {
    pub kind: Kind,
    pub point: u32,
    pub product: u32,
    pub asked: u64,
    pub slot: u32,
}

/// What a till's request leads to. `Command` and `Show` begin with the number of a point.
#[derive(Clone, Copy)]
pub enum RequestAction {
    Decision(Question),
    Command(u32, Command),
    Show(u32),
}

/// Doesn't check whether the request's point or product exists.
pub fn request_action(config: &Config, request: &Request) -> RequestAction
    ensures { result ≡ request_action config.now request.now }
{
    match *request {
        Request::Release(point, asked) => RequestAction::Decision(Question {
            kind: Kind::Release,
            point,
            product: 0,
            asked,
            slot: config.release_slot(point),
        }),
        Request::Preset(point, asked) => RequestAction::Decision(Question {
            kind: Kind::Preset,
            point,
            product: 0,
            asked,
            slot: config.preset_slot(point),
        }),
        Request::Price(product, asked) => RequestAction::Decision(Question {
            kind: Kind::Price,
            point: 0,
            product,
            asked,
            slot: config.price_slot(),
        }),
        Request::OpenPoint(n) => RequestAction::Command(n, Command::OpenPoint),
        Request::ClosePoint(n) => RequestAction::Command(n, Command::ClosePoint),
        Request::Suspend(n) => RequestAction::Command(n, Command::Suspend),
        Request::Resume(n) => RequestAction::Command(n, Command::Resume),
        Request::Stop(n) => RequestAction::Command(n, Command::Stop),
        Request::Lock(n, number) => RequestAction::Command(n, Command::Lock(number)),
        Request::Unlock(n, number) => RequestAction::Command(n, Command::Unlock(number)),
        Request::Clear(n, number) => RequestAction::Command(n, Command::Clear(number)),
        Request::Show(n) => RequestAction::Show(n),
    }
}
