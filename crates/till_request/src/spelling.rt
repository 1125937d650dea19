//! Writes acts as lines.
ghost use Rattle.std.specs.Prelude.{◌≡◌, ◌+◌, ◌≤◌, ◌++◌, [], length};
ghost use Rattle.till_request.specs.Spelling.{IsOneSpelling, ReadsBack, event_form, load_word as load_by};
ghost use Rattle.till_request.specs.Spelling.{request_text, spelling};

use crate::act::{Act, Request};
use crate::form::Form::{Flow, Load, Report, Up};
use crate::form::ReportVerb::{Down, Fault, Order, Repaired, Started};
use crate::form::{Form, RequestByForm, text_of};
use crate::short_text::{ShortText, put_word, put_word_number};
use bpf_model::context::Layout;
use fuelling_point::DispenserEvent;
use std::fmt;

/// A law: for the role `All` the line of each act, of any length, is read as that act; but a load of no bytes.
pub fn spelling_is_read()
    // proved: Each act's text is read back as that act
    ensures { ReadsBack }
{}

/// A law: words that are read as an act, but for a load, are the words of its spelling.
pub fn act_has_one_spelling()
    // proved: Words read as an act, but for a load, are its spelling
    ensures { IsOneSpelling }
{}

/// Puts a request's words; needs room for 50 more bytes.
fn put_request(text: &mut ShortText, request: Request)
    requires { length text.old.bytes + 50 ≤ 192 }
    ensures { text.new.bytes ≡ text.old.bytes ++ request_text request }
{
    match request.by_form() {
        RequestByForm::Amount(verb, subject, amount) => {
            text.push_str(text_of(Form::Amount(verb)));
            put_word_number(text, u64::from(subject));
            put_word_number(text, amount);
        }
        RequestByForm::Point(verb, point) => {
            text.push_str(text_of(Form::Point(verb)));
            put_word_number(text, u64::from(point));
        }
        RequestByForm::Transaction(verb, point, number) => {
            text.push_str(text_of(Form::Transaction(verb)));
            put_word_number(text, u64::from(point));
            put_word_number(text, u64::from(number));
        }
    }
}

impl fmt::Display for Request {
    ghost use Rattle.std.specs.Prelude.{Some};
    ghost use Rattle.till_request.specs.Spelling.{request_text};

    ghost output = { λ r. Some (request_text r) };

    fn fmt<W: fmt::Write>(&self, f: &mut fmt::Formatter<W>) -> fmt::Result {
        let mut text = ShortText::new();
        put_request(&mut text, *self);
        f.write_str(text.as_str())
    }
}

/// Puts the line of a till's request, without its LF, into an empty text.
pub fn put_till_line(text: &mut ShortText, till: u32, request: Request)
    requires { text.old.bytes ≡ [] }
    ensures { text.new.bytes ≡ spelling (Act.Till till request) }
{
    text.push_str("till");
    put_word_number(text, u64::from(till));
    text.push_str(" ");
    put_request(text, request);
}

pub fn event_form(event: DispenserEvent) -> Form
    ensures { result ≡ event_form event }
{
    match event {
        DispenserEvent::Up(_) => Up,
        DispenserEvent::Down => Report(Down),
        DispenserEvent::Started => Report(Started),
        DispenserEvent::Flowed(_, _) => Flow,
        DispenserEvent::Fault => Report(Fault),
        DispenserEvent::Repaired => Report(Repaired),
        DispenserEvent::TakeOrder => Report(Order),
    }
}

/// Puts the line of a dispenser's event, without its LF, into an empty text.
pub fn put_dispenser_line(text: &mut ShortText, point: u32, event: DispenserEvent)
    requires { text.old.bytes ≡ [] }
    ensures { text.new.bytes ≡ spelling (Act.Dispenser point event) }
{
    text.push_str("disp");
    put_word_number(text, u64::from(point));
    put_word(text, text_of(event_form(event)));
    match event {
        DispenserEvent::Up(nozzle) => put_word_number(text, u64::from(nozzle)),
        DispenserEvent::Flowed(amount, volume) => {
            put_word_number(text, amount);
            put_word_number(text, volume);
        }
        DispenserEvent::Down
        | DispenserEvent::Started
        | DispenserEvent::Fault
        | DispenserEvent::Repaired
        | DispenserEvent::TakeOrder => {}
    }
}

/// The first word of a load: `load` for `Layout::One`, `load2` for `Layout::Two`.
pub fn load_word(layout: Layout) -> &'static str
    ensures { result.now ≡ load_by layout }
{
    text_of(Load(layout))
}
