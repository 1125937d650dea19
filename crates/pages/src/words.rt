//! Describes the entries of a journal in words, for the page.
use crate::builder::TextBuilder;
use crate::names::{STATES, state_name};
use crate::parts::{NONE, digits, hundredths};
use crate::texts::Text;
use decision_journal::Entry;
use fuelling_point::{DispenserEvent, Order};
use till_request::form::text_of;
use till_request::{Act, AmountVerb, Form, Reply, Request, RequestByForm, Role};

/// A template with at most three marks `{}`, and the texts in place of them; the rest are `NONE`.
#[derive(Clone, Copy)]
struct Phrase(&'static str, Text, Text, Text);

fn of_texts(form: &'static str, first: Text, second: Text) -> Phrase {
    Phrase(form, first, second, NONE)
}

fn of_number(form: &'static str, number: u32) -> Phrase {
    of_texts(form, digits(number), NONE)
}

/// `amount` is in cents.
fn of_amount(form: &'static str, number: u32, amount: u64) -> Phrase {
    of_texts(form, digits(number), hundredths(amount))
}

fn plain(form: &'static str) -> Phrase {
    of_texts(form, NONE, NONE)
}

fn add_phrase(html: &mut TextBuilder, phrase: Phrase) {
    let Phrase(form, first, second, third) = phrase;
    html.fill(form, &[first, second, third]);
}

pub(crate) fn role_name(role: Role) -> &'static str {
    match role {
        Role::Till | Role::OneTill(..) => "till",
        Role::Dispenser | Role::SomePoints(..) => "dispenser",
        Role::Owner | Role::DaysOwner | Role::All => "owner",
    }
}

fn verb_text(form: Form) -> Text {
    Text::Words(text_of(form))
}

/// `amount` is in cents, and `subject` a point; or they are a price in thousandths, and a product.
fn amount_words(verb: AmountVerb, subject: u32, amount: u64) -> Phrase {
    match verb {
        AmountVerb::Release => of_amount("release point {} up to {}", subject, amount),
        AmountVerb::Preset => of_amount("preset point {} to {}", subject, amount),
        AmountVerb::Price => of_texts(
            "price of product {} to {}",
            digits(subject),
            Text::Thousandths(amount),
        ),
    }
}

fn request_words(request: &Request) -> Phrase {
    match request.by_form() {
        RequestByForm::Amount(verb, subject, amount) => amount_words(verb, subject, amount),
        RequestByForm::Point(verb, point) => of_texts(
            "{} point {}",
            verb_text(Form::Point(verb)),
            digits(point),
        ),
        RequestByForm::Transaction(verb, point, number) => Phrase(
            "{} transaction {} at point {}",
            verb_text(Form::Transaction(verb)),
            digits(number),
            digits(point),
        ),
    }
}

fn event_words(event: &DispenserEvent) -> Phrase {
    match *event {
        DispenserEvent::Up(nozzle) => of_number("nozzle {} is up", nozzle),
        DispenserEvent::Down => plain("the nozzle is down"),
        DispenserEvent::Started => plain("the delivery began"),
        DispenserEvent::Flowed(amount, volume) => of_texts(
            "{} so far, {} litres",
            hundredths(amount),
            hundredths(volume),
        ),
        DispenserEvent::Fault => plain("fault"),
        DispenserEvent::Repaired => plain("repaired"),
        DispenserEvent::TakeOrder => plain("which order is pending?"),
    }
}

/// Who sent the act, and the act itself.
fn act_words(act: &Act) -> (Phrase, Phrase) {
    match act {
        Act::Till { till, request } => (of_number("till {}", *till), request_words(request)),
        Act::Dispenser { point, event } => (
            of_number("dispenser of point {}", *point),
            event_words(event),
        ),
        Act::Load { slot, .. } => (plain("owner"), of_number("load a rule into slot {}", *slot)),
    }
}

fn order_words(order: Order) -> Phrase {
    match order {
        Order::Authorise(amount) => of_texts("order: deliver up to {}", hundredths(amount), NONE),
        Order::Suspend => plain("order: suspend"),
        Order::Resume => plain("order: resume"),
        Order::Stop => plain("order: stop"),
    }
}

pub(crate) fn order_name(order: Option<Order>) -> &'static str {
    match order {
        None => "",
        Some(Order::Authorise(_)) => "authorise",
        Some(Order::Suspend) => "suspend",
        Some(Order::Resume) => "resume",
        Some(Order::Stop) => "stop",
    }
}

/// `unknown` for a number over 9.
fn state_numbered(number: u32) -> &'static str {
    match STATES.get((number as usize).saturating_sub(1)) {
        None => "unknown",
        Some(state) => state_name(*state),
    }
}

fn asks_price(act: &Act) -> bool {
    matches!(
        act,
        Act::Till {
            request: Request::Price(_, _),
            ..
        }
    )
}

/// `value` is a price in thousandths, or else an amount in cents.
fn grant_words(is_price: bool, value: u64, version: u32) -> Phrase {
    let granted = if is_price {
        Text::Thousandths(value)
    } else {
        hundredths(value)
    };
    of_texts("granted {} by version {}", granted, digits(version))
}

/// `value` is what the refusal names: a state for S22, a slot for S23, a version for S24.
fn refusal_words(number: u32, value: Option<u32>) -> Phrase {
    let refusal = Text::Refusal(number);
    let Some(value) = value else {
        return of_texts("{}", refusal, NONE);
    };
    match number {
        22 => of_texts("{}: {}", refusal, Text::Words(state_numbered(value))),
        23 => of_texts("{}: slot {}", refusal, digits(value)),
        24 => of_texts("{}: version {}", refusal, digits(value)),
        _ => of_texts("{}: {}", refusal, digits(value)),
    }
}

fn reply_words(entry: &Entry) -> Phrase {
    match entry.reply {
        Reply::Done => plain("done"),
        Reply::Granted(value, version) => grant_words(asks_price(&entry.act), value, version),
        Reply::Version(version) => of_number("version {}", version),
        Reply::Order(order) => order_words(order),
        Reply::Point { state, unpaid, .. } => of_texts(
            "{}, {} unpaid",
            Text::Words(state_numbered(state)),
            digits(unpaid),
        ),
        Reply::Refused(number, value) => refusal_words(number, value),
    }
}

pub(crate) fn add_entry(html: &mut TextBuilder, entry: &Entry) {
    let (who, what) = act_words(&entry.act);
    html.fill(
        "<tr><th scope=\"row\">{}</th><td>{}</td><td class=\"words\">",
        &[digits(entry.number), Text::Moment(entry.moment)],
    );
    add_phrase(html, who);
    html.add("</td><td class=\"words\">");
    add_phrase(html, what);
    html.add("</td><td class=\"words\">");
    add_phrase(html, reply_words(entry));
    html.add("</td></tr>\n");
}
