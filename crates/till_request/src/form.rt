//! The forms that a line can have: which fixed words it has, and where its values are.
ghost use Rattle.std.specs.Prelude.{◌≡◌, ◌≤◌, ◌∷◌, [], map, find, length, IfSome, true};
ghost use Rattle.till_request.specs.Grammar.{text, template, sender, allows, amount_request, point_request};
ghost use Rattle.till_request.specs.Grammar.{transaction_request, report_event, all_forms, part_fits, fits, suits, by_form};
ghost use Rattle.till_request.specs.declared.form.Part.TheVariants.{Value};
ghost use Rattle.till_request.specs.declared.form.Form.TheVariants as forms;

use crate::act::{Request, Role};
use crate::form::RequestByForm::{Amount, Point, Transaction};
use bpf_model::context::Layout;
use fuelling_point::DispenserEvent;

/// The verb of a request with an amount or a price, as in `till T release P A`.
#[derive(Clone, Copy)]
pub enum AmountVerb {
    Release,
    Preset,
    Price,
}

/// The verb of a request with a point alone, as in `till T open P`.
#[derive(Clone, Copy)]
pub enum PointVerb {
    Open,
    Close,
    Show,
    Suspend,
    Resume,
    Stop,
}

/// The verb of a request with a transaction, as in `till T lock P X`.
#[derive(Clone, Copy)]
pub enum TransactionVerb {
    Lock,
    Unlock,
    Clear,
}

/// The verb of a dispenser's line that ends with it, as in `disp P down`.
#[derive(Clone, Copy)]
pub enum ReportVerb {
    Down,
    Started,
    Fault,
    Repaired,
    Order,
}

/// The form of a line: its fixed words, and the places of its values.
#[derive(Clone, Copy)]
pub enum Form {
    Amount(AmountVerb),
    Point(PointVerb),
    Transaction(TransactionVerb),
    Report(ReportVerb),
    /// `disp P up N`: nozzle N was lifted.
    Up,
    /// `disp P flow A V`: A cents and V centilitres were delivered so far.
    Flow,
    /// `load SLOT MASK HEX`, or `load2 SLOT MASK HEX` for a program whose context has 80 bytes.
    Load(Layout),
}

/// A request by its line's form: the verb, and the numbers after it in their order.
#[derive(Clone, Copy)]
pub enum RequestByForm {
    /// A point and an amount in cents; for `Price` a product and a price in thousandths of the currency per litre.
    Amount(AmountVerb, u32, u64),
    /// A point.
    Point(PointVerb, u32),
    /// A point, and one of its transactions.
    Transaction(TransactionVerb, u32, u32),
}

/// A word of a form: a fixed one, or a place where a line has a value.
#[derive(Clone, Copy)]
pub enum Part {
    Till,
    Disp,
    Verb(Form),
    Value,
}

/// The forms of three words, in the order of comparison.
const THREE: [Form; 5] = [
    Form::Report(ReportVerb::Down),
    Form::Report(ReportVerb::Started),
    Form::Report(ReportVerb::Fault),
    Form::Report(ReportVerb::Repaired),
    Form::Report(ReportVerb::Order),
];

/// The forms of four words, in the order of comparison.
const FOUR: [Form; 9] = [
    Form::Point(PointVerb::Open),
    Form::Point(PointVerb::Close),
    Form::Point(PointVerb::Show),
    Form::Point(PointVerb::Suspend),
    Form::Point(PointVerb::Resume),
    Form::Point(PointVerb::Stop),
    Form::Up,
    Form::Load(Layout::One),
    Form::Load(Layout::Two),
];

/// The forms of five words, in the order of comparison.
const FIVE: [Form; 7] = [
    Form::Amount(AmountVerb::Release),
    Form::Amount(AmountVerb::Preset),
    Form::Amount(AmountVerb::Price),
    Form::Transaction(TransactionVerb::Lock),
    Form::Transaction(TransactionVerb::Unlock),
    Form::Transaction(TransactionVerb::Clear),
    Form::Flow,
];

/// The fixed word by which a form is known, such as `release` or `load`.
#[inline(always)]
pub fn text_of(form: Form) -> &'static str
    ensures word { result.now ≡ text form }
    ensures short { length result.now ≤ 8 }
{
    match form {
        Form::Load(Layout::One) => "load",
        Form::Load(Layout::Two) => "load2",
        Form::Up => "up",
        Form::Flow => "flow",
        Form::Amount(AmountVerb::Release) => "release",
        Form::Amount(AmountVerb::Preset) => "preset",
        Form::Amount(AmountVerb::Price) => "price",
        Form::Point(PointVerb::Open) => "open",
        Form::Point(PointVerb::Close) => "close",
        Form::Point(PointVerb::Show) => "show",
        Form::Point(PointVerb::Suspend) => "suspend",
        Form::Point(PointVerb::Resume) => "resume",
        Form::Point(PointVerb::Stop) => "stop",
        Form::Transaction(TransactionVerb::Lock) => "lock",
        Form::Transaction(TransactionVerb::Unlock) => "unlock",
        Form::Transaction(TransactionVerb::Clear) => "clear",
        Form::Report(ReportVerb::Down) => "down",
        Form::Report(ReportVerb::Started) => "started",
        Form::Report(ReportVerb::Fault) => "fault",
        Form::Report(ReportVerb::Repaired) => "repaired",
        Form::Report(ReportVerb::Order) => "order",
    }
}

/// Whether a role may send the lines of `by`: `Till`, `Dispenser` or `Owner`. Of which till or point the line is,
/// `is_within_role` checks.
#[inline(always)]
pub fn may_send(role: Role, by: Role) -> bool
    ensures { result ≡ allows role by }
{
    match role {
        Role::All => true,
        Role::Till | Role::OneTill(..) => matches!(by, Role::Till),
        Role::Dispenser | Role::SomePoints(..) => matches!(by, Role::Dispenser),
        Role::Owner | Role::DaysOwner => matches!(by, Role::Owner),
    }
}

/// Whose lines have this form: `Till`, `Dispenser` or `Owner`.
#[inline(always)]
pub fn sender_of(form: Form) -> Role
    ensures { result ≡ sender form }
{
    match form {
        Form::Amount(_) | Form::Point(_) | Form::Transaction(_) => Role::Till,
        Form::Report(_) | Form::Up | Form::Flow => Role::Dispenser,
        Form::Load(_) => Role::Owner,
    }
}

/// Whether `word` is the part's fixed word, or isn't empty where the part is a value.
#[inline(always)]
fn is_part(word: &[u8], part: Part) -> bool
    ensures { result ≡ part_fits part word.now }
{
    match part {
        Part::Till => word == b"till".as_slice(),
        Part::Disp => word == b"disp".as_slice(),
        Part::Verb(form) => word == text_of(form).as_bytes(),
        Part::Value => !word.is_empty(),
    }
}

/// The verb, which is `third`, is compared first, since forms differ most in it.
#[tactic(auto, using(crate::proofs::Fitting::third_last))]
#[inline(always)]
fn three_fit(first: Part, third: Part, words: &[&[u8]]) -> bool
    ensures { result ≡ fits (first ∷ Value ∷ third ∷ []) (map (λ w. w.now) words.now) }
{
    match words {
        [a, b, c] => is_part(c, third) && is_part(a, first) && is_part(b, Part::Value),
        _ => false,
    }
}

#[tactic(auto, using(crate::proofs::Fitting::third_first))]
#[inline(always)]
fn four_fit(first: Part, third: Part, words: &[&[u8]]) -> bool
    ensures { result ≡ fits (first ∷ Value ∷ third ∷ Value ∷ []) (map (λ w. w.now) words.now) }
{
    match words {
        [a, b, c, d] => {
            is_part(c, third)
                && is_part(a, first)
                && is_part(b, Part::Value)
                && is_part(d, Part::Value)
        }
        _ => false,
    }
}

#[tactic(auto, using(crate::proofs::Fitting::third_first))]
#[inline(always)]
fn five_fit(first: Part, third: Part, words: &[&[u8]]) -> bool
    ensures { result ≡ fits (first ∷ Value ∷ third ∷ Value ∷ Value ∷ []) (map (λ w. w.now) words.now) }
{
    match words {
        [a, b, c, d, e] => {
            is_part(c, third)
                && is_part(a, first)
                && is_part(b, Part::Value)
                && is_part(d, Part::Value)
                && is_part(e, Part::Value)
        }
        _ => false,
    }
}

#[inline(always)]
fn load_fits(layout: Layout, words: &[&[u8]]) -> bool
    ensures { result ≡ fits (template (forms.Load layout)) (map (λ w. w.now) words.now) }
{
    match words {
        [a, b, c, d] => {
            is_part(a, Part::Verb(Form::Load(layout)))
                && is_part(b, Part::Value)
                && is_part(c, Part::Value)
                && is_part(d, Part::Value)
        }
        _ => false,
    }
}

/// Whether the words have this form: as many words, the fixed ones in their places, and no value empty.
#[inline(always)]
fn has_form(form: Form, words: &[&[u8]]) -> bool
    ensures { result ≡ fits (template form) (map (λ w. w.now) words.now) }
{
    match form {
        Form::Amount(_) | Form::Transaction(_) => five_fit(Part::Till, Part::Verb(form), words),
        Form::Point(_) => four_fit(Part::Till, Part::Verb(form), words),
        Form::Report(_) => three_fit(Part::Disp, Part::Verb(form), words),
        Form::Up => four_fit(Part::Disp, Part::Verb(form), words),
        Form::Flow => five_fit(Part::Disp, Part::Verb(form), words),
        Form::Load(layout) => load_fits(layout, words),
    }
}

/// Whether the words have this form, and the role may send it, of some till or point.
#[inline(always)]
fn is_suited(role: Role, words: &[&[u8]], form: Form) -> bool
    ensures { result ≡ suits role (map (λ w. w.now) words.now) form }
{
    may_send(role, sender_of(form)) && has_form(form, words)
}

#[inline(always)]
fn first_suited(role: Role, words: &[&[u8]], forms: &[Form]) -> Option<Form>
    ensures found { result ≡ find (suits role (map (λ w. w.now) words.now)) forms.now }
    ensures suited { IfSome result (λ form. suits role (map (λ w. w.now) words.now) form ≡ true) }
{
    for form in forms {
        if is_suited(role, words, *form) {
            return Some(*form);
        }
    }
    None
}

/// The form of the words, if the role may send it, of some till or point.
#[inline(always)]
pub fn form_of(role: Role, words: &[&[u8]]) -> Option<Form>
    ensures found { result ≡ find (suits role (map (λ w. w.now) words.now)) all_forms }
    ensures suited { IfSome result (λ form. suits role (map (λ w. w.now) words.now) form ≡ true) }
{
    match words.len() {
        3 => first_suited(role, words, &THREE),
        4 => first_suited(role, words, &FOUR),
        5 => first_suited(role, words, &FIVE),
        _ => None,
    }
}

/// The request of this verb and these numbers.
pub fn request_of_amount(verb: AmountVerb, subject: u32, amount: u64) -> Request
    ensures { result ≡ amount_request verb subject amount }
{
    match verb {
        AmountVerb::Release => Request::Release(subject, amount),
        AmountVerb::Preset => Request::Preset(subject, amount),
        AmountVerb::Price => Request::Price(subject, amount),
    }
}

pub fn request_of_point(verb: PointVerb, point: u32) -> Request
    ensures { result ≡ point_request verb point }
{
    match verb {
        PointVerb::Open => Request::OpenPoint(point),
        PointVerb::Close => Request::ClosePoint(point),
        PointVerb::Show => Request::Show(point),
        PointVerb::Suspend => Request::Suspend(point),
        PointVerb::Resume => Request::Resume(point),
        PointVerb::Stop => Request::Stop(point),
    }
}

pub fn request_of_transaction(verb: TransactionVerb, point: u32, number: u32) -> Request
    ensures { result ≡ transaction_request verb point number }
{
    match verb {
        TransactionVerb::Lock => Request::Lock(point, number),
        TransactionVerb::Unlock => Request::Unlock(point, number),
        TransactionVerb::Clear => Request::Clear(point, number),
    }
}

impl Request {
    pub fn by_form(self) -> RequestByForm
        ensures { result ≡ by_form self }
    {
        match self {
            Request::Release(point, amount) => Amount(AmountVerb::Release, point, amount),
            Request::Preset(point, amount) => Amount(AmountVerb::Preset, point, amount),
            Request::Price(product, price) => Amount(AmountVerb::Price, product, price),
            Request::OpenPoint(point) => Point(PointVerb::Open, point),
            Request::ClosePoint(point) => Point(PointVerb::Close, point),
            Request::Show(point) => Point(PointVerb::Show, point),
            Request::Suspend(point) => Point(PointVerb::Suspend, point),
            Request::Resume(point) => Point(PointVerb::Resume, point),
            Request::Stop(point) => Point(PointVerb::Stop, point),
            Request::Lock(point, number) => Transaction(TransactionVerb::Lock, point, number),
            Request::Unlock(point, number) => Transaction(TransactionVerb::Unlock, point, number),
            Request::Clear(point, number) => Transaction(TransactionVerb::Clear, point, number),
        }
    }
}

pub fn event_of_report(verb: ReportVerb) -> DispenserEvent
    ensures { result ≡ report_event verb }
{
    match verb {
        ReportVerb::Down => DispenserEvent::Down,
        ReportVerb::Started => DispenserEvent::Started,
        ReportVerb::Fault => DispenserEvent::Fault,
        ReportVerb::Repaired => DispenserEvent::Repaired,
        ReportVerb::Order => DispenserEvent::TakeOrder,
    }
}
