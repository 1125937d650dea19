//! Writes the text of an opening.

ghost use Rattle.std.specs.Prelude.{◌≡◌, ◌≤◌, ◌∷◌, [], IfOk, IsOk, None};
ghost use Rattle.std.specs.Prelude.{OnOk, length, map, option_to_list, string_bytes};
ghost use Rattle.days.specs.declared.line.Line.{Line};
ghost use Rattle.days.specs.Text.{AddsLines, counter_lines, head_lines, numbered_lines, opening_text, point_lines};
ghost use Rattle.days.specs.Text.{price_lines, version_lines, yes_or_no};

use crate::file::OpeningFile;
use fuelling_point::{Order, Point, Snapshot, Transaction};
use site_core::Version;
use std::alloc::{AllocError, Global};
use std::fmt;
use till_request::spelling::load_word;
use verifier::Counters;

/// A pending order as one word, `none` for none.
#[derive(Clone, Copy)]
struct OrderWord(Option<Order>);

impl fmt::Display for OrderWord {
    ghost use Rattle.std.specs.Prelude.{Some};
    ghost use Rattle.days.specs.Text.{order_word};

    ghost output = { λ order. Some (order_word order.0) };

    fn fmt<W: fmt::Write>(&self, f: &mut fmt::Formatter<W>) -> fmt::Result {
        match self.0 {
            None => write!(f, "none"),
            Some(Order::Authorise(amount)) => write!(f, "authorise:{amount}"),
            Some(Order::Suspend) => write!(f, "suspend"),
            Some(Order::Resume) => write!(f, "resume"),
            Some(Order::Stop) => write!(f, "stop"),
        }
    }
}

fn yes_or_no(answer: bool) -> &'static str
    ensures { result.now ≡ yes_or_no answer }
{
    if answer { "yes" } else { "no" }
}

/// Appends the first three lines.
fn put_head(text: &mut String, file: &OpeningFile) -> Result<(), AllocError>
    ensures { OnOk result (AddsLines (string_bytes text.old) (string_bytes text.new) (head_lines file.now)) }
{
    let opening = &file.opening;
    write!(
        text,
        "day {}\ncleared {} {}\nversions {}\n",
        file.day, opening.cleared, opening.clears, opening.versions
    )
}

fn put_rule(
    alloc: Global,
    text: &mut String,
    slot: u64,
    rule: &Option<Version>,
) -> Result<(), AllocError>
    ensures lines { OnOk result (AddsLines (string_bytes text.old) (string_bytes text.new) (version_lines slot
        rule.now)) }
    ensures none { rule.now ≡ None → IsOk result }
{
    let Some(Version { number, program }) = rule else {
        return Ok(());
    };
    let (mask, load) = (program.declared(), load_word(program.layout()));
    let bytes = hex::encode(alloc, program.bytes())?;
    write!(text, "version {slot} {number} {mask} {load} {bytes}\n")
}

fn put_rules(alloc: Global, text: &mut String, rules: &[Option<Version>]) -> Result<(), AllocError>
    ensures { OnOk result (AddsLines (string_bytes text.old) (string_bytes text.new)
        (numbered_lines version_lines 0 rules.now)) }
{
    for slot in 0..rules.len() {
        put_rule(alloc, text, slot as u64, &rules[slot])?;
    }
    Ok(())
}

/// Appends the line of a product, unless it has no price.
fn put_price(text: &mut String, product: u32, price: u32) -> Result<(), AllocError>
    ensures lines { OnOk result (AddsLines (string_bytes text.old) (string_bytes text.new) (price_lines product price)) }
    ensures none { price ≡ 0 → IsOk result }
{
    if price == 0 {
        return Ok(());
    }
    write!(text, "price {product} {price}\n")
}

/// Appends the lines of products, from 1 on and at most 8, that have a price.
fn put_prices(text: &mut String, prices: &[u32]) -> Result<(), AllocError>
    requires { length prices.now ≤ 8 }
    ensures { OnOk result (AddsLines (string_bytes text.old) (string_bytes text.new)
        (numbered_lines price_lines 1 prices.now)) }
{
    for at in 0..prices.len() {
        put_price(text, at as u32 + 1, prices[at])?;
    }
    Ok(())
}

/// Appends the line of a counter, unless its value and its bound are 0.
fn put_counter(text: &mut String, counter: u32, value: u64, bound: u64) -> Result<(), AllocError>
    ensures lines { OnOk result (AddsLines (string_bytes text.old) (string_bytes text.new)
        (counter_lines counter (value, bound))) }
    ensures none { value ≡ 0 → bound ≡ 0 → IsOk result }
{
    if value == 0 && bound == 0 {
        return Ok(());
    }
    write!(text, "counter {counter} {value} {bound}\n")
}

/// Appends the line of an unpaid transaction of point `number`. Product and price are left out if both are 0.
fn put_transaction(text: &mut String, number: u64, t: Transaction) -> Result<(), AllocError>
    ensures { OnOk result (AddsLines (string_bytes text.old) (string_bytes text.new) (Line.Unpaid number t ∷ [])) }
{
    if t.product == 0 && t.price == 0 {
        return write!(
            text,
            "unpaid {number} {} {} {} {}\n",
            t.number, t.amount, t.volume, t.holder
        );
    }
    write!(
        text,
        "unpaid {number} {} {} {} {} {} {}\n",
        t.number, t.amount, t.volume, t.holder, t.product, t.price
    )
}

fn put_unpaid(text: &mut String, number: u64, unpaid: Option<Transaction>) -> Result<(), AllocError>
    ensures lines { OnOk result (AddsLines (string_bytes text.old) (string_bytes text.new)
        (map (λ t. Line.Unpaid number t) (option_to_list unpaid))) }
    ensures none { unpaid ≡ None → IsOk result }
{
    match unpaid {
        None => Ok(()),
        Some(t) => put_transaction(text, number, t),
    }
}

/// Appends the line of a point, counted from 1, without its unpaid transactions.
fn put_snapshot(text: &mut String, number: u64, s: &Snapshot) -> Result<(), AllocError>
    ensures { OnOk result (AddsLines (string_bytes text.old) (string_bytes text.new) (Line.Point number s.now ∷ [])) }
{
    let (state, order, taken) = (s.state.number(), OrderWord(s.order), yes_or_no(s.taken));
    write!(
        text,
        "point {number} {state} {} {} {} {} {} {order} {taken} {}\n",
        s.nozzle, s.preset, s.limit, s.amount, s.volume, s.last
    )
}

/// Appends the line of a point, counted from 1, and those of its unpaid transactions.
fn put_point(text: &mut String, number: u64, point: &Point) -> Result<(), AllocError>
    ensures { OnOk result (AddsLines (string_bytes text.old) (string_bytes text.new) (point_lines number point.now)) }
{
    let snapshot = point.snapshot();
    put_snapshot(text, number, &snapshot)?;
    put_unpaid(text, number, snapshot.unpaid[0])?;
    put_unpaid(text, number, snapshot.unpaid[1])
}

fn put_counters(text: &mut String, counters: &Counters) -> Result<(), AllocError>
    ensures { OnOk result (AddsLines (string_bytes text.old) (string_bytes text.new)
        (numbered_lines counter_lines 0 counters.now)) }
{
    // This read brings that there are 32 counters.
    let _first = counters.get(0);
    for counter in 0..32u32 {
        let (value, bound) = (counters.get(counter), counters.bound(counter));
        put_counter(text, counter, value, bound)?;
    }
    Ok(())
}

fn put_points(text: &mut String, points: &[Point]) -> Result<(), AllocError>
    ensures { OnOk result (AddsLines (string_bytes text.old) (string_bytes text.new)
        (numbered_lines point_lines 1 points.now)) }
{
    for at in 0..points.len() {
        put_point(text, at as u64 + 1, &points[at])?;
    }
    Ok(())
}

fn put_journal(alloc: Global, text: &mut String, file: &OpeningFile) -> Result<(), AllocError>
    ensures { OnOk result (AddsLines (string_bytes text.old) (string_bytes text.new)
        (Line.Journal file.now.entries file.now.digest ∷ [])) }
{
    let digest = hex::encode(alloc, &file.digest)?;
    write!(text, "journal {} {digest}\n", file.entries)
}

/// The one text of an opening: its lines, each with an LF.
#[tactic(auto, using(crate::proofs::Written::whole_text))]
pub fn opening_text(alloc: Global, file: &OpeningFile) -> Result<String, AllocError>
    // proved: It is the text of the opening | price_of_an_unpaid_is_lost
    // proved: Transactions are numbered on in it
    // proved: An unpaid transaction keeps product and price in it | price_of_an_unpaid_is_lost
    ensures { IfOk result (λ text. string_bytes text ≡ opening_text file.now) }
{
    let opening = &file.opening;
    let mut text = String::new(alloc);
    put_head(&mut text, file)?;
    put_rules(alloc, &mut text, &opening.rules)?;
    put_prices(&mut text, &opening.prices)?;
    put_counters(&mut text, &opening.counters)?;
    put_points(&mut text, &opening.points)?;
    put_journal(alloc, &mut text, file)?;
    Ok(text)
}
