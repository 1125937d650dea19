//! Parses the lines that enter nothing, since they look at the site or end its day, and writes the answers to them.
ghost use Rattle.std.specs.Prelude.{◌≡◌, ◌≢◌, ◌++◌, Err, OnOk, codes, decimal, drop, map};
ghost use Rattle.std.specs.List.{flat_map};
ghost use Rattle.till_request.specs.Answer.{reply_text};
ghost use Rattle.till_request.specs.Dates.{date_of};
ghost use Rattle.till_request.specs.Gives.{Gives};
ghost use Rattle.till_request.specs.Grammar.{IsLoad, words as words_of};
ghost use Rattle.till_request.specs.Looks.{AsksForActs, ends_day, fault_told, has_some_form, is_look, is_some_look, line_asked};
ghost use Rattle.till_request.specs.Looks.{look_asked, look_of_point, look_of_word, look_of_words, look_within};
ghost use Rattle.till_request.specs.Looks.{tells_stray, words_answered, words_asked};
ghost use Rattle.till_request.specs.Looks.{date_behind, day_text, numbers_text, rows_text, seen_text, sight_line, spread};

use crate::act::{Act, LineFault, Reply, Role, Stray};
use crate::dates::{date_of, date_text};
use crate::form::form_of;
use crate::grammar::{LINE_WORDS, is_one_of, parse_words};
use crate::line::LINE_BYTES;
use crate::numbers::number_u32;
use crate::parts::split_at_most;
use crate::short_text::{ShortText, put_reply};
use itoa::{Buffer, Integer};
use std::alloc::{AllocError, Global};

/// What a line asks to see.
#[derive(Clone, Copy, PartialEq)]
pub enum LookAt {
    Day,
    /// A fuelling point, counted from 1.
    Point(u32),
    Prices,
    /// The unpaid transactions of a fuelling point, counted from 1.
    Unpaid(u32),
    AllUnpaid,
    Rules,
    Counters,
}

/// What a line asks for.
#[derive(Drop)]
pub enum Asked {
    Act(Act),
    Look(LookAt),
    /// That the day ends. The answer is the number of the day that is served then.
    NextDay,
}

/// What a look answers with.
#[derive(Drop)]
pub enum Seen {
    Day {
        /// From 1.
        number: u32,
        /// The moment of its first entry that bears one, in seconds since the start of 1970; 0 if none does.
        since: u64,
    },
    /// A point, as a till's `show` is answered, or the refusal of that.
    Reply(Reply),
    /// Of products 1 to 8, in thousandths of the currency per litre, 0 for none.
    Prices([u32; 8]),
    /// A row for each unpaid transaction: point, number, product, price, volume, amount, holding till or 0.
    Unpaid(Vec<[u64; 7]>),
    /// A row for each slot that isn't empty: slot, version, number of the entry that loaded it or 0.
    Rules(Vec<[u64; 3]>),
    /// A row for each counter whose bound isn't 0: number, value, bound.
    Counters(Vec<[u64; 3]>),
}

/// The answer to a look: `entries` is the number of entries that it stands behind.
#[derive(Drop)]
pub struct Sight {
    pub entries: u32,
    pub seen: Seen,
}

/// Whether the first word is `look`.
fn is_look(words: &[&[u8]]) -> bool
    ensures { result ≡ is_look (map (λ w. w.now) words.now) }
{
    match words {
        [first, ..] => *first == b"look".as_slice(),
        [] => false,
    }
}

/// Whether the words are those of the line that ends a day, and a sender of this role may send it.
fn ends_day(role: Role, words: &[&[u8]]) -> bool
    ensures { result ≡ ends_day role (map (λ w. w.now) words.now) }
{
    let Role::DaysOwner = role else {
        return false;
    };
    match words {
        [word] => *word == b"day".as_slice(),
        _ => false,
    }
}

fn look_of_word(word: &[u8]) -> Result<LookAt, LineFault>
    ensures value { result ≡ look_of_word word.now }
    ensures memory { result ≢ Err LineFault.OutOfMemory }
{
    if word == b"day".as_slice() {
        Ok(LookAt::Day)
    } else if word == b"prices".as_slice() {
        Ok(LookAt::Prices)
    } else if word == b"unpaid".as_slice() {
        Ok(LookAt::AllUnpaid)
    } else if word == b"rules".as_slice() {
        Ok(LookAt::Rules)
    } else if word == b"counters".as_slice() {
        Ok(LookAt::Counters)
    } else {
        Err(LineFault::BadLine)
    }
}

fn look_of_point(word: &[u8], point: &[u8]) -> Result<LookAt, LineFault>
    ensures value { result ≡ look_of_point word.now point.now }
    ensures memory { result ≢ Err LineFault.OutOfMemory }
{
    if point.is_empty() {
        Err(LineFault::BadLine)
    } else if word == b"point".as_slice() {
        Ok(LookAt::Point(number_u32(point)?))
    } else if word == b"unpaid".as_slice() {
        Ok(LookAt::Unpaid(number_u32(point)?))
    } else {
        Err(LineFault::BadLine)
    }
}

/// What the words ask to see, of which the first, which isn't read, is `look`.
fn look_behind_first(words: &[&[u8]]) -> Result<LookAt, LineFault>
    ensures value { result ≡ look_asked (drop 1 (map (λ w. w.now) words.now)) }
    ensures memory { result ≢ Err LineFault.OutOfMemory }
{
    match words {
        [_, word] => look_of_word(word),
        [_, word, point] => look_of_point(word, point),
        _ => Err(LineFault::BadLine),
    }
}

/// Whether a sender of this role may see this.
fn look_within(role: Role, look: LookAt) -> bool
    ensures { result ≡ look_within role look }
{
    let Role::SomePoints(points, _) = role else {
        return true;
    };
    match look {
        LookAt::Point(point) | LookAt::Unpaid(point) => is_one_of(points, point),
        LookAt::AllUnpaid => false,
        LookAt::Day | LookAt::Prices | LookAt::Rules | LookAt::Counters => true,
    }
}

fn look_of_words(role: Role, words: &[&[u8]]) -> Result<Asked, LineFault>
    ensures value { result ≡ look_of_words role (map (λ w. w.now) words.now) }
    ensures memory { result ≢ Err LineFault.OutOfMemory }
{
    let look = look_behind_first(words)?;
    if look_within(role, look) {
        Ok(Asked::Look(look))
    } else {
        Err(LineFault::BadLine)
    }
}

/// What the words of a line ask for, if a sender of this role may send it: as `parse_asked`, but that a stray line is a
/// `BadLine` to every role.
#[inline(always)]
pub fn words_asked(alloc: Global, role: Role, words: &[&[u8]]) -> Result<Asked, LineFault>
    ensures given { Gives result (words_asked role (map (λ w. w.now) words.now)) }
    ensures memory { result ≡ Err LineFault.OutOfMemory → IsLoad role (map (λ w. w.now) words.now) }
{
    if is_look(words) {
        return look_of_words(role, words);
    }
    if ends_day(role, words) {
        return Ok(Asked::NextDay);
    }
    match parse_words(alloc, role, words) {
        Ok(act) => Ok(Asked::Act(act)),
        Err(fault) => Err(fault),
    }
}

fn is_some_look(look: Result<LookAt, LineFault>) -> bool
    ensures { result ≡ is_some_look look }
{
    !matches!(look, Err(LineFault::BadLine))
}

/// Whether the words have a form, whoever may send them, or look at something; their values aren't read.
fn has_some_form(words: &[&[u8]]) -> bool
    ensures { result ≡ has_some_form (map (λ w. w.now) words.now) }
{
    if is_look(words) {
        return is_some_look(look_behind_first(words));
    }
    form_of(Role::All, words).is_some()
}

/// Whether the role says that a stray line is told `OtherDoor`.
fn tells_stray(role: Role) -> bool
    ensures { result ≡ tells_stray role }
{
    match role {
        Role::OneTill(_, Stray::OtherDoor) | Role::SomePoints(_, Stray::OtherDoor) => true,
        _ => false,
    }
}

/// What a sender of this role is told of words that were read with this fault.
fn fault_told(role: Role, words: &[&[u8]], fault: LineFault) -> LineFault
    ensures { result ≡ fault_told role (map (λ w. w.now) words.now) fault }
{
    match fault {
        LineFault::BadLine if tells_stray(role) && has_some_form(words) => LineFault::OtherDoor,
        _ => fault,
    }
}

/// What the words ask for, or what a sender of this role is told.
fn words_answered(alloc: Global, role: Role, words: &[&[u8]]) -> Result<Asked, LineFault>
    ensures given { Gives result (words_answered role (map (λ w. w.now) words.now)) }
    ensures memory { result ≡ Err LineFault.OutOfMemory → IsLoad role (map (λ w. w.now) words.now) }
{
    match words_asked(alloc, role, words) {
        Ok(asked) => Ok(asked),
        Err(fault) => Err(fault_told(role, words, fault)),
    }
}

/// As `parse_asked`, of a line of any length.
#[tactic(auto, using(crate::proofs::Looking::too_many))]
fn asked_of_short(alloc: Global, role: Role, line: &[u8]) -> Result<Asked, LineFault>
    ensures given { Gives result (words_answered role (words_of line.now)) }
    ensures memory { result ≡ Err LineFault.OutOfMemory → IsLoad role (words_of line.now) }
{
    let Some(words) = split_at_most::<LINE_WORDS>(line, b' ') else {
        return Err(LineFault::BadLine);
    };
    words_answered(alloc, role, words.as_slice())
}

/// What a line asks for, given without its LF, if a sender of this role may send it. The error is that of `parse_line`;
/// of a line that looks it is `BadLine` if the words behind `look` have no form, `BadNumber` if a point can't be read,
/// and `BadLine` if the role may not see that. It is `OtherDoor` in the place of `BadLine` if the role says so of stray
/// lines, and the words have a form or look at something.
pub fn parse_asked(alloc: Global, role: Role, line: &[u8]) -> Result<Asked, LineFault>
    // proved: It reads looks by the grammar, each role's | look_of_other_points_is_taken
    // proved: It says L5 of lines of another door alone | nonsense_is_of_another_door
    ensures given { Gives result (line_asked role line.now) }
    // proved: No look takes memory to be read | a_look_of_77_bytes_is_out_of_memory
    ensures memory { result ≡ Err LineFault.OutOfMemory → IsLoad role (words_of line.now) }
{
    if line.len() > LINE_BYTES {
        return Err(LineFault::TooLong);
    }
    asked_of_short(alloc, role, line)
}

/// A law: a line asks for an act exactly if it is read as that act.
pub fn acts_are_asked_as_read()
    // proved: Each act is read as if there were no looks
    ensures { AsksForActs }
{}

fn put_number<N: Integer>(text: &mut Vec<u8>, number: N) -> Result<(), AllocError>
    ensures { OnOk result (text.new.items ≡ text.old.items ++ N.text number) }
{
    let mut digits = Buffer::new();
    text.extend_from_slice(digits.format(number).as_bytes())
}

/// Appends each number behind a space.
fn put_numbers_behind<N: Integer>(text: &mut Vec<u8>, numbers: &[N]) -> Result<(), AllocError>
    ensures { OnOk result
        (text.new.items ≡ text.old.items ++ flat_map (λ next. codes " " ++ N.text next) numbers.now) }
{
    for number in numbers {
        text.push(b' ')?;
        put_number(text, *number)?;
    }
    Ok(())
}

/// Appends the numbers with spaces between them.
fn put_numbers<N: Integer>(text: &mut Vec<u8>, numbers: &[N]) -> Result<(), AllocError>
    ensures { OnOk result (text.new.items ≡ text.old.items ++ spread (codes " ") N.text numbers.now) }
{
    match numbers {
        [] => Ok(()),
        [first, rest @ ..] => {
            put_number(text, *first)?;
            put_numbers_behind(text, rest)
        }
    }
}

/// Appends each row behind a semicolon and a space.
fn put_rows_behind<const N: usize>(text: &mut Vec<u8>, rows: &[[u64; N]]) -> Result<(), AllocError>
    ensures { OnOk result
        (text.new.items ≡ text.old.items ++ flat_map (λ next. codes "; " ++ numbers_text next) rows.now) }
{
    for row in rows {
        text.extend_from_slice(b"; ")?;
        put_numbers(text, row)?;
    }
    Ok(())
}

/// Appends the rows with semicolons between them, or `none`.
fn put_rows<const N: usize>(text: &mut Vec<u8>, rows: &[[u64; N]]) -> Result<(), AllocError>
    ensures { OnOk result (text.new.items ≡ text.old.items ++ rows_text rows.now) }
{
    match rows {
        [] => text.extend_from_slice(b"none"),
        [first, rest @ ..] => {
            put_numbers(text, first)?;
            put_rows_behind(text, rest)
        }
    }
}

fn put_prices(text: &mut Vec<u8>, prices: &[u32; 8]) -> Result<(), AllocError>
    ensures { OnOk result (text.new.items ≡ text.old.items ++ (codes "prices " ++ numbers_text prices.now)) }
{
    text.extend_from_slice(b"prices ")?;
    put_numbers(text, prices)
}

/// Appends the text of a reply.
fn put_reply_text(text: &mut Vec<u8>, reply: &Reply) -> Result<(), AllocError>
    ensures { OnOk result (text.new.items ≡ text.old.items ++ reply_text reply.now) }
{
    let mut words = ShortText::new();
    put_reply(&mut words, reply);
    match words.as_str().strip_prefix(' ') {
        Some(words) => text.extend_from_slice(words.as_bytes()),
        None => Ok(()),
    }
}

/// Appends the date of a moment behind a space, if there is one.
fn put_date_behind(text: &mut Vec<u8>, moment: u64) -> Result<(), AllocError>
    ensures { OnOk result (text.new.items ≡ text.old.items ++ date_behind (date_of moment)) }
{
    let Some(date) = date_of(moment) else {
        return Ok(());
    };
    text.push(b' ')?;
    text.extend_from_slice(&date_text(date))
}

fn put_day(text: &mut Vec<u8>, number: u32, since: u64) -> Result<(), AllocError>
    ensures { OnOk result (text.new.items ≡ text.old.items ++ day_text number since) }
{
    text.extend_from_slice(b"day ")?;
    put_number(text, u64::from(number))?;
    put_date_behind(text, since)
}

fn put_named_rows<const N: usize>(
    text: &mut Vec<u8>,
    name: &[u8],
    rows: &[[u64; N]],
) -> Result<(), AllocError>
    ensures { OnOk result (text.new.items ≡ text.old.items ++ (name.now ++ rows_text rows.now)) }
{
    text.extend_from_slice(name)?;
    put_rows(text, rows)
}

fn put_seen(text: &mut Vec<u8>, seen: &Seen) -> Result<(), AllocError>
    ensures { OnOk result (text.new.items ≡ text.old.items ++ seen_text seen.now) }
{
    match seen {
        Seen::Day { number, since } => put_day(text, *number, *since),
        Seen::Reply(reply) => put_reply_text(text, reply),
        Seen::Prices(prices) => put_prices(text, prices),
        Seen::Unpaid(rows) => put_named_rows(text, b"unpaid ", rows),
        Seen::Rules(rows) => put_named_rows(text, b"rules ", rows),
        Seen::Counters(rows) => put_named_rows(text, b"counters ", rows),
    }
}

/// Appends the line of an answer, with its LF. After an error a part of it may be there.
pub fn put_sight(text: &mut Vec<u8>, sight: &Sight) -> Result<(), AllocError>
    // proved: It writes a look's one text | row_is_left_out_of_a_look
    ensures { OnOk result (text.new.items ≡ text.old.items ++ sight_line sight.now) }
{
    put_number(text, u64::from(sight.entries))?;
    text.push(b' ')?;
    put_seen(text, &sight.seen)?;
    text.push(b'\n')?;
    Ok(())
}
