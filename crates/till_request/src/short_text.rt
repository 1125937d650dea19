//! Writes answers and replies into texts of fixed size, which take no memory.
ghost use Rattle.std.specs.Prelude.{◌≡◌, ◌+◌, ◌≤◌, ◌∷◌, ◌++◌, [], decimal, length, map};
ghost use Rattle.std.specs.Option.{option_to_list};
ghost use Rattle.till_request.specs.Answer.{answer_line, answer_text, fault_text, order_words, reply_words};
ghost use Rattle.till_request.specs.Looks.{next_day_line};
ghost use Rattle.till_request.specs.Short.{with_words};

use crate::act::{Answer, LineFault, Reply};
use arrayvec::ArrayString;
use fuelling_point::Order;
use itoa::Buffer;

const SHORT: usize = 192;

/// A text of at most 192 bytes. An answer's line has at most 174.
pub type ShortText = ArrayString<SHORT>;

/// Needs room for 20 more bytes.
fn put_number(text: &mut ShortText, number: u64)
    requires { length text.old.bytes + 20 ≤ SHORT }
    ensures text { text.new.bytes ≡ text.old.bytes ++ decimal number }
    ensures short { length text.new.bytes ≤ length text.old.bytes + 20 }
{
    let mut digits = Buffer::new();
    text.push_str(digits.format(number));
}

/// Puts a space and a word.
pub(crate) fn put_word(text: &mut ShortText, word: &str)
    requires { length text.old.bytes + length word.now + 1 ≤ SHORT }
    ensures text { text.new.bytes ≡ with_words text.old.bytes (word.now ∷ []) }
    ensures short { length text.new.bytes ≤ length text.old.bytes + length word.now + 1 }
{
    text.push_str(" ");
    text.push_str(word);
}

/// Puts a space and a number; needs room for 21 more bytes.
pub(crate) fn put_word_number(text: &mut ShortText, number: u64)
    requires { length text.old.bytes + 21 ≤ SHORT }
    ensures text { text.new.bytes ≡ with_words text.old.bytes (decimal number ∷ []) }
    ensures short { length text.new.bytes ≤ length text.old.bytes + 21 }
{
    text.push_str(" ");
    put_number(text, number);
}

/// Puts a space, an S and a refusal's number; needs room for 22 more bytes.
fn put_refusal(text: &mut ShortText, number: u32)
    requires { length text.old.bytes + 22 ≤ SHORT }
    ensures text { text.new.bytes ≡ with_words text.old.bytes ((83 ∷ decimal number) ∷ []) }
    ensures short { length text.new.bytes ≤ length text.old.bytes + 22 }
{
    text.push_str(" S");
    put_number(text, u64::from(number));
}

/// Puts an order's words, each behind a space; needs room for 31 more bytes.
fn put_order(text: &mut ShortText, order: Order)
    requires { length text.old.bytes + 31 ≤ SHORT }
    ensures text { text.new.bytes ≡ with_words text.old.bytes (order_words order) }
    ensures short { length text.new.bytes ≤ length text.old.bytes + 31 }
{
    match order {
        Order::Authorise(amount) => {
            put_word(text, "authorise");
            put_word_number(text, amount);
        }
        Order::Suspend => put_word(text, "suspend"),
        Order::Resume => put_word(text, "resume"),
        Order::Stop => put_word(text, "stop"),
    }
}

/// Puts `day` and a day's number, with an LF, into an empty text.
pub(crate) fn put_next_day(text: &mut ShortText, number: u32)
    requires { text.old.bytes ≡ [] }
    ensures { text.new.bytes ≡ next_day_line number }
{
    text.push_str("day ");
    put_number(text, u64::from(number));
    text.push_str("\n");
}

/// Puts a reply's words, each behind a space; needs room for 153 more bytes.
pub fn put_reply(text: &mut ShortText, reply: &Reply)
    requires { length text.old.bytes + 153 ≤ SHORT }
    // proved text, short: It writes the text of a reply | another_reply_is_spelled
    ensures text { text.new.bytes ≡ with_words text.old.bytes (reply_words reply.now) }
    ensures short { length text.new.bytes ≤ length text.old.bytes + 153 }
{
    match reply {
        Reply::Done => put_word(text, "done"),
        Reply::Granted(amount, version) => {
            put_word(text, "granted");
            put_word_number(text, *amount);
            put_word(text, "by");
            put_word_number(text, u64::from(*version));
        }
        Reply::Version(version) => {
            put_word(text, "version");
            put_word_number(text, u64::from(*version));
        }
        Reply::Order(order) => {
            put_word(text, "order");
            put_order(text, *order);
        }
        Reply::Point {
            state,
            nozzle,
            amount,
            volume,
            limit,
            preset,
            unpaid,
        } => {
            put_word(text, "point");
            put_word_number(text, u64::from(*state));
            put_word_number(text, u64::from(*nozzle));
            put_word_number(text, *amount);
            put_word_number(text, *volume);
            put_word_number(text, *limit);
            put_word_number(text, *preset);
            put_word_number(text, u64::from(*unpaid));
        }
        Reply::Refused(number, None) => put_refusal(text, *number),
        Reply::Refused(number, Some(value)) => {
            put_refusal(text, *number);
            put_word_number(text, u64::from(*value));
        }
    }
}

/// `L1` to `L5`, or `S31` if memory ran out.
pub(crate) fn fault_word(fault: LineFault) -> &'static str
    ensures text { result.now ≡ fault_text fault }
    ensures short { length result.now ≤ 3 }
{
    match fault {
        LineFault::TooLong => "L1",
        LineFault::BadLine => "L2",
        LineFault::BadNumber => "L3",
        LineFault::CutLine => "L4",
        LineFault::OtherDoor => "L5",
        LineFault::OutOfMemory => "S31",
    }
}

/// Puts a space and the unit, register or argument that a refused program's answer names, if any.
fn put_part(text: &mut ShortText, part: Option<u32>)
    requires { length text.old.bytes + 21 ≤ SHORT }
    ensures text { text.new.bytes ≡ with_words text.old.bytes (map decimal (option_to_list part)) }
    ensures short { length text.new.bytes ≤ length text.old.bytes + 21 }
{
    if let Some(part) = part {
        put_word_number(text, u64::from(part));
    }
}

/// Puts the answer to a refused program into an empty text: V and the refusal's number, then what it names.
fn put_program(text: &mut ShortText, number: u32, unit: Option<u32>, part: Option<u32>)
    requires { text.old.bytes ≡ [] }
    ensures text { text.new.bytes ≡ answer_text (Answer.Program number unit part) }
    ensures short { length text.new.bytes ≤ 63 }
{
    text.push_str("V");
    put_number(text, u64::from(number));
    put_part(text, unit);
    put_part(text, part);
}

/// Puts the entry's number, a space and the reply into an empty text.
#[tactic(auto, using(crate::proofs::Short::entered))]
fn put_entered(text: &mut ShortText, number: u32, reply: &Reply)
    requires { text.old.bytes ≡ [] }
    ensures text { text.new.bytes ≡ answer_text (Answer.Entered number reply.now) }
    ensures short { length text.new.bytes ≤ 173 }
{
    put_number(text, u64::from(number));
    put_reply(text, reply);
}

/// Puts an answer, without an LF, into an empty text.
pub(crate) fn put_answer(text: &mut ShortText, answer: &Answer)
    requires { text.old.bytes ≡ [] }
    ensures text { text.new.bytes ≡ answer_text answer.now }
    ensures short { length text.new.bytes ≤ 173 }
{
    match answer {
        Answer::Entered { number, reply } => put_entered(text, *number, reply),
        Answer::JournalFull => text.push_str("S29"),
        Answer::OutOfMemory => text.push_str("S31"),
        Answer::Line(fault) => text.push_str(fault_word(*fault)),
        Answer::Program(number, unit, part) => put_program(text, *number, *unit, *part),
        Answer::JournalFailed => text.push_str("journal failed"),
    }
}

/// Puts an answer with its LF into an empty text.
pub fn put_line(text: &mut ShortText, answer: &Answer)
    requires { text.old.bytes ≡ [] }
    ensures { text.new.bytes ≡ answer_line answer.now }
{
    put_answer(text, answer);
    text.push_str("\n");
}
