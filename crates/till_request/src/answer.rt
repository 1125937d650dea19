//! The texts of replies, of lines' faults and of answers.
use crate::act::{Answer, LineFault, Reply};
use crate::short_text::{ShortText, fault_word, put_answer, put_reply};
use std::fmt;

impl fmt::Display for Reply {
    ghost use Rattle.std.specs.Prelude.{Some};
    ghost use Rattle.till_request.specs.Answer.{reply_text};

    ghost output = { λ r. Some (reply_text r) };

    fn fmt<W: fmt::Write>(&self, f: &mut fmt::Formatter<W>) -> fmt::Result {
        let mut text = ShortText::new();
        put_reply(&mut text, self);
        // A reply's text begins with a word, and `put_reply` writes a space before each.
        match text.as_str().strip_prefix(' ') {
            Some(words) => f.write_str(words),
            None => Ok(()),
        }
    }
}

impl fmt::Display for LineFault {
    ghost use Rattle.std.specs.Prelude.{Some};
    ghost use Rattle.till_request.specs.Answer.{fault_text};

    ghost output = { λ l. Some (fault_text l) };

    fn fmt<W: fmt::Write>(&self, f: &mut fmt::Formatter<W>) -> fmt::Result {
        f.write_str(fault_word(*self))
    }
}

impl fmt::Display for Answer {
    ghost use Rattle.std.specs.Prelude.{Some};
    ghost use Rattle.till_request.specs.Answer.{answer_text};

    ghost output = { λ a. Some (answer_text a) };

    fn fmt<W: fmt::Write>(&self, f: &mut fmt::Formatter<W>) -> fmt::Result {
        let mut text = ShortText::new();
        put_answer(&mut text, self);
        f.write_str(text.as_str())
    }
}
