//! Builds a text piece by piece, such as a page in HTML or a text of metrics.
use crate::escaped::Escaped;
use crate::names::refusal_name;
use crate::texts::Text;
use std::alloc::{AllocError, Global};
use std::fmt::Display;
use till_request::Date;
use till_request::dates::date_of;

/// Builds a text, such as a page in HTML. That memory ran out is told by `finish` alone.
#[derive(Drop)]
pub struct TextBuilder {
    text: String,
    ran_out_of_memory: bool,
}

impl TextBuilder {
    pub fn new(alloc: Global) -> TextBuilder {
        TextBuilder {
            text: String::new(alloc),
            ran_out_of_memory: false,
        }
    }

    pub fn finish(self) -> Result<String, AllocError> {
        let TextBuilder {
            text,
            ran_out_of_memory,
        } = self;
        if ran_out_of_memory {
            Err(AllocError)
        } else {
            Ok(text)
        }
    }

    fn note(&mut self, written: Result<(), AllocError>) {
        if written.is_err() {
            self.ran_out_of_memory = true;
        }
    }

    pub fn add(&mut self, piece: &str) {
        let written = self.text.push_str(piece);
        self.note(written);
    }

    pub fn write<D: Display>(&mut self, value: &D) {
        let written = write!(self.text, "{value}");
        self.note(written);
    }

    /// Adds `form`, in which `texts` replace the `{}`, in order. Where texts are missing, nothing stands for `{}`; of
    /// further texts the first is added at the end.
    pub fn fill(&mut self, form: &str, texts: &[Text]) {
        let mut texts = texts.iter();
        for piece in form.split("{}") {
            self.add(piece);
            if let Some(text) = texts.next() {
                self.put(*text);
            }
        }
    }

    pub fn put(&mut self, text: Text) {
        match text {
            Text::Number(number) => self.number(number),
            Text::Thousands(number) => self.thousands(number),
            Text::Hundredths(number) => self.hundredths(number),
            Text::Thousandths(number) => self.thousandths(number),
            Text::Seconds(nanoseconds) => self.seconds(nanoseconds),
            Text::Moment(moment) => self.moment(moment),
            Text::Clock(moment) => self.clock(moment),
            Text::Point(number) => self.named("Point ", number),
            Text::Entry(number) => self.named("entry ", number),
            Text::Refusal(number) => self.refusal(number),
            Text::Words(words) => self.words(words),
        }
    }

    /// Adds words, with the special characters of HTML escaped.
    pub fn words(&mut self, words: &str) {
        self.write(&Escaped(words));
    }

    fn number(&mut self, number: u64) {
        let written = write!(self.text, "{number}");
        self.note(written);
    }

    /// 7 becomes 07.
    fn two(&mut self, mark: &str, number: u64) {
        self.add(mark);
        if number < 10 {
            self.add("0");
        }
        self.number(number);
    }

    /// 7 becomes 007.
    fn three(&mut self, mark: &str, number: u64) {
        self.add(mark);
        if number < 100 {
            self.two("0", number);
        } else {
            self.number(number);
        }
    }

    fn thousands(&mut self, number: u128) {
        let mut power = 1_000_000_000_000_000_000_000_000_000_000_000_000u128;
        let mut is_begun = false;
        for place in 0..GROUPS {
            let group = (number.checked_div(power).unwrap_or(0) % 1000) as u64;
            if is_begun {
                self.three(",", group);
            } else if group > 0 || place == GROUPS - 1 {
                self.number(group);
                is_begun = true;
            }
            power /= 1000;
        }
    }

    fn hundredths(&mut self, number: u128) {
        self.thousands(number / 100);
        self.two(".", (number % 100) as u64);
    }

    fn thousandths(&mut self, number: u64) {
        self.thousands((number / 1000) as u128);
        self.three(".", number % 1000);
    }

    fn seconds(&mut self, nanoseconds: u64) {
        let (whole, rest) = (nanoseconds / 1_000_000_000, nanoseconds % 1_000_000_000);
        let written = write!(self.text, "{whole}.{rest:09}");
        self.note(written);
    }

    fn named(&mut self, name: &str, number: u64) {
        self.add(name);
        self.number(number);
    }

    fn refusal(&mut self, number: u32) {
        self.named("S", number as u64);
        self.add(" ");
        self.words(refusal_name(number));
    }

    fn moment(&mut self, moment: u64) {
        let Some(Date { year, month, day }) = date_of(moment) else {
            return self.add("not told");
        };
        self.number(u64::from(year));
        self.two("-", u64::from(month));
        self.two("-", u64::from(day));
        self.add(" ");
        self.clock(moment);
        self.two(":", moment % 60);
    }

    fn clock(&mut self, moment: u64) {
        self.two("", moment / 3600 % 24);
        self.two(":", moment / 60 % 60);
    }
}

/// The greatest number of groups of three digits in a number of 128 bits.
const GROUPS: u32 = 13;
