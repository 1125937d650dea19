//! The values of labels in a text of metrics.
use crate::escaped::PrintableChar;
use std::fmt;

/// A label's value between its quotes. Control characters are escaped as `Printable` does, and a backslash and a quote
/// by one more backslash, also that of such an escape.
#[derive(Clone, Copy)]
pub(crate) struct LabelValue<'a>(pub(crate) &'a str);

impl LabelValue<'_> {
    ghost use Rattle.std.specs.Prelude.{◌≡◌};

    fn text(&self) -> &str
        ensures { result.now ≡ self.now.0.now }
    {
        self.0
    }
}

impl fmt::Display for LabelValue<'_> {
    ghost use Rattle.std.specs.Prelude.{Some};
    ghost use Rattle.pages.specs.Labels.{label_value};

    ghost output = { λ v. Some (label_value v.0.now) };

    fn fmt<W: fmt::Write>(&self, f: &mut fmt::Formatter<W>) -> fmt::Result {
        let text = self.text();
        for c in text.chars() {
            let mark = LabelChar(c);
            write!(f, "{mark}")?;
        }
        Ok(())
    }
}

#[derive(Clone, Copy)]
struct LabelChar(char);

impl fmt::Display for LabelChar {
    ghost use Rattle.std.specs.Prelude.{Some};
    ghost use Rattle.pages.specs.Labels.{label_char};

    ghost output = { λ c. Some (label_char c.0) };

    fn fmt<W: fmt::Write>(&self, f: &mut fmt::Formatter<W>) -> fmt::Result {
        let c = self.0;
        let plain = PrintableChar(c);
        if c == '\\' || c == '"' || c.is_control() {
            write!(f, "\\{plain}")
        } else {
            write!(f, "{plain}")
        }
    }
}
