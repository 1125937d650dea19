//! Text so written that nothing in it is taken for a command: in messages, and in a page of HTML.

use std::fmt::{self, Write as _};

/// A value written as its `Display` writes it, with each control character (U+0000 to U+001F, and U+007F to U+009F)
/// escaped: as `\n`, `\r` or `\t`, or by its number, as in `\u{1b}`. All else is written as it is, a backslash too.
#[derive(Clone, Copy)]
pub struct Printable<'a, D>(pub &'a D);

impl<D: fmt::Display> fmt::Display for Printable<'_, D> {
    ghost use Rattle.std.specs.Prelude.{option_map};
    ghost use Rattle.pages.specs.Printing.{printable};

    ghost output = { λ p. option_map printable (D.output p.0.now) };

    fn fmt<W: fmt::Write>(&self, f: &mut fmt::Formatter<W>) -> fmt::Result {
        let mut escaping = Escaping(f);
        let value = self.0;
        write!(escaping, "{value}")
    }
}

/// A writer that escapes the control characters of what it is given, and writes to `0`.
#[derive(Drop)]
struct Escaping<'a, W>(&'a mut fmt::Formatter<W>);

impl<W: fmt::Write> fmt::Write for Escaping<'_, W> {
    ghost use Rattle.std.specs.Prelude.{◌≡◌};
    ghost use Rattle.std.specs.Str.{IsUtf8};
    ghost use Rattle.std.specs.Fmt.{HasWritten, IsPlainFormatter};
    ghost use Rattle.pages.specs.Printing.{printable};

    ghost write_str_gives = { λ s text t. (t.0.ghost_name ≡ s.0.ghost_name) × IsUtf8 text
        × (IsPlainFormatter s.0.now → HasWritten W.write_str_gives s.0.now (printable text) t.0.now) };

    fn write_str(&mut self, text: &str) -> fmt::Result {
        for c in text.chars() {
            let mark = PrintableChar(c);
            write!(self.0, "{mark}")?;
        }
        Ok(())
    }
}

/// A character that is written escaped if it is a control character, and as it is otherwise.
#[derive(Clone, Copy)]
pub struct PrintableChar(pub char);

impl fmt::Display for PrintableChar {
    ghost use Rattle.std.specs.Prelude.{Some};
    ghost use Rattle.pages.specs.Printing.{printable_char};

    ghost output = { λ c. Some (printable_char c.0) };

    fn fmt<W: fmt::Write>(&self, f: &mut fmt::Formatter<W>) -> fmt::Result {
        let c = self.0;
        match c {
            '\n' => write!(f, "\\n"),
            '\r' => write!(f, "\\r"),
            '\t' => write!(f, "\\t"),
            _ if c.is_control() => {
                let number = c as u32;
                write!(f, "\\u{{{number:x}}}")
            }
            _ => write!(f, "{c}"),
        }
    }
}

/// A text that is written with its characters `<`, `>`, `&`, `"` and `'` escaped, so that none of them is parsed as
/// HTML markup, and with its control characters escaped as `Printable` does. All other characters are written as they
/// are.
#[derive(Clone, Copy)]
pub struct Escaped<'a>(pub &'a str);

impl Escaped<'_> {
    ghost use Rattle.std.specs.Prelude.{◌≡◌};

    fn text(&self) -> &str
        ensures { result.now ≡ self.now.0.now }
    {
        self.0
    }
}

impl fmt::Display for Escaped<'_> {
    ghost use Rattle.std.specs.Prelude.{Some};
    ghost use Rattle.pages.specs.Escaping.{escaped};

    ghost output = { λ e. Some (escaped e.0.now) };

    fn fmt<W: fmt::Write>(&self, f: &mut fmt::Formatter<W>) -> fmt::Result {
        let text = self.text();
        for c in text.chars() {
            let mark = Mark(c);
            write!(f, "{mark}")?;
        }
        Ok(())
    }
}

/// A character that is written escaped if it is one of `<`, `>`, `&`, `"` and `'`, or a control character, and as it is
/// otherwise.
#[derive(Clone, Copy)]
struct Mark(char);

impl fmt::Display for Mark {
    ghost use Rattle.std.specs.Prelude.{Some};
    ghost use Rattle.pages.specs.Escaping.{escaped_char};

    ghost output = { λ m. Some (escaped_char m.0) };

    fn fmt<W: fmt::Write>(&self, f: &mut fmt::Formatter<W>) -> fmt::Result {
        let c = self.0;
        match c {
            '<' => write!(f, "&lt;"),
            '>' => write!(f, "&gt;"),
            '&' => write!(f, "&amp;"),
            '"' => write!(f, "&quot;"),
            '\'' => write!(f, "&#39;"),
            _ => {
                let plain = PrintableChar(c);
                write!(f, "{plain}")
            }
        }
    }
}
