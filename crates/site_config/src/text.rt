//! A text that is copied from a configuration.
ghost use Rattle.std.specs.Prelude.{◌≡◌, ◌<◌, IfOk, OnErr, length, string_bytes};
ghost use Rattle.std.specs.Str.{bytes_eq};

use std::alloc::{AllocError, Global};
use std::fmt;
use std::marker::Model;

/// A text. In contracts it is its bytes.
#[derive(Drop)]
pub struct Text {
    text: String,
}

impl Model for Text {
    ghost use Rattle.std.specs.Prelude.{List, ℕ, string_bytes};

    ghost Value = { List ℕ };

    ghost view = { λ t. string_bytes t.text };
}

impl Text {
    pub fn new(text: String) -> Self
        ensures { result ≡ string_bytes text }
    {
        Text { text }
    }

    /// An empty text takes no memory.
    pub fn copied(alloc: Global, text: &str) -> Result<Text, AllocError>
        ensures same { IfOk result (λ copy. copy ≡ text.now) }
        ensures memory { OnErr result (0 < length text.now) }
    {
        if text.is_empty() {
            return Ok(Text {
                text: String::new(alloc),
            });
        }
        match String::from_str(alloc, text) {
            Ok(text) => Ok(Text { text }),
            Err(error) => Err(error),
        }
    }

    pub fn as_str(&self) -> &str
        ensures { result.now ≡ self.now }
    {
        self.text.as_str()
    }

    pub fn is_same(&self, other: &Text) -> bool
        ensures { result ≡ bytes_eq self.now other.now }
    {
        self.as_str() == other.as_str()
    }
}

impl fmt::Display for Text {
    ghost use Rattle.std.specs.Prelude.{Some};

    ghost output = { λ t. Some t };

    fn fmt<W: fmt::Write>(&self, f: &mut fmt::Formatter<W>) -> fmt::Result {
        f.write_str(self.as_str())
    }
}
