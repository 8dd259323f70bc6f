//! Why a text isn't read.

ghost use Rattle.std.specs.Prelude.{◌≡◌, ◌<◌, ◌^◌, ◌-◌, ◌≤◌, length, nat_eq};
ghost use Rattle.std.specs.List.{count_by};
ghost use Rattle.cv_text.specs.Seen.{StandsAt};
ghost use Rattle.cv_text.specs.Lines.{line_of};

use crate::lexer::next_token;

/// The first token of a text that no text of the grammar can have there.
#[derive(Clone, Copy, Debug, PartialEq, Eq)]
pub struct TextFault {
    /// The place of its first byte, or the length of the text where that ends too early.
    pub at: u32,
    /// Its line, from 1.
    pub line: u32,
}

/// Why a text isn't read.
#[derive(Debug, Drop)]
pub enum TextError {
    Fault(TextFault),
    /// A level too many is opened.
    Nesting,
    Memory,
}

fn newlines(text: &[u8]) -> usize
    ensures { result ≡ count_by (λ c. nat_eq c 10) text.now }
{
    text.iter().filter(|c| **c == b'\n').count()
}

/// The fault of the token at or behind a place of a text of at most 4294967294 bytes.
pub(crate) fn fault_at(text: &[u8], at: usize) -> TextFault
    requires { length text.now < 2 ^ 32 - 1 }
    ensures place { StandsAt text.now at result.at }
    ensures line { result.line ≡ line_of text.now result.at }
{
    let next = next_token(text, at);
    let line = newlines(&text[..next.at]) + 1;
    TextFault {
        at: next.at as u32,
        line: line as u32,
    }
}
