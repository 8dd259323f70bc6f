//! Tokens and faults.

/// What a token is. Each grammar refuses or skips those that it hasn't.
#[derive(Clone, Copy, Debug, PartialEq, Eq)]
pub enum TokenKind {
    /// A letter, `_` or `$`, and the letters, digits, `_` and `$` behind it.
    Word,
    /// Digits, or `0x` and the hexadecimal digits behind it, at least one; the value is at most 2147483648.
    Number,
    /// A text with its quotes, `"` at both ends.
    Text,
    /// A character with its quotes, `'` at both ends.
    Character,
    /// One of the signs of the two grammars, of one or two bytes.
    Sign,
    /// `/*` up to and with the first `*/`, or `//` up to before the newline.
    Comment,
    /// A `#` that is the first byte of its line, up to before the newline.
    HashLine,
}

/// A token of a text.
#[derive(Clone, Copy, Debug, PartialEq, Eq)]
pub struct Token<'a> {
    pub kind: TokenKind,
    /// The bytes of the token, a slice of the text.
    pub text: &'a [u8],
    /// The place of its first byte in the text, in bytes from 0.
    pub at: u32,
    /// The line of its first byte, from 1.
    pub line: u32,
}

/// Why no token can be read.
#[derive(Clone, Copy, Debug, PartialEq, Eq)]
pub enum LexRule {
    /// A byte with which no token begins.
    BadByte,
    /// A `/*` behind which no `*/` comes.
    OpenComment,
    /// A number greater than 2147483648.
    WideNumber,
    /// A text that isn't closed on its line or has an escape that there isn't, or a character that isn't
    /// one byte or one escape between quotes.
    OpenText,
}

/// The first place of a text at which no token can be read.
#[derive(Clone, Copy, Debug, PartialEq, Eq)]
pub struct LexFault {
    pub rule: LexRule,
    /// The place where the byte, comment, number, text or character begins, in bytes from 0.
    pub at: u32,
}
