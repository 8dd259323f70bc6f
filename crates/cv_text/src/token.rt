//! The tokens of CoreC text.

ghost use Rattle.std.specs.Prelude.{◌≡◌};
ghost use Rattle.cv_text.specs.Spelling.{key_text, sign_text};

/// The words that are no names.
#[derive(Clone, Copy, Debug, PartialEq, Eq)]
pub enum Key {
    Global,
    Buf,
    Ptr,
    Int,
    Literal,
    Proc,
    Void,
    Char,
    Extern,
    Pptr,
    Iptr,
    Pcell,
    Icell,
    Load,
    Store,
    Get,
    Put,
    Diff,
    Goto,
    If,
    Call,
    Return,
    Null,
    Result,
}

/// The signs, of one or two bytes.
#[derive(Clone, Copy, Debug, PartialEq, Eq)]
pub enum Sign {
    Equal,
    NotEqual,
    AtMost,
    AtLeast,
    Assign,
    Less,
    Greater,
    Plus,
    Minus,
    Star,
    Slash,
    Percent,
    And,
    Bar,
    Comma,
    Semicolon,
    Colon,
    Open,
    Close,
    OpenBrace,
    CloseBrace,
}

/// A token of a text, as it stands there.
#[derive(Clone, Copy, Debug)]
pub enum Token<'a> {
    Name(&'a [u8]),
    Word(Key),
    Digits(&'a [u8]),
    Mark(Sign),
    /// What no text of the grammar has.
    Other,
}

/// The bytes of a word.
pub fn key_bytes(key: Key) -> &'static [u8]
    ensures { result.now ≡ key_text key }
{
    match key {
        Key::Global => b"global",
        Key::Buf => b"buf",
        Key::Ptr => b"ptr",
        Key::Int => b"int",
        Key::Literal => b"literal",
        Key::Proc => b"proc",
        Key::Void => b"void",
        Key::Char => b"char",
        Key::Extern => b"extern",
        Key::Pptr => b"pptr",
        Key::Iptr => b"iptr",
        Key::Pcell => b"pcell",
        Key::Icell => b"icell",
        Key::Load => b"load",
        Key::Store => b"store",
        Key::Get => b"get",
        Key::Put => b"put",
        Key::Diff => b"diff",
        Key::Goto => b"goto",
        Key::If => b"if",
        Key::Call => b"call",
        Key::Return => b"return",
        Key::Null => b"null",
        Key::Result => b"result",
    }
}

/// The bytes of a sign.
pub fn sign_bytes(sign: Sign) -> &'static [u8]
    ensures { result.now ≡ sign_text sign }
{
    match sign {
        Sign::Equal => b"==",
        Sign::NotEqual => b"!=",
        Sign::AtMost => b"<=",
        Sign::AtLeast => b">=",
        Sign::Assign => b"=",
        Sign::Less => b"<",
        Sign::Greater => b">",
        Sign::Plus => b"+",
        Sign::Minus => b"-",
        Sign::Star => b"*",
        Sign::Slash => b"/",
        Sign::Percent => b"%",
        Sign::And => b"&",
        Sign::Bar => b"|",
        Sign::Comma => b",",
        Sign::Semicolon => b";",
        Sign::Colon => b":",
        Sign::Open => b"(",
        Sign::Close => b")",
        Sign::OpenBrace => b"{",
        Sign::CloseBrace => b"}",
    }
}

/// All signs, those of two bytes first.
pub const SIGNS: [Sign; 21] = [
    Sign::Equal,
    Sign::NotEqual,
    Sign::AtMost,
    Sign::AtLeast,
    Sign::Assign,
    Sign::Less,
    Sign::Greater,
    Sign::Plus,
    Sign::Minus,
    Sign::Star,
    Sign::Slash,
    Sign::Percent,
    Sign::And,
    Sign::Bar,
    Sign::Comma,
    Sign::Semicolon,
    Sign::Colon,
    Sign::Open,
    Sign::Close,
    Sign::OpenBrace,
    Sign::CloseBrace,
];

/// All words.
pub const KEYS: [Key; 24] = [
    Key::Global,
    Key::Buf,
    Key::Ptr,
    Key::Int,
    Key::Literal,
    Key::Proc,
    Key::Void,
    Key::Char,
    Key::Extern,
    Key::Pptr,
    Key::Iptr,
    Key::Pcell,
    Key::Icell,
    Key::Load,
    Key::Store,
    Key::Get,
    Key::Put,
    Key::Diff,
    Key::Goto,
    Key::If,
    Key::Call,
    Key::Return,
    Key::Null,
    Key::Result,
];
