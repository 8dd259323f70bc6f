//! The tokens of a text, one after the other, as the lexer of CoreC and C finds them.

ghost use Rattle.std.specs.Prelude.{◌≡◌, ◌≤◌, ◌<◌, ◌∷◌, false, length, drop, take, get_or, option_map, IfSome};
ghost use Rattle.cv_core.specs.Grammar.{is_digit as digit};
ghost use Rattle.cv_lex.specs.Given.{OnToken, seen as given};
ghost use Rattle.cv_text.specs.Lexed.{fault_lexed, lexed, number_lexed, sign_lexed, token_lexed, word_lexed};
ghost use Rattle.cv_text.specs.Spelling.{sign_text};
ghost use Rattle.cv_text.specs.Tokens as spec;
ghost use Rattle.cv_text.specs.Seen.{seen, IsNext, StandsAt};

use crate::token::{KEYS, Key, SIGNS, Sign, Token, key_bytes, sign_bytes};
use cv_lex::{LexFault, LexRule, Lexer, TokenKind};

fn sign_at_front(text: &[u8]) -> Option<Sign>
    ensures first { result ≡ spec.sign_at text.now }
    ensures within { IfSome result (λ s. length (sign_text s) ≤ length text.now) }
{
    SIGNS
        .iter()
        .copied()
        .find(|sign| text.starts_with(sign_bytes(*sign)))
}

fn key_named(text: &[u8]) -> Option<Key>
    ensures { result ≡ spec.key_of text.now }
{
    KEYS.iter().copied().find(|key| text == key_bytes(*key))
}

fn name_or_word(text: &[u8]) -> Token<'_>
    ensures { seen result ≡ spec.name_or text.now (spec.key_of text.now) }
{
    match key_named(text) {
        Some(key) => Token::Word(key),
        None => Token::Name(text),
    }
}

fn blanks_in_front(text: &[u8]) -> usize
    ensures { result ≡ spec.run spec.is_blank text.now }
{
    text.iter()
        .take_while(|c| matches!(**c, b' ' | b'\t' | b'\n' | b'\r'))
        .count()
}

fn name_bytes_in_front(text: &[u8]) -> usize
    ensures { result ≡ spec.run spec.is_name_byte text.now }
{
    text.iter()
        .take_while(|c| c.is_ascii_alphanumeric() || **c == b'_' || **c == b'$')
        .count()
}

fn digits_in_front(text: &[u8]) -> usize
    ensures { result ≡ spec.run digit text.now }
{
    text.iter().take_while(|c| c.is_ascii_digit()).count()
}

/// The greatest length of a text for the lexer.
const LEXED: usize = 4294967294;

/// As much of a text as the lexer takes.
fn lexed_part(text: &[u8]) -> &[u8]
    ensures part { result.now ≡ take 4294967294 text.now }
    ensures size { length result.now ≤ 4294967294 }
    ensures within { length result.now ≤ length text.now }
{
    &text[..text.len().min(LEXED)]
}

/// The name or word of which the lexer found so many bytes. More follow only where the lexer was given no more.
fn word_in_front(text: &[u8], found: usize) -> (Token<'_>, usize)
    requires { found ≤ length text.now }
    ensures token { (seen result.0, result.1) ≡ word_lexed text.now found }
    ensures within { result.1 ≤ length text.now }
{
    let len = found + name_bytes_in_front(&text[found..]);
    (name_or_word(&text[..len]), len)
}

/// Digits of whatever value, of which the lexer gives those up to 2147483648 alone. What begins with `0x` is none of the grammar.
fn number_in_front(text: &[u8]) -> (Token<'_>, usize)
    requires { 0 < length text.now }
    ensures token { (seen result.0, result.1) ≡ number_lexed text.now }
    ensures within { result.1 ≤ length text.now }
{
    if text.starts_with(b"0x") {
        return (Token::Other, 1);
    }
    let len = digits_in_front(text);
    (Token::Digits(&text[..len]), len)
}

/// The first sign of the grammar in a sign of the lexer: `--`, `+=`, `-=`, `&&` and `||` are two, and `++` is none.
fn sign_in_front(sign: &[u8]) -> (Token<'_>, usize)
    requires { 0 < length sign.now }
    ensures token { (seen result.0, result.1) ≡ sign_lexed sign.now }
    ensures within { result.1 ≤ length sign.now }
{
    if sign.starts_with(b"++") {
        return (Token::Other, 1);
    }
    match sign_at_front(sign) {
        Some(sign) => (Token::Mark(sign), sign_bytes(sign).len()),
        None => (Token::Other, 1),
    }
}

/// What a token of the lexer with which the text begins is to the grammar.
fn token_in_front<'a>(text: &'a [u8], found: &cv_lex::Token<'a>) -> (Token<'a>, usize)
    requires some { 0 < length found.now.text.now }
    requires size { length found.now.text.now ≤ length text.now }
    ensures token { (seen result.0, result.1) ≡ token_lexed text.now found.now.kind found.now.text.now }
    ensures within { result.1 ≤ length text.now }
{
    match found.kind {
        TokenKind::Word => word_in_front(text, found.text.len()),
        TokenKind::Number => number_in_front(text),
        TokenKind::Sign => sign_in_front(found.text),
        TokenKind::Text => (Token::Other, 1),
        TokenKind::Character => (Token::Other, 1),
        TokenKind::Comment => (Token::Other, 1),
        TokenKind::HashLine => (Token::Other, 1),
    }
}

/// What stands in front where the lexer gives no token.
fn fault_in_front(text: &[u8], rule: LexRule) -> (Token<'_>, usize)
    requires { 0 < length text.now }
    ensures token { (seen result.0, result.1) ≡ fault_lexed text.now rule }
    ensures within { result.1 ≤ length text.now }
{
    match rule {
        LexRule::WideNumber => number_in_front(text),
        LexRule::BadByte | LexRule::OpenComment | LexRule::OpenText => (Token::Other, 1),
    }
}

/// What the lexer gives first of a text is to the grammar.
fn lexed_in_front<'a>(
    text: &'a [u8],
    found: Result<Option<cv_lex::Token<'a>>, LexFault>,
) -> (Token<'a>, usize)
    requires some { 0 < length text.now }
    requires part { OnToken found (λ t. (0 < length t.text.now) × (length t.text.now ≤ length text.now)) }
    ensures token { (seen result.0, result.1) ≡ lexed text.now (given found.entry) }
    ensures within { result.1 ≤ length text.now }
{
    match found {
        Ok(Some(token)) => token_in_front(text, &token),
        Ok(None) => (Token::Other, 1),
        Err(fault) => fault_in_front(text, fault.rule),
    }
}

/// The token with which a text begins, of which the first byte is no blank, and how many bytes it has.
fn front(text: &[u8]) -> (Token<'_>, usize)
    requires some { 0 < length text.now }
    requires no_blank { spec.is_blank (get_or text.now 0 0) ≡ false }
    ensures token { (seen result.0, result.1) ≡ spec.token_at (get_or text.now 0 0) text.now }
    ensures within { result.1 ≤ length text.now }
{
    let mut lexer = Lexer::new(lexed_part(text));
    let found = lexer.next();
    lexed_in_front(text, found)
}

fn rest_of(text: &[u8], at: usize) -> &[u8]
    ensures { result.now ≡ drop at text.now }
{
    if at < text.len() { &text[at..] } else { &[] }
}

/// A token with the places of its first byte and of the byte behind it. Both places are the same,
/// the length of the text, where no token is left.
#[derive(Clone, Copy, Debug)]
pub struct Placed<'a> {
    pub token: Option<Token<'a>>,
    pub at: usize,
    pub end: usize,
}

/// The first token at or after a place.
pub fn next_token(text: &[u8], at: usize) -> Placed<'_>
    ensures token { IsNext text.now at (option_map seen result.token) result.end }
    ensures place { StandsAt text.now at result.at }
{
    if text.len() <= at {
        return Placed {
            token: None,
            at: text.len(),
            end: text.len(),
        };
    }
    let at = at + blanks_in_front(rest_of(text, at));
    let rest = rest_of(text, at);
    match rest {
        [] => Placed {
            token: None,
            at,
            end: at,
        },
        [_, ..] => {
            let (token, len) = front(rest);
            Placed {
                token: Some(token),
                at,
                end: at + len,
            }
        }
    }
}
