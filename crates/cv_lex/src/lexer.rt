//! The lexer: one token of a text after the other.

ghost use Rattle.std.specs.Prelude.{◌≡◌, ◌<◌, ◌≤◌, ◌^◌, ◌+◌, length, drop, take};
ghost use Rattle.std.specs.List.{count_by};
ghost use Rattle.cv_lex.specs.Bytes as spec;
ghost use Rattle.cv_lex.specs.Tokens.{begun_at, first_answer, line_at, starts_line as starts, tokens_from, without_first};
ghost use Rattle.cv_lex.specs.Given.{IsSlice, OnNone, OnToken, end_of, piece_of, seen};
ghost use Rattle.cv_lex.specs.Parts.{Fits};

use crate::begin::{Front, begun};
use crate::bytes::{blanks_in_front, byte};
use crate::token::{LexFault, Token, TokenKind};
use std::marker::Model;

/// Gives the tokens of a text in order. Contracts see it as the text and the place up to which tokens are taken.
#[derive(Debug, Drop)]
pub struct Lexer<'a> {
    source: &'a [u8],
    at: usize,
    line: u32,
}

impl<'a> Model for Lexer<'a> {
    ghost use Rattle.std.specs.Prelude.{◌≡◌, ◌≤◌, length};
    ghost use Rattle.cv_lex.specs.Tokens.{Cursor, line_at};

    ghost Value = { Cursor };

    ghost view = { λ l. record { source = l.source.now; at = l.at } };

    ghost invariant = { λ l. (l.at ≤ length l.source.now) × (length l.source.now ≤ 4294967294) × (l.line ≡ line_at l.source.now l.at) };
}

/// How many newlines there are.
fn newlines(text: &[u8]) -> u32
    requires { length text.now ≤ 4294967294 }
    ensures count { result ≡ count_by spec.is_newline text.now }
    ensures within { result ≤ length text.now }
{
    text.iter().filter(|c| **c == b'\n').count() as u32
}

/// Whether the byte at a place is the first of its line.
fn starts_line(source: &[u8], at: usize) -> bool
    ensures { result ≡ starts source.now at }
{
    if at == 0 {
        return true;
    }
    byte(source, at - 1) == b'\n'
}

/// The line of a place at or behind another, of which the line is given.
#[tactic(auto, using(crate::proofs::Scanning::line_behind, crate::proofs::Scanning::line_within))]
fn line_behind(source: &[u8], from: usize, at: usize, line: u32) -> u32
    requires order { from ≤ at }
    requires place { at ≤ length source.now }
    requires size { length source.now ≤ 4294967294 }
    requires line { line ≡ line_at source.now from }
    ensures { result ≡ line_at source.now at }
{
    line + newlines(&source[from..at])
}

/// What begins at a place before the end.
fn front_at(source: &[u8], at: usize) -> Front
    requires { at < length source.now }
    ensures front { result ≡ begun_at source.now at }
    ensures within { Fits (drop at source.now) result }
{
    begun(starts_line(source, at), byte(source, at), &source[at..])
}

/// The place of the first byte at or behind another that is no blank, or the end.
fn past_blanks(source: &[u8], from: usize) -> usize
    requires { from ≤ length source.now }
    ensures place { result ≡ from + spec.run spec.is_blank (drop from source.now) }
    ensures within { result ≤ length source.now }
{
    from + blanks_in_front(&source[from..])
}

/// The token of so many bytes at a place.
fn token_at(source: &[u8], kind: TokenKind, at: usize, len: usize, line: u32) -> Token<'_>
    requires place { at + len ≤ length source.now }
    requires size { length source.now ≤ 4294967294 }
    ensures { piece_of result ≡ record { kind = kind; text = take len (drop at source.now); at = at; line = line } }
{
    Token {
        kind,
        text: &source[at..at + len],
        at: at as u32,
        line,
    }
}

/// The first token at or behind a place of the text, which has this line.
fn token_from(source: &[u8], from: usize, line: u32) -> Result<Option<Token<'_>>, LexFault>
    requires place { from ≤ length source.now }
    requires size { length source.now ≤ 4294967294 }
    requires line { line ≡ line_at source.now from }
    ensures answer { seen result ≡ first_answer (tokens_from (record { source = source.now; at = from })) }
    ensures rest { OnToken result (λ t. tokens_from (record { source = source.now; at = end_of t }) ≡ without_first (tokens_from (record { source = source.now; at = from }))) }
    ensures slice { OnToken result (IsSlice source.now) }
    ensures order { OnToken result (λ t. (from ≤ t.at) × (0 < length t.text.now) × (end_of t ≤ length source.now)) }
    ensures lines { OnToken result (λ t. t.line ≡ line_at source.now t.at) }
{
    let at = past_blanks(source, from);
    if source.len() <= at {
        return Ok(None);
    }
    match front_at(source, at) {
        Front::Broken(rule) => Err(LexFault {
            rule,
            at: at as u32,
        }),
        Front::Part(kind, len) => {
            let line = line_behind(source, from, at, line);
            Ok(Some(token_at(source, kind, at, len, line)))
        }
    }
}

impl<'a> Lexer<'a> {
    /// A lexer at the front of the text, which has at most 4294967294 bytes. It takes no memory.
    pub fn new(source: &'a [u8]) -> Lexer<'a>
        requires { length source.now ≤ 4294967294 }
        ensures { result ≡ record { source = source.now; at = 0 } }
    {
        Lexer {
            source,
            at: 0,
            line: 1,
        }
    }

    /// The next token; None at the end of the text, and at each further call. It takes no memory.
    ///
    /// # Errors
    ///
    /// The fault where the next token can't be read, and at each further call. The lexer is unchanged then.
    pub fn next(&mut self) -> Result<Option<Token<'a>>, LexFault>
        ensures answer { seen result ≡ first_answer (tokens_from self.old) }
        ensures rest { OnToken result (λ _. tokens_from self.new ≡ without_first (tokens_from self.old)) }
        ensures again { OnNone result (self.new ≡ self.old) }
        ensures slice { OnToken result (IsSlice self.old.source) }
        ensures order { OnToken result (λ t. (self.old.at ≤ t.at) × (0 < length t.text.now) × (self.new.at ≡ end_of t) × (self.new.at ≤ length self.old.source)) }
        ensures source { self.new.source ≡ self.old.source }
    {
        match token_from(self.source, self.at, self.line) {
            Ok(Some(token)) => {
                let at = token.at as usize;
                let end = at + token.text.len();
                self.line = line_behind(self.source, at, end, token.line);
                self.at = end;
                Ok(Some(token))
            }
            Ok(None) => Ok(None),
            Err(fault) => Err(fault),
        }
    }
}
