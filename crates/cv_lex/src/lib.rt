//! The tokens of CoreC text and of C text: a lexer whose tokens borrow the text.
#![tactic(auto)]

mod begin;
mod bytes;
mod lexer;
mod number;
mod quoted;
mod token;

pub use lexer::Lexer;
pub use token::{LexFault, LexRule, Token, TokenKind};
