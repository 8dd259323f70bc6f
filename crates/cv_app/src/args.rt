//! The words that main is given.
ghost use Rattle.std.specs.Prelude.{◌≡◌, IfOk, option_map};
ghost use Rattle.cv_app.specs.Args as spec;
ghost use Rattle.cv_app.specs.Commands.{words_of};

use crate::numbers::int_of;
use cv_core::{Formal, VarKind};
use cv_list::Bytes;
use cv_meaning::Arg;
use std::alloc::{AllocError, Global};

const TEXT_LIMIT: usize = 1048576;

/// What a word is for a formal of a kind: an int, or the bytes of a buffer; None where it has another form.
fn arg_of(alloc: Global, kind: VarKind, word: &[u8]) -> Result<Option<Arg>, AllocError>
    ensures { IfOk result (λ arg. arg ≡ spec.arg_of kind word.now) }
{
    match kind {
        VarKind::Int => Ok(int_of(word).map(|value| Arg::Int(value))),
        VarKind::Ptr if word.len() <= TEXT_LIMIT => {
            Ok(Some(Arg::Text(Bytes::from_slice(alloc, word)?)))
        }
        _ => Ok(None),
    }
}

/// One word for each formal; None where there are more or fewer words, or one is of another form.
pub(crate) fn args_of(
    alloc: Global,
    formals: &[Formal],
    words: &[Vec<u8>],
) -> Result<Option<Vec<Arg>>, AllocError>
    ensures { IfOk result (λ args. option_map (λ vec. vec.items) args ≡ spec.args_of formals.now (words_of words.now)) }
{
    let mut args = Vec::new(alloc);
    let mut formals = formals;
    let mut words = words;
    while let [formal, more @ ..] = formals {
        let [word, rest @ ..] = words else {
            return Ok(None);
        };
        let Some(arg) = arg_of(alloc, formal.kind, word)? else {
            return Ok(None);
        };
        args.push(arg)?;
        formals = more;
        words = rest;
    }
    Ok(if words.is_empty() { Some(args) } else { None })
}
