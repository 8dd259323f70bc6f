//! Printing statements.
ghost use Rattle.std.specs.Prelude.{◌≡◌, ◌++◌, ◌∷◌, [], codes, decimal, flat_map, OnOk};
ghost use Rattle.std.specs.Fmt.{signed_decimal};
ghost use Rattle.cv_text.specs.PrintedContract.{joined, rel_text};
ghost use Rattle.cv_text.specs.Printed as spec;

use crate::print_contract::{push_natural, push_rel};
use cv_core::{AnyOperand, Bytes, Form, Operand, Rel, Stmt};
use itoa::Buffer;
use std::alloc::AllocError;

/// Appends a number with a minus before it where it is below 0.
fn push_number(out: &mut Vec<u8>, z: i32) -> Result<(), AllocError>
    ensures { OnOk result (out.new.items ≡ out.old.items ++ signed_decimal z) }
{
    let mut buffer = Buffer::new();
    out.extend_from_slice(buffer.format(z).as_bytes())?;
    Ok(())
}

/// Appends a number or a variable.
fn push_operand(out: &mut Vec<u8>, e: &Operand) -> Result<(), AllocError>
    ensures { OnOk result (out.new.items ≡ out.old.items ++ spec.operand_text e.now) }
{
    match e {
        Operand::Var(x) => {
            out.extend_from_slice(x.as_slice())?;
            Ok(())
        }
        Operand::Number(z) => push_number(out, *z),
    }
}

fn push_any(out: &mut Vec<u8>, e: &AnyOperand) -> Result<(), AllocError>
    ensures { OnOk result (out.new.items ≡ out.old.items ++ spec.any_text e.now) }
{
    match e {
        AnyOperand::Operand(e) => push_operand(out, e),
        AnyOperand::Null => {
            out.extend_from_slice(b"null")?;
            Ok(())
        }
    }
}

fn push_later_arguments(out: &mut Vec<u8>, args: &[AnyOperand]) -> Result<(), AllocError>
    ensures { OnOk result (out.new.items ≡ out.old.items ++ flat_map (λ e. codes ", " ++ spec.any_text e) args.now) }
{
    for e in args {
        out.extend_from_slice(b", ")?;
        push_any(out, e)?;
    }
    Ok(())
}

fn push_arguments(out: &mut Vec<u8>, args: &[AnyOperand]) -> Result<(), AllocError>
    ensures { OnOk result (out.new.items ≡ out.old.items ++ joined (codes ", ") spec.any_text args.now) }
{
    match args {
        [] => Ok(()),
        [first, rest @ ..] => {
            push_any(out, first)?;
            push_later_arguments(out, rest)
        }
    }
}

fn push_call(out: &mut Vec<u8>, f: &[u8], args: &[AnyOperand]) -> Result<(), AllocError>
    ensures { OnOk result (out.new.items ≡ out.old.items ++ spec.call_text f.now args.now) }
{
    out.extend_from_slice(b"call ")?;
    out.extend_from_slice(f)?;
    out.push(b'(')?;
    push_arguments(out, args)?;
    out.extend_from_slice(b");")?;
    Ok(())
}

/// Appends `X = ` and what is assigned first.
fn push_assigned(out: &mut Vec<u8>, x: &[u8], e: &Operand) -> Result<(), AllocError>
    ensures { OnOk result (out.new.items ≡ out.old.items ++ x.now ++ codes " = " ++ spec.operand_text e.now) }
{
    out.extend_from_slice(x)?;
    out.extend_from_slice(b" = ")?;
    push_operand(out, e)
}

/// Appends `X = E` and the semicolon.
fn push_assign(out: &mut Vec<u8>, x: &[u8], e: &Operand) -> Result<(), AllocError>
    ensures { OnOk result (out.new.items ≡ out.old.items ++ (x.now ++ codes " = " ++ spec.operand_text e.now ++ codes ";")) }
{
    push_assigned(out, x, e)?;
    out.push(b';')?;
    Ok(())
}

/// Appends `X = E`, a sign with blanks, an operand and the semicolon.
fn push_two(
    out: &mut Vec<u8>,
    x: &[u8],
    e: &Operand,
    sign: &[u8],
    f: &Operand,
) -> Result<(), AllocError>
    ensures { OnOk result (out.new.items ≡ out.old.items ++ (x.now ++ codes " = " ++ spec.operand_text e.now ++ sign.now ++ spec.operand_text f.now ++ codes ";")) }
{
    push_assigned(out, x, e)?;
    out.extend_from_slice(sign)?;
    push_operand(out, f)?;
    out.push(b';')?;
    Ok(())
}

/// Appends `X = E`, a sign with blanks, a number and the semicolon.
fn push_divided(
    out: &mut Vec<u8>,
    x: &[u8],
    e: &Operand,
    sign: &[u8],
    k: i32,
) -> Result<(), AllocError>
    ensures { OnOk result (out.new.items ≡ out.old.items ++ (x.now ++ codes " = " ++ spec.operand_text e.now ++ sign.now ++ signed_decimal k ++ codes ";")) }
{
    push_assigned(out, x, e)?;
    out.extend_from_slice(sign)?;
    push_number(out, k)?;
    out.push(b';')?;
    Ok(())
}

fn push_product(out: &mut Vec<u8>, x: &[u8], k: i32, e: &Operand) -> Result<(), AllocError>
    ensures { OnOk result (out.new.items ≡ out.old.items ++ (x.now ++ codes " = " ++ signed_decimal k ++ codes " * " ++ spec.operand_text e.now ++ codes ";")) }
{
    out.extend_from_slice(x)?;
    out.extend_from_slice(b" = ")?;
    push_number(out, k)?;
    out.extend_from_slice(b" * ")?;
    push_operand(out, e)?;
    out.push(b';')?;
    Ok(())
}

/// Appends a name, what stands between, another name and the semicolon.
fn push_names(out: &mut Vec<u8>, x: &[u8], between: &[u8], y: &[u8]) -> Result<(), AllocError>
    ensures { OnOk result (out.new.items ≡ out.old.items ++ (x.now ++ between.now ++ y.now ++ codes ";")) }
{
    out.extend_from_slice(x)?;
    out.extend_from_slice(between)?;
    out.extend_from_slice(y)?;
    out.push(b';')?;
    Ok(())
}

fn push_copy(out: &mut Vec<u8>, p: &[u8], q: &Option<Bytes>) -> Result<(), AllocError>
    ensures { OnOk result (out.new.items ≡ out.old.items ++ spec.copy_text p.now q.now) }
{
    match q {
        Some(q) => push_names(out, p, b" = ", q.as_slice()),
        None => {
            out.extend_from_slice(p)?;
            out.extend_from_slice(b" = null;")?;
            Ok(())
        }
    }
}

fn push_shift(out: &mut Vec<u8>, p: &[u8], q: &[u8], e: &Operand) -> Result<(), AllocError>
    ensures { OnOk result (out.new.items ≡ out.old.items ++ (p.now ++ codes " = " ++ q.now ++ codes " + " ++ spec.operand_text e.now ++ codes ";")) }
{
    out.extend_from_slice(p)?;
    out.extend_from_slice(b" = ")?;
    out.extend_from_slice(q)?;
    out.extend_from_slice(b" + ")?;
    push_operand(out, e)?;
    out.push(b';')?;
    Ok(())
}

fn push_store(out: &mut Vec<u8>, p: &[u8], e: &Operand) -> Result<(), AllocError>
    ensures { OnOk result (out.new.items ≡ out.old.items ++ (codes "store " ++ p.now ++ codes ", " ++ spec.operand_text e.now ++ codes ";")) }
{
    out.extend_from_slice(b"store ")?;
    out.extend_from_slice(p)?;
    out.extend_from_slice(b", ")?;
    push_operand(out, e)?;
    out.push(b';')?;
    Ok(())
}

fn push_put(out: &mut Vec<u8>, w: &[u8], e: &AnyOperand) -> Result<(), AllocError>
    ensures { OnOk result (out.new.items ≡ out.old.items ++ (codes "put " ++ w.now ++ codes ", " ++ spec.any_text e.now ++ codes ";")) }
{
    out.extend_from_slice(b"put ")?;
    out.extend_from_slice(w)?;
    out.extend_from_slice(b", ")?;
    push_any(out, e)?;
    out.push(b';')?;
    Ok(())
}

fn push_diff(out: &mut Vec<u8>, x: &[u8], p: &[u8], q: &[u8]) -> Result<(), AllocError>
    ensures { OnOk result (out.new.items ≡ out.old.items ++ (x.now ++ codes " = diff " ++ p.now ++ codes ", " ++ q.now ++ codes ";")) }
{
    out.extend_from_slice(x)?;
    out.extend_from_slice(b" = diff ")?;
    push_names(out, p, b", ", q)
}

/// Appends the number of a statement and the semicolon.
fn push_jump(out: &mut Vec<u8>, before: &[u8], to: u32) -> Result<(), AllocError>
    ensures { OnOk result (out.new.items ≡ out.old.items ++ before.now ++ decimal to ++ codes ";") }
{
    out.extend_from_slice(before)?;
    push_natural(out, to)?;
    out.push(b';')?;
    Ok(())
}

fn push_if(
    out: &mut Vec<u8>,
    e: &Operand,
    r: Rel,
    f: &AnyOperand,
    to: u32,
) -> Result<(), AllocError>
    ensures { OnOk result (out.new.items ≡ out.old.items ++ (codes "if " ++ spec.operand_text e.now ++ rel_text r ++ spec.any_text f.now ++ codes " goto " ++ decimal to ++ codes ";")) }
{
    out.extend_from_slice(b"if ")?;
    push_operand(out, e)?;
    push_rel(out, r)?;
    push_any(out, f)?;
    push_jump(out, b" goto ", to)
}

fn push_if_byte(out: &mut Vec<u8>, p: &[u8], equal: bool, to: u32) -> Result<(), AllocError>
    ensures { OnOk result (out.new.items ≡ out.old.items ++ (codes "if load " ++ p.now ++ spec.zero_test_text equal ++ decimal to ++ codes ";")) }
{
    let test: &[u8] = if equal {
        b" == 0 goto "
    } else {
        b" != 0 goto "
    };
    out.extend_from_slice(b"if load ")?;
    out.extend_from_slice(p)?;
    push_jump(out, test, to)
}

fn push_call_into(
    out: &mut Vec<u8>,
    into: &Option<Bytes>,
    f: &[u8],
    args: &[AnyOperand],
) -> Result<(), AllocError>
    ensures { OnOk result (out.new.items ≡ out.old.items ++ spec.call_into_text into.now f.now args.now) }
{
    match into {
        None => push_call(out, f, args),
        Some(x) => {
            out.extend_from_slice(x.as_slice())?;
            out.extend_from_slice(b" = ")?;
            push_call(out, f, args)
        }
    }
}

fn push_return(out: &mut Vec<u8>, e: &Option<AnyOperand>) -> Result<(), AllocError>
    ensures { OnOk result (out.new.items ≡ out.old.items ++ spec.return_text e.now) }
{
    match e {
        None => {
            out.extend_from_slice(b"return;")?;
            Ok(())
        }
        Some(e) => {
            out.extend_from_slice(b"return ")?;
            push_any(out, e)?;
            out.push(b';')?;
            Ok(())
        }
    }
}

/// Appends what a statement says.
fn push_form(out: &mut Vec<u8>, form: &Form) -> Result<(), AllocError>
    ensures { OnOk result (out.new.items ≡ out.old.items ++ spec.form_text form.now) }
{
    match form {
        Form::Assign { x, e } => push_assign(out, x.as_slice(), e),
        Form::Sum { x, e, f } => push_two(out, x.as_slice(), e, b" + ", f),
        Form::Minus { x, e, f } => push_two(out, x.as_slice(), e, b" - ", f),
        Form::Product { x, k, e } => push_product(out, x.as_slice(), *k, e),
        Form::Quotient { x, e, k } => push_divided(out, x.as_slice(), e, b" / ", *k),
        Form::Remainder { x, e, k } => push_divided(out, x.as_slice(), e, b" % ", *k),
        Form::CopyPtr { p, q } => push_copy(out, p.as_slice(), q),
        Form::Address { p, object } => push_names(out, p.as_slice(), b" = &", object.as_slice()),
        Form::Shift { p, q, e } => push_shift(out, p.as_slice(), q.as_slice(), e),
        Form::Load { x, p } => push_names(out, x.as_slice(), b" = load ", p.as_slice()),
        Form::Store { p, e } => push_store(out, p.as_slice(), e),
        Form::Get { x, w } => push_names(out, x.as_slice(), b" = get ", w.as_slice()),
        Form::Put { w, value } => push_put(out, w.as_slice(), value),
        Form::Diff { x, p, q } => push_diff(out, x.as_slice(), p.as_slice(), q.as_slice()),
        Form::Goto(to) => push_jump(out, b"goto ", *to),
        Form::If {
            left,
            rel,
            right,
            to,
        } => push_if(out, left, *rel, right, *to),
        Form::IfByte { p, equal, to } => push_if_byte(out, p.as_slice(), *equal, *to),
        Form::Call { into, f, args } => push_call_into(out, into, f.as_slice(), args.as_slice()),
        Form::Return(e) => push_return(out, e),
    }
}

/// Appends the line of a statement.
fn push_statement(out: &mut Vec<u8>, s: &Stmt) -> Result<(), AllocError>
    ensures { OnOk result (out.new.items ≡ out.old.items ++ spec.statement_text s.now) }
{
    push_natural(out, s.line)?;
    out.extend_from_slice(b": ")?;
    push_form(out, &s.form)?;
    out.push(b'\n')?;
    Ok(())
}

/// Appends the lines of statements.
pub(crate) fn push_statements(out: &mut Vec<u8>, stmts: &[Stmt]) -> Result<(), AllocError>
    ensures { OnOk result (out.new.items ≡ out.old.items ++ flat_map spec.statement_text stmts.now) }
{
    for s in stmts {
        push_statement(out, s)?;
    }
    Ok(())
}
