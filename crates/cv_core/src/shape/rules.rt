//! The rules that are tested at each place of a program, in their order.
ghost use Rattle.std.specs.Prelude.{◌≡◌, ◌≤◌, length, slice_get};
ghost use Rattle.std.specs.List.{list_any};
ghost use Rattle.cv_core.specs.Shape as spec;

use crate::faults::ShapeRule;
use crate::names::{is_main, stmts_of};
use crate::program::{Form, Proc, Program};
use crate::shape::contracts::contract_formed;
use crate::shape::doubles::{formal_twice, global_twice, literal_twice, local_twice, proc_twice};
use crate::shape::headings::{breaks_extern, breaks_main, is_empty_body};
use crate::shape::kinds::{has_count, has_kinds};
use crate::shape::named::{mentions_unknown, mentions_unlisted, names_unknown, names_unlisted};
use crate::shape::tables::{Names, Scope};

/// Whether a rule stands at a place.
#[derive(Clone, Copy, Debug, PartialEq, Eq)]
pub(crate) struct RuleTest {
    pub rule: ShapeRule,
    pub stands: bool,
}

fn test(rule: ShapeRule, stands: bool) -> RuleTest
    ensures { result ≡ spec.test rule stands }
{
    RuleTest { rule, stands }
}

/// The first rule that stands.
pub(crate) fn first_standing(tests: &[RuleTest]) -> Option<ShapeRule>
    ensures { result ≡ slice_get (spec.standing tests.now) 0 }
{
    match tests {
        [] => None,
        [first, rest @ ..] => {
            if first.stands {
                Some(first.rule)
            } else {
                first_standing(rest)
            }
        }
    }
}

fn is_within(f: &Proc, to: u32) -> bool
    ensures { result ≡ spec.is_within f.now to }
{
    (to as usize) < stmts_of(f).len()
}

/// Whether a jump goes to a statement of its procedure.
fn jumps_within(f: &Proc, form: &Form) -> bool
    ensures { result ≡ spec.jumps_within f.now form.now }
{
    match form {
        Form::Goto(to) => is_within(f, *to),
        Form::If { to, .. } => is_within(f, *to),
        Form::IfByte { to, .. } => is_within(f, *to),
        _ => true,
    }
}

/// Whether a body may end with the statement.
fn may_end(form: &Form) -> bool
    ensures { result ≡ spec.may_end form.now }
{
    matches!(form, Form::Return(_) | Form::Goto(_))
}

fn calls_main(form: &Form) -> bool
    ensures { result ≡ spec.calls_main form.now }
{
    match form {
        Form::Call { f, .. } => is_main(f.as_slice()),
        _ => false,
    }
}

pub(crate) fn global_tests(p: &Program) -> [RuleTest; 1]
    ensures { result ≡ spec.global_tests p.now }
{
    let twice = global_twice(p);
    [test(ShapeRule::DoubleName, twice)]
}

pub(crate) fn literal_tests(n: &Names) -> [RuleTest; 1]
    ensures { result ≡ spec.literal_tests n.entry.now.program.now }
{
    let twice = literal_twice(n);
    [test(ShapeRule::DoubleName, twice)]
}

/// The rules at the heading of the procedure of this number, its formals with it.
pub(crate) fn heading_tests(n: &Names, number: usize, f: &Proc) -> [RuleTest; 4]
    requires { number ≤ length n.now.program.now.procs }
    ensures { result ≡ spec.heading_tests n.entry.now.program.now number f.now }
{
    let proc = proc_twice(n.program, number, f);
    let formal = formal_twice(n, f);
    let empty = is_empty_body(f);
    let main = breaks_main(f);
    let outside = breaks_extern(f);
    [
        test(ShapeRule::DoubleName, proc || formal),
        test(ShapeRule::NoReturn, empty),
        test(ShapeRule::MainForm, main),
        test(ShapeRule::ExternForm, outside),
    ]
}

fn has_body(f: &Proc) -> bool
    ensures { result ≡ spec.has_body f.now.body }
{
    f.body.is_some()
}

/// The rules at the contract.
pub(crate) fn contract_tests(s: &Scope) -> [RuleTest; 3]
    ensures { result ≡ spec.contract_tests s.entry.now.program.now s.entry.now.proc.now }
{
    let unknown = mentions_unknown(s);
    let body = has_body(s.proc);
    let unlisted = mentions_unlisted(s);
    let formed = contract_formed(s, &s.proc.contract);
    [
        test(ShapeRule::UnknownName, unknown),
        test(ShapeRule::UnlistedGlobal, body && unlisted),
        test(ShapeRule::ContractForm, !formed),
    ]
}

/// The rules at the locals.
pub(crate) fn local_tests(n: &Names, f: &Proc) -> [RuleTest; 1]
    ensures { result ≡ spec.local_tests n.entry.now.program.now f.now }
{
    let twice = local_twice(n, f);
    [test(ShapeRule::DoubleName, twice)]
}

/// The rules at a statement, the last one of its body or not.
pub(crate) fn statement_tests(s: &Scope, last: bool, form: &Form) -> [RuleTest; 7]
    ensures { result ≡ spec.statement_tests s.entry.now.program.now s.entry.now.proc.now last form.now }
{
    let unknown = names_unknown(s, form);
    let kinds = has_kinds(s, form);
    let count = has_count(s, form);
    let within = jumps_within(s.proc, form);
    let ends = may_end(form);
    let unlisted = names_unlisted(s, form);
    let main = calls_main(form);
    [
        test(ShapeRule::UnknownName, unknown),
        test(ShapeRule::KindMismatch, !kinds),
        test(ShapeRule::ArgumentCount, !count),
        test(ShapeRule::JumpOutOfRange, !within),
        test(ShapeRule::NoReturn, last && !ends),
        test(ShapeRule::UnlistedGlobal, unlisted),
        test(ShapeRule::MainForm, main),
    ]
}

fn has_main(p: &Program) -> bool
    ensures { result ≡ spec.has_main p.now }
{
    p.procs
        .as_slice()
        .iter()
        .any(|f| is_main(f.name.as_slice()))
}

/// The rules at the end of the program.
pub(crate) fn end_tests(p: &Program) -> [RuleTest; 1]
    ensures { result ≡ spec.end_tests p.now }
{
    let main = has_main(p);
    [test(ShapeRule::NoMain, !main)]
}
