//! The rules of all statements of a program, as one list.
ghost use Rattle.std.specs.Prelude.{◌≡◌, ◌<◌, ◌≤◌, IfOk, OnOk, Option as Maybe, Some, length, slice_get, true, ℕ};
ghost use Rattle.std.specs.Option.{option_map};
ghost use Rattle.cv_core.specs.Names.{stmts_of as stmts_in};
ghost use Rattle.cv_core.specs.declared.program.Program.{Program as ProgramValue};
ghost use Rattle.cv_points.specs.Closed as spec;
ghost use Rattle.cv_points.specs.Growing.{AddsRules, AreRules};
ghost use Rattle.cv_points.specs.Holders.{first_holder as first_holder_of};
ghost use Rattle.cv_points.specs.Walks.{AreBases, AreStarts, callee_in, word_rule};
ghost use Rattle.cv_points.specs.declared.rules.Rule.{Rule as RuleValue};

use crate::holders::{Bases, bases_of, proc_count, starts};
use crate::rules::{Rule, argument_count, callee_of, form_rule, formal_rule, global_rule};
use crate::statements::{global_count, is_start, statement_at};
use cv_core::{Form, Proc, Program, stmts_of};
use std::alloc::{AllocError, Global};

/// Whether a word holds each number of a rule.
fn fits(rule: &Rule) -> bool
    ensures { (r : RuleValue) → rule.now ≡ word_rule r → result ≡ true → rule.now ≡ r }
{
    match *rule {
        Rule::Has { to, site } => to < usize::MAX && site < usize::MAX,
        Rule::Includes { from, to } => from < usize::MAX && to < usize::MAX,
        Rule::Reads { pointer, to } => pointer < usize::MAX && to < usize::MAX,
        Rule::Writes { from, pointer } => from < usize::MAX && pointer < usize::MAX,
    }
}

/// Puts a rule behind the others. A number that a word can't hold has no room in memory.
fn put_rule(rules: &mut Vec<Rule>, rule: Option<Rule>) -> Result<(), AllocError>
    ensures { OnOk result ((P : ProgramValue) (r : Maybe RuleValue) → rule ≡ option_map word_rule r → AddsRules P rules.old.items rules.new.items (λ S. spec.MaybeHolds P S r)) }
{
    match rule {
        None => Ok(()),
        Some(rule) => {
            if !fits(&rule) {
                return Err(AllocError);
            }
            rules.push(rule)?;
            Ok(())
        }
    }
}

/// Puts the rule of that number of a statement behind the others.
fn put_numbered(
    rules: &mut Vec<Rule>,
    p: &Program,
    known: &[usize],
    proc: usize,
    bases: Bases,
    f: &Proc,
    statement: usize,
    form: &Form,
    callee: Option<usize>,
    number: usize,
) -> Result<(), AllocError>
    requires known { AreStarts p.now known.now }
    requires bases { AreBases p.now proc bases }
    requires callee { callee ≡ callee_in p.now form.now }
    requires here { slice_get p.now.procs proc ≡ Some f.now }
    requires among { proc ≤ length p.now.procs }
    requires there { statement ≤ length (stmts_in f.now.body) }
    ensures { OnOk result (AddsRules p.now rules.old.items rules.new.items (λ S. spec.MaybeHolds p.now S (spec.form_rule p.now proc f.now statement form.now number))) }
{
    put_rule(
        rules,
        form_rule(p, known, bases, f, statement, form, callee, number),
    )?;
    Ok(())
}

/// Puts the rules of a statement behind the others.
fn put_form(
    rules: &mut Vec<Rule>,
    p: &Program,
    known: &[usize],
    proc: usize,
    bases: Bases,
    f: &Proc,
    statement: usize,
    form: &Form,
) -> Result<(), AllocError>
    requires known { AreStarts p.now known.now }
    requires bases { AreBases p.now proc bases }
    requires here { slice_get p.now.procs proc ≡ Some f.now }
    requires among { proc ≤ length p.now.procs }
    requires there { statement ≤ length (stmts_in f.now.body) }
    ensures { OnOk result (AddsRules p.now rules.old.items rules.new.items (λ S. (n : ℕ) → spec.MaybeHolds p.now S (spec.form_rule p.now proc f.now statement form.now n))) }
{
    let callee = callee_of(p, form);
    put_numbered(rules, p, known, proc, bases, f, statement, form, callee, 0)?;
    for number in 0..argument_count(form) {
        put_numbered(
            rules,
            p,
            known,
            proc,
            bases,
            f,
            statement,
            form,
            callee,
            number + 1,
        )?;
    }
    Ok(())
}

/// Puts what the start asks of main's formals behind the other rules.
fn put_formals(
    rules: &mut Vec<Rule>,
    p: &Program,
    proc: usize,
    bases: Bases,
    f: &Proc,
) -> Result<(), AllocError>
    requires { AreBases p.now proc bases }
    ensures { OnOk result (AddsRules p.now rules.old.items rules.new.items (λ S. (n : ℕ) → spec.MaybeHolds p.now S (spec.formal_rule (first_holder_of p.now proc) f.now (slice_get f.now.formals n)))) }
{
    for number in 0..f.formals.len() {
        put_rule(rules, formal_rule(f, bases.first, f.formals.get(number)))?;
    }
    Ok(())
}

/// Puts what the start asks of pointer globals behind the other rules.
fn put_globals(rules: &mut Vec<Rule>, p: &Program) -> Result<(), AllocError>
    ensures { OnOk result (AddsRules p.now rules.old.items rules.new.items (λ S. (n : ℕ) → spec.MaybeHolds p.now S (spec.global_rule p.now n))) }
{
    for number in 0..global_count(p) {
        put_rule(rules, global_rule(p, number))?;
    }
    Ok(())
}

/// Puts what the start asks for behind the other rules.
fn put_start(
    rules: &mut Vec<Rule>,
    p: &Program,
    proc: usize,
    bases: Bases,
    f: &Proc,
) -> Result<(), AllocError>
    requires { AreBases p.now proc bases }
    ensures { OnOk result (AddsRules p.now rules.old.items rules.new.items (λ S. spec.Starts p.now S proc f.now)) }
{
    put_formals(rules, p, proc, bases, f)?;
    put_globals(rules, p)?;
    Ok(())
}

/// Puts the rules of a statement, and those of the start where it is main's first, behind the others.
fn put_statement(
    rules: &mut Vec<Rule>,
    p: &Program,
    known: &[usize],
    proc: usize,
    bases: Bases,
    f: &Proc,
    statement: usize,
    form: &Form,
) -> Result<(), AllocError>
    requires known { AreStarts p.now known.now }
    requires bases { AreBases p.now proc bases }
    requires here { slice_get p.now.procs proc ≡ Some f.now }
    requires among { proc ≤ length p.now.procs }
    requires there { statement ≤ length (stmts_in f.now.body) }
    ensures { OnOk result (AddsRules p.now rules.old.items rules.new.items (λ S. spec.StatementHolds p.now S proc f.now statement form.now)) }
{
    put_form(rules, p, known, proc, bases, f, statement, form)?;
    if is_start(f, statement) {
        put_start(rules, p, proc, bases, f)?;
    }
    Ok(())
}

/// Puts the rules of the statement of that number behind the others.
fn put_at(
    rules: &mut Vec<Rule>,
    p: &Program,
    known: &[usize],
    proc: usize,
    bases: Bases,
    f: &Proc,
    statement: usize,
) -> Result<(), AllocError>
    requires known { AreStarts p.now known.now }
    requires bases { AreBases p.now proc bases }
    requires here { slice_get p.now.procs proc ≡ Some f.now }
    requires among { proc ≤ length p.now.procs }
    requires there { statement ≤ length (stmts_in f.now.body) }
    ensures { OnOk result (AddsRules p.now rules.old.items rules.new.items (λ S. spec.HoldsIn p.now S proc f.now statement)) }
{
    match statement_at(f, statement) {
        None => Ok(()),
        Some(s) => {
            put_statement(rules, p, known, proc, bases, f, statement, &s.form)?;
            Ok(())
        }
    }
}

/// Puts the rules of the statements of a procedure behind the others.
fn put_proc(
    rules: &mut Vec<Rule>,
    p: &Program,
    known: &[usize],
    proc: usize,
    bases: Bases,
    f: &Proc,
) -> Result<(), AllocError>
    requires known { AreStarts p.now known.now }
    requires bases { AreBases p.now proc bases }
    requires here { slice_get p.now.procs proc ≡ Some f.now }
    requires among { proc ≤ length p.now.procs }
    ensures { OnOk result (AddsRules p.now rules.old.items rules.new.items (λ S. (k : ℕ) → spec.HoldsIn p.now S proc f.now k)) }
{
    for statement in 0..stmts_of(f).len() {
        put_at(rules, p, known, proc, bases, f, statement)?;
    }
    Ok(())
}

/// Puts the rules of the statements of the procedure of that number behind the others.
fn put_proc_at(
    rules: &mut Vec<Rule>,
    p: &Program,
    known: &[usize],
    proc: usize,
) -> Result<(), AllocError>
    requires known { AreStarts p.now known.now }
    requires among { proc ≤ length p.now.procs }
    ensures { OnOk result (AddsRules p.now rules.old.items rules.new.items (λ S. (k : ℕ) → spec.HoldsAt p.now S proc k)) }
{
    match p.procs.get(proc) {
        None => Ok(()),
        Some(f) => {
            put_proc(rules, p, known, proc, bases_of(p, proc), f)?;
            Ok(())
        }
    }
}

/// The rules of a program: a family keeps them all where it is closed, and nowhere else.
pub(crate) fn all_rules(alloc: Global, p: &Program) -> Result<Vec<Rule>, AllocError>
    ensures { IfOk result (λ rules. AreRules p.now rules.items) }
{
    let known = starts(p);
    let mut rules = Vec::new(alloc);
    for proc in 0..proc_count(p) {
        put_proc_at(&mut rules, p, known.as_slice(), proc)?;
    }
    Ok(rules)
}
