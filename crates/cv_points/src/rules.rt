//! The rules that the statements of a program give for the sets of a family.
ghost use Rattle.std.specs.Prelude.{◌≡◌, ◌<◌, ◌≤◌, IsTrue, Option, Some, bytes_eq, codes, length, slice_get, ℕ};
ghost use Rattle.std.specs.Option.{option_copied, option_map};
ghost use Rattle.cv_core.specs.Names.{local_site as local_site_of, malloc_site as malloc_site_of, place_of, stmts_of as stmts_in};
ghost use Rattle.cv_points.specs.Closed as spec;
ghost use Rattle.cv_points.specs.Holders.{first_holder as first_holder_of, site_of as site_of_name, variable_place as variable_place_of};
ghost use Rattle.cv_core.specs.declared.program.Program.{Program as ProgramValue};
ghost use Rattle.cv_points.specs.Walks.{AreBases, AreStarts, callee_in, word, word_rule};

use crate::holders::{
    Bases, cell_place, malloc_site, proc_number, result_place, site_of, start_of, variable_place,
};
use cv_core::{
    AnyOperand, Bytes, Form, Formal, List, Operand, Proc, Program, VarKind, is_malloc_name,
};

/// A rule on the sets of a family; holders are given by the places of their sets.
#[derive(Clone, Copy, PartialEq, Eq, Debug)]
pub(crate) enum Rule {
    /// The set at `to` has `site`.
    Has { to: usize, site: usize },
    /// The set at `from` is within the one at `to`.
    Includes { from: usize, to: usize },
    /// The set of each cell in the set at `pointer` is within the one at `to`.
    Reads { pointer: usize, to: usize },
    /// The set at `from` is within the set of each cell in the set at `pointer`.
    Writes { from: usize, pointer: usize },
}

fn has(to: Option<usize>, site: Option<usize>) -> Option<Rule>
    ensures { (t s : Option ℕ) → to ≡ option_map word t → site ≡ option_map word s → result ≡ option_map word_rule (spec.both (λ to s. Rule.Has to s) t s) }
{
    match (to, site) {
        (Some(to), Some(site)) => Some(Rule::Has { to, site }),
        _ => None,
    }
}

fn includes(from: Option<usize>, to: Option<usize>) -> Option<Rule>
    ensures { (f t : Option ℕ) → from ≡ option_map word f → to ≡ option_map word t → result ≡ option_map word_rule (spec.both (λ from to. Rule.Includes from to) f t) }
{
    match (from, to) {
        (Some(from), Some(to)) => Some(Rule::Includes { from, to }),
        _ => None,
    }
}

fn reads(pointer: Option<usize>, to: Option<usize>) -> Option<Rule>
    ensures { (w t : Option ℕ) → pointer ≡ option_map word w → to ≡ option_map word t → result ≡ option_map word_rule (spec.both (λ w to. Rule.Reads w to) w t) }
{
    match (pointer, to) {
        (Some(pointer), Some(to)) => Some(Rule::Reads { pointer, to }),
        _ => None,
    }
}

fn writes(from: Option<usize>, pointer: Option<usize>) -> Option<Rule>
    ensures { (f w : Option ℕ) → from ≡ option_map word f → pointer ≡ option_map word w → result ≡ option_map word_rule (spec.both (λ from w. Rule.Writes from w) f w) }
{
    match (from, pointer) {
        (Some(from), Some(pointer)) => Some(Rule::Writes { from, pointer }),
        _ => None,
    }
}

/// The place of the pointer variable of a name.
fn named_place(f: &Proc, first: usize, name: &Bytes) -> Option<usize>
    ensures { (start : ℕ) → first ≡ word start → result ≡ option_map word (variable_place_of start f.now name.now) }
{
    variable_place(f, first, name.as_slice())
}

/// The place of the pointer variable that a destination names.
fn into_place(f: &Proc, first: usize, into: &Option<Bytes>) -> Option<usize>
    ensures { (start : ℕ) → first ≡ word start → result ≡ option_map word (spec.place_in start f.now into.now) }
{
    match into {
        Some(name) => named_place(f, first, name),
        None => None,
    }
}

/// The place of the pointer variable that an operand is.
fn operand_place(f: &Proc, first: usize, e: &AnyOperand) -> Option<usize>
    ensures { (start : ℕ) → first ≡ word start → result ≡ option_map word (spec.operand_place start f.now e.now) }
{
    match e {
        AnyOperand::Operand(operand) => match operand {
            Operand::Var(name) => named_place(f, first, name),
            Operand::Number(_) => None,
        },
        AnyOperand::Null => None,
    }
}

/// The rule of an argument: what it holds is within what the formal holds.
fn argument_rule(
    f: &Proc,
    first: usize,
    g: &Proc,
    start: usize,
    argument: Option<&AnyOperand>,
    formal: Option<&Formal>,
) -> Option<Rule>
    ensures { (a b : ℕ) → first ≡ word a → start ≡ word b → result ≡ option_map word_rule (spec.argument_rule a f.now b g.now (option_copied argument.entry) (option_copied formal.entry)) }
{
    match argument {
        None => None,
        Some(argument) => match formal {
            None => None,
            Some(formal) => includes(
                operand_place(f, first, argument),
                named_place(g, start, &formal.name),
            ),
        },
    }
}

/// The rules of a call of a procedure with a body, by number: the result, then the arguments.
fn numbered_rule(
    f: &Proc,
    first: usize,
    into: &Option<Bytes>,
    args: &List<AnyOperand>,
    g: &Proc,
    start: usize,
    number: usize,
) -> Option<Rule>
    ensures { (a b : ℕ) → first ≡ word a → start ≡ word b → result ≡ option_map word_rule (spec.numbered_rule a f.now into.now args.now b g.now number) }
{
    if number == 0 {
        includes(result_place(g, start), into_place(f, first, into))
    } else {
        argument_rule(
            f,
            first,
            g,
            start,
            args.get(number - 1),
            g.formals.get(number - 1),
        )
    }
}

/// The rule of that number of a call of the procedure `callee`.
fn called_rule(
    p: &Program,
    known: &[usize],
    f: &Proc,
    first: usize,
    into: &Option<Bytes>,
    args: &List<AnyOperand>,
    callee: usize,
    number: usize,
) -> Option<Rule>
    requires { AreStarts p.now known.now }
    ensures { (a : ℕ) → first ≡ word a → result ≡ option_map word_rule (spec.called_rule p.now a f.now into.now args.now callee (slice_get p.now.procs callee) number) }
{
    match p.procs.get(callee) {
        None => None,
        Some(g) => match &g.body {
            None => None,
            Some(_) => numbered_rule(f, first, into, args, g, start_of(p, known, callee), number),
        },
    }
}

/// The number of the first procedure of a name.
fn callee_number(p: &Program, name: &Bytes) -> Option<usize>
    ensures { result ≡ place_of (λ h. h.name) name.now p.now.procs }
{
    proc_number(p.procs.as_slice(), name.as_slice())
}

fn names_malloc(name: &Bytes) -> bool
    ensures { result ≡ bytes_eq name.now (codes "malloc") }
{
    is_malloc_name(name.as_slice())
}

/// The rule of that number of a call of a procedure.
fn procedure_rule(
    p: &Program,
    known: &[usize],
    f: &Proc,
    first: usize,
    into: &Option<Bytes>,
    args: &List<AnyOperand>,
    callee: Option<usize>,
    number: usize,
) -> Option<Rule>
    requires { AreStarts p.now known.now }
    ensures { (a : ℕ) → first ≡ word a → result ≡ option_map word_rule (spec.procedure_rule p.now a f.now into.now args.now callee number) }
{
    match callee {
        None => None,
        Some(callee) => called_rule(p, known, f, first, into, args, callee, number),
    }
}

/// The rule of the result of malloc.
fn malloc_rule(bases: Bases, f: &Proc, statement: usize, into: &Option<Bytes>) -> Option<Rule>
    requires { statement ≤ length (stmts_in f.now.body) }
    ensures { (p : ProgramValue) (proc : ℕ) → slice_get p.procs proc ≡ Some f.now → AreBases p proc bases → result ≡ option_map word_rule (spec.both (λ to s. Rule.Has to s) (spec.place_in (first_holder_of p proc) f.now into.now) (Some (malloc_site_of p proc statement))) }
{
    has(
        into_place(f, bases.first, into),
        Some(malloc_site(f, bases.mallocs, statement)),
    )
}

/// The site of the object of a name.
fn named_site(p: &Program, base: usize, f: &Proc, name: &Bytes) -> Option<usize>
    ensures { (proc : ℕ) → base ≡ word (local_site_of p.now proc) → result ≡ option_map word (site_of_name p.now proc f.now name.now) }
{
    site_of(p, base, f, name.as_slice())
}

/// The rule of that number of a statement that isn't a call.
fn plain_rule(p: &Program, bases: Bases, f: &Proc, form: &Form) -> Option<Rule>
    ensures { (proc : ℕ) → AreBases p.now proc bases → result ≡ option_map word_rule (spec.plain_rule p.now proc f.now form.now) }
{
    let first = bases.first;
    match form {
        Form::CopyPtr { p: to, q } => includes(into_place(f, first, q), named_place(f, first, to)),
        Form::Shift { p: to, q, .. } => includes(
            named_place(f, first, q),
            named_place(f, first, to),
        ),
        Form::Address { p: to, object } => has(
            named_place(f, first, to),
            named_site(p, bases.objects, f, object),
        ),
        Form::Get { x, w } => reads(named_place(f, first, w), named_place(f, first, x)),
        Form::Put { w, value } => writes(operand_place(f, first, value), named_place(f, first, w)),
        Form::Return(value) => match value {
            None => None,
            Some(e) => includes(operand_place(f, first, e), result_place(f, first)),
        },
        Form::Assign { .. } => None,
        Form::Sum { .. } => None,
        Form::Minus { .. } => None,
        Form::Product { .. } => None,
        Form::Quotient { .. } => None,
        Form::Remainder { .. } => None,
        Form::Load { .. } => None,
        Form::Store { .. } => None,
        Form::Diff { .. } => None,
        Form::Goto(_) => None,
        Form::If { .. } => None,
        Form::IfByte { .. } => None,
        Form::Call { .. } => None,
    }
}

/// The number of the procedure that a statement calls by its name.
pub(crate) fn callee_of(p: &Program, form: &Form) -> Option<usize>
    ensures { result ≡ callee_in p.now form.now }
{
    match form {
        Form::Call { f, .. } => callee_number(p, f),
        _ => None,
    }
}

/// The rule of that number of a statement, with the procedure that it calls.
pub(crate) fn form_rule(
    p: &Program,
    known: &[usize],
    bases: Bases,
    f: &Proc,
    statement: usize,
    form: &Form,
    callee: Option<usize>,
    number: usize,
) -> Option<Rule>
    requires known { AreStarts p.now known.now }
    requires there { statement ≤ length (stmts_in f.now.body) }
    requires callee { callee ≡ callee_in p.now form.now }
    ensures { (proc : ℕ) → slice_get p.now.procs proc ≡ Some f.now → AreBases p.now proc bases → result ≡ option_map word_rule (spec.form_rule p.now proc f.now statement form.now number) }
{
    match form {
        Form::Call {
            into,
            f: name,
            args,
        } => {
            if names_malloc(name) {
                malloc_rule(bases, f, statement, into)
            } else {
                procedure_rule(p, known, f, bases.first, into, args, callee, number)
            }
        }
        _ => plain_rule(p, bases, f, form),
    }
}

/// How many arguments a statement passes.
pub(crate) fn argument_count(form: &Form) -> usize
    ensures { result ≡ spec.argument_count form.now }
{
    match form {
        Form::Call { args, .. } => args.len(),
        _ => 0,
    }
}

fn is_text_pointer(kind: VarKind) -> bool
    ensures { result ≡ spec.is_text_pointer kind }
{
    matches!(kind, VarKind::Ptr)
}

/// What the start asks of a formal of main.
pub(crate) fn formal_rule(f: &Proc, first: usize, formal: Option<&Formal>) -> Option<Rule>
    ensures { (a : ℕ) → first ≡ word a → result ≡ option_map word_rule (spec.formal_rule a f.now (option_copied formal.entry)) }
{
    match formal {
        None => None,
        Some(formal) => {
            if is_text_pointer(formal.kind) {
                has(named_place(f, first, &formal.name), Some(0))
            } else {
                None
            }
        }
    }
}

/// What the start asks of a global.
pub(crate) fn global_rule(p: &Program, number: usize) -> Option<Rule>
    requires global { number < length p.now.globals }
    requires room { number < usize.MAX }
    ensures { result ≡ option_map word_rule (spec.global_rule p.now number) }
{
    has(cell_place(p, number + 1), Some(0))
}
