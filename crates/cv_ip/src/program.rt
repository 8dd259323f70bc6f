//! The parts of an integer program. Variables are numbers from 0 on, and rows are constraints: each is at least 0.
use cv_core::ErrKind;
use cv_list::List;
use cv_num::{Assign, Row};
use std::marker::Model;

/// A step from one statement to another: where the guard holds, the assigned variables become what their rows are
/// worth, and the others stay.
#[derive(Debug, Drop)]
pub struct Transition {
    pub guard: List<Row>,
    /// How many fresh variables it has. They may have any values, and are numbered from the program's `vars` on.
    pub fresh: u32,
    pub assign: Assign,
    /// The number of the statement to which it goes, from 0.
    pub to: u32,
}

/// An obligation: where the guard holds, all goals of some alternative are to hold, else there is an error.
#[derive(Debug, Drop)]
pub struct Group {
    pub guard: List<Row>,
    pub alternatives: List<List<Row>>,
    pub kind: ErrKind,
    /// The line of the statement, from 1.
    pub line: u32,
}

/// What there is at a statement.
#[derive(Debug, Drop)]
pub struct IpPlace {
    pub groups: List<Group>,
    pub transitions: List<Transition>,
}

/// A variable that holds the code of a pointer, and its codes, ascending.
#[derive(Debug, Drop)]
pub struct CodeSet {
    pub var: u32,
    pub codes: List<i32>,
}

/// A procedure under an alias case. Contracts see it as the record of its parts, in range: it has a place, at most 200
/// variables, and all variables and places that stand in it are its own.
#[derive(Debug, Drop)]
pub struct IntProgram {
    /// How many variables there are.
    pub vars: u32,
    /// The variables that hold codes, ascending by variable.
    pub codes: List<CodeSet>,
    /// What holds at each statement.
    pub facts: List<Row>,
    /// What holds as the procedure is entered, at statement 0.
    pub entry: List<Row>,
    /// One for each statement.
    pub places: List<IpPlace>,
}

impl Model for IntProgram {
    ghost use Rattle.cv_ip.specs.Formed.{Parts, IsFormed};

    ghost Value = { Parts };

    ghost view = { λ p. record { vars = p.vars; codes = p.codes; facts = p.facts; entry = p.entry; places = p.places } };

    ghost invariant = { λ p. IsFormed (record { vars = p.vars; codes = p.codes; facts = p.facts; entry = p.entry; places = p.places }) };
}
