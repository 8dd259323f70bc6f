use cv_list::List;
use std::marker::Model;

/// The kinds of error of a run, in the order in which a statement tests them.
#[derive(Clone, Copy, PartialEq, Eq, Debug)]
pub enum ErrKind {
    Range,
    Null,
    Wild,
    Dead,
    Bounds,
    Terminator,
    Literal,
    Modifies,
    Requires,
    Ensures,
}

#[derive(Clone, Copy, PartialEq, Eq, Debug)]
pub enum ShapeRule {
    DoubleName,
    UnknownName,
    KindMismatch,
    ArgumentCount,
    JumpOutOfRange,
    NoReturn,
    UnlistedGlobal,
    MainForm,
    ExternForm,
    ContractForm,
    NoMain,
}

#[derive(Clone, Copy, PartialEq, Eq, Debug)]
pub struct ShapeFault {
    pub rule: ShapeRule,
    pub proc: u32,
    pub line: u32,
}

#[derive(Clone, Copy, PartialEq, Eq, Debug)]
pub enum LimitName {
    File,
    Certificate,
    Input,
    Nesting,
    Procedures,
    Globals,
    Literals,
    Literal,
    Formals,
    Locals,
    Statements,
    Atoms,
    Parts,
    Alternatives,
    Cases,
    Variables,
    Transitions,
    Templates,
}

#[derive(Clone, Copy, PartialEq, Eq, Debug)]
pub struct LimitFault {
    pub which: LimitName,
    pub count: u64,
}

/// One ascending list of sites for each holder of a pointer. Contracts see it as the list of these lists.
#[derive(Debug, Drop)]
pub struct PtsTable {
    pub sets: List<List<u32>>,
}

impl Model for PtsTable {
    ghost use Rattle.std.specs.Prelude.{List as Items, ℕ};
    ghost use Rattle.std.specs.Coded.{coded_list, coded_ℕ};

    ghost Value = { Items (Items ℕ) };

    ghost coded = { coded_list (coded_list coded_ℕ) };

    ghost view = { λ table. table.sets };

    ghost inverse = { λ sets. record { sets = sets } };
}
