//! The types of programs and contracts, of points-to families, and of the faults that all layers name.
#![tactic(auto)]

mod chars;
mod contracts;
mod faults;
mod laws;
mod limits;
mod names;
mod program;
mod shape;

pub use chars::{char_of, greatest_char, least_char, low_byte};
pub use contracts::{BuiltIns, built_ins, callee};
pub use cv_list::{Bytes, List};
pub use faults::{ErrKind, LimitFault, LimitName, PtsTable, ShapeFault, ShapeRule};
pub use laws::worked_faults;
pub use limits::check_limits;
pub use names::{
    BuiltIn, built_in, built_in_answer, called, global_place, is_getchar, is_main, is_malloc,
    is_malloc_name, is_object, is_pointer_cell, is_pointer_global, is_pointer_kind,
    is_pointer_local, kind_of, literal_place, locals_of, malloc_count, object_count, object_place,
    stmts_of, variable_kind,
};
pub use program::{
    AnyOperand, Atom, Contract, Form, Formal, GlobalBody, GlobalDecl, Item, LinPart, Literal,
    Local, LocalBody, Operand, Proc, ProcBody, Program, PtrTerm, Rel, ResultKind, Stmt, Term,
    VarKind,
};
pub use shape::{ShapeError, check_shape};
pub use sqlite_items::Boxed;
