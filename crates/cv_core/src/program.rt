//! The tree of a program: what a CoreC text gives, and C text once it is simplified.
use cv_list::{Bytes, List};
use sqlite_items::Boxed;
use std::marker::Model;

/// Contracts see a program as the record of its three lists, in the form that a text of the grammar has.
#[derive(Debug, Drop)]
pub struct Program {
    pub globals: List<GlobalDecl>,
    pub literals: List<Literal>,
    pub procs: List<Proc>,
}

impl Model for Program {
    ghost use Rattle.cv_core.specs.Grammar.{Tree, IsWritten};
    ghost use Rattle.cv_core.specs.contracts.program.PtrTerm as pointer;
    ghost use Rattle.cv_core.specs.contracts.program.Term as term;
    ghost use Rattle.std.specs.Coded.{codes};

    ghost Value = { Tree };

    ghost coded = { Prim.hlevel (codes, pointer.the_row.coded, term.the_row.coded) };

    ghost view = { λ p. record { globals = p.globals; literals = p.literals; procs = p.procs } };

    ghost invariant = { λ p. IsWritten (record { globals = p.globals; literals = p.literals; procs = p.procs }) };

    ghost inverse = { λ t. record { globals = t.globals; literals = t.literals; procs = t.procs } };
}

/// A global variable.
#[derive(Debug, Drop)]
pub struct GlobalDecl {
    pub name: Bytes,
    pub body: GlobalBody,
}

/// What a global is. All of it is 0 or null at the start.
#[derive(Clone, Copy, Debug, PartialEq, Eq)]
pub enum GlobalBody {
    /// A buffer of so many bytes, 1..2147483647.
    Buffer(u32),
    /// A cell that holds a pointer.
    Pointer,
    /// A cell that holds an int.
    Int,
}

/// A string literal: a buffer that nothing may change.
#[derive(Debug, Drop)]
pub struct Literal {
    pub name: Bytes,
    /// The bytes of the text, without the zero byte that ends it in the buffer.
    pub bytes: Bytes,
}

/// A procedure with its contract.
#[derive(Debug, Drop)]
pub struct Proc {
    /// The line of its heading, from 1; 0 for a built-in one.
    pub line: u32,
    pub answer: ResultKind,
    pub name: Bytes,
    pub formals: List<Formal>,
    pub contract: Contract,
    /// None is an extern procedure.
    pub body: Option<ProcBody>,
}

/// What a procedure answers.
#[derive(Clone, Copy, Debug, PartialEq, Eq)]
pub enum ResultKind {
    /// Nothing.
    Void,
    /// A number, -2147483648..2147483647.
    Int,
    /// A number, 0..255.
    Char,
    /// A pointer into a buffer, or null.
    Ptr,
}

/// What a variable holds.
#[derive(Clone, Copy, Debug, PartialEq, Eq)]
pub enum VarKind {
    /// A number, -2147483648..2147483647.
    Int,
    /// A number, 0..255.
    Char,
    /// A pointer into a buffer, or null.
    Ptr,
    /// A pointer to a cell that holds a pointer, or null.
    Pptr,
    /// A pointer to a cell that holds an int, or null.
    Iptr,
}

/// A formal parameter.
#[derive(Debug, Drop)]
pub struct Formal {
    pub kind: VarKind,
    pub name: Bytes,
}

/// What a procedure does.
#[derive(Debug, Drop)]
pub struct ProcBody {
    pub locals: List<Local>,
    /// Jumps name statements by their places, from 0.
    pub stmts: List<Stmt>,
}

/// A local variable, buffer or cell.
#[derive(Debug, Drop)]
pub struct Local {
    pub name: Bytes,
    pub body: LocalBody,
}

/// What a local is.
#[derive(Clone, Copy, Debug, PartialEq, Eq)]
pub enum LocalBody {
    /// A variable, to which nothing points.
    Var(VarKind),
    /// A buffer of so many bytes, 1..2147483647.
    Buffer(u32),
    /// A cell that holds a pointer.
    PointerCell,
    /// A cell that holds an int.
    IntCell,
}

/// A statement.
#[derive(Debug, Drop)]
pub struct Stmt {
    /// Its line in the text, from 1.
    pub line: u32,
    pub form: Form,
}

/// A number or the variable that holds one; as an argument and where a pointer may stand, a variable of any kind.
#[derive(Debug, Drop)]
pub enum Operand {
    Var(Bytes),
    Number(i32),
}

/// An operand, or the pointer to nothing.
#[derive(Debug, Drop)]
pub enum AnyOperand {
    Operand(Operand),
    Null,
}

/// A comparison.
#[derive(Clone, Copy, Debug, PartialEq, Eq)]
pub enum Rel {
    /// `==`
    Eq,
    /// `!=`
    Ne,
    /// `<`
    Lt,
    /// `<=`
    Le,
    /// `>`
    Gt,
    /// `>=`
    Ge,
}

/// What a statement does.
#[derive(Debug, Drop)]
pub enum Form {
    /// `x = e`
    Assign {
        x: Bytes,
        e: Operand,
    },
    /// `x = e + f`
    Sum {
        x: Bytes,
        e: Operand,
        f: Operand,
    },
    /// `x = e - f`
    Minus {
        x: Bytes,
        e: Operand,
        f: Operand,
    },
    /// `x = k * e`
    Product {
        x: Bytes,
        k: i32,
        e: Operand,
    },
    /// `x = e / k`, towards 0
    Quotient {
        x: Bytes,
        e: Operand,
        k: i32,
    },
    /// `x = e % k`
    Remainder {
        x: Bytes,
        e: Operand,
        k: i32,
    },
    /// `p = q`, or `p = null`
    CopyPtr {
        p: Bytes,
        q: Option<Bytes>,
    },
    /// `p = &object`: a local or global object, or a literal
    Address {
        p: Bytes,
        object: Bytes,
    },
    /// `p = q + e`, by bytes
    Shift {
        p: Bytes,
        q: Bytes,
        e: Operand,
    },
    /// `x = load p`: the byte at p
    Load {
        x: Bytes,
        p: Bytes,
    },
    /// `store p, e`: the low byte of e to p
    Store {
        p: Bytes,
        e: Operand,
    },
    /// `x = get w`: what the cell holds
    Get {
        x: Bytes,
        w: Bytes,
    },
    /// `put w, value`
    Put {
        w: Bytes,
        value: AnyOperand,
    },
    /// `x = diff p, q`: how many bytes p stands behind q in one buffer
    Diff {
        x: Bytes,
        p: Bytes,
        q: Bytes,
    },
    /// `goto` to a statement, by its place from 0
    Goto(u32),
    /// `if left rel right goto to`
    If {
        left: Operand,
        rel: Rel,
        right: AnyOperand,
        to: u32,
    },
    /// `if load p == 0 goto to`, or `!= 0`
    IfByte {
        p: Bytes,
        equal: bool,
        to: u32,
    },
    /// `into = call f(args)`
    Call {
        into: Option<Bytes>,
        f: Bytes,
        args: List<AnyOperand>,
    },
    /// `return value`
    Return(Option<AnyOperand>),
}

/// A procedure's contract. An empty list stands for an absent clause.
#[derive(Debug, Drop)]
pub struct Contract {
    /// `uses`: the globals that the procedure, or what it calls, names.
    pub listed: List<Bytes>,
    /// `requires`: the atoms that hold at each call.
    pub needs: List<Atom>,
    /// `modifies`: the objects that it may change.
    pub changes: List<Item>,
    /// `ensures`: the alternatives, of one of which all atoms hold at each return.
    pub gives: List<List<Atom>>,
}

/// A pointer in a contract.
#[derive(Debug, Drop)]
pub enum PtrTerm {
    /// A formal, what a global cell holds, or the start of a global buffer.
    Name(Bytes),
    /// `*w`: what the cell of a formal holds.
    Star(Bytes),
    /// `result`
    Answer,
    /// `pre(..)`: as it was at entry.
    Pre(Boxed<PtrTerm>),
}

/// A number in a contract.
#[derive(Debug, Drop)]
pub enum Term {
    /// A formal, or what a global cell holds.
    Name(Bytes),
    /// `*i`: what the cell of a formal holds.
    Star(Bytes),
    /// `result`
    Answer,
    /// `pre(..)`: as it was at entry.
    Pre(Boxed<Term>),
    /// `alloc(p)`: the bytes from p to the end of its buffer.
    Alloc(PtrTerm),
    /// `offset(p)`: the bytes before p in its buffer.
    Offset(PtrTerm),
    /// `strlen(p)`: the bytes from p to the first zero byte.
    Strlen(PtrTerm),
}

/// A summand: a number, a term, or the product of both. Not both are None.
#[derive(Debug, Drop)]
pub struct LinPart {
    /// Whether it is taken off.
    pub negative: bool,
    pub number: Option<u32>,
    pub term: Option<Term>,
}

/// What a contract says.
#[derive(Debug, Drop)]
pub enum Atom {
    /// `ptr == null`, or `!= null`
    Null {
        ptr: PtrTerm,
        equal: bool,
    },
    /// `nullt(p)`: there is a zero byte at p or behind it.
    Nullt(PtrTerm),
    /// `clear(p)`: there is no zero byte before p in its buffer.
    Clear(PtrTerm),
    /// `fresh(p)`: p points into a buffer that the call made.
    Fresh(PtrTerm),
    /// `apart(p, q)`: p and q do not point into one buffer.
    Apart(PtrTerm, PtrTerm),
    /// `base(p) == base(q)`: p and q point into one buffer.
    SameBase(PtrTerm, PtrTerm),
    /// Two sums compared; `rel` is never Ne.
    Compare {
        left: List<LinPart>,
        rel: Rel,
        right: List<LinPart>,
    },
}

/// An object that a procedure may change.
#[derive(Debug, Drop)]
pub enum Item {
    /// `body(p)`: the buffer into which p points.
    Body(PtrTerm),
    /// `*w`: the cell of a formal.
    Star(Bytes),
    /// A global cell.
    Name(Bytes),
}
