use cv_core::{Bytes, ErrKind};

/// What is given for one of main's formals.
#[derive(Debug, Drop)]
pub enum Arg {
    Int(i32),
    /// The bytes of a buffer, without the zero byte behind them.
    Text(Bytes),
}

/// How a run ends.
#[derive(Clone, Copy, PartialEq, Eq, Debug)]
pub enum RunEnd {
    Returned(i32),
    /// The number of the procedure from 0, and the line of its statement.
    Error { kind: ErrKind, proc: u32, line: u32 },
    Stopped,
}
