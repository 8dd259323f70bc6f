//! Whether a program asks for input.
ghost use Rattle.std.specs.Prelude.{◌≡◌};
ghost use Rattle.std.specs.List.{list_any};
ghost use Rattle.cv_core.specs.Names as spec;
ghost use Rattle.cv_app.specs.Calls.{reads_input as reads};

use cv_core::{Proc, Program, is_getchar, stmts_of};

fn asks(proc: &Proc) -> bool
    ensures { result ≡ list_any (λ s. spec.is_getchar s.form) (spec.stmts_of proc.now.body) }
{
    stmts_of(proc).iter().any(|stmt| is_getchar(&stmt.form))
}

/// Whether some statement calls getchar.
pub(crate) fn reads_input(program: &Program) -> bool
    ensures { result ≡ reads program.now }
{
    program.procs.as_slice().iter().any(|proc| asks(proc))
}
