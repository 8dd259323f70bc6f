ghost use Rattle.std.specs.Prelude.{◌≡◌, Result, true};
ghost use Rattle.cv_core.specs.Grammar.{IsWritten, Tree};
ghost use Rattle.cv_core.specs.Shape.{IsWellFormed};
ghost use Rattle.cv_text.specs.CoreText.{Answers};
ghost use Rattle.cv_text.specs.Printed.{program_text};
ghost use Rattle.cv_text.specs.ProgramReader.{is_within};
ghost use Rattle.cv_text.specs.Whole.{Spells};
ghost use Rattle.cv_text.specs.declared.faults.TextError.{TextError};

/// What `print_core` prints of a program without a shape fault is read by `read_core` as that program again, unless
/// memory is wanting. `IsWritten` holds for each `Program` in memory. It does nothing.
pub fn printed_law()
    // The printed text is of the grammar, and spells that program.
    ensures spells { (p : Tree) → IsWritten p → IsWellFormed p → Spells (program_text p) p }
    // No contract opens more levels than a text may.
    ensures levels { (p : Tree) → IsWellFormed p → is_within p ≡ true }
    // So an answer for which the clause `only` of `read_core` holds is that program, or memory is wanting.
    ensures again { (p : Tree) (answer : Result Tree TextError) → IsWritten p → IsWellFormed p → ((q : Tree) → Spells (program_text p) q → is_within q ≡ true → Answers q answer) → Answers p answer }
{}
