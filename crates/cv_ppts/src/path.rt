//! Pointers and numbers as a contract names them, with `pre` taken off.
ghost use Rattle.std.specs.Prelude.{◌≡◌};
ghost use Rattle.cv_ppts.specs.Paths as spec;
ghost use Rattle.cv_ppts.specs.Named.{seen_path, seen_reading};

use cv_core::{Bytes, PtrTerm, Term};

/// A pointer or a number as a contract names it.
#[derive(Clone, Copy)]
pub enum Path<'a> {
    /// A formal or a global.
    Named(&'a Bytes),
    /// What the cell of a formal holds.
    Starred(&'a Bytes),
    /// The result.
    Answered,
}

/// What a term reads.
#[derive(Clone, Copy)]
pub enum Reading<'a> {
    /// A number.
    NumberOf(Path<'a>),
    /// The bytes from a pointer to the end of its buffer.
    AllocOf(&'a PtrTerm),
    /// The bytes before a pointer in its buffer.
    OffsetOf(&'a PtrTerm),
    /// The bytes from a pointer to the first zero byte.
    StrlenOf(&'a PtrTerm),
}

/// What a pointer of a contract names.
pub fn path_of(t: &PtrTerm) -> Path
    ensures { seen_path result ≡ spec.path_of t.now }
{
    match t {
        PtrTerm::Name(x) => Path::Named(x),
        PtrTerm::Star(w) => Path::Starred(w),
        PtrTerm::Answer => Path::Answered,
        PtrTerm::Pre(inner) => path_of(inner.get()),
    }
}

/// Whether a pointer is read at entry.
pub fn is_before(t: &PtrTerm) -> bool
    ensures { result ≡ spec.is_before t.now }
{
    match t {
        PtrTerm::Name(_) => false,
        PtrTerm::Star(_) => false,
        PtrTerm::Answer => false,
        PtrTerm::Pre(_) => true,
    }
}

/// What a term reads.
pub fn reading_of(t: &Term) -> Reading
    ensures { seen_reading result ≡ spec.reading_of t.now }
{
    match t {
        Term::Name(x) => Reading::NumberOf(Path::Named(x)),
        Term::Star(i) => Reading::NumberOf(Path::Starred(i)),
        Term::Answer => Reading::NumberOf(Path::Answered),
        Term::Pre(inner) => reading_of(inner.get()),
        Term::Alloc(p) => Reading::AllocOf(p),
        Term::Offset(p) => Reading::OffsetOf(p),
        Term::Strlen(p) => Reading::StrlenOf(p),
    }
}

/// Whether a term is read at entry.
pub fn is_term_before(t: &Term) -> bool
    ensures { result ≡ spec.is_term_before t.now }
{
    match t {
        Term::Name(_) => false,
        Term::Star(_) => false,
        Term::Answer => false,
        Term::Pre(_) => true,
        Term::Alloc(_) => false,
        Term::Offset(_) => false,
        Term::Strlen(_) => false,
    }
}
