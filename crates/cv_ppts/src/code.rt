//! The codes of pointers.

/// What a pointer points to, as far as it is known.
#[derive(Clone, Copy, PartialEq, Eq, Debug)]
pub enum Code {
    /// Nothing is known.
    Unknown,
    /// Null.
    Null,
    /// Into the target with the number, from 1 on.
    Target(u32),
    /// Into the object that a call makes.
    New,
}
