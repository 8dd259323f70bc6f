/// A statement of a program: the number of its procedure and its own number there, each from 0.
/// A number beyond 4294967295 is given as 4294967295.
#[derive(Clone, Copy, PartialEq, Eq, Debug)]
pub struct Place {
    pub proc: u32,
    pub statement: u32,
}
