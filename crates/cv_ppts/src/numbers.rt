//! The numbers that stand for codes in the rows of targets.
ghost use Rattle.std.specs.Prelude.{◌≡◌, IfSome, MatchBool, Some};
ghost use Rattle.cv_ppts.specs.Numbers as spec;

use crate::code::Code;

/// The code that a number stands for.
pub(crate) fn code_of(number: i32) -> Code
    ensures { result ≡ spec.code_of number }
{
    if number < 0 {
        Code::Unknown
    } else if number == 0 {
        Code::Null
    } else {
        Code::Target(number as u32)
    }
}

/// The number of a code; None for that of a new object, and where 32 bits do not hold it.
pub(crate) fn number_of(code: Code) -> Option<i32>
    ensures { IfSome result (λ n. spec.number_of code ≡ Some n) }
{
    match code {
        Code::Unknown => Some(-1),
        Code::Null => Some(0),
        Code::Target(t) => {
            if t > 0 && t <= 2147483647 {
                Some(t as i32)
            } else {
                None
            }
        }
        Code::New => None,
    }
}

/// The code that a case gives an entity.
pub(crate) fn entity_code(code: u32) -> Code
    ensures { result ≡ spec.entity_code code }
{
    if code == 0 {
        Code::Null
    } else {
        Code::Target(code)
    }
}

/// Whether two codes are one.
pub(crate) fn is_same(one: Code, other: Code) -> bool
    ensures { MatchBool result (one ≡ other) (one ≡ other → ⊥) }
{
    one == other
}
