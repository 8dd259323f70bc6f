//! The char of a program. All who treat chars take its range and its wrap from here.
ghost use Rattle.std.specs.Prelude.{◌≡◌};
ghost use Rattle.cv_core.specs.Chars as spec;

use crate::program::Program;

/// A number modulo 256.
pub fn low_byte(z: i32) -> u8
    ensures { result ≡ spec.low_byte z }
{
    z.rem_euclid(256) as u8
}

/// The least number that a char variable of the program holds.
pub fn least_char(_p: &Program) -> i32
    ensures { result ≡ spec.least_char _p.now }
{
    0
}

/// The greatest number that a char variable of the program holds.
pub fn greatest_char(_p: &Program) -> i32
    ensures { result ≡ spec.greatest_char _p.now }
{
    255
}

/// The char to which a number, or the byte of a buffer, is wrapped.
pub fn char_of(_p: &Program, z: i32) -> i32
    ensures { result ≡ spec.char_of _p.now z }
{
    i32::from(low_byte(z))
}
