//! Objects by name.
ghost use Rattle.std.specs.Prelude.{◌≡◌, ◌+◌, ◌<◌, ◌≤◌, ◌^◌, IfSome, length};
ghost use Rattle.std.specs.List.{filter};
ghost use Rattle.cv_core.specs.Names as spec;
ghost use Rattle.cv_interp.specs.Plans.{home_of as home_in, object_at as object_in, own_place};

use crate::store::{Activation, Home};
use cv_core::{Proc, Program, global_place, literal_place, object_place};

/// Where the object of a name is: a local of the procedure, else a global, else a literal.
pub(crate) fn home_of(p: &Program, f: &Proc, x: &[u8]) -> Home
    requires globals { length p.now.globals ≤ 256 }
    ensures { result ≡ home_in p.now f.now x.now }
{
    match object_place(f, x) {
        Some(i) => Home::Own(i),
        None => match global_place(p.globals.as_slice(), x) {
            Some(i) => Home::Shared(i as u64),
            None => match literal_place(p.literals.as_slice(), x) {
                None => Home::Shared(0),
                Some(i) => Home::Shared(p.globals.len() as u64 + i as u64),
            },
        },
    }
}

/// The object of a home.
pub(crate) fn object_at(a: &Activation, home: Home) -> u64
    requires { a.now.permit.first + own_place home < 2 ^ 64 }
    ensures { result ≡ object_in a.now.permit.first home }
{
    match home {
        Home::Own(i) => a.permit.first + i as u64,
        Home::Shared(object) => object,
    }
}
