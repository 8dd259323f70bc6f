//! What the words ask for.
ghost use Rattle.std.specs.Prelude.{◌≡◌, ℕ, List, Option};
ghost use Rattle.cv_app.specs.Commands.{command_of, words_of};
ghost use Rattle.cv_app.specs.Requests.{shown};

use crate::numbers::steps_of;

/// A command with its words.
pub(crate) enum Request<'a> {
    Check {
        file: &'a [u8],
        cert: &'a [u8],
    },
    Core {
        file: &'a [u8],
    },
    Run {
        file: &'a [u8],
        steps: u32,
        args: &'a [Vec<u8>],
    },
    Unknown,
}

/// The command that the words spell.
pub(crate) fn request_of(words: &[Vec<u8>]) -> Request<'_>
    ensures { (input : Option (List ℕ)) → shown input result ≡ command_of input (words_of words.now) }
{
    match words {
        [name, file, cert] if name.as_slice() == b"check".as_slice() => Request::Check {
            file,
            cert,
        },
        [name, file, steps, args @ ..] if name.as_slice() == b"run".as_slice() => {
            match steps_of(steps) {
                Some(steps) => Request::Run { file, steps, args },
                None => Request::Unknown,
            }
        }
        [name, file] if name.as_slice() == b"core".as_slice() => Request::Core { file },
        _ => Request::Unknown,
    }
}
