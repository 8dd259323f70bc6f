//! The input of a run, which is read to its end.
ghost use Rattle.std.specs.Prelude.{◌≡◌, ◌≤◌, length, IfOk, IfErr, IfSome};
ghost use Rattle.cv_app.specs.Faults.{InputRefused};

use crate::fault::Fault;
use cv_core::LimitName;
use cv_io::Source;
use std::alloc::Global;

const INPUT_LIMIT: usize = 1048576;

const PIECE: usize = 4096;

/// All bytes that are left in the source, at most 1048576 of them.
pub(crate) fn read_input<I: Source>(alloc: Global, input: &mut I) -> Result<Vec<u8>, Fault>
    ensures whole { IfOk result (λ bytes. IfSome (I.content input.old) (λ told. told ≡ bytes.items)) }
    ensures within { IfOk result (λ bytes. length bytes.items ≤ 1048576) }
    ensures refused { IfErr result (InputRefused (I.content input.old) (I.faults input.old) (I.faults input.new)) }
{
    let mut bytes = Vec::new(alloc);
    let mut piece = [0u8; PIECE];
    loop {
        let Ok(read) = input.read(&mut piece) else {
            return Err(Fault::Read);
        };
        if read == 0 {
            return Ok(bytes);
        }
        bytes.extend_from_slice(&piece[..read])?;
        if bytes.len() > INPUT_LIMIT {
            return Err(Fault::Limit(LimitName::Input));
        }
    }
}
