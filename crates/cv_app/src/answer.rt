//! An answer on standard output.
ghost use Rattle.cv_app.specs.Served.{printed};
ghost use Rattle.cv_app.specs.Sinks.{Printed};

use crate::fault::{NO_MEMORY, refuse};
use cv_io::{Sink, SinkError};

/// Prints a text on standard output. The status is that of the answer, but 6 after a fault and 7 for want of memory.
pub(crate) fn print<O: Sink, E: Sink>(out: &mut O, errs: &mut E, status: u8, text: &[u8]) -> u8
    ensures { Printed (printed status text.now) result (O.content out.old) (O.content out.new) (O.faults out.old)
        (O.faults out.new) (E.content errs.old) (E.content errs.new) (E.faults errs.old) (E.faults errs.new) }
{
    match out.write(text) {
        Ok(()) => status,
        Err(SinkError::Failed) => refuse(errs, 6, b"write fault\n"),
        Err(SinkError::Memory) => refuse(errs, 7, NO_MEMORY),
    }
}
