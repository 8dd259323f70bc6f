//! One step of a return.
ghost use Rattle.std.specs.Prelude.{◌≡◌, ◌⊎◌, ◌<◌, ◌≤◌, ◌^◌, Err, IfErr, Ok, OnOk, length};
ghost use Rattle.cv_meaning.specs.Call as spec;
ghost use Rattle.cv_meaning.specs.Contract.{ensures_hold};
ghost use Rattle.cv_meaning.specs.Few.{AreFew};
ghost use Rattle.cv_meaning.specs.Memory.{kill_from as killed_from};
ghost use Rattle.cv_interp.specs.Seen.{frame, state};
ghost use Rattle.cv_interp.specs.Takes.{IsKept};

use crate::store::{Activation, Store};
use cv_core::{ErrKind, Program, object_count};
use cv_meaning::{Mem, Part, Ptr, Value, View, holds};

/// Whether it is a local object of the procedure that runs.
#[tactic(auto, using(crate::proofs::Sums::own_test))]
fn is_own(a: &Activation, object: u64) -> bool
    ensures { result ≡ spec.is_own (frame a.now) object }
{
    a.permit.first <= object && object - a.permit.first < object_count(a.proc) as u64
}

/// Whether a value may be returned: Wild, Dead.
fn returnable(a: &Activation, m: &Mem, answer: Option<Value>) -> Result<(), ErrKind>
    ensures { result ≡ spec.returnable (frame a.now) m.now answer (Ok tt) }
{
    match answer {
        Some(Value::Ptr(Ptr::Wild)) => Err(ErrKind::Wild),
        Some(Value::Ptr(Ptr::At { object, .. })) => {
            if m.live(object) && !is_own(a, object) {
                Ok(())
            } else {
                Err(ErrKind::Dead)
            }
        }
        Some(Value::Ptr(Ptr::Null)) => Ok(()),
        Some(Value::Int(_)) => Ok(()),
        None => Ok(()),
    }
}

/// Ends the lives of so many objects from one on.
#[tactic(auto, using(crate::proofs::Sums::kill_none, crate::proofs::Sums::kill_first, crate::proofs::Sums::kill_past))]
fn kill_from(m: &mut Mem, made: u64, first: u64, count: usize)
    requires { made ≡ length m.old }
    ensures { m.new ≡ killed_from first count m.old }
{
    if count == 0 {
        return;
    }
    if first < made {
        m.kill(first);
        kill_from(m, made, first + 1, count - 1);
    }
}

fn may_leave(p: &Program, a: &Activation, m: &Mem, answer: Option<Value>) -> bool
    requires { AreFew a.now.proc.now.contract }
    ensures { result ≡ ensures_hold (spec.scene_of p.now (frame a.now) m.now answer) a.now.proc.now.contract }
{
    let view = View {
        at_entry: &a.entry,
        now: m,
        formals: &a.formals,
        globals: &p.globals,
        answer,
        first: a.permit.first,
    };
    holds(&a.proc.contract, Part::Ensures, &view)
}

/// One step of a return of a value: Wild, Dead; then the local objects die; Ensures.
pub(crate) fn leave(
    p: &Program,
    a: &Activation,
    answer: Option<Value>,
    s: &mut Store,
) -> Result<(), ErrKind>
    requires few { AreFew a.now.proc.now.contract }
    requires made { s.old.room.made ≡ length s.old.room.memory }
    ensures ok { OnOk result (spec.leave p.now (frame a.now) answer (state a.now.proc.now s.old) ≡ spec.Leaves answer (state a.now.proc.now s.new)) }
    ensures err { IfErr result (λ e. spec.leave p.now (frame a.now) answer (state a.now.proc.now s.old) ≡ spec.Errs e) }
    ensures output { s.new.output ≡ s.old.output }
    ensures vars { s.new.room.vars ≡ s.old.room.vars }
    ensures memory { (s.new.room.memory ≡ s.old.room.memory) ⊎ (s.new.room.memory ≡ spec.left_memory (frame a.now) s.old.room.memory) }
    ensures kept { IsKept s.old s.new }
{
    returnable(a, &s.room.memory, answer)?;
    let count = object_count(a.proc);
    kill_from(&mut s.room.memory, s.room.made, a.permit.first, count);
    if may_leave(p, a, &s.room.memory, answer) {
        Ok(())
    } else {
        Err(ErrKind::Ensures)
    }
}
