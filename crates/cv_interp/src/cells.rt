//! Pointers to live objects, and what cells hold.
ghost use Rattle.std.specs.Prelude.{◌≡◌, IfErr, IfOk, IfSome, IsSome, Ok, OnOk, Err, true};
ghost use Rattle.cv_meaning.specs.Contract.{content as content_of};
ghost use Rattle.cv_meaning.specs.Memory as spec;
ghost use Rattle.cv_interp.specs.Cells.{IsCellIfLive};
ghost use Rattle.cv_interp.specs.Takes.{IsNearPtr};

use cv_core::ErrKind;
use cv_meaning::{Mem, Permit, Ptr, Value};

/// The live object to which a pointer points, and the offset: Null, Wild, Dead.
fn target(m: &Mem, p: Ptr) -> Result<(u64, u32), ErrKind>
    ensures ok { IfOk result (λ at. (p ≡ Ptr.At at.0 at.1) × (spec.live m.now at.0 ≡ true)) }
    ensures err { IfErr result (λ e. spec.place m.now p ≡ Err e) }
{
    match p {
        Ptr::Null => Err(ErrKind::Null),
        Ptr::Wild => Err(ErrKind::Wild),
        Ptr::At { object, offset } => {
            if m.live(object) {
                Ok((object, offset))
            } else {
                Err(ErrKind::Dead)
            }
        }
    }
}

/// What the cell holds to which `w` points: Null, Wild, Dead.
#[tactic(auto, using(crate::proofs::Live::get_live, crate::proofs::Live::get_fails))]
pub(crate) fn get(m: &Mem, w: Ptr) -> Result<Value, ErrKind>
    ensures { result ≡ spec.get m.now w }
{
    let at = target(m, w)?;
    match m.get(at.0) {
        None => Ok(Value::Int(0)),
        Some(v) => Ok(v),
    }
}

/// Whether an object may be changed.
pub(crate) fn may_change(permit: &Permit, object: u64) -> bool
    ensures { result ≡ spec.may_change permit.now object }
{
    permit.first <= object || permit.allowed.as_slice().contains(&object)
}

/// Puts a value into the cell to which `w` points: Null, Wild, Dead, Modifies.
#[tactic(auto, using(crate::proofs::Live::put_live, crate::proofs::Live::put_fails, crate::proofs::Live::cell_there))]
pub(crate) fn put(m: &mut Mem, w: Ptr, v: Value, permit: &Permit) -> Result<(), ErrKind>
    requires { IsCellIfLive m.old w }
    ensures ok { OnOk result (spec.put m.old w v permit.now ≡ Ok m.new) }
    ensures err { IfErr result (λ e. (spec.put m.old w v permit.now ≡ Err e) × (m.new ≡ m.old)) }
{
    let at = target(m, w)?;
    if !may_change(permit, at.0) {
        return Err(ErrKind::Modifies);
    }
    if m.get(at.0).is_some() {
        m.put(at.0, v);
    }
    Ok(())
}

/// The offset of `p` less that of `q`: Null, Wild, Dead, Bounds.
#[tactic(auto, using(crate::proofs::Live::diff_live, crate::proofs::Live::diff_fails_first, crate::proofs::Live::diff_fails_second))]
pub(crate) fn diff(m: &Mem, p: Ptr, q: Ptr) -> Result<i32, ErrKind>
    requires first { IsNearPtr p }
    requires second { IsNearPtr q }
    ensures { result ≡ spec.diff m.now p q }
{
    let a = target(m, p)?;
    let b = target(m, q)?;
    if a.0 != b.0 {
        return Err(ErrKind::Bounds);
    }
    Ok(a.1 as i32 - b.1 as i32)
}

/// What the live cell holds to which a value points.
#[tactic(auto, using(crate::proofs::Live::content_live, crate::proofs::Live::content_dead))]
pub(crate) fn content(m: &Mem, w: Value) -> Option<Value>
    ensures { result ≡ content_of m.now w }
{
    match w {
        Value::Ptr(Ptr::At { object, .. }) => { if m.live(object) { m.get(object) } else { None } }
        _ => None,
    }
}
