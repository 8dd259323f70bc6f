ghost use Rattle.std.specs.Prelude.{◌≡◌, ℕ, ◌<◌, ◌≤◌, ◌^◌, ◌++◌, ◌∷◌, [], length, slice_get, slice_set, IsTrue, OnOk, OnErr, IfOk, IfErr, IfSome, Ok, Err, pos, negsuc, ◌≤ℤ◌};
ghost use Rattle.cv_meaning.specs.Memory as spec;
ghost use Rattle.std.specs.Option.{option_copied};
ghost use Rattle.cv_meaning.specs.Held.{seen};
ghost use Rattle.cv_meaning.specs.declared.memory.Body.TheVariants.{Buffer};

use crate::memory::{Body, Permit, Ptr};
use crate::objects::Mem;
use cv_core::ErrKind;

/// Where a pointer points, in a live object.
#[derive(Drop)]
pub(crate) struct Held<'a> {
    pub(crate) object: u64,
    pub(crate) offset: u32,
    pub(crate) body: &'a Body,
}

/// Where the pointer points: Null, Wild, Dead.
fn place(m: &Mem, p: Ptr) -> Result<Held<'_>, ErrKind>
    ensures value { seen result ≡ spec.place m.now p }
    ensures short { IfOk result (λ at. spec.IsShort at.body.now) }
{
    match p {
        Ptr::Null => Err(ErrKind::Null),
        Ptr::Wild => Err(ErrKind::Wild),
        Ptr::At { object, offset } => match m.objects.get(object as usize) {
            None => Err(ErrKind::Dead),
            Some(x) => {
                if x.live {
                    Ok(Held {
                        object,
                        offset,
                        body: &x.body,
                    })
                } else {
                    Err(ErrKind::Dead)
                }
            },
        },
    }
}

fn bytes_of(b: &Body) -> &[u8]
    ensures { result.now ≡ spec.bytes_of b.now }
{
    match b {
        Body::Buffer(bytes) => bytes.as_slice(),
        Body::Cell(_) => &[],
    }
}

pub(crate) fn zero_in(bytes: &[u8]) -> usize
    ensures value { result ≡ spec.first_zero bytes.now }
    ensures within { result ≤ length bytes.now }
{
    for (i, b) in bytes.iter().enumerate() {
        if *b == 0 {
            return i;
        }
    }
    bytes.len()
}

/// The byte at `p`: Null, Wild, Dead, Bounds, Terminator. Condition: a pointer with an object points to a
/// buffer of the memory.
pub fn load(m: &Mem, p: Ptr) -> Result<u8, ErrKind>
    ensures { result ≡ spec.load m.now p }
{
    let at = place(m, p)?;
    let bytes = bytes_of(at.body);
    let offset = at.offset as usize;
    if offset >= bytes.len() {
        return Err(ErrKind::Bounds);
    }
    if offset > zero_in(bytes) {
        return Err(ErrKind::Terminator);
    }
    Ok(bytes[offset])
}

/// Where `p` would be moved by `by` bytes: Null, Wild, Dead, Bounds.
pub fn shift(m: &Mem, p: Ptr, by: i64) -> Result<Ptr, ErrKind>
    ensures { result ≡ spec.shift m.now p by }
{
    let at = place(m, p)?;
    if by < -4294967296 || by > 4294967296 {
        return Err(ErrKind::Bounds);
    }
    let to = at.offset as i64 + by;
    let size = bytes_of(at.body).len();
    if to < 0 || to as usize > size {
        return Err(ErrKind::Bounds);
    }
    Ok(Ptr::At {
        object: at.object,
        offset: to as u32,
    })
}

/// Whether the object may be written: Literal, Modifies.
fn writable(permit: &Permit, object: u64) -> Result<(), ErrKind>
    ensures { result ≡ spec.writable permit.now object (Ok tt) }
{
    if object >= permit.literals.0 && object < permit.literals.1 {
        return Err(ErrKind::Literal);
    }
    if object < permit.first && !permit.allowed.as_slice().contains(&object) {
        return Err(ErrKind::Modifies);
    }
    Ok(())
}

/// Writes one byte of a buffer.
fn set_byte(m: &mut Mem, object: usize, offset: usize, byte: u8)
    requires there { object < length m.old }
    requires inside { offset < length (spec.bytes_at m.old object) }
    ensures { m.new ≡ spec.with_body object (Buffer (slice_set (spec.bytes_at m.old object) offset byte)) m.old }
{
    let x = &mut m.objects[object];
    match &mut x.body {
        Body::Buffer(bytes) => bytes.set(offset, byte),
        Body::Cell(_) => {},
    }
}

/// Writes one byte at `p`: Null, Wild, Dead, Bounds, Literal, Modifies. It changes one byte of one object
/// and nothing else, and after an error nothing.
pub fn store(m: &mut Mem, p: Ptr, byte: u8, permit: &Permit) -> Result<(), ErrKind>
    ensures ok { OnOk result (spec.store m.old p byte permit.now ≡ Ok m.new) }
    ensures err { IfErr result (λ e. (spec.store m.old p byte permit.now ≡ Err e) × (m.new ≡ m.old)) }
{
    let at = place(m, p)?;
    let object = at.object;
    let offset = at.offset as usize;
    if offset >= bytes_of(at.body).len() {
        return Err(ErrKind::Bounds);
    }
    writable(permit, object)?;
    set_byte(m, object as usize, offset, byte);
    Ok(())
}

/// The body of an object of the memory.
fn body_at(m: &Mem, object: u64) -> Option<&Body>
    ensures value { option_copied result ≡ spec.body_at m.now object }
    ensures short { IfSome result (λ b. spec.IsShort b.now) }
{
    match m.objects.get(object as usize) {
        None => None,
        Some(x) => Some(&x.body),
    }
}

/// The place of the first zero byte of a buffer.
fn zero_of(body: &Body) -> Option<u32>
    requires { spec.IsShort body.now }
    ensures { result ≡ spec.first_zero_in body.now }
{
    match body {
        Body::Buffer(bytes) => Some(zero_in(bytes.as_slice()) as u32),
        Body::Cell(_) => None,
    }
}

/// The place of the first zero byte, or the size where there is none; None exactly where the object is no
/// buffer.
pub fn first_zero(m: &Mem, object: u64) -> Option<u32>
    ensures { result ≡ spec.first_zero_of m.now object }
{
    match body_at(m, object) {
        None => None,
        Some(body) => zero_of(body),
    }
}
