//! What an alternative of ensures says of the codes after a call.
ghost use Rattle.std.specs.Prelude.{◌≡◌};
ghost use Rattle.std.specs.List.{list_any};
ghost use Rattle.cv_ppts.specs.Keys.{setting};
ghost use Rattle.cv_ppts.specs.Named.{seen_path};
ghost use Rattle.cv_ppts.specs.Outcomes as spec;
ghost use Rattle.cv_ppts.specs.Picked.{choice_of, gift_at as gift_at_in};
ghost use Rattle.cv_points.specs.Holders.{gives_pointer as pointer_result};

use crate::code::Code;
use crate::path::{Path, is_before, path_of};
use crate::picks::{Codes, cell_of, code_before, code_of_name, is_modified};
use crate::places::content_place;
use crate::setting::Scope;
use crate::status::{ReadCodes, Status, status_of};
use cv_core::{Atom, Proc, PtrTerm, ResultKind};

/// A code that an atom gives to a pointer that the call changes.
#[derive(Clone, Copy, PartialEq, Eq, Debug)]
pub(crate) struct Gift {
    /// 0 for the result, else the target whose content the pointer is.
    pub key: u128,
    pub code: Code,
}

/// The codes that were given, the latest first.
#[derive(Clone, Copy)]
pub(crate) enum Gifts<'a> {
    Done,
    Given { gift: Gift, rest: &'a Gifts<'a> },
}

/// The code that was given for a key.
pub(crate) fn gift_at(gifts: &Gifts, key: u128) -> Option<Code>
    ensures { result ≡ gift_at_in gifts.now key }
{
    match gifts {
        Gifts::Done => None,
        Gifts::Given { gift, rest } => {
            if gift.key == key {
                Some(gift.code)
            } else {
                gift_at(rest, key)
            }
        }
    }
}

// ---- pointers that the call changes

fn gives_pointer(kind: ResultKind) -> bool
    ensures { result ≡ pointer_result kind }
{
    matches!(kind, ResultKind::Ptr)
}

fn is_changed_cell(s: &Scope, g: &Proc, k: &Codes, target: u32) -> bool
    ensures { result ≡ spec.is_changed_cell (setting s.entry.now) g.now (choice_of (setting s.entry.now) k.entry.now) target }
{
    is_modified(s, g, k, target) && content_place(s, target).is_some()
}

fn changed_key(s: &Scope, g: &Proc, k: &Codes, cell: Option<u32>) -> Option<u128>
    ensures { result ≡ spec.changed_key (setting s.entry.now) g.now (choice_of (setting s.entry.now) k.entry.now) cell }
{
    match cell {
        None => None,
        Some(target) => {
            if is_changed_cell(s, g, k, target) {
                Some(u128::from(target))
            } else {
                None
            }
        }
    }
}

/// The key of a pointer that the call changes.
fn key_of(s: &Scope, g: &Proc, k: &Codes, path: Path) -> Option<u128>
    ensures { result ≡ spec.key_of (setting s.entry.now) g.now (choice_of (setting s.entry.now) k.entry.now) (seen_path path.entry) }
{
    match path {
        Path::Answered => {
            if gives_pointer(g.answer) {
                Some(0)
            } else {
                None
            }
        }
        Path::Named(_) => changed_key(s, g, k, cell_of(s, g, k, path)),
        Path::Starred(_) => changed_key(s, g, k, cell_of(s, g, k, path)),
    }
}

/// The key of a pointer of an atom; None under `pre`.
fn changed_of(s: &Scope, g: &Proc, k: &Codes, t: &PtrTerm) -> Option<u128>
    ensures { result ≡ spec.changed_of (setting s.entry.now) g.now (choice_of (setting s.entry.now) k.entry.now) t.now }
{
    if is_before(t) {
        None
    } else {
        key_of(s, g, k, path_of(t))
    }
}

// ---- what an atom gives

fn known_at(gifts: &Gifts, key: Option<u128>, code: Option<Code>) -> Option<Code>
    ensures { result ≡ spec.known_at (gift_at_in gifts.now) key code }
{
    match key {
        Some(key) => gift_at(gifts, key),
        None => code,
    }
}

fn known(s: &Scope, g: &Proc, k: &Codes, gifts: &Gifts, before: bool, path: Path) -> Option<Code>
    ensures { result ≡ spec.known (setting s.entry.now) g.now (choice_of (setting s.entry.now) k.entry.now) (gift_at_in gifts.now) before (seen_path path.entry) }
{
    if before {
        code_before(s, g, k, path)
    } else {
        known_at(gifts, key_of(s, g, k, path), code_before(s, g, k, path))
    }
}

/// The code of a pointer that is known by then.
fn known_of(s: &Scope, g: &Proc, k: &Codes, gifts: &Gifts, t: &PtrTerm) -> Option<Code>
    ensures { result ≡ spec.known_of (setting s.entry.now) g.now (choice_of (setting s.entry.now) k.entry.now) (gift_at_in gifts.now) t.now }
{
    known(s, g, k, gifts, is_before(t), path_of(t))
}

/// A code goes to a changed pointer that has none yet.
fn gift_to(gifts: &Gifts, key: Option<u128>, code: Option<Code>) -> Option<Gift>
    ensures { result ≡ spec.gift_to (gift_at_in gifts.now) key code }
{
    match key {
        None => None,
        Some(key) => {
            if gift_at(gifts, key).is_some() {
                return None;
            }
            match code {
                None => None,
                Some(code) => Some(Gift { key, code }),
            }
        }
    }
}

fn first_gift(one: Option<Gift>, other: Option<Gift>) -> Option<Gift>
    ensures { result ≡ spec.first_gift one other }
{
    match one {
        Some(gift) => Some(gift),
        None => other,
    }
}

/// The code that an atom gives.
pub(crate) fn gift_by(s: &Scope, g: &Proc, k: &Codes, gifts: &Gifts, atom: &Atom) -> Option<Gift>
    ensures { result ≡ spec.gift (setting s.entry.now) g.now (choice_of (setting s.entry.now) k.entry.now) (gift_at_in gifts.now) atom.now }
{
    match atom {
        Atom::Null { ptr, equal } => {
            if *equal {
                gift_to(gifts, changed_of(s, g, k, ptr), Some(Code::Null))
            } else {
                None
            }
        }
        Atom::Fresh(t) => gift_to(gifts, changed_of(s, g, k, t), Some(Code::New)),
        Atom::SameBase(t, u) => first_gift(
            gift_to(gifts, changed_of(s, g, k, t), known_of(s, g, k, gifts, u)),
            gift_to(gifts, changed_of(s, g, k, u), known_of(s, g, k, gifts, t)),
        ),
        Atom::Nullt(_) => None,
        Atom::Clear(_) => None,
        Atom::Apart(_, _) => None,
        Atom::Compare { .. } => None,
    }
}

/// A changed pointer without a code has the unknown one.
pub(crate) fn settled(code: Option<Code>) -> Code
    ensures { result ≡ spec.settled code }
{
    match code {
        None => Code::Unknown,
        Some(code) => code,
    }
}

// ---- false by the codes

fn after_at(gifts: &Gifts, key: Option<u128>, code: Option<Code>) -> Option<Code>
    ensures { result ≡ spec.after_at (gift_at_in gifts.now) key code }
{
    match key {
        Some(key) => Some(settled(gift_at(gifts, key))),
        None => code,
    }
}

/// The codes under which an alternative is read after the call.
#[derive(Drop)]
pub(crate) struct After<'a> {
    s: &'a Scope<'a>,
    g: &'a Proc,
    k: &'a Codes<'a>,
    gifts: &'a Gifts<'a>,
}

fn number_there(code: Code) -> Status
    ensures { result ≡ spec.number_there code }
{
    match code {
        Code::Unknown => Status::Unknown,
        Code::Null => Status::False,
        Code::Target(_) => Status::Known,
        Code::New => Status::Known,
    }
}

fn number_after(s: &Scope, g: &Proc, k: &Codes, path: Path) -> Status
    ensures { result ≡ spec.number_after (setting s.entry.now) g.now (choice_of (setting s.entry.now) k.entry.now) (seen_path path.entry) }
{
    match path {
        Path::Starred(i) => number_there(code_of_name(s, g, k, i)),
        Path::Named(_) => Status::Known,
        Path::Answered => Status::Known,
    }
}

fn code_after(
    s: &Scope,
    g: &Proc,
    k: &Codes,
    gifts: &Gifts,
    before: bool,
    path: Path,
) -> Option<Code>
    ensures { result ≡ spec.code_after (setting s.entry.now) g.now (choice_of (setting s.entry.now) k.entry.now) (gift_at_in gifts.now) before (seen_path path.entry) }
{
    if before {
        code_before(s, g, k, path)
    } else {
        after_at(gifts, key_of(s, g, k, path), code_before(s, g, k, path))
    }
}

impl<'a> ReadCodes for After<'a> {
    ghost codes = { λ a. spec.codes_after (setting a.s.now) a.g.now (choice_of (setting a.s.now) a.k.now) (gift_at_in a.gifts.now) };

    fn code(&self, before: bool, path: Path) -> Option<Code> {
        code_after(self.s, self.g, self.k, self.gifts, before, path)
    }

    fn number(&self, path: Path) -> Status {
        number_after(self.s, self.g, self.k, path)
    }

    fn dies(&self, code: Code) -> bool {
        false
    }

    fn is_made(&self, code: Code) -> bool {
        false
    }
}

/// Whether an atom is false by the codes after the call.
fn is_false_atom(s: &Scope, g: &Proc, k: &Codes, gifts: &Gifts, atom: &Atom) -> bool
    ensures { result ≡ spec.is_false_atom (setting s.entry.now) g.now (choice_of (setting s.entry.now) k.entry.now) (gift_at_in gifts.now) atom.now }
{
    let after = After { s, g, k, gifts };
    matches!(status_of(&after, false, atom), Status::False)
}

/// Whether an atom of an alternative is false by the codes after the call.
pub(crate) fn has_false_atom(s: &Scope, g: &Proc, k: &Codes, gifts: &Gifts, atoms: &[Atom]) -> bool
    ensures { result ≡ list_any (spec.is_false_atom (setting s.entry.now) g.now (choice_of (setting s.entry.now) k.entry.now) (gift_at_in gifts.now)) atoms.now }
{
    let mut rest = atoms;
    while let [atom, tail @ ..] = rest {
        if is_false_atom(s, g, k, gifts, atom) {
            return true;
        }
        rest = tail;
    }
    false
}
