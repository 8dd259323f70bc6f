//! Which declared names are variables of a pointer kind.

ghost use Rattle.cv_core.specs.Names.{is_pointer_kind as is_pointer_kind_of};
ghost use Rattle.std.specs.Prelude.{◌≡◌, ◌++◌, ℕ, None, OnOk, IfOk, List as Items};
ghost use Rattle.cv_text.specs.Grammar.{is_pointer, variables_of};
ghost use Rattle.cv_text.specs.Known.{entry, points, or_else, said, first_said};

use cv_core::{Formal, Local, LocalBody, VarKind, is_pointer_kind};
use std::alloc::{AllocError, Global};
use std::collections::HashMap;

/// The declared variables of a procedure, by name: whether the first declaration of each is one of a pointer.
#[derive(Drop)]
pub(crate) struct Scope<'a> {
    pointers: HashMap<&'a [u8], bool>,
}

impl<'a> Scope<'a> {
    fn new(alloc: Global) -> Scope<'a>
        ensures { (x : Items ℕ) → entry result x ≡ None }
    {
        Scope {
            pointers: HashMap::new(alloc),
        }
    }

    /// The variables that these formals and locals declare, in this order. An error is want of memory.
    pub(crate) fn of(
        alloc: Global,
        formals: &'a [Formal],
        locals: &'a [Local],
    ) -> Result<Scope<'a>, AllocError>
        ensures { IfOk result (λ s. points s ≡ is_pointer (formals.now ++ variables_of locals.now)) }
    {
        let mut scope = Scope::new(alloc);
        scope.declare_formals(formals)?;
        scope.declare_locals(locals)?;
        Ok(scope)
    }

    /// Whether the name is a variable whose first declaration is one of a pointer.
    pub(crate) fn is_pointer(&self, name: &[u8]) -> bool
        ensures { result ≡ points self.now name.now }
    {
        match self.pointers.get(name) {
            Some(pointer) => *pointer,
            None => false,
        }
    }

    fn declare(&mut self, name: &'a [u8], kind: VarKind) -> Result<(), AllocError>
        ensures { OnOk result ((x : Items ℕ) → entry self.new x ≡ or_else (entry self.old x) (said name.now kind x)) }
    {
        if self.pointers.contains_key(name) {
            return Ok(());
        }
        self.pointers.insert(name, is_pointer_kind(kind))?;
        Ok(())
    }

    fn declare_formals(&mut self, formals: &'a [Formal]) -> Result<(), AllocError>
        ensures { OnOk result ((x : Items ℕ) → entry self.new x ≡ or_else (entry self.old x) (first_said formals.now x)) }
    {
        let mut left = formals;
        while let [formal, rest @ ..] = left {
            self.declare(formal.name.as_slice(), formal.kind)?;
            left = rest;
        }
        Ok(())
    }

    fn declare_locals(&mut self, locals: &'a [Local]) -> Result<(), AllocError>
        ensures { OnOk result ((x : Items ℕ) → entry self.new x ≡ or_else (entry self.old x) (first_said (variables_of locals.now) x)) }
    {
        let mut left = locals;
        while let [local, rest @ ..] = left {
            if let LocalBody::Var(kind) = local.body {
                self.declare(local.name.as_slice(), kind)?;
            }
            left = rest;
        }
        Ok(())
    }
}
