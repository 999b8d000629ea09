//! Symbols and what is known of them.

ghost use Rattle.std.specs.Prelude.{◌≡◌, ◌<◌, [], ◌∷◌, ◌++◌, length, take, slice_set, IfOk, OnOk, OnErr};

use crate::form::Sym;
use crate::forms::Forms;
use crate::span::Span1;
use std::alloc::{AllocError, Global};
use std::marker::Model;

/// What is known of a symbol, by forms over earlier ones.
#[derive(Drop)]
pub enum Binding {
    /// A loop's symbol: within a span.
    Loop(Span1),
    /// The least of some forms.
    LetMin(Forms),
    /// The greatest of some forms.
    LetMax(Forms),
}

impl Binding {
    /// An equal binding.
    pub fn copy(&self, alloc: Global) -> Result<Self, AllocError>
        ensures { IfOk result (λ copy. copy ≡ self.now) }
    {
        match self {
            Binding::Loop(span) => Ok(Binding::Loop(span.copy(alloc)?)),
            Binding::LetMin(forms) => Ok(Binding::LetMin(forms.copy(alloc)?)),
            Binding::LetMax(forms) => Ok(Binding::LetMax(forms.copy(alloc)?)),
        }
    }
}

/// Symbols and what is known of them. A symbol's number is its place.
#[derive(Drop)]
pub struct Scope {
    bindings: Vec<Binding>,
}

impl Model for Scope {
    ghost use Rattle.std.specs.Prelude.{List};
    ghost use Rattle.lin.specs.declared.scope.Binding.{Binding};

    ghost Value = { List Binding };

    ghost view = { λ s. s.bindings.items };
}

impl Scope {
    /// No symbol.
    pub fn new(alloc: Global) -> Self
        ensures { result ≡ [] }
    {
        Scope {
            bindings: Vec::new(alloc),
        }
    }

    /// How many symbols there are: the number of the next one.
    pub fn len(&self) -> usize
        ensures { result ≡ length self.now }
    {
        self.bindings.len()
    }

    /// Adds the next symbol.
    pub fn push(&mut self, binding: Binding) -> Result<(), AllocError>
        ensures ok { OnOk result (self.new ≡ self.old ++ binding ∷ []) }
        ensures err { OnErr result (self.new ≡ self.old) }
    {
        self.bindings.push(binding)?;
        Ok(())
    }

    /// What is known of the symbols, in their order.
    pub fn as_slice(&self) -> &[Binding]
        ensures { result.now ≡ self.now }
    {
        &self.bindings
    }

    /// Puts what is known of a symbol from now on in the place of what was. Where its loop has ended, that is a loop's
    /// span without forms: nothing is known.
    pub fn rebind(&mut self, symbol: Sym, binding: Binding)
        requires { symbol < length self.old }
        ensures { self.new ≡ slice_set self.old symbol binding }
    {
        self.bindings[symbol] = binding;
    }

    /// Forgets the symbols from this number on.
    pub fn truncate(&mut self, len: usize)
        ensures { self.new ≡ take len self.old }
    {
        self.bindings.truncate(len);
    }

    /// An equal scope.
    pub fn copy(&self, alloc: Global) -> Result<Self, AllocError>
        ensures { IfOk result (λ copy. copy ≡ self.now) }
    {
        copy_bindings(alloc, &self.bindings)
    }
}

/// The scope of equal bindings.
fn copy_bindings(alloc: Global, bindings: &[Binding]) -> Result<Scope, AllocError>
    ensures { IfOk result (λ copy. copy ≡ bindings.now) }
{
    let mut copy = Scope::new(alloc);
    for binding in bindings {
        copy.push(binding.copy(alloc)?)?;
    }
    Ok(copy)
}
