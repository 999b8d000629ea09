//! Short lists of forms.

ghost use Rattle.std.specs.Prelude.{◌≡◌, [], ◌∷◌, ◌++◌, IfOk, OnOk, OnErr};

use crate::form::Lin;
use smallvec::SmallVec;
use std::alloc::{AllocError, Global};
use std::marker::Model;

/// A list of forms, most often of one.
#[derive(Drop)]
pub struct Forms {
    list: SmallVec<Lin, 1>,
}

impl Model for Forms {
    ghost use Rattle.std.specs.Prelude.{List};
    ghost use Rattle.lin.specs.Forms.{Form};

    ghost Value = { List Form };

    ghost view = { λ f. f.list.items };
}

impl Forms {
    /// No form.
    pub fn new(alloc: Global) -> Self
        ensures { result ≡ [] }
    {
        Forms {
            list: SmallVec::new(alloc),
        }
    }

    /// Adds a form at the end.
    pub fn push(&mut self, form: Lin) -> Result<(), AllocError>
        ensures ok { OnOk result (self.new ≡ self.old ++ form ∷ []) }
        ensures err { OnErr result (self.new ≡ self.old) }
    {
        self.list.push(form)?;
        Ok(())
    }

    /// The forms in order.
    pub fn as_slice(&self) -> &[Lin]
        ensures { result.now ≡ self.now }
    {
        self.list.as_slice()
    }

    /// An equal list.
    pub fn copy(&self, alloc: Global) -> Result<Self, AllocError>
        ensures { IfOk result (λ copy. copy ≡ self.now) }
    {
        copy_forms(alloc, self.as_slice())
    }
}

/// A list of equal forms.
fn copy_forms(alloc: Global, forms: &[Lin]) -> Result<Forms, AllocError>
    ensures { IfOk result (λ copy. copy ≡ forms.now) }
{
    let mut copy = Forms::new(alloc);
    for form in forms {
        copy.push(form.copy(alloc)?)?;
    }
    Ok(copy)
}
