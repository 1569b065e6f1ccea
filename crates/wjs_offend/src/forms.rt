//! The forms that are open.
ghost use Rattle.std.specs.Prelude.{◌≡◌, ◌∷◌, [], OnOk};
ghost use Rattle.wjs_base.specs.Stacks.{Takes};
ghost use Rattle.wjs_forms.specs.States.{top};

use std::alloc::Global;
use std::marker::Model;
use wjs_base::OutOfMemory;
use wjs_forms::Form;

/// The forms that are open. Contracts see them with the innermost first.
#[derive(Drop)]
pub(crate) struct Forms {
    items: Vec<Form>,
}

impl Model for Forms {
    ghost use Rattle.std.specs.Prelude.{List, reverse};
    ghost use Rattle.wjs_forms.specs.declared.forms.Form.{Form};

    ghost Value = { List Form };

    ghost view = { λ s. reverse s.items.items };
}

impl Forms {
    /// No form is open.
    pub(crate) fn new(alloc: Global) -> Forms
        ensures { result ≡ [] }
    {
        Forms {
            items: Vec::new(alloc),
        }
    }

    /// Opens a form.
    pub(crate) fn push(&mut self, form: Form) -> Result<(), OutOfMemory>
        ensures { OnOk result (self.new ≡ form ∷ self.old) }
    {
        self.items.push(form)?;
        Ok(())
    }

    /// Ends the innermost form, if one is open.
    pub(crate) fn pop(&mut self) -> Option<Form>
        ensures { Takes self.old result self.new }
    {
        self.items.pop()
    }

    /// The innermost form.
    pub(crate) fn top(&self) -> Option<Form>
        ensures { result ≡ top self.now }
    {
        let forms = self.items.as_slice();
        if forms.is_empty() {
            return None;
        }
        Some(forms[forms.len() - 1])
    }
}
