//! The machine that takes tokens: what is to come next, and the forms that are open.
ghost use Rattle.std.specs.Prelude.{◌≡◌, true, None, IfOk};
ghost use Rattle.wjs_forms.specs.States.{state, start, act, step, swapped, popped};
ghost use Rattle.wjs_offend.specs.Taking.{Answers};

use crate::forms::Forms;
use crate::moves::move_of;
use std::alloc::Global;
use wjs_base::OutOfMemory;
use wjs_forms::{Class, Control, Form, Move};

/// What is to come next, and the forms that are open.
#[derive(Drop)]
pub(crate) struct Machine {
    control: Control,
    forms: Forms,
}

impl Machine {
    /// Before the first token.
    pub(crate) fn new(alloc: Global) -> Machine
        ensures { state result.control result.forms ≡ start }
    {
        Machine {
            control: Control::List,
            forms: Forms::new(alloc),
        }
    }

    /// Takes a token, and tells whether some program goes on with it; `joined` says that no line ends before it.
    pub(crate) fn take(&mut self, class: Class, joined: bool) -> Result<bool, OutOfMemory>
        ensures { IfOk result (λ taken. Answers (step class joined self.old.forms self.old.control) taken (state self.new.control self.new.forms)) }
    {
        let mut next = move_of(class, joined, self.control, self.forms.top());
        'again: while let Move::Again(control) = next {
            let Some(_) = self.forms.pop() else {
                return Ok(false);
            };
            next = move_of(class, joined, control, self.forms.top());
        }
        self.act(next)
    }

    /// Does a move that isn't `Again`; tells whether it takes the token.
    fn act(&mut self, next: Move) -> Result<bool, OutOfMemory>
        ensures { IfOk result (λ taken. Answers (act next self.old.forms (λ control. None)) taken (state self.new.control self.new.forms)) }
    {
        match next {
            Move::Stay(control) => Ok(self.go_on(control)),
            Move::Push(form, control) => {
                self.forms.push(form)?;
                Ok(self.go_on(control))
            }
            Move::PushTwo(outer, inner, control) => {
                self.forms.push(outer)?;
                self.forms.push(inner)?;
                Ok(self.go_on(control))
            }
            Move::Swap(form, control) => self.swap(form, control),
            Move::Pop(control) => Ok(self.pop(control)),
            Move::Refuse | Move::Again(_) => Ok(false),
        }
    }

    fn go_on(&mut self, control: Control) -> bool
        ensures taken { result ≡ true }
        ensures after { state self.new.control self.new.forms ≡ state control self.old.forms }
    {
        self.control = control;
        true
    }

    /// The innermost form goes on as another.
    fn swap(&mut self, form: Form, control: Control) -> Result<bool, OutOfMemory>
        ensures { IfOk result (λ taken. Answers (swapped form control self.old.forms) taken (state self.new.control self.new.forms)) }
    {
        let Some(_) = self.forms.pop() else {
            return Ok(false);
        };
        self.forms.push(form)?;
        Ok(self.go_on(control))
    }

    /// The innermost form ends.
    fn pop(&mut self, control: Control) -> bool
        ensures { Answers (popped control self.old.forms) result (state self.new.control self.new.forms) }
    {
        let Some(_) = self.forms.pop() else {
            return false;
        };
        self.go_on(control)
    }
}
