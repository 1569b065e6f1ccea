//! Declarations that are shared.
ghost use Rattle.std.specs.Prelude.{◌≡◌, IfOk};
ghost use Rattle.wjs_scope.specs.Bodies.{nothing};

use crate::declarations::Declarations;
use std::alloc::Global;
use std::marker::Model;
use std::rc::Rc;
use wjs_base::{OutOfMemory, TextId};
use wjs_tree::{NodeId, Sequence};

/// What a body declares, shared by all who ask for it. Contracts see the declarations.
#[derive(Drop)]
pub struct Declared {
    shared: Rc<Declarations>,
}

impl Model for Declared {
    ghost use Rattle.wjs_scope.specs.declared.declarations.Declarations.{Declarations};

    ghost Value = { Declarations };

    ghost view = { λ d. d.shared.value };
}

impl Declared {
    pub(crate) fn new(alloc: Global, declarations: Declarations) -> Result<Declared, OutOfMemory>
        ensures { IfOk result (λ d. d ≡ declarations) }
    {
        let shared = Rc::new(alloc, declarations)?;
        Ok(Declared { shared })
    }

    /// Nothing declared.
    pub fn nothing(alloc: Global) -> Result<Declared, OutOfMemory>
        ensures { IfOk result (λ d. d ≡ nothing) }
    {
        let declarations = Declarations {
            formals: Sequence::from_vec(Vec::new(alloc)),
            functions: Sequence::from_vec(Vec::new(alloc)),
            variables: Sequence::from_vec(Vec::new(alloc)),
            others: Sequence::from_vec(Vec::new(alloc)),
        };
        Declared::new(alloc, declarations)
    }

    /// The same declarations for one more, with no memory taken.
    pub fn share(&self) -> Result<Declared, OutOfMemory>
        ensures { IfOk result (λ d. d ≡ self.now) }
    {
        let shared = self.shared.clone()?;
        Ok(Declared { shared })
    }

    /// The formals, in order; a script has none.
    pub fn formals(&self) -> &[TextId]
        ensures { result.now ≡ self.now.formals }
    {
        self.shared.as_ref().formals.as_slice()
    }

    /// The functions that are declared among the elements, in order.
    pub fn functions(&self) -> &[NodeId]
        ensures { result.now ≡ self.now.functions }
    {
        self.shared.as_ref().functions.as_slice()
    }

    /// The names of the `var`s, each once, in order of first occurrence. A name may be a formal's or a function's too.
    pub fn variables(&self) -> &[TextId]
        ensures { result.now ≡ self.now.variables }
    {
        self.shared.as_ref().variables.as_slice()
    }

    /// Those of the variables that are neither `arguments`, nor a formal's, nor a function's, in order.
    pub fn others(&self) -> &[TextId]
        ensures { result.now ≡ self.now.others }
    {
        self.shared.as_ref().others.as_slice()
    }
}
