//! The variables that a node declares.
ghost use Rattle.std.specs.Prelude.{◌≡◌, ◌<◌, ℕ, drop, length, map, slice_get, Some, IfSome};
ghost use Rattle.std.specs.Option.{option_and_then};
ghost use Rattle.wjs_base.specs.Text.{Table};
ghost use Rattle.wjs_meaning.specs.Deeds.{Env};
ghost use Rattle.wjs_meaning.specs.Reading.{variable_in};
ghost use Rattle.wjs_meaning.specs.Statements.{vars_from};
ghost use Rattle.wjs_effects.specs.Variables.{initialiser_goes};

use wjs_tree::{Declarator, NodeId};

/// An initialiser, and the number of its variable.
#[derive(Clone, Copy)]
pub struct Initialiser {
    /// The number of its variable among those that the node declares, from 0.
    pub at: usize,
    /// The expression.
    pub value: NodeId,
}

/// The first variable with an initialiser from one of a number on.
pub fn initialiser_from(declarators: &[Declarator], from: usize) -> Option<Initialiser>
    ensures goes { (t : Table) (here : ℕ) (env : Env) → let all = map (variable_in t) declarators.now in
        vars_from here from (drop from all) env ≡ initialiser_goes here all result env }
    ensures within { IfSome result (λ x. x.at < length declarators.now) }
    ensures is { IfSome result (λ x. option_and_then (λ d. d.value) (slice_get declarators.now x.at) ≡ Some x.value) }
{
    for at in from..declarators.len() {
        let found = declarators[at].value;
        if let Some(value) = found {
            return Some(Initialiser { at, value });
        }
    }
    None
}
