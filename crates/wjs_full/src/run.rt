//! Lists of actions over any store.
ghost use Rattle.std.specs.Prelude.{◌≡◌, ◌∷◌, [], IfOk, IsTrue, not};
ghost use Rattle.wjs_store.specs.Meaning.{worlds};
ghost use Rattle.wjs_store.specs.Run.{is_done, Runs};

use std::alloc::Global;
use wjs_base::OutOfMemory;
use wjs_store::{Action, Answer, WorldStore};

/// Does an action on a world that is there.
fn perform<S: WorldStore>(store: &mut S, action: Action) -> Result<Answer, OutOfMemory>
    requires there { IsTrue (is_done (worlds (S.meaning store.old)) action) }
    requires not_spent { IsTrue (not (S.meaning store.old).spent) }
    ensures { IfOk result (λ answer. Runs (S.meaning store.old) (action ∷ []) (answer ∷ []) (S.meaning store.new)) }
{
    match action {
        Action::Read { world, slot } => Ok(Answer::Found(store.read(world, slot)?)),
        Action::Write {
            world,
            slot,
            content,
        } => {
            store.write(world, slot, content)?;
            Ok(Answer::Wrote)
        }
        Action::List { world, object } => Ok(Answer::Listed(store.list(world, object)?)),
        Action::Sprout {
            world,
            owner,
            strict,
        } => Ok(Answer::Sprouted(store.sprout(world, owner, strict)?)),
        Action::Commit { world } => Ok(Answer::Committed(store.commit(world)?)),
    }
}

/// Does one action; an action on a world that is not there is answered NoWorld and does nothing.
pub fn act<S: WorldStore>(store: &mut S, action: Action) -> Result<Answer, OutOfMemory>
    requires { IsTrue (not (S.meaning store.old).spent) }
    ensures { IfOk result (λ answer. Runs (S.meaning store.old) (action ∷ []) (answer ∷ []) (S.meaning store.new)) }
{
    if store.has_world(action.world()) {
        perform(store, action)
    } else {
        Ok(Answer::NoWorld)
    }
}

/// Does actions in order; an action on a world that is not there is answered NoWorld and does nothing.
///
/// The answers are those of the worlds under each view that the store admits afterwards, its own among them. A store
/// that is spent answers OutOfMemory.
pub fn run_actions<S: WorldStore>(
    alloc: Global,
    store: &mut S,
    actions: &[Action],
) -> Result<Vec<Answer>, OutOfMemory>
    ensures { IfOk result (λ answers. Runs (S.meaning store.old) actions.now answers.items (S.meaning store.new)) }
{
    if store.is_spent() {
        return Err(OutOfMemory);
    }
    let mut answers = Vec::new(alloc);
    for action in actions {
        let answer = act(store, *action)?;
        answers.push(answer)?;
    }
    Ok(answers)
}
