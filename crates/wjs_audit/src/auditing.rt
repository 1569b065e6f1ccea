//! Whether the answers of a log are the full-copy machine's.
ghost use Rattle.std.specs.Prelude.{◌≡◌, ℕ, ◌∷◌, [], not, IsTrue, OnOk, IsErrOf};
ghost use Rattle.wjs_store.specs.Fixed.{fresh};
ghost use Rattle.wjs_store.specs.Meaning.{worlds};
ghost use Rattle.wjs_store.specs.Run.{answer_in, Runs};
ghost use Rattle.wjs_audit.specs.Deeds.{action_of, answer_of_deed};
ghost use Rattle.wjs_audit.specs.Right.{AreRight, WrongAt};

use crate::deed::Entry;
use crate::fault::AuditFault;
use crate::log::Log;
use crate::same::is_same;
use std::alloc::Global;
use wjs_full::{FullStore, act};
use wjs_store::WorldStore;

/// Does the action of an entry, and compares the answer.
fn judge<S: WorldStore>(store: &mut S, entry: &Entry) -> Result<(), AuditFault>
    requires { IsTrue (not (S.meaning store.old).spent) }
    ensures right { OnOk result (Runs (S.meaning store.old) (action_of entry.now.deed ∷ []) (answer_of_deed entry.now.deed ∷ []) (S.meaning store.new)) }
    ensures line { (n : ℕ) → IsErrOf result (AuditFault.NotTheAnswer n) → n ≡ entry.now.line }
    ensures wrong { (n : ℕ) → IsErrOf result (AuditFault.NotTheAnswer n)
        → ¬ (answer_in (worlds (S.meaning store.old)) (action_of entry.now.deed) ≡ answer_of_deed entry.now.deed) }
    ensures never { (n : ℕ) → ¬ (IsErrOf result (AuditFault.NotALog n)) }
{
    let answer = act(store, entry.deed.action())?;
    if is_same(&answer, &entry.deed) {
        return Ok(());
    }
    Err(AuditFault::NotTheAnswer { line: entry.line })
}

/// The first entry whose answer isn't the full-copy machine's, from the fresh state on: NotTheAnswer comes exactly where
/// there is one, and has its line. An action on a world that isn't there has no right answer.
///
/// The store is any one whose worlds are the fresh ones and that isn't spent, also one that tells its actions: the sparse store
/// serves for long logs.
pub fn audit_in<S: WorldStore + Drop>(mut store: S, log: &Log) -> Result<(), AuditFault>
    requires fresh { worlds (S.meaning store) ≡ fresh }
    requires works { IsTrue (not (S.meaning store).spent) }
    ensures right { OnOk result (AreRight log.now) }
    ensures wrong { (n : ℕ) → IsErrOf result (AuditFault.NotTheAnswer n) → WrongAt log.now n }
    ensures never { (n : ℕ) → ¬ (IsErrOf result (AuditFault.NotALog n)) }
{
    let entries = log.entries();
    for entry in entries {
        match judge(&mut store, entry) {
            Ok(()) => {}
            Err(fault) => return Err(fault),
        }
    }
    Ok(())
}

/// `audit_in` over full copies, which takes much time and memory for long logs.
pub fn audit(alloc: Global, log: &Log) -> Result<(), AuditFault>
    ensures right { OnOk result (AreRight log.now) }
    ensures wrong { (n : ℕ) → IsErrOf result (AuditFault.NotTheAnswer n) → WrongAt log.now n }
    ensures never { (n : ℕ) → ¬ (IsErrOf result (AuditFault.NotALog n)) }
{
    let store = FullStore::new(alloc)?;
    audit_in(store, log)
}
