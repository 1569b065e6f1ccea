//! Bytes that are to be a log, read and judged.
ghost use Rattle.std.specs.Prelude.{◌≡◌, not, IsTrue, OnOk, IfErr};
ghost use Rattle.wjs_store.specs.Fixed.{fresh};
ghost use Rattle.wjs_store.specs.Meaning.{worlds};
ghost use Rattle.wjs_logs.specs.Judging.{IsRight, Blames};

use std::alloc::Global;
use wjs_audit::{AuditFault, audit_in, read_log};
use wjs_store::WorldStore;

/// Reads the bytes as a log, and does its actions over a store whose worlds are the fresh ones, to compare the answers.
///
/// NotALog comes exactly where they are no log, and NotTheAnswer exactly where they are one of which an answer isn't the
/// full-copy machine's, each with the first such line. The whole of the bytes is read before any answer is judged.
pub fn judge_log<S: WorldStore + Drop>(
    alloc: Global,
    store: S,
    bytes: &[u8],
) -> Result<(), AuditFault>
    requires fresh { worlds (S.meaning store) ≡ fresh }
    requires works { IsTrue (not (S.meaning store).spent) }
    ensures right { OnOk result (IsRight bytes.now) }
    ensures fault { IfErr result (Blames bytes.now) }
{
    match read_log(alloc, bytes) {
        Ok(log) => audit_in(store, &log),
        Err(fault) => Err(fault),
    }
}
