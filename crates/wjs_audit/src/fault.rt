//! Why a log is refused.

ghost use Rattle.std.specs.Prelude.{◌≡◌};

use wjs_base::OutOfMemory;

/// Why bytes are no log, or a log is not the machine's.
#[derive(Clone, Copy, Debug, PartialEq, Eq)]
pub enum AuditFault {
    /// The first line that breaks the form, counted from 1 by LF.
    NotALog { line: u64 },
    /// The line of the first entry whose answer is not the full-copy machine's.
    NotTheAnswer { line: u64 },
    OutOfMemory,
}

impl From<OutOfMemory> for AuditFault {
    ghost use Rattle.wjs_audit.specs.declared.fault.AuditFault.TheVariants.{OutOfMemory};

    ghost from_gives = { λ _ fault. fault ≡ OutOfMemory };

    fn from(_: OutOfMemory) -> Self {
        AuditFault::OutOfMemory
    }
}
