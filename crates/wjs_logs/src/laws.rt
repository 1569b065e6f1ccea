//! Laws of logs.
ghost use Rattle.wjs_logs.specs.Judging.{OneVerdict};
ghost use Rattle.wjs_logs.specs.Telling.{OneTelling, TellsRight};

use wjs_audit::{one_judgement, one_reading};

/// Bytes are judged in one way: a log whose answers are right has no fault, and other bytes have one fault at most.
pub fn one_verdict()
    ensures { OneVerdict }
{
    one_reading();
    one_judgement();
}

/// Bytes tell one list of actions with their answers at most, and are then a log whose answers are right.
pub fn logs_tell()
    ensures one { OneTelling }
    ensures right { TellsRight }
{
    one_reading();
}
