//! What holds of the definitions that the program is proved by.
ghost use Rattle.std.specs.Prelude.{◌≡◌, ℕ, List};
ghost use Rattle.wjs_command.specs.declared.status.Status.{Status};
ghost use Rattle.wjs_io.specs.Streams.{Stream};
ghost use Rattle.wjs_command.specs.Due.{OneDue, OneLog, OneUsage};
ghost use Rattle.wjs_command.specs.Command.{EndsBy, IsComplete};
ghost use Rattle.wjs_logs.specs.Telling.{OneTelling};

use wjs_division::one_input;
use wjs_load::one_answer;
use wjs_logs::{logs_tell, one_verdict};
use wjs_programs::one_program;

/// Where no count of faults rose, a run ends with all that is due, or memory ran out.
pub fn completeness()
    ensures { (words : List (List ℕ)) (bytes : List ℕ) (source out err : Stream) (status : Status) → EndsBy words bytes source out err status →
        IsComplete words bytes source out err status }
{}

/// For words without a fault at most one thing is due: one list of bytes on out, one on err, one status, and one number of
/// bytes that are taken. So it is in mode `play` too, where the words say how many steps a turn has. In mode `log` two logs may be
/// due, which tell the same actions with the same answers: of a log's bytes it is left open which number a text has, and so where a
/// name stands in a listing and which slot a refused commit names. For words with a fault the same holds of all but the text behind
/// `usage: `, which is `clap`'s.
pub fn one_due()
    ensures faultless { OneDue }
    ensures logs { OneLog }
    ensures telling { OneTelling }
    ensures usage { OneUsage }
{
    one_program();
    one_answer();
    one_verdict();
    logs_tell();
    one_input();
}
