//! Laws over the definitions of what bytes spell.
ghost use Rattle.wjs_load.specs.Laws.{OneAnswer, OneRefusal, ProgramOrRefusal};

use wjs_forms::{spelled_is_taken, taken_is_spelled};
use wjs_lexer::one_reading;
use wjs_offend::one_offence;
use wjs_programs::{one_program, program_or_none};

/// Bytes spell one program, or are refused for one reason, and never both. So the answers of [`load`](crate::load) other than
/// `OutOfMemory` exclude each other.
pub fn one_answer()
    ensures refusal { OneRefusal }
    ensures either { ProgramOrRefusal }
    ensures answer { OneAnswer }
{
    one_reading();
    one_program();
    program_or_none();
    // Whether tokens begin a program goes by what each may do, and not by the numbers of its texts.
    spelled_is_taken();
    taken_is_spelled();
    one_offence();
}
