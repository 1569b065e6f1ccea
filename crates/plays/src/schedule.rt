//! The schedule of a play, as a line tells it.
ghost use Rattle.std.specs.Prelude.{◌≤◌, All, IfOk, IfSome};
ghost use Rattle.wjs_activity.specs.declared.ends.PlayTurn.{PlayTurn};

use crate::fault::Fault;
use std::alloc::Global;
use std::num::NonZeroU64;
use wjs_activity::PlayTurn;

/// Whose turns come first, each with its steps; the steps of each turn in the rounds behind them; and the budget of a try.
#[derive(Drop)]
pub struct Schedule {
    pub turns: Vec<PlayTurn>,
    pub turn: u64,
    pub budget: u64,
}

/// The schedule that a line tells, such as `1:1000000 2:9 turn 1 steps 3000`. All its numbers of steps are 1 at least.
pub fn schedule_of(alloc: Global, line: &str) -> Result<Schedule, Fault>
    ensures turns { IfOk result (λ schedule. All (λ (t : PlayTurn). 1 ≤ t.steps) schedule.turns.items) }
    ensures turn { IfOk result (λ schedule. 1 ≤ schedule.turn) }
    ensures budget { IfOk result (λ schedule. 1 ≤ schedule.budget) }
{
    let Some((turns, rounds)) = line.split_once("turn ") else {
        return Err(Fault::NotASchedule);
    };
    let Some((turn, budget)) = rounds.split_once(" steps ") else {
        return Err(Fault::NotASchedule);
    };
    let (Some(turn), Some(budget)) = (steps_of(turn), steps_of(budget)) else {
        return Err(Fault::NotASchedule);
    };
    let turns = turns_of(alloc, turns)?;
    Ok(Schedule {
        turns,
        turn,
        budget,
    })
}

/// The turns that words tell, with a space between each and the next. Behind the last it may stand or not.
fn turns_of(alloc: Global, words: &str) -> Result<Vec<PlayTurn>, Fault>
    ensures { IfOk result (λ turns. All (λ (t : PlayTurn). 1 ≤ t.steps) turns.items) }
{
    let mut turns = Vec::new(alloc);
    for word in words.split_terminator(' ') {
        let Some(turn) = turn_of(word) else {
            return Err(Fault::NotASchedule);
        };
        turns.push(turn)?;
    }
    Ok(turns)
}

/// The turn that a word tells: `2:9` is one of activity 2, of 9 steps.
fn turn_of(word: &str) -> Option<PlayTurn>
    ensures { IfSome result (λ turn. 1 ≤ turn.steps) }
{
    let (activity, steps) = word.split_once(':')?;
    let activity = activity.parse::<u32>().ok()?;
    let steps = steps_of(steps)?;
    Some(PlayTurn { activity, steps })
}

/// The number of steps that a word tells: a sign `+` and zeros may stand in front, and its only bound is that of 64 bits.
fn steps_of(word: &str) -> Option<u64>
    ensures { IfSome result (λ steps. 1 ≤ steps) }
{
    let steps = word.parse::<NonZeroU64>().ok()?;
    Some(steps.get())
}
