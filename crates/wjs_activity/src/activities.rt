//! The activities of a play.
ghost use Rattle.std.specs.Prelude.{◌≡◌, ◌<◌, ◌-◌, ◌^◌, length, slice_get, None, Some, IfOk};
ghost use Rattle.wjs_activity.specs.declared.activities.Activity.{Activity};
ghost use Rattle.wjs_activity.specs.Noting.{Notes, NotesAt, Takes, AllNew};

use crate::ends::{Ended, Ends};
use std::alloc::Global;
use wjs_base::OutOfMemory;
use wjs_tries::{Came, Common, Rested};

/// An activity: how many of its tries were dropped, the one that rests, if one does, and whether it has ended.
#[derive(Drop)]
pub struct Activity {
    pub dropped: u32,
    pub running: Option<Rested>,
    pub ended: bool,
}

/// A play between turns: what activities share, the activities in the order of their parts, the ends so far in theirs, and how many
/// owners were drawn.
#[derive(Drop)]
pub struct Play {
    pub common: Common,
    pub activities: Vec<Activity>,
    pub ends: Ends,
    pub drawn: u32,
}

/// The number of the first part among the programs, and the budget of each try.
#[derive(Clone, Copy)]
pub struct Rules {
    pub first: u32,
    pub budget: u64,
}

/// So many activities that have not begun.
pub fn none_begun(alloc: Global, count: usize) -> Result<Vec<Activity>, OutOfMemory>
    ensures { IfOk result (λ list. (length list.items ≡ count) × AllNew list.items) }
{
    let mut list = Vec::new(alloc);
    for _place in 0..count {
        let activity = Activity {
            dropped: 0,
            running: None,
            ended: false,
        };
        list.push(activity)?;
    }
    Ok(list)
}

/// Takes the try that rests out of the activity at a place.
pub fn take_running(activities: &mut Vec<Activity>, place: usize) -> Option<Rested>
    requires { place < length activities.old.items }
    ensures { Takes place activities.old.items activities.new.items result }
{
    take_out(&mut activities[place])
}

/// Takes the try that rests out of an activity.
fn take_out(activity: &mut Activity) -> Option<Rested>
    ensures activity { activity.new ≡ record activity.old { running = None } }
    ensures value { result ≡ activity.old.running }
{
    activity.running.take()
}

/// Notes what a turn of the try of the activity at a place came to, and gives what is printed for it. Activities count from 1.
pub fn note_at(
    alloc: Global,
    activities: &mut Vec<Activity>,
    place: usize,
    ends: &mut Ends,
    owner: u32,
    came: Came,
) -> Result<Vec<u8>, OutOfMemory>
    requires place { place < length activities.old.items }
    requires number { place < 2 ^ 32 - 1 }
    requires few { (a : Activity) → slice_get activities.old.items place ≡ Some a → a.dropped < 2 ^ 32 - 1 }
    ensures { IfOk result (λ output. NotesAt place owner came activities.old.items ends.old activities.new.items ends.new output.items) }
{
    note(
        alloc,
        &mut activities[place],
        ends,
        place as u32 + 1,
        owner,
        came,
    )
}

/// Notes what a turn of an activity's try came to, and gives what is printed for it.
fn note(
    alloc: Global,
    activity: &mut Activity,
    ends: &mut Ends,
    number: u32,
    owner: u32,
    came: Came,
) -> Result<Vec<u8>, OutOfMemory>
    requires { activity.old.dropped < 2 ^ 32 - 1 }
    ensures { IfOk result (λ output. Notes number owner came activity.old ends.old activity.new ends.new output.items) }
{
    match came {
        Came::Rests(rest) => {
            activity.running = Some(rest);
            Ok(Vec::new(alloc))
        }
        Came::Drops => {
            activity.dropped += 1;
            Ok(Vec::new(alloc))
        }
        Came::Ends(outcome, output) => {
            let tries = activity.dropped + 1;
            activity.ended = true;
            ends.push(Ended {
                activity: number,
                owner,
                outcome,
                tries,
            })?;
            Ok(output)
        }
    }
}
