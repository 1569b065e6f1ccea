//! Histories: which actions made the first world what it is.
ghost use Rattle.std.specs.Prelude.{◌≡◌, ◌++◌, ◌∷◌, [], OnOk, IfOk};
ghost use Rattle.std.specs.FinMap as map;
ghost use Rattle.wjs_store.specs.Fixed.{fresh};
ghost use Rattle.wjs_store.specs.Run.{answers_in};
ghost use Rattle.wjs_full.specs.History.{no_histories, places_of, emptied, put_place, put_places, move_places, noted, serial_places, IsSerial};

use std::alloc::Global;
use std::collections::BTreeMap;
use std::marker::Model;
use wjs_base::{OutOfMemory, WorldId};
use wjs_store::{Action, Answer, Verdict};

/// Places in a list of actions, counted from 0.
#[derive(Drop)]
struct Places {
    items: Vec<u64>,
}

impl Model for Places {
    ghost use Rattle.std.specs.Prelude.{List, ℕ};

    ghost Value = { List ℕ };

    ghost view = { λ places. places.items.items };
}

impl Places {
    fn new(alloc: Global) -> Places
        ensures { result ≡ [] }
    {
        Places {
            items: Vec::new(alloc),
        }
    }

    fn push(&mut self, place: u64) -> Result<(), OutOfMemory>
        ensures ok { OnOk result (self.new ≡ self.old ++ place ∷ []) }
    {
        self.items.push(place)?;
        Ok(())
    }

    fn extend(&mut self, more: &Places) -> Result<(), OutOfMemory>
        ensures ok { OnOk result (self.new ≡ self.old ++ more.now) }
    {
        self.items.extend_from_slice(more.items.as_slice())?;
        Ok(())
    }

    fn into_items(self) -> Vec<u64>
        ensures { result.items ≡ self }
    {
        self.items
    }
}

/// What is known of the worlds from actions and answers: each one's parent, and its list of places.
#[derive(Drop)]
struct Histories {
    alloc: Global,
    parents: BTreeMap<WorldId, WorldId>,
    places: BTreeMap<WorldId, Places>,
}

impl Model for Histories {
    ghost use Rattle.std.specs.FinMap as map;
    ghost use Rattle.wjs_full.specs.History.{Histories as Known};
    ghost use Rattle.wjs_full.specs.HistoryCode.{histories_code};

    ghost Value = { Known };

    ghost coded = { histories_code };

    ghost view = { λ h. record { parents = map.from_entries h.parents.entries; places = map.from_entries h.places.entries } };
}

impl Histories {
    fn new(alloc: Global) -> Histories
        ensures { result ≡ no_histories }
    {
        Histories {
            alloc,
            parents: BTreeMap::new(alloc),
            places: BTreeMap::new(alloc),
        }
    }

    /// Takes a world's list, which is empty afterwards.
    fn take(&mut self, world: WorldId) -> Places
        ensures places { result ≡ places_of self.old world }
        ensures emptied { self.new ≡ emptied world self.old }
    {
        match self.places.remove(&world) {
            Some(places) => places,
            None => Places::new(self.alloc),
        }
    }

    fn set(&mut self, world: WorldId, places: Places) -> Result<(), OutOfMemory>
        ensures ok { OnOk result (self.new ≡ record self.old { places = map.insert self.old.places world places }) }
    {
        self.places.insert(world, places)?;
        Ok(())
    }

    /// Puts a place last in a world's list.
    fn put_place(&mut self, world: WorldId, place: u64) -> Result<(), OutOfMemory>
        ensures ok { OnOk result (self.new ≡ put_place world place self.old) }
    {
        let mut places = self.take(world);
        places.push(place)?;
        self.set(world, places)
    }

    /// Puts places last in a world's list.
    fn put_places(&mut self, world: WorldId, more: &Places) -> Result<(), OutOfMemory>
        ensures ok { OnOk result (self.new ≡ put_places world more.now self.old) }
    {
        let mut places = self.take(world);
        places.extend(more)?;
        self.set(world, places)
    }

    fn set_parent(&mut self, child: WorldId, parent: WorldId) -> Result<(), OutOfMemory>
        ensures ok { OnOk result (self.new ≡ record self.old { parents = map.insert self.old.parents child parent }) }
    {
        self.parents.insert(child, parent)?;
        Ok(())
    }

    fn parent(&self, world: WorldId) -> Option<WorldId>
        ensures { result ≡ map.get self.now.parents world }
    {
        self.parents.get(&world).copied()
    }

    /// Appends a world's list to its parent's.
    fn move_places(&mut self, world: WorldId, parent: WorldId) -> Result<(), OutOfMemory>
        ensures ok { OnOk result (self.new ≡ move_places world parent self.old) }
    {
        let moved = self.take(world);
        self.put_places(parent, &moved)
    }

    /// Notes the answered action at a place.
    fn note(&mut self, place: u64, action: Action, answer: &Answer) -> Result<(), OutOfMemory>
        ensures ok { OnOk result (self.new ≡ noted place action answer.now self.old) }
    {
        match (action, answer) {
            (_, Answer::NoWorld) => Ok(()),
            (
                Action::Read { world, .. }
                | Action::Write { world, .. }
                | Action::List { world, .. },
                _,
            ) => self.put_place(world, place),
            (Action::Sprout { world, .. }, Answer::Sprouted(child)) => {
                self.set_parent(*child, world)
            }
            (Action::Commit { world }, Answer::Committed(Verdict::Moved)) => {
                match self.parent(world) {
                    Some(parent) => self.move_places(world, parent),
                    None => Ok(()),
                }
            }
            _ => Ok(()),
        }
    }
}

/// The places, in the list of actions and counted from 0, of the actions that made the first world what it is, in an
/// order in which they can be replayed on one plain map of slots.
///
/// Each world has a list of places. A read, a write or a listing in a world puts its place last in that world's list; a
/// commit that moved appends the world's list to its parent's, and empties it. The answers are those of the worlds from
/// a fresh store on, as `run_actions` gives them. Then plain replay of the first world's places from the empty map, where
/// a read answers its content, a write sets it and a listing answers the present names in the order of slots, gives at
/// each place the answer that was recorded there, and ends in the first world's contents.
pub fn serial_history(
    alloc: Global,
    actions: &[Action],
    answers: &[Answer],
) -> Result<Vec<u64>, OutOfMemory>
    requires { answers.now ≡ answers_in fresh actions.now }
    ensures places { IfOk result (λ places. places.items ≡ serial_places actions.now answers.now) }
    ensures serial { IfOk result (λ places. IsSerial actions.now answers.now places.items) }
{
    let mut histories = Histories::new(alloc);
    for (place, action) in actions.iter().enumerate() {
        histories.note(place as u64, *action, &answers[place])?;
    }
    let first = WorldId {
        owner: 0,
        serial: 0,
    };
    Ok(histories.take(first).into_items())
}
