//! Frames that wait for one that stopped.
ghost use Rattle.std.specs.Prelude.{◌≡◌, ◌++◌, ◌∷◌, [], OnOk};
ghost use Rattle.wjs_model.specs.Frames.{Uncovers};

use std::alloc::Global;
use std::marker::Model;
use wjs_base::OutOfMemory;
use wjs_model::{Config, Frame};
use wjs_store::WorldStore;

/// Frames that wait. Contracts see the list with the outermost first, which is the latest. One alone takes no memory beside its own.
#[derive(Drop)]
pub struct Waits {
    outermost: Option<Frame>,
    inside: Vec<Frame>,
}

impl Model for Waits {
    ghost use Rattle.std.specs.Prelude.{List, ◌++◌, option_to_list};
    ghost use Rattle.wjs_model.specs.Frames.{latest_first};
    ghost use Rattle.wjs_model.specs.declared.frame.Activation.{Activation};
    ghost use Rattle.std.specs.Coded.{codes};
    ghost use Rattle.wjs_model.specs.contracts.frame.Activation as activation_contract;

    ghost Value = { List Activation };

    ghost coded = { Prim.hlevel (codes, activation_contract.the_row.coded) };

    ghost view = { λ w. option_to_list w.outermost ++ latest_first w.inside.items };
}

impl Waits {
    /// None.
    pub fn new(alloc: Global) -> Waits
        ensures { result ≡ [] }
    {
        Waits {
            outermost: None,
            inside: Vec::new(alloc),
        }
    }

    /// A frame waits below those that are there.
    pub fn push(&mut self, frame: Frame) -> Result<(), OutOfMemory>
        ensures { OnOk result (self.new ≡ frame ∷ self.old) }
    {
        match self.outermost.take() {
            None => {
                self.outermost = Some(frame);
                Ok(())
            }
            Some(before) => {
                self.inside.push(before)?;
                self.outermost = Some(frame);
                Ok(())
            }
        }
    }

    /// The outermost, which is taken off; None exactly where there is none.
    pub fn pop(&mut self) -> Option<Frame>
        ensures { Uncovers self.old result self.new }
    {
        match self.outermost.take() {
            Some(frame) => Some(frame),
            None => self.inside.pop(),
        }
    }
}

/// The frames that wait are put on the others.
pub fn put_on<S: WorldStore>(config: &mut Config<S>, waits: Waits) -> Result<(), OutOfMemory>
    ensures { OnOk result (config.new ≡ record config.old { frames = config.old.frames ++ waits }) }
{
    let mut waits = waits;
    for _turn in 0..u64::MAX {
        match waits.pop() {
            Some(frame) => config.frames.push(frame)?,
            None => return Ok(()),
        }
    }
    Err(OutOfMemory)
}
