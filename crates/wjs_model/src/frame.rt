//! What a configuration has still to do, a frame for each node that is being run.

ghost use Rattle.std.specs.Prelude.{◌≡◌, ◌++◌, ◌∷◌, [], IfOk, OnOk, OnErr, is_some, option_map, true};
ghost use Rattle.wjs_model.specs.Begun.{begun_at, is_due, resumed, with_phase};
ghost use Rattle.wjs_model.specs.Frames.{last, on_last, Pops, Uncovers};

use crate::operand::Operand;
use crate::point::{CallPoint, Point, Start};
use crate::stack::{Stack, Top, give_top, is_due_top, pop_top, push_top, push_waiting};
use std::alloc::Global;
use std::marker::Model;
use std::mem;
use wjs_base::{Name, ObjId, OutOfMemory, Slot, TextId, Value, WorldId};
use wjs_tree::NodeId;

/// What can be read and stored to (ECMA-262, 3rd edition, section 8.7).
#[derive(Clone, Copy)]
pub enum Reference {
    /// A name in a scope.
    Local(ObjId, Name),
    /// A property of the global object.
    Global(Name),
    /// A member of a value that is neither undefined nor null.
    Member(Value, Name),
}

/// How a node ended (section 8.9): an expression by a value or a reference, a statement by one of the others; both may throw.
#[derive(Clone, Copy)]
pub enum Completion {
    Gives(Value),
    Refers(Reference),
    Normal,
    Breaks(Option<TextId>),
    Continues(Option<TextId>),
    Returns(Value),
    Throws(Value),
}

/// When a frame goes on, and with what.
#[derive(Clone, Copy)]
pub enum Phase {
    /// With this, for which a step is due first.
    Due(Start),
    /// With this at once.
    Ready(Start),
    /// When the frame above it has ended.
    Waiting(Point),
    /// With this completion, which it waited for.
    Given(Point, Completion),
    /// With the completion of this, for which a step is due first.
    Entering(Point, Operand),
}

const _: () = prove!(size_of::<Phase>() == 104);

/// What a frame holds until it goes on.
#[derive(Clone, Copy)]
pub enum Held {
    Value(Value),
    Reference(Reference),
    /// What is called, and with which `this`; the values held are the arguments.
    Callee(Value, Value),
    /// The object whose elements are read one by one, and how many they are.
    Elements(ObjId, u32),
    /// What a `finally` may replace.
    Earlier(Completion),
    /// What a `for`-`in` has still to visit, the next one last.
    Visit(Slot),
}

/// What a frame holds. Contracts see the list with the latest first.
#[derive(Drop)]
pub struct Items {
    pub(crate) list: Vec<Held>,
}

impl Model for Items {
    ghost use Rattle.std.specs.Prelude.{List};
    ghost use Rattle.wjs_model.specs.Frames.{latest_first};
    ghost use Rattle.wjs_model.specs.declared.frame.Held.{Held};
    ghost use Rattle.std.specs.Coded.{codes};
    ghost use Rattle.wjs_model.specs.contracts.frame.Held as held_contract;

    ghost Value = { List Held };

    ghost coded = { Prim.hlevel (codes, held_contract.the_row.coded) };

    ghost view = { λ i. latest_first i.list.items };
}

impl Items {
    /// Nothing held.
    pub fn new(alloc: Global) -> Items
        ensures { result ≡ [] }
    {
        Items {
            list: Vec::new(alloc),
        }
    }

    /// Holds one more; after a refusal what is held is as it was.
    pub fn push(&mut self, item: Held) -> Result<(), OutOfMemory>
        ensures ok { OnOk result (self.new ≡ item ∷ self.old) }
        ensures err { OnErr result (self.new ≡ self.old) }
    {
        push_last(&mut self.list, item)?;
        Ok(())
    }

    /// The latest, which is taken off; None exactly where nothing is held.
    pub fn pop(&mut self) -> Option<Held>
        ensures { Uncovers self.old result self.new }
    {
        self.list.pop()
    }

    /// Whether nothing is held.
    fn is_empty(&self) -> bool
        ensures yes { result ≡ true → self.now ≡ [] }
    {
        self.list.is_empty()
    }

    /// Holds nothing any more. The memory of what it held is used again.
    fn clear(&mut self)
        ensures { self.new ≡ [] }
    {
        self.list.clear();
    }
}

/// Puts an item last; after a refusal the list is as it was.
fn push_last(list: &mut Vec<Held>, item: Held) -> Result<(), OutOfMemory>
    ensures ok { OnOk result (list.new.items ≡ list.old.items ++ item ∷ []) }
    ensures err { OnErr result (list.new.items ≡ list.old.items) }
{
    make_room(list)?;
    list.push(item)?;
    Ok(())
}

/// Takes room for one item where there is none. A list that is pushed to takes room for four, and a frame of a native that waits for
/// a conversion holds one, while as many may wait as there are steps.
fn make_room(list: &mut Vec<Held>) -> Result<(), OutOfMemory>
    ensures { list.new.items ≡ list.old.items }
{
    if !list.is_empty() {
        return Ok(());
    }
    list.reserve_exact(1)?;
    Ok(())
}

/// What a frame is.
#[derive(Drop)]
pub struct Activation {
    /// The tree at hand, among the configuration's.
    pub tree: u32,
    pub node: NodeId,
    pub phase: Phase,
    pub scope: ObjId,
    pub this: Value,
    pub world: WorldId,
    pub held: Items,
}

/// What is kept of a frame. All frames but the last wait, so it has no other phase than the point at which it waits: a run that
/// goes deep is made of these.
#[derive(Drop)]
pub(crate) struct Kept {
    pub(crate) tree: u32,
    pub(crate) node: NodeId,
    pub(crate) point: Point,
    pub(crate) scope: ObjId,
    pub(crate) this: Value,
    pub(crate) world: WorldId,
    pub(crate) held: Items,
}

// With the 8 bytes of the allocator a frame takes 144.
const _: () = prove!(size_of::<Kept>() == 136);

/// A node that is being run. It has a place of its own in memory, so that from the frames to a handler and back only its
/// address moves, and the phase that it had. Contracts see what it is, waiting at its point; another phase is kept beside it.
#[derive(Drop)]
pub struct Frame {
    pub(crate) at: Box<Kept>,
}

impl Model for Frame {
    ghost use Rattle.wjs_model.specs.declared.frame.Activation.{Activation};
    ghost use Rattle.wjs_model.specs.contracts.frame.Activation as activation_contract;
    ghost use Rattle.wjs_model.specs.Begun.{waiting};

    ghost Value = { Activation };

    ghost coded = { activation_contract.the_row.coded };

    ghost view = { λ f. waiting f.at.value };
}

impl Frame {
    /// A frame of its own, which waits at a point.
    fn new(alloc: Global, activation: Activation, point: Point) -> Result<Frame, OutOfMemory>
        ensures { IfOk result (λ frame. frame ≡ record activation { phase = Phase.Waiting point }) }
    {
        let Activation {
            tree,
            node,
            phase: _,
            scope,
            this,
            world,
            held,
        } = activation;
        let kept = Kept {
            tree,
            node,
            point,
            scope,
            this,
            world,
            held,
        };
        let at = Box::new(alloc, kept)?;
        Ok(Frame { at })
    }

    /// A frame of its own that is as this one, and holds something else.
    pub fn like(&self, alloc: Global, held: Items) -> Result<Frame, OutOfMemory>
        ensures { IfOk result (λ frame. frame ≡ record self.now { held = held }) }
    {
        let kept = Kept {
            tree: self.at.tree,
            node: self.at.node,
            point: self.at.point,
            scope: self.at.scope,
            this: self.at.this,
            world: self.at.world,
            held,
        };
        let at = Box::new(alloc, kept)?;
        Ok(Frame { at })
    }

    pub fn tree(&self) -> u32
        ensures { result ≡ self.now.tree }
    {
        self.at.tree
    }

    pub fn node(&self) -> NodeId
        ensures { result ≡ self.now.node }
    {
        self.at.node
    }

    /// The point at which it waits.
    #[inline(always)]
    pub(crate) fn point(&self) -> Point
        ensures { Phase.Waiting result ≡ self.now.phase }
    {
        self.at.point
    }

    pub fn scope(&self) -> ObjId
        ensures { result ≡ self.now.scope }
    {
        self.at.scope
    }

    pub fn this(&self) -> Value
        ensures { result ≡ self.now.this }
    {
        self.at.this
    }

    pub fn world(&self) -> WorldId
        ensures { result ≡ self.now.world }
    {
        self.at.world
    }

    /// It goes on at a node of a tree.
    pub fn set_node(&mut self, tree: u32, node: NodeId)
        ensures { self.new ≡ record self.old { tree = tree; node = node } }
    {
        self.at.tree = tree;
        self.at.node = node;
    }

    /// It waits at a point.
    #[inline(always)]
    pub fn wait_at(&mut self, point: Point)
        ensures { self.new ≡ record self.old { phase = Phase.Waiting point } }
    {
        self.at.point = point;
    }

    pub fn set_scope(&mut self, scope: ObjId)
        ensures { self.new ≡ record self.old { scope = scope } }
    {
        self.at.scope = scope;
    }

    pub fn set_this(&mut self, this: Value)
        ensures { self.new ≡ record self.old { this = this } }
    {
        self.at.this = this;
    }

    pub fn set_world(&mut self, world: WorldId)
        ensures { self.new ≡ record self.old { world = world } }
    {
        self.at.world = world;
    }

    /// It is run anew at a node, and holds nothing.
    #[inline(always)]
    pub fn begin(&mut self, node: NodeId)
        ensures { self.new ≡ record self.old { node = node; held = [] } }
    {
        self.at.node = node;
        self.at.held.clear();
    }

    /// It waits where another does, in its tree and its scope, with its `this` and in its world.
    fn set_around(&mut self, other: &Frame)
        ensures { self.new ≡ record other.now { node = self.old.node; held = self.old.held } }
    {
        self.at.tree = other.tree();
        self.at.point = other.point();
        self.at.scope = other.scope();
        self.at.this = other.this();
        self.at.world = other.world();
    }

    /// It holds something. Where that is nothing, the memory of what it held before is used again.
    fn hold_all(&mut self, held: Items)
        requires { self.old.held ≡ [] }
        ensures { self.new ≡ record self.old { held = held } }
    {
        if !held.is_empty() {
            self.at.held = held;
        }
    }

    pub fn set_held(&mut self, held: Items)
        ensures { self.new ≡ record self.old { held = held } }
    {
        self.at.held = held;
    }

    /// Holds something else, and gives what it held.
    pub fn replace_held(&mut self, held: Items) -> Items
        ensures held { result ≡ self.old.held }
        ensures new { self.new ≡ record self.old { held = held } }
    {
        mem::replace(&mut self.at.held, held)
    }

    /// Holds one more; after a refusal it is as it was.
    pub fn hold(&mut self, item: Held) -> Result<(), OutOfMemory>
        ensures ok { OnOk result (self.new ≡ record self.old { held = item ∷ self.old.held }) }
        ensures err { OnErr result (self.new ≡ self.old) }
    {
        self.at.held.push(item)
    }

    /// The latest that it holds, which is taken off; None exactly where nothing is held.
    pub fn pop(&mut self) -> Option<Held>
        ensures held { Uncovers self.old.held result self.new.held }
        ensures same { self.new ≡ record self.old { held = self.new.held } }
    {
        self.at.held.pop()
    }
}

/// The frames, the one that runs last. Contracts see the list.
#[derive(Drop)]
pub struct Frames {
    stack: Stack,
    /// A few frames that have ended. The next ones are made in their places.
    spare: Vec<Frame>,
}

/// How many ended frames are kept at most. Few statements nest deeper; what is beyond goes back to the allocator.
const MOST_SPARE: usize = 64;

impl Model for Frames {
    ghost use Rattle.std.specs.Prelude.{List};
    ghost use Rattle.wjs_model.specs.declared.frame.Activation.{Activation};
    ghost use Rattle.std.specs.Coded.{codes};
    ghost use Rattle.wjs_model.specs.contracts.frame.Activation as activation_contract;
    ghost use Rattle.wjs_model.specs.Stacks.{all_of};

    ghost Value = { List Activation };

    ghost coded = { Prim.hlevel (codes, activation_contract.the_row.coded) };

    ghost view = { λ f. all_of f.stack };
}

impl Frames {
    /// No frames.
    pub fn new(alloc: Global) -> Frames
        ensures { result ≡ [] }
    {
        Frames {
            stack: Stack {
                below: Vec::new(alloc),
                list: Vec::new(alloc),
                top: None,
            },
            spare: Vec::new(alloc),
        }
    }

    /// Puts a frame that waits on top; after a refusal the frames are as they were.
    #[inline(always)]
    pub fn push(&mut self, frame: Frame) -> Result<(), OutOfMemory>
        ensures ok { OnOk result (self.new ≡ self.old ++ frame ∷ []) }
        ensures err { OnErr result (self.new ≡ self.old) }
    {
        push_waiting(&mut self.stack, frame)
    }

    /// Puts a frame on top that has this phase; after a refusal the frames are as they were.
    #[inline(always)]
    pub fn push_at(&mut self, frame: Frame, phase: Phase) -> Result<(), OutOfMemory>
        ensures ok { OnOk result (self.new ≡ self.old ++ record frame { phase = phase } ∷ []) }
        ensures err { OnErr result (self.new ≡ self.old) }
    {
        push_top(&mut self.stack, Top { frame, phase })
    }

    /// Puts a frame of its own on top; after a refusal the frames are as they were.
    pub fn add(&mut self, alloc: Global, activation: Activation) -> Result<(), OutOfMemory>
        ensures ok { OnOk result (self.new ≡ self.old ++ activation ∷ []) }
        ensures err { OnErr result (self.new ≡ self.old) }
    {
        match activation.phase {
            Phase::Waiting(point) => self.add_waiting(alloc, activation, point),
            Phase::Due(_) | Phase::Ready(_) | Phase::Given(_, _) | Phase::Entering(_, _) => {
                self.add_at(alloc, activation)
            }
        }
    }

    fn add_waiting(
        &mut self,
        alloc: Global,
        activation: Activation,
        point: Point,
    ) -> Result<(), OutOfMemory>
        requires { activation.phase ≡ Phase.Waiting point }
        ensures ok { OnOk result (self.new ≡ self.old ++ activation ∷ []) }
        ensures err { OnErr result (self.new ≡ self.old) }
    {
        let frame = Frame::new(alloc, activation, point)?;
        self.push(frame)?;
        Ok(())
    }

    /// The frame's own point isn't asked for.
    fn add_at(&mut self, alloc: Global, activation: Activation) -> Result<(), OutOfMemory>
        ensures ok { OnOk result (self.new ≡ self.old ++ activation ∷ []) }
        ensures err { OnErr result (self.new ≡ self.old) }
    {
        let phase = activation.phase;
        let frame = Frame::new(alloc, activation, Point::Call(CallPoint::NextProgram))?;
        self.push_at(frame, phase)?;
        Ok(())
    }

    /// The frame on top with its phase, which is taken off; None exactly where there is no frame.
    #[inline(always)]
    pub fn pop(&mut self) -> Option<(Frame, Phase)>
        ensures { Pops self.old (option_map with_phase result) self.new }
    {
        pop_top(&mut self.stack)
    }

    /// Another frame has ended, and the frame on top, which waited, goes on with its completion; false exactly where there is no
    /// frame.
    #[inline(always)]
    pub fn give(&mut self, ended: Frame, completion: Completion) -> bool
        ensures given { self.new ≡ on_last (λ f. record f { phase = resumed f.phase completion }) self.old }
        ensures any { result ≡ is_some (last self.old) }
    {
        keep(&mut self.spare, ended);
        give_top(&mut self.stack, completion)
    }

    /// Keeps a frame that has ended and is none of these, which stay the same: another is made in its place.
    #[inline(always)]
    pub fn spare(&mut self, ended: Frame)
        ensures { self.new ≡ self.old }
    {
        keep(&mut self.spare, ended);
    }

    /// Puts a frame that waits on top, and one more above it, which begins at a node around the same, with a step due.
    #[inline(always)]
    pub fn push_begun(
        &mut self,
        frame: Frame,
        start: Start,
        node: NodeId,
    ) -> Result<(), OutOfMemory>
        ensures { OnOk result (self.new ≡ (self.old ++ frame ∷ []) ++ begun_at frame start node ∷ []) }
    {
        let above = self.begun(&frame, node)?;
        self.push(frame)?;
        self.push_at(above, Phase::Due(start))?;
        Ok(())
    }

    /// Puts a frame that waits on top, and one more above it, which begins at a node around the same, at once and with what it
    /// holds.
    pub fn push_ready(
        &mut self,
        frame: Frame,
        start: Start,
        node: NodeId,
        held: Items,
    ) -> Result<(), OutOfMemory>
        ensures { OnOk result (self.new ≡ (self.old ++ frame ∷ []) ++ record (begun_at frame start node) { phase = Phase.Ready start; held = held } ∷ []) }
    {
        let mut above = self.begun(&frame, node)?;
        above.hold_all(held);
        self.push(frame)?;
        self.push_at(above, Phase::Ready(start))?;
        Ok(())
    }

    /// A frame at a node around the same as another, and as it waits, with nothing held. It is made in the place of one that has ended.
    #[inline(always)]
    pub fn begun(&mut self, at: &Frame, node: NodeId) -> Result<Frame, OutOfMemory>
        ensures frame { IfOk result (λ frame. frame ≡ record at.now { node = node; held = [] }) }
        ensures same { self.new ≡ self.old }
    {
        match self.spare.pop() {
            Some(frame) => Ok(renewed(frame, at, node)),
            None => begun(*self.stack.list.allocator(), at, node),
        }
    }

    /// Nothing held, for a frame that goes on top.
    pub fn nothing_held(&self) -> Items
        ensures { result ≡ [] }
    {
        Items::new(*self.stack.list.allocator())
    }

    /// Whether a step is due before the frame that runs goes on; none is where there is no frame.
    #[inline(always)]
    pub fn is_due(&self) -> bool
        ensures { result ≡ is_due (option_map (λ f. f.phase) (last self.now)) }
    {
        is_due_top(&self.stack)
    }
}

/// Keeps a frame that has ended, where few are kept.
#[inline(always)]
fn keep(spare: &mut Vec<Frame>, ended: Frame) {
    if spare.len() < MOST_SPARE {
        let _ = spare.push(ended);
    }
}

/// A frame in the place of one that has ended.
#[inline(always)]
fn renewed(frame: Frame, at: &Frame, node: NodeId) -> Frame
    ensures { result ≡ record at.now { node = node; held = [] } }
{
    let mut frame = frame;
    frame.set_around(at);
    frame.begin(node);
    frame
}

/// A frame in a new place.
fn begun(alloc: Global, at: &Frame, node: NodeId) -> Result<Frame, OutOfMemory>
    ensures { IfOk result (λ frame. frame ≡ record at.now { node = node; held = [] }) }
{
    let mut frame = at.like(alloc, Items::new(alloc))?;
    frame.begin(node);
    Ok(frame)
}
