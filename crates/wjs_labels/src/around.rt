//! What stands around a statement in one body.
ghost use Rattle.std.specs.Prelude.{◌≡◌, ◌↔◌, IsTrue, Contains};
ghost use Rattle.wjs_tree.specs.Jumps.{CanBreak, CanContinue};
ghost use Rattle.wjs_labels.specs.Around.{labels_of, loops_of, around_of};

use wjs_base::TextId;

/// The labels around a statement, the nearest first, each with whether its statement is a loop.
#[derive(Drop)]
pub enum Labels<'a> {
    Outermost,
    Within {
        name: TextId,
        is_loop: bool,
        outer: &'a Labels<'a>,
    },
}

/// What stands around a statement: whether its body is a function's, whether a loop and whether a `switch`
/// stands around it, and its labels.
#[derive(Clone, Copy)]
pub struct Around<'a> {
    pub function: bool,
    pub in_loop: bool,
    pub in_switch: bool,
    pub labels: &'a Labels<'a>,
}

/// Whether a label of the name stands around.
pub fn has_label(labels: &Labels, name: TextId) -> bool
    ensures { IsTrue result ↔ Contains (labels_of labels.now) name }
{
    match labels {
        Labels::Outermost => false,
        Labels::Within {
            name: nearest,
            is_loop: _,
            outer,
        } => *nearest == name || has_label(outer, name),
    }
}

/// Whether a label of the name stands around, and its statement is a loop.
pub fn has_loop(labels: &Labels, name: TextId) -> bool
    ensures { IsTrue result ↔ Contains (loops_of labels.now) name }
{
    match labels {
        Labels::Outermost => false,
        Labels::Within {
            name: nearest,
            is_loop,
            outer,
        } => {
            if !*is_loop {
                return has_loop(outer, name);
            }
            *nearest == name || has_loop(outer, name)
        }
    }
}

/// Whether a `break` may stand here (section 12.8).
pub fn can_break(around: Around, label: Option<TextId>) -> bool
    ensures { IsTrue result ↔ CanBreak (around_of around.entry) label }
{
    match label {
        Some(name) => has_label(around.labels, name),
        None => around.in_loop || around.in_switch,
    }
}

/// Whether a `continue` may stand here (section 12.7).
pub fn can_continue(around: Around, label: Option<TextId>) -> bool
    ensures { IsTrue result ↔ CanContinue (around_of around.entry) label }
{
    match label {
        Some(name) => has_loop(around.labels, name),
        None => around.in_loop,
    }
}
