//! The texts of functions (ECMA-262, 3rd edition, section 15.3.4.2).
ghost use Rattle.std.specs.Prelude.{◌≡◌, ◌++◌, IfOk, codes};
ghost use Rattle.std.specs.Option.{option_map};
ghost use Rattle.wjs_base.specs.Text.{Table, Grows};
ghost use Rattle.wjs_by_content.specs.Tables.{text_in};
ghost use Rattle.wjs_meaning.specs.NativesOfObjects as line;
ghost use Rattle.wjs_meaning.specs.Reading.{node_in};
ghost use Rattle.wjs_meaning.specs.Table.{row_of};
ghost use Rattle.wjs_meaning.specs.Trees as trees;
ghost use Rattle.wjs_model.specs.Soundness.{Base};
ghost use Rattle.wjs_model.specs.Texts as known;
ghost use Rattle.wjs_frames.specs.Parts.{env_in, node_among};

use wjs_arena::{Code, Native};
use wjs_base::{OutOfMemory, TextId};
use wjs_frames::node_among;
use wjs_heap_steps::units_of;
use wjs_meaning::row_of;
use wjs_model::{Config, Frame};
use wjs_store::WorldStore;
use wjs_strings::function_text;
use wjs_texts::units_of_ascii;
use wjs_tree::{Node, NodeId};

/// The name of a function that has none.
const ANONYMOUS: [u16; 9] = [97, 110, 111, 110, 121, 109, 111, 117, 115];

/// The text of a function by its code.
pub(crate) fn source_of<S: WorldStore>(
    config: &Config<S>,
    frame: &Frame,
    code: Code,
) -> Result<Vec<u16>, OutOfMemory>
    requires base { Base S.meaning config.now }
    ensures { IfOk result (λ units. (t : Table) → Grows config.now.heap.texts t →
        codes "function " ++ line.code_name code (λ k. (row_of k).name) (env_in S.meaning config.now t frame.now) ++ codes "() { }" ≡ units.items) }
{
    let alloc = config.heap.arena.allocator();
    match code {
        Code::None => function_text(alloc, &[]),
        Code::Script { tree, node } => function_text(alloc, script_name(config, frame, tree, node)),
        Code::Native(native) => {
            let name = units_of_ascii(alloc, native_name(native))?;
            function_text(alloc, name.as_slice())
        }
    }
}

/// The name of a native function, in ASCII.
fn native_name(native: Native) -> &'static [u8]
    ensures { result.now ≡ (row_of native).name }
{
    row_of(native).name
}

/// The name of the function of a node.
fn script_name<'a, S: WorldStore>(
    config: &'a Config<S>,
    frame: &Frame,
    tree: u32,
    node: NodeId,
) -> &'a [u16]
    requires { Base S.meaning config.now }
    ensures { (t : Table) → Grows config.now.heap.texts t →
        line.code_name (Code.Script tree node) (λ k. (row_of k).name) (env_in S.meaning config.now t frame.now) ≡ result.now }
{
    let _frame = frame;
    match name_at(config, tree, node) {
        Some(id) => units_of(config, id),
        None => &ANONYMOUS,
    }
}

/// A function's own name, by its node; none where there is no such node.
fn name_at<S: WorldStore>(config: &Config<S>, tree: u32, node: NodeId) -> Option<TextId>
    requires { Base S.meaning config.now }
    ensures is { (t : Table) → trees.name_of (node_in t (node_among config.now.units.items tree node)) ≡ option_map (text_in t) result }
    ensures found { known.HasText config.now.heap.texts result }
{
    match node_among(config, tree, node) {
        Some(node) => name_in_node(node),
        None => None,
    }
}

fn name_in_node(node: &Node) -> Option<TextId>
    ensures is { (t : Table) → trees.name_of (node_in t node.now) ≡ option_map (text_in t) result }
    ensures found { (t : Table) → known.KnowsNode t node.now → known.HasText t result }
{
    match node {
        Node::Function(name, _, _) => *name,
        Node::FunctionDecl(name, _, _) => Some(*name),
        _ => None,
    }
}
