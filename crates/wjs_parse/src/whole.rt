//! Programs (ECMA-262, 3rd edition, section 14).
ghost use Rattle.std.specs.Prelude.{◌≡◌, ◌+◌, ◌↔◌, [], length, OnOk, IfOk, IfSome, IsTrue};
ghost use Rattle.wjs_tree.specs.Ends.{HasKey};
ghost use Rattle.wjs_tree.specs.Shows.{Keeps};
ghost use Rattle.wjs_tree.specs.declared.keys.Key.TheVariants as keys;
ghost use Rattle.wjs_parse_expr.specs.Table.{Holds, MayBegin};
ghost use Rattle.wjs_parse.specs.Answers.{ProgramAnswers, WholeAnswers, AreBehind};

use crate::function::function_at;
use crate::list::source_elements;
use std::alloc::Global;
use wjs_base::OutOfMemory;
use wjs_labels::jumps_are_right;
use wjs_parse_expr::{Functions, ParseFault, has_key, has_sign};
use wjs_tree::{Key, Node, NodeId, Nodes, Program, Sign, Tok};

/// The program that the tokens spell: its tree is well formed, and no other well-formed tree spells them; trees are compared
/// by their forms and parts. No node stands at two places of it, and its body is the last of them. NotAScript exactly where no
/// well-formed tree spells them.
pub fn program(alloc: Global, toks: &[Tok]) -> Result<Program, ParseFault>
    ensures answer { ProgramAnswers toks.now result }
    ensures last { IfOk result (λ p. length p.nodes ≡ p.body.0 + 1) }
{
    let mut nodes = Nodes::new(alloc);
    match program_body(alloc, toks, &mut nodes) {
        Ok(Some(body)) => Ok(Program { nodes, body }),
        Ok(None) => Err(ParseFault::NotAScript),
        Err(_) => Err(ParseFault::OutOfMemory),
    }
}

/// The node of the program that all the tokens spell, which is the last.
fn program_body(
    alloc: Global,
    toks: &[Tok],
    nodes: &mut Nodes,
) -> Result<Option<NodeId>, OutOfMemory>
    requires { nodes.old ≡ [] }
    ensures answer { WholeAnswers toks.now nodes.new result }
    ensures last { IfOk result (λ found. IfSome found (λ node. length nodes.new ≡ node.0 + 1)) }
{
    let functions = functions(alloc, toks, nodes)?;
    let Some(found) = source_elements(alloc, toks, 0, 200, &functions, nodes)? else {
        return Ok(None);
    };
    if found.next != toks.len() {
        return Ok(None);
    }
    if !jumps_are_right(nodes, found.list.as_slice(), false) {
        return Ok(None);
    }
    let node = nodes.add(Node::Program(found.list))?;
    Ok(Some(node))
}

/// The functions that begin at any place, read from the last to the first, so that each is read when those within it are.
fn functions(alloc: Global, toks: &[Tok], nodes: &mut Nodes) -> Result<Functions, OutOfMemory>
    ensures keeps { Keeps nodes.old nodes.new }
    ensures held { IfOk result (λ found. Holds toks.now found 0 200 nodes.new) }
{
    let mut found = Functions::new(alloc);
    let mut place = toks.len();
    while place > 0 {
        place -= 1;
        add_function(alloc, toks, place, &mut found, nodes)?;
    }
    Ok(found)
}

/// Whether a function may begin at the place: its key stands there, and not right behind a dot, where it is the name of a
/// property.
fn function_may_begin(toks: &[Tok], place: usize) -> bool
    ensures { IsTrue result ↔ (HasKey toks.now place keys.Function × MayBegin toks.now place) }
{
    has_key(toks, place, Key::Function) && (place == 0 || !has_sign(toks, place - 1, Sign::Dot))
}

/// Adds the function that begins at the place, if one does.
fn add_function(
    alloc: Global,
    toks: &[Tok],
    place: usize,
    functions: &mut Functions,
    nodes: &mut Nodes,
) -> Result<(), OutOfMemory>
    requires held { Holds toks.now functions.old (place + 1) 200 nodes.old }
    requires behind { AreBehind functions.old (place + 1) }
    ensures keeps { Keeps nodes.old nodes.new }
    ensures held { OnOk result (Holds toks.now functions.new place 200 nodes.new) }
    ensures behind { OnOk result (AreBehind functions.new place) }
{
    if !function_may_begin(toks, place) {
        return Ok(());
    }
    let Some(found) = function_at(alloc, toks, place, functions, nodes)? else {
        return Ok(());
    };
    functions.add(place, found.node, found.next)
}
