//! The longest expression that begins at the first token.
ghost use Rattle.std.specs.Prelude.{ℕ, ◌<◌, length, IsTrue};
ghost use Rattle.wjs_tree.specs.Ends.{HasKey};
ghost use Rattle.wjs_tree.specs.declared.keys.Key.TheVariants as keys;

use std::alloc::Global;
use std::process::Abort;
use std::test::Fail;
use wjs_lexer::lex;
use wjs_parse_expr::{Functions, ParseFault, expression, has_key};
use wjs_texts::Texts;
use wjs_tree::{Key, Node, NodeId, Nodes, Tok};

/// Whether no token is `function`, so that nothing has to be read before.
fn has_no_function(toks: &[Tok]) -> bool
    ensures none { IsTrue result → (place : ℕ) → HasKey toks.now place keys.Function → ⊥ }
{
    let mut place = 0;
    while place < toks.len() {
        if has_key(toks, place, Key::Function) {
            return false;
        }
        place += 1;
    }
    true
}

fn form(node: &Node) -> &'static str {
    match node {
        Node::Name(_) => "name",
        Node::Dot(_, _) => "dot",
        Node::NewWith(_, _) => "new",
        Node::Binary(_, _, _) => "operator",
        Node::Cond(_, _, _) => "choice",
        Node::Comma(_, _) => "comma",
        _ => "other",
    }
}

/// The form of a node; behind a dot, that of the base.
fn forms(nodes: &Nodes, id: NodeId) -> (&'static str, &'static str)
    requires { id.0 < length nodes.now }
{
    let node = nodes.node(id);
    match node {
        Node::Dot(base, _) => (form(node), form(nodes.node(*base))),
        _ => (form(node), ""),
    }
}

/// The forms of the longest expression, and the place behind it; None where no expression begins.
type Longest = Option<(&'static str, &'static str, usize)>;

fn longest(alloc: Global, toks: &[Tok], no_in: bool) -> Result<Longest, Fail> {
    if !has_no_function(toks) {
        return Err("a function")?;
    }
    let functions = Functions::new(alloc);
    let mut nodes = Nodes::new(alloc);
    match expression(alloc, toks, 0, no_in, &functions, &mut nodes) {
        Ok(found) => {
            let (whole, base) = forms(&nodes, found.node);
            Ok(Some((whole, base, found.next)))
        }
        Err(ParseFault::NotAScript) => Ok(None),
        Err(ParseFault::OutOfMemory) => return Err("out of memory")?,
    }
}

fn check(
    rt: &impl Abort,
    alloc: Global,
    script: &str,
    no_in: bool,
    due: Longest,
) -> Result<(), Fail> {
    assert!(rt; script.len() <= 16_777_216);
    let mut texts = Texts::new(alloc)?;
    let toks = lex(alloc, script.as_bytes(), &mut texts)?;
    let found = longest(alloc, &toks, no_in)?;
    assert!(rt; found == due, "{script}");
    Ok(())
}

#[test]
fn the_longest_expression_is_found(rt: HostRuntime) -> Result<(), Fail> {
    let rows = [
        ("a = b ? c : d, e", false, Some(("comma", "", 9))),
        ("new a.b(c).d", false, Some(("dot", "new", 9))),
        ("a in b", false, Some(("operator", "", 3))),
        ("a in b", true, Some(("name", "", 1))),
        ("a ? b in c : d", true, Some(("choice", "", 7))),
        ("a + * b", false, Some(("name", "", 1))),
        ("* b", false, None),
    ];
    for (script, no_in, due) in rows {
        check(&rt, rt.alloc(), script, no_in, due)?;
    }
    Ok(())
}
