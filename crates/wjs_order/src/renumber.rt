//! Nodes whose parts have other numbers.
ghost use Rattle.std.specs.Prelude.{◌≡◌, ◌<◌, length, map, option_map, IfOk};
ghost use Rattle.wjs_tree.specs.Children.{ChildrenBelow, AreBelow, OptionBelow, ItemsBelow, PropertiesBelow, DeclaratorsBelow, ClausesBelow};
ghost use Rattle.wjs_tree.specs.Children.{InitBelow, HandlerBelow};
ghost use Rattle.wjs_order.specs.Renumbered.{number_in, new_id, new_option, new_property, new_declarator, new_init, new_clause, new_handler, renumbered};

use std::alloc::Global;
use wjs_base::{OutOfMemory, TextId};
use wjs_tree::{Clause, Declarator, ForInit, Handler, Node, NodeId, Property, Sequence};

/// A copy of a node, each part under the number to which the table takes it.
pub fn renumbered(alloc: Global, to: &[u64], node: &Node) -> Result<Node, OutOfMemory>
    requires { ChildrenBelow (length to.now) node.now }
    ensures { IfOk result (λ made. made ≡ renumbered (number_in to.now) node.now) }
{
    match node {
        Node::Name(x) => Ok(Node::Name(*x)),
        Node::Number(k) => Ok(Node::Number(*k)),
        Node::Text(x) => Ok(Node::Text(*x)),
        Node::This => Ok(Node::This),
        Node::ThisWorld => Ok(Node::ThisWorld),
        Node::Null => Ok(Node::Null),
        Node::Bool(b) => Ok(Node::Bool(*b)),
        Node::Paren(a) => Ok(Node::Paren(id(to, *a))),
        Node::ArrayLit(xs, tail) => Ok(Node::ArrayLit(items(alloc, to, xs.as_slice())?, *tail)),
        Node::ObjectLit(xs, comma) => {
            Ok(Node::ObjectLit(properties(alloc, to, xs.as_slice())?, *comma))
        }
        Node::Function(x, formals, xs) => {
            let formals = copied(alloc, formals.as_slice())?;
            Ok(Node::Function(*x, formals, list(alloc, to, xs.as_slice())?))
        }
        Node::Dot(a, x) => Ok(Node::Dot(id(to, *a), *x)),
        Node::At(a, b) => Ok(Node::At(id(to, *a), id(to, *b))),
        Node::Call(a, xs) => Ok(Node::Call(id(to, *a), list(alloc, to, xs.as_slice())?)),
        Node::NewWith(a, xs) => Ok(Node::NewWith(id(to, *a), list(alloc, to, xs.as_slice())?)),
        Node::NewBare(a) => Ok(Node::NewBare(id(to, *a))),
        Node::Postfix(a, op) => Ok(Node::Postfix(id(to, *a), *op)),
        Node::Prefix(op, a) => Ok(Node::Prefix(*op, id(to, *a))),
        Node::Binary(a, op, b) => Ok(Node::Binary(id(to, *a), *op, id(to, *b))),
        Node::Cond(a, b, c) => Ok(Node::Cond(id(to, *a), id(to, *b), id(to, *c))),
        Node::Assign(a, op, b) => Ok(Node::Assign(id(to, *a), *op, id(to, *b))),
        Node::Comma(a, b) => Ok(Node::Comma(id(to, *a), id(to, *b))),
        Node::Block(xs) => Ok(Node::Block(list(alloc, to, xs.as_slice())?)),
        Node::Var(xs, end) => Ok(Node::Var(declarators(alloc, to, xs.as_slice())?, *end)),
        Node::Empty => Ok(Node::Empty),
        Node::Expr(a, end) => Ok(Node::Expr(id(to, *a), *end)),
        Node::If(a, b, o) => Ok(Node::If(id(to, *a), id(to, *b), option(to, *o))),
        Node::DoWhile(a, b, end) => Ok(Node::DoWhile(id(to, *a), id(to, *b), *end)),
        Node::While(a, b) => Ok(Node::While(id(to, *a), id(to, *b))),
        Node::For(f, o, p, a) => {
            let f = init(alloc, to, f)?;
            Ok(Node::For(f, option(to, *o), option(to, *p), id(to, *a)))
        }
        Node::ForIn(a, b, c) => Ok(Node::ForIn(id(to, *a), id(to, *b), id(to, *c))),
        Node::ForVarIn(x, a, b) => Ok(Node::ForVarIn(*x, id(to, *a), id(to, *b))),
        Node::Continue(label, end) => Ok(Node::Continue(*label, *end)),
        Node::Break(label, end) => Ok(Node::Break(*label, *end)),
        Node::Return(o, end) => Ok(Node::Return(option(to, *o), *end)),
        Node::Throw(a, end) => Ok(Node::Throw(id(to, *a), *end)),
        Node::Label(x, a) => Ok(Node::Label(*x, id(to, *a))),
        Node::Switch(a, xs) => Ok(Node::Switch(id(to, *a), clauses(alloc, to, xs.as_slice())?)),
        Node::Try(a, h, o) => Ok(Node::Try(id(to, *a), handler(to, *h), option(to, *o))),
        Node::Within(a, b) => Ok(Node::Within(id(to, *a), id(to, *b))),
        Node::FunctionDecl(x, formals, xs) => {
            let formals = copied(alloc, formals.as_slice())?;
            Ok(Node::FunctionDecl(*x, formals, list(alloc, to, xs.as_slice())?))
        }
        Node::Program(xs) => Ok(Node::Program(list(alloc, to, xs.as_slice())?)),
    }
}

fn id(to: &[u64], node: NodeId) -> NodeId
    requires { node.0 < length to.now }
    ensures { result ≡ new_id (number_in to.now) node }
{
    NodeId(to[node.0 as usize])
}

fn option(to: &[u64], node: Option<NodeId>) -> Option<NodeId>
    requires { OptionBelow (length to.now) node }
    ensures { result ≡ new_option (number_in to.now) node }
{
    match node {
        Some(a) => Some(id(to, a)),
        None => None,
    }
}

fn handler(to: &[u64], handler: Option<Handler>) -> Option<Handler>
    requires { HandlerBelow (length to.now) handler }
    ensures { result ≡ option_map (new_handler (number_in to.now)) handler }
{
    match handler {
        Some(h) => Some(Handler {
            name: h.name,
            block: id(to, h.block),
        }),
        None => None,
    }
}

fn init(alloc: Global, to: &[u64], init: &ForInit) -> Result<ForInit, OutOfMemory>
    requires { InitBelow (length to.now) init.now }
    ensures { IfOk result (λ made. made ≡ new_init (number_in to.now) init.now) }
{
    match init {
        ForInit::Nothing => Ok(ForInit::Nothing),
        ForInit::Expr(a) => Ok(ForInit::Expr(id(to, *a))),
        ForInit::Var(xs) => Ok(ForInit::Var(declarators(alloc, to, xs.as_slice())?)),
    }
}

fn copied(alloc: Global, names: &[TextId]) -> Result<Sequence<TextId>, OutOfMemory>
    ensures { IfOk result (λ made. made ≡ names.now) }
{
    let names = Vec::from_slice(alloc, names)?;
    Ok(Sequence::from_vec(names))
}

fn list(alloc: Global, to: &[u64], nodes: &[NodeId]) -> Result<Sequence<NodeId>, OutOfMemory>
    requires { AreBelow (length to.now) nodes.now }
    ensures { IfOk result (λ made. made ≡ map (new_id (number_in to.now)) nodes.now) }
{
    let mut made = Vec::new(alloc);
    for node in nodes {
        made.push(id(to, *node))?;
    }
    Ok(Sequence::from_vec(made))
}

fn items(
    alloc: Global,
    to: &[u64],
    items: &[Option<NodeId>],
) -> Result<Sequence<Option<NodeId>>, OutOfMemory>
    requires { ItemsBelow (length to.now) items.now }
    ensures { IfOk result (λ made. made ≡ map (new_option (number_in to.now)) items.now) }
{
    let mut made = Vec::new(alloc);
    for item in items {
        made.push(option(to, *item))?;
    }
    Ok(Sequence::from_vec(made))
}

fn properties(
    alloc: Global,
    to: &[u64],
    properties: &[Property],
) -> Result<Sequence<Property>, OutOfMemory>
    requires { PropertiesBelow (length to.now) properties.now }
    ensures { IfOk result (λ made. made ≡ map (new_property (number_in to.now)) properties.now) }
{
    let mut made = Vec::new(alloc);
    for property in properties {
        let property = Property {
            key: property.key,
            value: id(to, property.value),
        };
        made.push(property)?;
    }
    Ok(Sequence::from_vec(made))
}

fn declarators(
    alloc: Global,
    to: &[u64],
    declarators: &[Declarator],
) -> Result<Sequence<Declarator>, OutOfMemory>
    requires { DeclaratorsBelow (length to.now) declarators.now }
    ensures { IfOk result (λ made. made ≡ map (new_declarator (number_in to.now)) declarators.now) }
{
    let mut made = Vec::new(alloc);
    for declarator in declarators {
        let declarator = Declarator {
            name: declarator.name,
            value: option(to, declarator.value),
        };
        made.push(declarator)?;
    }
    Ok(Sequence::from_vec(made))
}

fn clauses(alloc: Global, to: &[u64], clauses: &[Clause]) -> Result<Sequence<Clause>, OutOfMemory>
    requires { ClausesBelow (length to.now) clauses.now }
    ensures { IfOk result (λ made. made ≡ map (new_clause (number_in to.now)) clauses.now) }
{
    let mut made = Vec::new(alloc);
    for clause in clauses {
        let clause = clause_of(alloc, to, clause)?;
        made.push(clause)?;
    }
    Ok(Sequence::from_vec(made))
}

fn clause_of(alloc: Global, to: &[u64], clause: &Clause) -> Result<Clause, OutOfMemory>
    requires test { OptionBelow (length to.now) clause.now.test }
    requires body { AreBelow (length to.now) clause.now.body }
    ensures { IfOk result (λ made. made ≡ new_clause (number_in to.now) clause.now) }
{
    Ok(Clause {
        test: option(to, clause.test),
        body: list(alloc, to, clause.body.as_slice())?,
    })
}
