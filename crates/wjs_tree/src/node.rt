//! Forms of a script and their parts, children by number (ECMA-262, 3rd edition, sections 11 to 14).
ghost use Rattle.std.specs.Prelude.{◌≡◌};
ghost use Rattle.wjs_tree.specs.Forms.{loop_body};

use crate::keys::Key;
use crate::operators::{AssignOperator, BinaryOperator, PrefixOperator, UpdateOperator};
use crate::sequence::Sequence;
use wjs_base::{NodeId, TextId, Whole};

/// How a statement ends: by `;`, or by one that was inserted (section 7.9).
#[derive(Clone, Copy)]
pub enum End {
    Written,
    Inserted,
}

/// A name behind a dot or before a colon: an identifier, or a reserved word (ECMA-262, 5th edition,
/// section 11.2.1).
#[derive(Clone, Copy)]
pub enum Spelt {
    Word(TextId),
    Key(Key),
}

/// The name of a property in an object literal (section 11.1.5).
#[derive(Clone, Copy)]
pub enum PropertyKey {
    Spelt(Spelt),
    Text(TextId),
    Number(Whole),
}

/// A property of an object literal.
#[derive(Clone, Copy)]
pub struct Property {
    pub key: PropertyKey,
    pub value: NodeId,
}

/// A variable and its initialiser (section 12.2).
#[derive(Clone, Copy)]
pub struct Declarator {
    pub name: TextId,
    pub value: Option<NodeId>,
}

/// What stands first in the header of a `for` (section 12.6.3).
#[derive(Drop)]
pub enum ForInit {
    Nothing,
    Expr(NodeId),
    Var(Sequence<Declarator>),
}

/// A clause of a `switch`, without an expression for `default` (section 12.11).
#[derive(Drop)]
pub struct Clause {
    pub test: Option<NodeId>,
    pub body: Sequence<NodeId>,
}

/// The `catch` of a `try`: the name and the block (section 12.14).
#[derive(Clone, Copy)]
pub struct Handler {
    pub name: TextId,
    pub block: NodeId,
}

/// A form, with its parts in the order in which they are spelled.
#[derive(Drop)]
pub enum Node {
    Name(TextId),
    Number(Whole),
    Text(TextId),
    This,
    ThisWorld,
    Null,
    Bool(bool),
    Paren(NodeId),
    /// The items, holes among them, and whether one more comma stands behind a last expression.
    ArrayLit(Sequence<Option<NodeId>>, bool),
    /// The properties, and whether one more comma stands behind the last.
    ObjectLit(Sequence<Property>, bool),
    /// The name, the formals, and the elements of the body.
    Function(Option<TextId>, Sequence<TextId>, Sequence<NodeId>),
    Dot(NodeId, Spelt),
    At(NodeId, NodeId),
    Call(NodeId, Sequence<NodeId>),
    NewWith(NodeId, Sequence<NodeId>),
    NewBare(NodeId),
    Postfix(NodeId, UpdateOperator),
    Prefix(PrefixOperator, NodeId),
    Binary(NodeId, BinaryOperator, NodeId),
    Cond(NodeId, NodeId, NodeId),
    Assign(NodeId, AssignOperator, NodeId),
    Comma(NodeId, NodeId),
    Block(Sequence<NodeId>),
    Var(Sequence<Declarator>, End),
    Empty,
    Expr(NodeId, End),
    If(NodeId, NodeId, Option<NodeId>),
    DoWhile(NodeId, NodeId, End),
    While(NodeId, NodeId),
    For(ForInit, Option<NodeId>, Option<NodeId>, NodeId),
    ForIn(NodeId, NodeId, NodeId),
    ForVarIn(TextId, NodeId, NodeId),
    Continue(Option<TextId>, End),
    Break(Option<TextId>, End),
    Return(Option<NodeId>, End),
    Throw(NodeId, End),
    Label(TextId, NodeId),
    Switch(NodeId, Sequence<Clause>),
    Try(NodeId, Option<Handler>, Option<NodeId>),
    Within(NodeId, NodeId),
    /// The name, the formals, and the elements of the body.
    FunctionDecl(TextId, Sequence<TextId>, Sequence<NodeId>),
    /// The elements of a script.
    Program(Sequence<NodeId>),
}

impl Node {
    /// The body of a loop, and none of any other form (section 12.6).
    pub fn loop_body(&self) -> Option<NodeId>
        ensures { result ≡ loop_body self.now }
    {
        match self {
            Node::DoWhile(body, _, _) | Node::While(_, body) | Node::For(_, _, _, body) => Some(
                *body,
            ),
            Node::ForIn(_, _, body) | Node::ForVarIn(_, _, body) => Some(*body),
            _ => None,
        }
    }
}
