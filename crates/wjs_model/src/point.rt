//! Where a frame is: what it begins with, or after which part of what it runs it goes on.

use wjs_arena::Native;
use wjs_base::ObjId;
use wjs_tree::{AssignOperator, BinaryOperator, NodeId, UpdateOperator};

/// What a member is evaluated for: its value, or the reference itself.
#[derive(Clone, Copy)]
pub enum Purpose {
    Value,
    Target,
}

/// What a primitive is asked for first: a text, or a number (ECMA-262, 3rd edition, section 9.1).
#[derive(Clone, Copy)]
pub enum Hint {
    Text,
    Number,
}

/// On which side of its target `++` or `--` stands: behind it gives the old number, before it the new one (sections 11.3 and
/// 11.4).
#[derive(Clone, Copy)]
pub enum Fix {
    Post,
    Pre,
}

/// What a conversion makes (section 9).
#[derive(Clone, Copy)]
pub enum Conversion {
    /// A primitive, of an object by its method `toString` first.
    TextFirst,
    /// A primitive, of an object by its method `valueOf` first.
    NumberFirst,
    Number,
    Text,
    Integer,
}

/// What a frame begins with.
#[derive(Clone, Copy)]
pub enum Start {
    Expr,
    Target,
    /// The operation of an operator, on the two values that are held.
    Operation(BinaryOperator),
    Stmt,
    /// A loop, at its next iteration.
    Again,
    /// The `var`s of a `for`.
    Variables,
    /// The program of the tree at hand.
    Program,
    /// The body of a function, with the values that are held as its arguments.
    Body(ObjId),
    Convert(Conversion),
    /// The call of what is held.
    Call,
    /// A native function at its entry; whether `new` calls it.
    Native(Native, bool),
    /// `apply` reads the element of this number, from 0.
    ApplyElement(u32),
    /// `glue` reads the slot of this number, from 0.
    GlueElement(u32),
}

/// After which part of an expression a frame goes on. Items, pairs and arguments are numbered from 0.
#[derive(Clone, Copy)]
pub enum ExprPoint {
    ArrayItem(u32),
    PairValue(u32),
    DotBase(Purpose),
    /// The index comes next.
    IndexBase(Purpose, NodeId),
    Index(Purpose),
    IndexName(Purpose),
    CalleeTarget,
    CalleeValue,
    Argument(u32),
    NewCallee,
    NewArgument(u32),
    /// The call on the new object, which is held.
    NewCall,
    UpdateTarget(Fix, UpdateOperator),
    UpdateNumber(Fix, UpdateOperator),
    DeleteTarget,
    DeleteValue,
    TypeofTarget,
    TypeofValue,
    VoidValue,
    NotValue,
    PlusValue,
    PlusPrimitive,
    MinusValue,
    MinusNumber,
    ComplementValue,
    ComplementNumber,
    /// The right operand comes next.
    BinaryLeft(BinaryOperator, NodeId),
    BinaryRight(BinaryOperator),
    /// The conversion of the first operand, with the second held.
    OperandFirst(BinaryOperator),
    /// The conversion of the second operand, with what the first became held.
    OperandSecond(BinaryOperator),
    /// What comes where it is true, and where it is false.
    CondTest(NodeId, NodeId),
    /// The right side comes next.
    AssignTarget(AssignOperator, NodeId),
    AssignValue,
    CompoundValue(BinaryOperator),
    /// The right operand comes next.
    CommaLeft(NodeId),
}

/// After which part of a statement a frame goes on.
#[derive(Clone, Copy)]
pub enum StmtPoint {
    /// The statement of this number comes next.
    BlockStatement(u32),
    /// The expression of a block's statement, which has no frame of its own; the statement of this number comes next.
    BlockValue(u32),
    /// The initialiser of this number, of a `var` statement or of a `for`'s `var`s.
    VariableValue(u32),
    ExprValue,
    /// What comes where it is true, and where it is false.
    IfTest(NodeId, Option<NodeId>),
    /// The test comes next.
    DoBody(NodeId),
    DoTest,
    /// The body comes next.
    WhileTest(NodeId),
    WhileBody,
    /// The first expression of a `for`. Its other parts are asked of the node: they would make each point larger.
    ForFirst,
    /// The `var`s of a `for`.
    ForVariables,
    /// The update and the body.
    ForTest(Option<NodeId>, NodeId),
    /// The update.
    ForBody(Option<NodeId>),
    ForUpdate,
    /// The object whose names a `for`-`in` visits; its body.
    VisitsObject(NodeId),
    /// The target that takes the name of a visit; the body.
    VisitTarget(NodeId),
    VisitBody(NodeId),
    ReturnValue,
    ThrowValue,
    LabelBody,
    SwitchValue,
    /// The case of this number; the `switch`'s value is held.
    CaseValue(u32),
    /// The statement of this number among all clauses' comes next.
    ClauseStatement(u32),
    /// The `finally` block of a `try`.
    TryBlock(Option<NodeId>),
    TryHandler(Option<NodeId>),
    TryFinally,
    /// The block comes next.
    WithinWorld(NodeId),
}

/// After which part of a body or a conversion a frame goes on.
#[derive(Clone, Copy)]
pub enum CallPoint {
    /// The program before it.
    NextProgram,
    /// The element of this number comes next.
    ProgramElement(u32),
    BodyElement(u32),
    /// The expression of an element, which has no frame of its own; the element of this number comes next.
    ProgramValue(u32),
    BodyValue(u32),
    /// The first of an object's two methods that give a primitive.
    FirstMethod(Hint),
    SecondMethod,
    NumberOfPrimitive,
    TextOfPrimitive,
    IntegerOfPrimitive,
}

/// After which part of what it runs a frame goes on.
#[derive(Clone, Copy)]
pub enum Point {
    Expr(ExprPoint),
    Stmt(StmtPoint),
    Call(CallPoint),
    /// The conversion of a native function's receiver, which is number 0, or of its arguments from 1 on; whether `new` calls it.
    Native(Native, bool, u32),
}

const _: () = prove!(size_of::<Point>() == 40);
