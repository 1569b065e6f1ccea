//! Open forms, what may come next within them, and what a token does to them.

/// What stands before an operand in its expression.
#[derive(Clone, Copy, PartialEq, Eq)]
pub enum Place {
    /// Nothing.
    Whole,
    /// Nothing in its assignment expression.
    First,
    /// An operator.
    Later,
    /// `++` or `--`, just before it.
    Update,
}

/// A form that is open. The place is that of the operand which the form, or what it belongs to, will be.
#[derive(Clone, Copy, PartialEq, Eq)]
pub enum Form {
    /// `new`, whose arguments may come.
    New,
    Paren(Place),
    /// The brackets behind an operand.
    Index(Place),
    Arguments(Place),
    Array(Place),
    Object(Place),
    /// The body of a function expression, or its head.
    Function(Place),
    /// Between `?` and `:`.
    Cond,
    /// An expression up to the end of its statement.
    Value,
    /// Declared variables.
    Var,
    /// The same first in the header of a `for`.
    ForVar,
    /// An expression there.
    ForInit,
    ForTest,
    /// What stands last in the header of a loop.
    Header,
    /// The condition of an `if`.
    If,
    Switch,
    /// The condition behind the statement of a `do`.
    DoWhile,
    /// The world of an `in`.
    Within,
    /// The expression of a `case`.
    CaseHead,
    /// The statement of an `if`, whose `else` may come.
    Then,
    /// The statement of a `do`.
    Do,
    Block,
    /// The block of a `try`.
    TryBlock,
    /// The block of a `catch`.
    CatchBlock,
    /// The clauses of a `switch`.
    Clauses,
    /// The body of a declared function, or its head.
    Declaration,
}

/// What is to come next within the innermost open form.
#[derive(Clone, Copy, PartialEq, Eq)]
pub enum Control {
    /// An operand.
    Want(Place),
    /// What goes behind a primary expression with suffixes; whether it may be assigned to.
    Have(Place, bool),
    /// What goes behind an operand that gets no suffix.
    Behind,
    /// The name behind a dot.
    Dot(Place),
    ArgumentOrEnd,
    /// An item of an array literal, a comma or its end.
    Item,
    KeyOrEnd,
    KeyColon,
    NameOrFormals,
    DeclaredName,
    Formals,
    FormalOrEnd,
    FormalBehind,
    Formal,
    /// The brace that opens a block or body.
    Brace,
    /// A statement, an element or the end of their list.
    List,
    /// A statement.
    Body,
    /// What goes behind a statement.
    Done,
    /// `;`, or where it may be inserted.
    Complete,
    /// What goes behind a name that begins a statement.
    NameOrLabel,
    /// The parenthesis that opens a condition.
    Open,
    /// The name of a variable.
    Name,
    /// What goes behind it.
    Named,
    ForOpen,
    /// What stands first in the header of a `for`.
    Init,
    ForName,
    ForNamed,
    Test,
    Update,
    LabelOrEnd,
    ValueOrEnd,
    /// An expression on the same line.
    JoinedValue,
    CatchOrFinally,
    CatchOpen,
    CatchName,
    CatchClose,
    FinallyOrDone,
    SwitchBrace,
    ClauseOrEnd,
    DefaultColon,
    /// Nothing: the program has ended.
    Accepted,
}

/// What a token does. Each but `Refuse` and `Again` takes it.
#[derive(Clone, Copy, PartialEq, Eq)]
pub enum Move {
    /// No program goes on with this token.
    Refuse,
    Stay(Control),
    /// A form opens.
    Push(Form, Control),
    /// Two forms open, the second in the first.
    PushTwo(Form, Form, Control),
    /// The innermost form goes on as another.
    Swap(Form, Control),
    /// The innermost form ends.
    Pop(Control),
    /// The innermost form ends before the token, which is looked at again.
    Again(Control),
}
