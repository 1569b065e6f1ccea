//! What a token does at statements and their ends (ECMA-262, 3rd edition, sections 7.9, 12 and 14).
ghost use Rattle.std.specs.Prelude.{◌≡◌};
ghost use Rattle.wjs_forms.specs.Moves.{opened, value, statement, at_end, closes, declares, in_clauses, listed, else_or_done, on_while, done};
ghost use Rattle.wjs_forms.specs.Moves.{inserted, complete, label, label_or_end, joined_value, joined_value_or_end, value_or_end, catch_or_finally};
ghost use Rattle.wjs_forms.specs.Moves.{finally_or_done, clause_or_end, name_or_label};

use crate::expressions::{after_chain, operand_start};
use wjs_forms::{Class, Control, Form, Move, Place};

/// The token that begins what a form holds also opens the form.
fn opens_form(form: Form, then: Move) -> Move
    ensures { result ≡ opened form then }
{
    match then {
        Move::Stay(control) => Move::Push(form, control),
        Move::Push(inner, control) => Move::PushTwo(form, inner, control),
        _ => Move::Refuse,
    }
}

/// The first token of an expression that the form holds.
pub(crate) fn expression_start(form: Form, class: Class) -> Move
    ensures { result ≡ value form class }
{
    opens_form(form, operand_start(class, Place::Whole, Some(form)))
}

/// The first token of a statement.
pub(crate) fn statement_start(class: Class) -> Move
    ensures { result ≡ statement class }
{
    match class {
        Class::OpenBrace => Move::Push(Form::Block, Control::List),
        Class::Semicolon => Move::Stay(Control::Done),
        Class::Word => Move::Push(Form::Value, Control::NameOrLabel),
        Class::Var => Move::Push(Form::Var, Control::Name),
        Class::If => Move::Push(Form::If, Control::Open),
        Class::Do => Move::Push(Form::Do, Control::Body),
        Class::While => Move::Push(Form::Header, Control::Open),
        Class::For => Move::Stay(Control::ForOpen),
        Class::Continue | Class::Break => Move::Stay(Control::LabelOrEnd),
        Class::Return => Move::Stay(Control::ValueOrEnd),
        Class::Throw => Move::Stay(Control::JoinedValue),
        Class::Switch => Move::Push(Form::Switch, Control::Open),
        Class::Try => Move::Push(Form::TryBlock, Control::Brace),
        Class::In => Move::Push(Form::Within, Control::Want(Place::Whole)),
        Class::Function => Move::Refuse,
        _ => expression_start(Form::Value, class),
    }
}

/// The end of the tokens, in a list.
fn end_in_list(top: Option<Form>) -> Move
    ensures { result ≡ at_end top }
{
    match top {
        None => Move::Stay(Control::Accepted),
        Some(_) => Move::Refuse,
    }
}

/// `}` in a list.
fn close_brace_in_list(top: Option<Form>) -> Move
    ensures { result ≡ closes top }
{
    match top {
        Some(Form::Block) | Some(Form::Clauses) => Move::Pop(Control::Done),
        Some(Form::Declaration) => Move::Pop(Control::List),
        Some(Form::TryBlock) => Move::Pop(Control::CatchOrFinally),
        Some(Form::CatchBlock) => Move::Pop(Control::FinallyOrDone),
        Some(Form::Function(place)) => Move::Pop(Control::Have(place, false)),
        _ => Move::Refuse,
    }
}

/// `function` in a list.
fn function_in_list(top: Option<Form>) -> Move
    ensures { result ≡ declares top }
{
    match top {
        None | Some(Form::Declaration) | Some(Form::Function(_)) => {
            Move::Push(Form::Declaration, Control::DeclaredName)
        }
        _ => Move::Refuse,
    }
}

/// The move, among the clauses of a `switch`.
fn among_clauses(top: Option<Form>, then: Move) -> Move
    ensures { result ≡ in_clauses top then }
{
    match top {
        Some(Form::Clauses) => then,
        _ => Move::Refuse,
    }
}

/// In a list of statements or elements.
pub(crate) fn statement_or_list_end(class: Class, top: Option<Form>) -> Move
    ensures { result ≡ listed class top }
{
    match class {
        Class::End => end_in_list(top),
        Class::CloseBrace => close_brace_in_list(top),
        Class::Case => among_clauses(top, Move::Push(Form::CaseHead, Control::Want(Place::Whole))),
        Class::Default => among_clauses(top, Move::Stay(Control::DefaultColon)),
        Class::Function => function_in_list(top),
        _ => statement_start(class),
    }
}

/// Behind the statement of an `if`.
fn after_then_statement(class: Class) -> Move
    ensures { result ≡ else_or_done class }
{
    match class {
        Class::Else => Move::Pop(Control::Body),
        _ => Move::Again(Control::Done),
    }
}

/// Behind the statement of a `do`.
fn after_do_statement(class: Class) -> Move
    ensures { result ≡ on_while class }
{
    match class {
        Class::While => Move::Swap(Form::DoWhile, Control::Open),
        _ => Move::Refuse,
    }
}

/// Behind a statement.
pub(crate) fn after_statement(top: Option<Form>, class: Class) -> Move
    ensures { result ≡ done top class }
{
    match top {
        Some(Form::Then) => after_then_statement(class),
        Some(Form::Do) => after_do_statement(class),
        _ => statement_or_list_end(class, top),
    }
}

/// The end of a statement, where a token that continues it was taken before.
fn inserted_end(joined: bool, top: Option<Form>, class: Class) -> Move
    ensures { result ≡ inserted joined top class }
{
    if joined {
        Move::Refuse
    } else {
        after_statement(top, class)
    }
}

/// The end of a statement (section 7.9).
pub(crate) fn statement_end(class: Class, joined: bool, top: Option<Form>) -> Move
    ensures { result ≡ complete class joined top }
{
    match class {
        Class::Semicolon => Move::Stay(Control::Done),
        Class::CloseBrace | Class::End => after_statement(top, class),
        _ => inserted_end(joined, top, class),
    }
}

/// Behind a name that begins a statement.
pub(crate) fn after_first_name(class: Class, joined: bool, top: Option<Form>) -> Move
    ensures { result ≡ name_or_label class joined top }
{
    match class {
        Class::Colon => Move::Pop(Control::Body),
        _ => after_chain(class, joined, Place::Whole, true, top),
    }
}

/// A name behind `break` or `continue`.
fn jump_label(joined: bool, top: Option<Form>) -> Move
    ensures { result ≡ label joined top }
{
    if joined {
        Move::Stay(Control::Complete)
    } else {
        after_statement(top, Class::Word)
    }
}

/// Behind `break` or `continue`.
pub(crate) fn after_jump(class: Class, joined: bool, top: Option<Form>) -> Move
    ensures { result ≡ label_or_end class joined top }
{
    match class {
        Class::Word => jump_label(joined, top),
        _ => statement_end(class, joined, top),
    }
}

/// Behind `throw`.
pub(crate) fn after_throw(joined: bool, class: Class) -> Move
    ensures { result ≡ joined_value joined class }
{
    if joined {
        expression_start(Form::Value, class)
    } else {
        Move::Refuse
    }
}

fn return_value_or_inserted_end(joined: bool, top: Option<Form>, class: Class) -> Move
    ensures { result ≡ joined_value_or_end joined top class }
{
    if joined {
        expression_start(Form::Value, class)
    } else {
        after_statement(top, class)
    }
}

/// Behind `return`.
pub(crate) fn after_return(class: Class, joined: bool, top: Option<Form>) -> Move
    ensures { result ≡ value_or_end class joined top }
{
    match class {
        Class::Semicolon => Move::Stay(Control::Done),
        Class::CloseBrace | Class::End => after_statement(top, class),
        _ => return_value_or_inserted_end(joined, top, class),
    }
}

/// Behind the block of a `try`.
pub(crate) fn after_try_block(class: Class) -> Move
    ensures { result ≡ catch_or_finally class }
{
    match class {
        Class::Catch => Move::Stay(Control::CatchOpen),
        Class::Finally => Move::Push(Form::Block, Control::Brace),
        _ => Move::Refuse,
    }
}

/// Behind the block of a `catch`.
pub(crate) fn after_catch_block(class: Class, top: Option<Form>) -> Move
    ensures { result ≡ finally_or_done class top }
{
    match class {
        Class::Finally => Move::Push(Form::Block, Control::Brace),
        _ => after_statement(top, class),
    }
}

/// Behind the brace that opens the clauses of a `switch`.
pub(crate) fn first_clause_or_end(class: Class) -> Move
    ensures { result ≡ clause_or_end class }
{
    match class {
        Class::CloseBrace => Move::Pop(Control::Done),
        Class::Case => Move::Push(Form::CaseHead, Control::Want(Place::Whole)),
        Class::Default => Move::Stay(Control::DefaultColon),
        _ => Move::Refuse,
    }
}
