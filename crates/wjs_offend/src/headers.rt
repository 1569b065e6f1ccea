//! What a token does in literals, arguments, formals, variables and headers (ECMA-262, 3rd edition, sections 11.1, 11.2, 12.2,
//! 12.6 and 13).
ghost use Rattle.std.specs.Prelude.{◌≡◌};
ghost use Rattle.wjs_forms.specs.Moves.{ends_operand, argument_or_end, item, named_key, key_or_end, dotted, name_or_formals, formal_or_end};
ghost use Rattle.wjs_forms.specs.Moves.{formal_behind, named, init, for_named, test, update};

use crate::class::is_name;
use crate::expressions::{form_end, operand_start};
use crate::statements::expression_start;
use wjs_forms::{Class, Control, Form, Move, Place};

/// The sign that ends the literal or the arguments on top.
fn literal_or_arguments_end(top: Option<Form>) -> Move
    ensures { result ≡ ends_operand top }
{
    match top {
        Some(Form::Arguments(place)) => Move::Pop(Control::Have(place, false)),
        Some(Form::Array(place)) => Move::Pop(Control::Have(place, false)),
        Some(Form::Object(place)) => Move::Pop(Control::Have(place, false)),
        _ => Move::Refuse,
    }
}

pub(crate) fn argument_or_end(class: Class, top: Option<Form>) -> Move
    ensures { result ≡ argument_or_end class top }
{
    match class {
        Class::CloseParen => literal_or_arguments_end(top),
        _ => operand_start(class, Place::First, top),
    }
}

pub(crate) fn array_element_or_end(class: Class, top: Option<Form>) -> Move
    ensures { result ≡ item class top }
{
    match class {
        Class::CloseBracket => literal_or_arguments_end(top),
        Class::Comma => Move::Stay(Control::Item),
        _ => operand_start(class, Place::First, top),
    }
}

fn property_name(is_name: bool) -> Move
    ensures { result ≡ named_key is_name }
{
    if is_name {
        Move::Stay(Control::KeyColon)
    } else {
        Move::Refuse
    }
}

pub(crate) fn property_or_end(class: Class, top: Option<Form>) -> Move
    ensures { result ≡ key_or_end class top }
{
    match class {
        Class::CloseBrace => literal_or_arguments_end(top),
        Class::Literal => Move::Stay(Control::KeyColon),
        _ => property_name(is_name(class)),
    }
}

/// The name behind a dot.
pub(crate) fn dot_access_name(is_name: bool, place: Place) -> Move
    ensures { result ≡ dotted is_name place }
{
    if is_name {
        Move::Stay(Control::Have(place, true))
    } else {
        Move::Refuse
    }
}

pub(crate) fn function_name_or_formals(class: Class) -> Move
    ensures { result ≡ name_or_formals class }
{
    match class {
        Class::Word => Move::Stay(Control::Formals),
        Class::OpenParen => Move::Stay(Control::FormalOrEnd),
        _ => Move::Refuse,
    }
}

pub(crate) fn formal_or_end(class: Class) -> Move
    ensures { result ≡ formal_or_end class }
{
    match class {
        Class::Word => Move::Stay(Control::FormalBehind),
        Class::CloseParen => Move::Stay(Control::Brace),
        _ => Move::Refuse,
    }
}

pub(crate) fn after_formal(class: Class) -> Move
    ensures { result ≡ formal_behind class }
{
    match class {
        Class::Comma => Move::Stay(Control::Formal),
        Class::CloseParen => Move::Stay(Control::Brace),
        _ => Move::Refuse,
    }
}

/// Behind the name of a variable.
pub(crate) fn after_variable_name(class: Class, top: Option<Form>) -> Move
    ensures { result ≡ named class top }
{
    match class {
        Class::Assign => Move::Stay(Control::Want(Place::First)),
        Class::Comma => Move::Stay(Control::Name),
        _ => form_end(top, class),
    }
}

/// First in the header of a `for`.
pub(crate) fn for_init(class: Class) -> Move
    ensures { result ≡ init class }
{
    match class {
        Class::Semicolon => Move::Push(Form::ForTest, Control::Test),
        Class::Var => Move::Push(Form::ForVar, Control::ForName),
        _ => expression_start(Form::ForInit, class),
    }
}

/// Behind the first name that a header declares.
pub(crate) fn after_for_variable_name(class: Class, top: Option<Form>) -> Move
    ensures { result ≡ for_named class top }
{
    match class {
        Class::In => Move::Swap(Form::Header, Control::Want(Place::Whole)),
        _ => after_variable_name(class, top),
    }
}

pub(crate) fn for_test(class: Class, top: Option<Form>) -> Move
    ensures { result ≡ test class top }
{
    match class {
        Class::Semicolon => Move::Swap(Form::Header, Control::Update),
        _ => operand_start(class, Place::Whole, top),
    }
}

pub(crate) fn for_update(class: Class, top: Option<Form>) -> Move
    ensures { result ≡ update class top }
{
    match class {
        Class::CloseParen => Move::Pop(Control::Body),
        _ => operand_start(class, Place::Whole, top),
    }
}
