//! What a token does within an expression (ECMA-262, 3rd edition, section 11).
ghost use Rattle.std.specs.Prelude.{◌≡◌, Some};
ghost use Rattle.wjs_forms.specs.Table.{unless, after_update, bars_operator, operand, ends, bars_in, comma, behind_top, behind, call, postfix};
ghost use Rattle.wjs_forms.specs.Table.{assigns, target_in, target_closed, target, bare_top, bare, have};
ghost use Rattle.wjs_forms.specs.Table.{on_colon, on_semicolon, on_open_paren, on_close_paren, on_close_bracket, on_open_brace, on_close_brace, on_word};
ghost use Rattle.wjs_forms.specs.declared.forms.Move.TheVariants as moves;
ghost use Rattle.wjs_forms.specs.declared.forms.Control.TheVariants as controls;
ghost use Rattle.wjs_forms.specs.declared.forms.Place.TheVariants as places;

use wjs_forms::{Class, Control, Form, Move, Place};

fn unless_barred(barred: bool, then: Move) -> Move
    ensures { result ≡ unless barred then }
{
    if barred { Move::Refuse } else { then }
}

pub(crate) fn on_colon(class: Class, then: Move) -> Move
    ensures { result ≡ on_colon class then }
{
    match class {
        Class::Colon => then,
        _ => Move::Refuse,
    }
}

fn on_semicolon(class: Class, then: Move) -> Move
    ensures { result ≡ on_semicolon class then }
{
    match class {
        Class::Semicolon => then,
        _ => Move::Refuse,
    }
}

pub(crate) fn on_open_paren(class: Class, then: Move) -> Move
    ensures { result ≡ on_open_paren class then }
{
    match class {
        Class::OpenParen => then,
        _ => Move::Refuse,
    }
}

pub(crate) fn on_close_paren(class: Class, then: Move) -> Move
    ensures { result ≡ on_close_paren class then }
{
    match class {
        Class::CloseParen => then,
        _ => Move::Refuse,
    }
}

fn on_close_bracket(class: Class, then: Move) -> Move
    ensures { result ≡ on_close_bracket class then }
{
    match class {
        Class::CloseBracket => then,
        _ => Move::Refuse,
    }
}

pub(crate) fn on_open_brace(class: Class, then: Move) -> Move
    ensures { result ≡ on_open_brace class then }
{
    match class {
        Class::OpenBrace => then,
        _ => Move::Refuse,
    }
}

fn on_close_brace(class: Class, then: Move) -> Move
    ensures { result ≡ on_close_brace class then }
{
    match class {
        Class::CloseBrace => then,
        _ => Move::Refuse,
    }
}

pub(crate) fn on_word(class: Class, then: Move) -> Move
    ensures { result ≡ on_word class then }
{
    match class {
        Class::Word => then,
        _ => Move::Refuse,
    }
}

/// Whether `++` or `--` stands just before.
fn is_after_update(place: Place) -> bool
    ensures { result ≡ after_update place }
{
    match place {
        Place::Update => true,
        _ => false,
    }
}

/// Whether no operator may stand here: just behind `new`, `++` and `--`.
fn bars_operator(place: Place, top: Option<Form>) -> bool
    ensures { result ≡ bars_operator place top }
{
    match top {
        Some(Form::New) => true,
        _ => is_after_update(place),
    }
}

/// The first token of an operand at the place.
pub(crate) fn operand_start(class: Class, place: Place, top: Option<Form>) -> Move
    ensures { result ≡ operand class place top }
{
    match class {
        Class::Word => Move::Stay(Control::Have(place, true)),
        Class::Literal | Class::Constant => Move::Stay(Control::Have(place, false)),
        Class::OpenParen => Move::Push(Form::Paren(place), Control::Want(Place::Whole)),
        Class::OpenBracket => Move::Push(Form::Array(place), Control::Item),
        Class::OpenBrace => Move::Push(Form::Object(place), Control::KeyOrEnd),
        Class::Function => Move::Push(Form::Function(place), Control::NameOrFormals),
        Class::New => Move::Push(Form::New, Control::Want(place)),
        Class::Update => prefix_operator(place, top, Place::Update),
        Class::Sum | Class::SignBefore | Class::KeyBefore => prefix_operator(
            place,
            top,
            Place::Later,
        ),
        _ => Move::Refuse,
    }
}

fn prefix_operator(place: Place, top: Option<Form>, next: Place) -> Move
    ensures { result ≡ unless (bars_operator place top) (moves.Stay (controls.Want next)) }
{
    unless_barred(bars_operator(place, top), Move::Stay(Control::Want(next)))
}

/// The token that ends what the form on top holds.
pub(crate) fn form_end(top: Option<Form>, class: Class) -> Move
    ensures { result ≡ ends top class }
{
    let Some(form) = top else {
        return Move::Refuse;
    };
    match form {
        Form::Value | Form::Var => Move::Again(Control::Complete),
        Form::Cond => on_colon(class, Move::Pop(Control::Want(Place::First))),
        Form::Paren(place) => on_close_paren(class, Move::Pop(Control::Have(place, false))),
        Form::Index(place) => on_close_bracket(class, Move::Pop(Control::Have(place, true))),
        Form::Arguments(place) => on_close_paren(class, Move::Pop(Control::Have(place, false))),
        Form::Array(place) => on_close_bracket(class, Move::Pop(Control::Have(place, false))),
        Form::Object(place) => on_close_brace(class, Move::Pop(Control::Have(place, false))),
        Form::If => on_close_paren(class, Move::Swap(Form::Then, Control::Body)),
        Form::Header => on_close_paren(class, Move::Pop(Control::Body)),
        Form::Switch => on_close_paren(class, Move::Swap(Form::Clauses, Control::SwitchBrace)),
        Form::DoWhile => on_close_paren(class, Move::Pop(Control::Complete)),
        Form::ForInit | Form::ForVar => {
            on_semicolon(class, Move::Swap(Form::ForTest, Control::Test))
        }
        Form::ForTest => on_semicolon(class, Move::Swap(Form::Header, Control::Update)),
        Form::Within => on_open_brace(class, Move::Swap(Form::Block, Control::List)),
        Form::CaseHead => on_colon(class, Move::Pop(Control::List)),
        _ => Move::Refuse,
    }
}

/// Whether `in` is no operator: where the first part of a header is read.
fn bars_in(top: Option<Form>) -> bool
    ensures { result ≡ bars_in top }
{
    match top {
        Some(Form::ForInit) | Some(Form::ForVar) => true,
        _ => false,
    }
}

fn comma_after_operand(top: Option<Form>) -> Move
    ensures { result ≡ comma top }
{
    match top {
        Some(Form::Cond) => Move::Refuse,
        Some(Form::Array(_)) => Move::Stay(Control::Item),
        Some(Form::Object(_)) => Move::Stay(Control::KeyOrEnd),
        Some(Form::Var) | Some(Form::ForVar) => Move::Stay(Control::Name),
        _ => Move::Stay(Control::Want(Place::First)),
    }
}

/// Behind an operand that gets no suffix and isn't behind `new`.
fn after_operand_without_new(class: Class, top: Option<Form>) -> Move
    ensures { result ≡ behind_top class top }
{
    match class {
        Class::In => unless_barred(bars_in(top), Move::Stay(Control::Want(Place::Later))),
        Class::Operator | Class::Instanceof | Class::Sum => Move::Stay(Control::Want(Place::Later)),
        Class::Question => Move::Push(Form::Cond, Control::Want(Place::First)),
        Class::Assign | Class::AssignWith => Move::Refuse,
        Class::Comma => comma_after_operand(top),
        _ => form_end(top, class),
    }
}

/// Behind an operand that gets no suffix.
pub(crate) fn after_operand(top: Option<Form>, class: Class) -> Move
    ensures { result ≡ behind top class }
{
    match top {
        Some(Form::New) => Move::Again(Control::Behind),
        _ => after_operand_without_new(class, top),
    }
}

/// `(` behind a primary expression with suffixes.
fn arguments_start(place: Place, top: Option<Form>) -> Move
    ensures { result ≡ call place top }
{
    match top {
        Some(Form::New) => Move::Swap(Form::Arguments(place), Control::ArgumentOrEnd),
        _ => Move::Push(Form::Arguments(place), Control::ArgumentOrEnd),
    }
}

/// `++` or `--` behind a target.
fn postfix_update(joined: bool, place: Place, top: Option<Form>) -> Move
    ensures { result ≡ postfix joined place top }
{
    if joined {
        unless_barred(is_after_update(place), Move::Stay(Control::Behind))
    } else {
        after_operand(top, Class::Update)
    }
}

/// An assignment sign behind a target.
fn assignment_sign(place: Place) -> Move
    ensures { result ≡ assigns place }
{
    match place {
        Place::Whole | Place::First => Move::Stay(Control::Want(Place::First)),
        _ => Move::Refuse,
    }
}

/// `in` behind a target.
fn in_after_target(place: Place, top: Option<Form>) -> Move
    ensures { result ≡ target_in place top }
{
    match place {
        Place::Whole => match top {
            Some(Form::ForInit) => Move::Swap(Form::Header, Control::Want(Place::Whole)),
            _ => after_operand(top, Class::In),
        },
        _ => after_operand(top, Class::In),
    }
}

/// `)` behind a target that is all of what the form holds: a parenthesis around a target is one.
fn close_paren_of_form(form: Form) -> Move
    ensures { result ≡ target_closed places.Whole (Some form) }
{
    match form {
        Form::Paren(outer) => Move::Pop(Control::Have(outer, true)),
        _ => after_operand(Some(form), Class::CloseParen),
    }
}

fn close_paren_of_whole(top: Option<Form>) -> Move
    ensures { result ≡ target_closed places.Whole top }
{
    match top {
        Some(form) => close_paren_of_form(form),
        None => Move::Refuse,
    }
}

/// `)` behind a target.
fn close_paren_after_target(place: Place, top: Option<Form>) -> Move
    ensures { result ≡ target_closed place top }
{
    match place {
        Place::Whole => close_paren_of_whole(top),
        _ => after_operand(top, Class::CloseParen),
    }
}

/// Behind a target.
fn after_target(class: Class, joined: bool, place: Place, top: Option<Form>) -> Move
    ensures { result ≡ target class joined place top }
{
    match class {
        Class::Update => postfix_update(joined, place, top),
        Class::Assign | Class::AssignWith => assignment_sign(place),
        Class::In => in_after_target(place, top),
        Class::CloseParen => close_paren_after_target(place, top),
        _ => after_operand(top, class),
    }
}

/// Behind a primary expression with suffixes, where the token is none and no `new` waits.
fn after_chain_end_without_new(
    is_target: bool,
    class: Class,
    joined: bool,
    place: Place,
    top: Option<Form>,
) -> Move
    ensures { result ≡ bare_top is_target class joined place top }
{
    if is_target {
        after_target(class, joined, place, top)
    } else {
        unless_barred(is_after_update(place), after_operand(top, class))
    }
}

/// Behind a primary expression with suffixes, where the token is none.
fn after_chain_end(
    top: Option<Form>,
    class: Class,
    joined: bool,
    place: Place,
    is_target: bool,
) -> Move
    ensures { result ≡ bare top class joined place is_target }
{
    match top {
        Some(Form::New) => unless_barred(is_after_update(place), Move::Again(Control::Behind)),
        _ => after_chain_end_without_new(is_target, class, joined, place, top),
    }
}

/// Behind a primary expression with suffixes.
pub(crate) fn after_chain(
    class: Class,
    joined: bool,
    place: Place,
    is_target: bool,
    top: Option<Form>,
) -> Move
    ensures { result ≡ have class joined place is_target top }
{
    match class {
        Class::Dot => Move::Stay(Control::Dot(place)),
        Class::OpenBracket => Move::Push(Form::Index(place), Control::Want(Place::Whole)),
        Class::OpenParen => arguments_start(place, top),
        _ => after_chain_end(top, class, joined, place, is_target),
    }
}
