//! What a token does, whatever is to come next.
ghost use Rattle.std.specs.Prelude.{◌≡◌};
ghost use Rattle.wjs_forms.specs.Moves.{move as move_of};

use crate::class::is_name;
use crate::expressions::{
    after_chain, after_operand, on_close_paren, on_colon, on_open_brace, on_open_paren, on_word,
    operand_start,
};
use crate::headers::{
    after_for_variable_name, after_formal, after_variable_name, argument_or_end,
    array_element_or_end, dot_access_name, for_init, for_test, for_update, formal_or_end,
    function_name_or_formals, property_or_end,
};
use crate::statements::{
    after_catch_block, after_first_name, after_jump, after_return, after_statement, after_throw,
    after_try_block, first_clause_or_end, statement_end, statement_or_list_end, statement_start,
};
use wjs_forms::{Class, Control, Form, Move, Place};

/// What a token of the class does, with the form on top; `joined` says that no line ends before it.
pub(crate) fn move_of(class: Class, joined: bool, control: Control, top: Option<Form>) -> Move
    ensures { result ≡ move_of class joined control top }
{
    match control {
        Control::Want(place) => operand_start(class, place, top),
        Control::Have(place, is_target) => after_chain(class, joined, place, is_target, top),
        Control::Behind => after_operand(top, class),
        Control::Dot(place) => dot_access_name(is_name(class), place),
        Control::ArgumentOrEnd => argument_or_end(class, top),
        Control::Item => array_element_or_end(class, top),
        Control::KeyOrEnd => property_or_end(class, top),
        Control::KeyColon => on_colon(class, Move::Stay(Control::Want(Place::First))),
        Control::NameOrFormals => function_name_or_formals(class),
        Control::DeclaredName => on_word(class, Move::Stay(Control::Formals)),
        Control::Formals => on_open_paren(class, Move::Stay(Control::FormalOrEnd)),
        Control::FormalOrEnd => formal_or_end(class),
        Control::FormalBehind => after_formal(class),
        Control::Formal => on_word(class, Move::Stay(Control::FormalBehind)),
        Control::Brace => on_open_brace(class, Move::Stay(Control::List)),
        Control::List => statement_or_list_end(class, top),
        Control::Body => statement_start(class),
        Control::Done => after_statement(top, class),
        Control::Complete => statement_end(class, joined, top),
        Control::NameOrLabel => after_first_name(class, joined, top),
        Control::Open => on_open_paren(class, Move::Stay(Control::Want(Place::Whole))),
        Control::Name => on_word(class, Move::Stay(Control::Named)),
        Control::Named => after_variable_name(class, top),
        Control::ForOpen => on_open_paren(class, Move::Stay(Control::Init)),
        Control::Init => for_init(class),
        Control::ForName => on_word(class, Move::Stay(Control::ForNamed)),
        Control::ForNamed => after_for_variable_name(class, top),
        Control::Test => for_test(class, top),
        Control::Update => for_update(class, top),
        Control::LabelOrEnd => after_jump(class, joined, top),
        Control::ValueOrEnd => after_return(class, joined, top),
        Control::JoinedValue => after_throw(joined, class),
        Control::CatchOrFinally => after_try_block(class),
        Control::CatchOpen => on_open_paren(class, Move::Stay(Control::CatchName)),
        Control::CatchName => on_word(class, Move::Stay(Control::CatchClose)),
        Control::CatchClose => {
            on_close_paren(class, Move::Push(Form::CatchBlock, Control::Brace))
        }
        Control::FinallyOrDone => after_catch_block(class, top),
        Control::SwitchBrace => on_open_brace(class, Move::Stay(Control::ClauseOrEnd)),
        Control::ClauseOrEnd => first_clause_or_end(class),
        Control::DefaultColon => on_colon(class, Move::Stay(Control::List)),
        Control::Accepted => Move::Refuse,
    }
}
