//! Texts that are joined (ECMA-262, 3rd edition, section 11.6.1), found with nothing changed: of four primitives at most, and where they
//! are not too long, so that nothing is thrown.
ghost use Rattle.std.specs.Prelude.{◌≡◌, ◌≤◌, ◌++◌, ◌||◌, true, length, None, IfSome};
ghost use Rattle.wjs_base.specs.Text.{Table, Grows, longest};
ghost use Rattle.wjs_by_content.specs.Conversions as conversions;
ghost use Rattle.wjs_by_content.specs.Tables.{value_in};
ghost use Rattle.wjs_by_content.specs.Values.{String};
ghost use Rattle.wjs_meaning.specs.Operators as line;
ghost use Rattle.wjs_model.specs.Soundness.{Base, HasValue};
ghost use Rattle.wjs_quick.specs.Coming.{YieldsWith};
ghost use Rattle.wjs_effects.specs.Making.{spelled, spelled_if, joined, made_in, HasIf, HasValues, IsShort, HasPieces, HasMade};

use crate::effect::{Made, Pieces};
use wjs_base::Value;
use wjs_model::Config;
use wjs_quick::operated;
use wjs_step_common::{are_primitives, is_object, is_text, most_units};
use wjs_store::WorldStore;
use wjs_texts::LONGEST_TEXT;
use wjs_tree::BinaryOperator;

/// The sum of a value and another behind it.
#[inline(always)]
pub(crate) fn added<S: WorldStore>(config: &Config<S>, left: Made, right: Value) -> Option<Made>
    requires base { Base S.meaning config.now }
    requires left { HasMade config.now left }
    requires right { HasValue config.now right }
    ensures ends { IfSome result (λ m. YieldsWith (λ t env. line.operate BinaryOperator.Add (made_in t left) (value_in t right) env)
        (λ t. made_in t m) config.now) }
    ensures found { IfSome result (λ m. HasMade config.now m) }
{
    match left {
        Made::There(value) => of_values(config, BinaryOperator::Add, value, right),
        Made::Joined(pieces) => behind(config, pieces, right),
    }
}

/// What an operator with `=` makes of the old value and the right one.
#[inline(always)]
pub(crate) fn compound<S: WorldStore>(
    config: &Config<S>,
    operator: BinaryOperator,
    old: Value,
    right: Made,
) -> Option<Made>
    requires base { Base S.meaning config.now }
    requires old { HasValue config.now old }
    requires right { HasMade config.now right }
    ensures ends { IfSome result (λ m. YieldsWith (λ t env. line.operate operator (value_in t old) (made_in t right) env)
        (λ t. made_in t m) config.now) }
    ensures found { IfSome result (λ m. HasMade config.now m) }
{
    match right {
        Made::There(value) => of_values(config, operator, old, value),
        Made::Joined(pieces) => after_value(config, operator, old, pieces),
    }
}

/// Of two values that are there.
#[inline(always)]
pub(crate) fn of_values<S: WorldStore>(
    config: &Config<S>,
    operator: BinaryOperator,
    left: Value,
    right: Value,
) -> Option<Made>
    requires base { Base S.meaning config.now }
    requires left { HasValue config.now left }
    requires right { HasValue config.now right }
    ensures ends { IfSome result (λ m. YieldsWith (λ t env. line.operate operator (value_in t left) (value_in t right) env)
        (λ t. made_in t m) config.now) }
    ensures found { IfSome result (λ m. HasMade config.now m) }
{
    match operated(config, operator, left, right) {
        Some(value) => Some(Made::There(value)),
        None => joinable(config, operator, left, right),
    }
}

/// Of two values that are not had at once as one: `+` may join them.
fn joinable<S: WorldStore>(
    config: &Config<S>,
    operator: BinaryOperator,
    left: Value,
    right: Value,
) -> Option<Made>
    requires base { Base S.meaning config.now }
    requires left { HasValue config.now left }
    requires right { HasValue config.now right }
    ensures ends { IfSome result (λ m. YieldsWith (λ t env. line.operate operator (value_in t left) (value_in t right) env)
        (λ t. made_in t m) config.now) }
    ensures found { IfSome result (λ m. HasMade config.now m) }
{
    match operator {
        BinaryOperator::Add => of_texts(config, left, right),
        _ => None,
    }
}

/// The texts of two primitives of which one is a text; None of others.
fn of_texts<S: WorldStore>(config: &Config<S>, left: Value, right: Value) -> Option<Made>
    requires base { Base S.meaning config.now }
    requires left { HasValue config.now left }
    requires right { HasValue config.now right }
    ensures ends { IfSome result (λ m. YieldsWith (λ t env. line.operate BinaryOperator.Add (value_in t left) (value_in t right) env)
        (λ t. made_in t m) config.now) }
    ensures found { IfSome result (λ m. HasMade config.now m) }
{
    if !are_primitives(left, right) {
        return None;
    }
    if !has_text(left, right) {
        return None;
    }
    let pieces = Pieces {
        first: left,
        second: right,
        third: None,
        fourth: None,
    };
    if !fits(config, pieces) {
        return None;
    }
    Some(Made::Joined(pieces))
}

/// Whether one of them is a text.
#[inline(always)]
fn has_text(left: Value, right: Value) -> bool
    ensures { (t : Table) → (conversions.is_text (value_in t left) || conversions.is_text (value_in t right)) ≡ result }
{
    is_text(left) || is_text(right)
}

/// Texts that are joined, and a primitive behind them.
fn behind<S: WorldStore>(config: &Config<S>, pieces: Pieces, right: Value) -> Option<Made>
    requires base { Base S.meaning config.now }
    requires pieces { HasPieces config.now pieces }
    requires right { HasValue config.now right }
    ensures ends { IfSome result (λ m. YieldsWith (λ t env. line.operate BinaryOperator.Add (String (joined t pieces)) (value_in t right) env)
        (λ t. made_in t m) config.now) }
    ensures found { IfSome result (λ m. HasMade config.now m) }
{
    if is_object(right) {
        return None;
    }
    let more = longer(config, pieces, right)?;
    if !fits(config, more) {
        return None;
    }
    Some(Made::Joined(more))
}

/// A value, and texts that are joined behind it: `+` joins all.
fn after_value<S: WorldStore>(
    config: &Config<S>,
    operator: BinaryOperator,
    left: Value,
    pieces: Pieces,
) -> Option<Made>
    requires base { Base S.meaning config.now }
    requires left { HasValue config.now left }
    requires pieces { HasPieces config.now pieces }
    ensures ends { IfSome result (λ m. YieldsWith (λ t env. line.operate operator (value_in t left) (String (joined t pieces)) env)
        (λ t. made_in t m) config.now) }
    ensures found { IfSome result (λ m. HasMade config.now m) }
{
    match operator {
        BinaryOperator::Add => in_front(config, left, pieces),
        _ => None,
    }
}

/// A primitive, and texts that are joined behind it.
fn in_front<S: WorldStore>(config: &Config<S>, left: Value, pieces: Pieces) -> Option<Made>
    requires base { Base S.meaning config.now }
    requires left { HasValue config.now left }
    requires pieces { HasPieces config.now pieces }
    ensures ends { IfSome result (λ m. YieldsWith (λ t env. line.operate BinaryOperator.Add (value_in t left) (String (joined t pieces)) env)
        (λ t. made_in t m) config.now) }
    ensures found { IfSome result (λ m. HasMade config.now m) }
{
    if is_object(left) {
        return None;
    }
    let more = led(config, left, pieces)?;
    if !fits(config, more) {
        return None;
    }
    Some(Made::Joined(more))
}

/// The pieces with one more behind them; None where there are four.
fn longer<S: WorldStore>(config: &Config<S>, pieces: Pieces, last: Value) -> Option<Pieces>
    requires values { HasValues config.now pieces }
    requires last { HasValue config.now last }
    ensures text { IfSome result (λ p. (t : Table) → joined t p ≡ joined t pieces ++ spelled t last) }
    ensures found { IfSome result (λ p. HasValues config.now p) }
{
    match pieces.fourth {
        Some(_) => None,
        None => Some(lengthened(config, pieces, last)),
    }
}

/// The same of three pieces at most.
fn lengthened<S: WorldStore>(config: &Config<S>, pieces: Pieces, last: Value) -> Pieces
    requires values { HasValues config.now pieces }
    requires last { HasValue config.now last }
    requires three { pieces.fourth ≡ None }
    ensures text { (t : Table) → joined t result ≡ joined t pieces ++ spelled t last }
    ensures found { HasValues config.now result }
{
    let _config = config;
    match pieces.third {
        None => Pieces {
            first: pieces.first,
            second: pieces.second,
            third: Some(last),
            fourth: None,
        },
        Some(third) => Pieces {
            first: pieces.first,
            second: pieces.second,
            third: Some(third),
            fourth: Some(last),
        },
    }
}

/// The pieces with one more before them; None where there are four.
fn led<S: WorldStore>(config: &Config<S>, first: Value, pieces: Pieces) -> Option<Pieces>
    requires first { HasValue config.now first }
    requires values { HasValues config.now pieces }
    ensures text { IfSome result (λ p. (t : Table) → joined t p ≡ spelled t first ++ joined t pieces) }
    ensures found { IfSome result (λ p. HasValues config.now p) }
{
    let _config = config;
    match pieces.fourth {
        Some(_) => None,
        None => Some(Pieces {
            first,
            second: pieces.first,
            third: Some(pieces.second),
            fourth: pieces.third,
        }),
    }
}

/// Whether their text is certainly not too long.
fn fits<S: WorldStore>(config: &Config<S>, pieces: Pieces) -> bool
    requires base { Base S.meaning config.now }
    requires values { HasValues config.now pieces }
    ensures { result ≡ true → IsShort config.now pieces }
{
    let front = most_units(config, pieces.first) + most_units(config, pieces.second);
    let back = most_if(config, pieces.third) + most_if(config, pieces.fourth);
    front + back <= LONGEST_TEXT
}

/// At most so many code units a piece has that may be missing.
#[inline(always)]
fn most_if<S: WorldStore>(config: &Config<S>, piece: Option<Value>) -> usize
    requires base { Base S.meaning config.now }
    requires piece { HasIf config.now piece }
    ensures most { (t : Table) → Grows config.now.heap.texts t → length (spelled_if t piece) ≤ result }
    ensures short { result ≤ longest }
{
    match piece {
        Some(value) => most_units(config, value),
        None => 0,
    }
}
