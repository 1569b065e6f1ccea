//! Contents become short ones, and back.
ghost use Rattle.std.specs.Prelude.{◌≡◌, None, Some, pos, neg_ℤ, unsigned_abs};
ghost use Rattle.wjs_base.specs.Range.{InRange};
ghost use Rattle.wjs_base.specs.declared.number.Whole.{Whole};
ghost use Rattle.wjs_base.specs.declared.values.Value.TheVariants as values;
ghost use Rattle.wjs_base.specs.declared.values.Content.TheVariants.{Present};
ghost use Rattle.wjs_layers.specs.Kinds.{number_in};
ghost use Rattle.wjs_layers.specs.Shorts.{nan, content_by, content_in, is_write};

use crate::compact::{Kind, Mark, ShortContent};
use wjs_base::{Content, ObjId, TextId, Value, Whole};

impl ShortContent {
    /// The content.
    #[inline(always)]
    pub fn content(&self) -> Content
        ensures { result ≡ content_in self.now }
    {
        match self.kind {
            Kind::Absent => Content::Absent,
            Kind::Undefined => Content::Present(Value::Undefined),
            Kind::Null => Content::Present(Value::Null),
            Kind::False => Content::Present(Value::Bool(false)),
            Kind::True => Content::Present(Value::Bool(true)),
            Kind::Nan => Content::Present(Value::Number(Whole::NAN)),
            Kind::Number => Content::Present(Value::Number(above(self.number))),
            Kind::Negative => Content::Present(Value::Number(below(self.number))),
            Kind::Text => Content::Present(Value::Text(TextId(self.number))),
            Kind::Object => Content::Present(Value::Object(ObjId {
                owner: self.owner,
                serial: self.number,
            })),
        }
    }

    /// Whether its mark is one of writing.
    pub fn is_written(&self) -> bool
        ensures { result ≡ is_write self.now.mark }
    {
        match self.mark {
            Mark::Read => false,
            Mark::Written => true,
            Mark::Filled => true,
            Mark::Changed => true,
        }
    }
}

/// A number that is this far above 0.
fn above(number: u64) -> Whole
    requires { InRange (pos number) }
    ensures { result.number ≡ Some (pos number) }
{
    Whole::new(number as i64).unwrap()
}

/// A number that is this far below 0.
fn below(number: u64) -> Whole
    requires { InRange (neg_ℤ (pos number)) }
    ensures { result.number ≡ Some (neg_ℤ (pos number)) }
{
    Whole::new(-(number as i64)).unwrap()
}

/// A content in short.
pub fn short(content: Content, mark: Mark) -> ShortContent
    ensures content { content_in result ≡ content }
    ensures mark { result.mark ≡ mark }
{
    match content {
        Content::Absent => bare(Kind::Absent, 0, 0, mark),
        Content::Present(value) => short_value(value, mark),
    }
}

/// A value in short.
pub fn short_value(value: Value, mark: Mark) -> ShortContent
    ensures content { content_in result ≡ Present value }
    ensures mark { result.mark ≡ mark }
{
    match value {
        Value::Undefined => bare(Kind::Undefined, 0, 0, mark),
        Value::Null => bare(Kind::Null, 0, 0, mark),
        Value::Bool(false) => bare(Kind::False, 0, 0, mark),
        Value::Bool(true) => bare(Kind::True, 0, 0, mark),
        Value::Number(whole) => short_number(whole, mark),
        Value::Text(text) => bare(Kind::Text, text.0, 0, mark),
        Value::Object(object) => bare(Kind::Object, object.serial, object.owner, mark),
    }
}

/// What is no number, or NaN.
fn bare(kind: Kind, number: u64, owner: u32, mark: Mark) -> ShortContent
    requires { number_in kind number ≡ None }
    ensures content { content_in result ≡ content_by kind number owner nan }
    ensures mark { result.mark ≡ mark }
{
    ShortContent {
        number,
        owner,
        kind,
        mark,
    }
}

/// A number in short.
fn short_number(whole: Whole, mark: Mark) -> ShortContent
    ensures content { content_in result ≡ Present (values.Number whole) }
    ensures mark { result.mark ≡ mark }
{
    match whole.get() {
        None => bare(Kind::Nan, 0, 0, mark),
        Some(n) => sized(n, mark),
    }
}

/// A number other than NaN in short.
fn sized(n: i64, mark: Mark) -> ShortContent
    requires { InRange n }
    ensures content { (whole : Whole) → whole.number ≡ Some n → content_in result ≡ Present (values.Number whole) }
    ensures mark { result.mark ≡ mark }
{
    let kind = side(n);
    ShortContent {
        number: n.unsigned_abs(),
        owner: 0,
        kind,
        mark,
    }
}

/// On which side of 0 a number is.
fn side(n: i64) -> Kind
    ensures number { number_in result (unsigned_abs n) ≡ Some n }
    ensures content { (whole : Whole) → content_by result (unsigned_abs n) 0 whole ≡ Present (values.Number whole) }
{
    if n < 0 { Kind::Negative } else { Kind::Number }
}
