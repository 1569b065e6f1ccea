//! What values count as, in every table of texts that has grown from the one at hand.
ghost use Rattle.std.specs.Prelude.{◌≡◌, Some, pos, unwrap_or, IfOk, OnOk};
ghost use Rattle.wjs_base.specs.Text.{Table, Grows, Has};
ghost use Rattle.wjs_by_content.specs.Tables.{text_in, value_in};
ghost use Rattle.wjs_by_content.specs.Conversions as conversions;
ghost use Rattle.wjs_model.specs.Soundness.{Base, HasValue};
ghost use Rattle.wjs_heap.specs.Means.{nothing};
ghost use Rattle.wjs_frames.specs.Doing.{Does};
ghost use Rattle.wjs_frames.specs.Following.{Later};

use wjs_base::{OutOfMemory, TextId, Value, Whole};
use wjs_model::Config;
use wjs_step_common::to_number;
use wjs_store::WorldStore;

/// The whole number that a primitive counts as, where NaN becomes 0 (ECMA-262, 3rd edition, section 9.4).
pub(crate) fn integer_of<S: WorldStore>(config: &Config<S>, value: Value) -> Whole
    requires base { Base S.meaning config.now }
    requires value { HasValue config.now value }
    ensures { (t : Table) → Grows config.now.heap.texts t → Some (unwrap_or (conversions.primitive_number (value_in t value)) (pos 0)) ≡ result.number }
{
    let number = to_number(config, value);
    match number.get() {
        Some(_) => number,
        None => Whole::new(0).unwrap(),
    }
}

/// The text that a primitive counts as (section 9.8), which is put last where it is new. No deed is done.
pub(crate) fn text_of<S: WorldStore>(
    config: &mut Config<S>,
    value: Value,
) -> Result<TextId, OutOfMemory>
    requires base { Base S.meaning config.old }
    requires value { HasValue config.old value }
    ensures does { IfOk result (λ id. Does S.meaning (λ t go. go nothing) (λ t. nothing) config.old config.new) }
    ensures later { OnOk result (Later S.meaning config.old config.new) }
    ensures found { IfOk result (λ id. Has config.new.heap.texts id) }
    ensures text { IfOk result (λ id. (t : Table) → Grows config.new.heap.texts t → text_in t id ≡ conversions.primitive_text (value_in t value)) }
{
    let alloc = config.heap.arena.allocator();
    let id = wjs_convert::to_text(alloc, &mut config.heap.texts, value)?;
    Ok(id)
}
