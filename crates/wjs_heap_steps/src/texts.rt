//! Texts and names.
ghost use Rattle.std.specs.Prelude.{◌≡◌, ◌+◌, ◌≤◌, ◌++◌, length, IfOk, OnOk};
ghost use Rattle.wjs_base.specs.Text.{Table, Grows, Has, longest};
ghost use Rattle.wjs_by_content.specs.Tables.{text_in, name_in};
ghost use Rattle.wjs_model.specs.Soundness.{Base, HasName};
ghost use Rattle.wjs_frames.specs.Doing.{Does};
ghost use Rattle.wjs_frames.specs.Following.{Later};

use wjs_base::{Name, OutOfMemory, TextId};
use wjs_model::Config;
use wjs_store::WorldStore;

/// The number of the text of these code units, which is put last where it is new. No deed is done.
pub fn intern<S: WorldStore>(config: &mut Config<S>, units: &[u16]) -> Result<TextId, OutOfMemory>
    requires base { Base S.meaning config.old }
    requires short { length units.now ≤ longest }
    ensures does { IfOk result (λ id. Does S.meaning (λ t go. go units.now) (λ t. text_in t id) config.old config.new) }
    ensures later { OnOk result (Later S.meaning config.old config.new) }
    ensures found { IfOk result (λ id. Has config.new.heap.texts id) }
    ensures text { IfOk result (λ id. (t : Table) → Grows config.new.heap.texts t → text_in t id ≡ units.now) }
{
    Ok(config.heap.texts.intern(units)?)
}

/// The number of the text that has the units of `front` and then these, which is put last where it is new. No deed is done.
pub fn extend<S: WorldStore>(
    config: &mut Config<S>,
    front: TextId,
    back: &[u16],
) -> Result<TextId, OutOfMemory>
    requires base { Base S.meaning config.old }
    requires front { Has config.old.heap.texts front }
    requires short { length (text_in config.old.heap.texts front) + length back.now ≤ longest }
    ensures does { IfOk result (λ id. Does S.meaning (λ t go. go (text_in t front ++ back.now)) (λ t. text_in t id) config.old config.new) }
    ensures later { OnOk result (Later S.meaning config.old config.new) }
    ensures found { IfOk result (λ id. Has config.new.heap.texts id) }
    ensures text { IfOk result (λ id. (t : Table) → Grows config.new.heap.texts t → text_in t id ≡ text_in t front ++ back.now) }
{
    Ok(config.heap.texts.extend(front, back)?)
}

/// The name of a text.
pub fn name_of<S: WorldStore>(config: &Config<S>, id: TextId) -> Name
    requires base { Base S.meaning config.now }
    requires text { Has config.now.heap.texts id }
    ensures found { HasName config.now result }
    ensures name { (t : Table) → Grows config.now.heap.texts t → name_in t result ≡ text_in t id }
{
    config.heap.texts.name_of(id)
}

/// The number of the text that a name spells, which is put last where it is new. No deed is done.
pub fn text_of<S: WorldStore>(config: &mut Config<S>, name: Name) -> Result<TextId, OutOfMemory>
    requires base { Base S.meaning config.old }
    requires name { HasName config.old name }
    ensures does { IfOk result (λ id. Does S.meaning (λ t go. go (name_in t name)) (λ t. text_in t id) config.old config.new) }
    ensures later { OnOk result (Later S.meaning config.old config.new) }
    ensures found { IfOk result (λ id. Has config.new.heap.texts id) }
    ensures text { IfOk result (λ id. (t : Table) → Grows config.new.heap.texts t → text_in t id ≡ name_in t name) }
{
    let id = config.heap.texts.text_of(name)?;
    Ok(id)
}

/// The code units of a text.
pub fn units_of<'a, S: WorldStore>(config: &'a Config<S>, id: TextId) -> &'a [u16]
    requires { Has config.now.heap.texts id }
    ensures text { (t : Table) → Grows config.now.heap.texts t → text_in t id ≡ result.now }
    ensures short { length result.now ≤ longest }
{
    config.heap.texts.units(id)
}
