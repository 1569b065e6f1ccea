//! Sets of names: those that a listing passes over.
ghost use Rattle.std.specs.Prelude.{◌≡◌, true, OnOk, if◌then◌else◌};
ghost use Rattle.std.specs.Ordering.{eq_by_cmp};
ghost use Rattle.wjs_base.specs.declared.values.Name.{Name};
ghost use Rattle.wjs_base.specs.Order.{name_cmp};
ghost use Rattle.wjs_props.specs.Listing.{is_in, names_under, Adds};

use std::collections::BTreeSet;
use wjs_base::{Name, Names, OutOfMemory, Value};

/// Adds names.
pub fn add_names(set: &mut BTreeSet<Name>, names: &Names) -> Result<(), OutOfMemory>
    ensures { OnOk result (Adds set.old set.new names.now) }
{
    let mut place = 0;
    'names: while place < names.len() {
        put(set, names.at(place))?;
        place += 1;
    }
    Ok(())
}

/// Adds the names of fixed properties.
pub fn add_fixed(set: &mut BTreeSet<Name>, fixed: &[(Name, Value)]) -> Result<(), OutOfMemory>
    ensures { OnOk result (Adds set.old set.new (names_under fixed.now)) }
{
    for entry in fixed {
        put(set, entry.0)?;
    }
    Ok(())
}

/// Adds a name.
fn put(set: &mut BTreeSet<Name>, name: Name) -> Result<(), OutOfMemory>
    ensures { OnOk result ((n : Name) → is_in set.new n ≡ (if eq_by_cmp name_cmp n name then true else is_in set.old n)) }
{
    set.insert(name)?;
    Ok(())
}
