//! The first objects as constants; their order in `Builtin` is that of their numbers.

use wjs_base::ObjId;
use wjs_meaning::Builtin;

pub(crate) const OBJECT_PROTOTYPE: ObjId = ObjId {
    owner: 0,
    serial: Builtin::ObjectPrototype as u64,
};

pub(crate) const FUNCTION_PROTOTYPE: ObjId = ObjId {
    owner: 0,
    serial: Builtin::FunctionPrototype as u64,
};

pub const GLOBAL_OBJECT: ObjId = ObjId {
    owner: 0,
    serial: Builtin::Global as u64,
};

pub(crate) const ARRAY_PROTOTYPE: ObjId = ObjId {
    owner: 0,
    serial: Builtin::ArrayPrototype as u64,
};

pub(crate) const WORLD_PROTOTYPE: ObjId = ObjId {
    owner: 0,
    serial: Builtin::WorldPrototype as u64,
};

pub(crate) const ERROR_PROTOTYPE: ObjId = ObjId {
    owner: 0,
    serial: Builtin::ErrorPrototype as u64,
};

pub(crate) const TYPE_ERROR_PROTOTYPE: ObjId = ObjId {
    owner: 0,
    serial: Builtin::TypeErrorPrototype as u64,
};

pub(crate) const RANGE_ERROR_PROTOTYPE: ObjId = ObjId {
    owner: 0,
    serial: Builtin::RangeErrorPrototype as u64,
};

pub(crate) const REFERENCE_ERROR_PROTOTYPE: ObjId = ObjId {
    owner: 0,
    serial: Builtin::ReferenceErrorPrototype as u64,
};

pub(crate) const MATH_OBJECT: ObjId = ObjId {
    owner: 0,
    serial: Builtin::Math as u64,
};

/// The number of the first native, behind the objects above and the first world's.
pub(crate) const FIRST_NATIVE: u64 = Builtin::FirstWorld as u64 + 1;
