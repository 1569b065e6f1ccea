//! Which native functions are the core's.
ghost use Rattle.std.specs.Prelude.{◌≡◌};
ghost use Rattle.wjs_natives.specs.Cores.{is_core};

use wjs_arena::Native;

/// Whether a native function is one of Object, Function, Error, World or Array.
pub fn is_core(native: Native) -> bool
    ensures { result ≡ is_core native }
{
    matches!(
        native,
        Native::Object(_)
            | Native::Function(_)
            | Native::Error(_)
            | Native::World(_)
            | Native::Array(_)
    )
}
