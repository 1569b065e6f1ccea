//! Whether two contents are one.
ghost use Rattle.std.specs.Prelude.{◌≡◌};
ghost use Rattle.wjs_base.specs.Same.{same_value};
ghost use Rattle.wjs_store.specs.State.{same_content};
ghost use Rattle.wjs_store.specs.Shown.{content_of};

use wjs_base::{Content, same_value};

/// Whether both are absent, or one value.
pub fn same_content(a: Content, b: Content) -> bool
    ensures { result ≡ same_content same_value (content_of a) (content_of b) }
{
    match (a, b) {
        (Content::Absent, Content::Absent) => true,
        (Content::Present(a), Content::Present(b)) => same_value(a, b),
        _ => false,
    }
}
