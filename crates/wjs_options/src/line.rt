//! The line that says what is wrong with the words.
ghost use Rattle.std.specs.Prelude.{IfOk, string_bytes};
ghost use Rattle.wjs_options.specs.Lines.{HasNoLineFeed, IsUsageLine};

use std::alloc::{AllocError, Global};

/// `text` up to its first line feed.
fn first_line(text: &str) -> &str
    ensures { HasNoLineFeed result.now }
{
    match text.split_once('\n') {
        Some((first, _)) => first,
        None => text,
    }
}

/// `usage: `, the first line of what `error` shows, and a line feed.
pub(crate) fn usage_line(alloc: Global, error: &clap::Error) -> Result<String, AllocError>
    ensures { IfOk result (λ line. IsUsageLine (string_bytes line)) }
{
    let shown = format!(in alloc; "{error}")?;
    let first = first_line(shown.as_str());
    format!(in alloc; "usage: {first}\n")
}
