//! The scripts over a store that keeps every copy, in place of the program's own.
ghost use Rattle.std.specs.Prelude.{◌≢◌};

use super::*;
use std::test::Fail;
use wjs_command::perform_in;
use wjs_full::FullStore;
use wjs_options::{Mode, Options};

/// Scripts on worlds, and what they print. Between them they do each action of a store: reads, writes, listings, sprouts both plain
/// and strict, a commit and one that is refused.
const SCRIPTS: [(&str, &str); 3] = [
    (
        "var x = 1; var w = thisWorld.sprout(); in w { x = 2; print(x); } print(x); w.commit(); print(x);",
        "2\n1\n2\n",
    ),
    (
        "var o = {b: 1, a: 2}, w = thisWorld.sprout(); in w { for (var k in o) print(k); } o.c = 3; try { w.commit(); } catch (e) { print(e.name); }",
        "a\nb\nCommitFailed\n",
    ),
    (
        "var x = 1, w = thisWorld.sproutStrict(); in w { x = 2; } x = 5; try { w.commit(); } catch (e) { print(e.name); } in w { print(x); }",
        "CommitFailed\n2\n",
    ),
];

/// A script whose worlds are shown at the end, and what is written then.
const TREES: [(&str, &str); 1] = [(
    "var a = [1]; a[64] = 1; var w = thisWorld.sprout(); in w { a.length = 0; }",
    "world 0 reads 0 writes 0 closed 0\nworld 1 parent 0 reads 4 writes 3 closed 1\n",
)];

/// What a script that ends normally prints over full copies.
fn printed_over(alloc: Global, mode: Mode, script: &[u8]) -> Result<Vec<u8>, Fail>
    requires { mode ≢ Mode.Play }
{
    if script.len() > 16_777_216 {
        return Err("too long")?;
    }
    let store = FullStore::new(alloc)?;
    let mut out = sink(alloc, WHOLE)?;
    let options = Options {
        steps: 10_000_000,
        mode,
        number: 1,
        turn: 1,
    };
    match perform_in(alloc, store, options, script, &mut out) {
        Ok(report) if report.status == Status::Done => Ok(out.content().to_vec(alloc)?),
        _ => Err("not done")?,
    }
}

#[test]
fn scripts_over_full_copies(rt: HostRuntime) -> Result<(), Fail> {
    for (script, printed) in &SCRIPTS {
        let out = printed_over(rt.alloc(), Mode::Run, script.as_bytes())?;
        assert!(rt; out.as_slice() == printed.as_bytes(), "{script}");
    }
    for (script, printed) in &TREES {
        let out = printed_over(rt.alloc(), Mode::Tree, script.as_bytes())?;
        assert!(rt; out.as_slice() == printed.as_bytes(), "{script}");
    }
    Ok(())
}
