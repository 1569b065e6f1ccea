//! Programs and parts that run over full copies, rest, are entered and walked.
ghost use Rattle.std.specs.Prelude.{◌≡◌, IfOk};
ghost use Rattle.wjs_model.specs.Soundness.{Sound};

use std::alloc::Global;
use std::test::Fail;
use wjs_full::FullStore;
use wjs_io::Unheard;
use wjs_load::load;
use wjs_machine_tests::{
    is_of_owner, run_part, run_program, turn_heard, two_turns, walk_on, world_of_object,
};
use wjs_model::{Config, State};
use wjs_start::start;
use wjs_store::WorldStore;
use wjs_texts::Texts;

const SCRIPT: &[u8] = b"var x = 1, w = thisWorld.sprout(); in w { x = 2; } w.commit(); print(x);";

/// The script's run at its end.
fn ran(alloc: Global) -> Result<Config<FullStore>, Fail> {
    let mut texts = Texts::new(alloc)?;
    let Ok(script) = load(alloc, SCRIPT, &mut texts) else {
        return Err("refused")?;
    };
    let store = FullStore::new(alloc)?;
    let config = run_program(alloc, texts, store, None, script, 1000)?;
    Ok(config)
}

/// The script's run before its first step.
fn begun(alloc: Global) -> Result<Config<FullStore>, Fail>
    ensures sound { IfOk result (Sound ⟦<FullStore as WorldStore>⟧.meaning) }
    ensures running { IfOk result (λ config. config.state ≡ State.Running) }
{
    let mut texts = Texts::new(alloc)?;
    let Ok(script) = load(alloc, SCRIPT, &mut texts) else {
        return Err("refused")?;
    };
    let store = FullStore::new(alloc)?;
    let config = start(alloc, texts, store, None, script, 1000)?;
    Ok(config)
}

/// The end of the script as a part without a library.
fn ran_alone(alloc: Global) -> Result<Config<FullStore>, Fail> {
    let mut texts = Texts::new(alloc)?;
    let Ok(part) = load(alloc, SCRIPT, &mut texts) else {
        return Err("refused")?;
    };
    let store = FullStore::new(alloc)?;
    let config = run_part(alloc, texts, store, None, part, 1000)?;
    Ok(config)
}

/// The end of a part behind a library that it needs.
fn ran_behind(alloc: Global) -> Result<Config<FullStore>, Fail> {
    let mut texts = Texts::new(alloc)?;
    let Ok(library) = load(alloc, b"y = 3;", &mut texts) else {
        return Err("refused")?;
    };
    let Ok(part) = load(alloc, b"print(y);", &mut texts) else {
        return Err("refused")?;
    };
    let store = FullStore::new(alloc)?;
    let config = run_part(alloc, texts, store, Some(library), part, 100)?;
    Ok(config)
}

/// Whether a run has ended normally, with this output that nobody took.
fn has_done(config: &Config<FullStore>, output: &[u8]) -> bool {
    matches!(config.state, State::Done) && config.pending.as_slice() == output
}

#[test]
fn a_program_runs_unheard(rt: HostRuntime) -> Result<(), Fail> {
    let config = ran(rt.alloc())?;
    assert!(rt; has_done(&config, b""));
    Ok(())
}

#[test]
fn a_run_rests_between_turns(rt: HostRuntime) -> Result<(), Fail> {
    let mut config = begun(rt.alloc())?;
    assert!(rt; is_of_owner(&config, config.world));
    assert!(rt; world_of_object(&config, config.global).is_none());
    two_turns(&mut config)?;
    assert!(rt; matches!(config.state, State::Running));
    Ok(())
}

#[test]
fn a_turn_is_heard(rt: HostRuntime) -> Result<(), Fail> {
    let mut config = begun(rt.alloc())?;
    let mut nobody = Unheard;
    assert!(rt; turn_heard(&mut config, &mut nobody).is_ok());
    assert!(rt; matches!(config.state, State::Running));
    Ok(())
}

#[test]
fn a_walk_pauses_and_goes_on(rt: HostRuntime) -> Result<(), Fail> {
    let mut config = begun(rt.alloc())?;
    let first = walk_on(&mut config, 5)?;
    assert!(rt; first == 5 && config.left == 995);
    assert!(rt; matches!(config.state, State::Running));
    let second = walk_on(&mut config, 5000)?;
    assert!(rt; second > 5 && has_done(&config, b"2\n"));
    Ok(())
}

#[test]
fn parts_run_alone_and_behind_a_library(rt: HostRuntime) -> Result<(), Fail> {
    let alone = ran_alone(rt.alloc())?;
    assert!(rt; has_done(&alone, b"2\n"));
    let behind = ran_behind(rt.alloc())?;
    assert!(rt; has_done(&behind, b"3\n"));
    Ok(())
}
