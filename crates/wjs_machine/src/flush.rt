//! Output that is pending goes out in full pieces.
ghost use Rattle.std.specs.Prelude.{◌≡◌, ◌≤◌, ◌<◌, OnOk, OnErr, length, drop};
ghost use Rattle.wjs_io.specs.Streams.{over, Stops};
ghost use Rattle.wjs_machine.specs.Flushing.{Flushes, FlushesAll};

use wjs_io::{Failed, PIECE, Sink, write_pieces};
use wjs_model::Config;
use wjs_store::WorldStore;

/// Writes full pieces until fewer bytes than a piece are pending.
pub(crate) fn flush<S: WorldStore, O: Sink>(
    config: &mut Config<S>,
    out: &mut O,
) -> Result<(), Failed>
    ensures ok { OnOk result (Flushes (over O.seen out.old out.new) config.old config.new) }
    ensures err { OnErr result (Stops (over O.seen out.old out.new) config.old.pending.items) }
    ensures never_falls { (O.seen out.old).faults ≤ (O.seen out.new).faults }
{
    if config.pending.len() < PIECE {
        return Ok(());
    }
    write_whole(config, out)
}

/// Writes all full pieces that are pending.
fn write_whole<S: WorldStore, O: Sink>(config: &mut Config<S>, out: &mut O) -> Result<(), Failed>
    ensures ok { OnOk result (Flushes (over O.seen out.old out.new) config.old config.new) }
    ensures err { OnErr result (Stops (over O.seen out.old out.new) config.old.pending.items) }
    ensures never_falls { (O.seen out.old).faults ≤ (O.seen out.new).faults }
{
    let whole = config.pending.len() - config.pending.len() % PIECE;
    let (front, _behind) = config.pending.split_at(whole);
    match write_pieces(out, front) {
        Ok(()) => {
            keep_from(&mut config.pending, whole);
            Ok(())
        }
        Err(failed) => Err(failed),
    }
}

/// Drops the first bytes.
fn keep_from(bytes: &mut Vec<u8>, gone: usize)
    requires { gone ≤ length bytes.old.items }
    ensures { bytes.new.items ≡ drop gone bytes.old.items }
{
    let left = bytes.len() - gone;
    bytes.as_mut_slice().copy_within(gone.., 0);
    bytes.truncate(left);
}

/// Writes all that is pending.
pub(crate) fn flush_all<S: WorldStore, O: Sink>(
    config: &mut Config<S>,
    out: &mut O,
) -> Result<(), Failed>
    ensures ok { OnOk result (FlushesAll (over O.seen out.old out.new) config.old config.new) }
    ensures err { OnErr result (Stops (over O.seen out.old out.new) config.old.pending.items) }
    ensures never_falls { (O.seen out.old).faults ≤ (O.seen out.new).faults }
{
    write_pieces(out, config.pending.as_slice())?;
    config.pending.clear();
    Ok(())
}
