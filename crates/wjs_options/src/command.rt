//! The command as `clap` knows it.
ghost use Rattle.std.specs.Prelude.{◌≡◌, IfOk, false};
ghost use Rattle.clap.specs.Words.{app_of, rule_of};
ghost use Rattle.wjs_options.specs.Command.{IsCommand, option_rule};

use crate::mode::MODES;
use clap::builder::ValueParser;
use clap::{Arg, ArgAction, Command};
use std::alloc::{AllocError, Global};

/// The most steps that a run may be given.
const MOST_STEPS: u64 = 1_000_000_000_000;

/// The greatest number that a generated script is made from.
const MOST_NUMBER: u64 = 50_000;

/// The most steps of a turn.
const MOST_TURN: u64 = 1_000_000;

/// `--id VALUE`, with `otherwise` where it isn't given.
fn option<'a>(alloc: Global, id: &'a str, parser: ValueParser<'a>, otherwise: &'a str) -> Arg<'a>
    ensures rule { rule_of result ≡ option_rule id.entry.now parser.entry otherwise.entry.now }
    ensures local { result.global ≡ false }
{
    Arg::new(alloc, id)
        .long(id)
        .action(ArgAction::Set)
        .value_parser(parser)
        .default_value(otherwise)
}

/// `worlds [--steps N] [--mode M] [--number K] [--turn Q]`
pub(crate) fn command<'a>(alloc: Global) -> Result<Command<'a>, AllocError>
    ensures { IfOk result (λ c. IsCommand (app_of c)) }
{
    let steps = ValueParser::unsigned(1, MOST_STEPS);
    let modes = ValueParser::Names(MODES.as_slice());
    let number = ValueParser::unsigned(1, MOST_NUMBER);
    let turn = ValueParser::unsigned(1, MOST_TURN);
    Command::new(alloc, "worlds")
        .arg(option(alloc, "steps", steps, "10000000"))?
        .arg(option(alloc, "mode", modes, "run"))?
        .arg(option(alloc, "number", number, "1000"))?
        .arg(option(alloc, "turn", turn, "100"))
}
