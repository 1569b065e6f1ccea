//! The words, read.
ghost use Rattle.std.specs.Prelude.{◌≢◌, map, string_bytes};
ghost use Rattle.clap.specs.Words.{App, found_of, kind_of, rows_of};
ghost use Rattle.wjs_options.specs.Command.{IsCommand, command};
ghost use Rattle.wjs_options.specs.Options.{Answers, Gives, HasOptions, Says};

use crate::answer::{Options, WordsFault};
use crate::command::command;
use crate::line::usage_line;
use crate::mode::Mode;
use clap::ArgMatches;
use clap::error::ErrorKind;
use std::alloc::Global;

/// What the words of the command line ask for, of which the first is the program's name.
///
/// Without a fault by `clap`'s definitions the options are those of its matches: `--steps` (10000000
/// where it isn't given), `--mode` (`run`), `--number` (1000) and `--turn` (100).
///
/// # Errors
///
/// `Usage` comes exactly where `clap`'s definitions give a fault, as for words that ask for help.
/// `OutOfMemory` may come with any words.
pub fn options(alloc: Global, words: &[String]) -> Result<Options, WordsFault>
    ensures command { Answers command (map string_bytes words.now) result }
    ensures any { (app : App) → IsCommand app → Answers app (map string_bytes words.now) result }
{
    let command = command(alloc)?;
    match command.try_get_matches_from(words) {
        Ok(matches) => Ok(read(&matches)),
        Err(error) => Err(fault(alloc, &error)),
    }
}

fn read(matches: &ArgMatches<'_>) -> Options
    requires { HasOptions (rows_of (found_of matches.now)) }
    ensures { Gives (rows_of (found_of matches.now)) result }
{
    let mode = matches.get_str("mode").unwrap();
    Options {
        steps: matches.get_one::<u64>("steps").unwrap(),
        mode: Mode::named(mode).unwrap(),
        number: matches.get_one::<u64>("number").unwrap(),
        turn: matches.get_one::<u64>("turn").unwrap(),
    }
}

fn fault(alloc: Global, error: &clap::Error) -> WordsFault
    ensures { Says (kind_of error.now ≢ ErrorKind.OutOfMemory) result }
{
    if error.kind() == ErrorKind::OutOfMemory {
        return WordsFault::OutOfMemory;
    }
    match usage_line(alloc, error) {
        Ok(line) => WordsFault::Usage(line),
        Err(_) => WordsFault::OutOfMemory,
    }
}
