//! What the program is asked to do.
ghost use Rattle.std.specs.Prelude.{◌≡◌};
ghost use Rattle.wjs_options.specs.Options.{mode_named};

/// What the program is asked to do.
#[derive(Clone, Copy)]
pub enum Mode {
    /// Run the script.
    Run,
    /// Read and parse the script, and run nothing.
    Check,
    /// Run the script, and then write a line for each world.
    Tree,
    /// Run a generated script in place of one that is read.
    Gen,
    /// Run the scripts that the source is divided into by turns, each in a world of its own, which is committed where it ends normally.
    Play,
    /// Run the script, and write the log of its actions on worlds in place of what it prints.
    Log,
    /// Read a log of actions on worlds, and say whether its answers are the full-copy machine's.
    Audit,
}

/// The names of the modes.
pub(crate) static MODES: [&str; 7] = ["run", "check", "tree", "gen", "play", "log", "audit"];

impl Mode {
    /// The mode of this name, where it is one's.
    pub(crate) fn named(name: &str) -> Option<Mode>
        ensures { result ≡ mode_named name.now }
    {
        match name {
            "run" => Some(Mode::Run),
            "check" => Some(Mode::Check),
            "tree" => Some(Mode::Tree),
            "gen" => Some(Mode::Gen),
            "play" => Some(Mode::Play),
            "log" => Some(Mode::Log),
            "audit" => Some(Mode::Audit),
            _ => None,
        }
    }
}
