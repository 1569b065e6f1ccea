//! Tests that take the whole program: the command over streams in memory, and its scripts over full copies. What the built program
//! shows by itself, also where its streams fail, is told by the rows of `tests/`.
#![tactic(auto)]

#[cfg(test)]
mod command;
